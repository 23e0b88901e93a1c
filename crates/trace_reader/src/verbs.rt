//! The third word of a line.

ghost use Rattle.std.specs.Prelude.{◌≡◌};
ghost use Rattle.sequence.specs.Gives.{Gives};
ghost use Rattle.trace_reader.specs.Verbs.{deed_at, verb_at};

use crate::fault::TraceFaultKind;
use crate::words::{Read, same};
use sequence::Refusal;

/// What a thread does at a class.
#[derive(Clone, Copy)]
pub(crate) enum Deed {
    /// `step2`
    Waits,
    /// `step3`
    Recurs,
    /// `step4`
    FindsInitialized,
    /// `step5`
    FindsErroneous,
    /// `step6`
    Begins,
    /// `step7`, with a throwable
    SuperFails,
    /// `step9`
    Runs,
    /// `step10`
    Completes,
    /// `step12`, with a throwable
    Fails,
    /// `get`, with a static field and its value
    Gets,
    /// `put`, with a static field and its value
    Puts,
}

/// What the third word says.
#[derive(Clone, Copy)]
pub(crate) enum Verb {
    /// What a thread does at the class that follows.
    AtClass(Deed),
    /// `print`: a text follows.
    Prints,
}

/// The deed of a word, if it is one at a class.
fn deed_of(word: &[u8]) -> Option<Deed>
    ensures { result ≡ deed_at word.now }
{
    if same(word, b"step2") {
        Some(Deed::Waits)
    } else if same(word, b"step3") {
        Some(Deed::Recurs)
    } else if same(word, b"step4") {
        Some(Deed::FindsInitialized)
    } else if same(word, b"step5") {
        Some(Deed::FindsErroneous)
    } else if same(word, b"step6") {
        Some(Deed::Begins)
    } else if same(word, b"step7") {
        Some(Deed::SuperFails)
    } else if same(word, b"step9") {
        Some(Deed::Runs)
    } else if same(word, b"step10") {
        Some(Deed::Completes)
    } else if same(word, b"step12") {
        Some(Deed::Fails)
    } else if same(word, b"get") {
        Some(Deed::Gets)
    } else if same(word, b"put") {
        Some(Deed::Puts)
    } else {
        None
    }
}

/// What the third word of a line says.
#[tactic(auto, unfolding(crate::specs::Verbs::verb_at))]
pub(crate) fn verb_of(word: &[u8]) -> Read<Verb>
    ensures { Gives (λ v. v) result (verb_at word.now) }
{
    if same(word, b"print") {
        return Ok(Verb::Prints);
    }
    match deed_of(word) {
        Some(deed) => Ok(Verb::AtClass(deed)),
        None => Err(Refusal::Fault(TraceFaultKind::UnknownStep)),
    }
}
