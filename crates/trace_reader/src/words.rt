//! The words of a line.

ghost use Rattle.std.specs.Prelude.{◌≡◌, ◌≤◌, ◌<◌, length};
ghost use Rattle.std.specs.Str.{bytes_eq};
ghost use Rattle.sequence.specs.Gives.{Gives};
ghost use Rattle.trace_reader.specs.Words.{ends_word as is_ending, word_len, word_at, space_at, next_at, end_at};

use crate::fault::TraceFaultKind;
use sequence::Refusal;

/// What a line's reading answers: what was read, else what is wrong with the line, or that memory ran out.
pub(crate) type Read<T> = Result<T, Refusal<TraceFaultKind>>;

/// Whether two words have the same bytes. Words of a trace are short and mostly differ early, so they are gone over byte by byte.
pub(crate) fn same(word: &[u8], other: &[u8]) -> bool
    ensures { result ≡ bytes_eq word.now other.now }
{
    let mut rest = word;
    let mut wanted = other;
    while let [byte, after @ ..] = rest {
        match wanted {
            [first, behind @ ..] if *byte == *first => wanted = behind,
            _ => return false,
        }
        rest = after;
    }
    wanted.is_empty()
}

/// Whether a byte ends a word.
pub(crate) fn ends_word(byte: u8) -> bool
    ensures { result ≡ is_ending byte }
{
    byte == b' ' || byte == b'\n'
}

fn word_length(bytes: &[u8]) -> usize
    ensures value { result ≡ word_len bytes.now }
    ensures within { result ≤ length bytes.now }
{
    let mut count = 0;
    let mut rest = bytes;
    while let [byte, after @ ..] = rest {
        if ends_word(*byte) {
            return count;
        }
        count += 1;
        rest = after;
    }
    count
}

/// The word that the bytes begin with, and what follows it.
#[tactic(auto, unfolding(crate::specs::Words::word_at))]
pub(crate) fn word(bytes: &[u8]) -> Read<(&[u8], &[u8])>
    ensures { Gives (λ x. (x.0.now, x.1.now)) result (word_at bytes.now) }
{
    let length = word_length(bytes);
    if length == 0 {
        return Err(Refusal::Fault(TraceFaultKind::BadLine));
    }
    Ok(bytes.split_at(length))
}

/// The bytes after a space.
#[tactic(auto, unfolding(crate::specs::Words::space_at))]
pub(crate) fn behind_space(bytes: &[u8]) -> Read<&[u8]>
    ensures { Gives (λ x. x.now) result (space_at bytes.now) }
{
    match bytes {
        [b' ', after @ ..] => Ok(after),
        _ => Err(Refusal::Fault(TraceFaultKind::BadLine)),
    }
}

/// The next word, after its space, and what follows it.
#[tactic(auto, unfolding(crate::specs::Words::next_at))]
pub(crate) fn next_word(bytes: &[u8]) -> Read<(&[u8], &[u8])>
    ensures { Gives (λ x. (x.0.now, x.1.now)) result (next_at bytes.now) }
{
    let after = behind_space(bytes)?;
    word(after)
}

/// The bytes after the line's end.
#[tactic(auto, unfolding(crate::specs::Words::end_at))]
pub(crate) fn line_end(bytes: &[u8]) -> Read<&[u8]>
    ensures { Gives (λ x. x.now) result (end_at bytes.now) }
{
    match bytes {
        [b'\n', after @ ..] => Ok(after),
        _ => Err(Refusal::Fault(TraceFaultKind::BadLine)),
    }
}
