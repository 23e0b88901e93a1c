//! The judge of one run's events: whether a list of them is a legal interleaving of a program's threads, and if not, which
//! event is the first that is illegal, and why.
//!
//! [`check`] goes over the list once. Of each thread it keeps the state of its procedures (JLS SE 8 12.4.2), and of each class
//! its label and what its static fields hold, but no events; so memory grows with the classes and with how deep they are
//! open, and no event takes longer because of those before it.
//!
//! Where the machine ends a thread, its events can be read in several ways: an error of the machine's own that ends a body may
//! have been thrown in it. The judge keeps the one reading that lets most follow; [`laws::reading_is_exact`] says that
//! none is lost by this, and [`laws::parts_are_judged_apart`] that threads and classes can be judged apart.
//! `specs/Verdicts.antt` says what a verdict means, `specs/Reading.antt` which event may come next.
#![tactic(auto)]

ghost use Rattle.std.specs.Prelude.{◌≡◌, ◌↔◌, IfOk};
ghost use Rattle.init_core.specs.Interleaving.{IsLegal};
ghost use Rattle.judge.specs.Verdicts.{IsVerdict};
ghost use Rattle.judge.specs.declared.verdict.Verdict.TheVariants as verdicts;

mod breach;
mod classes;
mod edition_words;
mod explanation;
mod items;
mod judge;
pub mod laws;
mod moves;
mod open_class;
mod reader;
mod readers;
mod rule_words;
mod sentences;
mod state_words;
mod value_words;
pub mod verdict;

pub use explanation::explain;
use hierarchy::{ClassId, Program};
use init_core::Event;
use judge::Judge;
use std::alloc::{AllocError, Global};
pub use verdict::{Rule, Verdict};

/// Judges the events of a run, in order, of a program's threads with these main classes: thread 0 has the first.
///
/// [`Verdict::Legal`] is answered exactly where they are a legal interleaving, whatever the bodies of the initializers and of
/// `main` do. Else the answer is the number of the first event with which they are not the beginning of one, and what that
/// event breaks: what its thread does, else the label of its class, else the value of the static field; or, where
/// they are the beginning of one, their count and [`Rule::End`].
///
/// An `Err` means out of memory, and nothing else.
pub fn check(
    alloc: Global,
    program: &Program,
    mains: &[ClassId],
    events: &[Event],
) -> Result<Verdict, AllocError>
    ensures verdict { IfOk result (λ verdict. IsVerdict program.now mains.now events.now verdict) }
    ensures legal { IfOk result (λ verdict. verdict ≡ verdicts.Legal ↔ IsLegal program.now mains.now events.now) }
{
    let mut judge = Judge::new(alloc, mains)?;
    'events: for (number, event) in events.iter().enumerate() {
        if let Some(rule) = judge.take(alloc, program, event)? {
            return Ok(Verdict::IllegalAt(number, rule));
        }
    }
    if judge.readers.may_stop() {
        Ok(Verdict::Legal)
    } else {
        Ok(Verdict::IllegalAt(events.len(), Rule::End))
    }
}
