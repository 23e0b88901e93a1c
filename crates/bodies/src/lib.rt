//! What initializers and the method `main` do, as the thread sees it that runs them, and what a run of threads answers.
//!
//! Enter by the trait [`Bodies`]: what runs the code of one thread. A body goes from one of its events to the next
//! ([`Bodies::next`]) and the thread makes the event: an active use by the procedure of JLS SE 8 12.4.2, a read or a write of
//! a static field, a print. What touches what all threads share is a step of its own ([`Bodies::touch`]). [`NoCode`] is that whose bodies
//! are empty.
//!
//! A [`Report`] is what a run answers: how each thread ended, the events in their order, each class's label,
//! and the output, which [`printed_by`] takes from the events.
//!
//! A [`Bodies`] says by relations over its own states, and over what all threads share, what its bodies do: a `Sharing` of
//! `specs/Sharing.antt`. Of it comes the `Making` of `specs/Making.antt`, over which the words of a procedure are stated.
#![tactic(auto)]

mod does;
mod no_code;
mod output;
mod report;

pub use does::{Bodies, Does, Touched};
pub use no_code::NoCode;
pub use output::printed_by;
pub use report::{Limit, Limits, Report, ThreadOutcome};
