//! From a trace's text back to its events.
//!
//! Enter by [`read_trace`]: it reads what `trace::write_trace` writes (docs/TRACES.md), and answers the events, or the first
//! fault and its line, a [`TraceFault`]. A list of events has one text and a text one list, so what was written is read again;
//! `laws` has this and more.
//!
//! A word is read by what is written: a number is taken where its decimal is the word, a field where its spelling is. Each
//! word has a function, and what they make of a line is in `lines`; none takes memory but for a text. The bytes are gone over
//! once: a line has no end that is looked for before it is read, since every word stops at one.
//!
//! In `specs/`, `TraceEvents` says which lists are read, and `TraceReading` which fault a text has, over `Reading` for one line
//! and `Words`, `Numbers`, `Verbs`, `Fields` and `Strings` for what is in it.
#![tactic(auto)]

mod fault;
mod fields;
mod laws;
mod lines;
mod numbers;
mod reader;
mod strings;
mod verbs;
mod words;

pub use fault::{TraceFault, TraceFaultKind};
pub use laws::{
    faults_are_the_first, traces_are_of_one_list, traces_are_read, what_is_written_is_read,
};
pub use reader::{MOST_BYTES, MOST_LINES, read_trace};
