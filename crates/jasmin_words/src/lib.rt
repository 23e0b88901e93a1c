//! The words of Jasmin lines.
//!
//! [`words`] cuts a line into [`Token`]s. It answers every line: what is wrong with a word is a token in the
//! word's place, so that a reader meets it only if it looks there. A line of which no word is wrong is
//! spelled by its words, and a line that words spell is cut into them (`IsSpelled`).
//!
//! Beside it, what is in words is read and written: integers, member names, labels, and the strings of
//! files and of traces, whose one canonical spelling [`quote::push_quoted`] writes.
#![tactic(auto)]

mod escape;
pub mod fault;
pub mod integer;
pub mod name;
pub mod quote;
pub mod token;

pub use fault::FaultKind;
pub use token::{Token, words};
