//! The one canonical spelling of a class text, and that reading undoes it.
//!
//! [`write_class`] writes it. `specs/Canonical` says what it is, line by line; [`laws`] that each is a file of the form which
//! spells its class text, and is read as this class text.
#![tactic(auto)]

mod keyword;
pub mod laws;
mod mark;
mod word;
mod write;
mod write_code;

pub use write::write_class;
