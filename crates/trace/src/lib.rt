//! How events are written: [`write_trace`] makes a numbered trace of them, one line an event.
#![tactic(auto)]

pub mod text;

pub use text::{write_class_name, write_trace};
