//! From a Jasmin file's bytes to its class text.
//!
//! [`read_class`] reads a file line by line and answers its class text, or the first fault with its line. Each
//! line is cut into words first (`jasmin_words`), and what is wrong with a word is met only where the word is
//! looked at.
//!
//! To enter: `specs/Reading` says what each line adds to what was read before, and which fault is met first;
//! `specs/File` goes over the lines. The modules go the same way: `place` and `values` for single words, `operands` for
//! those after an instruction, `head` and `member` for lines that name something, `listing`, `switch` and `labels` for what a
//! method holds, `body` for methods, `said` for what a line says, `closing` for what is looked at where a method ends, `reader`
//! for lines, `file` for the whole.
#![tactic(auto)]

mod body;
mod closing;
mod fault;
mod file;
mod head;
mod labels;
pub mod laws;
mod listing;
mod member;
mod operands;
mod place;
mod reader;
mod said;
mod switch;
mod table;
mod values;

pub use fault::ReadFault;
pub use file::read_class;
