//! What is wrong with a file, a trace, linked classes or an option of the command line, in words.
//!
//! The program writes one fixed line for a fault, as `T.j:3: J6`. These texts come after it where the user asks for more: the
//! line at fault with its number, a caret below the word at fault, a sentence with the names in it, and where there is more to
//! read. They are found anew from the texts that were read, since the readers report a line and a kind alone.
//!
//! Every function answers all texts, lines and names, also such as no reader reports: its sentence is then a general one. What a
//! text says is tested and not proved.
//!
//! To enter: [`explain_reading`] for `J1` to `J14`, [`explain_linking`] for `H1` to `H9`, [`explain_trace`] for `L1` to `L7`, and a function
//! for each option; [`code_text`] for what a code means. `line` cuts texts into lines and words, `page` shows a line with its caret, `nearest` finds the name that is meant.
#![tactic(auto)]

mod bodies;
mod circle;
mod classes;
mod codes;
mod context;
mod descriptor;
mod findings;
mod line;
mod linking;
mod members;
mod nearest;
mod operands;
mod options;
mod page;
mod places;
mod reading;
mod traces;
mod wanted;

pub use codes::{code_list, code_text};
pub use linking::explain_linking;
pub use options::{
    explain_edition, explain_files, explain_mains, explain_order, explain_patience, explain_steps,
};
pub use reading::explain_reading;
pub use traces::explain_trace;

/// A text with the name by which the command line has it.
#[derive(Clone, Copy)]
pub struct Source<'a> {
    /// The name.
    pub name: &'a str,
    /// The bytes of the text, which may be any.
    pub text: &'a [u8],
}
