//! The code of initializers and of `main`, as a thread runs it.
//!
//! Enter by one of two kinds of interpreter, each of them [`Bodies`](bodies::Bodies). [`AloneInterpreter`] is that of a thread alone, which
//! has its heap to itself. [`Interpreter`] is that of one of several threads, which share [`Objects`]: it is given these for each touch.
#![tactic(auto)]

pub mod alone;
mod array_leads;
mod at_once;
mod call_leads;
mod code_bodies;
mod fitting;
mod halves;
mod index;
pub mod interpreter;
mod lead;
mod locking;
mod methods;
mod moves;
mod object_leads;
pub mod objects;
mod performing;
mod phase;
mod preparing;
mod print_leads;
mod quiet;
mod return_leads;
mod says;
mod switching;
mod taken;
mod text;
mod throwing;
mod touching;
mod turn;
mod type_leads;

pub use alone::AloneInterpreter;
pub use interpreter::Interpreter;
pub use objects::Objects;
