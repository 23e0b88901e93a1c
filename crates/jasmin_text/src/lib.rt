//! The text of one class as a Jasmin file has it.
//!
//! [`ClassText`] is what a file says, without its spelling: kind, access words, name, superclass, interfaces,
//! fields, and methods with their limits, handler tables and instructions. It holds exactly what a file can
//! spell.
//!
//! To enter: `class_text` has the parts of a class, `instruction` the instructions in their canonical forms,
//! `form` and `table` the words that lines begin with, and `specs/Grammar` which lines spell which class.
#![tactic(auto)]

pub mod access;
mod boxed;
pub mod class_text;
pub mod form;
pub mod instruction;
pub mod table;
pub mod text;

pub use access::Access;
pub use boxed::Boxed;
pub use class_text::{ClassKind, ClassParts, Code, Constant, Field, Handler, Method};
pub use instruction::{
    Call, FieldAccess, FieldReference, Instruction, Jump, Local, MethodReference, Plain,
    ReferenceType, TypeUse,
};
pub use text::ClassText;
