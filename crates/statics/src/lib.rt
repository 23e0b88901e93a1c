//! The static fields of a class.
//!
//! A [`Bank`] has them in file order, each found by its place: prepared with their defaults (JVMS SE 8 5.4.2), given
//! their constants at step 6 of the class's initialization (5.5), then read and written. [`narrowed`] is what a field
//! keeps of a value that is written to it.
//!
//! Contracts see a bank as two lists, what is known of each field and what each holds. `specs/Statics` says which
//! fields a class has, with their defaults and constants.
#![tactic(auto)]

pub mod bank;
pub mod laws;
pub mod static_field;

pub use bank::Bank;
pub use static_field::{StaticField, base_of, narrowed, narrowed_int, static_field_at};
