//! The frames of one thread: locals, operands, calls and returns (JVMS SE 8 2.6), and where a thrown object is caught (2.10).
//!
//! Enter by [`Frames`]: the frames of the bodies that a thread runs, the innermost first. [`Frames::begin`] begins a body,
//! [`Frames::call`] calls a method, [`Frames::leave`] leaves a frame, and [`Frames::catch`] leaves as many as a thrown object
//! does. [`Frames::go_on`] does what the innermost frame's instructions do by themselves, and stops at one that asks something
//! of what lies outside of the frame: a class, a field, an object, a method that is called. What such an instruction does to
//! its frame is made of [`Frames::operand`], [`Frames::drop_operands`], [`Frames::push`] and [`Frames::step_over`]. Some
//! sequences of three or four instructions on ints are done at once (`fused`), with no difference but in time.
//!
//! [`handler_at`] finds the row of a handler table that catches an object, and [`replacement`] says what an initializer leaves that
//! throws one (JLS SE 8 12.4.2 step 11).
//!
//! Contracts see the frames as a list of activations. `specs/Rows` says what each instruction does, a line an instruction,
//! `Running` what many do, `Activations` what calls do, and `Handlers` and `Unwinding` where an object is caught.
#![tactic(auto)]

pub mod cell;
mod decide;
pub mod frames;
mod fused;
mod handlers;
mod ints;
mod jumps;
mod moves;
mod operands;
pub mod place;
pub mod run;
mod slot;
pub mod thrown;
mod unwinding;
mod values;
mod words;

pub use cell::Cell;
pub use frames::Frames;
pub use handlers::{Replaced, handler_at, replacement};
pub use place::FramePlace;
pub use run::Stop;
pub use thrown::Thrown;
