//! Values in memory of their own.
//!
//! A large operand of an instruction is kept in memory of its own, so that an instruction without it stays small.

ghost use Rattle.std.specs.Prelude.{◌≡◌, IfOk};

use std::alloc::{AllocError, Global};
use std::marker::Model;

/// A value in memory of its own. Contracts see it as the value.
#[derive(Drop)]
pub struct Boxed<T> {
    boxed: Box<T>,
}

impl<T> Model for Boxed<T> {
    ghost Value = { T };

    ghost view = { λ b. b.boxed.value };
}

impl<T: Drop> Boxed<T> {
    /// The value in memory of its own. An `Err` means out of memory, and the value is dropped.
    pub fn new(alloc: Global, value: T) -> Result<Self, AllocError>
        ensures { IfOk result (λ boxed. boxed ≡ value) }
    {
        let boxed = Box::new(alloc, value)?;
        Ok(Boxed { boxed })
    }
}

impl<T> Boxed<T> {
    /// The value, out of its memory.
    pub fn into_value(self) -> T
        ensures { result ≡ self }
    {
        Box::into_inner(self.boxed)
    }

    /// The value.
    pub fn get(&self) -> &T
        ensures { result.now ≡ self.now }
    {
        &self.boxed
    }
}
