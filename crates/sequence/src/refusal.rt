//! Why a text could not be read: its own fault, or no memory.

ghost use Rattle.std.specs.Prelude.{◌≡◌};

use std::alloc::{AllocError, AllocFailed};

/// Why a text could not be read.
#[derive(Drop)]
pub enum Refusal<F> {
    /// There was no memory. Nothing is said of the text.
    Memory,
    /// The text is at fault.
    Fault(F),
}

impl<F> From<AllocError> for Refusal<F> {
    ghost use Rattle.sequence.specs.declared.refusal.Refusal.TheVariants.{Memory};

    ghost from_gives = { λ _ e. e ≡ Memory };

    fn from(_error: AllocError) -> Refusal<F> {
        Refusal::Memory
    }
}

impl<F, T: Drop> From<AllocFailed<T>> for Refusal<F> {
    ghost use Rattle.sequence.specs.declared.refusal.Refusal.TheVariants.{Memory};

    ghost from_gives = { λ _ e. e ≡ Memory };

    fn from(_error: AllocFailed<T>) -> Refusal<F> {
        Refusal::Memory
    }
}
