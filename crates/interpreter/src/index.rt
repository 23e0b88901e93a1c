//! Operands as indices and lengths.

ghost use Rattle.std.specs.Prelude.{◌≡◌};
ghost use Rattle.interpreter.specs.Fitting.{index_of as index_by_operand};

use frames::Cell;

/// An operand as an index of an array, or as its length.
#[derive(Clone, Copy)]
pub(crate) enum Index {
    /// It is no int.
    NoInt,
    /// It is negative.
    Negative,
    /// It is this number.
    At(usize),
}

pub(crate) fn index_of(value: Option<Cell>) -> Index
    ensures { result ≡ index_by_operand value }
{
    match value {
        Some(Cell::Int(number)) => {
            if number < 0 {
                Index::Negative
            } else {
                Index::At(number as usize)
            }
        }
        _ => Index::NoInt,
    }
}
