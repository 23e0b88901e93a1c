//! Locals and operands.

/// A local or an operand: a value of one word, or a local that was never set.
#[derive(Clone, Copy, PartialEq, Eq)]
pub enum Cell {
    /// A local that was never set.
    Unset,
    /// An int, which represents a boolean, byte, char or short too.
    Int(i32),
    /// The null reference.
    Null,
    /// A reference by its number.
    Reference(u32),
}
