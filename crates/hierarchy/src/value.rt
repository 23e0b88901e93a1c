//! Values of static fields.

/// A value of one word: an int, or a reference (JVMS SE 8 2.2).
#[derive(Clone, Copy, PartialEq, Eq)]
pub enum Value {
    /// An int, which represents a boolean, byte, char or short too.
    Int(i32),
    /// The null reference.
    Null,
    /// A reference by its number.
    Reference(u32),
}
