//! What instructions of one kind do differently.

/// Which ints a jump compares so.
#[derive(Clone, Copy)]
pub(crate) enum Comparison {
    Equal,
    NotEqual,
    Less,
    NotLess,
    Greater,
    NotGreater,
}

/// What an instruction makes of two ints.
#[derive(Clone, Copy)]
pub(crate) enum Arithmetic {
    Add,
    Subtract,
    Multiply,
    And,
    Or,
    ExclusiveOr,
    ShiftLeft,
    ShiftRight,
    ShiftRightUnsigned,
}

/// What an instruction makes of two ints, where the second isn't zero.
#[derive(Clone, Copy)]
pub(crate) enum Division {
    Divide,
    Remainder,
}

/// What an instruction makes of an int.
#[derive(Clone, Copy)]
pub(crate) enum Conversion {
    Negate,
    ToByte,
    ToChar,
    ToShort,
}
