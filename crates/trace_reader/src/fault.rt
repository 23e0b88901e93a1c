//! What can be wrong with a trace.

ghost use Rattle.std.specs.Prelude.{◌≡◌};
ghost use Rattle.trace_reader.specs.Faults.{number_of};

use thiserror::Error;

/// What is wrong with a line of a trace. A kind prints as its code, `L1` to `L7`, and a few words.
#[derive(Clone, Copy, Debug, Error)]
pub enum TraceFaultKind {
    /// `L1`: a word that doesn't have the form of its place, or is empty, missing or one too many; or the last line has no LF.
    #[error("L1: bad line")]
    BadLine,
    /// `L2`: the line's number is not the one whose turn it is.
    #[error("L2: number out of turn")]
    NumberOutOfTurn,
    /// `L3`: the third word names no step, and is none of `get`, `put` and `print`.
    #[error("L3: unknown step")]
    UnknownStep,
    /// `L4`: there is no such thread, class or static field: of the files, or for a throwable of the program.
    #[error("L4: unknown thread, class or field")]
    UnknownName,
    /// `L5`: a value that the field doesn't hold, or that isn't spelled as values are; or a text that isn't UTF-8 in its one spelling.
    #[error("L5: bad value or text")]
    BadValue,
    /// `L6`: line 1,000,001, or the line whose end lies past 64 MiB; nothing is read of it.
    #[error("L6: too many lines or bytes")]
    TooLarge,
    /// `L7`: out of memory. Its line is the one at which memory ran out.
    #[error("L7: out of memory")]
    OutOfMemory,
}

impl TraceFaultKind {
    /// The number of the code, from 1 to 7.
    pub fn number(self) -> u8
        ensures { result ≡ number_of self }
    {
        match self {
            TraceFaultKind::BadLine => 1,
            TraceFaultKind::NumberOutOfTurn => 2,
            TraceFaultKind::UnknownStep => 3,
            TraceFaultKind::UnknownName => 4,
            TraceFaultKind::BadValue => 5,
            TraceFaultKind::TooLarge => 6,
            TraceFaultKind::OutOfMemory => 7,
        }
    }
}

/// What is wrong with a trace, and on which line: the first fault, line by line, and in a line the leftmost.
#[derive(Clone, Copy, Debug, Error)]
#[error("line {line}: {kind}")]
pub struct TraceFault {
    /// What is wrong.
    #[source]
    pub kind: TraceFaultKind,
    /// The line, from 1.
    pub line: usize,
}
