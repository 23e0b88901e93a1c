//! Why a file could not be read.

use jasmin_words::FaultKind;
use thiserror::Error;

/// What is wrong with a file, and on which line, counted from 1. Where the kind is [`FaultKind::NoMemory`] the line is the one at
/// which memory ran out, of which no contract says more.
#[derive(Clone, Copy, Debug, Error)]
#[error("line {line}: {kind}")]
pub struct ReadFault {
    /// What is wrong.
    #[source]
    pub kind: FaultKind,
    /// The line, from 1.
    pub line: usize,
}
