//! What a run answers.

use hierarchy::ClassId;
use init_core::{Event, Label};
use sequence::{Sequence, Text};

/// What the machine ends a thread for.
#[derive(Clone, Copy, PartialEq, Eq)]
pub enum Limit {
    /// It began as many instructions as it may; it ends by InternalError.
    Steps,
    /// It looked as often as it may at something that others hold; it ends by InternalError.
    Patience,
    /// It was refused memory of the machine; it ends by OutOfMemoryError.
    Memory,
}

/// How a thread ended.
#[derive(Clone, Copy, PartialEq, Eq)]
pub enum ThreadOutcome {
    /// All that it did completed normally.
    Normal,
    /// By a throwable of this class that nothing caught.
    Abrupt(ClassId),
    /// By the machine, at a limit or out of memory.
    Ended(Limit),
}

/// How far a thread may go.
#[derive(Clone, Copy)]
pub struct Limits {
    /// The instructions that a thread may begin: 1 to 100,000,000. What runs its bodies counts them.
    pub steps: u32,
    /// The looks that it may take at one lock, one class in progress or one monitor: up to 1,000,000,000;
    /// 0 is without limit.
    pub patience: u32,
}

impl Limits {
    /// A million instructions, and patience without limit.
    pub const USUAL: Limits = Limits {
        steps: 1_000_000,
        patience: 0,
    };
}

/// What a run was.
pub struct Report {
    /// How each thread ended, by its number.
    pub outcomes: Sequence<ThreadOutcome>,
    /// All events, in their one order.
    pub events: Sequence<Event>,
    /// The label of each class, by its number.
    pub labels: Sequence<Label>,
    /// What was printed.
    pub output: Text,
}

impl Drop for Report {
    fn drop(self) {
        let Self {
            outcomes: _,
            events: _,
            labels: _,
            output: _,
        } = self;
    }
}
