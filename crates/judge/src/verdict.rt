//! What is answered of a list of events.

/// What the first illegal event breaks.
#[derive(Clone, Copy, PartialEq, Eq)]
pub enum Rule {
    /// What the thread does: its events are no longer the beginning of what a thread of its main class does, or no such
    /// thread is there.
    Word,
    /// What the class's label allows.
    Label,
    /// What the static field holds, or the class has no such field.
    Value,
    /// No event: the list ends before each thread has ended what it began.
    End,
}

/// Whether a list of events is a legal interleaving.
#[derive(Clone, Copy, PartialEq, Eq)]
pub enum Verdict {
    /// It is one.
    Legal,
    /// The number of the first event with which the list is not the beginning of one, from 0, and what that event breaks;
    /// with [`Rule::End`] the number of events.
    IllegalAt(usize, Rule),
}
