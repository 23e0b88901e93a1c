//! What is told of each event as it is made.

use init_core::Event;

/// What is told of each event, by the thread that made it.
///
/// The thread holds no lock then, so a gate may hold it up: it chooses a schedule, and tests can fix one. What a gate
/// does tells nothing to the run. No memory is taken to tell it: of a print it is told the thread, and no text.
pub trait Gate {
    /// The thread of this event, which is no print, has made it, and goes on when the call returns.
    fn at(&self, event: &Event);

    /// The thread of this number has made a print, and goes on when the call returns.
    fn at_print(&self, thread: usize);
}

/// No gate: each thread goes on at once.
#[derive(Clone, Copy)]
pub struct NoGate;

impl Gate for NoGate {
    fn at(&self, _event: &Event) {}

    fn at_print(&self, _thread: usize) {}
}
