//! What runs the code of one thread.

use crate::phase::Phase;
use crate::taken::TakenMonitors;
use frames::{Frames, Thrown};
use heap::{Heap, Monitors};

/// What runs the code of one thread: its frames, how many instructions it may still begin, and the heap and the monitors. Those it has for
/// good where it is alone, and otherwise for one touch at a time.
pub struct Interpreter {
    /// The frames of the bodies that run, one within the other.
    pub(crate) frames: Frames,
    /// The heap, where it has it.
    pub(crate) heap: Heap,
    /// Who holds which monitor, where it has them.
    pub(crate) monitors: Monitors,
    /// The monitors that the methods of frames took.
    pub(crate) taken: TakenMonitors,
    /// The thread's number.
    pub(crate) thread: u8,
    /// Where the innermost body is.
    pub(crate) phase: Phase,
    /// The object that left the body that was over last.
    pub(crate) thrown: Option<Thrown>,
    /// How many instructions may still be begun.
    pub(crate) left: u64,
}

impl Drop for Interpreter {
    fn drop(self) {
        let Self {
            frames: _,
            heap: _,
            monitors: _,
            taken: _,
            thread: _,
            phase: _,
            thrown: _,
            left: _,
        } = self;
    }
}
