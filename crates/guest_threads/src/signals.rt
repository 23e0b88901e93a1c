//! What the threads of a run wait for, beside locks: that all are started, and that a class is ended.

ghost use Rattle.std.specs.Prelude.{◌<◌};
ghost use Rattle.init_core.specs.declared.event.TheConstants.{THREADS};

use init_core::THREADS;
use std::sync::Wait;
use std::sync::atomic::{AtomicU64, Ordering};
use std::thread::Parker;
use std::{array, thread};

const HELD: u64 = 0;

const BEGUN: u64 = 1;

const CALLED_OFF: u64 = 2;

/// Threads by their numbers, a bit each.
pub(crate) type ThreadSet = u16;

/// What a thread sleeps by, whatever its number.
fn parker(_thread: usize) -> Parker {
    Parker::new()
}

/// The signals of one run.
#[derive(Drop)]
pub(crate) struct Signals {
    start: AtomicU64,
    parkers: [Parker; THREADS],
}

impl Signals {
    pub(crate) fn new() -> Self {
        Signals {
            start: AtomicU64::new(HELD),
            parkers: array::from_fn(parker),
        }
    }

    /// All threads are started, and begin; or one can't be, and the others end at once.
    pub(crate) fn tell_start(&self, begins: bool) {
        let word = if begins { BEGUN } else { CALLED_OFF };
        self.start.store(word, Ordering::SeqCst);
    }

    /// Waits until all threads are started, or one can't be, and answers whether this one shall begin.
    pub(crate) fn wait_for_start<W: Wait>(&self, rt: &W) -> bool {
        for _ in rt.forever() {
            let word = self.start.load(Ordering::SeqCst);
            if word != HELD {
                return word == BEGUN;
            }
            thread::yield_now();
        }
        unreachable!()
    }

    /// The thread sleeps until it is woken. Where it was woken since it slept last, it goes on at once.
    pub(crate) fn sleep<W: Wait>(&self, rt: &W, thread: usize)
        requires { thread < THREADS }
    {
        self.parkers[thread].park(rt);
    }

    /// Wakes these threads.
    pub(crate) fn wake(&self, threads: ThreadSet) {
        let mut rest = threads;
        for parker in &self.parkers {
            if rest & 1 == 1 {
                parker.unpark();
            }
            rest >>= 1;
        }
    }
}
