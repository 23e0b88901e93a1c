//! What the bodies of all threads share, and where a thread sleeps that another one holds up.

use bodies::Bodies;
use hierarchy::Program;
use std::sync::{Condvar, Mutex, MutexGuard, Wait};

/// What the bodies of all threads of a run share, under one lock.
///
/// A thread has the lock while its innermost body touches what is shared, in step 11, and as the thread ends, but never while a body goes
/// on to what it does next. Where a body has come to something that another thread holds, as a monitor, its thread sleeps here, if its
/// patience has no limit, and looks again once something was left.
#[derive(Drop)]
pub struct Common<H> {
    shared: Mutex<H>,
    left: Condvar,
}

impl<H> Common<H> {
    /// Nobody has the lock, and nobody sleeps. Takes no memory.
    pub fn new(shared: H) -> Self {
        Common {
            shared: Mutex::new(shared),
            left: Condvar::new(),
        }
    }

    /// The calling thread has what is shared to itself, until it gives the guard back.
    pub(crate) fn lock<'a, W: Wait>(&'a self, rt: &W) -> MutexGuard<'a, H> {
        self.shared.lock(rt)
    }

    /// Gives back what is shared, and sleeps until another thread has left something.
    pub(crate) fn sleep<W: Wait>(&self, rt: &W, shared: MutexGuard<H>) {
        drop(self.left.wait(rt, shared));
    }

    /// Something was left: wakes all threads that sleep.
    pub(crate) fn wake(&self) {
        self.left.notify_all();
    }
}

/// The thread of these bodies has ended: it leaves all that it holds, and those that sleep are woken.
pub(crate) fn end_bodies<W: Wait, B: Bodies>(
    rt: &W,
    program: &Program,
    common: &Common<B::Shared>,
    bodies: B,
) {
    let mut bodies = bodies;
    let mut shared = common.lock(rt);
    bodies.end(program, &mut shared);
    drop(shared);
    common.wake();
}
