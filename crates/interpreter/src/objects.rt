//! What the threads of a run share.

ghost use Rattle.std.specs.Prelude.{◌≡◌, ◌↔◌, IsTrue};
ghost use Rattle.interpreter.specs.Touching.{objects_at_start, objects_of, with_objects};
ghost use Rattle.interpreter.specs.Waiting.{IsKeptOut};

use crate::interpreter::Interpreter;
use crate::phase::Phase;
use heap::{Heap, Monitors};
use std::alloc::Global;
use std::mem::swap;

/// What was made, and who holds which monitor.
pub struct Objects {
    /// What was made.
    pub(crate) heap: Heap,
    /// Who holds which monitor.
    pub(crate) monitors: Monitors,
}

impl Drop for Objects {
    fn drop(self) {
        let Self {
            heap: _,
            monitors: _,
        } = self;
    }
}

impl Objects {
    /// Nothing was made yet, and nobody holds a monitor. Takes no memory.
    pub fn new(alloc: Global) -> Self
        ensures { result ≡ objects_at_start }
    {
        Objects {
            heap: Heap::new(alloc),
            monitors: Monitors::new(alloc),
        }
    }
}

impl Interpreter {
    /// Takes these objects, and gives its own in their place.
    pub(crate) fn exchange(&mut self, objects: &mut Objects)
        ensures own { self.new ≡ with_objects self.old objects.old }
        ensures given { objects.new ≡ objects_of self.old }
    {
        swap(&mut self.heap, &mut objects.heap);
        swap(&mut self.monitors, &mut objects.monitors);
    }

    /// Whether it is to enter a monitor that another thread holds, where it has these objects.
    #[tactic(auto, using(crate::proofs::KeptOut::not_at_a_monitor, crate::proofs::KeptOut::at_a_held_monitor, crate::proofs::KeptOut::at_a_free_monitor))]
    pub(crate) fn is_kept_out(&self, objects: &Objects) -> bool
        ensures { IsTrue result ↔ IsKeptOut (with_objects self.now objects.now) }
    {
        let Phase::Locks(monitor, _) = self.phase else {
            return false;
        };
        match objects.monitors.holder(monitor) {
            Some(holder) => holder.thread != self.thread,
            None => false,
        }
    }
}
