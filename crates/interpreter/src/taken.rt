//! The monitors that synchronized methods took (JVMS SE 8 2.11.10).

ghost use Rattle.std.specs.Prelude.{◌≡◌, ◌∷◌, [], OnErr, OnOk};
ghost use Rattle.interpreter.specs.Taken.{below_last, last_of};

use heap::Monitor;
use std::alloc::{AllocError, Global};
use std::marker::Model;

/// A monitor that a method took.
#[derive(Clone, Copy)]
pub struct TakenMonitor {
    /// How many frames there were, with the method's.
    pub depth: usize,
    /// The monitor.
    pub monitor: Monitor,
}

/// The monitors that methods took and didn't leave: their frames are there, unless the machine ended them. Contracts see the innermost first.
#[derive(Drop)]
pub(crate) struct TakenMonitors {
    items: Vec<TakenMonitor>,
}

impl Model for TakenMonitors {
    ghost use Rattle.std.specs.Prelude.{List, reverse};
    ghost use Rattle.interpreter.specs.declared.taken.TakenMonitor.{TakenMonitor};

    ghost Value = { List TakenMonitor };

    ghost view = { λ t. reverse t.items.items };
}

impl TakenMonitors {
    /// None. Takes no memory.
    pub(crate) fn new(alloc: Global) -> Self
        ensures { result ≡ [] }
    {
        TakenMonitors {
            items: Vec::new(alloc),
        }
    }

    /// That of the innermost frame that took one.
    pub(crate) fn last(&self) -> Option<TakenMonitor>
        ensures { result ≡ last_of self.now }
    {
        self.items.as_slice().last().copied()
    }

    /// One more, of the innermost frame. An `Err` means out of memory, and changes nothing.
    pub(crate) fn push(&mut self, taken: TakenMonitor) -> Result<(), AllocError>
        ensures ok { OnOk result (self.new ≡ taken ∷ self.old) }
        ensures err { OnErr result (self.new ≡ self.old) }
    {
        self.items.push(taken)?;
        Ok(())
    }

    /// Without that of the innermost frame that took one.
    pub(crate) fn drop_last(&mut self)
        ensures { self.new ≡ below_last self.old }
    {
        self.items.pop();
    }
}
