//! Monitors that are entered.

ghost use Rattle.std.specs.Prelude.{◌≡◌, ◌<◌, true, false, IfOk, OnErr};
ghost use Rattle.heap.specs.declared.monitors.Entry.TheVariants.{Entered};
ghost use Rattle.heap.specs.Monitors.{Enters, Holders};
ghost use Rattle.interpreter.specs.Memory.{TakesMemory};
ghost use Rattle.interpreter.specs.Rows.{Row, to_do};
ghost use Rattle.interpreter.specs.Waiting.{IsBusyAt};
ghost use Rattle.interpreter.specs.declared.phase.Phase.TheVariants as phases;

use crate::interpreter::Interpreter;
use crate::phase::Phase;
use crate::taken::TakenMonitor;
use heap::{Entry, Monitor};
use hierarchy::Program;
use std::alloc::AllocError;

impl Interpreter {
    /// Whether another thread holds a monitor.
    fn is_held_by_another(&self, monitor: Monitor) -> bool
        ensures held { result ≡ true → IsBusyAt monitor self.now self.now }
        ensures free { result ≡ false → (holders : Holders) × Enters self.now.monitors self.now.thread monitor Entered holders }
    {
        match self.monitors.holder(monitor) {
            Some(holder) => holder.thread != self.thread,
            None => false,
        }
    }

    /// Enters the monitor of the innermost frame's method, unless another thread holds it. An `Err` means out of memory, and changes
    /// nothing.
    fn lock_method(&mut self, program: &Program, monitor: Monitor) -> Result<bool, AllocError>
        requires { self.old.phase ≡ phases.Locks monitor true }
        ensures row { IfOk result (λ entered. entered ≡ true → Row program.now self.old self.new) }
        ensures busy { IfOk result (λ entered. entered ≡ false → IsBusyAt monitor self.old self.new) }
        ensures memory { OnErr result (TakesMemory program.now self.old) }
        ensures err { OnErr result (self.new ≡ self.old) }
    {
        if self.is_held_by_another(monitor) {
            return Ok(false);
        }
        let depth = self.frames.len();
        self.taken.push(TakenMonitor { depth, monitor })?;
        match self.monitors.enter(self.thread, monitor) {
            Ok(Entry::Entered) => {
                self.phase = Phase::Runs;
                Ok(true)
            }
            Ok(Entry::Busy) => unreachable!(),
            Err(_) => {
                self.taken.drop_last();
                Err(AllocError)
            }
        }
    }

    /// Enters another monitor, unless another thread holds it. An `Err` means out of memory, and changes nothing.
    fn lock_other(&mut self, program: &Program, monitor: Monitor) -> Result<bool, AllocError>
        requires { self.old.phase ≡ phases.Locks monitor false }
        ensures row { IfOk result (λ entered. entered ≡ true → Row program.now self.old self.new) }
        ensures busy { IfOk result (λ entered. entered ≡ false → IsBusyAt monitor self.old self.new) }
        ensures memory { OnErr result (TakesMemory program.now self.old) }
        ensures err { OnErr result (self.new ≡ self.old) }
    {
        match self.monitors.enter(self.thread, monitor)? {
            Entry::Entered => {
                self.phase = Phase::Runs;
                Ok(true)
            }
            Entry::Busy => Ok(false),
        }
    }

    /// Enters the monitor that is to be entered before the innermost frame goes on (JVMS SE 8 2.11.10, 6.5 monitorenter); `false` where
    /// another thread holds it, which changes nothing. An `Err` means out of memory, and changes nothing.
    pub(crate) fn lock(
        &mut self,
        program: &Program,
        monitor: Monitor,
        of_method: bool,
    ) -> Result<bool, AllocError>
        requires { self.old.phase ≡ phases.Locks monitor of_method }
        ensures row { IfOk result (λ entered. entered ≡ true → Row program.now self.old self.new) }
        ensures busy { IfOk result (λ entered. entered ≡ false → IsBusyAt monitor self.old self.new) }
        ensures memory { OnErr result (TakesMemory program.now self.old) }
        ensures err { OnErr result (self.new ≡ self.old) }
    {
        if of_method {
            self.lock_method(program, monitor)
        } else {
            self.lock_other(program, monitor)
        }
    }
}
