//! Objects that are thrown, and the monitors of methods that are left.

ghost use Rattle.std.specs.Prelude.{◌≡◌, ◌∷◌, List, Some, OnErr, OnOk};
ghost use Rattle.frames.specs.Activations.{Activation, place_of};
ghost use Rattle.hierarchy.specs.declared.built_in.BuiltIn.TheVariants.{VerifyError};
ghost use Rattle.interpreter.specs.Memory.{MakesThrown};
ghost use Rattle.interpreter.specs.Rows.{IsLeftWith, IsPastTheEnd, IsReleasedTo, IsThrown, Throws};

use crate::interpreter::Interpreter;
use crate::phase::Phase;
use crate::taken::TakenMonitors;
use frames::{FramePlace, Thrown};
use heap::Monitors;
use hierarchy::{BuiltIn, Program};
use std::alloc::AllocError;

/// Leaves the monitors that methods took whose frames are no more among so many, the innermost first (JVMS SE 8 2.11.10).
#[tactic(auto, using(crate::proofs::Releasing::none_taken, crate::proofs::Releasing::is_within, crate::proofs::Releasing::leaves_one))]
fn release_to(taken: &mut TakenMonitors, monitors: &mut Monitors, thread: u8, count: usize)
    ensures { IsReleasedTo thread count taken.old monitors.old taken.new monitors.new }
{
    while let Some(last) = taken.last() {
        if last.depth <= count {
            break;
        }
        monitors.exit(thread, last.monitor);
        taken.drop_last();
    }
}

impl Interpreter {
    /// Goes on in a phase with the frames that there are, without the monitors of others.
    pub(crate) fn release(&mut self, phase: Phase)
        ensures { IsLeftWith self.old self.old.frames phase self.new }
    {
        let count = self.frames.len();
        release_to(&mut self.taken, &mut self.monitors, self.thread, count);
        self.phase = phase;
    }

    /// Throws an object in the innermost frame (JVMS SE 8 2.10).
    pub(crate) fn throw(&mut self, program: &Program, thrown: Thrown)
        ensures { IsThrown program.now thrown self.old self.new }
    {
        let caught = self.frames.catch(program, thrown);
        let phase = if caught {
            Phase::Runs
        } else {
            Phase::Over(Some(thrown))
        };
        self.release(phase);
    }

    /// Throws a new object of a built-in throwable in the innermost frame. An `Err` means out of memory, and changes nothing.
    pub(crate) fn throw_new(&mut self, program: &Program, class: BuiltIn) -> Result<(), AllocError>
        ensures ok { OnOk result (Throws program.now class self.old self.new) }
        ensures memory { OnErr result (MakesThrown program.now class self.old) }
        ensures err { OnErr result (self.new ≡ self.old) }
    {
        let thrown = self.heap.throwable(program, class)?;
        self.throw(program, thrown);
        Ok(())
    }

    /// Throws a VerifyError where the innermost frame ran past its last instruction. An `Err` means out of memory, and changes
    /// nothing.
    pub(crate) fn run_past(&mut self, program: &Program, at: FramePlace) -> Result<(), AllocError>
        requires { place_of self.old.frames ≡ Some at }
        ensures ok { OnOk result ((a : Activation) (below : List Activation) → self.old.frames ≡ a ∷ below → IsPastTheEnd program.now a below self.old self.new) }
        ensures memory { OnErr result (MakesThrown program.now VerifyError self.old) }
        ensures err { OnErr result (self.new ≡ self.old) }
    {
        let thrown = self.heap.throwable(program, BuiltIn::VerifyError)?;
        self.frames.leave();
        if at.is_first {
            self.release(Phase::Over(Some(thrown)));
        } else {
            self.throw(program, thrown);
        }
        Ok(())
    }
}
