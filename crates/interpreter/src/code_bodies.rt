//! What bodies made by code are told, and how they end.

ghost use Rattle.std.specs.Prelude.{◌≡◌, IfOk, OnErr};
ghost use Rattle.hierarchy.specs.declared.built_in.BuiltIn.TheVariants.{ExceptionInInitializerError};
ghost use Rattle.hierarchy.specs.Subclasses.{IsError};
ghost use Rattle.init_core.specs.ProcedureWord.{GoesOn};
ghost use Rattle.interpreter.specs.CodeRun.{IsLeft, IsTold, LeavesError, Takes, below_body, has_frames as has_frames_in, interpreter_at_start, left_phase as left_phase_of};
ghost use Rattle.interpreter.specs.Memory.{MakesThrown};

use crate::fitting::cell_of;
use crate::interpreter::Interpreter;
use crate::moves::give;
use crate::phase::Phase;
use crate::says::answer;
use crate::taken::TakenMonitors;
use frames::{Frames, Replaced, replacement};
use heap::{Heap, Monitors};
use hierarchy::{ClassId, Program, Value};
use init_core::{Completed, Outcome};
use std::alloc::{AllocError, Global};

/// The phase of the body below once the innermost one is ended: it stays known that its thread was ended for its steps.
fn left_phase(phase: Phase) -> Phase
    ensures { result ≡ left_phase_of phase }
{
    match phase {
        Phase::Spent => Phase::Spent,
        _ => Phase::Runs,
    }
}

/// Whether the innermost body has frames, in this phase.
fn has_frames(phase: Phase) -> bool
    ensures { result ≡ has_frames_in phase }
{
    !matches!(
        phase,
        Phase::Begins(_, _) | Phase::Enters(_) | Phase::Fails(_) | Phase::Over(_)
    )
}

impl Interpreter {
    /// What runs the code of the thread of this number, which may begin so many instructions; nothing has run yet. Takes no memory.
    pub fn new(alloc: Global, thread: u8, steps: u32) -> Self
        ensures { result ≡ interpreter_at_start thread steps }
    {
        Interpreter {
            frames: Frames::new(alloc),
            heap: Heap::new(alloc),
            monitors: Monitors::new(alloc),
            taken: TakenMonitors::new(alloc),
            thread,
            phase: Phase::Runs,
            thrown: None,
            left: steps as u64,
        }
    }

    /// Told how the procedure for a class was completed, the body goes on where its frame asked for it.
    pub(crate) fn tell(&mut self, program: &Program, last: Option<Completed>)
        requires { GoesOn last }
        ensures { IsTold program.now last self.old.phase self.old self.new }
    {
        match (self.phase, last) {
            (Phase::Runs, Some(done)) => match done.outcome {
                Outcome::Normal => self.phase = Phase::Ready(done.class),
                Outcome::Abrupt(error) => {
                    let thrown = answer(program, error, self.thrown);
                    self.thrown = None;
                    self.phase = Phase::Throws(thrown);
                }
                Outcome::Ended(_) => {}
            },
            (Phase::Ready(_), _) => self.phase = Phase::Runs,
            _ => {}
        }
    }

    /// Step 11. An `Err` means out of memory, and changes nothing.
    #[tactic(auto, using(crate::proofs::CodeBodies::wrapped_error))]
    pub(crate) fn replaced(
        &mut self,
        program: &Program,
        thrown: ClassId,
    ) -> Result<ClassId, AllocError>
        ensures replaces { IfOk result (λ error. LeavesError program.now self.old thrown error self.new) }
        ensures error { IfOk result (λ error. IsError program.now error) }
        ensures wraps { OnErr result (IsError program.now thrown → ⊥) }
        ensures memory { OnErr result (MakesThrown program.now ExceptionInInitializerError self.old) }
        ensures err { OnErr result (self.new ≡ self.old) }
    {
        match replacement(program, thrown) {
            Replaced::Same => {
                self.phase = Phase::Runs;
                Ok(thrown)
            }
            // (where the machine made what was thrown, it kept room for the error)
            Replaced::Wrapped => {
                let wrapped = self.heap.initializer_error(program)?;
                self.phase = Phase::Runs;
                self.thrown = Some(wrapped);
                Ok(wrapped.class)
            }
        }
    }

    /// Leaves the frames of the innermost body.
    fn leave_frames(&mut self)
        ensures { self.new ≡ record self.old { frames = below_body self.old.frames } }
    {
        while let Some(at) = self.frames.at() {
            self.frames.leave();
            if at.is_first {
                return;
            }
        }
    }

    /// The value of the field that is read becomes an operand.
    pub(crate) fn take_value(&mut self, program: &Program, value: Value)
        ensures { Takes program.now self.old value self.new }
    {
        let _ = program;
        if self.frames.can_replace(0) {
            give(&mut self.frames, 0, cell_of(value));
        }
    }

    /// The machine ends the innermost body.
    pub(crate) fn leave_body(&mut self)
        ensures { IsLeft self.old self.new }
    {
        let phase = left_phase(self.phase);
        if has_frames(self.phase) {
            self.leave_frames();
            self.phase = phase;
        } else {
            self.phase = phase;
        }
    }
}
