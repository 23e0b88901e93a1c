//! How the machine ends a thread: each class that the thread initializes is ended by the machine's error, innermost first
//! (JLS SE 8 12.4.2 steps 7 and 12; JVMS SE 8 6.3).

ghost use Rattle.std.specs.Prelude.{◌≡◌, ℕ, List};
ghost use Rattle.hierarchy.specs.LinkedProgram.{LinkedProgram};
ghost use Rattle.init_core.specs.declared.event.Event.{Event};
ghost use Rattle.init_core.specs.Advance.{MayEndThread, thread_ended};
ghost use Rattle.init_core.specs.Leads.{LeadsTo};
ghost use Rattle.init_core.specs.ProcedureWord.{GoesOn, IsMachineError, ended_by};
ghost use Rattle.init_core.specs.Stands.{ending_error};

use crate::frames::{Frame, Outcome, Phase, outcome_after};
use crate::procedure::Procedure;
use hierarchy::ClassId;

fn error_of(outcome: Outcome) -> Option<ClassId>
    ensures { result ≡ ended_by outcome }
{
    match outcome {
        Outcome::Ended(error) => Some(error),
        _ => None,
    }
}

impl Procedure {
    /// The error by which the machine is ending the thread, where it is. Takes no memory.
    pub fn ending_error(&self) -> Option<ClassId>
        ensures { result ≡ ending_error self.now }
    {
        match self.frames.innermost() {
            Some(
                Frame {
                    phase: Phase::EndingBy { ending, by_machine },
                    ..
                },
            ) => error_of(outcome_after(*ending, *by_machine)),
            _ => error_of(self.last?.outcome),
        }
    }

    /// The machine ends the thread by this error, at a request before its step 6 or in a body after step 9. It says what
    /// an answer of a request that is given up says, or of a body that the machine ended, without the program. Takes no
    /// memory.
    pub fn end_thread(&mut self, error: ClassId)
        requires { MayEndThread self.old.frames }
        ensures standing { self.new ≡ thread_ended self.old error }
        ensures leads { (p : LinkedProgram) (t : ℕ) (xs : List Event) →
            IsMachineError p error → GoesOn self.old.last → LeadsTo p t self.old xs → LeadsTo p t self.new xs }
    {
        self.stop(error);
    }

    fn stop(&mut self, error: ClassId)
        requires { MayEndThread self.old.frames }
        ensures { self.new ≡ thread_ended self.old error }
    {
        if self.is_running() {
            self.leave_body(Outcome::Ended(error));
        } else {
            self.complete(Outcome::Ended(error));
        }
    }
}
