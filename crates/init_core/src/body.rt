//! What a procedure is told of a body: that it begins, what is done in it, and how it ends.

ghost use Rattle.std.specs.Prelude.{◌≡◌, ℕ, ◌++◌, ◌∷◌, [], List, Option, None, Some, false};
ghost use Rattle.hierarchy.specs.declared.class.ClassId.{ClassId};
ghost use Rattle.hierarchy.specs.LinkedProgram.{LinkedProgram};
ghost use Rattle.init_core.specs.declared.event.Event.{Event};
ghost use Rattle.init_core.specs.declared.event.Kind.{Kind};
ghost use Rattle.init_core.specs.declared.event.Kind.TheVariants as kinds;
ghost use Rattle.init_core.specs.declared.frames.Completed.{Completed};
ghost use Rattle.init_core.specs.declared.frames.Frame.{Frame};
ghost use Rattle.init_core.specs.declared.frames.Outcome.TheVariants.{Normal};
ghost use Rattle.init_core.specs.declared.procedure.Next.TheVariants as nexts;
ghost use Rattle.init_core.specs.Advance.{next_of, FitsBody, after_body, started, is_running, AsksForBody, MayRequest};
ghost use Rattle.init_core.specs.Decisions.{event};
ghost use Rattle.init_core.specs.Leads.{LeadsTo, standing};
ghost use Rattle.init_core.specs.ProcedureWord.{GoesOn, IsUse, given_up, completed, printed};

use crate::frames::Outcome;
use crate::procedure::Procedure;

impl Procedure {
    /// Step 9 of the innermost class was made. Takes no memory.
    pub fn run_body(&mut self)
        requires body { AsksForBody self.old.frames }
        requires before { is_running self.old.frames ≡ false }
        ensures standing { self.new ≡ started self.old None }
        ensures leads { (p : LinkedProgram) (t : ℕ) (c : ClassId) (xs : List Event) →
            next_of self.old.frames ≡ nexts.Body c → LeadsTo p t self.old xs → LeadsTo p t self.new (xs ++ event t c kinds.Runs ∷ []) }
    {
        self.start_body();
    }

    fn start_body(&mut self)
        ensures { self.new ≡ started self.old None }
    {
        self.frames.mark_run();
        self.clear_last();
    }

    /// Something was done in the body, or in main, since a procedure was completed: a read, a write or a print. Takes no
    /// memory.
    pub fn forget_last(&mut self)
        ensures standing { self.new ≡ standing self.old.frames None }
        ensures uses { (p : LinkedProgram) (t : ℕ) (d : ClassId) (k : Kind) (xs : List Event) →
            MayRequest self.old.frames → IsUse k → self.old.last ≡ Some (completed d Normal) →
            LeadsTo p t self.old xs → LeadsTo p t self.new (xs ++ event t d k ∷ []) }
        ensures prints { (p : LinkedProgram) (t : ℕ) (text : List ℕ) (xs : List Event) →
            MayRequest self.old.frames → GoesOn self.old.last →
            LeadsTo p t self.old xs → LeadsTo p t self.new (xs ++ printed t text ∷ []) }
    {
        self.clear_last();
    }

    fn clear_last(&mut self)
        ensures { self.new ≡ standing self.old.frames None }
    {
        self.last = None;
    }

    /// The body ended so: step 10 or 12 comes next. It says what [`crate::Answer::BodyEnded`] says, without the program.
    /// Takes no memory.
    pub fn end_body(&mut self, outcome: Outcome)
        requires { AsksForBody self.old.frames }
        ensures standing { (f : Frame) (fs : List Frame) → self.old.frames ≡ f ∷ fs → self.new ≡ after_body f.class fs outcome }
        // A list with the body's step 9, and with what the body did since.
        ensures leads { (p : LinkedProgram) (t : ℕ) (later : Option Completed) (xs : List Event) →
            FitsBody p (given_up later) outcome →
            LeadsTo p t (started self.old later) xs → LeadsTo p t self.new xs }
    {
        self.leave_body(outcome);
    }
}
