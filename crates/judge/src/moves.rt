//! The next event of a thread, by the state of its procedures (JLS SE 8 12.4.2).
//!
//! Each call answers whether the event may come next, and moves the procedures if so; else nothing is said of them. The
//! innermost open class, where there is one, was taken off before and is passed.

ghost use Rattle.std.specs.Prelude.{◌≡◌, IfOk, None, Some};
ghost use Rattle.init_core.specs.ProcedureWord.{IsMachineError, given_up};
ghost use Rattle.init_core.specs.declared.event.Kind.TheVariants as kinds;
ghost use Rattle.init_core.specs.declared.frames.Ending.TheVariants as endings;
ghost use Rattle.init_core.specs.declared.frames.Outcome.TheVariants as outcomes;
ghost use Rattle.init_core.specs.Advance.{after_word};
ghost use Rattle.init_core.specs.Leads.{outcome_of};
ghost use Rattle.judge.specs.OpenClass.{phase_in};
ghost use Rattle.judge.specs.NextEvent.{MovesIf, MayBeUnanswered, unanswered_to, MayAnswer, answer_to, MayRun, run_to, MayBeInBody, MayEndBody, body_to, MayEnd, MayBeInMain, item_to, MayInPhase, phase_to, MayRead, read_to};

use crate::items::{ending_error, is_error, is_machine_error, is_of};
use crate::open_class::{OpenClass, Procedures, Stage};
use hierarchy::{BuiltIn, ClassId, Program};
use init_core::{Completed, Kind, Outcome};
use std::alloc::{AllocError, Global};

impl Procedures {
    /// The class around a request is ended by the machine.
    fn end_around(
        &mut self,
        program: &Program,
        class: ClassId,
        of: Option<ClassId>,
        error: ClassId,
    ) -> Result<bool, AllocError>
        ensures { IfOk result (MovesIf ((of ≡ Some class) × IsMachineError program.now error) (after_word self.old.frames class (outcomes.Ended error)) self.new) }
    {
        if !is_of(of, class) || !is_machine_error(program, error) {
            return Ok(false);
        }
        self.close(class, Outcome::Ended(error))?;
        Ok(true)
    }

    /// Step 7 where the request of a needed class has no answer.
    fn unanswered_need(
        &mut self,
        program: &Program,
        of: Option<ClassId>,
        error: ClassId,
    ) -> Result<bool, AllocError>
        ensures { IfOk result (MovesIf (MayBeUnanswered program.now self.old.frames of (kinds.SuperFails error)) (unanswered_to self.old.frames error) self.new) }
    {
        match self.pop() {
            Some(
                OpenClass {
                    class,
                    stage: Stage::Needing(_),
                },
            ) => self.end_around(program, class, of, error),
            _ => Ok(false),
        }
    }

    /// Step 12 where a request of the body has no answer.
    fn unanswered_body(
        &mut self,
        program: &Program,
        of: Option<ClassId>,
        error: ClassId,
    ) -> Result<bool, AllocError>
        ensures { IfOk result (MovesIf (MayBeUnanswered program.now self.old.frames of (kinds.Fails error)) (unanswered_to self.old.frames error) self.new) }
    {
        match self.pop() {
            Some(
                OpenClass {
                    class,
                    stage: Stage::Running { ran: true },
                },
            ) => self.end_around(program, class, of, error),
            _ => Ok(false),
        }
    }

    /// At a request.
    fn at_request(
        &mut self,
        alloc: Global,
        program: &Program,
        class: ClassId,
        waited: bool,
        of: Option<ClassId>,
        kind: &Kind,
    ) -> Result<bool, AllocError>
        ensures { IfOk result (MovesIf (MayAnswer program.now waited class self.old.frames of kind.now) (answer_to program.now class self.old.frames kind.now) self.new) }
    {
        match kind {
            Kind::SuperFails(error) => self.unanswered_need(program, of, *error),
            Kind::Fails(error) => self.unanswered_body(program, of, *error),
            _ => {
                if is_of(of, class) {
                    self.look(alloc, program, class, waited, kind)
                } else {
                    Ok(false)
                }
            }
        }
    }

    /// At step 9, or out of memory before it.
    fn at_step_9(
        &mut self,
        program: &Program,
        class: ClassId,
        of: Option<ClassId>,
        kind: &Kind,
    ) -> Result<bool, AllocError>
        ensures { IfOk result (MovesIf (MayRun program.now class of kind.now) (run_to class self.old.frames kind.now) self.new) }
    {
        match kind {
            Kind::Runs => {
                self.forget_last();
                self.push(class, Stage::Running { ran: true })?;
                Ok(is_of(of, class))
            }
            Kind::SuperFails(error) => {
                let fits = *error == program.built_in(BuiltIn::OutOfMemoryError);
                self.close(class, Outcome::Ended(*error))?;
                Ok(fits && is_of(of, class))
            }
            _ => Ok(false),
        }
    }

    /// In a body that the machine is ending: step 12, by the same error.
    fn in_ended_body(
        &mut self,
        class: ClassId,
        by: ClassId,
        of: Option<ClassId>,
        kind: &Kind,
    ) -> Result<bool, AllocError>
        ensures { IfOk result (MovesIf (MayEndBody by class of kind.now) (after_word self.old.frames class (outcomes.Ended by)) self.new) }
    {
        match kind {
            Kind::Fails(error) => {
                let fits = *error == by;
                self.close(class, Outcome::Ended(by))?;
                Ok(fits && is_of(of, class))
            }
            _ => Ok(false),
        }
    }

    /// In a body that goes on.
    fn in_live_body(
        &mut self,
        alloc: Global,
        program: &Program,
        class: ClassId,
        of: Option<ClassId>,
        kind: &Kind,
    ) -> Result<bool, AllocError>
        ensures { IfOk result (MovesIf (MayBeInBody program.now None class self.old.last of kind.now) (body_to program.now None class self.old.frames of kind.now) self.new) }
    {
        match kind {
            Kind::Completes => {
                self.close(class, Outcome::Normal)?;
                Ok(is_of(of, class))
            }
            Kind::Fails(error) => {
                self.close(class, Outcome::Abrupt(*error))?;
                Ok(is_error(program, *error) && is_of(of, class))
            }
            _ => {
                let last = self.last;
                self.push(class, Stage::Running { ran: true })?;
                self.item(alloc, program, last, of, kind)
            }
        }
    }

    fn in_body(
        &mut self,
        alloc: Global,
        program: &Program,
        class: ClassId,
        of: Option<ClassId>,
        kind: &Kind,
    ) -> Result<bool, AllocError>
        ensures { IfOk result (MovesIf (MayBeInBody program.now (given_up self.old.last) class self.old.last of kind.now) (body_to program.now (given_up self.old.last) class self.old.frames of kind.now) self.new) }
    {
        match ending_error(self.last) {
            Some(by) => self.in_ended_body(class, by, of, kind),
            None => self.in_live_body(alloc, program, class, of, kind),
        }
    }

    /// Before step 7, which ends the class by this error.
    fn at_step_7(
        &mut self,
        class: ClassId,
        error: ClassId,
        by_machine: bool,
        of: Option<ClassId>,
        kind: &Kind,
    ) -> Result<bool, AllocError>
        ensures { IfOk result (MovesIf (MayEnd (endings.SuperFails error) class of kind.now) (after_word self.old.frames class (outcome_of (endings.SuperFails error) by_machine)) self.new) }
    {
        let Kind::SuperFails(thrown) = kind else {
            return Ok(false);
        };
        let fits = *thrown == error;
        let outcome = if by_machine {
            Outcome::Ended(error)
        } else {
            Outcome::Abrupt(error)
        };
        self.close(class, outcome)?;
        Ok(fits && is_of(of, class))
    }

    /// Where no class is open: main's body, or nothing of it yet.
    fn in_main(
        &mut self,
        alloc: Global,
        program: &Program,
        begun: bool,
        of: Option<ClassId>,
        kind: &Kind,
    ) -> Result<bool, AllocError>
        ensures { IfOk result (MovesIf (MayBeInMain program.now begun self.old.last of kind.now) (item_to program.now self.old.frames of kind.now) self.new) }
    {
        let last = self.last;
        if begun {
            if ending_error(last).is_some() {
                return Ok(false);
            }
            return self.item(alloc, program, last, of, kind);
        }
        match last {
            Some(
                Completed {
                    outcome: Outcome::Normal,
                    ..
                },
            ) => self.item(alloc, program, None, of, kind),
            _ => Ok(false),
        }
    }

    fn in_class(
        &mut self,
        alloc: Global,
        program: &Program,
        innermost: OpenClass,
        of: Option<ClassId>,
        kind: &Kind,
    ) -> Result<bool, AllocError>
        ensures { IfOk result (MovesIf (MayInPhase program.now (phase_in innermost.stage) innermost.class self.old.frames self.old.last of kind.now) (phase_to program.now (phase_in innermost.stage) innermost.class self.old.frames self.old.last of kind.now) self.new) }
    {
        let OpenClass { class, stage } = innermost;
        match stage {
            Stage::Looking { waited } => {
                self.at_request(alloc, program, class, waited, of, kind)
            }
            Stage::Needing(_) => Ok(false),
            Stage::Running { ran: false } => self.at_step_9(program, class, of, kind),
            Stage::Running { ran: true } => self.in_body(alloc, program, class, of, kind),
            Stage::SuperFails { error, by_machine } => {
                self.at_step_7(class, error, by_machine, of, kind)
            }
        }
    }

    /// The next event; `begun` says whether an item of main's body was made.
    pub(crate) fn take(
        &mut self,
        alloc: Global,
        program: &Program,
        begun: bool,
        of: Option<ClassId>,
        kind: &Kind,
    ) -> Result<bool, AllocError>
        ensures { IfOk result (MovesIf (MayRead program.now begun self.old.frames self.old.last of kind.now) (read_to program.now self.old.frames self.old.last of kind.now) self.new) }
    {
        match self.pop() {
            None => self.in_main(alloc, program, begun, of, kind),
            Some(innermost) => self.in_class(alloc, program, innermost, of, kind),
        }
    }
}
