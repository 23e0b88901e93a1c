//! What a body does: an initializer, from step 9 on, or `main`.

ghost use Rattle.std.specs.Prelude.{◌≡◌, ◌≢◌, ◌⊎◌, IfOk, OnOk, false};
ghost use Rattle.init_core.specs.declared.frames.Outcome.TheVariants.{Ended};
ghost use Rattle.init_core.specs.Advance.{FitsBody};
ghost use Rattle.init_core.specs.ProcedureWord.{GoesOn, given_up};
ghost use Rattle.bodies.specs.Sharing.{used_bodies};
ghost use Rattle.bodies.specs.declared.does.Does.TheVariants as does;
ghost use Rattle.replayer.specs.Going.{Going, GoesOrEnds, HasStepped, IsDoing, IsInBody, HasComeTo, IsSameThread, IsWhy, Resting};
ghost use Rattle.replayer.specs.Turning.{HasTurned, TurnsWith};
ghost use Rattle.replayer.specs.declared.thread.Turn.TheVariants as turns;

use crate::log::EventLog;
use crate::shared::Shared;
use crate::thread::{Thread, Turn, event_of, turn_of};
use crate::used::Used;
use bodies::{Bodies, Does, Limit};
use hierarchy::{BuiltIn, ClassId, Program, Value};
use init_core::{Kind, Outcome};
use sequence::Text;
use std::alloc::{AllocError, Global};

impl<B: Bodies> Thread<Used<B, B::Shared>> {
    /// The body is ended by this error of the machine, for patience or not. In `main` that is how the thread ends.
    pub(crate) fn leave(
        &mut self,
        program: &Program,
        log: &EventLog,
        error: ClassId,
        gave_up: bool,
    ) -> Option<Outcome>
        requires come { HasComeTo program.now (used_bodies (B.making program.now)) log.now self.old }
        requires fits { FitsBody program.now (given_up self.old.procedure.last) (Ended error) }
        requires why { IsWhy program.now (used_bodies (B.making program.now)) self.old.bodies log.now.threads.value gave_up error }
        requires was { (self.old.gave_up ≡ false) ⊎ (gave_up ≡ self.old.gave_up) }
        ensures going { GoesOrEnds program.now (used_bodies (B.making program.now)) log.now self.new result }
        ensures same { IsSameThread (record self.old { gave_up = gave_up }) self.new }
        ensures uses { self.new.bodies.uses ≡ self.old.bodies.uses }
    {
        let _ = &log.events;
        self.gave_up = gave_up;
        self.bodies.leave(program);
        if self.procedure.is_running() {
            self.procedure.end_body(Outcome::Ended(error));
            return None;
        }
        Some(Outcome::Ended(error))
    }

    /// An active use of a class. An `Err` means out of memory.
    fn use_class(
        &mut self,
        program: &Program,
        log: &EventLog,
        class: ClassId,
    ) -> Result<(), AllocError>
        requires { IsDoing program.now (used_bodies (B.making program.now)) log.now (does.Asks class) self.old }
        ensures going { OnOk result (Going program.now (used_bodies (B.making program.now)) log.now self.new) }
        ensures same { IsSameThread self.old self.new }
        ensures bodies { self.new.bodies ≡ self.old.bodies }
    {
        let _ = &log.events;
        self.procedure.request(class)?;
        Ok(())
    }

    /// A read of a static field. An `Err` means out of memory.
    fn read(
        &mut self,
        program: &Program,
        log: &mut EventLog,
        class: ClassId,
        field: usize,
    ) -> Result<(), AllocError>
        requires { IsDoing program.now (used_bodies (B.making program.now)) log.old (does.Gets class field) self.old }
        ensures stepped { OnOk result (HasStepped program.now (used_bodies (B.making program.now)) log.old self.old log.new self.new) }
        ensures same { IsSameThread self.old self.new }
        ensures uses { self.new.bodies.uses ≡ self.old.bodies.uses }
    {
        let value = log.state(class).value(field);
        log.add(program, self.number, class, Kind::Gets { field, value })?;
        self.procedure.forget_last();
        self.bodies.get(program, value);
        Ok(())
    }

    /// A write of a static field. An `Err` means out of memory.
    fn write(
        &mut self,
        program: &Program,
        log: &mut EventLog,
        class: ClassId,
        field: usize,
        given: Value,
    ) -> Result<(), AllocError>
        requires { IsDoing program.now (used_bodies (B.making program.now)) log.old (does.Puts class field given) self.old }
        ensures stepped { OnOk result (HasStepped program.now (used_bodies (B.making program.now)) log.old self.old log.new self.new) }
        ensures same { IsSameThread self.old self.new }
        ensures bodies { self.new.bodies ≡ self.old.bodies }
    {
        let value = log.state(class).kept(field, given);
        log.add(program, self.number, class, Kind::Puts { field, value })?;
        self.procedure.forget_last();
        Ok(())
    }

    /// A print. An `Err` means out of memory.
    fn print(
        &mut self,
        alloc: Global,
        program: &Program,
        log: &mut EventLog,
        text: Text,
    ) -> Result<(), AllocError>
        requires { IsDoing program.now (used_bodies (B.making program.now)) log.old (does.Prints text) self.old }
        ensures stepped { OnOk result (HasStepped program.now (used_bodies (B.making program.now)) log.old self.old log.new self.new) }
        ensures same { IsSameThread self.old self.new }
        ensures bodies { self.new.bodies ≡ self.old.bodies }
    {
        log.print(alloc, self.number, text)?;
        self.procedure.forget_last();
        Ok(())
    }

    /// The body is over: it returned, or it threw, and then step 11 comes. In `main` that is how the thread ends. An `Err` means
    /// out of memory.
    fn end_body(
        &mut self,
        alloc: Global,
        program: &Program,
        log: &EventLog,
        shared: &mut Shared<B::Shared>,
        thrown: Option<ClassId>,
    ) -> Result<Option<Outcome>, AllocError>
        requires { IsDoing program.now (used_bodies (B.making program.now)) log.now (does.Over thrown) self.old }
        ensures going { IfOk result (λ done. GoesOrEnds program.now (used_bodies (B.making program.now)) log.now self.new done) }
        ensures same { IsSameThread self.old self.new }
        ensures turned { IfOk result (λ done. HasTurned self.old.number shared.old shared.new self.old.bodies.uses self.new.bodies.uses) }
    {
        let _ = &log.events;
        if !self.procedure.is_running() {
            return Ok(Some(match thrown {
                None => Outcome::Normal,
                Some(throwable) => Outcome::Abrupt(throwable),
            }));
        }
        let Some(throwable) = thrown else {
            self.procedure.end_body(Outcome::Normal);
            return Ok(None);
        };
        let error = self
            .bodies
            .replace(alloc, program, self.number, shared, throwable)?;
        self.procedure.end_body(Outcome::Abrupt(error));
        Ok(None)
    }

    /// What the innermost body does next, which goes on; `Touches` where another thread holds what it has come to. An `Err` means out
    /// of memory.
    fn next(
        &mut self,
        alloc: Global,
        program: &Program,
        code: &B::Code,
        log: &EventLog,
        shared: &mut Shared<B::Shared>,
    ) -> Result<Does, AllocError>
        requires code { B.is_code code.now program.now }
        requires resting { Resting program.now (used_bodies (B.making program.now)) log.now self.old }
        requires body { IsInBody self.old }
        requires goes_on { GoesOn self.old.procedure.last }
        ensures doing { IfOk result (λ d. IsDoing program.now (used_bodies (B.making program.now)) log.now d self.new) }
        ensures held { IfOk result (λ d. d ≡ does.Touches → (B.making program.now).waits self.new.bodies.state shared.new.state) }
        ensures same { IsSameThread self.old self.new }
        ensures turned { IfOk result (λ d. HasTurned self.old.number shared.old shared.new self.old.bodies.uses self.new.bodies.uses) }
    {
        let _ = &log.events;
        let last = self.procedure.last();
        self.bodies
            .next(alloc, program, code, self.number, shared, last)
    }

    /// Does what the innermost body does next. An `Err` means out of memory, of the machine or of what runs the bodies.
    fn act(
        &mut self,
        alloc: Global,
        program: &Program,
        log: &mut EventLog,
        shared: &mut Shared<B::Shared>,
        next: Does,
    ) -> Result<Turn, AllocError>
        requires doing { IsDoing program.now (used_bodies (B.making program.now)) log.old next self.old }
        requires held { next ≡ does.Touches → (B.making program.now).waits self.old.bodies.state shared.old.state }
        ensures turn { IfOk result (TurnsWith program.now (B.making program.now) shared.new.state log.old self.old log.new self.new) }
        ensures moves { IfOk result (λ turn. turn ≢ turns.Waits) }
        ensures same { IsSameThread self.old self.new }
        ensures turned { IfOk result (λ turn. HasTurned self.old.number shared.old shared.new self.old.bodies.uses self.new.bodies.uses) }
    {
        match next {
            Does::Asks(class) => {
                self.use_class(program, log, class)?;
                Ok(Turn::Silent)
            }
            Does::Gets { class, field } => event_of(self.read(program, log, class, field)),
            Does::Puts {
                class,
                field,
                value,
            } => event_of(self.write(program, log, class, field, value)),
            Does::Prints(text) => event_of(self.print(alloc, program, log, text)),
            Does::Touches => Ok(Turn::Comes),
            Does::Over(thrown) => {
                let done = self.end_body(alloc, program, log, shared, thrown)?;
                Ok(turn_of(done))
            }
            Does::Ended(Limit::Memory) => Err(AllocError),
            Does::Ended(Limit::Steps) => {
                let error = program.built_in(BuiltIn::InternalError);
                Ok(turn_of(self.leave(program, log, error, false)))
            }
            Does::Ended(Limit::Patience) => unreachable!(),
        }
    }

    /// Goes on in the innermost body, or in its end. An `Err` means out of memory, of the machine or of what runs the bodies.
    pub(crate) fn go_on(
        &mut self,
        alloc: Global,
        program: &Program,
        code: &B::Code,
        log: &mut EventLog,
        shared: &mut Shared<B::Shared>,
    ) -> Result<Turn, AllocError>
        requires code { B.is_code code.now program.now }
        requires resting { Resting program.now (used_bodies (B.making program.now)) log.old self.old }
        requires body { IsInBody self.old }
        ensures turn { IfOk result (TurnsWith program.now (B.making program.now) shared.new.state log.old self.old log.new self.new) }
        ensures same { IsSameThread self.old self.new }
        ensures turned { IfOk result (λ turn. HasTurned self.old.number shared.old shared.new self.old.bodies.uses self.new.bodies.uses) }
        ensures still { IfOk result (λ turn. turn ≡ turns.Waits → shared.new ≡ shared.old) }
    {
        if let Some(error) = self.procedure.ending_error() {
            let gave_up = self.gave_up;
            return Ok(turn_of(self.leave(program, log, error, gave_up)));
        }
        if self.bodies.waits(program, shared) {
            return Ok(Turn::Waits);
        }
        let next = self.next(alloc, program, code, log, shared)?;
        self.act(alloc, program, log, shared, next)
    }
}
