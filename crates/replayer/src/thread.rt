//! Where one thread of a run stands, and the steps of its procedures.

ghost use Rattle.std.specs.Prelude.{◌≡◌, ◌≢◌, ◌<◌, [], Err, IfOk, MatchResult, Ok, OnOk, Some, true, false};
ghost use Rattle.init_core.specs.declared.procedure.Next.TheVariants as nexts;
ghost use Rattle.init_core.specs.Advance.{next_of, is_running};
ghost use Rattle.init_core.specs.ProcedureWord.{IsOfFiles};
ghost use Rattle.bodies.specs.Sharing.{used_at_start, used_bodies};
ghost use Rattle.replayer.specs.Going.{Going, GoesOrEnds, HasStepped, IsNew, IsSameThread, Resting, turn_by};
ghost use Rattle.replayer.specs.declared.thread.Turn.TheVariants as turns;
ghost use Rattle.replayer.specs.Logged.{IsLog};
ghost use Rattle.replayer.specs.Turning.{HasTurned, IsPausedWith, TurnsWith};

use crate::log::EventLog;
use crate::shared::Shared;
use crate::used::Used;
use bodies::Bodies;
use hierarchy::{BuiltIn, ClassId, Program};
use init_core::{Answer, Completed, Ending, Kind, Next, Outcome, Procedure};
use std::alloc::{AllocError, Global};
use std::snapshot::Snapshot;

/// What a turn of a thread comes to.
#[derive(Clone, Copy, PartialEq, Eq)]
pub(crate) enum Turn {
    /// One event was made.
    Event,
    /// The thread went on without an event.
    Silent,
    /// It went on so, up to something that another thread holds or initializes.
    Comes,
    /// It waits for a class that another thread initializes, or is in a body at something that another thread holds.
    Waits,
    /// It has ended, with this result.
    Ended(Outcome),
}

/// A turn without an event, by how the thread ended, if it did.
pub(crate) fn turn_of(done: Option<Outcome>) -> Turn
    ensures { result ≡ turn_by done }
{
    match done {
        None => Turn::Silent,
        Some(result) => Turn::Ended(result),
    }
}

/// The turn in which an event was made, where there was memory for it.
pub(crate) fn event_of(made: Result<(), AllocError>) -> Result<Turn, AllocError>
    ensures { MatchResult made (λ none. result ≡ Ok turns.Event) (λ error. result ≡ Err error) }
{
    match made {
        Ok(()) => Ok(Turn::Event),
        Err(error) => Err(error),
    }
}

/// Where a thread of a run stands.
#[derive(Drop)]
pub(crate) struct Thread<B> {
    pub number: usize,
    pub procedure: Procedure,
    pub bodies: B,
    pub main: ClassId,
    /// What runs its bodies, as it was when the run began.
    pub start: Snapshot<B>,
    /// It is in the body of `main`.
    pub in_main: bool,
    /// It waited and none could go on, so the machine ends it.
    pub gave_up: bool,
    /// The result of what it did, once it has ended.
    pub done: Option<Outcome>,
}

impl<B: Bodies> Thread<Used<B, B::Shared>> {
    /// Its main class is requested. An `Err` means out of memory.
    pub(crate) fn begin(
        alloc: Global,
        program: &Program,
        log: &EventLog,
        number: usize,
        main: ClassId,
        bodies: B,
    ) -> Result<Self, AllocError>
        requires main { IsOfFiles program.now main }
        requires number { number < log.now.threads.value }
        requires log { IsLog program.now log.now }
        requires none { log.now.events.items ≡ [] }
        ensures { IfOk result (IsNew program.now (used_bodies (B.making program.now)) log.now number main (used_at_start bodies)) }
    {
        let _ = &log.events;
        let mut procedure = Procedure::new(alloc);
        procedure.request(main)?;
        let bodies = Used::new(bodies);
        Ok(Thread {
            number,
            procedure,
            start: Snapshot::of(&bodies),
            bodies,
            main,
            in_main: false,
            gave_up: false,
            done: None,
        })
    }

    /// Steps 1 to 6: a look at a class, which another thread may be initializing. An `Err` means out of memory.
    fn look(
        &mut self,
        alloc: Global,
        program: &Program,
        log: &mut EventLog,
        shared: &Shared<B::Shared>,
        class: ClassId,
    ) -> Result<Turn, AllocError>
        requires going { Going program.now (used_bodies (B.making program.now)) log.old self.old }
        requires next { next_of self.old.procedure.frames ≡ nexts.Look class }
        ensures turn { IfOk result (TurnsWith program.now (B.making program.now) shared.now.state log.old self.old log.new self.new) }
        ensures same { IsSameThread self.old self.new }
        ensures bodies { self.new.bodies ≡ self.old.bodies }
    {
        let _ = &shared.state;
        let decision = log.state(class).decision(self.number);
        if decision.waits_again() {
            return Ok(Turn::Waits);
        }
        self.procedure
            .advance(alloc, program, Answer::Decided(decision))?;
        log.add(program, self.number, class, decision.kind())?;
        Ok(Turn::Event)
    }

    /// Step 9: the initializer begins. An `Err` means out of memory.
    fn run_body(
        &mut self,
        alloc: Global,
        program: &Program,
        code: &B::Code,
        log: &mut EventLog,
        class: ClassId,
    ) -> Result<(), AllocError>
        requires code { B.is_code code.now program.now }
        requires going { Going program.now (used_bodies (B.making program.now)) log.old self.old }
        requires next { next_of self.old.procedure.frames ≡ nexts.Body class }
        requires before { is_running self.old.procedure.frames ≡ false }
        ensures stepped { OnOk result (HasStepped program.now (used_bodies (B.making program.now)) log.old self.old log.new self.new) }
        ensures same { IsSameThread self.old self.new }
        ensures uses { self.new.bodies.uses ≡ self.old.bodies.uses }
    {
        log.add(program, self.number, class, Kind::Runs)?;
        self.procedure.run_body();
        self.bodies.start(alloc, program, code, class);
        Ok(())
    }

    /// Step 7, 10 or 12. An `Err` means out of memory.
    fn end_class(
        &mut self,
        program: &Program,
        log: &mut EventLog,
        class: ClassId,
        ending: Ending,
    ) -> Result<(), AllocError>
        requires going { Going program.now (used_bodies (B.making program.now)) log.old self.old }
        requires next { next_of self.old.procedure.frames ≡ nexts.End class ending }
        ensures stepped { OnOk result (HasStepped program.now (used_bodies (B.making program.now)) log.old self.old log.new self.new) }
        ensures same { IsSameThread self.old self.new }
        ensures bodies { self.new.bodies ≡ self.old.bodies }
    {
        log.add(program, self.number, class, ending.kind())?;
        self.procedure.end_class();
        Ok(())
    }

    /// The procedure for the main class is completed: if normally the method `main` begins, and else that is how the
    /// thread ended.
    fn enter_main(
        &mut self,
        alloc: Global,
        program: &Program,
        code: &B::Code,
        log: &EventLog,
    ) -> Option<Outcome>
        requires code { B.is_code code.now program.now }
        requires going { Going program.now (used_bodies (B.making program.now)) log.now self.old }
        requires idle { next_of self.old.procedure.frames ≡ nexts.Idle }
        requires before { self.old.in_main ≡ false }
        ensures going { GoesOrEnds program.now (used_bodies (B.making program.now)) log.now self.new result }
        ensures same { IsSameThread self.old self.new }
        ensures uses { self.new.bodies.uses ≡ self.old.bodies.uses }
    {
        let _ = &log.events;
        let Some(Completed { outcome, .. }) = self.procedure.last() else {
            unreachable!();
        };
        let Outcome::Normal = outcome else {
            return Some(outcome);
        };
        self.bodies.enter(alloc, program, code, self.main);
        self.procedure.forget_last();
        self.in_main = true;
        None
    }

    /// Does what comes next. An `Err` means out of memory.
    fn turn(
        &mut self,
        alloc: Global,
        program: &Program,
        code: &B::Code,
        log: &mut EventLog,
        shared: &mut Shared<B::Shared>,
    ) -> Result<Turn, AllocError>
        requires code { B.is_code code.now program.now }
        requires resting { Resting program.now (used_bodies (B.making program.now)) log.old self.old }
        ensures turn { IfOk result (TurnsWith program.now (B.making program.now) shared.new.state log.old self.old log.new self.new) }
        ensures same { IsSameThread self.old self.new }
        ensures turned { IfOk result (λ turn. HasTurned self.old.number shared.old shared.new self.old.bodies.uses self.new.bodies.uses) }
        ensures still { IfOk result (λ turn. turn ≡ turns.Waits → shared.new ≡ shared.old) }
    {
        match self.procedure.next() {
            Next::Idle => {
                if self.in_main {
                    return self.go_on(alloc, program, code, log, shared);
                }
                Ok(turn_of(self.enter_main(alloc, program, code, log)))
            }
            Next::Look(class) => self.look(alloc, program, log, shared, class),
            Next::Body(class) => {
                if self.procedure.is_running() {
                    return self.go_on(alloc, program, code, log, shared);
                }
                event_of(self.run_body(alloc, program, code, log, class))
            }
            Next::End(class, ending) => event_of(self.end_class(program, log, class, ending)),
        }
    }

    /// Goes on until it has made one event, has ended or can't go on. An `Err` means out of memory, or more turns than there
    /// are numbers.
    pub(crate) fn advance(
        &mut self,
        alloc: Global,
        program: &Program,
        code: &B::Code,
        log: &mut EventLog,
        shared: &mut Shared<B::Shared>,
    ) -> Result<Turn, AllocError>
        requires code { B.is_code code.now program.now }
        requires resting { Resting program.now (used_bodies (B.making program.now)) log.old self.old }
        ensures turn { IfOk result (TurnsWith program.now (B.making program.now) shared.new.state log.old self.old log.new self.new) }
        ensures moves { IfOk result (λ turn. turn ≢ turns.Silent) }
        ensures same { IsSameThread self.old self.new }
        ensures turned { IfOk result (λ turn. HasTurned self.old.number shared.old shared.new self.old.bodies.uses self.new.bodies.uses) }
        ensures still { IfOk result (λ turn. turn ≡ turns.Waits → shared.new ≡ shared.old) }
    {
        let mut has_gone_on = false;
        'turns: for _ in 0..u64::MAX {
            let turn = self.turn(alloc, program, code, log, shared)?;
            if turn != Turn::Silent {
                return Ok(if has_gone_on && turn == Turn::Waits {
                    Turn::Comes
                } else {
                    turn
                });
            }
            has_gone_on = true;
        }
        Err(AllocError)
    }

    /// The thread has ended with this result.
    pub(crate) fn end(
        &mut self,
        program: &Program,
        shared: &mut Shared<B::Shared>,
        outcome: Outcome,
    )
        ensures same { IsSameThread (record self.old { done = Some outcome }) self.new }
        ensures ends { (used_bodies (B.making program.now)).ends self.old.bodies self.new.bodies }
        ensures turned { HasTurned self.old.number shared.old shared.new self.old.bodies.uses self.new.bodies.uses }
    {
        self.bodies.end(program, self.number, shared);
        self.done = Some(outcome);
    }

    /// The request that waits is given up, or the body that waits is ended: the machine ends the thread by InternalError.
    pub(crate) fn give_up(
        &mut self,
        program: &Program,
        log: &EventLog,
        shared: &Shared<B::Shared>,
    ) -> Option<Outcome>
        requires paused { IsPausedWith program.now (B.making program.now) shared.now.state log.now self.old }
        ensures going { GoesOrEnds program.now (used_bodies (B.making program.now)) log.now self.new result }
        ensures same { IsSameThread (record self.old { gave_up = true }) self.new }
        ensures uses { self.new.bodies.uses ≡ self.old.bodies.uses }
    {
        let _ = &shared.state;
        let error = program.built_in(BuiltIn::InternalError);
        match self.procedure.next() {
            Next::Look(_) => {
                self.procedure.end_thread(error);
                self.gave_up = true;
                None
            }
            _ => self.leave(program, log, error, true),
        }
    }
}
