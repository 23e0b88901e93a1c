//! All that one thread does.

ghost use Rattle.std.specs.Prelude.{◌≡◌, [], ◌∷◌, None, IfOk, false};
ghost use Rattle.init_core.specs.declared.frames.Phase.TheVariants.{Looking};
ghost use Rattle.init_core.specs.declared.procedure.Next.TheVariants as nexts;
ghost use Rattle.init_core.specs.Advance.{next_of, is_running};
ghost use Rattle.init_core.specs.Leads.{frame, standing};
ghost use Rattle.init_core.specs.ProcedureWord.{IsOfFiles};
ghost use Rattle.bodies.specs.Sharing.{free_bodies};
ghost use Rattle.guest_threads.specs.Tasks.{outcome_by};
ghost use Rattle.guest_threads.specs.ThreadWork.{IsDone, HasDone};
ghost use Rattle.guest_threads.specs.Working.{MayBegin, Works, Working, WorksOrEnds};

use crate::common::{Common, end_bodies};
use crate::gate::Gate;
use crate::guarded::Guarded;
use crate::signals::Signals;
use crate::task::{Task, Work};
use bodies::{Bodies, Limit, Limits, ThreadOutcome};
use hierarchy::{ClassId, Program};
use init_core::{Completed, Next, Outcome, Procedure};
use init_lock::{InitTable, Pass};
use std::alloc::{AllocError, Global};
use std::snapshot::Snapshot;
use std::sync::Wait;
use std::thread;

/// What the thread of a main class gives back.
#[derive(Drop)]
pub struct Worked {
    /// Its pass, whose journal has the events that it made.
    pub pass: Pass<Guarded>,
    /// How it ended.
    pub outcome: ThreadOutcome,
}

/// How a thread ended, by the result of what it did, and by what the machine ended it for, if it did.
fn outcome_of(done: Outcome, why: Limit) -> ThreadOutcome
    ensures { result ≡ outcome_by why done }
{
    match done {
        Outcome::Normal => ThreadOutcome::Normal,
        Outcome::Abrupt(throwable) => ThreadOutcome::Abrupt(throwable),
        Outcome::Ended(_) => ThreadOutcome::Ended(why),
    }
}

/// The request of the main class. An `Err` means out of memory.
fn begin(alloc: Global, main: ClassId) -> Result<Procedure, AllocError>
    ensures { IfOk result (λ s. s ≡ standing (frame main (Looking false) ∷ []) None) }
{
    let mut procedure = Procedure::new(alloc);
    procedure.request(main)?;
    Ok(procedure)
}

impl<'a, G: Gate, B: Bodies> Task<'a, G, B> {
    /// Looks at the class that is asked for. Where another thread initializes it, the thread sleeps until that one has ended
    /// it; where its patience has a limit it lets others run instead, or is at the end of its patience.
    fn look_on<W: Wait>(&self, rt: &W, work: &mut Work<B>, class: ClassId)
        requires working { Working (free_bodies (B.making self.now.program)) self.now work.old }
        requires next { next_of work.old.procedure.frames ≡ nexts.Look class }
        ensures { Working (free_bodies (B.making self.now.program)) self.now work.new }
    {
        if !self.has_room(work, 2) {
            self.give_up(work, class, Limit::Memory);
            return;
        }
        if self.pass_by(work, class) {
            return;
        }
        if !self.look(rt, work, class) {
            work.looks = 0;
            return;
        }
        if self.limits.patience == 0 {
            self.signals.sleep(rt, self.number);
            return;
        }
        if work.looks >= self.limits.patience - 1 {
            self.give_up(work, class, Limit::Patience);
            work.looks = 0;
            return;
        }
        work.looks = work.looks.saturating_add(1);
        thread::yield_now();
    }

    /// Makes step 9 of the class that is asked for.
    fn run_on(&self, work: &mut Work<B>, class: ClassId)
        requires working { Working (free_bodies (B.making self.now.program)) self.now work.old }
        requires next { next_of work.old.procedure.frames ≡ nexts.Body class }
        requires before { is_running work.old.procedure.frames ≡ false }
        ensures { Working (free_bodies (B.making self.now.program)) self.now work.new }
    {
        if self.has_room(work, 1) {
            self.run_body(work, class);
        } else {
            self.give_up_body(work, class);
        }
    }

    /// The procedure for the main class is completed: if normally the method `main` begins, and else that is how the
    /// thread ended.
    fn enter_main(&self, work: &mut Work<B>) -> Option<Outcome>
        requires working { Working (free_bodies (B.making self.now.program)) self.now work.old }
        requires idle { next_of work.old.procedure.frames ≡ nexts.Idle }
        requires before { work.old.in_main ≡ false }
        ensures { WorksOrEnds (free_bodies (B.making self.now.program)) self.now result work.new }
    {
        let Some(Completed { outcome, .. }) = work.procedure.last() else {
            unreachable!();
        };
        let Outcome::Normal = outcome else {
            return Some(outcome);
        };
        work.bodies
            .enter(self.alloc, self.program, self.code, self.main);
        work.procedure.forget_last();
        work.in_main = true;
        None
    }

    /// Does what comes next, and answers how the thread ended where that was its end.
    fn step<W: Wait>(&self, rt: &W, work: &mut Work<B>) -> Option<Outcome>
        requires { Working (free_bodies (B.making self.now.program)) self.now work.old }
        ensures { WorksOrEnds (free_bodies (B.making self.now.program)) self.now result work.new }
    {
        match work.procedure.next() {
            Next::Idle => {
                if work.in_main {
                    return self.go_on(rt, work);
                }
                return self.enter_main(work);
            }
            Next::Look(class) => self.look_on(rt, work, class),
            Next::Body(class) => {
                if work.procedure.is_running() {
                    return self.go_on(rt, work);
                }
                self.run_on(work, class);
            }
            Next::End(class, ending) => self.end_class(rt, work, class, ending),
        }
        None
    }

    /// Does what the thread of a main class does: the procedure for that class, and then the method `main`.
    fn work<W: Wait>(&self, rt: &W, mut work: Work<B>) -> Worked
        requires { Working (free_bodies (B.making self.now.program)) self.now work }
        ensures { HasDone (free_bodies (B.making self.now.program)) self.now result }
    {
        'steps: for _ in rt.forever() {
            if let Some(done) = self.step(rt, &mut work) {
                let outcome = outcome_of(done, work.why);
                let Work { pass, bodies, .. } = work;
                end_bodies(rt, self.program, self.common, bodies);
                return Worked { pass, outcome };
            }
        }
        unreachable!()
    }
}

/// What a thread does from its first request on. What it waits for beside locks is in `signals`, and in `common`, which has what the
/// bodies of all threads share.
pub(crate) fn work_from<W: Wait, G: Gate, B: Bodies>(
    rt: &W,
    alloc: Global,
    program: &Program,
    code: &B::Code,
    table: &InitTable<Guarded>,
    limits: Limits,
    gate: &G,
    signals: &Signals,
    main: ClassId,
    pass: Pass<Guarded>,
    bodies: B,
    common: &Common<B::Shared>,
) -> Worked
    requires code { B.is_code code.now program.now }
    requires main { IsOfFiles program.now main }
    requires begins { MayBegin program.now table.now pass }
    ensures number { result.pass.number ≡ pass.number }
    ensures works { Works program.now table.now result.pass.number result.pass }
    ensures done { IsDone program.now (free_bodies (B.making program.now)) bodies table.now limits main result }
{
    let begun = begin(alloc, main);
    let Ok(procedure) = begun else {
        end_bodies(rt, program, common, bodies);
        return Worked {
            pass,
            outcome: ThreadOutcome::Ended(Limit::Memory),
        };
    };
    let task = Task {
        alloc,
        program,
        code,
        table,
        limits,
        gate,
        signals,
        common,
        number: pass.number(),
        main,
        start: Snapshot::of(&bodies),
    };
    let work = Work {
        pass,
        procedure,
        bodies,
        in_main: false,
        why: Limit::Memory,
        slack: 0,
        looks: 0,
    };
    task.work(rt, work)
}

/// Runs one main class on the calling thread: the procedure for the class and all that it needs (JLS SE 8 12.4.2), and then
/// `main`.
///
/// [`run_threads`](crate::run_threads) does so on a host thread for each main class. This is for tests and tools that run a
/// class while they have records of the same table in hand: what they hold, have begun or published is what the class meets.
/// The table is over a prepared [`Guarded`] for each class of the program, and `pass` is one of its passes, with which nothing was
/// done yet. The pass comes back with the events of the thread in its journal, in the order in which they were made, and with
/// no record. `code` is the code of the program, as the bodies have it, and `common` has what the bodies of all threads share.
///
/// At a lock that another pass has, and at a class that another thread has in progress, it looks as often as
/// `limits.patience` allows, and is then ended by InternalError. With patience 0 it waits without limit: at the lock until the
/// record is given back, and at the class for ever, since only the threads of one [`run_threads`](crate::run_threads) wake
/// each other. At something shared that another thread holds it looks as often, or sleeps until one of those that have `common` leaves
/// something. Where memory is refused it is ended by OutOfMemoryError. `gate` is told of each event, after it was made.
pub fn run_one<W: Wait, G: Gate, B: Bodies>(
    rt: &W,
    alloc: Global,
    program: &Program,
    code: &B::Code,
    table: &InitTable<Guarded>,
    limits: Limits,
    gate: &G,
    main: ClassId,
    pass: Pass<Guarded>,
    bodies: B,
    common: &Common<B::Shared>,
) -> Worked
    requires code { B.is_code code.now program.now }
    requires main { IsOfFiles program.now main }
    requires begins { MayBegin program.now table.now pass }
    ensures number { result.pass.number ≡ pass.number }
    ensures works { Works program.now table.now result.pass.number result.pass }
    ensures done { IsDone program.now (free_bodies (B.making program.now)) bodies table.now limits main result }
{
    let signals = Signals::new();
    work_from(
        rt, alloc, program, code, table, limits, gate, &signals, main, pass, bodies, common,
    )
}
