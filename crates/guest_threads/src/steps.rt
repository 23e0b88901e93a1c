//! One step of a thread's procedures: a look, step 9, the step that ends a class, and how a request is given up.

ghost use Rattle.std.specs.Prelude.{◌≡◌, ◌≤◌, MatchBool, true, false};
ghost use Rattle.init_core.specs.declared.procedure.Next.TheVariants as nexts;
ghost use Rattle.init_core.specs.Advance.{next_of, is_running};
ghost use Rattle.bodies.specs.Sharing.{free_bodies};
ghost use Rattle.guest_threads.specs.Tasks.{IsLimitOf, room_of};
ghost use Rattle.guest_threads.specs.Working.{Working, HasLooked};

use crate::gate::Gate;
use crate::take::{give_back_asleep, give_back_untouched, give_back_with, take_record};
use crate::task::{Task, Work, error_at};
use bodies::{Bodies, Limit};
use hierarchy::ClassId;
use init_core::{Answer, Decision, Ending, Event, Kind};
use std::sync::Wait;

/// The room that a look takes, by what it decided: that of its event and, where it begins the class, of the step that ends it.
fn room_of(decision: Decision) -> usize
    ensures room { result ≡ room_of decision }
    ensures few { result ≤ 2 }
{
    match decision {
        Decision::Begins => 2,
        Decision::Waits { .. }
        | Decision::Recurs
        | Decision::FindsInitialized
        | Decision::FindsErroneous => 1,
    }
}

impl<'a, G: Gate, B: Bodies> Task<'a, G, B> {
    /// The request of a class is given up: the machine ends the thread at this limit.
    pub(crate) fn give_up(&self, work: &mut Work<B>, class: ClassId, limit: Limit)
        requires working { Working (free_bodies (B.making self.now.program)) self.now work.old }
        requires next { next_of work.old.procedure.frames ≡ nexts.Look class }
        requires limit { IsLimitOf (free_bodies (B.making self.now.program)) self.now work.old.bodies limit }
        ensures working { Working (free_bodies (B.making self.now.program)) self.now work.new }
    {
        work.procedure.end_thread(error_at(self.program, limit));
        work.why = limit;
    }

    /// One look at a class (steps 1 to 6), and whether another thread initializes it, as the thread had seen before: then
    /// that one will wake it when it ends the class.
    pub(crate) fn look<W: Wait>(&self, rt: &W, work: &mut Work<B>, class: ClassId) -> bool
        requires working { Working (free_bodies (B.making self.now.program)) self.now work.old }
        requires next { next_of work.old.procedure.frames ≡ nexts.Look class }
        requires room { 2 ≤ work.old.slack }
        ensures working { Working (free_bodies (B.making self.now.program)) self.now work.new }
        ensures waits { result ≡ true → HasLooked work.old work.new }
    {
        let patience = self.limits.patience as u64;
        let taken = take_record(
            rt,
            self.program,
            self.table,
            &mut work.pass,
            class,
            patience,
        );
        let Ok(mut held) = taken else {
            self.give_up(work, class, Limit::Patience);
            return false;
        };
        let record = &mut held.kept().record;
        let told = work
            .procedure
            .look_at(self.alloc, self.program, self.number, record);
        let Ok(decision) = told else {
            give_back_untouched(self.table, &mut work.pass, held);
            self.give_up(work, class, Limit::Memory);
            return false;
        };
        if decision.waits_again() {
            give_back_asleep(self.table, &mut work.pass, held, self.number);
            return true;
        }
        let event = Event::new(self.number, class, decision.kind());
        give_back_with(self.table, &mut work.pass, held, event, false);
        work.slack -= room_of(decision);
        self.gate
            .at(&Event::new(self.number, class, decision.kind()));
        false
    }

    /// Passes a class that is seen to be initialized without its lock (step 4), where the request hasn't looked in vain. Taking the
    /// lock may be left out where initialization is known to be complete (JVMS SE 8 5.5).
    pub(crate) fn pass_by(&self, work: &mut Work<B>, class: ClassId) -> bool
        requires working { Working (free_bodies (B.making self.now.program)) self.now work.old }
        requires next { next_of work.old.procedure.frames ≡ nexts.Look class }
        requires room { 2 ≤ work.old.slack }
        ensures { MatchBool result (Working (free_bodies (B.making self.now.program)) self.now work.new) (work.new ≡ work.old) }
    {
        if work.procedure.has_waited() {
            return false;
        }
        if !self.table.is_done(&mut work.pass, class.number) {
            return false;
        }
        let event = Event::new(self.number, class, Kind::FindsInitialized);
        self.table.draw(&mut work.pass, event);
        work.procedure.complete_by_step_4();
        work.slack -= 1;
        self.gate
            .at(&Event::new(self.number, class, Kind::FindsInitialized));
        true
    }

    /// Step 9: the initializer begins.
    pub(crate) fn run_body(&self, work: &mut Work<B>, class: ClassId)
        requires working { Working (free_bodies (B.making self.now.program)) self.now work.old }
        requires next { next_of work.old.procedure.frames ≡ nexts.Body class }
        requires before { is_running work.old.procedure.frames ≡ false }
        requires room { 1 ≤ work.old.slack }
        ensures working { Working (free_bodies (B.making self.now.program)) self.now work.new }
    {
        self.table
            .draw(&mut work.pass, Event::new(self.number, class, Kind::Runs));
        work.procedure.run_body();
        work.bodies
            .start(self.alloc, self.program, self.code, class);
        work.slack -= 1;
        self.gate.at(&Event::new(self.number, class, Kind::Runs));
    }

    /// Step 9 can't be made since memory ran out: step 7 comes next.
    pub(crate) fn give_up_body(&self, work: &mut Work<B>, class: ClassId)
        requires working { Working (free_bodies (B.making self.now.program)) self.now work.old }
        requires next { next_of work.old.procedure.frames ≡ nexts.Body class }
        requires before { is_running work.old.procedure.frames ≡ false }
        ensures working { Working (free_bodies (B.making self.now.program)) self.now work.new }
    {
        let error = error_at(self.program, Limit::Memory);
        let answer = Answer::GaveUp { error, begun: true };
        let told = work.procedure.advance(self.alloc, self.program, answer);
        let Ok(_) = told else { unreachable!() };
        work.why = Limit::Memory;
    }

    /// Step 7, 10 or 12. It waits for the lock without limit, and wakes those that sleep until the class is ended, once it
    /// has given the record back.
    pub(crate) fn end_class<W: Wait>(
        &self,
        rt: &W,
        work: &mut Work<B>,
        class: ClassId,
        ending: Ending,
    )
        requires working { Working (free_bodies (B.making self.now.program)) self.now work.old }
        requires next { next_of work.old.procedure.frames ≡ nexts.End class ending }
        ensures working { Working (free_bodies (B.making self.now.program)) self.now work.new }
    {
        let taken = take_record(rt, self.program, self.table, &mut work.pass, class, 0);
        let Ok(mut held) = taken else { unreachable!() };
        let guarded = held.kept();
        let sleepers = guarded.sleepers;
        guarded.record.end(self.number, ending);
        let event = Event::new(self.number, class, ending.kind());
        let settles = matches!(ending, Ending::Completes);
        give_back_with(self.table, &mut work.pass, held, event, settles);
        self.signals.wake(sleepers);
        work.procedure.end_class();
        self.gate.at(&Event::new(self.number, class, ending.kind()));
    }
}
