//! What a body does: an initializer, from step 9 on, or `main`.

ghost use Rattle.std.specs.Prelude.{◌≡◌, ◌≢◌, ◌≤◌, IfErr, IfOk, OnErr, OnOk};
ghost use Rattle.init_core.specs.Advance.{FitsBody};
ghost use Rattle.init_core.specs.ProcedureWord.{GoesOn, given_up};
ghost use Rattle.init_core.specs.declared.frames.Outcome.TheVariants.{Ended};
ghost use Rattle.bodies.specs.declared.does.Does.TheVariants as does;
ghost use Rattle.bodies.specs.declared.does.Touched.TheVariants.{Held};
ghost use Rattle.bodies.specs.Sharing.{IsAtTouch, free_bodies};
ghost use Rattle.guest_threads.specs.Tasks.{IsLimitOf, IsWhy};
ghost use Rattle.guest_threads.specs.Working.{Working, IsInBody, HasComeTo, HasTouched, IsDoing, WorksOrEnds};

use crate::gate::Gate;
use crate::take::{give_back_untouched, give_back_with, take_record};
use crate::task::{Task, Work, error_at};
use bodies::{Bodies, Does, Limit, Touched};
use hierarchy::{ClassId, Value};
use init_core::{Event, Kind, Outcome};
use sequence::Text;
use std::alloc::AllocError;
use std::sync::Wait;
use std::thread;

impl<'a, G: Gate, B: Bodies> Task<'a, G, B> {
    /// Touches what all threads share, once. Where something may have become free it wakes those that sleep; where another thread
    /// holds what is touched nothing changes, and the thread sleeps until something is left, if its patience has no limit.
    fn try_touch<W: Wait>(&self, rt: &W, bodies: &mut B) -> Result<Touched, AllocError>
        requires at { IsAtTouch (B.making self.now.program) bodies.old }
        ensures done { IfOk result (λ touched. touched ≢ Held → HasTouched (B.making self.now.program) bodies.old bodies.new) }
        ensures held { IfOk result (λ touched. touched ≡ Held → bodies.new ≡ bodies.old) }
        ensures err { OnErr result (bodies.new ≡ bodies.old) }
    {
        let mut shared = self.common.lock(rt);
        let touched = bodies.touch(self.alloc, self.program, self.code, &mut shared)?;
        match touched {
            Touched::Done => {}
            Touched::Left => {
                drop(shared);
                self.common.wake();
            }
            Touched::Held => {
                if self.limits.patience == 0 {
                    self.common.sleep(rt, shared);
                }
            }
        }
        Ok(touched)
    }

    /// Touches what all threads share, once no other thread holds what is touched. An `Err` is the limit at which the machine ends the
    /// thread, where memory is refused or its patience is at an end, and nothing has changed.
    fn touch<W: Wait>(&self, rt: &W, bodies: &mut B) -> Result<(), Limit>
        requires at { IsAtTouch (B.making self.now.program) bodies.old }
        ensures done { OnOk result (HasTouched (B.making self.now.program) bodies.old bodies.new) }
        ensures err { OnErr result (bodies.new ≡ bodies.old) }
        ensures limit { IfErr result (IsLimitOf (free_bodies (B.making self.now.program)) self.now bodies.old) }
    {
        let mut looks: u32 = 0;
        'touching: for _ in rt.forever() {
            let Ok(touched) = self.try_touch(rt, bodies) else {
                return Err(Limit::Memory);
            };
            let Touched::Held = touched else {
                return Ok(());
            };
            if self.limits.patience != 0 {
                looks = looks.saturating_add(1);
                if looks >= self.limits.patience {
                    return Err(Limit::Patience);
                }
                thread::yield_now();
            }
        }
        unreachable!()
    }

    /// What the innermost body does next beside touches of what all threads share, which are done on the way there. An `Err` is the limit
    /// at which the machine ends the thread.
    fn next<W: Wait>(&self, rt: &W, work: &mut Work<B>) -> Result<Does, Limit>
        requires working { Working (free_bodies (B.making self.now.program)) self.now work.old }
        requires body { IsInBody work.old }
        requires goes_on { GoesOn work.old.procedure.last }
        ensures doing { IfOk result (λ d. IsDoing (free_bodies (B.making self.now.program)) self.now d work.new) }
        ensures says { IfOk result (λ d. d ≢ does.Touches) }
        ensures come { OnErr result (HasComeTo (free_bodies (B.making self.now.program)) self.now work.new) }
        ensures limit { IfErr result (IsLimitOf (free_bodies (B.making self.now.program)) self.now work.new.bodies) }
        ensures rest { work.new ≡ record work.old { bodies = work.new.bodies } }
    {
        let mut last = work.procedure.last();
        'asking: for _ in rt.forever() {
            let does = work.bodies.next(self.alloc, self.program, self.code, last);
            let Does::Touches = does else {
                return Ok(does);
            };
            self.touch(rt, &mut work.bodies)?;
            last = None;
        }
        unreachable!()
    }

    /// The body is ended by this error of the machine. In `main` that is how the thread ends.
    fn leave(&self, work: &mut Work<B>, error: ClassId) -> Option<Outcome>
        requires come { HasComeTo (free_bodies (B.making self.now.program)) self.now work.old }
        requires fits { FitsBody self.now.program (given_up work.old.procedure.last) (Ended error) }
        requires why { IsWhy (free_bodies (B.making self.now.program)) self.now work.old.bodies work.old.why error }
        ensures { WorksOrEnds (free_bodies (B.making self.now.program)) self.now result work.new }
    {
        work.bodies.leave(self.program);
        if work.procedure.is_running() {
            work.procedure.end_body(Outcome::Ended(error));
            return None;
        }
        Some(Outcome::Ended(error))
    }

    /// The machine ends the thread at this limit, in a body.
    fn leave_at(&self, work: &mut Work<B>, limit: Limit) -> Option<Outcome>
        requires come { HasComeTo (free_bodies (B.making self.now.program)) self.now work.old }
        requires goes_on { GoesOn work.old.procedure.last }
        requires limit { IsLimitOf (free_bodies (B.making self.now.program)) self.now work.old.bodies limit }
        ensures { WorksOrEnds (free_bodies (B.making self.now.program)) self.now result work.new }
    {
        work.why = limit;
        self.leave(work, error_at(self.program, limit))
    }

    /// An active use of a class. Where memory is refused the machine ends the thread.
    fn use_class(&self, work: &mut Work<B>, class: ClassId) -> Option<Outcome>
        requires doing { IsDoing (free_bodies (B.making self.now.program)) self.now (does.Asks class) work.old }
        ensures { WorksOrEnds (free_bodies (B.making self.now.program)) self.now result work.new }
    {
        let asked = work.procedure.request(class);
        let Ok(()) = asked else {
            return self.leave_at(work, Limit::Memory);
        };
        None
    }

    /// A read of a static field. It waits for the lock without limit. Where memory is refused the machine ends the thread.
    fn read<W: Wait>(
        &self,
        rt: &W,
        work: &mut Work<B>,
        class: ClassId,
        field: usize,
    ) -> Option<Outcome>
        requires doing { IsDoing (free_bodies (B.making self.now.program)) self.now (does.Gets class field) work.old }
        requires room { 1 ≤ work.old.slack }
        ensures { WorksOrEnds (free_bodies (B.making self.now.program)) self.now result work.new }
    {
        let taken = take_record(rt, self.program, self.table, &mut work.pass, class, 0);
        let Ok(mut held) = taken else { unreachable!() };
        let record = &mut held.kept().record;
        let read = record.read_static(self.number, field);
        let Ok(value) = read else {
            give_back_untouched(self.table, &mut work.pass, held);
            return self.leave_at(work, Limit::Memory);
        };
        record.is_lawful();
        let event = Event::new(self.number, class, Kind::Gets { field, value });
        give_back_with(self.table, &mut work.pass, held, event, false);
        work.bodies.get(self.program, value);
        work.procedure.forget_last();
        work.slack -= 1;
        self.gate.at(&Event::new(self.number, class, Kind::Gets { field, value }));
        None
    }

    /// A write of a static field. It waits for the lock without limit. Where memory is refused the machine ends the thread.
    fn write<W: Wait>(
        &self,
        rt: &W,
        work: &mut Work<B>,
        class: ClassId,
        field: usize,
        given: Value,
    ) -> Option<Outcome>
        requires doing { IsDoing (free_bodies (B.making self.now.program)) self.now (does.Puts class field given) work.old }
        requires room { 1 ≤ work.old.slack }
        ensures { WorksOrEnds (free_bodies (B.making self.now.program)) self.now result work.new }
    {
        let taken = take_record(rt, self.program, self.table, &mut work.pass, class, 0);
        let Ok(mut held) = taken else { unreachable!() };
        let record = &mut held.kept().record;
        let written = record.write_static(self.number, field, given);
        let Ok(()) = written else {
            give_back_untouched(self.table, &mut work.pass, held);
            return self.leave_at(work, Limit::Memory);
        };
        record.is_lawful();
        let value = record.value(field);
        let event = Event::new(self.number, class, Kind::Puts { field, value });
        give_back_with(self.table, &mut work.pass, held, event, false);
        work.procedure.forget_last();
        work.slack -= 1;
        self.gate.at(&Event::new(self.number, class, Kind::Puts { field, value }));
        None
    }

    /// A print. Where memory is refused the machine ends the thread.
    fn print(&self, work: &mut Work<B>, text: Text) -> Option<Outcome>
        requires doing { IsDoing (free_bodies (B.making self.now.program)) self.now (does.Prints text) work.old }
        requires room { 1 ≤ work.old.slack }
        ensures { WorksOrEnds (free_bodies (B.making self.now.program)) self.now result work.new }
    {
        let made = Event::print(self.alloc, self.number, text);
        let Ok(event) = made else {
            return self.leave_at(work, Limit::Memory);
        };
        self.table.draw(&mut work.pass, event);
        work.procedure.forget_last();
        work.slack -= 1;
        self.gate.at_print(self.number);
        None
    }

    /// The body is over: it returned, or it threw, and then step 11 comes. In `main` that is how the thread ends. Where memory is refused
    /// the machine ends the thread.
    fn end_body<W: Wait>(
        &self,
        rt: &W,
        work: &mut Work<B>,
        thrown: Option<ClassId>,
    ) -> Option<Outcome>
        requires doing { IsDoing (free_bodies (B.making self.now.program)) self.now (does.Over thrown) work.old }
        ensures { WorksOrEnds (free_bodies (B.making self.now.program)) self.now result work.new }
    {
        if !work.procedure.is_running() {
            return Some(match thrown {
                None => Outcome::Normal,
                Some(throwable) => Outcome::Abrupt(throwable),
            });
        }
        let Some(throwable) = thrown else {
            work.procedure.end_body(Outcome::Normal);
            return None;
        };
        let mut shared = self.common.lock(rt);
        let replaced = work
            .bodies
            .replace(self.alloc, self.program, &mut shared, throwable);
        drop(shared);
        let Ok(error) = replaced else {
            return self.leave_at(work, Limit::Memory);
        };
        work.procedure.end_body(Outcome::Abrupt(error));
        None
    }

    /// What the innermost body does next, and how the thread ended where that was its end.
    pub(crate) fn go_on<W: Wait>(&self, rt: &W, work: &mut Work<B>) -> Option<Outcome>
        requires working { Working (free_bodies (B.making self.now.program)) self.now work.old }
        requires body { IsInBody work.old }
        ensures { WorksOrEnds (free_bodies (B.making self.now.program)) self.now result work.new }
    {
        if let Some(error) = work.procedure.ending_error() {
            return self.leave(work, error);
        }
        if !self.has_room(work, 1) {
            return self.leave_at(work, Limit::Memory);
        }
        let does = match self.next(rt, work) {
            Ok(does) => does,
            Err(limit) => return self.leave_at(work, limit),
        };
        match does {
            Does::Asks(class) => self.use_class(work, class),
            Does::Gets { class, field } => self.read(rt, work, class, field),
            Does::Puts {
                class,
                field,
                value,
            } => self.write(rt, work, class, field, value),
            Does::Prints(text) => self.print(work, text),
            Does::Touches => unreachable!(),
            Does::Over(thrown) => self.end_body(rt, work, thrown),
            Does::Ended(limit) => self.leave_at(work, limit),
        }
    }
}
