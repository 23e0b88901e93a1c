//! How the machine ends a thread of a world (JLS SE 8 12.4.2 steps 7 and 12; JVMS SE 8 6.3).

ghost use Rattle.std.specs.Prelude.{◌≡◌, ◌<◌, length, None, Some, IfOk, OnErr, true};
ghost use Rattle.init_core.specs.declared.procedure.Next.TheVariants as nexts;
ghost use Rattle.init_core.specs.Advance.{next_of, is_running, MayEndThread, thread_ended};
ghost use Rattle.init_core.specs.ProcedureWord.{IsMachineError};
ghost use Rattle.init_core.specs.Stands.{ending_error};
ghost use Rattle.init_world.specs.Turns.{IsTurn};
ghost use Rattle.init_world.specs.WorldState.{thread_at, placed};

use crate::world::{Turn, World};
use hierarchy::ClassId;
use init_core::{Event, Kind, Next, Outcome};
use std::alloc::AllocError;

impl World {
    /// The error by which the machine is ending the thread, or has ended it, where it does: then [`World::turn`] alone may be
    /// called. Takes no memory.
    pub fn ending_error(&self, thread: usize) -> Option<ClassId>
        requires { thread < length self.now.threads }
        ensures { result ≡ ending_error (thread_at self.now thread) }
    {
        let ended = &self.procedures[thread];
        ended.ending_error()
    }

    /// Whether the machine may end the thread here: [`World::give_up`] may be called. Takes no memory.
    pub fn may_give_up(&self, thread: usize) -> bool
        requires { thread < length self.now.threads }
        ensures frames { result ≡ true → MayEndThread (thread_at self.now thread).frames }
        ensures goes_on { result ≡ true → ending_error (thread_at self.now thread) ≡ None }
        ensures no { MayEndThread (thread_at self.now thread).frames → ending_error (thread_at self.now thread) ≡ None → result ≡ true }
    {
        let open = &self.procedures[thread];
        if open.ending_error().is_some() {
            return false;
        }
        match open.next() {
            Next::Look(_) => true,
            _ => open.is_running(),
        }
    }

    /// The machine ends a thread by this error, an InternalError or OutOfMemoryError: at a request that has no answer of steps
    /// 3 to 6 yet, or in a body after step 9. The turns that follow end the classes that the thread has begun, innermost
    /// first, by step 7 or 12 with this error, and then answer [`Turn::Ended`]. Takes no memory.
    pub fn give_up(&mut self, thread: usize, error: ClassId)
        requires thread { thread < length self.old.threads }
        requires frames { MayEndThread (thread_at self.old thread).frames }
        requires goes_on { ending_error (thread_at self.old thread) ≡ None }
        requires error { IsMachineError self.old.program error }
        ensures { self.new ≡ placed self.old thread (thread_ended (thread_at self.old thread) error) }
    {
        let procedure = &mut self.procedures[thread];
        procedure.end_thread(error);
    }

    /// In a body after step 9: step 12, where the machine ended an active use in it.
    pub(crate) fn stay(&mut self, thread: usize, class: ClassId) -> Result<Turn, AllocError>
        requires thread { thread < length self.old.threads }
        requires next { next_of (thread_at self.old thread).frames ≡ nexts.Body class }
        requires body { is_running (thread_at self.old thread).frames ≡ true }
        ensures turn { IfOk result (λ turn. IsTurn self.old thread turn self.new) }
        ensures err { OnErr result (self.new ≡ self.old) }
    {
        match self.procedures[thread].ending_error() {
            Some(error) => self.leave(thread, class, error),
            None => Ok(self.answer(thread)),
        }
    }

    /// Step 12 by the machine's error.
    fn leave(&mut self, thread: usize, class: ClassId, error: ClassId) -> Result<Turn, AllocError>
        requires thread { thread < length self.old.threads }
        requires next { next_of (thread_at self.old thread).frames ≡ nexts.Body class }
        requires body { is_running (thread_at self.old thread).frames ≡ true }
        requires error { ending_error (thread_at self.old thread) ≡ Some error }
        ensures turn { IfOk result (λ turn. IsTurn self.old thread turn self.new) }
        ensures err { OnErr result (self.new ≡ self.old) }
    {
        self.events.reserve(1)?;
        let kind = Kind::Fails(error);
        let record = &mut self.records[class.number];
        record.add(thread, &kind);
        let procedure = &mut self.procedures[thread];
        procedure.end_body(Outcome::Ended(error));
        procedure.end_class();
        self.events.push_reserved(Event::new(thread, class, kind));
        Ok(Turn::Event)
    }
}
