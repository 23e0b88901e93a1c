//! What one thread is to do, and where its work stands.

ghost use Rattle.std.specs.Prelude.{◌≡◌, ◌<◌, ◌≤◌, MatchBool};
ghost use Rattle.bodies.specs.Sharing.{free_bodies};
ghost use Rattle.guest_threads.specs.Tasks.{error_of};
ghost use Rattle.guest_threads.specs.Working.{Working, IsRoomier};

use crate::common::Common;
use crate::gate::Gate;
use crate::guarded::Guarded;
use crate::signals::Signals;
use bodies::{Bodies, Limit, Limits};
use hierarchy::{BuiltIn, ClassId, Program};
use init_core::Procedure;
use init_lock::{InitTable, Pass};
use std::alloc::Global;
use std::marker::Model;
use std::snapshot::Snapshot;

/// What one thread is to do: its number and main class, and all that it works with.
#[derive(Drop)]
pub(crate) struct Task<'a, G, B: Bodies> {
    pub alloc: Global,
    pub program: &'a Program,
    /// The program's code, as the bodies have it.
    pub code: &'a B::Code,
    pub table: &'a InitTable<Guarded>,
    pub limits: Limits,
    pub gate: &'a G,
    pub signals: &'a Signals,
    /// What the bodies of all threads share.
    pub common: &'a Common<B::Shared>,
    pub number: usize,
    pub main: ClassId,
    /// What runs its bodies, as it was when the thread began.
    pub start: Snapshot<B>,
}

impl<'a, G, B: Bodies> Model for Task<'a, G, B> {
    ghost use Rattle.guest_threads.specs.Tasks.{TaskFacts};

    ghost Value = { TaskFacts B };

    ghost view = { λ k. record { program = k.program.now; table = k.table.now; limits = k.limits; number = k.number; main = k.main; start = k.start.value } };

    ghost invariant = { λ k. B.is_code k.code.now k.program.now };
}

/// Where the work of a thread stands.
#[derive(Drop)]
pub(crate) struct Work<B> {
    pub pass: Pass<Guarded>,
    pub procedure: Procedure,
    pub bodies: B,
    /// It is in the body of `main`.
    pub in_main: bool,
    /// What the machine ends the thread for, once it does.
    pub why: Limit,
    /// Room for events beside that of the step that ends each class that it has begun.
    pub slack: usize,
    /// The looks in vain at the class that it waits for.
    pub looks: u32,
}

// So many events' room is made at a time.
const BATCH: usize = 64;

/// The error by which the machine ends a thread at a limit.
pub(crate) fn error_at(program: &Program, limit: Limit) -> ClassId
    ensures { result ≡ error_of program.now limit }
{
    match limit {
        Limit::Memory => program.built_in(BuiltIn::OutOfMemoryError),
        Limit::Steps | Limit::Patience => program.built_in(BuiltIn::InternalError),
    }
}

impl<'a, G: Gate, B: Bodies> Task<'a, G, B> {
    /// Whether there is room for so many events, which is made where there is none: an answer `false` means out of memory.
    pub(crate) fn has_room(&self, work: &mut Work<B>, count: usize) -> bool
        requires working { Working (free_bodies (B.making self.now.program)) self.now work.old }
        requires few { count ≤ 64 }
        ensures working { Working (free_bodies (B.making self.now.program)) self.now work.new }
        ensures unmoved { IsRoomier work.old work.new }
        ensures room { MatchBool result (count ≤ work.new.slack) (work.new.slack ≡ work.old.slack) }
    {
        if work.slack >= count {
            return true;
        }
        if work.pass.reserve(BATCH).is_err() {
            return false;
        }
        work.slack += BATCH;
        true
    }
}
