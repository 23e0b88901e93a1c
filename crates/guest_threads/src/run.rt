//! All threads, each on a host thread of its own.

ghost use Rattle.std.specs.Prelude.{◌≡◌, ◌<◌, ◌≤◌, IfOk, vec_len, length};
ghost use Rattle.bodies.specs.Runs.{AreMains, IsRunOf};
ghost use Rattle.bodies.specs.Sharing.{free_bodies};
ghost use Rattle.guest_threads.specs.MergedJournals.{AreMerged};
ghost use Rattle.guest_threads.specs.Working.{ArePrepared};

use crate::common::Common;
use crate::gate::Gate;
use crate::guarded::Guarded;
use crate::launch::{Plan, jobs, run_each};
use crate::report::report;
use bodies::{Bodies, Limits, Report};
use hierarchy::{ClassId, Program};
use init_core::ClassRecord;
use init_lock::InitTable;
use std::alloc::{AllocError, Global};
use std::sync::Wait;
use std::thread::Threads;
use thiserror::Error;

/// Why there is no run.
#[derive(Clone, Copy, Debug, Error)]
pub enum RunFault {
    /// A host thread can't be started.
    #[error("a thread can't be started")]
    NoThread,
    /// Memory was refused before the threads began, or after they ended.
    #[error("out of memory")]
    NoMemory,
}

impl From<AllocError> for RunFault {
    ghost use Rattle.guest_threads.specs.declared.run.RunFault.TheVariants.{NoMemory};

    ghost from_gives = { λ _ fault. fault ≡ NoMemory };

    fn from(_refused: AllocError) -> Self {
        RunFault::NoMemory
    }
}

/// A record for each class of the program, prepared. An `Err` means out of memory.
fn prepared(alloc: Global, program: &Program) -> Result<Vec<Guarded>, AllocError>
    ensures few { length program.now.classes ≤ 1024 }
    ensures count { IfOk result (λ made. vec_len made ≡ length program.now.classes) }
    ensures prepared { IfOk result (λ made. ArePrepared program.now made.items) }
{
    let count = program.len();
    let mut made = Vec::new(alloc);
    'classes: while made.len() < count {
        let number = made.len();
        let record = ClassRecord::new(alloc, program, ClassId { number })?;
        made.push(Guarded {
            record,
            sleepers: 0,
        })?;
    }
    Ok(made)
}

/// Runs main classes, the thread of each on a host thread of its own: thread t is that of the t-th.
///
/// The initializers that it runs, and `main`, are what the t-th of `bodies` says that they do; `code` is the code of the program, as they have
/// it. They share `shared`: one thread at a time touches it, and others may change it between two touches of a thread.
/// Each event gets a stamp from one counter as it is made. The events of all threads, in the order of their stamps, are a
/// legal interleaving (JLS SE 8 12.4.2). A thread that is refused memory is ended by OutOfMemoryError, and one that looked as
/// often as `limits.patience` allows at one lock, at one class in progress or at one thing that another thread holds, as a monitor, by
/// InternalError; it ends the classes that it has begun, the innermost first. With patience 0 a thread waits without limit, and
/// sleeps where it waits for a class or for what another thread holds, so that two which need what the other has may wait for ever. A
/// thread that ends leaves all that it holds. At `limits.steps` it is for `bodies` to end a thread.
///
/// `gate` is told of each event, after the thread has made it.
pub fn run_threads<R: Threads + Wait + Sync, G: Gate + Sync, B: Bodies + Send>(
    rt: &R,
    alloc: Global,
    program: &Program,
    code: &B::Code,
    mains: &[ClassId],
    bodies: Vec<B>,
    shared: B::Shared,
    limits: Limits,
    gate: &G,
) -> Result<Report, RunFault>
where
    B::Code: Sync,
    B::Shared: Drop + Send,
    requires code { B.is_code code.now program.now }
    requires mains { AreMains program.now mains.now }
    requires bodies { vec_len bodies ≡ length mains.now }
    ensures merged { IfOk result (λ report. AreMerged (length mains.now) report.events) }
    ensures ran { IfOk result (IsRunOf program.now (free_bodies (B.making program.now)) bodies.items mains.now limits) }
{
    let records = prepared(alloc, program)?;
    let (table, passes) = InitTable::new(alloc, records, mains.len())?;
    let jobs = jobs(alloc, passes, bodies)?;
    let plan = Plan {
        program,
        table: &table,
        mains,
        limits,
    };
    let common = Common::new(shared);
    let done = run_each(rt, alloc, &plan, code, gate, &common, jobs)?;
    Ok(report::<B>(alloc, table, done)?)
}
