//! The threads of a run: each is started with its pass and what runs its bodies, and all are joined.

ghost use Rattle.std.specs.Prelude.{◌≡◌, ◌≤◌, IfOk, vec_len, vec_capacity, length, map};
ghost use Rattle.std.specs.List.{AllByRecursion};
ghost use Rattle.init_lock.specs.Closing.{numbers};
ghost use Rattle.guest_threads.specs.AllWork.{AreDone, Did, IsPlan, MayWork, Pairs};

use crate::common::Common;
use crate::gate::Gate;
use crate::guarded::Guarded;
use crate::run::RunFault;
use crate::signals::Signals;
use crate::work::{Worked, work_from};
use bodies::{Bodies, Limit, Limits, ThreadOutcome};
use hierarchy::{ClassId, Program};
use init_lock::{InitTable, Pass};
use std::alloc::{AllocError, Global};
use std::marker::Model;
use std::snapshot::Snapshot;
use std::sync::Wait;
use std::thread;
use std::thread::{Promise, PromisedHandle, Scope, Threads};

/// What all threads of a run are given.
#[derive(Drop)]
pub struct Plan<'a> {
    /// The classes.
    pub program: &'a Program,
    /// Their records.
    pub table: &'a InitTable<Guarded>,
    /// The main class of each thread.
    pub mains: &'a [ClassId],
    /// How far each thread may go.
    pub limits: Limits,
}

impl<'a> Model for Plan<'a> {
    ghost use Rattle.guest_threads.specs.AllWork.{PlanFacts};

    ghost Value = { PlanFacts };

    ghost view = { λ k. record { program = k.program.now; table = k.table.now; mains = k.mains.now; limits = k.limits } };
}

/// What one thread begins with.
#[derive(Drop)]
pub struct Job<B> {
    /// Its pass.
    pub pass: Pass<Guarded>,
    /// What runs its bodies.
    pub bodies: B,
}

/// What the thread of a job promises: what [`work_from`] says, for the main class of its number.
#[derive(Drop)]
pub struct WorkOf<'a, B> {
    plan: &'a Plan<'a>,
    job: Snapshot<Job<B>>,
}

impl<'a, B: Bodies> Promise<Worked> for WorkOf<'a, B> {
    ghost use Rattle.guest_threads.specs.AllWork.{Did};

    ghost kept_by = { λ w r. Did B.making w.plan.now w.job.value r };
}

/// Each pass with what runs the bodies of its thread. An `Err` means out of memory.
pub(crate) fn jobs<B: Bodies>(
    alloc: Global,
    passes: Vec<Pass<Guarded>>,
    bodies: Vec<B>,
) -> Result<Vec<Job<B>>, AllocError>
    requires { vec_len bodies ≡ vec_len passes }
    ensures passes { IfOk result (λ jobs. map (λ j. j.pass) jobs.items ≡ passes.items) }
    ensures bodies { IfOk result (λ jobs. map (λ j. j.bodies) jobs.items ≡ bodies.items) }
{
    let mut jobs = Vec::new(alloc);
    let mut starts = bodies.into_iter();
    for pass in passes {
        let Some(bodies) = starts.next() else {
            unreachable!();
        };
        jobs.push(Job { pass, bodies })?;
    }
    Ok(jobs)
}

/// What all threads give back, in the order in which they were started. There is room for it.
fn join_all<'a, R: Threads, B: Bodies>(
    rt: &R,
    children: Vec<PromisedHandle<Worked, WorkOf<'a, B>>>,
    done: Vec<Worked>,
) -> Vec<Worked>
    requires none { vec_len done ≡ 0 }
    requires room { vec_len children ≤ vec_capacity done }
    ensures { Pairs (λ h w. Did B.making h.promise.plan.now h.promise.job.value w) children.entry.items result.items }
{
    let mut done = done;
    'joining: for child in children {
        let Ok(()) = done.push(child.join(rt)) else {
            unreachable!();
        };
    }
    done
}

/// What the thread of a job does once all threads are started. Where one can't be it ends at once, as one that is refused
/// memory.
fn do_job<W: Wait, G: Gate, B: Bodies>(
    rt: &W,
    alloc: Global,
    plan: &Plan,
    code: &B::Code,
    gate: &G,
    signals: &Signals,
    common: &Common<B::Shared>,
    job: Job<B>,
) -> Worked
    requires code { B.is_code code.now plan.now.program }
    requires plan { IsPlan plan.now }
    requires pass { MayWork plan.now job.pass }
    ensures { Did B.making plan.now job result }
{
    let Job { pass, bodies } = job;
    if !signals.wait_for_start(rt) {
        return Worked {
            pass,
            outcome: ThreadOutcome::Ended(Limit::Memory),
        };
    }
    let main = plan.mains[pass.number()];
    work_from(
        rt,
        alloc,
        plan.program,
        code,
        plan.table,
        plan.limits,
        gate,
        signals,
        main,
        pass,
        bodies,
        common,
    )
}

/// Starts the thread of a job.
fn start<'s, 'a: 's, E: 's, R: Threads + Wait + Sync, G: Gate + Sync, B: Bodies + Send + 's>(
    scope: &Scope<'s, E>,
    rt: &'a R,
    alloc: Global,
    plan: &'a Plan<'a>,
    code: &'a B::Code,
    gate: &'a G,
    signals: &'a Signals,
    common: &'a Common<B::Shared>,
    job: Job<B>,
) -> Result<PromisedHandle<Worked, WorkOf<'a, B>>, RunFault>
where
    B::Code: Sync,
    B::Shared: Send,
    requires code { B.is_code code.now plan.now.program }
    requires plan { IsPlan plan.now }
    requires pass { MayWork plan.now job.pass }
    ensures plan { IfOk result (λ child. child.promise.plan.now ≡ plan.now) }
    ensures job { IfOk result (λ child. child.promise.job.value ≡ job) }
{
    let promise = WorkOf {
        plan,
        job: Snapshot::of(&job),
    };
    let started = scope.spawn_with(
        promise,
        move || -> Worked
            requires { IsPlan plan.now × MayWork plan.now job.pass × B.is_code code.now plan.now.program }
            ensures { Did B.making plan.entry.now job result }
        { do_job(rt, alloc, plan, code, gate, signals, common, job) },
    );
    match started {
        Ok(child) => Ok(child),
        Err(_) => Err(RunFault::NoThread),
    }
}

/// Starts the thread of each job. No thread begins before all are started; where one can't be, those that are end at once.
fn start_all<'s, 'a: 's, E: 's, R: Threads + Wait + Sync, G: Gate + Sync, B: Bodies + Send + 's>(
    scope: &Scope<'s, E>,
    rt: &'a R,
    alloc: Global,
    plan: &'a Plan<'a>,
    code: &'a B::Code,
    gate: &'a G,
    signals: &'a Signals,
    common: &'a Common<B::Shared>,
    jobs: Vec<Job<B>>,
) -> Result<Vec<PromisedHandle<Worked, WorkOf<'a, B>>>, RunFault>
where
    B::Code: Sync,
    B::Shared: Send,
    requires code { B.is_code code.now plan.now.program }
    requires plan { IsPlan plan.now }
    requires passes { AllByRecursion (λ j. MayWork plan.now j.pass) jobs.items }
    ensures plan { IfOk result (λ children. AllByRecursion (λ h. h.promise.plan.now ≡ plan.now) children.items) }
    ensures jobs { IfOk result (λ children. map (λ h. h.promise.job.value) children.items ≡ jobs.items) }
{
    let mut children = Vec::with_capacity(alloc, jobs.len())?;
    'starting: for job in jobs {
        let started = start(scope, rt, alloc, plan, code, gate, signals, common, job);
        let Ok(child) = started else {
            signals.tell_start(false);
            return Err(RunFault::NoThread);
        };
        let Ok(()) = children.push(child) else {
            unreachable!();
        };
    }
    signals.tell_start(true);
    Ok(children)
}

/// Each job is done on a thread of its own.
pub(crate) fn run_each<R: Threads + Wait + Sync, G: Gate + Sync, B: Bodies + Send>(
    rt: &R,
    alloc: Global,
    plan: &Plan,
    code: &B::Code,
    gate: &G,
    common: &Common<B::Shared>,
    jobs: Vec<Job<B>>,
) -> Result<Vec<Worked>, RunFault>
where
    B::Code: Sync,
    B::Shared: Send,
    requires code { B.is_code code.now plan.now.program }
    requires plan { IsPlan plan.now }
    requires passes { AllByRecursion (λ j. MayWork plan.now j.pass) jobs.items }
    requires numbers { map (λ j. j.pass.number) jobs.items ≡ numbers 0 (length plan.now.mains) }
    ensures done { IfOk result (λ done. AreDone B.making plan.now (map (λ j. j.bodies) jobs.items) done.items) }
{
    let signals = Signals::new();
    let signals = &signals;
    thread::scope(
        thread::scope_env(),
        rt,
        |scope| -> Result<Vec<Worked>, RunFault>
            requires { IsPlan plan.now × AllByRecursion (λ j. MayWork plan.now j.pass) jobs.items × B.is_code code.now plan.now.program }
            ensures { IfOk result (λ done. Pairs (Did B.making plan.entry.now) jobs.items done.items) }
        {
            let done = Vec::with_capacity(alloc, jobs.len())?;
            let children = start_all(scope, rt, alloc, plan, code, gate, signals, common, jobs)?;
            Ok(join_all(rt, children, done))
        },
    )
}
