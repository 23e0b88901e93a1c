//! Passes of a settled place, a pass: the pass asks whether the place is settled, and draws an event at no place, without
//! the place's lock.

ghost use Rattle.std.specs.Prelude.{◌≡◌, ◌<◌, ◌≤◌, IfOk, vec_len};
ghost use Rattle.std.specs.List.{AllByRecursion};
ghost use Rattle.cases.specs.Ready.{IsReady};

use crate::bench::harness::{Failure, Watch};
use crate::bench::history::{History, SETTLES};
use crate::bench::lock::opened;
use init_lock::{InitTable, Pass};
use std::alloc::{AllocError, Global};
use std::rt::Clock;
use std::sync::Wait;
use std::thread;
use std::thread::Threads;

// Settles the first place by one event, and says so to all passes.
fn settle<W: Wait>(
    rt: &W,
    table: &InitTable<History>,
    pass: &mut Pass<History>,
) -> Result<(), AllocError>
    requires pass { IsReady table.now.id pass.old }
    requires place { 0 < table.now.places }
{
    pass.reserve(1)?;
    let Ok(mut held) = table.take(rt, pass, 0, 0) else {
        unreachable!()
    };
    let pushed = held.kept().events.push(SETTLES);
    if pushed.is_ok() {
        table.draw_held(pass, &mut held, SETTLES);
        table.publish(pass, &mut held);
    }
    table.give_back(pass, held);
    Ok(pushed?)
}

/// A table whose first place is settled and free, and a pass for each thread, at most 4, that knows nothing of it.
pub(crate) fn settled<W: Wait>(
    rt: &W,
    alloc: Global,
    threads: usize,
) -> Result<(InitTable<History>, Vec<Pass<History>>), AllocError>
    requires { threads ≤ 4 }
    ensures places { IfOk result (λ t. t.0.places ≡ 32) }
    ensures count { IfOk result (λ t. vec_len t.1 ≡ threads) }
    ensures passes { IfOk result (λ t. AllByRecursion (IsReady t.0.id) t.1.items) }
{
    let (table, mut passes) = opened(alloc, threads + 1, 1)?;
    let Some(mut last) = passes.pop() else {
        unreachable!()
    };
    settle(rt, &table, &mut last)?;
    Ok((table, passes))
}

/// Passes the first place so many times.
pub(crate) fn pass_often(table: &InitTable<History>, pass: &mut Pass<History>, times: usize)
    requires table { pass.old.table ≡ table.now.id }
    requires place { 0 < table.now.places }
    requires room { times ≤ pass.old.room }
{
    let mut left = times;
    while left > 0 {
        left -= 1;
        if table.is_done(pass, 0) {
            table.draw(pass, left as u64);
        }
    }
}

// The passes of one thread.
fn passes_of(
    table: &InitTable<History>,
    mut pass: Pass<History>,
    times: usize,
) -> Result<(), AllocError>
    requires pass { IsReady table.now.id pass }
    requires place { 0 < table.now.places }
{
    pass.reserve(times)?;
    pass_often(table, &mut pass, times);
    Ok(())
}

// A thread for each pass passes the first place so many times.
fn in_threads<R: Threads + Sync>(
    rt: &R,
    table: &InitTable<History>,
    passes: Vec<Pass<History>>,
    times: usize,
) -> Result<(), AllocError>
    requires passes { AllByRecursion (IsReady table.now.id) passes.items }
    requires place { 0 < table.now.places }
{
    let ends = thread::map_vec(
        rt,
        passes,
        &|pass: Pass<History>| -> Result<(), AllocError>
            requires { IsReady table.now.id pass × (0 < table.now.places) }
        { passes_of(table, pass, times) },
    )?;
    for end in ends {
        end?;
    }
    Ok(())
}

/// The time of a pass, where so many threads, 1 to 4, pass one place so many times each.
pub(crate) fn time<R: Clock + Threads + Wait + Sync>(
    rt: &R,
    alloc: Global,
    threads: usize,
    times: usize,
) -> Result<u128, Failure> {
    let (table, passes) = settled(rt, alloc, threads.min(4))?;
    let watch = Watch::start(rt);
    in_threads(rt, &table, passes, times)?;
    watch.share(rt, times)
}
