//! Passes of a settled place, a pass, while another thread takes and gives back the record of a place all the time. It
//! draws nothing, so that the counter's cache line is the first thread's alone.

ghost use Rattle.std.specs.Prelude.{◌≡◌, ◌<◌, ◌≤◌};

use crate::bench::harness::{Failure, Watch};
use crate::bench::history::History;
use crate::bench::passes::{pass_often, settled};
use crossbeam_utils::CachePadded;
use init_lock::{InitTable, Pass};
use std::alloc::Global;
use std::rt::Clock;
use std::sync::Wait;
use std::sync::atomic::{AtomicU64, Ordering};
use std::thread;
use std::thread::{Threads, join};

// What the word of the two threads says: that the other hasn't begun, that it takes and gives back, that it should end.
const QUIET: u64 = 0;

const BEGUN: u64 = 1;

const OVER: u64 = 2;

// How often a thread looks whether the other has begun.
const LOOKS: usize = 1_000_000;

// What the other thread does.
pub(crate) enum Other {
    /// There is none.
    None,
    /// It takes the record of the place that is passed.
    SamePlace,
    /// It takes that of a place whose lock is on another cache line.
    FarPlace,
}

// Takes the record of a place and gives it back, until it is told to end.
fn take_often(table: &InitTable<History>, pass: &mut Pass<History>, place: usize, word: &AtomicU64)
    requires table { pass.old.table ≡ table.now.id }
    requires place { place < table.now.places }
{
    let _ = word.compare_exchange(QUIET, BEGUN, Ordering::SeqCst, Ordering::SeqCst);
    for _ in 0..u64::MAX {
        if word.load(Ordering::SeqCst) == OVER {
            return;
        }
        if let Some(held) = table.try_take(pass, place) {
            table.give_back(pass, held);
        }
    }
}

// Waits until the other thread has begun, and answers whether it has.
fn has_begun(word: &AtomicU64) -> bool {
    for _ in 0..LOOKS {
        if word.load(Ordering::SeqCst) == BEGUN {
            return true;
        }
        thread::yield_now();
    }
    false
}

// The time of a pass of this thread.
fn pass_time(
    rt: &impl Clock,
    table: &InitTable<History>,
    pass: &mut Pass<History>,
    times: usize,
) -> Result<u128, Failure>
    requires table { pass.old.table ≡ table.now.id }
    requires place { 0 < table.now.places }
    requires room { times ≤ pass.old.room }
{
    let watch = Watch::start(rt);
    pass_often(table, pass, times);
    watch.share(rt, times)
}

// The same once the other thread has begun, which is then told to end.
fn time_begun(
    rt: &impl Clock,
    table: &InitTable<History>,
    pass: &mut Pass<History>,
    times: usize,
    word: &AtomicU64,
) -> Result<u128, Failure>
    requires table { pass.old.table ≡ table.now.id }
    requires place { 0 < table.now.places }
    requires room { times ≤ pass.old.room }
{
    let time = if has_begun(word) {
        pass_time(rt, table, pass, times)
    } else {
        Err(Failure::Run)
    };
    word.store(OVER, Ordering::SeqCst);
    time
}

// The time of a pass, while another thread takes the record of this place.
fn time_beside<R: Clock + Threads + Sync>(
    rt: &R,
    table: &InitTable<History>,
    mut pass: Pass<History>,
    mut other: Pass<History>,
    place: usize,
    times: usize,
) -> Result<u128, Failure>
    requires table { (pass.table ≡ table.now.id) × (other.table ≡ table.now.id) }
    requires places { (table.now.places ≡ 32) × (place < 32) }
    requires room { times ≤ pass.room }
{
    let word = CachePadded::new(AtomicU64::new(QUIET));
    let (_, time) = join(
        rt,
        ||
            requires { (other.table ≡ table.now.id) × (table.now.places ≡ 32) × (place < 32) }
        { take_often(table, &mut other, place, &word) },
        || -> Result<u128, Failure>
            requires { (pass.table ≡ table.now.id) × (table.now.places ≡ 32) × (times ≤ pass.room) }
        { time_begun(rt, table, &mut pass, times, &word) },
    );
    time
}

/// The time of one of so many passes of the first place, while another thread does this.
pub(crate) fn time<R: Clock + Threads + Wait + Sync>(
    rt: &R,
    alloc: Global,
    other: &Other,
    times: usize,
) -> Result<u128, Failure> {
    let (table, mut passes) = settled(rt, alloc, 2)?;
    let (Some(mut pass), Some(second)) = (passes.pop(), passes.pop()) else {
        unreachable!()
    };
    pass.reserve(times)?;
    match other {
        Other::None => pass_time(rt, &table, &mut pass, times),
        Other::SamePlace => time_beside(rt, &table, pass, second, 0, times),
        Other::FarPlace => time_beside(rt, &table, pass, second, 24, times),
    }
}
