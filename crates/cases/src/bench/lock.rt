//! Times of the lock, a round, beside the bare steps of a lock.
//!
//! Each thread draws so many events, each under a lock: it takes a record, adds to its history, draws, and gives the
//! record back. Beside it is the same contest by bare steps (`bare`): as many threads make as many rounds on as many
//! locks. Both are taken one after the other, so that the price of a cache line that goes from one processor to another is
//! in both. A time is that of all threads, divided by the rounds of one.

ghost use Rattle.std.specs.Prelude.{◌≡◌, ◌≤◌, IfOk, vec_len};
ghost use Rattle.std.specs.List.{AllByRecursion};
ghost use Rattle.cases.specs.Ready.{IsReady};

use crate::bench::beside::Other;
use crate::bench::harness::{Failure, Row, Watch};
use crate::bench::history::{History, histories};
use crate::bench::rounds::{Records, in_threads};
use crate::bench::sample::Sample;
use init_lock::{InitTable, Pass};
use std::alloc::{AllocError, Global};
use std::rt::Clock;
use std::sync::Wait;
use std::thread::Threads;

// The C library keeps freed blocks once one of this size was freed, and hands them out again. So all but the first
// measurement have journals and histories in memory that was touched before.
const KEPT_BYTES: usize = 24 << 20;

/// Each contest beside bare steps, with the number of rounds that is asked for, at most a million.
pub(crate) const ROWS: &[Row] = &[
    Row {
        what: "rounds of 1 thread on one record, beside bare steps",
        sample: Sample::Lock(1, Records::One),
        sizes: &[1],
        most: 1_000_000,
        unit: Sample::Bare(1, 1),
        unit_size: None,
        repeats: 20,
    },
    Row {
        what: "rounds of 2 threads on one record, beside bare steps",
        sample: Sample::Lock(2, Records::One),
        sizes: &[1],
        most: 1_000_000,
        unit: Sample::Bare(2, 1),
        unit_size: None,
        repeats: 20,
    },
    Row {
        what: "rounds of 2 threads on 2 records, beside bare steps",
        sample: Sample::Lock(2, Records::Apart),
        sizes: &[1],
        most: 1_000_000,
        unit: Sample::Bare(2, 2),
        unit_size: None,
        repeats: 20,
    },
    Row {
        what: "rounds of 4 threads on one record, beside bare steps",
        sample: Sample::Lock(4, Records::One),
        sizes: &[1],
        most: 1_000_000,
        unit: Sample::Bare(4, 1),
        unit_size: None,
        repeats: 20,
    },
    Row {
        what: "rounds of 4 threads on 4 records, beside bare steps",
        sample: Sample::Lock(4, Records::Apart),
        sizes: &[1],
        most: 1_000_000,
        unit: Sample::Bare(4, 4),
        unit_size: None,
        repeats: 20,
    },
    Row {
        what: "rounds of 2 threads on 2 neighbouring records, beside bare steps",
        sample: Sample::Lock(2, Records::Neighbours),
        sizes: &[1],
        most: 1_000_000,
        unit: Sample::Bare(2, 2),
        unit_size: None,
        repeats: 20,
    },
    Row {
        what: "rounds of 4 threads on 4 neighbouring records, beside bare steps",
        sample: Sample::Lock(4, Records::Neighbours),
        sizes: &[1],
        most: 1_000_000,
        unit: Sample::Bare(4, 4),
        unit_size: None,
        repeats: 20,
    },
    Row {
        what: "passes of 1 thread, beside fetch_adds",
        sample: Sample::Passes(1),
        sizes: &[1],
        most: 1_000_000,
        unit: Sample::Adds,
        unit_size: None,
        repeats: 20,
    },
    Row {
        what: "passes of 2 threads at one place, beside a load and a fetch_add",
        sample: Sample::Passes(2),
        sizes: &[1],
        most: 1_000_000,
        unit: Sample::BarePasses(2),
        unit_size: None,
        repeats: 20,
    },
    Row {
        what: "passes of 4 threads at one place, beside a load and a fetch_add",
        sample: Sample::Passes(4),
        sizes: &[1],
        most: 1_000_000,
        unit: Sample::BarePasses(4),
        unit_size: None,
        repeats: 20,
    },
    Row {
        what: "passes while another thread takes that lock, beside no other thread",
        sample: Sample::PassesBeside(Other::SamePlace),
        sizes: &[1],
        most: 1_000_000,
        unit: Sample::PassesBeside(Other::None),
        unit_size: None,
        repeats: 20,
    },
    Row {
        what: "passes while another thread takes that lock, beside another lock",
        sample: Sample::PassesBeside(Other::SamePlace),
        sizes: &[1],
        most: 1_000_000,
        unit: Sample::PassesBeside(Other::FarPlace),
        unit_size: None,
        repeats: 20,
    },
    Row {
        what: "events of each of 16 journals merged, beside fetch_adds",
        sample: Sample::Merge,
        sizes: &[1],
        most: 1_000_000,
        unit: Sample::Adds,
        unit_size: None,
        repeats: 20,
    },
];

/// A table of 32 records, the first four and each eighth with room for so many events, and a pass for each thread.
pub(crate) fn opened(
    alloc: Global,
    threads: usize,
    room: usize,
) -> Result<(InitTable<History>, Vec<Pass<History>>), AllocError>
    requires { threads ≤ 16 }
    ensures places { IfOk result (λ t. t.0.places ≡ 32) }
    ensures count { IfOk result (λ t. vec_len t.1 ≡ threads) }
    ensures passes { IfOk result (λ t. AllByRecursion (IsReady t.0.id) t.1.items) }
{
    let (table, passes) = InitTable::new(alloc, histories(alloc, 32, room)?, threads)?;
    Ok((table, passes))
}

/// The time of a round in a contest of so many threads, 1 to 4, on these records, with so many rounds in each thread.
pub(crate) fn time<R: Clock + Threads + Wait + Sync>(
    rt: &R,
    alloc: Global,
    threads: usize,
    records: &Records,
    rounds: usize,
) -> Result<u128, Failure> {
    let threads = threads.min(4);
    let room = rounds.saturating_mul(records.sharers(threads));
    drop(Vec::<u8>::with_capacity(alloc, KEPT_BYTES)?);
    let (table, passes) = opened(alloc, threads, room)?;
    let watch = Watch::start(rt);
    let end = in_threads(rt, &table, passes, records, rounds);
    drop(table);
    end?;
    watch.share(rt, rounds)
}
