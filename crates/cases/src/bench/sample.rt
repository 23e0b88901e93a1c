//! What is timed, over all benchmarks.

use crate::bench::beside::{self, Other};
use crate::bench::files::Files;
use crate::bench::harness::{self, Failure};
use crate::bench::judging::{self, Story, Work};
use crate::bench::link::{self, Shape};
use crate::bench::looks::{self, Use};
use crate::bench::reader::{self, Part};
use crate::bench::rounds::Records;
use crate::bench::threads::{self, Chains};
use crate::bench::{bare, lock, merging, needs, passes, turns};
use hierarchy::Program;
use std::alloc::Global;
use std::rt::Clock;
use std::sync::Wait;
use std::thread::Threads;

// Of how many times a mean is taken, where one is.
const MEAN_OF: usize = 20;

/// What is timed. Each has a size. Rows hold samples as they are in the tables, so none is ever copied.
pub(crate) enum Sample {
    /// Pushes of 24 bytes on a list.
    Pushes,
    /// `fetch_add`s on a word of their own.
    Adds,
    /// Rounds under the lock of so many threads, so many in each, on these records: a round.
    Lock(usize, Records),
    /// So many rounds by the bare steps of a lock in each of so many threads, on so many locks, 1 to 4.
    Bare(usize, usize),
    /// Passes of one settled place by so many threads, so many by each: a pass.
    Passes(usize),
    /// The same by the bare steps of a pass.
    BarePasses(usize),
    /// Passes of a settled place by one thread while another does this.
    PassesBeside(Other),
    /// Merging of sixteen journals with so many events each: an event.
    Merge,
    /// Reading a file: a part of it, or a byte.
    Read(&'static Part),
    /// One pass over the bytes of that file: a byte.
    Pass(&'static Part),
    /// Linking a program of that size: a part of it.
    Link(Shape),
    /// Each method of one class is resolved: a method.
    Resolve(Shape),
    /// `needs` on a ladder of so many rungs: a rung.
    Needs,
    /// So many uses of a class's record: one of them.
    Use(Use),
    /// Work on so many events.
    Events(Work, Story),
    /// So many turns of so many threads at an initialized class, 1 to 16: a turn.
    Find(usize),
    /// The turns in which the first of so many threads initializes a chain of so many classes: a turn.
    Climb(usize),
    /// A run of so many threads: an event.
    Run(Chains),
}

impl Sample {
    // Adds the files of its program, if it needs one.
    fn add_files(&self, files: &mut Files, size: usize) {
        match self {
            Sample::Resolve(shape) => {
                let _parts = link::add_files(files, shape, size);
            }
            Sample::Needs => needs::add_files(files, size),
            Sample::Use(_) => files.add_file(looks::FILE, 0, 0),
            Sample::Events(..) => judging::add_files(files),
            Sample::Find(_) => turns::add_files(files, 2),
            Sample::Climb(_) => turns::add_files(files, size),
            Sample::Run(chains) => threads::add_files(files, chains, size),
            _ => {}
        }
    }

    // How long a part of it takes with its program, once, in thousandths of a nanosecond.
    fn time_once<R: Clock + Threads + Wait + Sync>(
        &self,
        rt: &R,
        alloc: Global,
        program: &Program,
        size: usize,
    ) -> Result<u128, Failure> {
        match self {
            Sample::Pushes => looks::push_time(rt, alloc, size),
            Sample::Adds => harness::add_time(rt, size),
            Sample::Lock(threads, records) => lock::time(rt, alloc, *threads, records, size),
            Sample::Bare(threads, records) => bare::time(rt, alloc, *threads, *records, size),
            Sample::Passes(threads) => passes::time(rt, alloc, *threads, size),
            Sample::BarePasses(threads) => bare::pass_time(rt, alloc, *threads, size),
            Sample::PassesBeside(other) => beside::time(rt, alloc, other, size),
            Sample::Merge => merging::time(rt, alloc, size),
            Sample::Read(part) => reader::time(rt, alloc, part, size),
            Sample::Pass(part) => reader::pass_time(rt, alloc, part, size),
            Sample::Link(shape) => link::time(rt, alloc, shape, size),
            Sample::Resolve(_) => link::resolve_time(rt, program),
            Sample::Needs => needs::time(rt, alloc, program, size),
            Sample::Use(usage) => looks::time(rt, alloc, program, usage, size),
            Sample::Events(work, story) => judging::time(rt, alloc, program, work, story, size),
            Sample::Find(threads) => turns::time(rt, alloc, program, *threads, size),
            Sample::Climb(threads) => {
                // (three turns a class for each thread: the first makes so many events, steps 6, 9 and 10 of each)
                let turns = size.saturating_mul(3).saturating_mul(*threads);
                turns::time(rt, alloc, program, *threads, turns)
            }
            Sample::Run(chains) => threads::time(rt, alloc, program, chains, size),
        }
    }

    /// Whether it is a contest, of which the least time is that of a lucky one.
    pub(crate) fn is_contest(&self) -> bool {
        match self {
            Sample::Lock(..) | Sample::Bare(..) | Sample::PassesBeside(_) => true,
            Sample::Passes(threads) | Sample::BarePasses(threads) => *threads > 1,
            _ => false,
        }
    }

    // The same; for what several threads contend for, of which each time is another, the mean of some times, taken one after another
    // after one that doesn't count.
    fn mean_time<R: Clock + Threads + Wait + Sync>(
        &self,
        rt: &R,
        alloc: Global,
        program: &Program,
        size: usize,
    ) -> Result<u128, Failure> {
        let first = self.time_once(rt, alloc, program, size)?;
        if !self.is_contest() && !matches!(self, Sample::Run(_)) {
            return Ok(first);
        }
        let mut sum: u128 = 0;
        for _ in 0..MEAN_OF {
            sum = sum.saturating_add(self.time_once(rt, alloc, program, size)?);
        }
        Ok(sum / MEAN_OF as u128)
    }

    /// How long a part of it takes, in thousandths of a nanosecond, with a program of its own that is linked before.
    pub(crate) fn time<R: Clock + Threads + Wait + Sync>(
        &self,
        rt: &R,
        alloc: Global,
        size: usize,
    ) -> Result<u128, Failure> {
        let mut files = Files::new(alloc);
        self.add_files(&mut files, size);
        match files.program() {
            Ok(program) => self.mean_time(rt, alloc, &program, size),
            Err(failure) => Err(failure),
        }
    }
}
