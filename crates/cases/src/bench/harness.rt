//! What all benchmarks measure with: rows, the least of many times or the middle of many ratios, lines of figures.
//!
//! A line is measured in rounds. In each of them its sample is taken once, then what is beside it, then some `fetch_add`s, so
//! that a busy minute of the machine meets all three. The rounds are spread over several sweeps through all lines, so that such
//! a minute doesn't meet all rounds of a line. The first round of each sweep warms up and doesn't count.
//!
//! The ratio of a line is that of the least times. In a contest (`Sample::is_contest`) the least time is that of a
//! lucky round, and the sample's may be luckier than the unit's: there it is the middle one of the ratios of all rounds.

use crate::bench::sample::Sample;
use std::alloc::{AllocError, Global};
use std::rt::Clock;
use std::sync::Wait;
use std::sync::atomic::{AtomicU64, Ordering};
use std::thread::Threads;
use std::time::Instant;
use std::{fmt, io};

// The size of each sample where only a little is done.
const LITTLE: usize = 4;

// How often all lines are gone through.
const SWEEPS: usize = 5;

// How many rounds come before those that count, in each sweep.
const WARM_UPS: usize = 1;

// How many `fetch_add`s are timed in a round.
const ADDS: usize = 10_000;

// The time of a part, where a million parts are done in a second.
const MILLION_A_SECOND: u128 = 1_000_000;

/// Why a benchmark ended without its figures.
#[derive(Clone, Copy)]
pub(crate) enum Failure {
    /// Memory was refused.
    Memory,
    /// A file can't be read, the classes don't link, or a program isn't as its benchmark has it.
    Program,
    /// A run of threads didn't begin.
    Run,
    /// The machine refused the words of the command line, the clock or the output.
    Machine,
}

impl Failure {
    /// What is printed of it.
    pub(crate) fn name(self) -> &'static str {
        match self {
            Failure::Memory => "out of memory",
            Failure::Program => "not the program that is measured",
            Failure::Run => "the threads did not begin",
            Failure::Machine => "no clock or no output",
        }
    }
}

impl From<AllocError> for Failure {
    fn from(_: AllocError) -> Failure {
        Failure::Memory
    }
}

impl From<io::Error> for Failure {
    fn from(_: io::Error) -> Failure {
        Failure::Machine
    }
}

/// A time that has begun, if the machine has a clock.
#[derive(Clone, Copy)]
pub(crate) struct Watch {
    start: Option<Instant>,
}

impl Watch {
    /// Begins a time.
    pub(crate) fn start(rt: &impl Clock) -> Watch {
        Watch {
            start: Instant::now(rt).ok(),
        }
    }

    /// The time since the beginning for each of so many parts, in thousandths of a nanosecond.
    pub(crate) fn share(self, rt: &impl Clock, parts: usize) -> Result<u128, Failure> {
        let Some(start) = self.start else {
            return Err(Failure::Machine);
        };
        let nanos = start.elapsed(rt)?.as_nanos();
        Ok(nanos.saturating_mul(1000) / (parts as u128).max(1))
    }
}

/// A sample of some sizes beside another.
pub(crate) struct Row {
    pub what: &'static str,
    pub sample: Sample,
    /// Its sizes: so many times the number that is asked for, or the benchmark's own where none is.
    pub sizes: &'static [usize],
    /// The most that the number counts for.
    pub most: usize,
    pub unit: Sample,
    /// The size of the unit in the same way; or the size of the sample.
    pub unit_size: Option<usize>,
    /// How many rounds of each of the five sweeps count.
    pub repeats: usize,
}

/// The time of one of so many `fetch_add`s on a word of their own.
pub(crate) fn add_time(rt: &impl Clock, adds: usize) -> Result<u128, Failure> {
    let word = AtomicU64::new(0);
    let watch = Watch::start(rt);
    for _ in 0..adds {
        word.fetch_add(1, Ordering::SeqCst);
    }
    watch.share(rt, adds)
}

/// A number with two decimals.
#[derive(Clone, Copy)]
struct Figure {
    hundredths: u128,
}

// How often one time holds another.
fn ratio(time: u128, unit: u128) -> Figure {
    Figure {
        hundredths: time.saturating_mul(100) / unit.max(1),
    }
}

impl fmt::Display for Figure {
    fn fmt<W: fmt::Write>(&self, f: &mut fmt::Formatter<W>) -> fmt::Result {
        let whole = self.hundredths / 100;
        let rest = self.hundredths % 100;
        write!(f, "{whole}.{rest:02}")
    }
}

/// A line to print: the sample of a row at one of its sizes, the unit at its own, and what is known of its rounds so far.
#[derive(Drop)]
struct Line<'a> {
    row: &'a Row,
    size: usize,
    unit_size: usize,
    /// The least time of a part of the sample, in thousandths of a nanosecond as the other two.
    sample: u128,
    /// That of its unit.
    unit: u128,
    /// That of one `fetch_add`.
    add: u128,
    /// The ratios of all rounds, in hundredths.
    ratios: Vec<u128>,
}

impl Line<'_> {
    // Notes the times of a round.
    fn note(&mut self, sample: u128, unit: u128, add: u128) -> Result<(), Failure> {
        self.sample = self.sample.min(sample);
        self.unit = self.unit.min(unit);
        self.add = self.add.min(add);
        if self.ratios.push(ratio(sample, unit).hundredths).is_err() {
            return Err(Failure::Memory);
        }
        Ok(())
    }

    // Takes the rounds of one sweep, after those that warm up.
    fn sweep<R: Clock + Threads + Wait + Sync>(
        &mut self,
        rt: &R,
        alloc: Global,
    ) -> Result<(), Failure> {
        for number in 0..self.row.repeats.saturating_add(WARM_UPS) {
            let sample = self.row.sample.time(rt, alloc, self.size)?;
            let unit = self.row.unit.time(rt, alloc, self.unit_size)?;
            let add = add_time(rt, ADDS)?;
            if number >= WARM_UPS {
                self.note(sample, unit, add)?;
            }
        }
        Ok(())
    }

    // How often the time of the unit is in that of the sample.
    fn beside(&mut self) -> Figure {
        if !self.row.sample.is_contest() {
            return ratio(self.sample, self.unit);
        }
        self.ratios.sort_unstable();
        let middle = self.ratios.len() / 2;
        let hundredths = self.ratios.get(middle).copied().unwrap_or_default();
        Figure { hundredths }
    }

    // Prints how often the time of the unit is in that of the sample, the time of the sample, how often that of a `fetch_add` is in
    // it, and how many millions of parts are done in a second: of bytes, MB.
    fn print(&mut self, rt: &impl Print) -> io::Result<()> {
        let beside = self.beside();
        let size = self.size;
        let what = self.row.what;
        let nanos = ratio(self.sample, 1000);
        let adds = ratio(self.sample, self.add);
        let rate = ratio(MILLION_A_SECOND, self.sample);
        println!(rt; "{size} {what}: {beside} ({nanos} ns, {adds} fetch_adds, {rate} M/s)")
    }
}

// Adds the lines of a row with this number.
fn add_lines<'a>(
    alloc: Global,
    lines: &mut Vec<Line<'a>>,
    row: &'a Row,
    number: usize,
) -> Result<(), Failure> {
    let times = number.min(row.most);
    for size in row.sizes {
        let line = Line {
            row,
            size: size.saturating_mul(times),
            unit_size: row.unit_size.unwrap_or(*size).saturating_mul(times),
            sample: u128::MAX,
            unit: u128::MAX,
            add: u128::MAX,
            ratios: Vec::new(alloc),
        };
        if lines.push(line).is_err() {
            return Err(Failure::Memory);
        }
    }
    Ok(())
}

// Goes through all lines once.
fn sweep<R: Clock + Threads + Wait + Sync>(
    rt: &R,
    alloc: Global,
    lines: &mut [Line<'_>],
) -> Result<(), Failure> {
    for line in lines.iter_mut() {
        line.sweep(rt, alloc)?;
    }
    Ok(())
}

/// Measures these rows with this number, and then prints a line for each size.
pub(crate) fn measure<R: Clock + Print + Threads + Wait + Sync>(
    rt: &R,
    alloc: Global,
    rows: &[Row],
    number: usize,
) -> Result<(), Failure> {
    let mut lines = Vec::new(alloc);
    for row in rows {
        add_lines(alloc, &mut lines, row, number)?;
    }
    for _ in 0..SWEEPS {
        sweep(rt, alloc, &mut lines)?;
    }
    for line in lines.iter_mut() {
        line.print(rt)?;
    }
    Ok(())
}

/// Takes each sample once, of a small size, and prints nothing.
pub(crate) fn try_out<R: Clock + Threads + Wait + Sync>(
    rt: &R,
    alloc: Global,
    rows: &[Row],
) -> Result<(), Failure> {
    for row in rows {
        row.sample.time(rt, alloc, LITTLE)?;
        row.unit.time(rt, alloc, LITTLE)?;
    }
    Ok(())
}
