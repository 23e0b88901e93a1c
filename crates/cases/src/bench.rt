//! Times of Jinit's crates, as ratios within one run: `cases bench NAME`.
//!
//! NAME is a benchmark, as `link`; its module says what is measured. `reader` and `lock` take a number after it, of parts and
//! of rounds, and `threads` takes `held`. Each line has the time of a part of the work
//! beside that of other work, in nanoseconds, and beside one uncontended `fetch_add`, all taken many times in turn (`harness`), and
//! how many millions of parts are done in a second: MB/s where a part is a byte. With a name or a word after it that it doesn't know
//! the program lists the names, and its exit status is 2. Among the names of files `bench` is a little of each benchmark, a case each,
//! and no time is printed.

mod bare;
mod beside;
mod files;
mod harness;
mod history;
mod judging;
mod link;
mod lock;
mod looks;
mod merging;
mod needs;
mod passes;
mod reader;
mod rounds;
mod sample;
mod shapes;
mod threads;
mod traces;
mod turns;

use crate::bench::harness::{Failure, Row, measure, try_out};
use crate::report::Report;
use std::alloc::Global;
use std::process::ExitCode;
use std::rt::Clock;
use std::sync::Wait;
use std::thread::Threads;

const USAGE: &str =
    "give a name to see ratios: reader, link, needs, looks, turns, judge, trace, lock, threads";

// How many parts the files of `reader` have where no number is given.
const PARTS: usize = 20_000;

// How many rounds a thread of `lock` makes where no number is given.
const ROUNDS: usize = 10_000;

/// A benchmark by its name.
pub(crate) struct Benchmark {
    name: &'static str,
    rows: &'static [Row],
    /// The number that it is measured with where none is given.
    number: usize,
}

/// All benchmarks. (They are named in `main` alone: each function that names them all costs its proof.)
pub(crate) const ALL: &[Benchmark] = &[
    Benchmark {
        name: "reader",
        rows: reader::ROWS,
        number: PARTS,
    },
    Benchmark {
        name: "link",
        rows: link::ROWS,
        number: 1,
    },
    Benchmark {
        name: "needs",
        rows: needs::ROWS,
        number: 1,
    },
    Benchmark {
        name: "looks",
        rows: looks::ROWS,
        number: 1,
    },
    Benchmark {
        name: "turns",
        rows: turns::ROWS,
        number: 1,
    },
    Benchmark {
        name: "judge",
        rows: judging::ROWS,
        number: 1,
    },
    Benchmark {
        name: "trace",
        rows: traces::ROWS,
        number: 1,
    },
    Benchmark {
        name: "lock",
        rows: lock::ROWS,
        number: ROUNDS,
    },
    Benchmark {
        name: "threads",
        rows: threads::ROWS,
        number: 1,
    },
];

// The benchmark of a name, of these.
fn named<'a>(all: &'a [Benchmark], name: &str) -> Option<&'a Benchmark> {
    let mut found = None;
    for benchmark in all {
        if benchmark.name == name {
            found = Some(benchmark);
        }
    }
    found
}

/// Does a little of each of these benchmarks, a case each.
pub(crate) fn judge<R: Clock + Threads + Wait + Sync>(
    rt: &R,
    alloc: Global,
    all: &[Benchmark],
    report: &mut Report<'_>,
) {
    for (at, benchmark) in all.iter().enumerate() {
        if let Err(failure) = try_out(rt, alloc, benchmark.rows) {
            report.came.push(failure.name().as_bytes());
        }
        report.judges(at);
    }
}

// Measures what the words ask for, or says what they may be, and answers the exit status.
fn print_all<R: Clock + Print + Eprint + Threads + Wait + Sync>(
    rt: &R,
    alloc: Global,
    all: &[Benchmark],
    name: &str,
    details: &[String],
) -> Result<u8, Failure> {
    let detail = match details {
        [] => "",
        [detail, ..] => detail.as_str(),
    };
    if name == "threads" && detail == "held" {
        threads::hold(rt, alloc)?;
        return Ok(0);
    }
    if let Some(benchmark) = named(all, name) {
        let number = match detail {
            "" => Ok(benchmark.number),
            _ => detail.parse::<usize>(),
        };
        if let Ok(number) = number {
            measure(rt, alloc, benchmark.rows, number)?;
            return Ok(0);
        }
    }
    eprintln!(rt; "{USAGE}")?;
    Ok(2)
}

/// Measures what the words ask for, and answers the exit status.
pub(crate) fn answer<R: Clock + Print + Eprint + Threads + Wait + Sync>(
    rt: &R,
    alloc: Global,
    all: &[Benchmark],
    name: &str,
    details: &[String],
) -> ExitCode {
    match print_all(rt, alloc, all, name, details) {
        Ok(status) => ExitCode::from(status),
        Err(failure) => {
            let reason = failure.name();
            let _ = eprintln!(rt; "{name}: {reason}");
            ExitCode::from(1)
        }
    }
}
