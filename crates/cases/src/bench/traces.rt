//! Times of writing a trace, a byte, beside one pass over the bytes of the same trace.
//!
//! The events are those that `judging` makes. The pass counts the ends of the lines.

use crate::bench::files::pass_time;
use crate::bench::harness::{Failure, Row, Watch};
use crate::bench::judging::{Story, Work};
use crate::bench::sample::Sample;
use hierarchy::Program;
use init_core::Event;
use std::alloc::Global;
use std::rt::Clock;
use trace::write_trace;

/// A hundred thousand events of each, and a million.
pub(crate) const ROWS: &[Row] = &[
    Row {
        what: "looks, a byte written, beside a pass",
        sample: Sample::Events(Work::Write, Story::Looks),
        sizes: &[100_000, 1_000_000],
        most: 1,
        unit: Sample::Events(Work::PassTrace, Story::Looks),
        unit_size: None,
        repeats: 3,
    },
    Row {
        what: "looks with reads and writes, a byte written, beside a pass",
        sample: Sample::Events(Work::Write, Story::Fields),
        sizes: &[100_000, 1_000_000],
        most: 1,
        unit: Sample::Events(Work::PassTrace, Story::Fields),
        unit_size: None,
        repeats: 3,
    },
    Row {
        what: "prints, a byte written, beside a pass",
        sample: Sample::Events(Work::Write, Story::Prints),
        sizes: &[100_000, 1_000_000],
        most: 1,
        unit: Sample::Events(Work::PassTrace, Story::Prints),
        unit_size: None,
        repeats: 3,
    },
];

/// The time of writing a byte of the trace of these events, or of one pass over it.
pub(crate) fn trace_time(
    rt: &impl Clock,
    alloc: Global,
    program: &Program,
    events: &[Event],
    is_pass: bool,
) -> Result<u128, Failure> {
    let watch = Watch::start(rt);
    match write_trace(alloc, program, events) {
        Ok(text) if is_pass => pass_time(rt, &text),
        Ok(text) => watch.share(rt, text.len()),
        Err(_) => Err(Failure::Memory),
    }
}
