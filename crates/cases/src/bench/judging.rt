//! Times of judging events in memory, an event, beside one pass over the same events.
//!
//! Two threads have the same main class, which thread 0 initializes; the class above it has a static field. Then both
//! threads do the same again and again: they find the upper class initialized (step 4 of JLS SE 8 12.4.2), or do so and read or
//! write its field, or print.

use crate::bench::files::Files;
use crate::bench::harness::{Failure, Row, Watch};
use crate::bench::sample::Sample;
use crate::bench::traces::trace_time;
use hierarchy::{ClassId, Program};
use init_core::Event;
use judge::{Verdict, check};
use std::alloc::{AllocError, Global};
use std::rt::Clock;
use trace_reader::read_trace;

/// What both threads do, over and over.
pub(crate) enum Story {
    /// They look at an initialized class.
    Looks,
    /// They look at it, then thread 0 reads its static field and thread 1 writes it.
    Fields,
    /// They print: thread 0 a text of 40 bytes, thread 1 one of 6.
    Prints,
}

/// What is done with all events.
pub(crate) enum Work {
    /// They are judged: an event.
    Judge,
    /// One pass over them: an event.
    Pass,
    /// Their trace is written: a byte.
    Write,
    /// One pass over the bytes of their trace: a byte.
    PassTrace,
}

/// A million events of each.
pub(crate) const ROWS: &[Row] = &[
    Row {
        what: "looks, one judged, beside a pass",
        sample: Sample::Events(Work::Judge, Story::Looks),
        sizes: &[1_000_000],
        most: 1,
        unit: Sample::Events(Work::Pass, Story::Looks),
        unit_size: None,
        repeats: 3,
    },
    Row {
        what: "looks with reads and writes, one judged, beside a pass",
        sample: Sample::Events(Work::Judge, Story::Fields),
        sizes: &[1_000_000],
        most: 1,
        unit: Sample::Events(Work::Pass, Story::Fields),
        unit_size: None,
        repeats: 3,
    },
    Row {
        what: "prints, one judged, beside a pass",
        sample: Sample::Events(Work::Judge, Story::Prints),
        sizes: &[1_000_000],
        most: 1,
        unit: Sample::Events(Work::Pass, Story::Prints),
        unit_size: None,
        repeats: 3,
    },
];

// Classes have the numbers of their files.
const MAIN: ClassId = ClassId { number: 1 };

/// Adds the files of the two classes.
pub(crate) fn add_files(files: &mut Files) {
    files.add_file(b".class A\n.field static total I\n", 0, 0);
    files.add_file(b".class M\n.super A\n", 0, 0);
}

// Thread 0 initializes both classes, thread 1 finds them initialized and writes the field.
const FRONT: &[u8] = b"0 t0 step6 M
1 t0 step6 A
2 t0 step9 A
3 t0 step10 A
4 t0 step9 M
5 t0 step10 M
6 t1 step4 M
7 t1 step4 A
8 t1 put A total:I 7
";

// How many events the front has.
const FRONT_EVENTS: usize = 9;

// The events of the front, and what both threads do, once.
fn first_events(alloc: Global, program: &Program, story: &Story) -> Result<Vec<Event>, Failure> {
    let turn: &[u8] = match story {
        Story::Looks => b"9 t0 step4 A\n10 t1 step4 A\n",
        Story::Fields =>
            b"9 t0 step4 A\n10 t0 get A total:I 7\n11 t1 step4 A\n12 t1 put A total:I 7\n",
        Story::Prints => {
            b"9 t0 print \"a line of forty bytes, and then it ends\\n\"\n10 t1 print \"short\\n\"\n"
        }
    };
    let mut trace = Files::new(alloc);
    trace.add(FRONT, 0, 0);
    trace.add(turn, 0, 0);
    let trace = trace.text()?;
    match read_trace(alloc, program, 2, &trace) {
        Ok(events) => Ok(events),
        Err(_) => Err(Failure::Program),
    }
}

// Adds so many events: copies of those after the front, from the first on, so that what both threads do comes again and again.
fn repeat(events: &mut Vec<Event>, count: usize) -> Result<(), AllocError> {
    for place in FRONT_EVENTS..count.saturating_add(FRONT_EVENTS) {
        if let Some(event) = events.get(place) {
            let copy = event.clone()?;
            events.push(copy)?;
        }
    }
    Ok(())
}

fn judge_time(
    rt: &impl Clock,
    alloc: Global,
    program: &Program,
    events: &[Event],
) -> Result<u128, Failure> {
    let watch = Watch::start(rt);
    match check(alloc, program, &[MAIN, MAIN], events)? {
        Verdict::Legal => watch.share(rt, events.len()),
        _ => Err(Failure::Program),
    }
}

// The pass adds up the numbers of the threads.
fn pass_time(rt: &impl Clock, events: &[Event]) -> Result<u128, Failure> {
    let watch = Watch::start(rt);
    let mut sum: usize = 0;
    for event in events {
        sum = sum.wrapping_add(event.thread());
    }
    let share = watch.share(rt, events.len())?;
    if sum == 0 {
        return Err(Failure::Program);
    }
    Ok(share)
}

/// The time of this work on so many events, for each of its parts.
pub(crate) fn time(
    rt: &impl Clock,
    alloc: Global,
    program: &Program,
    work: &Work,
    story: &Story,
    count: usize,
) -> Result<u128, Failure> {
    let mut events = first_events(alloc, program, story)?;
    repeat(&mut events, count)?;
    match work {
        Work::Judge => judge_time(rt, alloc, program, &events),
        Work::Pass => pass_time(rt, &events),
        Work::Write => trace_time(rt, alloc, program, &events, false),
        Work::PassTrace => trace_time(rt, alloc, program, &events, true),
    }
}
