//! Times of looks, reads and writes at the record of one class.
//!
//! A class is initialized by one thread. While it does so, another looks in vain, which finds each time that it waits
//! already; the first looks again (step 3 of JLS SE 8 12.4.2), and reads and writes a static field. Each time is that of one
//! of so many on a record of their own: looks in vain beside the fewest of them; the others, which add an event of
//! 8 bytes each, beside as many pushes of 24 bytes on a list.

ghost use Rattle.std.specs.Prelude.{◌<◌};

use crate::bench::harness::{Failure, Row, Watch};
use crate::bench::sample::Sample;
use hierarchy::{ClassId, Program, Value};
use init_core::{ClassRecord, Label};
use std::alloc::{AllocError, Global};
use std::rt::Clock;

/// What is done, over and over.
pub(crate) enum Use {
    /// Another thread looks.
    LooksInVain,
    /// The thread itself looks.
    Looks,
    /// It reads a static field.
    Reads,
    /// It writes it.
    Writes,
}

/// Each use, of numbers that double.
pub(crate) const ROWS: &[Row] = &[
    Row {
        what: "looks in vain, beside 125000",
        sample: Sample::Use(Use::LooksInVain),
        sizes: &[250_000, 500_000, 1_000_000],
        most: 1,
        unit: Sample::Use(Use::LooksInVain),
        unit_size: Some(125_000),
        repeats: 12,
    },
    Row {
        what: "looks, beside pushes",
        sample: Sample::Use(Use::Looks),
        sizes: &[125_000, 250_000, 500_000, 1_000_000],
        most: 1,
        unit: Sample::Pushes,
        unit_size: None,
        repeats: 12,
    },
    Row {
        what: "reads, beside pushes",
        sample: Sample::Use(Use::Reads),
        sizes: &[125_000, 250_000, 500_000, 1_000_000],
        most: 1,
        unit: Sample::Pushes,
        unit_size: None,
        repeats: 12,
    },
    Row {
        what: "writes, beside pushes",
        sample: Sample::Use(Use::Writes),
        sizes: &[125_000, 250_000, 500_000, 1_000_000],
        most: 1,
        unit: Sample::Pushes,
        unit_size: None,
        repeats: 12,
    },
];

/// A class with a static field.
pub(crate) const FILE: &[u8] = b".class C\n.field static n I";

// Reads or writes the static field, where the class is open to thread 0.
fn use_field(record: &mut ClassRecord, is_write: bool) -> Result<(), AllocError> {
    if record.static_fields() == 0 {
        return Ok(());
    }
    if let Label::InProgress(0) = record.label() {
        if is_write {
            record.write_static(0, 0, Value::Int(1))?;
        } else {
            record.read_static(0, 0)?;
        }
    }
    Ok(())
}

fn look(record: &mut ClassRecord, thread: usize) -> Result<(), AllocError>
    requires { thread < 16 }
{
    record.enter(thread)?;
    Ok(())
}

fn use_once(record: &mut ClassRecord, usage: &Use) -> Result<(), AllocError> {
    match usage {
        Use::LooksInVain => look(record, 1),
        Use::Looks => look(record, 0),
        Use::Reads => use_field(record, false),
        Use::Writes => use_field(record, true),
    }
}

// The time of one of so many uses of a record, which thread 0 begins to initialize.
fn use_time(
    rt: &impl Clock,
    record: &mut ClassRecord,
    usage: &Use,
    count: usize,
) -> Result<u128, Failure> {
    look(record, 0)?;
    let watch = Watch::start(rt);
    for _ in 0..count {
        use_once(record, usage)?;
    }
    watch.share(rt, count)
}

/// The time of one of so many pushes of 24 bytes on a list.
pub(crate) fn push_time(rt: &impl Clock, alloc: Global, count: usize) -> Result<u128, Failure> {
    let mut list = Vec::new(alloc);
    let watch = Watch::start(rt);
    for number in 0..count {
        if list.push([number, number, number]).is_err() {
            return Err(Failure::Memory);
        }
    }
    watch.share(rt, count)
}

/// The time of one of so many uses of the record of the first class.
pub(crate) fn time(
    rt: &impl Clock,
    alloc: Global,
    program: &Program,
    usage: &Use,
    count: usize,
) -> Result<u128, Failure> {
    match ClassRecord::new(alloc, program, ClassId { number: 0 }) {
        Ok(mut record) => use_time(rt, &mut record, usage, count),
        Err(_) => Err(Failure::Memory),
    }
}
