//! One call of a library by itself, `cases call NAME TRACE FILE..`: tests/refuse_memory/calls refuses its allocations, one after the other.
//!
//! The files are those of a program in the Jasmin form, its main class first, and the trace is one of up to 16 threads. All that a call is given
//! is read first. Then `call` is written, the call is made, and `came` is written, so that it is known which allocations are the
//! call's. Last comes what it answered, and whether what it was given is as before.

use crate::linked::add_class;
use crate::text::Text;
use bodies::NoCode;
use cli::write_needs;
use hierarchy::{ClassId, LinkFaultKind, Program, link};
use init_core::{ClassRecord, Event, Label, needs};
use jasmin_reader::read_class;
use jasmin_text::ClassText;
use jasmin_words::FaultKind;
use judge::check;
use replayer::run_ordered;
use std::alloc::{Alloc, Global};
use std::process::ExitCode;
use std::rt::Files;
use std::{fs, mem};
use trace::write_trace;
use trace_reader::{TraceFaultKind, read_trace};

const MAIN: ClassId = ClassId { number: 0 };

/// What calls are given.
#[derive(Drop)]
struct Given {
    file: Vec<u8>,
    trace: Vec<u8>,
    classes: Vec<ClassText>,
    program: Program,
    events: Vec<Event>,
    record: ClassRecord,
}

/// What a call answered.
fn answered(is_refused: bool, is_fault: bool) -> &'static str {
    if is_refused {
        "memory"
    } else if is_fault {
        "a fault"
    } else {
        "an answer"
    }
}

fn reads_class(alloc: Global, file: &[u8]) -> &'static str {
    match read_class(alloc, file) {
        Ok(_) => answered(false, false),
        Err(fault) => answered(matches!(fault.kind, FaultKind::NoMemory), true),
    }
}

fn links(alloc: Global, classes: Vec<ClassText>) -> &'static str {
    match link(alloc, classes) {
        Ok(_) => answered(false, false),
        Err(fault) => answered(matches!(fault.kind, LinkFaultKind::NoMemory), true),
    }
}

fn reads_trace(alloc: Global, program: &Program, trace: &[u8]) -> &'static str {
    match read_trace(alloc, program, 16, trace) {
        Ok(_) => answered(false, false),
        Err(fault) => answered(matches!(fault.kind, TraceFaultKind::OutOfMemory), true),
    }
}

fn runs_ordered(alloc: Global, program: &Program) -> &'static str {
    if program.len() == 0 {
        return "no class";
    }
    let main = ClassId { number: 0 };
    // (the list of bodies is made here, and counts as the call's)
    let Ok(bodies) = vec![in alloc; NoCode; 2] else {
        return answered(true, false);
    };
    let run = run_ordered(
        alloc,
        program,
        &(),
        &[main, main],
        &[0, 0, 1, 0, 1],
        bodies,
        (),
    );
    answered(run.is_err(), false)
}

/// Makes the call of this name, and says what it answered.
fn call(alloc: Global, name: &str, given: &mut Given) -> &'static str {
    let program = &given.program;
    match name {
        "read_class" => reads_class(alloc, &given.file),
        "link" => links(alloc, mem::replace(&mut given.classes, Vec::new(alloc))),
        "needs" => answered(needs(alloc, program, MAIN).is_err(), false),
        "read_trace" => reads_trace(alloc, program, &given.trace),
        "write_trace" => answered(write_trace(alloc, program, &given.events).is_err(), false),
        "check" => answered(
            check(alloc, program, &[MAIN, MAIN], &given.events).is_err(),
            false,
        ),
        "run_ordered" => runs_ordered(alloc, program),
        "enter" => answered(given.record.enter(0).is_err(), false),
        _ => "no such call",
    }
}

/// Adds what calls are given, as far as they leave it: the files, the program's classes with their needs, the events, and the
/// record's label and how many events it has.
fn push_given(alloc: Global, given: &Given, text: &mut Text) {
    text.push(&given.file);
    text.push(&given.trace);
    text.push_made(write_needs(alloc, &given.program));
    text.push_made(write_trace(alloc, &given.program, &given.events));
    let label = match given.record.label() {
        Label::Prepared => "prepared ",
        _ => "begun ",
    };
    text.push(label.as_bytes());
    text.show(&given.record.len());
}

/// What a file holds.
fn bytes_of<R: Files + Alloc>(rt: &R, alloc: Global, file: &str) -> Option<Vec<u8>> {
    let bytes = fs::read(rt, file).ok()?;
    Vec::from_slice(alloc, &bytes).ok()
}

/// The classes that the files spell.
fn classes_of<R: Files + Alloc>(rt: &R, alloc: Global, files: &[String]) -> Option<Vec<ClassText>> {
    let mut classes = Vec::new(alloc);
    for file in files {
        let bytes = bytes_of(rt, alloc, file.as_str())?;
        add_class(alloc, &bytes, &mut classes).ok()?;
    }
    Some(classes)
}

/// What calls are given of a program, or `None` where memory is refused or the trace is none of it.
fn given_of(
    alloc: Global,
    file: Vec<u8>,
    trace: Vec<u8>,
    classes: Vec<ClassText>,
    program: Program,
) -> Option<Given> {
    let events = read_trace(alloc, &program, 16, &trace).ok()?;
    let record = ClassRecord::new(alloc, &program, MAIN).ok()?;
    Some(Given {
        file,
        trace,
        classes,
        program,
        events,
        record,
    })
}

/// What calls are given of these files, or `None` where one can't be read or is at fault.
fn read_given<R: Files + Alloc>(
    rt: &R,
    alloc: Global,
    trace: &str,
    files: &[String],
) -> Option<Given> {
    let file = bytes_of(rt, alloc, files.first()?.as_str())?;
    let trace = bytes_of(rt, alloc, trace)?;
    let classes = classes_of(rt, alloc, files)?;
    let program = link(alloc, classes_of(rt, alloc, files)?).ok()?;
    given_of(alloc, file, trace, classes, program)
}

/// Makes the call of this name, between two lines that are written, and answers whether what came could be written.
fn is_made<R: Print>(rt: &R, alloc: Global, name: &str, given: &mut Given) -> bool {
    let mut before = Text::new(alloc);
    let mut after = Text::new(alloc);
    push_given(alloc, given, &mut before);
    let is_begun = rt.write_all(b"call\n").is_ok();
    let answer = call(alloc, name, given);
    let is_over = rt.write_all(b"came\n").is_ok();
    push_given(alloc, given, &mut after);
    let is_same = before.bytes.as_slice() == after.bytes.as_slice();
    after.bytes.clear();
    after.push(answer.as_bytes());
    let left = if is_same { ", same\n" } else { ", changed\n" };
    after.push(left.as_bytes());
    let is_whole = !before.is_refused && !after.is_refused;
    is_begun && is_over && is_whole && rt.write_all(&after.bytes).is_ok()
}

/// Makes the call of this name over these files, and writes what came of it. The status is 1 where that isn't to be had.
pub(crate) fn answer<R: Files + Alloc + Print>(
    rt: &R,
    alloc: Global,
    name: &str,
    files: &[String],
) -> ExitCode {
    let [trace, files @ ..] = files else {
        return ExitCode::from(1);
    };
    let is_written = match read_given(rt, alloc, trace.as_str(), files) {
        Some(mut given) => is_made(rt, alloc, name, &mut given),
        None => false,
    };
    ExitCode::from(if is_written { 0 } else { 1 })
}
