//! The runs of a program's one main class on a thread of its own, beside which its ordered run is held.

use crate::linked::add_class;
use crate::programs::named_texts::Texts;
use bodies::{Limits, Report};
use cli::{Named, write_outcomes};
use code::resolve;
use command_line::Run;
use guest_threads::{NoGate, run_threads};
use hierarchy::{ClassId, Edition, LinkFault, Program, link_as};
use interpreter::{Interpreter, Objects};
use jasmin_text::ClassText;
use std::alloc::Global;
use std::sync::Wait;
use std::thread::Threads;
use trace::write_trace;

/// The most bytes of a file.
const MOST_BYTES: usize = 1_048_576;

/// Adds the classes that the files spell, and answers whether each spells one.
fn add_classes(
    alloc: Global,
    names: &[&str],
    files: &mut Texts,
    classes: &mut Vec<ClassText>,
) -> bool {
    for name in names {
        let Ok(file) = files.read(alloc, name, MOST_BYTES) else {
            return false;
        };
        if add_class(alloc, &file, classes).is_err() {
            return false;
        }
    }
    true
}

/// Adds what comes of a run: its output, its lines on standard error, and its trace.
fn put_report(alloc: Global, program: &Program, report: &Report, ran: &mut Texts) {
    let lines = write_outcomes(alloc, program, report.outcomes.as_slice());
    let trace = write_trace(alloc, program, report.events.as_slice());
    ran.put("stdout", report.output.as_slice());
    ran.put_made("stderr", lines);
    ran.put_made("trace", trace);
}

/// Runs a main class on a thread of its own. A thread that can't be started counts as refused memory.
fn run_main<R: Threads + Wait + Sync>(
    rt: &R,
    alloc: Global,
    program: &Program,
    main: ClassId,
    limits: Limits,
    ran: &mut Texts,
) {
    if main.number >= program.len() {
        return;
    }
    let Ok(code) = resolve(alloc, program) else {
        ran.is_refused = true;
        return;
    };
    let mut bodies = Vec::new(alloc);
    let body = Interpreter::new(alloc, 0, limits.steps);
    if bodies.push(body).is_err() {
        ran.is_refused = true;
        return;
    }
    let objects = Objects::new(alloc);
    match run_threads(
        rt,
        alloc,
        program,
        &code,
        &[main],
        bodies,
        objects,
        limits,
        &NoGate,
    ) {
        Ok(report) => put_report(alloc, program, &report, ran),
        Err(_) => ran.is_refused = true,
    }
}

/// Runs the main class that a command line asks for, if these classes are linked and one has that name.
fn run_linked<R: Threads + Wait + Sync>(
    rt: &R,
    alloc: Global,
    linked: &Result<Program, LinkFault>,
    run: &Run<'_>,
    patient: &mut Texts,
    hasty: &mut Texts,
) {
    let (Ok(program), Some(name)) = (linked, run.mains) else {
        return;
    };
    let steps = match run.steps {
        Some(text) => text.parse::<u32>().unwrap_or(0),
        None => 1_000_000,
    };
    if let Some(main) = program.class_named(name.as_bytes()) {
        run_main(
            rt,
            alloc,
            program,
            main,
            Limits { steps, patience: 0 },
            patient,
        );
        run_main(
            rt,
            alloc,
            program,
            main,
            Limits { steps, patience: 1 },
            hasty,
        );
    }
}

/// Runs the one main class that a command line asks for on a thread of its own, once with any patience and once with the least.
/// There are no texts of a run where it asks for something else, where a file is at fault, or where memory is refused to a class.
pub(crate) fn run_threaded<R: Threads + Wait + Sync>(
    rt: &R,
    alloc: Global,
    run: &Run<'_>,
    files: &mut Texts,
    patient: &mut Texts,
    hasty: &mut Texts,
) {
    let mut classes = Vec::new(alloc);
    if run.mains.is_some() && add_classes(alloc, &run.files, files, &mut classes) {
        let edition = if run.edition == Some("7") {
            Edition::Seven
        } else {
            Edition::Eight
        };
        let linked = link_as(alloc, classes, edition);
        run_linked(rt, alloc, &linked, run, patient, hasty);
    }
}
