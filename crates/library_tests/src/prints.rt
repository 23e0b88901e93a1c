//! The events of a run are in the order in which they were made, whichever thread made them.

use crate::programs::{Question, Row};
use crate::runs::are_of_files;
use bodies::{Limits, Report};
use code::resolve;
use guest_threads::{Gate, run_threads};
use hierarchy::{ClassId, Program};
use init_core::Event;
use interpreter::{Interpreter, Objects};
use std::alloc::Global;
use std::rt::Clock;
use std::sync::Wait;
use std::sync::atomic::{AtomicU64, Ordering};
use std::thread;
use std::thread::Threads;
use std::time::Duration;

/// Holds the other thread after each of its events until one has printed, for 10,000 turns of 1 ms at most.
#[derive(Drop)]
struct Leading<'a, C> {
    clock: &'a C,
    /// The number of the thread that goes on.
    first: usize,
    printed: AtomicU64,
}

impl<'a, C: Clock> Leading<'a, C> {
    fn hold(&self, thread: usize) {
        if thread == self.first {
            return;
        }
        for _ in 0..10_000 {
            if self.printed.load(Ordering::SeqCst) > 0 {
                return;
            }
            thread::sleep(self.clock, Duration::from_millis(1));
        }
    }
}

impl<'a, C: Clock> Gate for Leading<'a, C> {
    fn at(&self, event: &Event) {
        self.hold(event.thread());
    }

    fn at_print(&self, thread: usize) {
        self.printed.fetch_add(1, Ordering::SeqCst);
        self.hold(thread);
    }
}

/// The run of the code of the first two classes as main classes, if there is one.
pub(crate) fn run_code<R: Threads + Wait + Sync, G: Gate + Sync>(
    rt: &R,
    alloc: Global,
    program: &Program,
    limits: Limits,
    gate: &G,
) -> Option<Report> {
    let mains = [ClassId { number: 0 }, ClassId { number: 1 }];
    if !are_of_files(program, &mains) {
        return None;
    }
    let code = resolve(alloc, program).ok()?;
    let mut bodies = Vec::new(alloc);
    bodies.push(Interpreter::new(alloc, 0, limits.steps)).ok()?;
    bodies.push(Interpreter::new(alloc, 1, limits.steps)).ok()?;
    let objects = Objects::new(alloc);
    run_threads(
        rt, alloc, program, &code, &mains, bodies, objects, limits, gate,
    )
    .ok()
}

/// A run in which this thread prints first.
fn run<R: Threads + Wait + Sync + Clock>(
    rt: &R,
    alloc: Global,
    program: &Program,
    first: usize,
) -> Option<Report> {
    let gate = Leading {
        clock: rt,
        first,
        printed: AtomicU64::new(0),
    };
    run_code(rt, alloc, program, Limits::USUAL, &gate)
}

/// The number of the thread that the first print is of.
fn first_printer(events: &[Event]) -> Option<usize> {
    for event in events {
        if event.text().is_some() {
            return Some(event.thread());
        }
    }
    None
}

/// Which thread prints first, and what is printed then.
pub(crate) struct Printed {
    first: usize,
    output: &'static [u8],
}

/// Whether the report of the run has the prints in their order.
pub(crate) fn is_printed<R: Threads + Wait + Sync + Clock>(
    rt: &R,
    alloc: Global,
    program: &Program,
    printed: &Printed,
) -> bool {
    match run(rt, alloc, program, printed.first) {
        Some(report) => {
            report.output.as_slice() == printed.output
                && first_printer(report.events.as_slice()) == Some(printed.first)
        }
        None => false,
    }
}

/// Each prints the number of its thread.
const FILES: &[&[u8]] = &[
    b".class A\n.method static main([Ljava/lang/String;)V\n.limit stack 2\ngetstatic java/lang/System/out Ljava/io/PrintStream;\niconst_0\ninvokevirtual java/io/PrintStream/print(I)V\nreturn\n.end method",
    b".class B\n.method static main([Ljava/lang/String;)V\n.limit stack 2\ngetstatic java/lang/System/out Ljava/io/PrintStream;\niconst_1\ninvokevirtual java/io/PrintStream/print(I)V\nreturn\n.end method",
];

pub(crate) const PRINTS: &[Row] = &[
    Row {
        files: FILES,
        question: Question::Printed(Printed {
            first: 0,
            output: b"01",
        }),
    },
    Row {
        files: FILES,
        question: Question::Printed(Printed {
            first: 1,
            output: b"10",
        }),
    },
];
