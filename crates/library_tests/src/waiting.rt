//! Two main classes whose initializers use each other's class, each on a thread of its own: no thread can go on, and the run ends all
//! the same, by their patience (JLS SE 8 12.4.2 step 2).

use crate::prints::run_code;
use crate::programs::{Question, Row};
use crate::runs::{Crowd, Meeting};
use bodies::{Limits, Report};
use cli::write_outcomes;
use hierarchy::{ClassId, Program};
use init_core::Label;
use judge::{Verdict, check};
use std::alloc::Global;
use std::rt::Clock;
use std::sync::Wait;
use std::thread::Threads;

const MAINS: [ClassId; 2] = [ClassId { number: 0 }, ClassId { number: 1 }];

/// How the threads may end: at least one by its patience, and the other so too, or since the class that it waits for is erroneous.
const ENDS: &[&[u8]] = &[
    b"t0: java/lang/InternalError\nt1: java/lang/InternalError\n",
    b"t0: java/lang/InternalError\nt1: java/lang/NoClassDefFoundError\n",
    b"t0: java/lang/NoClassDefFoundError\nt1: java/lang/InternalError\n",
];

/// Whether the threads ended in one of these ways.
fn are_ended(alloc: Global, program: &Program, report: &Report) -> bool {
    match write_outcomes(alloc, program, report.outcomes.as_slice()) {
        Ok(lines) => ENDS
            .iter()
            .any(|ends| -> bool { lines.as_slice() == *ends }),
        Err(_) => false,
    }
}

/// Whether both classes are erroneous then, and the events are a legal interleaving.
fn are_left(alloc: Global, program: &Program, report: &Report) -> bool {
    report.labels.as_slice() == [Label::Erroneous, Label::Erroneous].as_slice()
        && check(alloc, program, &MAINS, report.events.as_slice()) == Ok(Verdict::Legal)
}

/// Whether the run of two threads that wait for each other ends so. Each is held after its step 9 until the other has made its own.
pub(crate) fn is_waited_out<R: Threads + Wait + Sync + Clock>(
    rt: &R,
    alloc: Global,
    program: &Program,
) -> bool {
    let gate = Meeting::new(rt, 10_000);
    let limits = Limits {
        patience: 1000,
        ..Limits::USUAL
    };
    match run_code(rt, alloc, program, limits, &gate) {
        Some(report) => {
            gate.has_met()
                && are_ended(alloc, program, &report)
                && are_left(alloc, program, &report)
        }
        None => false,
    }
}

pub(crate) const WAITING: &[Row] = &[Row {
    files: &[
        b".class A\n.method static <clinit>()V\ninvokestatic B/use()V\nreturn\n.end method\n.method static use()V\nreturn\n.end method",
        b".class B\n.method static <clinit>()V\ninvokestatic A/use()V\nreturn\n.end method\n.method static use()V\nreturn\n.end method",
    ],
    question: Question::Ran(Crowd::NeedEachOther),
}];
