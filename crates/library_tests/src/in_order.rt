//! The run of two threads in order, with no bodies that are run.

use crate::programs::{Question, Row};
use crate::worlds::is_traced;
use bodies::NoCode;
use hierarchy::{ClassId, Program};
use init_core::Label;
use replayer::run_ordered;
use std::alloc::Global;

const TRACE: &[u8] = b"0 t0 step6 A
1 t0 step9 A
2 t1 step2 A
3 t0 step10 A
4 t1 step4 A
";

/// Whether the run of two threads with one main class in an order has its trace, and the class is initialized then.
pub(crate) fn is_in_order(alloc: Global, program: &Program) -> bool {
    if program.len() == 0 {
        return false;
    }
    let main = ClassId { number: 0 };
    let Ok(bodies) = vec![in alloc; NoCode; 2] else {
        return false;
    };
    match run_ordered(
        alloc,
        program,
        &(),
        &[main, main],
        &[0, 0, 1, 0, 1],
        bodies,
        (),
    ) {
        Ok(report) => {
            report.labels.as_slice() == [Label::Initialized].as_slice()
                && is_traced(alloc, program, report.events.as_slice(), TRACE)
        }
        Err(_) => false,
    }
}

pub(crate) const IN_ORDER: &[Row] = &[Row {
    files: &[b".class A"],
    question: Question::InOrder,
}];
