//! Cases of traces: which texts are read as the events of a program, and which first fault the others have.
//!
//! A part `-- classes --` begins a program, as in files of [`linked`](crate::linked). Texts for it follow, up to the
//! next such part, under these heads:
//!
//! - `-- L3 in line 2 --`: the body is a text of which this is the first fault, its kind and its line. Where the
//!   head names no line, the fault is met in the first line of the case.
//! - `-- read --`: the body is the trace of a list of events: it is read, and these are written as the same bytes.
//!
//! A program has two threads. From a part `-- 16 threads --` on it has so many. `-- around --` has a text with three
//! dots: from here on each case is put in their place, without its last line feed.

use crate::archive::Part;
use crate::framing::{Frame, frame_of, push_framed, push_wanted};
use crate::linked::push_linked;
use crate::report::Report;
use crate::text::Text;
use hierarchy::{LinkFault, Program};
use init_core::Event;
use std::alloc::Global;
use trace::write_trace;
use trace_reader::read_trace;

/// How many threads there are, and what is around the texts, if anything is.
#[derive(Drop)]
struct Setting<'a> {
    threads: usize,
    frame: Option<Frame<'a>>,
}

/// Adds that a text is read as these events, or what else is written of them.
fn push_read(alloc: Global, came: &mut Text, program: &Program, events: &[Event], text: &[u8]) {
    match write_trace(alloc, program, events) {
        Ok(written) if written.as_slice() == text => came.push(b"read"),
        Ok(written) => {
            came.push(b"read, and written as\n");
            came.push(&written);
        }
        Err(_) => came.is_refused = true,
    }
}

/// Judges a case.
fn judge_case(
    alloc: Global,
    program: &Program,
    case: &Part<'_>,
    setting: &Setting<'_>,
    report: &mut Report<'_>,
) {
    push_framed(&mut report.given, setting.frame, &case.body);
    push_wanted(&mut report.wanted, case.head, setting.frame);
    let text = report.given.bytes.as_slice();
    match read_trace(alloc, program, setting.threads, text) {
        Ok(events) => push_read(alloc, &mut report.came, program, &events, text),
        Err(fault) => {
            report.came.show_code(&fault.kind);
            report.came.push(b" in line ");
            report.came.show(&fault.line);
        }
    }
    report.judges(case.line);
}

/// Takes from a part what holds for the cases after it, or judges it as a case.
fn judge_part<'a>(
    alloc: Global,
    program: &Program,
    part: &'a Part<'_>,
    setting: &mut Setting<'a>,
    report: &mut Report<'_>,
) {
    if part.head == "around" {
        setting.frame = frame_of(&part.body);
        if setting.frame.is_none() {
            report.fails(part.line, b"...", &part.body);
        }
    } else if let Some(threads) = part.head.strip_suffix(" threads") {
        setting.threads = threads.parse::<usize>().unwrap_or(0);
    } else {
        judge_case(alloc, program, part, setting, report);
    }
}

/// Judges the parts of a program, or fails its files, at this line, where they aren't linked.
pub(crate) fn judge(
    alloc: Global,
    linked: &Result<Program, LinkFault>,
    line: usize,
    parts: &[Part<'_>],
    report: &mut Report<'_>,
) {
    let Ok(program) = linked else {
        report.wanted.push(b"files that are linked");
        push_linked(&mut report.came, linked);
        report.judges(line);
        return;
    };
    let mut setting = Setting {
        threads: 2,
        frame: None,
    };
    for part in parts {
        if !part.is_group {
            judge_part(alloc, program, part, &mut setting, report);
        }
    }
}
