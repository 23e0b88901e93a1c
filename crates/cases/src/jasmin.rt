//! Cases of files in the Jasmin form. Their heads:
//!
//! - `-- J5 in line 3 --`: the body is a file of which this is the first fault, its kind and its line. Where the
//!   head names no line, the fault is met in the first line of the case.
//! - `-- read --`: the body is a file that is read. With `-- as --` after it, that body is the canonical text of the
//!   class that is read, which is read as the same class.
//! - `-- canonical --`: the body is a canonical text.
//! - `-- words --` and heads of one word: see [`words`](crate::words).
//!
//! `-- around --` has a file with three dots: from here on each case is put in their place, without its last line
//! feed. A head `-- and around --` after it has one more, and each case is judged in each. `-- around as --` is the
//! same for canonical texts.

use crate::archive::Part;
use crate::framing::{Frame, frame_of, push_framed, push_wanted, without_line_feed};
use crate::linked::push_fault;
use crate::report::Report;
use crate::text::Text;
use crate::words::{is_of_word, push_word_answer};
use jasmin_reader::read_class;
use jasmin_writer::write_class;
use std::alloc::Global;

/// What is around the files, if anything is, and around the canonical texts; and the canonical text of a case, where that is
/// given.
#[derive(Drop)]
struct Around<'a> {
    frames: Vec<Frame<'a>>,
    canonical_frame: Option<Frame<'a>>,
    canonical: Option<&'a [u8]>,
}

/// Adds that a file is read, or its canonical text where that is asked for; or its first fault.
fn push_answer(alloc: Global, came: &mut Text, file: &[u8], is_text_asked: bool) {
    match read_class(alloc, file) {
        Ok(class) if is_text_asked => came.push_made(write_class(alloc, &class)),
        Ok(_) => came.push(b"read"),
        Err(fault) => push_fault(came, fault),
    }
}

/// Judges whether the file that is given and the canonical text that is wanted both have that canonical text.
fn judge_canonical(alloc: Global, line: usize, report: &mut Report<'_>) {
    push_answer(alloc, &mut report.came, &report.given.bytes, true);
    if report.came.bytes.as_slice() == report.wanted.bytes.as_slice() {
        report.came.bytes.clear();
        push_answer(alloc, &mut report.came, &report.wanted.bytes, true);
    }
    report.judges(line);
}

/// Judges a case in a frame: by its canonical text, where that is given, or else by the answer that its head demands.
fn judge_framed(
    alloc: Global,
    case: &Part<'_>,
    frame: Option<Frame<'_>>,
    around: &Around<'_>,
    report: &mut Report<'_>,
) {
    push_framed(&mut report.given, frame, &case.body);
    match around.canonical {
        Some(text) => {
            push_framed(&mut report.wanted, around.canonical_frame, text);
            judge_canonical(alloc, case.line, report);
        }
        None => {
            push_wanted(&mut report.wanted, case.head, frame);
            push_answer(alloc, &mut report.came, &report.given.bytes, false);
            report.judges(case.line);
        }
    }
}

/// Judges a case in each frame.
fn judge_frames(alloc: Global, case: &Part<'_>, around: &Around<'_>, report: &mut Report<'_>) {
    if around.frames.is_empty() {
        judge_framed(alloc, case, None, around, report);
    }
    for frame in around.frames.as_slice() {
        judge_framed(alloc, case, Some(*frame), around, report);
    }
}

/// Judges a case.
fn judge_case(alloc: Global, case: &Part<'_>, around: &Around<'_>, report: &mut Report<'_>) {
    match case.head {
        "canonical" => {
            push_framed(&mut report.given, around.canonical_frame, &case.body);
            push_framed(&mut report.wanted, around.canonical_frame, &case.body);
            judge_canonical(alloc, case.line, report);
        }
        head if is_of_word(head) => {
            // (the words of a line are listed in the part after it)
            let wanted = around.canonical.unwrap_or(head.as_bytes());
            report.wanted.push(wanted);
            let word = without_line_feed(&case.body);
            push_word_answer(alloc, &mut report.came, head, word);
            report.judges(case.line);
        }
        _ => judge_frames(alloc, case, around, report),
    }
}

/// Adds a frame, or reports that the body has no dots.
fn add_frame<'a>(part: &'a Part<'_>, frames: &mut Vec<Frame<'a>>, report: &mut Report<'_>) {
    match frame_of(&part.body) {
        Some(frame) => {
            if frames.push(frame).is_err() {
                report.text.is_refused = true;
            }
        }
        None => report.fails(part.line, b"...", &part.body),
    }
}

/// Judges a part, or takes from it what is around the cases after it.
fn judge_part<'a>(
    alloc: Global,
    part: &'a Part<'_>,
    around: &mut Around<'a>,
    report: &mut Report<'_>,
) {
    match part.head {
        "as" => {}
        "around as" => around.canonical_frame = frame_of(&part.body),
        "around" => {
            around.frames.clear();
            add_frame(part, &mut around.frames, report);
        }
        "and around" => add_frame(part, &mut around.frames, report),
        _ => judge_case(alloc, part, around, report),
    }
}

/// Judges the cases of a file.
pub(crate) fn judge(alloc: Global, parts: &[Part<'_>], report: &mut Report<'_>) {
    let mut around = Around {
        frames: Vec::new(alloc),
        canonical_frame: None,
        canonical: None,
    };
    for (index, part) in parts.iter().enumerate() {
        around.canonical = match parts.get(index.saturating_add(1)) {
            Some(next) if next.head == "as" => Some(next.body.as_slice()),
            _ => None,
        };
        if !part.is_group {
            judge_part(alloc, part, &mut around, report);
        }
    }
}
