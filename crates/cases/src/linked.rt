//! Programs of classes, each in a part of its own, and the parts with what is asked of it.
//!
//! A part `-- classes --` begins a program. Its body has the program's files in the Jasmin form, each from a line
//! that begins with `.class` or `.interface` to the next such line. What follows, up to the next such part, is asked of
//! this program: see [`classes`] and [`traces`].

use crate::archive::{Part, parts_after};
use crate::report::Report;
use crate::text::Text;
use crate::{classes, traces};
use hierarchy::{LinkFault, Program, link};
use jasmin_reader::{ReadFault, read_class};
use jasmin_text::ClassText;
use jasmin_words::FaultKind;
use std::alloc::Global;
use std::str::from_utf8;

const NO_MEMORY: ReadFault = ReadFault {
    kind: FaultKind::NoMemory,
    line: 0,
};

/// Adds a fault of a file in the Jasmin form, with its line.
pub(crate) fn push_fault(text: &mut Text, fault: ReadFault) {
    text.show_code(&fault.kind);
    text.push(b" in line ");
    text.show(&fault.line);
}

/// Adds what linking answers.
pub(crate) fn push_linked(text: &mut Text, linked: &Result<Program, LinkFault>) {
    match linked {
        Ok(program) => {
            text.push(b"linked: ");
            text.show(&program.len());
            text.push(b" classes");
        }
        Err(fault) => {
            text.push(b"refused: ");
            text.show_code(&fault.kind);
            text.push(b" ");
            text.push(fault.class.as_slice());
        }
    }
}

/// Adds the class that a file spells, or answers its fault. A list without room is a fault of line 0.
pub(crate) fn add_class(
    alloc: Global,
    file: &[u8],
    classes: &mut Vec<ClassText>,
) -> Result<(), ReadFault> {
    match read_class(alloc, file) {
        Ok(class) => {
            if classes.push(class).is_err() {
                return Err(NO_MEMORY);
            }
            Ok(())
        }
        Err(fault) => Err(fault),
    }
}

/// Adds the classes of a program's files, up to the first that has a fault. Takes no file that is empty.
fn add_classes(alloc: Global, body: &str, classes: &mut Vec<ClassText>) -> Result<(), ReadFault> {
    let mut file = Text::new(alloc);
    for line in body.lines() {
        let begins = line.starts_with(".class ") || line.starts_with(".interface ");
        if begins && !file.bytes.is_empty() {
            add_class(alloc, &file.bytes, classes)?;
            file.bytes.clear();
        }
        file.push(line.as_bytes());
        file.push(b"\n");
    }
    if file.is_refused {
        return Err(NO_MEMORY);
    }
    if file.bytes.is_empty() {
        return Ok(());
    }
    add_class(alloc, &file.bytes, classes)
}

/// Judges what is asked of a program, whose files are in the first part: which texts are its traces, in a file of traces, else what
/// is known of its classes.
fn judge_program(
    alloc: Global,
    file: &str,
    files: &Part<'_>,
    parts: &[Part<'_>],
    report: &mut Report<'_>,
) {
    let mut classes = Vec::new(alloc);
    let body = from_utf8(&files.body).unwrap_or("?");
    if let Err(fault) = add_classes(alloc, body, &mut classes) {
        report.wanted.push(b"files without a fault");
        push_fault(&mut report.came, fault);
        report.came.push(b" of a file");
        report.judges(files.line);
        return;
    }
    let linked = link(alloc, classes);
    if file.contains("traces/") {
        traces::judge(alloc, &linked, files.line, parts, report);
    } else {
        classes::judge(alloc, &linked, parts, report);
    }
}

/// Judges the cases of a file of this name. Parts before the first program fail.
pub(crate) fn judge(alloc: Global, file: &str, parts: &[Part<'_>], report: &mut Report<'_>) {
    let mut is_front = true;
    for (index, part) in parts.iter().enumerate() {
        if part.head == "classes" && !part.is_group {
            is_front = false;
            let after = parts_after(parts, index, "classes");
            judge_program(alloc, file, part, after, report);
        } else if is_front && !part.is_group {
            report.fails(part.line, part.head.as_bytes(), b"no program before it");
        }
    }
}
