//! Programs for tests, from the texts of their classes. A program is held in one function alone, since each one that
//! holds it costs its proof.

use crate::comparing::{Case, is_as_compared};
use crate::frame_runs::RUNS;
use crate::frame_steps::{Deed, is_done};
use crate::frame_throws::THROWS;
use crate::handlers::{HANDLED, handlers};
use crate::heaps::{PARTS, Part, is_right};
use crate::in_order::{IN_ORDER, is_in_order};
use crate::prints::{PRINTS, Printed, is_printed};
use crate::procedures::{COURSES, Course, is_gone};
use crate::records::{STORIES, Story, is_told, takes_two_blocks};
use crate::resolved::{RESOLVED, resolved};
use crate::runs::{CROWDS, Crowd, is_run};
use crate::scripted::{SCRIPTS, Script, is_scripted};
use crate::waiting::WAITING;
use crate::worlds::{AGREEING, DIFFERING, SCENES, Scene, is_as_played};
use hierarchy::{Program, link};
use jasmin_reader::read_class;
use jasmin_text::ClassText;
use std::alloc::{AllocError, Global};
use std::process::Abort;
use std::rt::Clock;
use std::sync::Wait;
use std::thread::Threads;

/// What is asked of a program.
pub(crate) enum Question {
    /// What is done to the record of a class.
    Record(Story),
    /// The blocks of a class's history.
    Blocks,
    /// One thread's procedure for one class.
    Procedure(Course),
    /// Handler tables, and step 11.
    Handlers,
    /// What is done in frames.
    Frames(Deed),
    /// A part of the heap.
    Heap(Part),
    /// Resolved instructions.
    Resolved,
    /// World beside the twin.
    Compared(Case),
    /// Two threads, turn by turn.
    Played(Scene),
    /// Two threads in a given order.
    InOrder,
    /// Threads at once, with no bodies that are run.
    Ran(Crowd),
    /// Two threads at once that print.
    Printed(Printed),
    /// A thread whose bodies do one of each.
    Scripted(Script),
}

/// The files of a program, and what is asked of it.
pub(crate) struct Row {
    pub files: &'static [&'static [u8]],
    pub question: Question,
}

/// Whether the program's answer is as the question says.
fn answers<R: Threads + Wait + Sync + Clock>(
    rt: &R,
    alloc: Global,
    program: &Program,
    question: &Question,
) -> bool {
    match question {
        Question::Record(story) => is_told(alloc, program, story),
        Question::Blocks => takes_two_blocks(alloc, program),
        Question::Procedure(course) => is_gone(alloc, program, *course) == Ok(true),
        Question::Handlers => handlers(program),
        Question::Frames(deed) => is_done(alloc, program, deed),
        Question::Heap(part) => is_right(alloc, program, *part),
        Question::Resolved => resolved(alloc, program),
        Question::Compared(case) => is_as_compared(alloc, program, case) == Ok(true),
        Question::Played(scene) => is_as_played(alloc, program, scene),
        Question::InOrder => is_in_order(alloc, program),
        Question::Ran(crowd) => is_run(rt, alloc, program, crowd),
        Question::Printed(printed) => is_printed(rt, alloc, program, printed),
        Question::Scripted(script) => is_scripted(rt, alloc, program, script),
    }
}

/// Adds the class of a file, if it has no fault.
pub(crate) fn add(
    alloc: Global,
    file: &[u8],
    classes: &mut Vec<ClassText>,
) -> Result<(), AllocError> {
    match read_class(alloc, file) {
        Ok(text) => classes.push(text)?,
        Err(_) => {}
    }
    Ok(())
}

/// The classes of these files.
pub(crate) fn class_texts(alloc: Global, files: &[&[u8]]) -> Result<Vec<ClassText>, AllocError> {
    let mut classes = Vec::new(alloc);
    for file in files {
        add(alloc, file, &mut classes)?;
    }
    Ok(classes)
}

/// Whether these classes link, are so many, and the program's answer is as the question says.
pub(crate) fn is_answered<R: Threads + Wait + Sync + Clock>(
    rt: &R,
    alloc: Global,
    classes: Vec<ClassText>,
    count: usize,
    question: &Question,
) -> bool {
    match link(alloc, classes) {
        Ok(program) => program.len() == count && answers(rt, alloc, &program, question),
        Err(_) => false,
    }
}

/// Whether all files are classes, which link, and the program's answer is as the question says.
fn is_so<R: Threads + Wait + Sync + Clock>(rt: &R, alloc: Global, row: &Row) -> bool {
    match class_texts(alloc, row.files) {
        Ok(classes) => is_answered(rt, alloc, classes, row.files.len(), &row.question),
        Err(_) => false,
    }
}

/// The programs of these rows answer as their questions say.
fn are_so<R: Threads + Wait + Sync + Clock + Abort>(
    rt: &R,
    alloc: Global,
    subject: &str,
    rows: &[Row],
) {
    for (place, row) in rows.iter().enumerate() {
        assert!(rt; is_so(rt, alloc, row), "{subject}: row {place}");
    }
}

#[test]
fn programs_answer(rt: HostRuntime) {
    let alloc = rt.alloc();
    are_so(&rt, alloc, "records of classes", STORIES);
    are_so(&rt, alloc, "steps of one class", COURSES);
    are_so(&rt, alloc, "the first row that fits catches", HANDLED);
    are_so(&rt, alloc, "frames are run, called and left", RUNS);
    are_so(&rt, alloc, "frames are left", THROWS);
    are_so(&rt, alloc, "heaps and monitors", PARTS);
    are_so(&rt, alloc, "instructions are resolved once", RESOLVED);
    are_so(
        &rt,
        alloc,
        "World agrees with the twin on small programs",
        AGREEING,
    );
    are_so(&rt, alloc, "the comparison notices other needs", DIFFERING);
    are_so(&rt, alloc, "threads play their scenes", SCENES);
    are_so(&rt, alloc, "two threads go on in order", IN_ORDER);
    are_so(&rt, alloc, "threads at once", CROWDS);
    are_so(&rt, alloc, "prints are in their order", PRINTS);
    are_so(&rt, alloc, "threads that wait for each other", WAITING);
    are_so(&rt, alloc, "bodies that do one of each", SCRIPTS);
}
