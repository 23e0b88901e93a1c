//! One thread's procedure for one class.

ghost use Rattle.std.specs.Prelude.{◌≡◌, [], None};
ghost use Rattle.init_core.specs.Leads.{standing};

use crate::programs::{Question, Row};
use hierarchy::{BuiltIn, ClassId, Program};
use init_core::{Answer, Completed, Decision, Ending, Next, Outcome, Procedure};
use std::alloc::{AllocError, Global};

const CLASS: ClassId = ClassId { number: 0 };

const ERROR: ClassId = ClassId { number: 7 };

/// Whether the procedure for the class was completed last, with this outcome, and nothing is asked for.
fn is_completed(procedure: &Procedure, outcome: Outcome) -> bool {
    let class = CLASS;
    procedure.next() == Next::Idle && procedure.last() == Some(Completed { class, outcome })
}

/// A second look finds the class erroneous. What was completed last can be forgotten.
fn refuses(alloc: Global, program: &Program, procedure: &mut Procedure) -> Result<bool, AllocError>
    requires { procedure.old ≡ standing [] None }
{
    let idle = procedure.next();
    procedure.request(CLASS)?;
    let waits = Answer::Decided(Decision::Waits { first: true });
    let next = procedure.advance(alloc, program, waits)?;
    let has_waited = procedure.has_waited();
    procedure.advance(alloc, program, Answer::Decided(Decision::FindsErroneous))?;
    let refused = program.built_in(BuiltIn::NoClassDefFoundError);
    let was_completed = is_completed(procedure, Outcome::Abrupt(refused));
    procedure.forget_last();
    let is_forgotten = procedure.last().is_none();
    let is_asked = idle == Next::Idle && next == Next::Look(CLASS) && has_waited;
    Ok(is_asked && was_completed && is_forgotten)
}

/// A request that hasn't waited is completed by a step 4 without a look.
fn passes_by(procedure: &mut Procedure) -> Result<bool, AllocError>
    requires { procedure.old ≡ standing [] None }
{
    procedure.request(CLASS)?;
    let has_waited = procedure.has_waited();
    let Next::Look(_) = procedure.next() else {
        return Ok(false);
    };
    procedure.complete_by_step_4();
    Ok(!has_waited && is_completed(procedure, Outcome::Normal))
}

/// Memory runs out after step 6.
fn gives_up(alloc: Global, program: &Program, procedure: &mut Procedure) -> Result<bool, AllocError>
    requires { procedure.old ≡ standing [] None }
{
    let error = program.built_in(BuiltIn::OutOfMemoryError);
    procedure.request(CLASS)?;
    let next = procedure.advance(alloc, program, Answer::GaveUp { error, begun: true })?;
    procedure.advance(alloc, program, Answer::Ended)?;
    let was_completed = is_completed(procedure, Outcome::Ended(error));
    Ok(next == Next::End(CLASS, Ending::SuperFails(error)) && was_completed)
}

/// A thread gives up where it waits.
fn waits_and_gives_up(
    alloc: Global,
    program: &Program,
    procedure: &mut Procedure,
) -> Result<bool, AllocError>
    requires { procedure.old ≡ standing [] None }
{
    let error = program.built_in(BuiltIn::InternalError);
    procedure.request(CLASS)?;
    let waits = Answer::Decided(Decision::Waits { first: false });
    let next = procedure.advance(alloc, program, waits)?;
    let begun = false;
    procedure.advance(alloc, program, Answer::GaveUp { error, begun })?;
    Ok(next == Next::Look(CLASS) && is_completed(procedure, Outcome::Ended(error)))
}

/// A body is begun once, and throws.
fn throws(procedure: &mut Procedure) -> bool {
    let was_running = procedure.is_running();
    if let Next::Body(CLASS) = procedure.next() {
        if !procedure.is_running() {
            procedure.run_body();
        }
    }
    let is_running = procedure.is_running();
    if let Next::Body(CLASS) = procedure.next() {
        procedure.end_body(Outcome::Abrupt(ERROR));
    }
    is_running && !was_running && procedure.next() == Next::End(CLASS, Ending::Fails(ERROR))
}

/// The body of a class without needs comes after step 6, and throws.
fn begins(alloc: Global, program: &Program, procedure: &mut Procedure) -> Result<bool, AllocError>
    requires { procedure.old ≡ standing [] None }
{
    procedure.request(CLASS)?;
    let next = procedure.advance(alloc, program, Answer::Decided(Decision::Begins))?;
    Ok(next == Next::Body(CLASS) && throws(procedure))
}

/// What a procedure is asked and told.
#[derive(Clone, Copy)]
pub(crate) enum Course {
    Refuses,
    PassesBy,
    GivesUp,
    WaitsAndGivesUp,
    Throws,
}

/// Whether the procedure stands as its answers say, and is completed as it must be.
fn goes(
    alloc: Global,
    program: &Program,
    procedure: &mut Procedure,
    course: Course,
) -> Result<bool, AllocError>
    requires { procedure.old ≡ standing [] None }
{
    match course {
        Course::Refuses => refuses(alloc, program, procedure),
        Course::PassesBy => passes_by(procedure),
        Course::GivesUp => gives_up(alloc, program, procedure),
        Course::WaitsAndGivesUp => waits_and_gives_up(alloc, program, procedure),
        Course::Throws => begins(alloc, program, procedure),
    }
}

/// Whether a new procedure goes this course.
pub(crate) fn is_gone(
    alloc: Global,
    program: &Program,
    course: Course,
) -> Result<bool, AllocError> {
    let mut procedure = Procedure::new(alloc);
    goes(alloc, program, &mut procedure, course)
}

const SOLO: &[&[u8]] = &[b".class Solo"];

pub(crate) const COURSES: &[Row] = &[
    Row {
        files: SOLO,
        question: Question::Procedure(Course::Refuses),
    },
    Row {
        files: SOLO,
        question: Question::Procedure(Course::PassesBy),
    },
    Row {
        files: SOLO,
        question: Question::Procedure(Course::GivesUp),
    },
    Row {
        files: SOLO,
        question: Question::Procedure(Course::WaitsAndGivesUp),
    },
    Row {
        files: SOLO,
        question: Question::Procedure(Course::Throws),
    },
];
