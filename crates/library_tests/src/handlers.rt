//! Which row of a handler table catches an object, and step 11.

use crate::programs::{Question, Row};
use frames::{Replaced, handler_at, replacement};
use hierarchy::{ClassId, Program};

/// A method with handlers: places 0 to 4, by the labels A, B (at 2), X and Y.
const HANDLERS: &[u8] = b".class C\n.method static m()V\nA:\nnop\nnop\nB:\nnop\nX:\nnop\nY:\nreturn
.catch Missing from A to Y using A\n.catch java/lang/Error from A to B using B\n.catch all from B to X using X
.catch java/lang/Throwable from A to X using Y\n.catch java/lang/Error from A to B using A\n.end method";

/// Where an object of a class goes on that is thrown at a place of the first method of the first class.
fn goes_on(program: &Program, place: usize, name: &[u8]) -> Option<u16> {
    let thrown = program.class_named(name)?;
    let class = program.class(ClassId { number: 0 })?;
    let code = class.methods.as_slice().first()?.code.as_ref()?;
    handler_at(program, code.handlers.as_slice(), place, thrown)
}

/// Whether step 11 leaves an object of a class so.
fn leaves(program: &Program, thrown: &[u8], left: Replaced) -> bool {
    match program.class_named(thrown) {
        Some(class) => replacement(program, class) == left,
        None => false,
    }
}

/// Whether objects are caught by the first row that fits, and step 11 replaces what is no Error.
pub(crate) fn handlers(program: &Program) -> bool {
    goes_on(program, 0, b"java/lang/Error") == Some(2)
        && goes_on(program, 1, b"java/lang/InternalError") == Some(2)
        && goes_on(program, 0, b"java/lang/Exception") == Some(4)
        && goes_on(program, 2, b"java/lang/Error") == Some(3)
        && goes_on(program, 3, b"java/lang/Error").is_none()
        && goes_on(program, 0, b"java/lang/Object").is_none()
        && leaves(program, b"java/lang/Error", Replaced::Same)
        && leaves(program, b"java/lang/InternalError", Replaced::Same)
        && leaves(program, b"java/lang/Exception", Replaced::Wrapped)
}

pub(crate) const HANDLED: &[Row] = &[Row {
    files: &[HANDLERS],
    question: Question::Handlers,
}];
