//! Which methods instructions run.

use crate::classes_members::{MethodReference, invoke, method_reference, push_found};
use crate::text::Text;
use hierarchy::{Call, ClassId, Invoke, Program};
use std::alloc::Global;

/// The call of an instruction that names a class, with the class after its reference.
fn call(how: Invoke, named: ClassId, class: ClassId) -> Option<Call> {
    match how {
        Invoke::Static => None,
        Invoke::Virtual => Some(Call::Virtual(class)),
        Invoke::Interface => Some(Call::Interface(class)),
        Invoke::Special => Some(Call::Special(class, named)),
    }
}

/// Which method an instruction with this reference runs.
fn selects_by(
    alloc: Global,
    program: &Program,
    how: Invoke,
    class: ClassId,
    reference: &MethodReference<'_>,
    came: &mut Text,
) -> bool {
    let Some(call) = call(how, reference.class, class) else {
        return false;
    };
    let name = reference.name.as_bytes();
    let resolved = program.resolve_method(how, reference.class, name, &reference.method_type);
    let found = match resolved {
        Ok(method) => program.select(call, method, name, &reference.method_type),
        Err(error) => Err(error),
    };
    push_found(alloc, came, program, found);
    true
}

/// Which method an instruction runs: after its reference comes a class, an object's, `A/own()V on C`, or the one whose code makes
/// the call, `A/own()V in C`.
pub(crate) fn selects(alloc: Global, program: &Program, asked: &str, came: &mut Text) -> bool {
    let Some((instruction, rest)) = asked.split_once(' ') else {
        return false;
    };
    let Some(how) = invoke(instruction) else {
        return false;
    };
    let between = match how {
        Invoke::Special => " in ",
        _ => " on ",
    };
    let Some((text, class)) = rest.split_once(between) else {
        return false;
    };
    let Some(class) = program.class_named(class.as_bytes()) else {
        return false;
    };
    match method_reference(alloc, program, text) {
        Some(reference) => selects_by(alloc, program, how, class, &reference, came),
        None => false,
    }
}
