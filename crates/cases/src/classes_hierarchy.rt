//! The numbers, supertypes, needs and quoted texts of a program's classes.

use crate::classes_members::{push_class, simple_name};
use crate::text::Text;
use hierarchy::{BUILT_IN_COUNT, BuiltIn, ClassId, Program};
use init_core::needs;
use std::alloc::Global;

/// Adds the names of these classes; `none` where the text is empty then.
fn push_names(text: &mut Text, program: &Program, classes: &[ClassId]) {
    for class in classes {
        if !text.bytes.is_empty() {
            text.push(b" ");
        }
        push_class(text, program, *class);
    }
    if text.bytes.is_empty() {
        text.push(b"none");
    }
}

/// The classes that are initialized before a class's initializer runs.
pub(crate) fn needed(alloc: Global, program: &Program, asked: &str, came: &mut Text) -> bool {
    let Some(class) = program.class_named(asked.as_bytes()) else {
        return false;
    };
    match needs(alloc, program, class) {
        Ok(classes) => push_names(came, program, &classes),
        Err(_) => came.is_refused = true,
    }
    true
}

/// The name of a class's number, the number of a class's name.
pub(crate) fn numbers(program: &Program, asked: &str, came: &mut Text) -> bool {
    match (
        asked.parse::<usize>(),
        program.class_named(asked.as_bytes()),
    ) {
        (Ok(number), _) => push_class(came, program, ClassId { number }),
        (Err(_), Some(class)) => came.show(&class.number),
        (Err(_), None) => came.push(b"none"),
    }
    true
}

/// The whole name of a built-in class, of which the name without a package is asked.
pub(crate) fn built_in_names(program: &Program, asked: &str, came: &mut Text) -> bool {
    for place in 0..BUILT_IN_COUNT {
        if let Some(class) = BuiltIn::at(place) {
            if simple_name(class) == asked.as_bytes() {
                push_class(came, program, program.built_in(class));
                return true;
            }
        }
    }
    false
}

/// The direct supertypes of a class of the files.
pub(crate) fn supertypes(program: &Program, asked: &str, came: &mut Text) -> bool {
    let Some(class) = program.class_named(asked.as_bytes()) else {
        return false;
    };
    let Some(class) = program.class(class) else {
        return false;
    };
    push_class(came, program, class.superclass);
    push_names(came, program, class.interfaces.as_slice());
    true
}

/// The superinterfaces that a class implements by itself.
pub(crate) fn superinterfaces_of(program: &Program, asked: &str, came: &mut Text) -> bool {
    let Some(class) = program.class_named(asked.as_bytes()) else {
        return false;
    };
    for superinterface in program.superinterfaces(class) {
        push_names(came, program, &[superinterface]);
    }
    push_names(came, program, &[]);
    true
}

/// Whether a class is below another one.
pub(crate) fn subtypes(program: &Program, asked: &str, came: &mut Text) -> bool {
    let Some((class, other)) = asked.split_once(" <: ") else {
        return false;
    };
    let Some(class) = program.class_named(class.as_bytes()) else {
        return false;
    };
    let Some(other) = program.class_named(other.as_bytes()) else {
        return false;
    };
    came.show(&program.is_subtype(class, other));
    true
}

/// The number of a quoted text.
pub(crate) fn text_references(program: &Program, asked: &str, came: &mut Text) -> bool {
    let Some(text) = asked.strip_prefix('"') else {
        return false;
    };
    let Some(text) = text.strip_suffix('"') else {
        return false;
    };
    match program.text_reference(text.as_bytes()) {
        Some(number) => came.show(&number),
        None => came.push(b"none"),
    }
    true
}
