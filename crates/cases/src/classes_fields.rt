//! What the static fields of a class hold.

use crate::classes_members::push_field;
use crate::text::Text;
use hierarchy::{ClassId, Program, Value};
use statics::{Bank, narrowed, static_field_at};
use std::alloc::Global;

/// Adds a value: an int, `null`, or a reference by its number, `#3`.
fn push_value(text: &mut Text, value: Value) {
    if !text.bytes.is_empty() {
        text.push(b" ");
    }
    match value {
        Value::Int(number) => text.show(&number),
        Value::Null => text.push(b"null"),
        Value::Reference(number) => {
            text.push(b"#");
            text.show(&number);
        }
    }
}

/// The value that a word spells.
fn value(word: &str) -> Option<Value> {
    if word == "null" {
        return Some(Value::Null);
    }
    match word.strip_prefix('#') {
        Some(number) => Some(Value::Reference(number.parse::<u32>().ok()?)),
        None => Some(Value::Int(word.parse::<i32>().ok()?)),
    }
}

/// A class and the place of one of its static fields, `C 3`.
fn place_of(program: &Program, asked: &str) -> Option<(ClassId, usize)> {
    let (class, place) = asked.split_once(' ')?;
    let class = program.class_named(class.as_bytes())?;
    let place = place.parse::<usize>().ok()?;
    Some((class, place))
}

/// Adds what a field holds, if there is the field.
fn push_held(text: &mut Text, bank: &Bank, place: usize) {
    if place < bank.len() {
        push_value(text, bank.get(place));
    }
}

/// A static field, and what it holds before step 6 and after it.
pub(crate) fn static_fields(
    alloc: Global,
    program: &Program,
    asked: &str,
    came: &mut Text,
) -> bool {
    let Some((class, place)) = place_of(program, asked) else {
        return false;
    };
    match static_field_at(program, class, place) {
        Some(field) => push_field(alloc, came, field),
        None => came.push(b"none"),
    }
    match Bank::prepared(alloc, program, class) {
        Ok(mut bank) => {
            push_held(came, &bank, place);
            bank.constants();
            push_held(came, &bank, place);
        }
        Err(_) => came.is_refused = true,
    }
    true
}

/// What the static fields of a class hold after a put.
pub(crate) fn puts(alloc: Global, program: &Program, asked: &str, came: &mut Text) -> bool {
    let Some((front, word)) = asked.rsplit_once(' ') else {
        return false;
    };
    let Some((class, place)) = place_of(program, front) else {
        return false;
    };
    let Some(value) = value(word) else {
        return false;
    };
    match Bank::prepared(alloc, program, class) {
        Ok(mut bank) => {
            bank.constants();
            if place < bank.len() {
                let base = bank.field(place).base;
                bank.put(place, narrowed(base, value));
            }
            for place in 0..bank.len() {
                push_held(came, &bank, place);
            }
        }
        Err(_) => came.is_refused = true,
    }
    true
}
