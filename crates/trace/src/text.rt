//! A trace as text.

ghost use Rattle.std.specs.Prelude.{◌≡◌, ◌++◌, IfOk, Some, codes};
ghost use Rattle.sequence.specs.Written.{Adds};
ghost use Rattle.jasmin_words.specs.Quoting.{quoted};
ghost use Rattle.trace.specs.TraceText.{class_text, event_class_text, throwable_text, head, step_text, field_text, field_in_trace, value_text, use_text, kind_text, line, trace_of};

use descriptors::write_field;
use hierarchy::{ClassId, Program, Value};
use init_core::{Event, Kind};
use jasmin_text::Field;
use jasmin_words::integer::{push_decimal, push_integer};
use jasmin_words::quote::push_quoted;
use sequence::Writer;
use statics::static_field_at;
use std::alloc::{AllocError, Global};

/// The number and the thread of a line.
fn write_head(out: &mut Writer, number: usize, thread: usize)
    ensures { Adds out.old (head number thread) out.new }
{
    push_decimal(out, number);
    out.push(b" t");
    push_decimal(out, thread);
}

/// Writes the name of a class at the end.
pub fn write_class_name(out: &mut Writer, program: &Program, class: ClassId)
    ensures { Adds out.old (class_text program.now class) out.new }
{
    if let Some(name) = program.name(class) {
        out.push(name);
    }
}

fn write_event_class(out: &mut Writer, program: &Program, class: Option<ClassId>)
    ensures { Adds out.old (event_class_text program.now class) out.new }
{
    if let Some(class) = class {
        write_class_name(out, program, class);
    }
}

fn write_throwable(out: &mut Writer, program: &Program, throwable: Option<ClassId>)
    ensures { Adds out.old (throwable_text program.now throwable) out.new }
{
    if let Some(throwable) = throwable {
        out.push(b" ");
        write_class_name(out, program, throwable);
    }
}

/// A step of that number, with the throwable that it has.
fn write_step(
    out: &mut Writer,
    program: &Program,
    step: usize,
    class: Option<ClassId>,
    throwable: Option<ClassId>,
)
    ensures { Adds out.old (step_text program.now step class throwable) out.new }
{
    out.push(b" step");
    push_decimal(out, step);
    out.push(b" ");
    write_event_class(out, program, class);
    write_throwable(out, program, throwable);
}

fn write_field_name(out: &mut Writer, alloc: Global, field: &Field)
    ensures { Adds out.old (field_in_trace (Some field.now)) out.new }
{
    out.push(field.name.as_slice());
    out.push(b":");
    match write_field(alloc, &field.field_type) {
        Ok(spelling) => out.push(&spelling),
        Err(_) => out.lose(),
    }
}

/// A static field by its place among those of its class.
fn write_static(
    out: &mut Writer,
    alloc: Global,
    program: &Program,
    class: Option<ClassId>,
    place: usize,
)
    ensures { Adds out.old (field_text program.now class place) out.new }
{
    if let Some(class) = class {
        if let Some(field) = static_field_at(program, class, place) {
            write_field_name(out, alloc, field);
        }
    }
}

fn write_value(out: &mut Writer, value: Value)
    ensures { Adds out.old (value_text value) out.new }
{
    match value {
        Value::Int(number) => push_integer(out, number),
        Value::Null => out.push(b"null"),
        Value::Reference(number) => {
            out.push(b"#");
            push_decimal(out, number as usize);
        }
    }
}

/// A read or a write of a static field, by its word.
fn write_use(
    out: &mut Writer,
    alloc: Global,
    program: &Program,
    word: &[u8],
    class: Option<ClassId>,
    place: usize,
    value: Value,
)
    ensures { Adds out.old (use_text program.now word.now class place value) out.new }
{
    out.push(word);
    write_event_class(out, program, class);
    out.push(b" ");
    write_static(out, alloc, program, class, place);
    out.push(b" ");
    write_value(out, value);
}

fn write_print(out: &mut Writer, text: &[u8])
    ensures { Adds out.old (codes " print " ++ quoted text.now) out.new }
{
    out.push(b" print ");
    push_quoted(out, text);
}

/// What follows the number and the thread.
fn write_kind(
    out: &mut Writer,
    alloc: Global,
    program: &Program,
    class: Option<ClassId>,
    kind: &Kind,
)
    ensures { Adds out.old (kind_text program.now class kind.now) out.new }
{
    match kind {
        Kind::Waits => write_step(out, program, 2, class, None),
        Kind::Recurs => write_step(out, program, 3, class, None),
        Kind::FindsInitialized => write_step(out, program, 4, class, None),
        Kind::FindsErroneous => write_step(out, program, 5, class, None),
        Kind::Begins => write_step(out, program, 6, class, None),
        Kind::SuperFails(throwable) => write_step(out, program, 7, class, Some(*throwable)),
        Kind::Runs => write_step(out, program, 9, class, None),
        Kind::Completes => write_step(out, program, 10, class, None),
        Kind::Fails(throwable) => write_step(out, program, 12, class, Some(*throwable)),
        Kind::Gets { field, value } => {
            write_use(out, alloc, program, b" get ", class, *field, *value)
        }
        Kind::Puts { field, value } => {
            write_use(out, alloc, program, b" put ", class, *field, *value)
        }
        Kind::Prints(text) => write_print(out, text.as_slice()),
    }
}

fn write_line(out: &mut Writer, alloc: Global, program: &Program, number: usize, event: &Event)
    ensures { Adds out.old (line program.now number event.now) out.new }
{
    write_head(out, number, event.thread());
    match event.text() {
        Some(text) => write_print(out, text),
        None => match event.kind() {
            Ok(kind) => write_kind(out, alloc, program, event.class(), &kind),
            Err(_) => out.lose(),
        },
    }
    out.push(b"\n");
}

/// The trace of these events: a line each, numbered from 0, as docs/TRACES.md says.
///
/// An `Err` means out of memory.
pub fn write_trace(
    alloc: Global,
    program: &Program,
    events: &[Event],
) -> Result<Vec<u8>, AllocError>
    ensures { IfOk result (λ text. text.items ≡ trace_of program.now events.now) }
{
    let mut out = Writer::new(alloc);
    for (number, event) in events.iter().enumerate() {
        write_line(&mut out, alloc, program, number, event);
    }
    out.into_text()
}
