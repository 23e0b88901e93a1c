//! What is printed.

ghost use Rattle.std.specs.Prelude.{◌≡◌, ◌%◌, [], true, IfOk, Some};
ghost use Rattle.sequence.specs.Written.{Adds};
ghost use Rattle.std.specs.Int.{cast_unsigned, w32};
ghost use Rattle.std.specs.Str.{is_utf8 as has_characters};
ghost use Rattle.frames.specs.declared.cell.Cell.TheVariants as cell;
ghost use Rattle.hierarchy.specs.LinkedProgram.{LinkedProgram};
ghost use Rattle.interpreter.specs.Printing.{character_of, text_of, text_by};

use frames::Cell;
use hierarchy::{BuiltInMethod, Printed, Program};
use jasmin_words::integer::push_integer;
use sequence::{Text, Writer};
use std::alloc::{AllocError, Global};

/// Writes the character of the low 16 bits of a char; a question mark for a surrogate, which is none.
fn push_character(text: &mut Writer, number: i32)
    ensures { Adds text.old (character_of (cast_unsigned w32 number % 65536)) text.new }
{
    match char::from_u32(number.cast_unsigned() % 65536) {
        Some(character) => {
            let mut buffer = [0; 4];
            text.push(character.encode_utf8(&mut buffer).as_bytes());
        }
        None => text.push(b"?"),
    }
}

fn push_int(text: &mut Writer, printed: Printed, number: i32)
    ensures { (p : LinkedProgram) → Adds text.old (text_of p printed (Some (cell.Int number))) text.new }
{
    match printed {
        Printed::Int => push_integer(text, number),
        Printed::Char => push_character(text, number),
        Printed::Boolean if number == 0 => text.push(b"false"),
        Printed::Boolean => text.push(b"true"),
        Printed::Text => {}
    }
}

fn push_null(text: &mut Writer, printed: Printed)
    ensures { (p : LinkedProgram) → Adds text.old (text_of p printed (Some cell.Null)) text.new }
{
    match printed {
        Printed::Text => text.push(b"null"),
        _ => {}
    }
}

fn push_reference(text: &mut Writer, program: &Program, printed: Printed, number: u32)
    ensures { Adds text.old (text_of program.now printed (Some (cell.Reference number))) text.new }
{
    match printed {
        Printed::Text => text.push(program.text_at(number).unwrap_or(&[])),
        _ => {}
    }
}

/// Writes a value as it is printed.
fn push_value(text: &mut Writer, program: &Program, printed: Printed, value: Option<Cell>)
    ensures { Adds text.old (text_of program.now printed value) text.new }
{
    let Some(value) = value else {
        return;
    };
    match value {
        Cell::Int(number) => push_int(text, printed, number),
        Cell::Null => push_null(text, printed),
        Cell::Reference(number) => push_reference(text, program, printed, number),
        Cell::Unset => {}
    }
}

/// What a method of java/io/PrintStream prints.
fn push_text(text: &mut Writer, program: &Program, method: BuiltInMethod, value: Option<Cell>)
    ensures { Adds text.old (text_by program.now method value) text.new }
{
    match method {
        BuiltInMethod::Print(printed) => push_value(text, program, printed, value),
        BuiltInMethod::PrintLine(printed) => {
            push_value(text, program, printed, value);
            text.push(b"\n");
        }
        BuiltInMethod::PrintLineAlone => text.push(b"\n"),
        BuiltInMethod::Init | BuiltInMethod::InitWithText => {}
    }
}

/// What a method of java/io/PrintStream prints. An `Err` means out of memory.
pub(crate) fn text(
    alloc: Global,
    program: &Program,
    method: BuiltInMethod,
    value: Option<Cell>,
) -> Result<Text, AllocError>
    ensures text { IfOk result (λ text. text ≡ text_by program.now method value) }
    ensures utf8 { IfOk result (λ text. has_characters text ≡ true) }
{
    program.is_linked();
    let mut written = Writer::new(alloc);
    push_text(&mut written, program, method, value);
    Ok(Text::from_vec(written.into_text()?))
}
