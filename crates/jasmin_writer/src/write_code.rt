//! The canonical spelling of instructions.

ghost use Rattle.std.specs.Prelude.{◌++◌, ◌∷◌, [], map};
ghost use Rattle.sequence.specs.Written.{Adds};
ghost use Rattle.std.specs.Fmt.{decimal};
ghost use Rattle.jasmin_writer.specs.Canonical.{ended, ended_all, constant_text, label_text, label_line, caught_text, range_text, handler_line, field_text, method_text, reference_text, interface_line, increment_line, case_line, default_line, instruction_lines};
ghost use Rattle.jasmin_writer.specs.CanonicalWords.{word_of as word_at};
ghost use Rattle.jasmin_text.specs.declared.form.Form.TheVariants as form;
ghost use Rattle.jasmin_text.specs.declared.instruction.Instruction.TheVariants as instruction;

use crate::keyword::{Keyword, push_keyword};
use crate::word::{base_word, word_of};
use crate::write::{push_constant, push_field_type, push_method_type};
use descriptors::ClassName;
use jasmin_text::form::Form;
use jasmin_text::{
    Call, Constant, FieldAccess, FieldReference, Handler, Instruction, Jump, Local,
    MethodReference, Plain, ReferenceType, TypeUse,
};
use jasmin_words::integer::{push_decimal, push_integer};
use sequence::{Sequence, Writer};
use std::alloc::Global;

/// Adds the word of an instruction and a space at the end.
fn push_word(text: &mut Writer, form: Form)
    ensures { Adds text.old (word_at form ++ 32 ∷ []) text.new }
{
    text.push(word_of(form));
    text.push(b" ");
}

pub(crate) fn push_number(text: &mut Writer, number: u16)
    ensures { Adds text.old (decimal number) text.new }
{
    push_integer(text, number as i32);
}

#[tactic(auto, unfolding(crate::specs::Canonical::label_text))]
fn push_label(text: &mut Writer, place: usize)
    ensures { Adds text.old (label_text place) text.new }
{
    text.push(b"L");
    push_decimal(text, place);
}

#[tactic(auto, unfolding(crate::specs::Canonical::label_line))]
pub(crate) fn push_label_line(text: &mut Writer, place: usize)
    ensures { Adds text.old (ended (label_line place)) text.new }
{
    push_label(text, place);
    text.push(b":");
    text.push(b"\n");
}

fn push_caught(text: &mut Writer, class: &Option<ClassName>)
    ensures { Adds text.old (caught_text class.now) text.new }
{
    match class {
        None => push_keyword(text, Keyword::All),
        Some(name) => text.push(name.as_slice()),
    }
}

#[tactic(auto, unfolding(crate::specs::Canonical::range_text))]
fn push_range(text: &mut Writer, handler: &Handler)
    ensures { Adds text.old (range_text handler.now) text.new }
{
    push_keyword(text, Keyword::From);
    push_label(text, handler.from as usize);
    push_keyword(text, Keyword::To);
    push_label(text, handler.to as usize);
    push_keyword(text, Keyword::Using);
    push_label(text, handler.handler as usize);
}

#[tactic(auto, unfolding(crate::specs::Canonical::handler_line))]
pub(crate) fn push_handler_line(text: &mut Writer, handler: &Handler)
    ensures { Adds text.old (ended (handler_line handler.now)) text.new }
{
    push_keyword(text, Keyword::Catch);
    push_caught(text, &handler.class);
    push_range(text, handler);
    text.push(b"\n");
}

#[tactic(auto, unfolding(crate::specs::Canonical::field_text))]
fn push_field(alloc: Global, text: &mut Writer, field: &FieldReference)
    ensures { Adds text.old (field_text field.now) text.new }
{
    text.push(field.class.as_slice());
    text.push(b"/");
    text.push(field.name.as_slice());
    text.push(b" ");
    push_field_type(alloc, text, &field.field_type);
}

#[tactic(auto, unfolding(crate::specs::Canonical::method_text))]
fn push_method(alloc: Global, text: &mut Writer, method: &MethodReference)
    ensures { Adds text.old (method_text method.now) text.new }
{
    text.push(method.class.as_slice());
    text.push(b"/");
    text.push(method.name.as_slice());
    push_method_type(alloc, text, &method.method_type);
}

fn push_reference(alloc: Global, text: &mut Writer, reference: &ReferenceType)
    ensures { Adds text.old (reference_text reference.now) text.new }
{
    match reference {
        ReferenceType::Class(name) => text.push(name.as_slice()),
        ReferenceType::Array(array) => push_field_type(alloc, text, array),
    }
}

#[tactic(auto, unfolding(crate::specs::Canonical::interface_line))]
fn push_interface_line(alloc: Global, text: &mut Writer, method: &MethodReference)
    ensures { Adds text.old (ended (interface_line method.now)) text.new }
{
    let parameters = method.method_type.parameters().len();
    let count = if parameters < 255 {
        parameters + 1
    } else {
        255
    };
    push_word(text, Form::CallInterface);
    push_method(alloc, text, method);
    text.push(b" ");
    push_number(text, count as u16);
    text.push(b"\n");
}

#[tactic(auto, unfolding(crate::specs::Canonical::increment_line))]
fn push_increment_line(text: &mut Writer, local: u16, by: i16)
    ensures { Adds text.old (ended (increment_line local by)) text.new }
{
    push_word(text, Form::Increment);
    push_number(text, local);
    text.push(b" ");
    push_integer(text, by as i32);
    text.push(b"\n");
}

#[tactic(auto, unfolding(crate::specs::Canonical::case_line))]
fn push_case_line(text: &mut Writer, case: &(i32, u16))
    ensures { Adds text.old (ended (case_line case.now)) text.new }
{
    push_integer(text, case.0);
    push_keyword(text, Keyword::Colon);
    push_label(text, case.1 as usize);
    text.push(b"\n");
}

#[tactic(auto, unfolding(crate::specs::Canonical::default_line))]
fn push_default_line(text: &mut Writer, place: u16)
    ensures { Adds text.old (ended (default_line place)) text.new }
{
    push_keyword(text, Keyword::Default);
    push_label(text, place as usize);
    text.push(b"\n");
}

fn push_place_line(text: &mut Writer, place: u16)
    ensures { Adds text.old (ended (label_text place)) text.new }
{
    push_label(text, place as usize);
    text.push(b"\n");
}

fn push_place_lines(text: &mut Writer, places: &[u16])
    ensures { Adds text.old (ended_all (map label_text places.now)) text.new }
{
    for place in places {
        push_place_line(text, *place);
    }
}

fn push_case_lines(text: &mut Writer, cases: &[(i32, u16)])
    ensures { Adds text.old (ended_all (map case_line cases.now)) text.new }
{
    for case in cases {
        push_case_line(text, case);
    }
}

#[tactic(auto, unfolding(crate::specs::Canonical::instruction_lines))]
fn push_table_switch(text: &mut Writer, low: i32, places: &Sequence<u16>, default: u16)
    ensures { Adds text.old (ended_all (instruction_lines (instruction.TableSwitch low places.now default))) text.new }
{
    push_word(text, Form::TableSwitch);
    push_integer(text, low);
    text.push(b"\n");
    push_place_lines(text, places.as_slice());
    push_default_line(text, default);
}

#[tactic(auto, unfolding(crate::specs::Canonical::instruction_lines))]
fn push_lookup_switch(text: &mut Writer, cases: &Sequence<(i32, u16)>, default: u16)
    ensures { Adds text.old (ended_all (instruction_lines (instruction.LookupSwitch cases.now default))) text.new }
{
    text.push(word_of(Form::LookupSwitch));
    text.push(b"\n");
    push_case_lines(text, cases.as_slice());
    push_default_line(text, default);
}

#[tactic(auto, unfolding(crate::specs::Canonical::instruction_lines))]
fn push_local_line(text: &mut Writer, local: Local, number: u16)
    ensures { Adds text.old (ended_all (instruction_lines (instruction.Local local number))) text.new }
{
    push_word(text, Form::Local(local));
    push_number(text, number);
    text.push(b"\n");
}

#[tactic(auto, unfolding(crate::specs::Canonical::instruction_lines))]
fn push_jump_line(text: &mut Writer, jump: Jump, place: u16)
    ensures { Adds text.old (ended_all (instruction_lines (instruction.Jump jump place))) text.new }
{
    push_word(text, Form::Jump(jump));
    push_label(text, place as usize);
    text.push(b"\n");
}

fn push_constant_line(text: &mut Writer, constant: &Constant)
    ensures { Adds text.old (ended (word_at form.Constant ++ 32 ∷ constant_text constant.now)) text.new }
{
    push_word(text, Form::Constant);
    push_constant(text, constant);
    text.push(b"\n");
}

#[tactic(auto, unfolding(crate::specs::Canonical::instruction_lines))]
fn push_field_use(alloc: Global, text: &mut Writer, access: FieldAccess, field: &FieldReference)
    ensures { Adds text.old (ended_all (instruction_lines (instruction.Field access field.now))) text.new }
{
    push_word(text, Form::Field(access));
    push_field(alloc, text, field);
    text.push(b"\n");
}

#[tactic(auto, unfolding(crate::specs::Canonical::instruction_lines))]
fn push_call(alloc: Global, text: &mut Writer, call: Call, method: &MethodReference)
    ensures { Adds text.old (ended_all (instruction_lines (instruction.Call call method.now))) text.new }
{
    push_word(text, Form::Call(call));
    push_method(alloc, text, method);
    text.push(b"\n");
}

#[tactic(auto, unfolding(crate::specs::Canonical::instruction_lines))]
fn push_type_use(alloc: Global, text: &mut Writer, type_use: TypeUse, reference: &ReferenceType)
    ensures { Adds text.old (ended_all (instruction_lines (instruction.TypeUse type_use reference.now))) text.new }
{
    push_word(text, Form::TypeUse(type_use));
    push_reference(alloc, text, reference);
    text.push(b"\n");
}

/// A line of two words.
fn push_two_words(text: &mut Writer, form: Form, operand: &[u8])
    ensures { Adds text.old (ended (word_at form ++ 32 ∷ operand.now)) text.new }
{
    push_word(text, form);
    text.push(operand);
    text.push(b"\n");
}

#[tactic(auto, unfolding(crate::specs::Canonical::instruction_lines))]
fn push_plain_line(text: &mut Writer, plain: Plain)
    ensures { Adds text.old (ended_all (instruction_lines (instruction.Plain plain))) text.new }
{
    text.push(word_of(Form::Plain(plain)));
    text.push(b"\n");
}

/// The lines of an instruction.
#[tactic(auto, unfolding(crate::specs::Canonical::instruction_lines))]
pub(crate) fn push_instruction(alloc: Global, text: &mut Writer, instruction: &Instruction<u16>)
    ensures { Adds text.old (ended_all (instruction_lines instruction.now)) text.new }
{
    match instruction {
        Instruction::Plain(plain) => push_plain_line(text, *plain),
        Instruction::Constant(constant) => push_constant_line(text, constant),
        Instruction::Local(local, number) => push_local_line(text, *local, *number),
        Instruction::Increment(local, by) => push_increment_line(text, *local, *by),
        Instruction::Jump(jump, place) => push_jump_line(text, *jump, *place),
        Instruction::TableSwitch(low, places, default) => push_table_switch(
            text,
            *low,
            places.get(),
            *default,
        ),
        Instruction::LookupSwitch(cases, default) => push_lookup_switch(
            text,
            cases.get(),
            *default,
        ),
        Instruction::Field(access, field) => push_field_use(alloc, text, *access, field.get()),
        Instruction::Call(call, method) => push_call(alloc, text, *call, method.get()),
        Instruction::CallInterface(method) => push_interface_line(alloc, text, method.get()),
        Instruction::New(class) => push_two_words(text, Form::New, class.get().as_slice()),
        Instruction::NewArray(base) => push_two_words(text, Form::NewArray, base_word(*base)),
        Instruction::TypeUse(type_use, reference) => push_type_use(
            alloc,
            text,
            *type_use,
            reference.get(),
        ),
    }
}
