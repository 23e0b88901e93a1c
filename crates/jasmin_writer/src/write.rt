//! The canonical spelling of a class but for the bodies of its methods.

ghost use Rattle.std.specs.Prelude.{◌≡◌, ◌+◌, length, map, IfOk};
ghost use Rattle.sequence.specs.Written.{Adds};
ghost use Rattle.std.specs.List.{flat_map};
ghost use Rattle.descriptors.specs.Spelling.{field_spelling, method_spelling};
ghost use Rattle.jasmin_writer.specs.Canonical.{ended, word_if, visibility_text, binding_text, storage_text, access_text, class_line, super_line, implements_line, constant_text, value_text, field_end, field_line, method_line, ended_all, lines_if, label_line, stack_line, locals_line, handler_line, code_places, body_lines, code_lines, optional_code_lines, method_lines, class_lines, canonical_text};
ghost use Rattle.jasmin_writer.specs.Marks.{IsMarked};

use crate::keyword::{Keyword, push_keyword};
use crate::mark::marks;
use crate::write_code::{push_handler_line, push_instruction, push_label_line, push_number};
use descriptors::{ClassName, FieldType, MethodType, write_field, write_method};
use jasmin_text::{
    Access, ClassKind, ClassParts, ClassText, Code, Constant, Field, Handler, Method,
};
use jasmin_words::integer::push_integer;
use jasmin_words::quote::push_quoted;
use sequence::Writer;
use std::alloc::{AllocError, Global};

fn push_if(text: &mut Writer, stands: bool, keyword: Keyword)
    ensures { Adds text.old (word_if stands keyword) text.new }
{
    if stands {
        push_keyword(text, keyword);
    }
}

#[tactic(auto, unfolding(crate::specs::Canonical::visibility_text))]
fn push_visibility(text: &mut Writer, access: &Access)
    ensures { Adds text.old (visibility_text access.now) text.new }
{
    push_if(text, access.public, Keyword::Public);
    push_if(text, access.private, Keyword::Private);
    push_if(text, access.protected, Keyword::Protected);
}

#[tactic(auto, unfolding(crate::specs::Canonical::binding_text))]
fn push_binding(text: &mut Writer, access: &Access)
    ensures { Adds text.old (binding_text access.now) text.new }
{
    push_if(text, access.is_static, Keyword::Static);
    push_if(text, access.is_final, Keyword::Final);
    push_if(text, access.synchronized, Keyword::Synchronized);
}

#[tactic(auto, unfolding(crate::specs::Canonical::storage_text))]
fn push_storage(text: &mut Writer, access: &Access)
    ensures { Adds text.old (storage_text access.now) text.new }
{
    push_if(text, access.volatile, Keyword::Volatile);
    push_if(text, access.transient, Keyword::Transient);
    push_if(text, access.is_abstract, Keyword::Abstract);
}

#[tactic(auto, unfolding(crate::specs::Canonical::access_text))]
fn push_access(text: &mut Writer, access: &Access)
    ensures { Adds text.old (access_text access.now) text.new }
{
    push_visibility(text, access);
    push_binding(text, access);
    push_storage(text, access);
}

pub(crate) fn push_field_type(alloc: Global, text: &mut Writer, field_type: &FieldType)
    ensures { Adds text.old (field_spelling field_type.now) text.new }
{
    match write_field(alloc, field_type) {
        Ok(spelling) => text.push(&spelling),
        Err(_) => text.lose(),
    }
}

pub(crate) fn push_method_type(alloc: Global, text: &mut Writer, method_type: &MethodType)
    ensures { Adds text.old (method_spelling method_type.now) text.new }
{
    match write_method(alloc, method_type) {
        Ok(spelling) => text.push(&spelling),
        Err(_) => text.lose(),
    }
}

#[tactic(auto, unfolding(crate::specs::Canonical::class_line))]
fn push_class_line(text: &mut Writer, kind: ClassKind, access: &Access, name: &ClassName)
    ensures { Adds text.old (ended (class_line kind access.now name.now)) text.new }
{
    match kind {
        ClassKind::Class => push_keyword(text, Keyword::Class),
        ClassKind::Interface => push_keyword(text, Keyword::Interface),
    }
    push_access(text, access);
    text.push(b" ");
    text.push(name.as_slice());
    text.push(b"\n");
}

#[tactic(auto, unfolding(crate::specs::Canonical::super_line))]
fn push_super_line(text: &mut Writer, name: &ClassName)
    ensures { Adds text.old (ended (super_line name.now)) text.new }
{
    push_keyword(text, Keyword::Super);
    text.push(name.as_slice());
    text.push(b"\n");
}

#[tactic(auto, unfolding(crate::specs::Canonical::implements_line))]
fn push_implements_line(text: &mut Writer, name: &ClassName)
    ensures { Adds text.old (ended (implements_line name.now)) text.new }
{
    push_keyword(text, Keyword::Implements);
    text.push(name.as_slice());
    text.push(b"\n");
}

#[tactic(auto, unfolding(crate::specs::Canonical::constant_text))]
pub(crate) fn push_constant(text: &mut Writer, constant: &Constant)
    ensures { Adds text.old (constant_text constant.now) text.new }
{
    match constant {
        Constant::Int(number) => push_integer(text, *number),
        Constant::Text(characters) => push_quoted(text, characters.get().as_slice()),
    }
}

fn push_value(text: &mut Writer, value: &Option<Constant>)
    ensures { Adds text.old (value_text value.now) text.new }
{
    match value {
        None => {}
        Some(constant) => {
            push_keyword(text, Keyword::Equals);
            push_constant(text, constant);
        }
    }
}

#[tactic(auto, unfolding(crate::specs::Canonical::field_end))]
fn push_field_end(alloc: Global, text: &mut Writer, field: &Field)
    ensures { Adds text.old (field_end field.now) text.new }
{
    text.push(field.name.as_slice());
    text.push(b" ");
    push_field_type(alloc, text, &field.field_type);
    push_value(text, &field.value);
}

#[tactic(auto, unfolding(crate::specs::Canonical::field_line))]
fn push_field_line(alloc: Global, text: &mut Writer, field: &Field)
    ensures { Adds text.old (ended (field_line field.now)) text.new }
{
    push_keyword(text, Keyword::Field);
    push_access(text, &field.access);
    text.push(b" ");
    push_field_end(alloc, text, field);
    text.push(b"\n");
}

#[tactic(auto, unfolding(crate::specs::Canonical::method_line))]
pub(crate) fn push_method_line(alloc: Global, text: &mut Writer, method: &Method)
    ensures { Adds text.old (ended (method_line method.now)) text.new }
{
    push_keyword(text, Keyword::Method);
    push_access(text, &method.access);
    text.push(b" ");
    text.push(method.name.as_slice());
    push_method_type(alloc, text, &method.method_type);
    text.push(b"\n");
}

#[tactic(auto, unfolding(crate::specs::Canonical::stack_line))]
fn push_stack_line(text: &mut Writer, code: &Code)
    ensures { Adds text.old (ended (stack_line code.now)) text.new }
{
    push_keyword(text, Keyword::LimitStack);
    push_number(text, code.stack);
    text.push(b"\n");
}

#[tactic(auto, unfolding(crate::specs::Canonical::locals_line))]
fn push_locals_line(text: &mut Writer, code: &Code)
    ensures { Adds text.old (ended (locals_line code.now)) text.new }
{
    push_keyword(text, Keyword::LimitLocals);
    push_number(text, code.locals);
    text.push(b"\n");
}

fn push_handlers(text: &mut Writer, handlers: &[Handler])
    ensures { Adds text.old (ended_all (map handler_line handlers.now)) text.new }
{
    for handler in handlers {
        push_handler_line(text, handler);
    }
}

fn push_interfaces(text: &mut Writer, interfaces: &[ClassName])
    ensures { Adds text.old (ended_all (map implements_line interfaces.now)) text.new }
{
    for interface in interfaces {
        push_implements_line(text, interface);
    }
}

fn push_fields(alloc: Global, text: &mut Writer, fields: &[Field])
    ensures { Adds text.old (ended_all (map field_line fields.now)) text.new }
{
    for field in fields {
        push_field_line(alloc, text, field);
    }
}

/// The line of a place's label, if a body names it.
fn push_place(text: &mut Writer, stands: bool, place: usize)
    ensures { Adds text.old (ended_all (lines_if stands (label_line place))) text.new }
{
    if stands {
        push_label_line(text, place);
    }
}

/// The instructions, each after its label.
fn push_body(alloc: Global, text: &mut Writer, code: &Code, marks: &[bool])
    requires { IsMarked (length code.now.instructions + 1) marks.now (code_places code.now) }
    ensures { Adds text.old (ended_all (body_lines (code_places code.now) 0 code.now.instructions)) text.new }
{
    let mut place: usize = 0;
    for instruction in code.instructions.as_slice() {
        push_place(text, marks[place], place);
        push_instruction(alloc, text, instruction);
        place += 1;
    }
    push_place(text, marks[place], place);
}

#[tactic(auto, unfolding(crate::specs::Canonical::code_lines))]
fn push_code(alloc: Global, text: &mut Writer, code: &Code)
    ensures { Adds text.old (ended_all (code_lines code.now)) text.new }
{
    push_stack_line(text, code);
    push_locals_line(text, code);
    push_handlers(text, code.handlers.as_slice());
    match marks(alloc, code) {
        Ok(marks) => push_body(alloc, text, code, marks.as_slice()),
        Err(_) => text.lose(),
    }
}

fn push_optional_code(alloc: Global, text: &mut Writer, code: &Option<Code>)
    ensures { Adds text.old (ended_all (optional_code_lines code.now)) text.new }
{
    match code {
        None => {}
        Some(code) => push_code(alloc, text, code),
    }
}

#[tactic(auto, unfolding(crate::specs::Canonical::method_lines))]
fn push_method_lines(alloc: Global, text: &mut Writer, method: &Method)
    ensures { Adds text.old (ended_all (method_lines method.now)) text.new }
{
    push_method_line(alloc, text, method);
    push_optional_code(alloc, text, &method.code);
    push_keyword(text, Keyword::EndMethod);
    text.push(b"\n");
}

fn push_methods(alloc: Global, text: &mut Writer, methods: &[Method])
    ensures { Adds text.old (ended_all (flat_map method_lines methods.now)) text.new }
{
    for method in methods {
        push_method_lines(alloc, text, method);
    }
}

/// The one canonical spelling of the parts of a class.
#[tactic(auto, unfolding(crate::specs::Canonical::class_lines))]
fn write_parts(alloc: Global, class: &ClassParts) -> Result<Vec<u8>, AllocError>
    ensures { IfOk result (λ text. text.items ≡ canonical_text class.now) }
{
    let mut text = Writer::new(alloc);
    push_class_line(&mut text, class.kind, &class.access, &class.name);
    push_super_line(&mut text, &class.superclass);
    push_interfaces(&mut text, class.interfaces.as_slice());
    push_fields(alloc, &mut text, class.fields.as_slice());
    push_methods(alloc, &mut text, class.methods.as_slice());
    text.into_text()
}

/// The one canonical spelling of a class: one space between words but before a label's colon, no indentation, LF at each line's end.
///
/// `.class` or `.interface` comes first, then `.super`, `.implements` lines, fields, methods. A method's
/// limits come before its handler table, that before its instructions. Each place that is named has the
/// label `L` with its number on a line of its own. An `Err` means out of memory.
pub fn write_class(alloc: Global, class: &ClassText) -> Result<Vec<u8>, AllocError>
    ensures { IfOk result (λ text. text.items ≡ canonical_text class.now) }
{
    write_parts(alloc, class.parts())
}
