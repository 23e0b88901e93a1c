//! From types to texts.

ghost use Rattle.std.specs.Prelude.{◌≡◌, IfOk, OnOk};
ghost use Rattle.sequence.specs.Written.{Adds};
ghost use Rattle.descriptors.specs.Spelling.{element_spelling, field_spelling, method_spelling, IsElementType, IsFieldType, IsMethodType};

use crate::field::{ElementType, FieldType};
use crate::method::MethodType;
use sequence::Writer;
use std::alloc::{AllocError, Global};

/// Adds the text of an element.
fn add_element(text: &mut Writer, element: &ElementType)
    ensures text { Adds text.old (element_spelling element.now) text.new }
    ensures is_type { IsElementType element.now }
{
    match element {
        ElementType::Base(base) => text.push(&[base.letter()]),
        ElementType::Class(name) => {
            text.push(b"L");
            text.push(name.as_slice());
            text.push(b";");
        }
    }
}

/// Adds the text of a type.
fn add_field(text: &mut Writer, field: &FieldType)
    ensures text { Adds text.old (field_spelling field.now) text.new }
    ensures is_type { IsFieldType field.now }
{
    for _ in 0..field.dimensions {
        text.push(b"[");
    }
    add_element(text, &field.element);
}

/// The descriptor of the type (JVMS SE 8 4.3.2), which [`parse_field`](crate::parse_field) reads back as
/// this type. An `Err` means out of memory.
pub fn write_field(alloc: Global, field: &FieldType) -> Result<Vec<u8>, AllocError>
    ensures text { IfOk result (λ text. text.items ≡ field_spelling field.now) }
    // Each value is a type whose text is read back.
    ensures is_type { OnOk result (IsFieldType field.now) }
{
    let mut text = Writer::new(alloc);
    add_field(&mut text, field);
    text.into_text()
}

/// The descriptor of the type (JVMS SE 8 4.3.3), which [`parse_method`](crate::parse_method) reads back as
/// this type. An `Err` means out of memory.
pub fn write_method(alloc: Global, method: &MethodType) -> Result<Vec<u8>, AllocError>
    ensures text { IfOk result (λ text. text.items ≡ method_spelling method.now) }
    // Each value is a type whose text is read back.
    ensures is_type { OnOk result (IsMethodType method.now) }
{
    let mut text = Writer::new(alloc);
    text.push(b"(");
    for parameter in method.parameters() {
        add_field(&mut text, parameter);
    }
    text.push(b")");
    match method.result() {
        None => text.push(b"V"),
        Some(outcome) => add_field(&mut text, outcome),
    }
    text.into_text()
}
