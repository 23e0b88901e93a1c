//! Cases of descriptors and class names. Their heads:
//!
//! - `-- a field: Int, 2 dimensions --`, `-- a field: class a/B, 0 dimensions --`: the body is a field descriptor that
//!   spells this type, which is written so again. `-- a field: FAULT --`: its first fault, in words.
//! - `-- a method: 3 parameters --`, `-- a method: FAULT --`: the body is a method descriptor, likewise.
//! - `-- a class name --`, `-- no class name --`: the body is a word that is the name of a class or none.

use crate::text::Text;
use descriptors::{
    BaseType, ClassName, ElementType, FieldType, MethodType, is_class_name, parse_field,
    parse_method, write_field, write_method,
};
use sequence::Refusal;
use std::alloc::Global;

fn base_name(base: BaseType) -> &'static [u8] {
    match base {
        BaseType::Boolean => b"Boolean",
        BaseType::Byte => b"Byte",
        BaseType::Char => b"Char",
        BaseType::Short => b"Short",
        BaseType::Int => b"Int",
    }
}

/// Adds a field's type, where it is written as this descriptor.
fn push_field(alloc: Global, came: &mut Text, field: &FieldType, descriptor: &[u8]) {
    match write_field(alloc, field) {
        Ok(written) if written.as_slice() == descriptor => {
            match &field.element {
                ElementType::Base(base) => came.push(base_name(*base)),
                ElementType::Class(name) => {
                    came.push(b"class ");
                    came.push(name.as_slice());
                }
            }
            came.push(b", ");
            came.show(&field.dimensions);
            came.push(b" dimensions");
        }
        Ok(_) => came.push(b"written otherwise"),
        Err(_) => came.is_refused = true,
    }
}

/// Adds what a text is as a field descriptor.
pub(crate) fn push_field_answer(alloc: Global, came: &mut Text, descriptor: &[u8]) {
    came.push(b"a field: ");
    match parse_field(alloc, descriptor) {
        Ok(field) => push_field(alloc, came, &field, descriptor),
        Err(Refusal::Memory) => came.is_refused = true,
        Err(Refusal::Fault(fault)) => came.show(&fault),
    }
}

/// Adds a method's type, where it is written as this descriptor.
fn push_method(alloc: Global, came: &mut Text, method: &MethodType, descriptor: &[u8]) {
    match write_method(alloc, method) {
        Ok(written) if written.as_slice() == descriptor => {
            came.show(&method.parameters().len());
            came.push(b" parameters");
        }
        Ok(_) => came.push(b"written otherwise"),
        Err(_) => came.is_refused = true,
    }
}

/// Adds what a text is as a method descriptor.
pub(crate) fn push_method_answer(alloc: Global, came: &mut Text, descriptor: &[u8]) {
    came.push(b"a method: ");
    match parse_method(alloc, descriptor) {
        Ok(method) => push_method(alloc, came, &method, descriptor),
        Err(Refusal::Memory) => came.is_refused = true,
        Err(Refusal::Fault(fault)) => came.show(&fault),
    }
}

/// Adds whether a word is the name of a class, which this is the name of.
fn push_name(came: &mut Text, name: &ClassName, word: &[u8]) {
    if name.as_slice() == word && is_class_name(word) {
        came.push(b"a class name");
    } else {
        came.push(b"a class name of other bytes");
    }
}

/// Adds whether a word is the name of a class.
pub(crate) fn push_class_name_answer(alloc: Global, came: &mut Text, word: &[u8]) {
    match ClassName::parse(alloc, word) {
        Ok(Some(name)) => push_name(came, &name, word),
        Ok(None) if is_class_name(word) => came.push(b"a class name of other bytes"),
        Ok(None) => came.push(b"no class name"),
        Err(_) => came.is_refused = true,
    }
}
