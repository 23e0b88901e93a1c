//! Types of methods by their parts, letters, and class names. The texts are among the cases of descriptors (`cases`).

ghost use Rattle.std.specs.Prelude.{◌≡◌, length, IfOk};

use descriptors::{
    BaseType, ClassName, DescriptorFault, FieldType, MethodType, field_text_is_one,
    method_text_is_one, parse_field, write_method,
};
use sequence::{Refusal, Sequence};
use statics::base_of;
use std::alloc::{AllocError, Global};

/// The parameters `[ILa/B;`.
fn parameters(alloc: Global) -> Result<Sequence<FieldType>, Refusal<DescriptorFault>>
    ensures { IfOk result (λ parameters. length parameters ≡ 2) }
{
    let mut parameters = Sequence::new(alloc);
    parameters.push(parse_field(alloc, b"[I")?)?;
    parameters.push(parse_field(alloc, b"La/B;")?)?;
    Ok(parameters)
}

/// The method `([ILa/B;)Z`, by its parts.
fn made_of_parts(alloc: Global) -> Result<MethodType, Refusal<DescriptorFault>> {
    let outcome = parse_field(alloc, b"Z")?;
    Ok(MethodType::new(parameters(alloc)?, Some(outcome)))
}

/// Whether the text of the method is this one.
fn is_of_text(alloc: Global, method: &MethodType, text: &[u8]) -> bool {
    match write_method(alloc, method) {
        Ok(written) => written.as_slice() == text,
        Err(_) => false,
    }
}

/// Whether the method has two parameters, of which the first is of no base type, and gives a boolean.
fn is_boolean(method: &MethodType) -> bool {
    match (method.result(), method.parameters()) {
        (Some(outcome), [array, _]) => {
            base_of(outcome) == Some(BaseType::Boolean) && base_of(array).is_none()
        }
        _ => false,
    }
}

/// Whether the method by its parts is that of its text.
fn is_itself(alloc: Global) -> bool {
    match made_of_parts(alloc) {
        Ok(method) => is_boolean(&method) && is_of_text(alloc, &method, b"([ILa/B;)Z"),
        Err(_) => false,
    }
}

#[test]
fn a_method_of_parts(rt: HostRuntime) {
    assert!(rt; is_itself(rt.alloc()));
    field_text_is_one();
    method_text_is_one();
}

/// Whether these bytes are the name of a class, which has them.
fn is_name(alloc: Global, bytes: &[u8]) -> Result<bool, AllocError> {
    match ClassName::parse(alloc, bytes)? {
        Some(name) => Ok(name.as_slice() == bytes),
        None => Ok(false),
    }
}

/// Whether each of these is the letter of a type, and the type's letter.
fn are_letters(letters: &[u8]) -> bool {
    for letter in letters {
        match BaseType::of_letter(*letter) {
            Some(of) if of.letter() == *letter => {}
            _ => return false,
        }
    }
    true
}

/// Whether none of these is the letter of a type.
fn are_no_letters(bytes: &[u8]) -> bool {
    for byte in bytes {
        if BaseType::of_letter(*byte).is_some() {
            return false;
        }
    }
    true
}

#[test]
fn class_names_and_letters(rt: HostRuntime) {
    assert!(rt; is_name(rt.alloc(), b"a/B") == Ok(true));
    assert!(rt; is_name(rt.alloc(), b"a.B") == Ok(false));
    assert!(rt; are_letters(b"ZBCSI") && are_no_letters(b"VJFDLz["));
}
