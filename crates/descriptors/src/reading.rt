//! From texts to types.

ghost use Rattle.std.specs.Prelude.{◌≡◌, ◌≤◌, length, IfOk, Ok};
ghost use Rattle.descriptors.specs.Signature.{Signature};
ghost use Rattle.descriptors.specs.Spelling.{field_spelling, method_spelling, IsFieldType, IsMethodType};
ghost use Rattle.sequence.specs.Gives.{Gives};
ghost use Rattle.descriptors.specs.Reading.{name_len, class_at, element_at, array_at, field_at, field_of_text, parameters_at, result_at, signature_at, method_of_text};

use crate::base::BaseType;
use crate::class_name::ClassName;
use crate::fault::DescriptorFault;
use crate::field::{ElementType, FieldType};
use crate::method::MethodType;
use sequence::{Refusal, Sequence};
use std::alloc::Global;

type Read<'a, T> = Result<(T, &'a [u8]), Refusal<DescriptorFault>>;

fn name_length(bytes: &[u8]) -> usize
    ensures value { result ≡ name_len bytes.now }
    ensures within { result ≤ length bytes.now }
{
    let mut count = 0;
    let mut rest = bytes;
    while let [byte, after @ ..] = rest {
        if *byte == b';' {
            return count;
        }
        count += 1;
        rest = after;
    }
    count
}

/// After an `L`: a class name and the bytes after its `;`.
#[tactic(auto, unfolding(crate::specs::Reading::class_at))]
fn class_of(alloc: Global, bytes: &[u8]) -> Read<'_, ClassName>
    ensures { Gives (λ x. (x.0, x.1.now)) result (class_at bytes.now) }
{
    let (text, rest) = bytes.split_at(name_length(bytes));
    match rest {
        [] => Err(Refusal::Fault(DescriptorFault::Unfinished)),
        [_, after @ ..] => match ClassName::parse(alloc, text)? {
            Some(name) => Ok((name, after)),
            None => Err(Refusal::Fault(DescriptorFault::Unfinished)),
        },
    }
}

/// A type that is no array, and the bytes after it.
#[tactic(auto, unfolding(crate::specs::Reading::element_at))]
fn element_of(alloc: Global, bytes: &[u8]) -> Read<'_, ElementType>
    ensures { Gives (λ x. (x.0, x.1.now)) result (element_at bytes.now) }
{
    match bytes {
        [] => Err(Refusal::Fault(DescriptorFault::Unfinished)),
        [b'L', after @ ..] => {
            let (name, rest) = class_of(alloc, after)?;
            Ok((ElementType::Class(name), rest))
        }
        [b'J' | b'F' | b'D', ..] => Err(Refusal::Fault(DescriptorFault::LeftOut)),
        [letter, after @ ..] => match BaseType::of_letter(*letter) {
            Some(base) => Ok((ElementType::Base(base), after)),
            None => Err(Refusal::Fault(DescriptorFault::UnknownLetter)),
        },
    }
}

/// A type, and the bytes after it.
#[tactic(auto, unfolding(crate::specs::Reading::array_at))]
fn field_of(alloc: Global, bytes: &[u8]) -> Read<'_, FieldType>
    ensures { Gives (λ x. (x.0, x.1.now)) result (field_at bytes.now) }
{
    let mut dimensions: u8 = 0;
    let mut rest = bytes;
    while let [first, after @ ..] = rest {
        if *first != b'[' {
            let (element, behind) = element_of(alloc, rest)?;
            return Ok((
                FieldType {
                    dimensions,
                    element,
                },
                behind,
            ));
        }
        if dimensions == u8::MAX {
            return Err(Refusal::Fault(DescriptorFault::TooManyDimensions));
        }
        dimensions += 1;
        rest = after;
    }
    Err(Refusal::Fault(DescriptorFault::Unfinished))
}

/// The parameters up to the `)`, and the bytes after it.
fn parameters_of(alloc: Global, bytes: &[u8]) -> Read<'_, Sequence<FieldType>>
    ensures read { Gives (λ x. (x.0, x.1.now)) result (parameters_at 255 bytes.now) }
    ensures limit { IfOk result (λ x. length x.0 ≤ 255) }
{
    let mut parameters = Sequence::new(alloc);
    let mut rest = bytes;
    while let [first, after @ ..] = rest {
        if *first == b')' {
            return Ok((parameters, after));
        }
        let (parameter, behind) = field_of(alloc, rest)?;
        if parameters.len() == 255 {
            return Err(Refusal::Fault(DescriptorFault::TooManyParameters));
        }
        parameters.push(parameter)?;
        rest = behind;
    }
    Err(Refusal::Fault(DescriptorFault::Unfinished))
}

/// `V` or a type, and the bytes after it.
#[tactic(auto, unfolding(crate::specs::Reading::result_at))]
fn result_of(alloc: Global, bytes: &[u8]) -> Read<'_, Option<FieldType>>
    ensures { Gives (λ x. (x.0, x.1.now)) result (result_at bytes.now) }
{
    match bytes {
        [] => Err(Refusal::Fault(DescriptorFault::Unfinished)),
        [b'V', after @ ..] => Ok((None, after)),
        _ => {
            let (outcome, after) = field_of(alloc, bytes)?;
            Ok((Some(outcome), after))
        }
    }
}

#[tactic(auto, unfolding(crate::specs::Reading::field_of_text))]
fn whole_field(alloc: Global, bytes: &[u8]) -> Result<FieldType, Refusal<DescriptorFault>>
    ensures { Gives (λ x. x) result (field_of_text bytes.now) }
{
    if bytes.is_empty() {
        return Err(Refusal::Fault(DescriptorFault::Empty));
    }
    let (field, rest) = field_of(alloc, bytes)?;
    match rest {
        [] => Ok(field),
        [_, ..] => Err(Refusal::Fault(DescriptorFault::BytesLeftOver)),
    }
}

#[tactic(auto, unfolding(crate::specs::Reading::signature_at))]
fn signature_of(alloc: Global, bytes: &[u8]) -> Result<MethodType, Refusal<DescriptorFault>>
    ensures { Gives (λ x. x) result (signature_at bytes.now) }
{
    let (parameters, rest) = parameters_of(alloc, bytes)?;
    let (outcome, rest) = result_of(alloc, rest)?;
    match rest {
        [] => Ok(MethodType::new(parameters, outcome)),
        [_, ..] => Err(Refusal::Fault(DescriptorFault::BytesLeftOver)),
    }
}

#[tactic(auto, unfolding(crate::specs::Reading::method_of_text))]
fn whole_method(alloc: Global, bytes: &[u8]) -> Result<MethodType, Refusal<DescriptorFault>>
    ensures { Gives (λ x. x) result (method_of_text bytes.now) }
{
    match bytes {
        [] => Err(Refusal::Fault(DescriptorFault::Empty)),
        [b'(', after @ ..] => signature_of(alloc, after),
        [_, ..] => Err(Refusal::Fault(DescriptorFault::UnknownLetter)),
    }
}

/// The field type that the bytes spell, all of them (JVMS SE 8 4.3.2).
///
/// A text that is no field descriptor is refused with its first fault from the left; see
/// [`DescriptorFault`]. [`Refusal::Memory`] may come before any fault of the text.
pub fn parse_field(alloc: Global, bytes: &[u8]) -> Result<FieldType, Refusal<DescriptorFault>>
    // What is read is a type, and the bytes are its text.
    ensures found { IfOk result (λ field. IsFieldType field × (bytes.now ≡ field_spelling field)) }
    // What is a type's text is read as that type, unless memory runs out.
    ensures only { (field : FieldType) → IsFieldType field → bytes.now ≡ field_spelling field → Gives (λ x. x) result (Ok field) }
    // Which fault it is.
    ensures exact { Gives (λ x. x) result (field_of_text bytes.now) }
{
    whole_field(alloc, bytes)
}

/// The method type that the bytes spell, all of them (JVMS SE 8 4.3.3).
///
/// A text that is no method descriptor is refused with its first fault from the left; see
/// [`DescriptorFault`]. [`Refusal::Memory`] may come before any fault of the text.
pub fn parse_method(alloc: Global, bytes: &[u8]) -> Result<MethodType, Refusal<DescriptorFault>>
    // What is read is a type, and the bytes are its text.
    ensures found { IfOk result (λ method. IsMethodType method × (bytes.now ≡ method_spelling method)) }
    // What is a type's text is read as that type, unless memory runs out.
    ensures only { (method : Signature) → IsMethodType method → bytes.now ≡ method_spelling method → Gives (λ x. x) result (Ok method) }
    // Which fault it is.
    ensures exact { Gives (λ x. x) result (method_of_text bytes.now) }
{
    whole_method(alloc, bytes)
}
