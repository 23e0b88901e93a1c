//! What single words represent.

ghost use Rattle.std.specs.Prelude.{◌≡◌, ◌≤◌, ◌<◌, length, IfOk, IfSome};
ghost use Rattle.sequence.specs.Gives.{Gives};
ghost use Rattle.jasmin_reader.specs.Places.{IsFaultOr, lowest_with};
ghost use Rattle.jasmin_reader.specs.Operands.{integer_in, number_in, refusal_of, signature_in, typed_in, begins_with};
ghost use Rattle.jasmin_text.specs.MemberWords.{slash_in, name_len};

use crate::place::{FromWord, LineError, bad_operand};
use crate::table::{BaseWord, base_word_of};
use descriptors::{
    BaseType, ClassName, DescriptorFault, FieldType, MethodType, parse_field, parse_method,
};
use jasmin_text::{Boxed, MethodReference, ReferenceType};
use jasmin_words::FaultKind;
use jasmin_words::integer::parse_integer;
use jasmin_words::name::{MemberName, is_label};
use sequence::{Refusal, Text};
use std::alloc::Global;
use std::marker::Model;

/// An int.
pub(crate) fn integer(word: &[u8]) -> Result<i32, LineError>
    ensures { Gives (λ n. n) result (integer_in word.now) }
{
    match parse_integer(word) {
        Some(number) => Ok(number),
        None => Err(bad_operand()),
    }
}

/// A number from `low` to `high`; `above` is the fault of a greater one, `BadOperand` that of a smaller one.
#[tactic(auto, unfolding(crate::specs::Operands::number_in))]
fn number(low: u16, high: u16, above: FaultKind, word: &[u8]) -> Result<u16, LineError>
    ensures within { IfOk result (λ n. n ≤ high) }
    ensures gives { Gives (λ n. n) result (number_in low high above word.now) }
{
    let number = integer(word)?;
    if number < low as i32 {
        return Err(bad_operand());
    }
    if number <= high as i32 {
        Ok(number as u16)
    } else {
        Err(Refusal::Fault(above))
    }
}

/// A large operand, in memory of its own.
impl<T: FromWord> FromWord for Boxed<T> {
    ghost read = { T.read };

    fn from_word(alloc: Global, word: &[u8]) -> Result<Boxed<T>, LineError> {
        let value = T::from_word(alloc, word)?;
        Ok(Boxed::new(alloc, value)?)
    }
}

impl FromWord for i32 {
    ghost read = { integer_in };

    fn from_word(_alloc: Global, word: &[u8]) -> Result<i32, LineError> {
        integer(word)
    }
}

impl FromWord for i8 {
    ghost use Rattle.std.specs.Prelude.{pos};
    ghost use Rattle.jasmin_text.specs.Grammar.{byte_low};
    ghost use Rattle.jasmin_reader.specs.Operands.{int_in};

    ghost read = { int_in byte_low (pos 127) };

    #[tactic(auto, unfolding(crate::specs::Operands::int_in))]
    fn from_word(_alloc: Global, word: &[u8]) -> Result<i8, LineError> {
        let number = integer(word)?;
        if -128 <= number && number <= 127 {
            Ok(number as i8)
        } else {
            Err(bad_operand())
        }
    }
}

impl FromWord for i16 {
    ghost use Rattle.std.specs.Prelude.{pos};
    ghost use Rattle.jasmin_text.specs.Grammar.{short_low};
    ghost use Rattle.jasmin_reader.specs.Operands.{int_in};

    ghost read = { int_in short_low (pos 32767) };

    #[tactic(auto, unfolding(crate::specs::Operands::int_in))]
    fn from_word(_alloc: Global, word: &[u8]) -> Result<i16, LineError> {
        let number = integer(word)?;
        if -32_768 <= number && number <= 32_767 {
            Ok(number as i16)
        } else {
            Err(bad_operand())
        }
    }
}

impl FromWord for u16 {
    ghost use Rattle.jasmin_reader.specs.Operands.{local_in};

    ghost read = { local_in };

    fn from_word(_alloc: Global, word: &[u8]) -> Result<u16, LineError> {
        number(0, 65_535, FaultKind::BadOperand, word)
    }
}

/// A limit of a method: at most 1,024.
#[derive(Drop)]
pub(crate) struct Limit(pub u16);

impl Model for Limit {
    ghost use Rattle.std.specs.Prelude.{ℕ};

    ghost Value = { ℕ };

    ghost view = { λ l. l.0 };
}

impl FromWord for Limit {
    ghost use Rattle.jasmin_reader.specs.Operands.{limit_in};

    ghost read = { limit_in };

    fn from_word(_alloc: Global, word: &[u8]) -> Result<Limit, LineError> {
        let count = number(0, 1024, FaultKind::LimitExceeded, word)?;
        Ok(Limit(count))
    }
}

impl FromWord for u8 {
    ghost use Rattle.jasmin_reader.specs.Operands.{count_in};

    ghost read = { count_in };

    fn from_word(_alloc: Global, word: &[u8]) -> Result<u8, LineError> {
        let count = number(1, 255, FaultKind::BadOperand, word)?;
        Ok(count as u8)
    }
}

/// A label.
impl FromWord for Text {
    ghost use Rattle.jasmin_reader.specs.Operands.{label_in};

    ghost read = { label_in };

    fn from_word(alloc: Global, word: &[u8]) -> Result<Text, LineError> {
        if is_label(word) {
            Ok(Text::copied(alloc, word)?)
        } else {
            Err(bad_operand())
        }
    }
}

impl FromWord for ClassName {
    ghost use Rattle.jasmin_text.specs.MemberWords.{class_name_in};

    ghost read = { class_name_in };

    fn from_word(alloc: Global, word: &[u8]) -> Result<ClassName, LineError> {
        match ClassName::parse(alloc, word)? {
            Some(name) => Ok(name),
            None => Err(bad_operand()),
        }
    }
}

impl FromWord for MemberName {
    ghost use Rattle.jasmin_text.specs.MemberWords.{member_name_in};

    ghost read = { member_name_in };

    fn from_word(alloc: Global, word: &[u8]) -> Result<MemberName, LineError> {
        match MemberName::parse(alloc, word)? {
            Some(name) => Ok(name),
            None => Err(bad_operand()),
        }
    }
}

/// The refusal of a word that is no descriptor.
fn descriptor_error(error: Refusal<DescriptorFault>) -> LineError
    ensures { result ≡ refusal_of error }
{
    match error {
        Refusal::Memory => Refusal::Memory,
        Refusal::Fault(DescriptorFault::LeftOut) => Refusal::Fault(FaultKind::LeftOut),
        Refusal::Fault(_) => Refusal::Fault(FaultKind::BadDescriptor),
    }
}

impl FromWord for FieldType {
    ghost use Rattle.jasmin_reader.specs.Operands.{type_in};

    ghost read = { type_in };

    #[tactic(auto, unfolding(crate::specs::Operands::type_in))]
    fn from_word(alloc: Global, word: &[u8]) -> Result<FieldType, LineError> {
        match parse_field(alloc, word) {
            Ok(field_type) => Ok(field_type),
            Err(error) => Err(descriptor_error(error)),
        }
    }
}

/// The type of a method by its descriptor.
#[tactic(auto, unfolding(crate::specs::Operands::signature_in))]
fn signature(alloc: Global, word: &[u8]) -> Result<MethodType, LineError>
    ensures { Gives (λ m. m) result (signature_in word.now) }
{
    match parse_method(alloc, word) {
        Ok(method_type) => Ok(method_type),
        Err(error) => Err(descriptor_error(error)),
    }
}

/// How many bytes come before the last slash, where there is one.
fn last_slash(word: &[u8]) -> Option<usize>
    ensures value { result ≡ slash_in word.now }
    ensures within { IfSome result (λ n. n < length word.now) }
{
    let mut found = None;
    let mut place = 0;
    let mut rest = word;
    while let [byte, after @ ..] = rest {
        if *byte == b'/' {
            found = Some(place);
        }
        place += 1;
        rest = after;
    }
    found
}

/// A class and a member's name, with a slash between them.
impl FromWord for (ClassName, MemberName) {
    ghost use Rattle.jasmin_text.specs.MemberWords.{member_in};

    ghost read = { member_in };

    #[tactic(auto, unfolding(jasmin_text::specs::MemberWords::member_in))]
    fn from_word(alloc: Global, word: &[u8]) -> Result<(ClassName, MemberName), LineError> {
        let Some(slash) = last_slash(word) else {
            return Err(bad_operand());
        };
        let class = ClassName::from_word(alloc, &word[..slash])?;
        let name = MemberName::from_word(alloc, &word[slash + 1..])?;
        Ok((class, name))
    }
}

/// How many bytes come before the first `(`.
fn name_length(word: &[u8]) -> usize
    ensures value { result ≡ name_len word.now }
    ensures within { result ≤ length word.now }
{
    let mut count = 0;
    let mut rest = word;
    while let [byte, after @ ..] = rest {
        if *byte == b'(' {
            return count;
        }
        count += 1;
        rest = after;
    }
    count
}

/// The fault of a word whose name has this one; the descriptor may have a lower one.
fn fault_with(alloc: Global, kind: FaultKind, descriptor: &[u8]) -> LineError
    ensures { IsFaultOr result (lowest_with kind (signature_in descriptor.now)) }
{
    match signature(alloc, descriptor) {
        Ok(_) => Refusal::Fault(kind),
        Err(Refusal::Fault(other)) if other.number() < kind.number() => Refusal::Fault(other),
        Err(Refusal::Fault(_)) => Refusal::Fault(kind),
        Err(Refusal::Memory) => Refusal::Memory,
    }
}

/// What comes before a method's descriptor, and the type. Of two faults the lowest kind is reported.
#[tactic(auto, unfolding(crate::specs::Operands::typed_in))]
pub(crate) fn typed<T: FromWord>(alloc: Global, word: &[u8]) -> Result<(T, MethodType), LineError>
    ensures { Gives (λ x. x) result (typed_in T.read word.now) }
{
    let (name, descriptor) = word.split_at(name_length(word));
    match T::from_word(alloc, name) {
        Ok(name) => Ok((name, signature(alloc, descriptor)?)),
        Err(Refusal::Fault(kind)) => Err(fault_with(alloc, kind, descriptor)),
        Err(Refusal::Memory) => Err(Refusal::Memory),
    }
}

impl FromWord for MethodReference {
    ghost use Rattle.jasmin_reader.specs.Operands.{method_in};

    ghost read = { method_in };

    fn from_word(alloc: Global, word: &[u8]) -> Result<MethodReference, LineError> {
        let ((class, name), method_type) = typed::<(ClassName, MemberName)>(alloc, word)?;
        Ok(MethodReference {
            class,
            name,
            method_type,
        })
    }
}

impl FromWord for BaseType {
    ghost use Rattle.jasmin_reader.specs.Operands.{base_in};

    ghost read = { base_in };

    fn from_word(_alloc: Global, word: &[u8]) -> Result<BaseType, LineError> {
        match base_word_of(word) {
            Some(BaseWord::Known(base)) => Ok(base),
            Some(BaseWord::LeftOut) => Err(Refusal::Fault(FaultKind::LeftOut)),
            None => Err(bad_operand()),
        }
    }
}

/// Whether the word begins with this byte.
pub(crate) fn begins(first: u8, word: &[u8]) -> bool
    ensures { result ≡ begins_with first word.now }
{
    match word {
        [] => false,
        [byte, ..] => *byte == first,
    }
}

impl FromWord for ReferenceType {
    ghost use Rattle.jasmin_reader.specs.Operands.{reference_in};

    ghost read = { reference_in };

    #[tactic(auto, unfolding(crate::specs::Operands::reference_in))]
    fn from_word(alloc: Global, word: &[u8]) -> Result<ReferenceType, LineError> {
        if begins(b'[', word) {
            Ok(ReferenceType::Array(FieldType::from_word(alloc, word)?))
        } else {
            Ok(ReferenceType::Class(ClassName::from_word(alloc, word)?))
        }
    }
}
