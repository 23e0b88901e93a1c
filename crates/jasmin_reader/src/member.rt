//! The lines of fields and methods.

ghost use Rattle.std.specs.Prelude.{◌≡◌, List, Ok};
ghost use Rattle.sequence.specs.Gives.{Gives, ◌>>=◌ as followed_by};
ghost use Rattle.jasmin_words.specs.Lexing.{Item, views};
ghost use Rattle.jasmin_text.specs.declared.class_text.Constant.{Constant as ConstantValue};
ghost use Rattle.jasmin_text.specs.declared.class_text.Constant.TheVariants as constants;
ghost use Rattle.jasmin_text.specs.Spellable.{is_int_type, is_string_type};
ghost use Rattle.jasmin_reader.specs.Places.{string_from};
ghost use Rattle.jasmin_reader.specs.Heads.{behind_signature as behind_signature_of, skipped_from, constant_for, value_at, field_named, field_from, method_there, method_named, method_from};

use crate::head::{Place, behind_signature, is_at_signature, no_words, read_name};
use crate::operands::number;
use crate::place::{FromWord, LineError, bad_operand, ended, fault_at, operand, string, within};
use crate::values::typed;
use descriptors::{ElementType, FieldType, MethodType};
use jasmin_text::{Access, Boxed, ClassKind, Constant, Field};
use jasmin_words::name::{MemberName, same};
use jasmin_words::{FaultKind, Token};
use sequence::{Refusal, Text};
use std::alloc::Global;

/// What follows the one signature that a field's line may have, which is skipped.
fn skip_signature<'a, 't>(tokens: &'t [Token<'a>]) -> Result<&'t [Token<'a>], LineError>
    ensures { Gives (λ x. views x.now) result (skipped_from (views tokens.now) (behind_signature_of (views tokens.now))) }
{
    match behind_signature(tokens) {
        None => Ok(tokens),
        Some(rest) => {
            let (_text, rest) = string(rest)?;
            Ok(rest)
        }
    }
}

/// Whether values of the type are ints.
fn takes_int(field_type: &FieldType) -> bool
    ensures { result ≡ is_int_type field_type.now }
{
    match &field_type.element {
        ElementType::Base(_) => field_type.dimensions == 0,
        ElementType::Class(_) => false,
    }
}

/// Whether values of the type are strings.
fn takes_string(field_type: &FieldType) -> bool
    ensures { result ≡ is_string_type field_type.now }
{
    match &field_type.element {
        ElementType::Base(_) => false,
        ElementType::Class(name) => {
            field_type.dimensions == 0 && same(name.as_slice(), b"java/lang/String")
        }
    }
}

/// A string, and what follows it.
fn text<'a, 't>(
    alloc: Global,
    tokens: &'t [Token<'a>],
) -> Result<(Constant, &'t [Token<'a>]), LineError>
    ensures { Gives (λ x. (x.0, views x.1.now)) result
        (followed_by {B = ConstantValue × List Item} (string_from (views tokens.now)) (λ s. Ok (constants.Text s.0, s.1))) }
{
    let (characters, rest) = string(tokens)?;
    let text = Boxed::new(alloc, Text::copied(alloc, characters)?)?;
    Ok((Constant::Text(text), rest))
}

/// A value of the type.
#[tactic(auto, unfolding(crate::specs::Heads::constant_for))]
fn constant<'a, 't>(
    alloc: Global,
    field_type: &FieldType,
    tokens: &'t [Token<'a>],
) -> Result<(Constant, &'t [Token<'a>]), LineError>
    ensures { Gives (λ x. (x.0, views x.1.now)) result (constant_for field_type.now (views tokens.now)) }
{
    if takes_int(field_type) {
        return number(alloc, tokens);
    }
    if takes_string(field_type) {
        return text(alloc, tokens);
    }
    match tokens {
        [] => Err(bad_operand()),
        [first, ..] => Err(Refusal::Fault(fault_at(first))),
    }
}

/// The value after a field's descriptor and its signature.
fn value_behind(
    alloc: Global,
    field_type: &FieldType,
    tokens: &[Token<'_>],
) -> Result<Option<Constant>, LineError>
    ensures { Gives (λ x. x) result (value_at field_type.now (views tokens.now)) }
{
    match tokens {
        [] => Ok(None),
        [first, rest @ ..] => match first {
            Token::Equals => {
                let (value, rest) = constant(alloc, field_type, rest)?;
                ended(rest).and(Ok(Some(value)))
            }
            _ => Err(Refusal::Fault(fault_at(first))),
        },
    }
}

/// The field with these access words and this name, whose descriptor and value follow. A descriptor is missing where a signature is
/// in its place.
#[tactic(auto, unfolding(crate::specs::Heads::described_from, crate::specs::Heads::value_from))]
fn field_behind(
    alloc: Global,
    access: Access,
    name: MemberName,
    tokens: &[Token<'_>],
) -> Result<Field, LineError>
    ensures { Gives (λ x. x) result (field_named access name (views tokens.now)) }
{
    if is_at_signature(tokens) {
        return Err(bad_operand());
    }
    let (field_type, rest) = operand::<FieldType>(alloc, tokens)?;
    let rest = skip_signature(rest)?;
    let value = value_behind(alloc, &field_type, rest)?;
    Ok(Field {
        access,
        name,
        field_type,
        value,
    })
}

/// The field after `.field`.
#[tactic(auto, unfolding(crate::specs::Heads::field_from))]
pub(crate) fn field(alloc: Global, tokens: &[Token<'_>]) -> Result<Field, LineError>
    ensures { Gives (λ x. x) result (field_from (views tokens.now)) }
{
    let named = read_name(Place::Field, no_words(ClassKind::Class), tokens)?;
    let name = MemberName::from_word(alloc, named.name)?;
    within(named.name)?;
    field_behind(alloc, named.words.access, name, named.rest)
}

/// The access words, the name and the type after `.method`.
#[derive(Drop)]
pub(crate) struct MethodHead {
    pub access: Access,
    pub name: MemberName,
    pub method_type: MethodType,
}

/// Whether such a head is allowed: its word isn't too long, an initializer of a class is static, without parameters and without a result
/// (JVMS SE 8 2.9), and nothing follows.
#[tactic(auto, unfolding(crate::specs::Heads::method_there))]
fn may_stand(head: &MethodHead, word: &[u8], rest: &[Token<'_>]) -> Result<(), LineError>
    ensures { Gives (λ _. (head.now.access, (head.now.name, head.now.method_type))) result (method_there head.now.access (head.now.name, head.now.method_type) word.now (views rest.now)) }
{
    within(word)?;
    if same(head.name.as_slice(), b"<clinit>") {
        let method_type = &head.method_type;
        let is_fit = head.access.is_static
            && method_type.parameters().is_empty()
            && method_type.result().is_none();
        if !is_fit {
            return Err(Refusal::Fault(FaultKind::BadInitializer));
        }
    }
    ended(rest)
}

/// The head of a method with these access words, by the word in the name's place and what follows it.
fn method_behind(
    alloc: Global,
    access: Access,
    word: &[u8],
    rest: &[Token<'_>],
) -> Result<MethodHead, LineError>
    ensures { Gives (λ x. (x.access, (x.name, x.method_type))) result (method_named access (word.now, views rest.now)) }
{
    let (name, method_type) = typed::<MemberName>(alloc, word)?;
    let head = MethodHead {
        access,
        name,
        method_type,
    };
    may_stand(&head, word, rest).and(Ok(head))
}

/// The access words, the name and the type after `.method`.
#[tactic(auto, unfolding(crate::specs::Heads::method_from))]
pub(crate) fn method_head(alloc: Global, tokens: &[Token<'_>]) -> Result<MethodHead, LineError>
    ensures { Gives (λ x. (x.access, (x.name, x.method_type))) result (method_from (views tokens.now)) }
{
    let named = read_name(Place::Method, no_words(ClassKind::Class), tokens)?;
    method_behind(alloc, named.words.access, named.name, named.rest)
}
