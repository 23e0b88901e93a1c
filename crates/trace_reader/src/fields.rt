//! Static fields and their values.

ghost use Rattle.std.specs.Prelude.{◌≡◌, ◌<◌, ◌==◌, ◌++◌, ◌∷◌, filter, option_copied, Some};
ghost use Rattle.std.specs.List.{list_any};
ghost use Rattle.std.specs.Str.{bytes_eq};
ghost use Rattle.descriptors.specs.Spelling.{field_spelling, element_spelling};
ghost use Rattle.hierarchy.specs.StaticFields.{is_static_field};
ghost use Rattle.sequence.specs.Gives.{Gives};
ghost use Rattle.statics.specs.Statics.{static_fields};
ghost use Rattle.trace.specs.TraceText.{field_in_trace};
ghost use Rattle.trace_reader.specs.Fields.{field_from, field_at, value_in, value_at, reference_in};
ghost use Rattle.trace_reader.specs.Prefixes.{behind};

use crate::fault::TraceFaultKind;
use crate::numbers::{int, number};
use crate::words::{Read, same};
use descriptors::{BaseType, ElementType, FieldType};
use hierarchy::{ClassId, Program, Value};
use jasmin_text::Field;
use sequence::Refusal;
use statics::{base_of, narrowed_int};

/// The numbers of references in a trace are below this.
const MOST_REFERENCES: u32 = 1_000_000;

/// What follows these bytes at the front, if they are there.
fn behind_bytes<'a>(front: &[u8], bytes: &'a [u8]) -> Option<&'a [u8]>
    ensures { option_copied result ≡ behind front.now bytes.now }
{
    let mut wanted = front;
    let mut rest = bytes;
    while let [byte, after @ ..] = wanted {
        match rest {
            [first, behind @ ..] if *first == *byte => rest = behind,
            _ => return None,
        }
        wanted = after;
    }
    Some(rest)
}

/// Whether the bytes are these and then those.
fn are_joined(front: &[u8], back: &[u8], bytes: &[u8]) -> bool
    ensures { result ≡ bytes_eq (front.now ++ back.now) bytes.now }
{
    match behind_bytes(front, bytes) {
        Some(rest) => same(back, rest),
        None => false,
    }
}

/// Whether a word is the descriptor of an element type.
fn spells_element(element: &ElementType, word: &[u8]) -> bool
    ensures { result ≡ bytes_eq (element_spelling element.now) word.now }
{
    match element {
        ElementType::Base(base) => same(&[base.letter()], word),
        ElementType::Class(name) => match word {
            [b'L', rest @ ..] => are_joined(name.as_slice(), b";", rest),
            _ => false,
        },
    }
}

/// Whether a word is the descriptor of a type.
fn spells_type(field_type: &FieldType, word: &[u8]) -> bool
    ensures { result ≡ bytes_eq (field_spelling field_type.now) word.now }
{
    let mut rest = word;
    'dimensions: for _dimension in 0..field_type.dimensions {
        match behind_bytes(b"[", rest) {
            Some(after) => rest = after,
            None => return false,
        }
    }
    spells_element(&field_type.element, rest)
}

fn spells_type_behind_colon(field_type: &FieldType, bytes: &[u8]) -> bool
    ensures { result ≡ bytes_eq (58 ∷ field_spelling field_type.now) bytes.now }
{
    match bytes {
        [b':', rest @ ..] => spells_type(field_type, rest),
        _ => false,
    }
}

/// Whether a word is a field's name, a colon and its descriptor.
fn spells_field(field: &Field, word: &[u8]) -> bool
    ensures { result ≡ bytes_eq (field_in_trace (Some field.now)) word.now }
{
    match behind_bytes(field.name.as_slice(), word) {
        Some(rest) => spells_type_behind_colon(&field.field_type, rest),
        None => false,
    }
}

/// The static field among these that a word names: its place among the static ones, and its base type.
fn static_named(fields: &[Field], word: &[u8]) -> Option<(usize, Option<BaseType>)>
    ensures { result ≡ field_from 0 (filter is_static_field fields.now) word.now }
{
    let mut place = 0;
    let mut rest = fields;
    while let [field, after @ ..] = rest {
        if field.access.is_static {
            if spells_field(field, word) {
                return Some((place, base_of(&field.field_type)));
            }
            place += 1;
        }
        rest = after;
    }
    None
}

fn has_colon(word: &[u8]) -> bool
    ensures { result ≡ list_any (λ b. b == 58) word.now }
{
    let mut rest = word;
    while let [byte, after @ ..] = rest {
        if *byte == b':' {
            return true;
        }
        rest = after;
    }
    false
}

fn static_of(program: &Program, class: ClassId, word: &[u8]) -> Option<(usize, Option<BaseType>)>
    ensures { result ≡ field_from 0 (static_fields program.now class) word.now }
{
    static_named(program.class(class)?.fields.as_slice(), word)
}

/// The static field of the class that a word names, by its place, and its base type.
#[tactic(auto, unfolding(crate::specs::Fields::field_at))]
pub(crate) fn field(
    program: &Program,
    class: ClassId,
    word: &[u8],
) -> Read<(usize, Option<BaseType>)>
    ensures { Gives (λ f. f) result (field_at program.now class word.now) }
{
    match static_of(program, class, word) {
        Some(found) => Ok(found),
        None if has_colon(word) => Err(Refusal::Fault(TraceFaultKind::UnknownName)),
        None => Err(Refusal::Fault(TraceFaultKind::BadLine)),
    }
}

/// The int that a word spells, if a field of this base type keeps it whole.
fn kept_int(base: BaseType, word: &[u8]) -> Option<Value>
    ensures { result ≡ value_in (Some base) word.now }
{
    let number = int(word)?;
    if narrowed_int(base, number) == number {
        Some(Value::Int(number))
    } else {
        None
    }
}

fn numbered(word: &[u8]) -> Option<Value>
    ensures { result ≡ reference_in word.now }
{
    match word {
        [b'#', digits @ ..] => match number(digits) {
            Some(number) if number < MOST_REFERENCES => Some(Value::Reference(number)),
            _ => None,
        },
        _ => None,
    }
}

fn value_of(base: Option<BaseType>, word: &[u8]) -> Option<Value>
    ensures { result ≡ value_in base word.now }
{
    match base {
        Some(base) => kept_int(base, word),
        None if same(word, b"null") => Some(Value::Null),
        None => numbered(word),
    }
}

/// The value that a word spells, of a field of this base type.
#[tactic(auto, unfolding(crate::specs::Fields::value_at))]
pub(crate) fn value(base: Option<BaseType>, word: &[u8]) -> Read<Value>
    ensures { Gives (λ v. v) result (value_at base word.now) }
{
    match value_of(base, word) {
        Some(value) => Ok(value),
        None => Err(Refusal::Fault(TraceFaultKind::BadValue)),
    }
}
