//! What is known of a static field before the program runs.

ghost use Rattle.std.specs.Prelude.{◌≡◌, pos, ◌<ℤ◌, ◌≤ℤ◌, filter, option_copied, slice_get};
ghost use Rattle.hierarchy.specs.StaticFields.{is_static_field};
ghost use Rattle.statics.specs.Statics.{base_in, default_of, signed_low, narrowed_int, narrowed as narrowed_value, constant_value, with_constant, static_field as static_field_of, static_fields, text_value};

use descriptors::{BaseType, ElementType, FieldType};
use hierarchy::{ClassId, Program, Value};
use jasmin_text::{Constant, Field};

/// A static field of one class.
#[derive(Clone, Copy)]
pub struct StaticField {
    /// The base type, or none where the field holds references.
    pub base: Option<BaseType>,
    /// What step 6 of the class's initialization gives it, where the file gives it a value (JVMS SE 8 4.7.2).
    pub constant: Option<Value>,
}

/// The base type of a field's type, or none where the field holds references.
/// The base type that a field of this type holds; none where it holds references.
pub fn base_of(field_type: &FieldType) -> Option<BaseType>
    ensures { result ≡ base_in field_type.now }
{
    match &field_type.element {
        ElementType::Base(base) => {
            if field_type.dimensions == 0 {
                Some(*base)
            } else {
                None
            }
        }
        ElementType::Class(_) => None,
    }
}

/// The low bits of an int as a number from `-half` to below `half`.
fn signed_low_bits(number: i32, half: i32) -> i32
    requires above { pos 0 <ℤ half }
    requires below { half ≤ℤ pos 32768 }
    ensures { result ≡ signed_low half number }
{
    let whole = half + half;
    let low = number.rem_euclid(whole);
    if low < half { low } else { low - whole }
}

/// What a field of a base type keeps of an int: of byte, char and short the low bits, as `i2b`, `i2c` and `i2s` do
/// (JVMS SE 8 6.5), of boolean the lowest bit. Takes no memory.
pub fn narrowed_int(base: BaseType, number: i32) -> i32
    ensures { result ≡ narrowed_int base number }
{
    match base {
        BaseType::Boolean => number.rem_euclid(2),
        BaseType::Byte => signed_low_bits(number, 128),
        BaseType::Char => number.rem_euclid(65536),
        BaseType::Short => signed_low_bits(number, 32768),
        BaseType::Int => number,
    }
}

/// What a field keeps of a value: an int is narrowed to the base type, a reference stays.
pub fn narrowed(base: Option<BaseType>, value: Value) -> Value
    ensures { result ≡ narrowed_value base value }
{
    match (base, value) {
        (Some(base), Value::Int(number)) => Value::Int(narrowed_int(base, number)),
        _ => value,
    }
}

impl StaticField {
    /// What the field holds after step 6 where it held this value before.
    pub(crate) fn with_constant(self, value: Value) -> Value
        ensures { result ≡ with_constant self value }
    {
        match self.constant {
            Some(constant) => constant,
            None => value,
        }
    }

    /// What the field holds until it is given another value (JVMS SE 8 2.3, 2.4).
    pub fn default_value(self) -> Value
        ensures { result ≡ default_of self }
    {
        match self.base {
            Some(_) => Value::Int(0),
            None => Value::Null,
        }
    }
}

/// The reference to a text.
fn reference_to(program: &Program, text: &[u8]) -> Value
    ensures { result ≡ text_value program.now text.now }
{
    match program.text_reference(text) {
        Some(number) => Value::Reference(number),
        None => Value::Null,
    }
}

/// The value of a constant as a field of that type keeps it.
fn constant_of(program: &Program, base: Option<BaseType>, constant: &Constant) -> Value
    ensures { result ≡ constant_value program.now base constant.now }
{
    match constant {
        Constant::Int(number) => narrowed(base, Value::Int(*number)),
        Constant::Text(text) => reference_to(program, text.get().as_slice()),
    }
}

/// The static field of that place among those of a class, from 0, if it has one.
pub fn static_field_at(program: &Program, class: ClassId, place: usize) -> Option<&Field>
    ensures { option_copied result ≡ slice_get (static_fields program.now class) place }
{
    static_among(program.class(class)?.fields.as_slice(), place)
}

/// The static field of that place among the static ones of these.
fn static_among(fields: &[Field], place: usize) -> Option<&Field>
    ensures { option_copied result ≡ slice_get (filter is_static_field fields.now) place }
{
    let mut before = place;
    let mut rest = fields;
    while let [field, after @ ..] = rest {
        if field.access.is_static {
            if before == 0 {
                return Some(field);
            }
            before -= 1;
        }
        rest = after;
    }
    None
}

/// What is known of a field.
pub(crate) fn static_field(program: &Program, field: &Field) -> StaticField
    ensures { result ≡ static_field_of program.now field.now }
{
    let base = base_of(&field.field_type);
    let constant = match &field.value {
        Some(constant) => Some(constant_of(program, base, constant)),
        None => None,
    };
    StaticField { base, constant }
}
