//! What a field or an element of a type keeps.

ghost use Rattle.std.specs.Prelude.{◌≡◌};
ghost use Rattle.heap.specs.Contents.{kept_by_type};
ghost use Rattle.heap.specs.Objects.{base_of_type, default_of_type};

use code::{Element, ResolvedType};
use descriptors::BaseType;
use hierarchy::Value;
use statics::narrowed;

/// The base type that a type is, if it is one.
fn base_of(held: ResolvedType) -> Option<BaseType>
    ensures { result ≡ base_of_type held }
{
    if held.dimensions != 0 {
        return None;
    }
    match held.element {
        Element::Base(base) => Some(base),
        _ => None,
    }
}

/// What a field or an element of a type holds until it is written (JVMS SE 8 2.3, 2.4).
pub(crate) fn default_of(held: ResolvedType) -> Value
    ensures { result ≡ default_of_type held }
{
    match base_of(held) {
        Some(_) => Value::Int(0),
        None => Value::Null,
    }
}

/// What a field or an element of a type keeps of a value.
pub(crate) fn kept_by(held: ResolvedType, value: Value) -> Value
    ensures { result ≡ kept_by_type held value }
{
    narrowed(base_of(held), value)
}
