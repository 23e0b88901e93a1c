//! The order in which the members of a class are searched: by name, then by type.

ghost use Rattle.std.specs.Prelude.{◌≡◌, ◌∷◌, map};
ghost use Rattle.std.specs.Ordering.{nat_cmp};
ghost use Rattle.std.specs.Cmp.Lexicographic.{slice_cmp};
ghost use Rattle.hierarchy.specs.MemberOrder.{element_numbers, type_numbers, result_numbers, field_key, method_key, key_of_field, key_of_method, key_cmp, key_at, place_cmp};

use descriptors::{ElementType, FieldType, MethodType};
use jasmin_text::{Field, Method};
use std::cmp::Ordering;

fn compare_elements(element: &ElementType, other: &ElementType) -> Ordering
    ensures { result ≡ slice_cmp nat_cmp (element_numbers element.now) (element_numbers other.now) }
{
    match (element, other) {
        (ElementType::Base(base), ElementType::Base(other)) => base.letter().cmp(&other.letter()),
        (ElementType::Base(_), ElementType::Class(_)) => Ordering::Less,
        (ElementType::Class(_), ElementType::Base(_)) => Ordering::Greater,
        (ElementType::Class(name), ElementType::Class(other)) => {
            name.as_slice().cmp(other.as_slice())
        }
    }
}

fn compare_types(field_type: &FieldType, other: &FieldType) -> Ordering
    ensures { result ≡ slice_cmp nat_cmp (type_numbers field_type.now) (type_numbers other.now) }
{
    match field_type.dimensions.cmp(&other.dimensions) {
        Ordering::Equal => compare_elements(&field_type.element, &other.element),
        decided => decided,
    }
}

/// The types of the results; void comes first.
fn compare_results(method_type: &MethodType, other: &MethodType) -> Ordering
    ensures { result ≡ slice_cmp nat_cmp (result_numbers method_type.now.result) (result_numbers other.now.result) }
{
    match (method_type.result(), other.result()) {
        (None, None) => Ordering::Equal,
        (None, Some(_)) => Ordering::Less,
        (Some(_), None) => Ordering::Greater,
        (Some(result_type), Some(other_type)) => compare_types(result_type, other_type),
    }
}

fn compare_parameters(parameters: &[FieldType], others: &[FieldType]) -> Ordering
    ensures { result ≡ key_cmp (map type_numbers parameters.now) (map type_numbers others.now) }
{
    let mut rest = parameters;
    let mut other_rest = others;
    while let [parameter, after @ ..] = rest {
        let [other, other_after @ ..] = other_rest else {
            return Ordering::Greater;
        };
        match compare_types(parameter, other) {
            Ordering::Equal => (),
            decided => return decided,
        }
        rest = after;
        other_rest = other_after;
    }
    if other_rest.is_empty() {
        Ordering::Equal
    } else {
        Ordering::Less
    }
}

fn compare_method_types(method_type: &MethodType, other: &MethodType) -> Ordering
    ensures { result ≡ key_cmp (result_numbers method_type.now.result ∷ map type_numbers method_type.now.parameters) (result_numbers other.now.result ∷ map type_numbers other.now.parameters) }
{
    match compare_results(method_type, other) {
        Ordering::Equal => compare_parameters(method_type.parameters(), other.parameters()),
        decided => decided,
    }
}

/// The field at a place beside one of that name and type; there is one.
pub(crate) fn compare_field_at(
    fields: &[Field],
    place: usize,
    name: &[u8],
    field_type: &FieldType,
) -> Ordering
    ensures { result ≡ key_cmp (key_at key_of_field fields.now place) (field_key name.now field_type.now) }
{
    match fields.get(place) {
        Some(field) => match field.name.as_slice().cmp(name) {
            Ordering::Equal => compare_types(&field.field_type, field_type),
            decided => decided,
        },
        None => Ordering::Less,
    }
}

/// The method at a place beside one of that name and type; there is one.
pub(crate) fn compare_method_at(
    methods: &[Method],
    place: usize,
    name: &[u8],
    method_type: &MethodType,
) -> Ordering
    ensures { result ≡ key_cmp (key_at key_of_method methods.now place) (method_key name.now method_type.now) }
{
    match methods.get(place) {
        Some(method) => match method.name.as_slice().cmp(name) {
            Ordering::Equal => compare_method_types(&method.method_type, method_type),
            decided => decided,
        },
        None => Ordering::Less,
    }
}

/// The fields at two places.
pub(crate) fn compare_fields_at(fields: &[Field], place: usize, other: usize) -> Ordering
    ensures { result ≡ place_cmp key_of_field fields.now place other }
{
    match fields.get(other) {
        Some(other) => { compare_field_at(fields, place, other.name.as_slice(), &other.field_type) }
        None => match fields.get(place) {
            Some(_) => Ordering::Greater,
            None => Ordering::Equal,
        },
    }
}

/// The methods at two places.
pub(crate) fn compare_methods_at(methods: &[Method], place: usize, other: usize) -> Ordering
    ensures { result ≡ place_cmp key_of_method methods.now place other }
{
    match methods.get(other) {
        Some(other) => {
            compare_method_at(methods, place, other.name.as_slice(), &other.method_type)
        }
        None => match methods.get(place) {
            Some(_) => Ordering::Greater,
            None => Ordering::Equal,
        },
    }
}
