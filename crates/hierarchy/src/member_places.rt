//! Where the members of each class are found by name and type, and members that a class declares twice.

ghost use Rattle.std.specs.Prelude.{◌≡◌, IfOk, IfSome, is_none};
ghost use Rattle.hierarchy.specs.Members.{same_field_member, same_method_member, repeats};
ghost use Rattle.hierarchy.specs.MemberOrder.{key_of_field, key_of_method, AreSortedPlaces};
ghost use Rattle.hierarchy.specs.MemberPlaces.{places_below, IsPlacesResult, IsSearchResult};

use crate::class::Class;
use crate::member_order::{compare_fields_at, compare_methods_at};
use jasmin_text::{Field, Method};
use std::alloc::{AllocError, Global};

/// The places of a class's fields, and of its methods, each in the order in which they are searched. No two are equal
/// there, so a search by halves compares at most 11 of 1,024.
#[derive(Drop)]
pub(crate) struct MemberPlaces {
    /// The places of the fields.
    pub(crate) fields: Vec<usize>,
    /// The places of the methods.
    pub(crate) methods: Vec<usize>,
}

/// What a search for members that a class declares twice found.
#[derive(Drop)]
pub(crate) enum MemberSearch {
    /// The first class that declares a member twice, by its place.
    Repeated(usize),
    /// The places of each class's members, in file order.
    Places(Vec<MemberPlaces>),
}

/// All places below a number, in order.
fn all_places(alloc: Global, count: usize) -> Result<Vec<usize>, AllocError>
    ensures { IfOk result (λ places. places.items ≡ places_below count) }
{
    let mut places = Vec::with_capacity(alloc, count)?;
    for place in 0..count {
        places.push(place)?;
    }
    Ok(places)
}

/// The places of fields in their order, or none where two fields have one name and one type (JVMS SE 8 4.5).
fn field_places(alloc: Global, fields: &[Field]) -> Result<Option<Vec<usize>>, AllocError>
    ensures sorted { IfOk result (λ found. IfSome found (λ places. AreSortedPlaces key_of_field fields.now places.items)) }
    ensures repeated { IfOk result (λ found. is_none found ≡ repeats same_field_member fields.now) }
{
    let mut places = all_places(alloc, fields.len())?;
    places.sort_unstable_by(|one, other| compare_fields_at(fields, *one, *other));
    let rise = places.is_sorted_by(|one, other| compare_fields_at(fields, *one, *other).is_lt());
    if rise { Ok(Some(places)) } else { Ok(None) }
}

/// The same of methods (JVMS SE 8 4.6).
fn method_places(alloc: Global, methods: &[Method]) -> Result<Option<Vec<usize>>, AllocError>
    ensures sorted { IfOk result (λ found. IfSome found (λ places. AreSortedPlaces key_of_method methods.now places.items)) }
    ensures repeated { IfOk result (λ found. is_none found ≡ repeats same_method_member methods.now) }
{
    let mut places = all_places(alloc, methods.len())?;
    places.sort_unstable_by(|one, other| compare_methods_at(methods, *one, *other));
    let rise = places.is_sorted_by(|one, other| compare_methods_at(methods, *one, *other).is_lt());
    if rise { Ok(Some(places)) } else { Ok(None) }
}

/// The places of a class's members, or none where it declares a member twice.
fn member_places(alloc: Global, class: &Class) -> Result<Option<MemberPlaces>, AllocError>
    ensures { IfOk result (IsPlacesResult class.now) }
{
    let Some(fields) = field_places(alloc, class.fields.as_slice())? else {
        return Ok(None);
    };
    let Some(methods) = method_places(alloc, class.methods.as_slice())? else {
        return Ok(None);
    };
    Ok(Some(MemberPlaces { fields, methods }))
}

/// The first class in file order that declares a member twice; else the places of the members of each.
pub(crate) fn search_members(alloc: Global, classes: &[Class]) -> Result<MemberSearch, AllocError>
    ensures { IfOk result (IsSearchResult classes.now) }
{
    let mut all = Vec::new(alloc);
    for place in 0..classes.len() {
        let Some(places) = member_places(alloc, &classes[place])? else {
            return Ok(MemberSearch::Repeated(place));
        };
        all.push(places)?;
    }
    Ok(MemberSearch::Places(all))
}
