//! What instructions on arrays come to (JVMS SE 8 6.5).

ghost use Rattle.std.specs.Prelude.{◌≡◌, ◌↔◌, IsTrue};
ghost use Rattle.heap.specs.Contents.{element_type};
ghost use Rattle.heap.specs.Objects.{base_of_type};
ghost use Rattle.interpreter.specs.ArrayLeads.{IsStorable, Stores, StoresIn, element_by, has_kind as has_kind_of, is_stored as is_stored_by, length_lead, load_from as load_from_array, load_lead, new_array_lead, serves as serves_elements, stored as stored_by};

use crate::fitting::{cell_of, value_of};
use crate::index::Index;
use crate::lead::{Lead, VERIFY};
use code::{Element, ElementKind, ResolvedType};
use descriptors::BaseType;
use frames::Cell;
use heap::Heap;
use hierarchy::{BuiltIn, Program, Value};

pub(crate) fn new_array(element: ResolvedType, length: Index) -> Lead
    ensures { result ≡ new_array_lead element length }
{
    match length {
        Index::NoInt => VERIFY,
        Index::Negative => Lead::Throws(BuiltIn::NegativeArraySizeException),
        Index::At(length) => Lead::MakesArray(element, length),
    }
}

pub(crate) fn array_length(heap: &Heap, program: &Program, array: Option<Cell>) -> Lead
    ensures { result ≡ length_lead program.now heap.now array }
{
    match array {
        Some(Cell::Null) => Lead::Throws(BuiltIn::NullPointerException),
        Some(Cell::Reference(number)) => match heap.length(program, number) {
            Some(length) => Lead::Gives(1, Cell::Int(length as i32)),
            None => VERIFY,
        },
        _ => VERIFY,
    }
}

/// The base type that the elements of an array are of, if they are of one.
fn base_of(element: ResolvedType) -> Option<BaseType>
    ensures { result ≡ base_of_type element }
{
    if element.dimensions != 0 {
        return None;
    }
    match element.element {
        Element::Base(base) => Some(base),
        Element::Class(_) | Element::Any => None,
    }
}

fn has_kind(kind: ElementKind, base: Option<BaseType>) -> bool
    ensures { result ≡ has_kind_of kind base }
{
    match base {
        None => matches!(kind, ElementKind::Reference),
        Some(base) => match base {
            BaseType::Int => matches!(kind, ElementKind::Int),
            BaseType::Byte | BaseType::Boolean => matches!(kind, ElementKind::Byte),
            BaseType::Char => matches!(kind, ElementKind::Char),
            BaseType::Short => matches!(kind, ElementKind::Short),
        },
    }
}

/// Whether an instruction serves arrays whose elements are of this type.
pub(crate) fn serves(kind: ElementKind, element: Option<ResolvedType>) -> bool
    ensures { result ≡ serves_elements kind element }
{
    match element {
        None => false,
        Some(element) => has_kind(kind, base_of(element)),
    }
}

/// The type of an array's elements, and the one at an index.
pub(crate) fn typed_element(
    heap: &Heap,
    program: &Program,
    array: u32,
    index: Index,
) -> (Option<ResolvedType>, Option<Value>)
    ensures held { result.0 ≡ element_type program.now heap.now array }
    ensures element { result.1 ≡ element_by program.now heap.now array index }
{
    match index {
        Index::At(index) => heap.typed_element(program, array, index),
        Index::NoInt | Index::Negative => (heap.element_type(program, array), None),
    }
}

fn load_from(
    heap: &Heap,
    program: &Program,
    kind: ElementKind,
    array: Option<Cell>,
    index: Index,
) -> Lead
    ensures { result ≡ load_from_array program.now heap.now kind array index }
{
    match array {
        Some(Cell::Null) => Lead::Throws(BuiltIn::NullPointerException),
        Some(Cell::Reference(number)) => {
            let (held, found) = typed_element(heap, program, number, index);
            if !serves(kind, held) {
                return VERIFY;
            }
            match found {
                Some(value) => Lead::Gives(2, cell_of(value)),
                None => Lead::Throws(BuiltIn::ArrayIndexOutOfBoundsException),
            }
        }
        _ => VERIFY,
    }
}

pub(crate) fn load(
    heap: &Heap,
    program: &Program,
    kind: ElementKind,
    array: Option<Cell>,
    index: Index,
) -> Lead
    ensures { result ≡ load_lead program.now heap.now kind array index }
{
    match index {
        Index::NoInt => VERIFY,
        Index::Negative | Index::At(_) => load_from(heap, program, kind, array, index),
    }
}

/// Whether a value is of the kind that an instruction stores.
pub(crate) fn is_stored(kind: ElementKind, value: Cell) -> bool
    ensures { result ≡ is_stored_by kind value }
{
    match kind {
        ElementKind::Reference => matches!(value, Cell::Null | Cell::Reference(_)),
        _ => matches!(value, Cell::Int(_)),
    }
}

/// Whether a value may be stored in an array: a reference that refers to no instance of the elements' type may not.
pub(crate) fn is_storable(heap: &Heap, program: &Program, array: u32, value: Cell) -> bool
    ensures { IsTrue result ↔ IsStorable program.now heap.now array value }
{
    match value {
        Cell::Reference(number) => match heap.element_type(program, array) {
            Some(element) => heap.is_instance(program, element, number),
            None => false,
        },
        Cell::Null | Cell::Int(_) | Cell::Unset => true,
    }
}

fn stored(fits: bool, array: u32, index: Index, old: Option<Value>, value: Cell) -> Lead
    ensures { result ≡ stored_by fits array index old value }
{
    match (index, old) {
        (Index::At(index), Some(_)) => {
            if fits {
                Lead::PutsElement(array, index, value_of(value))
            } else {
                Lead::Throws(BuiltIn::ArrayStoreException)
            }
        }
        _ => Lead::Throws(BuiltIn::ArrayIndexOutOfBoundsException),
    }
}

fn store_in(
    heap: &Heap,
    program: &Program,
    kind: ElementKind,
    array: u32,
    index: Index,
    value: Cell,
) -> Lead
    ensures { StoresIn program.now heap.now kind array index value result }
{
    let fits = is_storable(heap, program, array, value);
    let (held, old) = typed_element(heap, program, array, index);
    if is_stored(kind, value) && serves(kind, held) {
        stored(fits, array, index, old, value)
    } else {
        VERIFY
    }
}

pub(crate) fn store(
    heap: &Heap,
    program: &Program,
    kind: ElementKind,
    array: Option<Cell>,
    index: Index,
    value: Option<Cell>,
) -> Lead
    ensures { Stores program.now heap.now kind array index value result }
{
    let Some(value) = value else {
        return VERIFY;
    };
    match index {
        Index::NoInt => VERIFY,
        Index::Negative | Index::At(_) => match array {
            Some(Cell::Null) => {
                if is_stored(kind, value) {
                    Lead::Throws(BuiltIn::NullPointerException)
                } else {
                    VERIFY
                }
            }
            Some(Cell::Reference(number)) => store_in(heap, program, kind, number, index, value),
            _ => VERIFY,
        },
    }
}
