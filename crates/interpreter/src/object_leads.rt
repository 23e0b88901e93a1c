//! What instructions on objects and their fields come to (JVMS SE 8 6.5 new, getfield, putfield).

ghost use Rattle.std.specs.Prelude.{◌≡◌, ◌↔◌, IsTrue, Some};
ghost use Rattle.code.specs.IsCode.{IsCode};
ghost use Rattle.hierarchy.specs.MethodResolution.{kind_of};
ghost use Rattle.jasmin_text.specs.declared.class_text.ClassKind.TheVariants as kind;
ghost use Rattle.interpreter.specs.ObjectLeads.{GetsFrom, IsHolder, MayPut, PutsIn, field_place, get_lead, held, new_lead, put_lead};

use crate::fitting::{cell_of, fits, is_kind, is_of_class, value_of};
use crate::lead::{Lead, VERIFY, id, when};
use code::{Code, ResolvedType};
use frames::Cell;
use heap::Heap;
use hierarchy::{BuiltIn, ClassId, Program};
use jasmin_text::ClassKind;

/// An instance field: its type, and its cell in objects.
#[derive(Clone, Copy)]
pub(crate) struct FieldPlace {
    pub(crate) held: ResolvedType,
    pub(crate) cell: usize,
}

pub(crate) fn new_object(program: &Program, class: u16) -> Lead
    ensures { result ≡ new_lead program.now class }
{
    if (class as usize) < program.classes().len() {
        Lead::Uses(id(class))
    } else {
        Lead::MakesObject(id(class))
    }
}

/// An instance field of a class of the files, by its place among those.
pub(crate) fn place_of(
    program: &Program,
    resolved: &Code,
    class: u16,
    field: u16,
) -> Option<FieldPlace>
    requires code { IsCode resolved.now program.now }
    ensures { result ≡ field_place program.now class field }
{
    let Some(code) = resolved.class(class as usize) else {
        return None;
    };
    let held = code.fields.as_slice().get(field as usize).copied()?;
    let cell = code.cells_above as usize + field as usize;
    Some(FieldPlace { held, cell })
}

/// Whether a class is none of the interfaces of the files.
fn is_class(program: &Program, class: ClassId) -> bool
    ensures { IsTrue result ↔ (kind_of program.now class ≡ kind.Class) }
{
    match program.class(class) {
        Some(class) => class.kind == ClassKind::Class,
        None => true,
    }
}

/// Whether a value refers to an object that has the fields which a class declares.
#[inline(always)]
pub(crate) fn is_holder(
    heap: &Heap,
    program: &Program,
    named: u16,
    class: u16,
    value: Option<Cell>,
) -> bool
    ensures { IsTrue result ↔ IsHolder program.now heap.now named class value }
{
    is_of_class(heap, program, named, value) && is_class(program, id(class))
}

fn get_by(
    heap: &Heap,
    program: &Program,
    is: bool,
    place: Option<FieldPlace>,
    receiver: Option<Cell>,
) -> Lead
    ensures { result ≡ get_lead program.now heap.now is place receiver }
{
    match (place, receiver) {
        (_, Some(Cell::Null)) => Lead::Throws(BuiltIn::NullPointerException),
        (Some(place), Some(Cell::Reference(number))) => {
            if !is {
                return VERIFY;
            }
            match heap.field(program, place.held, number, place.cell) {
                Some(value) => Lead::Gives(1, cell_of(value)),
                None => VERIFY,
            }
        }
        _ => VERIFY,
    }
}

pub(crate) fn get_field(
    heap: &Heap,
    program: &Program,
    resolved: &Code,
    named: u16,
    class: u16,
    field: u16,
    receiver: Option<Cell>,
) -> Lead
    requires code { IsCode resolved.now program.now }
    ensures { GetsFrom program.now heap.now named class field receiver result }
{
    let place = place_of(program, resolved, class, field);
    let is = is_holder(heap, program, named, class, receiver);
    get_by(heap, program, is, place, receiver)
}

#[inline(always)]
pub(crate) fn may_put(
    heap: &Heap,
    program: &Program,
    named: u16,
    class: u16,
    held: ResolvedType,
    receiver: Option<Cell>,
    value: Cell,
) -> bool
    ensures { IsTrue result ↔ MayPut program.now heap.now named class held receiver value }
{
    is_holder(heap, program, named, class, receiver) && fits(heap, program, held, value)
}

fn put_by(may: bool, place: FieldPlace, receiver: Option<Cell>, value: Cell) -> Lead
    ensures { result ≡ put_lead may place receiver value }
{
    match receiver {
        Some(Cell::Null) => {
            if is_kind(place.held, value) {
                Lead::Throws(BuiltIn::NullPointerException)
            } else {
                VERIFY
            }
        }
        Some(Cell::Reference(number)) => {
            let puts = Lead::PutsField(place.held, number, place.cell, value_of(value));
            when(may, puts)
        }
        _ => VERIFY,
    }
}

pub(crate) fn put_field(
    heap: &Heap,
    program: &Program,
    resolved: &Code,
    named: u16,
    class: u16,
    field: u16,
    receiver: Option<Cell>,
    value: Option<Cell>,
) -> Lead
    requires code { IsCode resolved.now program.now }
    ensures { PutsIn program.now heap.now named class (field_place program.now class field) receiver value result }
{
    let (Some(place), Some(value)) = (place_of(program, resolved, class, field), value) else {
        return VERIFY;
    };
    let may = may_put(heap, program, named, class, place.held, receiver, value);
    put_by(may, place, receiver, value)
}
