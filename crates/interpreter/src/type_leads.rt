//! What checks of types, athrow and the words on monitors come to (JVMS SE 8 6.5).

ghost use Rattle.std.specs.Prelude.{◌≡◌, ◌↔◌, IsTrue};
ghost use Rattle.interpreter.specs.TypeLeads.{Casts, IsThrowableIn, TellsInstance, ThrowsFrom, missing_cast_lead, missing_instance_lead, monitor_lead, throw_lead};
ghost use Rattle.interpreter.specs.declared.lead.Lead.TheVariants as lead;

use crate::fitting::is_instance_in;
use crate::lead::{Lead, VERIFY};
use crate::says::is_throwable;
use code::ResolvedType;
use frames::{Cell, Thrown};
use heap::Heap;
use hierarchy::{BuiltIn, Program};

pub(crate) fn cast(
    heap: &Heap,
    program: &Program,
    wanted: ResolvedType,
    value: Option<Cell>,
) -> Lead
    ensures { Casts program.now heap.now wanted value result }
{
    let is = is_instance_in(heap, program, wanted, value);
    match value {
        Some(Cell::Null) => Lead::Drops(0),
        Some(Cell::Reference(_)) => {
            if is {
                Lead::Drops(0)
            } else {
                Lead::Throws(BuiltIn::ClassCastException)
            }
        }
        _ => VERIFY,
    }
}

pub(crate) fn cast_missing(value: Option<Cell>) -> Lead
    ensures { result ≡ missing_cast_lead value }
{
    match value {
        Some(Cell::Null) => Lead::Drops(0),
        _ => Lead::Throws(BuiltIn::NoClassDefFoundError),
    }
}

pub(crate) fn instance(
    heap: &Heap,
    program: &Program,
    wanted: ResolvedType,
    value: Option<Cell>,
) -> Lead
    ensures { TellsInstance program.now heap.now wanted value result }
{
    let is = is_instance_in(heap, program, wanted, value);
    match value {
        Some(Cell::Null) => Lead::Gives(1, Cell::Int(0)),
        Some(Cell::Reference(_)) => {
            if is {
                Lead::Gives(1, Cell::Int(1))
            } else {
                Lead::Gives(1, Cell::Int(0))
            }
        }
        _ => VERIFY,
    }
}

pub(crate) fn instance_missing(value: Option<Cell>) -> Lead
    ensures { result ≡ missing_instance_lead value }
{
    match value {
        Some(Cell::Null) => Lead::Gives(1, Cell::Int(0)),
        _ => Lead::Throws(BuiltIn::NoClassDefFoundError),
    }
}

/// Whether a value refers to a throwable.
fn is_throwable_in(heap: &Heap, program: &Program, value: Option<Cell>) -> bool
    ensures { IsTrue result ↔ IsThrowableIn program.now heap.now value }
{
    match value {
        Some(Cell::Reference(number)) => match heap.class_of(program, number) {
            Some(class) => is_throwable(program, class),
            None => false,
        },
        _ => false,
    }
}

fn throw_by(heap: &Heap, program: &Program, is: bool, value: Option<Cell>) -> Lead
    ensures { result ≡ throw_lead program.now heap.now is value }
{
    match value {
        Some(Cell::Null) => Lead::Throws(BuiltIn::NullPointerException),
        Some(Cell::Reference(reference)) => {
            if !is {
                return VERIFY;
            }
            match heap.class_of(program, reference) {
                Some(class) => Lead::ThrowsObject(Thrown { reference, class }),
                None => VERIFY,
            }
        }
        _ => VERIFY,
    }
}

pub(crate) fn throw(heap: &Heap, program: &Program, value: Option<Cell>) -> Lead
    ensures { ThrowsFrom program.now heap.now value result }
{
    throw_by(heap, program, is_throwable_in(heap, program, value), value)
}

pub(crate) fn enter_monitor(value: Option<Cell>) -> Lead
    ensures { result ≡ monitor_lead value (λ r. lead.EntersMonitor r) }
{
    match value {
        Some(Cell::Null) => Lead::Throws(BuiltIn::NullPointerException),
        Some(Cell::Reference(number)) => Lead::EntersMonitor(number),
        _ => VERIFY,
    }
}

pub(crate) fn exit_monitor(value: Option<Cell>) -> Lead
    ensures { result ≡ monitor_lead value (λ r. lead.ExitsMonitor r) }
{
    match value {
        Some(Cell::Null) => Lead::Throws(BuiltIn::NullPointerException),
        Some(Cell::Reference(number)) => Lead::ExitsMonitor(number),
        _ => VERIFY,
    }
}
