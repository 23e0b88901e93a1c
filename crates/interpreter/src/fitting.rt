//! Whether values fit types.

ghost use Rattle.std.specs.Prelude.{◌≡◌, ◌↔◌, IsTrue, Some, option_copied, reverse};
ghost use Rattle.frames.specs.Activations.{operands_of};
ghost use Rattle.heap.specs.Instances.{IsInstance};
ghost use Rattle.hierarchy.specs.LinkedProgram.{id};
ghost use Rattle.hierarchy.specs.MethodResolution.{kind_of};
ghost use Rattle.interpreter.specs.Fitting.{AreOnTop, ArePlain, FitsType, HasPlainArguments, IsCallable, IsCallableOn, IsFit, IsInstanceIn, IsPlain, IsReceiver, built_in_type as type_of_built_in, cell_of as cell_of_value, exact_type as exact_type_of, is_int_type as has_ints, is_kind as is_kind_by, value_of as value_of_cell};
ghost use Rattle.jasmin_text.specs.declared.class_text.ClassKind.TheVariants as kind;
ghost use Rattle.interpreter.specs.Rows.{IsKindOf};

use code::{Element, MethodCode, ResolvedType};
use frames::{Cell, Frames};
use heap::Heap;
use hierarchy::{BuiltIn, ClassId, Program, Value};
use jasmin_text::ClassKind;

/// A built-in class as a type.
pub(crate) fn built_in_type(program: &Program, class: BuiltIn) -> ResolvedType
    ensures { result ≡ type_of_built_in program.now class }
{
    program.is_linked();
    ResolvedType {
        dimensions: 0,
        element: Element::Class(program.built_in(class).number as u16),
    }
}

/// Whether the values of a type are ints.
pub(crate) fn is_int_type(wanted: ResolvedType) -> bool
    ensures { result ≡ has_ints wanted }
{
    match wanted.element {
        Element::Base(_) => wanted.dimensions == 0,
        _ => false,
    }
}

/// Whether a value fits a type.
pub(crate) fn fits(heap: &Heap, program: &Program, wanted: ResolvedType, value: Cell) -> bool
    ensures { IsTrue result ↔ FitsType program.now heap.now wanted value }
{
    match value {
        Cell::Int(_) => is_int_type(wanted),
        Cell::Null => !is_int_type(wanted),
        Cell::Reference(number) => heap.fits(program, wanted, number),
        Cell::Unset => false,
    }
}

/// Whether there is such a type and such a value, and it fits.
pub(crate) fn is_fit(
    heap: &Heap,
    program: &Program,
    wanted: Option<ResolvedType>,
    value: Option<Cell>,
) -> bool
    ensures { IsTrue result ↔ IsFit program.now heap.now wanted value }
{
    match (wanted, value) {
        (Some(wanted), Some(value)) => fits(heap, program, wanted, value),
        _ => false,
    }
}

/// Whether there is such a type and such a value, and it is of the type's kind: an int, or a reference.
pub(crate) fn is_kind_of(wanted: Option<ResolvedType>, value: Option<Cell>) -> bool
    ensures { IsTrue result ↔ IsKindOf wanted value }
{
    match (wanted, value) {
        (Some(wanted), Some(Cell::Int(_))) => is_int_type(wanted),
        (Some(wanted), Some(Cell::Null)) => !is_int_type(wanted),
        (Some(wanted), Some(Cell::Reference(_))) => !is_int_type(wanted),
        _ => false,
    }
}

/// Whether an operand of each of these types is on top, that of the last the uppermost.
fn are_on_top(frames: &Frames, heap: &Heap, program: &Program, types: &[ResolvedType]) -> bool
    ensures { IsTrue result ↔ AreOnTop program.now heap.now (reverse types.now) (operands_of frames.now) }
{
    let mut depth = 0;
    let mut rest = types;
    while let [before @ .., last] = rest {
        if !is_fit(heap, program, Some(*last), frames.operand(depth)) {
            return false;
        }
        depth += 1;
        rest = before;
    }
    true
}

/// Whether there is such a static method, and it can be called with the operands on top.
pub(crate) fn is_callable(
    frames: &Frames,
    heap: &Heap,
    program: &Program,
    callee: Option<&MethodCode>,
) -> bool
    ensures { IsTrue result ↔ IsCallable program.now heap.now (option_copied callee.entry) (operands_of frames.now) }
{
    match callee {
        Some(code) => {
            code.parameters.len() <= code.locals as usize
                && are_on_top(frames, heap, program, code.parameters.as_slice())
        }
        None => false,
    }
}

/// Whether what a value refers to isn't asked, to know whether it fits a type.
pub(crate) fn is_plain(wanted: Option<ResolvedType>, value: Option<Cell>) -> bool
    ensures { IsTrue result ↔ IsPlain wanted value }
{
    match (wanted, value) {
        (Some(wanted), Some(Cell::Reference(_))) => matches!(wanted.element, Element::Any),
        _ => true,
    }
}

/// Whether that isn't asked of an operand for each of these types, that for the last the uppermost.
fn are_plain(frames: &Frames, types: &[ResolvedType]) -> bool
    ensures { IsTrue result ↔ ArePlain (reverse types.now) (operands_of frames.now) }
{
    let mut depth = 0;
    let mut rest = types;
    while let [before @ .., last] = rest {
        if !is_plain(Some(*last), frames.operand(depth)) {
            return false;
        }
        depth += 1;
        rest = before;
    }
    true
}

/// Whether that isn't asked of the arguments of a static method, if it is there.
pub(crate) fn has_plain_arguments(frames: &Frames, callee: Option<&MethodCode>) -> bool
    ensures { IsTrue result ↔ HasPlainArguments (option_copied callee.entry) (operands_of frames.now) }
{
    match callee {
        Some(code) => are_plain(frames, code.parameters.as_slice()),
        None => true,
    }
}

/// Whether a class or interface is an interface.
fn is_interface(program: &Program, class: u16) -> bool
    ensures { IsTrue result ↔ (kind_of program.now (id class) ≡ kind.Interface) }
{
    let class = ClassId {
        number: class as usize,
    };
    match program.class(class) {
        Some(class) => class.kind == ClassKind::Interface,
        None => false,
    }
}

/// A yes says that the reference refers to an object of this very class; a no says nothing.
#[inline(always)]
#[tactic(auto, using(crate::proofs::OfClass::of_class))]
fn is_exactly(heap: &Heap, program: &Program, class: u16, reference: u32) -> bool
    ensures { IsTrue result → IsInstance program.now heap.now (exact_type_of class) reference }
{
    match heap.class_of(program, reference) {
        Some(found) => found.number == class as usize,
        None => false,
    }
}

/// Whether a reference refers to an instance of a class or interface. It is looked at first whether that is the object's own, as it is most often.
#[inline(always)]
fn is_instance_of(heap: &Heap, program: &Program, class: u16, reference: u32) -> bool
    ensures { IsTrue result ↔ IsInstance program.now heap.now (exact_type_of class) reference }
{
    let exact = ResolvedType {
        dimensions: 0,
        element: Element::Class(class),
    };
    is_exactly(heap, program, class, reference) || heap.is_instance(program, exact, reference)
}

/// Whether a value is null, or fits the class or interface named.
fn is_receiver(heap: &Heap, program: &Program, named: u16, value: Option<Cell>) -> bool
    ensures { IsTrue result ↔ IsReceiver program.now heap.now named value }
{
    match value {
        Some(Cell::Null) => true,
        Some(Cell::Reference(number)) => {
            is_interface(program, named) || is_instance_of(heap, program, named, number)
        }
        _ => false,
    }
}

/// Whether an instance method that takes these types can be called with the operands on top.
pub(crate) fn is_callable_on(
    frames: &Frames,
    heap: &Heap,
    program: &Program,
    named: u16,
    types: &[ResolvedType],
) -> bool
    ensures { IsTrue result ↔ IsCallableOn program.now heap.now named types.now (operands_of frames.now) }
{
    are_on_top(frames, heap, program, types)
        && is_receiver(heap, program, named, frames.operand(types.len()))
}

/// Whether a value refers to an instance of a type.
pub(crate) fn is_instance_in(
    heap: &Heap,
    program: &Program,
    wanted: ResolvedType,
    value: Option<Cell>,
) -> bool
    ensures { IsTrue result ↔ IsInstanceIn program.now heap.now wanted value }
{
    match value {
        Some(Cell::Reference(number)) => heap.is_instance(program, wanted, number),
        _ => false,
    }
}

/// Whether a value refers to an instance of a class or interface.
#[inline(always)]
pub(crate) fn is_of_class(heap: &Heap, program: &Program, class: u16, value: Option<Cell>) -> bool
    ensures { IsTrue result ↔ IsInstanceIn program.now heap.now (exact_type_of class) value }
{
    match value {
        Some(Cell::Reference(number)) => is_instance_of(heap, program, class, number),
        _ => false,
    }
}

/// Whether a value is of the kind of a type: an int, or a reference.
pub(crate) fn is_kind(wanted: ResolvedType, value: Cell) -> bool
    ensures { result ≡ is_kind_by wanted value }
{
    match value {
        Cell::Int(_) => is_int_type(wanted),
        Cell::Null | Cell::Reference(_) => !is_int_type(wanted),
        Cell::Unset => false,
    }
}

/// A value as an operand.
pub(crate) fn cell_of(value: Value) -> Cell
    ensures { result ≡ cell_of_value value }
{
    match value {
        Value::Int(number) => Cell::Int(number),
        Value::Null => Cell::Null,
        Value::Reference(number) => Cell::Reference(number),
    }
}

/// An operand as a field or an element takes it.
pub(crate) fn value_of(value: Cell) -> Value
    ensures { result ≡ value_of_cell value }
{
    match value {
        Cell::Int(number) => Value::Int(number),
        Cell::Reference(number) => Value::Reference(number),
        _ => Value::Null,
    }
}
