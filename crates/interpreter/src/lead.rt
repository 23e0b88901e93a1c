//! What an instruction comes to that asks something of what lies outside of its frame.

ghost use Rattle.std.specs.Prelude.{◌≡◌};
ghost use Rattle.code.specs.IsCode.{IsCode};
ghost use Rattle.hierarchy.specs.LinkedProgram.{id as class_id};
ghost use Rattle.hierarchy.specs.declared.built_in.BuiltIn.TheVariants.{VerifyError};
ghost use Rattle.code.specs.declared.op.Op.TheVariants as op;
ghost use Rattle.interpreter.specs.Fitting.{when as allowed_by};
ghost use Rattle.frames.specs.Rows.{LeadsOut};
ghost use Rattle.interpreter.specs.Leads.{LeadsTo};

use crate::array_leads::{array_length, load, new_array, store};
use crate::call_leads::{
    call_built_in, call_interface, call_special, call_special_built_in, call_virtual, fail_special,
};
use crate::fitting::{built_in_type, is_callable, is_fit};
use crate::index::index_of;
use crate::methods::{method_code, static_type};
use crate::object_leads::{get_field, new_object, put_field};
use crate::return_leads::{return_int, return_reference};
use crate::switching::switch;
use crate::type_leads::{
    cast, cast_missing, enter_monitor, exit_monitor, instance, instance_missing, throw,
};
use code::{Code, MethodCode, Op, ResolvedType};
use frames::{Cell, FramePlace, Frames, Thrown};
use heap::Heap;
use hierarchy::{BuiltIn, BuiltInMethod, ClassId, Program, Value};

/// What an instruction comes to that asks something of what lies outside of its frame.
#[derive(Clone, Copy)]
pub(crate) enum Lead {
    /// The operand on top is taken, and the frame goes on at that place.
    Jumps(u16),
    /// In the place of so many operands it gives this one.
    Gives(usize, Cell),
    /// It takes so many operands.
    Drops(usize),
    /// It is an active use of a class, before it does anything else (JLS SE 8 12.4.1).
    Uses(ClassId),
    /// It prints, as this method does.
    Prints(BuiltInMethod),
    /// Its method returns, with this result.
    Returns(Option<Cell>),
    /// The machine throws a new object of this class.
    Throws(BuiltIn),
    /// This object is thrown.
    ThrowsObject(Thrown),
    /// An array of elements of this type and of this length is made in the place of the operand on top.
    MakesArray(ResolvedType, usize),
    /// An object of this class is made.
    MakesObject(ClassId),
    /// Two operands are taken, and a field is written: of this type, of the object of this reference, in this cell.
    PutsField(ResolvedType, u32, usize, Value),
    /// Three operands are taken, and an element is written: of the array of this reference, at this index.
    PutsElement(u32, usize, Value),
    /// A method is called, by the number of its class and its place there, with so many operands, of which the lowest is the receiver
    /// of this reference.
    Calls(usize, usize, usize, u32),
    /// The operand on top is taken, and the monitor of the object of this reference is entered.
    EntersMonitor(u32),
    /// The operand on top is taken, and the monitor of the object of this reference is left.
    ExitsMonitor(u32),
}

pub(crate) const VERIFY: Lead = Lead::Throws(BuiltIn::VerifyError);

pub(crate) const NULL: Lead = Lead::Throws(BuiltIn::NullPointerException);

/// A class by its number.
pub(crate) fn id(number: u16) -> ClassId
    ensures { result ≡ class_id number }
{
    ClassId {
        number: number as usize,
    }
}

/// What an instruction comes to whose operands are as it wants them, or aren't.
pub(crate) fn when(allowed: bool, lead: Lead) -> Lead
    ensures { result ≡ allowed_by allowed lead }
{
    if allowed { lead } else { VERIFY }
}

fn put(
    frames: &Frames,
    heap: &Heap,
    program: &Program,
    resolved: &Code,
    at: FramePlace,
    code: &MethodCode,
    class: u16,
    field: u16,
) -> Lead
    requires code { IsCode resolved.now program.now }
    ensures { LeadsTo program.now heap.now frames.now at code.now (op.PutStatic class field) result }
{
    let wanted = static_type(program, resolved, class as usize, field as usize);
    let fits = is_fit(heap, program, wanted, frames.operand(0));
    when(fits, Lead::Uses(id(class)))
}

fn call(
    frames: &Frames,
    heap: &Heap,
    program: &Program,
    resolved: &Code,
    at: FramePlace,
    code: &MethodCode,
    class: u16,
    method: u16,
) -> Lead
    requires code { IsCode resolved.now program.now }
    ensures { LeadsTo program.now heap.now frames.now at code.now (op.InvokeStatic class method) result }
{
    let callee = method_code(program, resolved, class as usize, method as usize);
    when(
        is_callable(frames, heap, program, callee),
        Lead::Uses(id(class)),
    )
}

fn put_out(
    frames: &Frames,
    heap: &Heap,
    program: &Program,
    at: FramePlace,
    code: &MethodCode,
) -> Lead
    ensures { LeadsTo program.now heap.now frames.now at code.now op.PutOut result }
{
    let stream = built_in_type(program, BuiltIn::PrintStream);
    let fits = is_fit(heap, program, Some(stream), frames.operand(0));
    when(fits, Lead::Drops(1))
}

/// What an instruction comes to that leads out of its frame. Takes no memory.
pub(crate) fn lead_of(
    frames: &Frames,
    heap: &Heap,
    program: &Program,
    resolved: &Code,
    at: FramePlace,
    code: &MethodCode,
    op: Op,
) -> Lead
    requires code { IsCode resolved.now program.now }
    requires out { LeadsOut op }
    ensures { LeadsTo program.now heap.now frames.now at code.now op result }
{
    let top = frames.operand(0);
    match op {
        Op::Switch => switch(program, at, top),
        Op::NewArray(element) => new_array(element, index_of(top)),
        Op::ArrayLength => array_length(heap, program, top),
        Op::LoadElement(kind) => load(heap, program, kind, frames.operand(1), index_of(top)),
        Op::StoreElement(kind) => {
            let index = index_of(frames.operand(1));
            store(heap, program, kind, frames.operand(2), index, top)
        }
        Op::New(class) => when(frames.has_room(), new_object(program, class)),
        Op::NewAbstract => {
            let fails = Lead::Throws(BuiltIn::InstantiationError);
            when(frames.has_room(), fails)
        }
        Op::Throw => throw(heap, program, top),
        Op::CheckCast(wanted) => cast(heap, program, wanted, top),
        Op::CheckCastMissing => cast_missing(top),
        Op::InstanceOf(wanted) => instance(heap, program, wanted, top),
        Op::InstanceOfMissing => instance_missing(top),
        Op::EnterMonitor => enter_monitor(top),
        Op::ExitMonitor => exit_monitor(top),
        Op::GetField(named, class, field) => get_field(
            heap, program, resolved, named, class, field, top,
        ),
        Op::PutField(named, class, field) => {
            let receiver = frames.operand(1);
            put_field(heap, program, resolved, named, class, field, receiver, top)
        }
        Op::GetStatic(class, _) => when(frames.has_room(), Lead::Uses(id(class))),
        Op::PutStatic(class, field) => put(frames, heap, program, resolved, at, code, class, field),
        Op::GetOut => when(frames.has_room(), Lead::Gives(0, Cell::Reference(0))),
        Op::PutOut => put_out(frames, heap, program, at, code),
        Op::InvokeStatic(class, method) => call(
            frames, heap, program, resolved, at, code, class, method,
        ),
        Op::InvokeVirtual(named, class, method) => {
            call_virtual(frames, heap, program, resolved, named, class, method)
        }
        Op::InvokeInterface(named, class, method) => {
            call_interface(frames, heap, program, resolved, named, class, method)
        }
        Op::InvokeSpecial(named, class, method) => {
            call_special(frames, heap, program, resolved, named, class, method)
        }
        Op::InvokeSpecialFails(error, named, class, method) => {
            fail_special(frames, heap, program, resolved, error, named, class, method)
        }
        Op::InvokeBuiltIn(named, method) => {
            call_built_in(frames, heap, program, resolved, at, named, method)
        }
        Op::InvokeSpecialBuiltIn(named, method) => {
            call_special_built_in(frames, heap, program, named, method)
        }
        Op::ReturnInt => return_int(frames, heap, program, at, code),
        Op::ReturnReference => return_reference(frames, heap, program, at, code),
        Op::Return => when(code.result.is_none(), Lead::Returns(None)),
        // (every other instruction stays within its frame)
        _ => unreachable!(),
    }
}
