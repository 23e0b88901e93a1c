//! What returns with a value come to (JVMS SE 8 6.5 ireturn, areturn).

ghost use Rattle.std.specs.Prelude.{◌↔◌, IsTrue};
ghost use Rattle.code.specs.declared.op.Op.TheVariants as op;
ghost use Rattle.interpreter.specs.Leads.{IsResult, LeadsTo, MayReturn};

use crate::fitting::fits;
use crate::lead::{Lead, VERIFY, when};
use code::{MethodCode, ResolvedType};
use frames::{Cell, FramePlace, Frames};
use heap::Heap;
use hierarchy::Program;

/// Whether a method returns such a value, and its caller has room for it.
fn is_result(
    frames: &Frames,
    heap: &Heap,
    program: &Program,
    wanted: Option<ResolvedType>,
    value: Cell,
) -> bool
    ensures { IsTrue result ↔ IsResult program.now heap.now frames.now wanted value }
{
    match wanted {
        Some(wanted) => fits(heap, program, wanted, value) && frames.has_room_below(),
        None => false,
    }
}

/// Whether a method may return the operand on top here.
fn may_return(
    frames: &Frames,
    heap: &Heap,
    program: &Program,
    at: FramePlace,
    code: &MethodCode,
    value: Option<Cell>,
) -> bool
    ensures { IsTrue result ↔ MayReturn program.now heap.now frames.now at code.now value }
{
    match value {
        Some(value) => !at.is_first && is_result(frames, heap, program, code.result, value),
        None => false,
    }
}

pub(crate) fn return_int(
    frames: &Frames,
    heap: &Heap,
    program: &Program,
    at: FramePlace,
    code: &MethodCode,
) -> Lead
    ensures { LeadsTo program.now heap.now frames.now at code.now op.ReturnInt result }
{
    let value = frames.operand(0);
    let may = may_return(frames, heap, program, at, code, value);
    match value {
        Some(Cell::Int(_)) => when(may, Lead::Returns(value)),
        _ => VERIFY,
    }
}

pub(crate) fn return_reference(
    frames: &Frames,
    heap: &Heap,
    program: &Program,
    at: FramePlace,
    code: &MethodCode,
) -> Lead
    ensures { LeadsTo program.now heap.now frames.now at code.now op.ReturnReference result }
{
    let value = frames.operand(0);
    let may = may_return(frames, heap, program, at, code, value);
    match value {
        Some(Cell::Null) => when(may, Lead::Returns(value)),
        Some(Cell::Reference(_)) => when(may, Lead::Returns(value)),
        _ => VERIFY,
    }
}
