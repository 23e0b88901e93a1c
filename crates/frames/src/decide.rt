//! What an instruction does to its frame.

ghost use Rattle.std.specs.Prelude.{◌<◌, ◌≤◌, ◌+◌, ◌^◌, length};
ghost use Rattle.frames.specs.Frame.{frame_in};
ghost use Rattle.frames.specs.Rows.{Decides, row};

use crate::cell::Cell;
use crate::ints::{decide_arithmetic, decide_bits};
use crate::jumps::{decide_jump_on_one, decide_jump_on_two};
use crate::moves::decide_move;
use crate::values::decide_value;
use code::Op;
use hierarchy::BuiltIn;

/// What an instruction comes to. All but `Done` leave the frame as it is.
#[derive(Clone, Copy)]
pub(crate) enum Flow {
    /// The instruction is done.
    Done,
    /// The machine throws a new object of this class.
    Throws(BuiltIn),
    /// It asks something of what lies outside of its frame.
    LeadsOut,
}

/// The machine throws a VerifyError.
pub(crate) const VERIFY: Flow = Flow::Throws(BuiltIn::VerifyError);

/// Decides an instruction on its frame. Takes no memory.
#[inline(always)]
pub(crate) fn decide(
    op: Op,
    locals: &mut [Cell],
    stack: &mut [Cell],
    limit: usize,
    top: &mut usize,
    place: &mut usize,
) -> Flow
    requires within { top.old ≤ length stack.old }
    requires limit { limit ≤ length stack.old }
    requires place { place.old + 1 < 2 ^ 64 }
    ensures decided { Decides (row op) (frame_in locals.old stack.old limit top.old place.old) result (frame_in locals.new stack.new limit top.new place.new) }
    ensures within { top.new ≤ length stack.new }
{
    match op {
        Op::Nop => {
            *place += 1;
            Flow::Done
        }
        Op::Goto(to) => {
            *place = to as usize;
            Flow::Done
        }
        Op::Fails(error) => Flow::Throws(error),
        Op::PushNull
        | Op::PushInt(_)
        | Op::PushText(_)
        | Op::LoadInt(_)
        | Op::LoadReference(_)
        | Op::StoreInt(_)
        | Op::StoreReference(_)
        | Op::Increment(_, _) => decide_value(op, locals, stack, limit, top, place),
        Op::Pop
        | Op::Pop2
        | Op::Dup
        | Op::DupX1
        | Op::DupX2
        | Op::Dup2
        | Op::Dup2X1
        | Op::Dup2X2
        | Op::Swap => decide_move(op, locals, stack, limit, top, place),
        Op::Add | Op::Subtract | Op::Multiply | Op::Divide | Op::Remainder | Op::Negate =>
            decide_arithmetic(op, locals, stack, limit, top, place),
        Op::And
        | Op::Or
        | Op::ExclusiveOr
        | Op::ShiftLeft
        | Op::ShiftRight
        | Op::ShiftRightUnsigned
        | Op::ToByte
        | Op::ToChar
        | Op::ToShort => decide_bits(op, locals, stack, limit, top, place),
        Op::IfZero(_)
        | Op::IfNotZero(_)
        | Op::IfNegative(_)
        | Op::IfNotNegative(_)
        | Op::IfPositive(_)
        | Op::IfNotPositive(_)
        | Op::IfNull(_)
        | Op::IfNonNull(_) => decide_jump_on_one(op, locals, stack, limit, top, place),
        Op::IfEqual(_)
        | Op::IfNotEqual(_)
        | Op::IfLess(_)
        | Op::IfNotLess(_)
        | Op::IfGreater(_)
        | Op::IfNotGreater(_)
        | Op::IfSame(_)
        | Op::IfNotSame(_) => decide_jump_on_two(op, locals, stack, limit, top, place),
        Op::Switch | Op::ReturnInt | Op::ReturnReference | Op::Return => Flow::LeadsOut,
        Op::NewArray(_) | Op::ArrayLength | Op::LoadElement(_) | Op::StoreElement(_) =>
            Flow::LeadsOut,
        Op::New(_) | Op::NewAbstract | Op::GetField(_, _, _) | Op::PutField(_, _, _) =>
            Flow::LeadsOut,
        Op::Throw | Op::EnterMonitor | Op::ExitMonitor => Flow::LeadsOut,
        Op::CheckCast(_) | Op::CheckCastMissing | Op::InstanceOf(_) | Op::InstanceOfMissing => {
            Flow::LeadsOut
        }
        Op::GetStatic(_, _) | Op::PutStatic(_, _) | Op::GetOut | Op::PutOut => Flow::LeadsOut,
        Op::InvokeStatic(_, _) | Op::InvokeVirtual(_, _, _) | Op::InvokeInterface(_, _, _) => {
            Flow::LeadsOut
        }
        Op::InvokeSpecial(_, _, _) | Op::InvokeSpecialFails(_, _, _, _) => Flow::LeadsOut,
        Op::InvokeBuiltIn(_, _) | Op::InvokeSpecialBuiltIn(_, _) => Flow::LeadsOut,
    }
}
