//! Ints are computed with (JVMS SE 8 6.5).

ghost use Rattle.std.specs.Prelude.{◌≡◌, ◌≢◌, ◌<◌, ◌≤◌, ◌+◌, ◌^◌, length, pos, true};
ghost use Rattle.frames.specs.Frame.{frame_in};
ghost use Rattle.frames.specs.Kinds.{is_arithmetic, is_of_bits};
ghost use Rattle.frames.specs.Rows.{Decides, row, computes, divides, converts, result_of, quotient_of, converted};

use crate::cell::Cell;
use crate::decide::{Flow, VERIFY};
use crate::operands::{replace_top, replace_two, top_int, top_ints};
use crate::words::{Arithmetic, Conversion, Division};
use code::Op;
use descriptors::BaseType;
use hierarchy::BuiltIn;
use statics::narrowed_int;

#[inline(always)]
pub(crate) fn result_of(word: Arithmetic, a: i32, b: i32) -> i32
    ensures { result ≡ result_of word a b }
{
    match word {
        Arithmetic::Add => a.wrapping_add(b),
        Arithmetic::Subtract => a.wrapping_sub(b),
        Arithmetic::Multiply => a.wrapping_mul(b),
        Arithmetic::And => a & b,
        Arithmetic::Or => a | b,
        Arithmetic::ExclusiveOr => a ^ b,
        Arithmetic::ShiftLeft => a.wrapping_shl(b.cast_unsigned()),
        Arithmetic::ShiftRight => a.wrapping_shr(b.cast_unsigned()),
        Arithmetic::ShiftRightUnsigned => {
            a.cast_unsigned()
                .wrapping_shr(b.cast_unsigned())
                .cast_signed()
        },
    }
}

/// Two ints are computed with.
#[inline(always)]
fn compute(
    locals: &[Cell],
    stack: &mut [Cell],
    limit: usize,
    top: &mut usize,
    place: &mut usize,
    word: Arithmetic,
) -> Flow
    requires within { top.old ≤ length stack.old }
    requires place { place.old + 1 < 2 ^ 64 }
    ensures decided { Decides (λ f. computes f word) (frame_in locals.now stack.old limit top.old place.old) result (frame_in locals.now stack.new limit top.new place.new) }
    ensures within { top.new ≤ length stack.new }
{
    let Some((a, b)) = top_ints(stack, *top) else {
        return VERIFY;
    };
    replace_two(stack, *top, Cell::Int(result_of(word, a, b)));
    *top -= 1;
    *place += 1;
    Flow::Done
}

#[inline(always)]
fn quotient_of(word: Division, a: i32, b: i32) -> i32
    requires { b ≢ pos 0 }
    ensures { result ≡ quotient_of word a b }
{
    match word {
        Division::Divide => a.wrapping_div(b),
        Division::Remainder => a.wrapping_rem(b),
    }
}

/// `idiv` or `irem`
#[inline(always)]
fn divide(
    locals: &[Cell],
    stack: &mut [Cell],
    limit: usize,
    top: &mut usize,
    place: &mut usize,
    word: Division,
) -> Flow
    requires within { top.old ≤ length stack.old }
    requires place { place.old + 1 < 2 ^ 64 }
    ensures decided { Decides (λ f. divides f word) (frame_in locals.now stack.old limit top.old place.old) result (frame_in locals.now stack.new limit top.new place.new) }
    ensures within { top.new ≤ length stack.new }
{
    let Some((a, b)) = top_ints(stack, *top) else {
        return VERIFY;
    };
    if b == 0 {
        return Flow::Throws(BuiltIn::ArithmeticException);
    }
    replace_two(stack, *top, Cell::Int(quotient_of(word, a, b)));
    *top -= 1;
    *place += 1;
    Flow::Done
}

#[inline(always)]
fn converted(word: Conversion, a: i32) -> i32
    ensures { result ≡ converted word a }
{
    match word {
        Conversion::Negate => a.wrapping_neg(),
        Conversion::ToByte => narrowed_int(BaseType::Byte, a),
        Conversion::ToChar => narrowed_int(BaseType::Char, a),
        Conversion::ToShort => narrowed_int(BaseType::Short, a),
    }
}

/// An int is converted.
#[inline(always)]
fn convert(
    locals: &[Cell],
    stack: &mut [Cell],
    limit: usize,
    top: usize,
    place: &mut usize,
    word: Conversion,
) -> Flow
    requires within { top ≤ length stack.old }
    requires place { place.old + 1 < 2 ^ 64 }
    ensures decided { Decides (λ f. converts f word) (frame_in locals.now stack.old limit top place.old) result (frame_in locals.now stack.new limit top place.new) }
{
    let Some(a) = top_int(stack, top) else {
        return VERIFY;
    };
    replace_top(stack, top, Cell::Int(converted(word, a)));
    *place += 1;
    Flow::Done
}

/// A word of arithmetic.
#[inline(always)]
pub(crate) fn decide_arithmetic(
    op: Op,
    locals: &[Cell],
    stack: &mut [Cell],
    limit: usize,
    top: &mut usize,
    place: &mut usize,
) -> Flow
    requires kind { is_arithmetic op ≡ true }
    requires within { top.old ≤ length stack.old }
    requires place { place.old + 1 < 2 ^ 64 }
    ensures decided { Decides (row op) (frame_in locals.now stack.old limit top.old place.old) result (frame_in locals.now stack.new limit top.new place.new) }
    ensures within { top.new ≤ length stack.new }
{
    match op {
        Op::Add => compute(locals, stack, limit, top, place, Arithmetic::Add),
        Op::Subtract => compute(locals, stack, limit, top, place, Arithmetic::Subtract),
        Op::Multiply => compute(locals, stack, limit, top, place, Arithmetic::Multiply),
        Op::Divide => divide(locals, stack, limit, top, place, Division::Divide),
        Op::Remainder => divide(locals, stack, limit, top, place, Division::Remainder),
        Op::Negate => convert(locals, stack, limit, *top, place, Conversion::Negate),
        _ => Flow::LeadsOut,
    }
}

/// A word that goes by the bits of ints.
#[inline(always)]
pub(crate) fn decide_bits(
    op: Op,
    locals: &[Cell],
    stack: &mut [Cell],
    limit: usize,
    top: &mut usize,
    place: &mut usize,
) -> Flow
    requires kind { is_of_bits op ≡ true }
    requires within { top.old ≤ length stack.old }
    requires place { place.old + 1 < 2 ^ 64 }
    ensures decided { Decides (row op) (frame_in locals.now stack.old limit top.old place.old) result (frame_in locals.now stack.new limit top.new place.new) }
    ensures within { top.new ≤ length stack.new }
{
    match op {
        Op::And => compute(locals, stack, limit, top, place, Arithmetic::And),
        Op::Or => compute(locals, stack, limit, top, place, Arithmetic::Or),
        Op::ExclusiveOr => compute(locals, stack, limit, top, place, Arithmetic::ExclusiveOr),
        Op::ShiftLeft => compute(locals, stack, limit, top, place, Arithmetic::ShiftLeft),
        Op::ShiftRight => compute(locals, stack, limit, top, place, Arithmetic::ShiftRight),
        Op::ShiftRightUnsigned => compute(
            locals,
            stack,
            limit,
            top,
            place,
            Arithmetic::ShiftRightUnsigned,
        ),
        Op::ToByte => convert(locals, stack, limit, *top, place, Conversion::ToByte),
        Op::ToChar => convert(locals, stack, limit, *top, place, Conversion::ToChar),
        Op::ToShort => convert(locals, stack, limit, *top, place, Conversion::ToShort),
        _ => Flow::LeadsOut,
    }
}
