//! Jumps (JVMS SE 8 6.5).

ghost use Rattle.std.specs.Prelude.{◌≡◌, ◌<◌, ◌≤◌, ◌+◌, ◌^◌, length, true};
ghost use Rattle.frames.specs.Frame.{frame_in};
ghost use Rattle.frames.specs.Kinds.{is_jump_on_one, is_jump_on_two};
ghost use Rattle.frames.specs.Rows.{Decides, row, jumps_zero, jumps_ints, jumps_null, jumps_same, holds, is_null, same_reference};

use crate::cell::Cell;
use crate::decide::{Flow, VERIFY};
use crate::operands::{drop_top, drop_two, top_int, top_ints, top_reference, top_references};
use crate::words::Comparison::{self, Equal, Greater, Less, NotEqual, NotGreater, NotLess};
use code::Op;

#[inline(always)]
pub(crate) fn holds(comparison: Comparison, a: i32, b: i32) -> bool
    ensures { result ≡ holds comparison a b }
{
    match comparison {
        Comparison::Equal => a == b,
        Comparison::NotEqual => a != b,
        Comparison::Less => a < b,
        Comparison::NotLess => a >= b,
        Comparison::Greater => a > b,
        Comparison::NotGreater => a <= b,
    }
}

#[inline(always)]
fn is_null(cell: Cell) -> bool
    ensures { result ≡ is_null cell }
{
    matches!(cell, Cell::Null)
}

#[inline(always)]
fn same_reference(a: Cell, b: Cell) -> bool
    ensures { result ≡ same_reference a b }
{
    match a {
        Cell::Null => is_null(b),
        Cell::Reference(m) => match b {
            Cell::Reference(n) => m == n,
            _ => false,
        },
        _ => false,
    }
}

/// By comparing an int with zero.
#[inline(always)]
fn jump_zero(
    locals: &[Cell],
    stack: &[Cell],
    limit: usize,
    top: &mut usize,
    place: &mut usize,
    comparison: Comparison,
    to: u16,
) -> Flow
    requires within { top.old ≤ length stack.now }
    requires place { place.old + 1 < 2 ^ 64 }
    ensures decided { Decides (λ f. jumps_zero f comparison to) (frame_in locals.now stack.now limit top.old place.old) result (frame_in locals.now stack.now limit top.new place.new) }
    ensures within { top.new ≤ length stack.now }
{
    let Some(a) = top_int(stack, *top) else {
        return VERIFY;
    };
    *top = drop_top(stack, *top);
    *place = if holds(comparison, a, 0) {
        to as usize
    } else {
        *place + 1
    };
    Flow::Done
}

/// By comparing two ints.
#[inline(always)]
fn jump_ints(
    locals: &[Cell],
    stack: &[Cell],
    limit: usize,
    top: &mut usize,
    place: &mut usize,
    comparison: Comparison,
    to: u16,
) -> Flow
    requires within { top.old ≤ length stack.now }
    requires place { place.old + 1 < 2 ^ 64 }
    ensures decided { Decides (λ f. jumps_ints f comparison to) (frame_in locals.now stack.now limit top.old place.old) result (frame_in locals.now stack.now limit top.new place.new) }
    ensures within { top.new ≤ length stack.now }
{
    let Some((a, b)) = top_ints(stack, *top) else {
        return VERIFY;
    };
    *top = drop_two(stack, *top);
    *place = if holds(comparison, a, b) {
        to as usize
    } else {
        *place + 1
    };
    Flow::Done
}

/// By whether a reference is null.
#[inline(always)]
fn jump_null(
    locals: &[Cell],
    stack: &[Cell],
    limit: usize,
    top: &mut usize,
    place: &mut usize,
    wanted: bool,
    to: u16,
) -> Flow
    requires within { top.old ≤ length stack.now }
    requires place { place.old + 1 < 2 ^ 64 }
    ensures decided { Decides (λ f. jumps_null f wanted to) (frame_in locals.now stack.now limit top.old place.old) result (frame_in locals.now stack.now limit top.new place.new) }
    ensures within { top.new ≤ length stack.now }
{
    let Some(cell) = top_reference(stack, *top) else {
        return VERIFY;
    };
    *top = drop_top(stack, *top);
    let taken = if is_null(cell) { wanted } else { !wanted };
    *place = if taken { to as usize } else { *place + 1 };
    Flow::Done
}

/// By whether two references are the same.
#[inline(always)]
fn jump_same(
    locals: &[Cell],
    stack: &[Cell],
    limit: usize,
    top: &mut usize,
    place: &mut usize,
    wanted: bool,
    to: u16,
) -> Flow
    requires within { top.old ≤ length stack.now }
    requires place { place.old + 1 < 2 ^ 64 }
    ensures decided { Decides (λ f. jumps_same f wanted to) (frame_in locals.now stack.now limit top.old place.old) result (frame_in locals.now stack.now limit top.new place.new) }
    ensures within { top.new ≤ length stack.now }
{
    let Some((a, b)) = top_references(stack, *top) else {
        return VERIFY;
    };
    *top = drop_two(stack, *top);
    let taken = if same_reference(a, b) {
        wanted
    } else {
        !wanted
    };
    *place = if taken { to as usize } else { *place + 1 };
    Flow::Done
}

/// A jump by the operand on top.
#[inline(always)]
pub(crate) fn decide_jump_on_one(
    op: Op,
    locals: &[Cell],
    stack: &[Cell],
    limit: usize,
    top: &mut usize,
    place: &mut usize,
) -> Flow
    requires kind { is_jump_on_one op ≡ true }
    requires within { top.old ≤ length stack.now }
    requires place { place.old + 1 < 2 ^ 64 }
    ensures decided { Decides (row op) (frame_in locals.now stack.now limit top.old place.old) result (frame_in locals.now stack.now limit top.new place.new) }
    ensures within { top.new ≤ length stack.now }
{
    match op {
        Op::IfZero(to) => jump_zero(locals, stack, limit, top, place, Equal, to),
        Op::IfNotZero(to) => jump_zero(locals, stack, limit, top, place, NotEqual, to),
        Op::IfNegative(to) => jump_zero(locals, stack, limit, top, place, Less, to),
        Op::IfNotNegative(to) => jump_zero(locals, stack, limit, top, place, NotLess, to),
        Op::IfPositive(to) => jump_zero(locals, stack, limit, top, place, Greater, to),
        Op::IfNotPositive(to) => jump_zero(locals, stack, limit, top, place, NotGreater, to),
        Op::IfNull(to) => jump_null(locals, stack, limit, top, place, true, to),
        Op::IfNonNull(to) => jump_null(locals, stack, limit, top, place, false, to),
        _ => Flow::LeadsOut,
    }
}

/// A jump by the two operands on top.
#[inline(always)]
pub(crate) fn decide_jump_on_two(
    op: Op,
    locals: &[Cell],
    stack: &[Cell],
    limit: usize,
    top: &mut usize,
    place: &mut usize,
) -> Flow
    requires kind { is_jump_on_two op ≡ true }
    requires within { top.old ≤ length stack.now }
    requires place { place.old + 1 < 2 ^ 64 }
    ensures decided { Decides (row op) (frame_in locals.now stack.now limit top.old place.old) result (frame_in locals.now stack.now limit top.new place.new) }
    ensures within { top.new ≤ length stack.now }
{
    match op {
        Op::IfEqual(to) => jump_ints(locals, stack, limit, top, place, Equal, to),
        Op::IfNotEqual(to) => jump_ints(locals, stack, limit, top, place, NotEqual, to),
        Op::IfLess(to) => jump_ints(locals, stack, limit, top, place, Less, to),
        Op::IfNotLess(to) => jump_ints(locals, stack, limit, top, place, NotLess, to),
        Op::IfGreater(to) => jump_ints(locals, stack, limit, top, place, Greater, to),
        Op::IfNotGreater(to) => jump_ints(locals, stack, limit, top, place, NotGreater, to),
        Op::IfSame(to) => jump_same(locals, stack, limit, top, place, true, to),
        Op::IfNotSame(to) => jump_same(locals, stack, limit, top, place, false, to),
        _ => Flow::LeadsOut,
    }
}
