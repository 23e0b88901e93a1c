//! Moves of operands (JVMS SE 8 6.5), of which each takes one cell.

ghost use Rattle.std.specs.Prelude.{◌≡◌, ◌<◌, ◌≤◌, ◌+◌, ◌^◌, length, true};
ghost use Rattle.frames.specs.Frame.{frame_in};
ghost use Rattle.frames.specs.Kinds.{is_move};
ghost use Rattle.frames.specs.Rows.{Decides, row, moves, popped, popped_two, dup, dup_x1, dup_x2, dup2, dup2_x1, dup2_x2, swap};

use crate::cell::Cell;
use crate::decide::{Flow, VERIFY};
use crate::operands::push;
use code::Op;

/// `pop`
#[inline(always)]
fn pop(locals: &[Cell], stack: &[Cell], limit: usize, top: &mut usize, place: &mut usize) -> Flow
    requires within { top.old ≤ length stack.now }
    requires place { place.old + 1 < 2 ^ 64 }
    ensures decided { Decides (λ f. moves f (popped f.stack)) (frame_in locals.now stack.now limit top.old place.old) result (frame_in locals.now stack.now limit top.new place.new) }
    ensures within { top.new ≤ length stack.now }
{
    if *top < 1 || *top - 1 > limit {
        return VERIFY;
    }
    *top -= 1;
    *place += 1;
    Flow::Done
}

/// `pop2`
#[inline(always)]
fn pop_two(
    locals: &[Cell],
    stack: &[Cell],
    limit: usize,
    top: &mut usize,
    place: &mut usize,
) -> Flow
    requires within { top.old ≤ length stack.now }
    requires place { place.old + 1 < 2 ^ 64 }
    ensures decided { Decides (λ f. moves f (popped_two f.stack)) (frame_in locals.now stack.now limit top.old place.old) result (frame_in locals.now stack.now limit top.new place.new) }
    ensures within { top.new ≤ length stack.now }
{
    if *top < 2 || *top - 2 > limit {
        return VERIFY;
    }
    *top -= 2;
    *place += 1;
    Flow::Done
}

/// `dup`
#[inline(always)]
fn dup(
    locals: &[Cell],
    stack: &mut [Cell],
    limit: usize,
    top: &mut usize,
    place: &mut usize,
) -> Flow
    requires within { top.old ≤ length stack.old }
    requires limit { limit ≤ length stack.old }
    requires place { place.old + 1 < 2 ^ 64 }
    ensures decided { Decides (λ f. moves f (dup f.stack)) (frame_in locals.now stack.old limit top.old place.old) result (frame_in locals.now stack.new limit top.new place.new) }
    ensures within { top.new ≤ length stack.new }
{
    if *top < 1 || *top >= limit {
        return VERIFY;
    }
    let a = stack[*top - 1];
    let low = *top - 1;
    push(stack, low, a);
    push(stack, low + 1, a);
    *top += 1;
    *place += 1;
    Flow::Done
}

/// `dup_x1`
#[inline(always)]
fn dup_x1(
    locals: &[Cell],
    stack: &mut [Cell],
    limit: usize,
    top: &mut usize,
    place: &mut usize,
) -> Flow
    requires within { top.old ≤ length stack.old }
    requires limit { limit ≤ length stack.old }
    requires place { place.old + 1 < 2 ^ 64 }
    ensures decided { Decides (λ f. moves f (dup_x1 f.stack)) (frame_in locals.now stack.old limit top.old place.old) result (frame_in locals.now stack.new limit top.new place.new) }
    ensures within { top.new ≤ length stack.new }
{
    if *top < 2 || *top >= limit {
        return VERIFY;
    }
    let a = stack[*top - 1];
    let b = stack[*top - 2];
    let low = *top - 2;
    push(stack, low, a);
    push(stack, low + 1, b);
    push(stack, low + 2, a);
    *top += 1;
    *place += 1;
    Flow::Done
}

/// `dup_x2`
#[inline(always)]
fn dup_x2(
    locals: &[Cell],
    stack: &mut [Cell],
    limit: usize,
    top: &mut usize,
    place: &mut usize,
) -> Flow
    requires within { top.old ≤ length stack.old }
    requires limit { limit ≤ length stack.old }
    requires place { place.old + 1 < 2 ^ 64 }
    ensures decided { Decides (λ f. moves f (dup_x2 f.stack)) (frame_in locals.now stack.old limit top.old place.old) result (frame_in locals.now stack.new limit top.new place.new) }
    ensures within { top.new ≤ length stack.new }
{
    if *top < 3 || *top >= limit {
        return VERIFY;
    }
    let a = stack[*top - 1];
    let b = stack[*top - 2];
    let c = stack[*top - 3];
    let low = *top - 3;
    push(stack, low, a);
    push(stack, low + 1, c);
    push(stack, low + 2, b);
    push(stack, low + 3, a);
    *top += 1;
    *place += 1;
    Flow::Done
}

/// `dup2`
#[inline(always)]
fn dup2(
    locals: &[Cell],
    stack: &mut [Cell],
    limit: usize,
    top: &mut usize,
    place: &mut usize,
) -> Flow
    requires within { top.old ≤ length stack.old }
    requires limit { limit ≤ length stack.old }
    requires place { place.old + 1 < 2 ^ 64 }
    ensures decided { Decides (λ f. moves f (dup2 f.stack)) (frame_in locals.now stack.old limit top.old place.old) result (frame_in locals.now stack.new limit top.new place.new) }
    ensures within { top.new ≤ length stack.new }
{
    if *top < 2 || *top >= limit || limit - *top < 2 {
        return VERIFY;
    }
    let a = stack[*top - 1];
    let b = stack[*top - 2];
    let low = *top - 2;
    push(stack, low, b);
    push(stack, low + 1, a);
    push(stack, low + 2, b);
    push(stack, low + 3, a);
    *top += 2;
    *place += 1;
    Flow::Done
}

/// `dup2_x1`
#[inline(always)]
fn dup2_x1(
    locals: &[Cell],
    stack: &mut [Cell],
    limit: usize,
    top: &mut usize,
    place: &mut usize,
) -> Flow
    requires within { top.old ≤ length stack.old }
    requires limit { limit ≤ length stack.old }
    requires place { place.old + 1 < 2 ^ 64 }
    ensures decided { Decides (λ f. moves f (dup2_x1 f.stack)) (frame_in locals.now stack.old limit top.old place.old) result (frame_in locals.now stack.new limit top.new place.new) }
    ensures within { top.new ≤ length stack.new }
{
    if *top < 3 || *top >= limit || limit - *top < 2 {
        return VERIFY;
    }
    let a = stack[*top - 1];
    let b = stack[*top - 2];
    let c = stack[*top - 3];
    let low = *top - 3;
    push(stack, low, b);
    push(stack, low + 1, a);
    push(stack, low + 2, c);
    push(stack, low + 3, b);
    push(stack, low + 4, a);
    *top += 2;
    *place += 1;
    Flow::Done
}

/// `dup2_x2`
#[inline(always)]
fn dup2_x2(
    locals: &[Cell],
    stack: &mut [Cell],
    limit: usize,
    top: &mut usize,
    place: &mut usize,
) -> Flow
    requires within { top.old ≤ length stack.old }
    requires limit { limit ≤ length stack.old }
    requires place { place.old + 1 < 2 ^ 64 }
    ensures decided { Decides (λ f. moves f (dup2_x2 f.stack)) (frame_in locals.now stack.old limit top.old place.old) result (frame_in locals.now stack.new limit top.new place.new) }
    ensures within { top.new ≤ length stack.new }
{
    if *top < 4 || *top >= limit || limit - *top < 2 {
        return VERIFY;
    }
    let a = stack[*top - 1];
    let b = stack[*top - 2];
    let c = stack[*top - 3];
    let d = stack[*top - 4];
    let low = *top - 4;
    push(stack, low, b);
    push(stack, low + 1, a);
    push(stack, low + 2, d);
    push(stack, low + 3, c);
    push(stack, low + 4, b);
    push(stack, low + 5, a);
    *top += 2;
    *place += 1;
    Flow::Done
}

/// `swap`
#[inline(always)]
fn swap(
    locals: &[Cell],
    stack: &mut [Cell],
    limit: usize,
    top: &mut usize,
    place: &mut usize,
) -> Flow
    requires within { top.old ≤ length stack.old }
    requires limit { limit ≤ length stack.old }
    requires place { place.old + 1 < 2 ^ 64 }
    ensures decided { Decides (λ f. moves f (swap f.stack)) (frame_in locals.now stack.old limit top.old place.old) result (frame_in locals.now stack.new limit top.new place.new) }
    ensures within { top.new ≤ length stack.new }
{
    if *top < 2 || *top > limit {
        return VERIFY;
    }
    let a = stack[*top - 1];
    let b = stack[*top - 2];
    let low = *top - 2;
    push(stack, low, a);
    push(stack, low + 1, b);
    *place += 1;
    Flow::Done
}

/// A word that moves operands.
#[inline(always)]
pub(crate) fn decide_move(
    op: Op,
    locals: &[Cell],
    stack: &mut [Cell],
    limit: usize,
    top: &mut usize,
    place: &mut usize,
) -> Flow
    requires kind { is_move op ≡ true }
    requires within { top.old ≤ length stack.old }
    requires limit { limit ≤ length stack.old }
    requires place { place.old + 1 < 2 ^ 64 }
    ensures decided { Decides (row op) (frame_in locals.now stack.old limit top.old place.old) result (frame_in locals.now stack.new limit top.new place.new) }
    ensures within { top.new ≤ length stack.new }
{
    match op {
        Op::Pop => pop(locals, stack, limit, top, place),
        Op::Pop2 => pop_two(locals, stack, limit, top, place),
        Op::Dup => dup(locals, stack, limit, top, place),
        Op::DupX1 => dup_x1(locals, stack, limit, top, place),
        Op::DupX2 => dup_x2(locals, stack, limit, top, place),
        Op::Dup2 => dup2(locals, stack, limit, top, place),
        Op::Dup2X1 => dup2_x1(locals, stack, limit, top, place),
        Op::Dup2X2 => dup2_x2(locals, stack, limit, top, place),
        Op::Swap => swap(locals, stack, limit, top, place),
        _ => Flow::LeadsOut,
    }
}
