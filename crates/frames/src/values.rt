//! Constants and locals (JVMS SE 8 6.5).

ghost use Rattle.std.specs.Prelude.{◌≡◌, ◌<◌, ◌≤◌, ◌+◌, ◌^◌, length, true};
ghost use Rattle.frames.specs.Frame.{frame_in};
ghost use Rattle.frames.specs.Kinds.{is_value};
ghost use Rattle.frames.specs.Rows.{Decides, row, gives, loads_int, loads_reference, stores, stores_int, stores_reference, increments};

use crate::cell::Cell;
use crate::decide::{Flow, VERIFY};
use crate::operands::{drop_top, local_int, local_reference, push, top_int, top_reference};
use code::Op;

/// One operand more.
#[inline(always)]
pub(crate) fn give(
    locals: &[Cell],
    stack: &mut [Cell],
    limit: usize,
    top: &mut usize,
    place: &mut usize,
    cell: Cell,
) -> Flow
    requires within { top.old ≤ length stack.old }
    requires limit { limit ≤ length stack.old }
    requires place { place.old + 1 < 2 ^ 64 }
    ensures decided { Decides (λ f. gives f cell f.stack) (frame_in locals.now stack.old limit top.old place.old) result (frame_in locals.now stack.new limit top.new place.new) }
    ensures within { top.new ≤ length stack.new }
{
    if *top >= limit {
        return VERIFY;
    }
    push(stack, *top, cell);
    *top += 1;
    *place += 1;
    Flow::Done
}

/// `iload`
#[inline(always)]
pub(crate) fn load_int(
    locals: &[Cell],
    stack: &mut [Cell],
    limit: usize,
    top: &mut usize,
    place: &mut usize,
    at: usize,
) -> Flow
    requires within { top.old ≤ length stack.old }
    requires limit { limit ≤ length stack.old }
    requires place { place.old + 1 < 2 ^ 64 }
    ensures decided { Decides (λ f. loads_int f at) (frame_in locals.now stack.old limit top.old place.old) result (frame_in locals.now stack.new limit top.new place.new) }
    ensures within { top.new ≤ length stack.new }
{
    match local_int(locals, at) {
        None => VERIFY,
        Some(a) => give(locals, stack, limit, top, place, Cell::Int(a)),
    }
}

/// `aload`
#[inline(always)]
pub(crate) fn load_reference(
    locals: &[Cell],
    stack: &mut [Cell],
    limit: usize,
    top: &mut usize,
    place: &mut usize,
    at: usize,
) -> Flow
    requires within { top.old ≤ length stack.old }
    requires limit { limit ≤ length stack.old }
    requires place { place.old + 1 < 2 ^ 64 }
    ensures decided { Decides (λ f. loads_reference f at) (frame_in locals.now stack.old limit top.old place.old) result (frame_in locals.now stack.new limit top.new place.new) }
    ensures within { top.new ≤ length stack.new }
{
    match local_reference(locals, at) {
        None => VERIFY,
        Some(cell) => give(locals, stack, limit, top, place, cell),
    }
}

/// The operand on top becomes a local.
#[inline(always)]
fn store(
    locals: &mut [Cell],
    stack: &[Cell],
    limit: usize,
    top: &mut usize,
    place: &mut usize,
    at: usize,
    cell: Cell,
) -> Flow
    requires one { 1 ≤ top.old }
    requires within { top.old ≤ length stack.now }
    requires place { place.old + 1 < 2 ^ 64 }
    ensures decided { Decides (λ f. stores f at cell) (frame_in locals.old stack.now limit top.old place.old) result (frame_in locals.new stack.now limit top.new place.new) }
    ensures within { top.new ≤ length stack.now }
{
    if at >= locals.len() {
        return VERIFY;
    }
    locals[at] = cell;
    *top = drop_top(stack, *top);
    *place += 1;
    Flow::Done
}

/// `istore`
#[inline(always)]
pub(crate) fn store_int(
    locals: &mut [Cell],
    stack: &[Cell],
    limit: usize,
    top: &mut usize,
    place: &mut usize,
    at: usize,
) -> Flow
    requires within { top.old ≤ length stack.now }
    requires place { place.old + 1 < 2 ^ 64 }
    ensures decided { Decides (λ f. stores_int f at) (frame_in locals.old stack.now limit top.old place.old) result (frame_in locals.new stack.now limit top.new place.new) }
    ensures within { top.new ≤ length stack.now }
{
    match top_int(stack, *top) {
        None => VERIFY,
        Some(a) => store(locals, stack, limit, top, place, at, Cell::Int(a)),
    }
}

/// `astore`
#[inline(always)]
pub(crate) fn store_reference(
    locals: &mut [Cell],
    stack: &[Cell],
    limit: usize,
    top: &mut usize,
    place: &mut usize,
    at: usize,
) -> Flow
    requires within { top.old ≤ length stack.now }
    requires place { place.old + 1 < 2 ^ 64 }
    ensures decided { Decides (λ f. stores_reference f at) (frame_in locals.old stack.now limit top.old place.old) result (frame_in locals.new stack.now limit top.new place.new) }
    ensures within { top.new ≤ length stack.now }
{
    match top_reference(stack, *top) {
        None => VERIFY,
        Some(cell) => store(locals, stack, limit, top, place, at, cell),
    }
}

/// `iinc`
#[inline(always)]
pub(crate) fn increment(
    locals: &mut [Cell],
    stack: &[Cell],
    limit: usize,
    top: usize,
    place: &mut usize,
    at: usize,
    by: i32,
) -> Flow
    requires within { top ≤ length stack.now }
    requires place { place.old + 1 < 2 ^ 64 }
    ensures decided { Decides (λ f. increments f at by) (frame_in locals.old stack.now limit top place.old) result (frame_in locals.new stack.now limit top place.new) }
{
    let Some(a) = local_int(locals, at) else {
        return VERIFY;
    };
    locals[at] = Cell::Int(a.wrapping_add(by));
    *place += 1;
    Flow::Done
}

/// A word that gives a constant, or that reads or writes a local.
#[inline(always)]
pub(crate) fn decide_value(
    op: Op,
    locals: &mut [Cell],
    stack: &mut [Cell],
    limit: usize,
    top: &mut usize,
    place: &mut usize,
) -> Flow
    requires kind { is_value op ≡ true }
    requires within { top.old ≤ length stack.old }
    requires limit { limit ≤ length stack.old }
    requires place { place.old + 1 < 2 ^ 64 }
    ensures decided { Decides (row op) (frame_in locals.old stack.old limit top.old place.old) result (frame_in locals.new stack.new limit top.new place.new) }
    ensures within { top.new ≤ length stack.new }
{
    match op {
        Op::PushNull => give(locals, stack, limit, top, place, Cell::Null),
        Op::PushInt(a) => give(locals, stack, limit, top, place, Cell::Int(a)),
        Op::PushText(number) => give(locals, stack, limit, top, place, Cell::Reference(number)),
        Op::LoadInt(at) => load_int(locals, stack, limit, top, place, at as usize),
        Op::LoadReference(at) => load_reference(locals, stack, limit, top, place, at as usize),
        Op::StoreInt(at) => store_int(locals, stack, limit, top, place, at as usize),
        Op::StoreReference(at) => store_reference(locals, stack, limit, top, place, at as usize),
        Op::Increment(at, by) => increment(
            locals,
            stack,
            limit,
            *top,
            place,
            at as usize,
            by as i32,
        ),
        _ => Flow::LeadsOut,
    }
}
