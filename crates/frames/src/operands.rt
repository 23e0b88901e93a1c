//! Locals, and operands in the cells of a stack.

ghost use Rattle.std.specs.Prelude.{◌≡◌, ◌<◌, ◌≤◌, ◌+◌, ◌-◌, ◌∷◌, IfSome, drop, length, slice_get};
ghost use Rattle.frames.specs.Frame.{operands, top_of, below_top, int_in, int_of, ints_of, reference_in, reference_of, references_of};

use crate::cell::Cell;

#[inline(always)]
fn int_in(cell: Option<Cell>) -> Option<i32>
    ensures { result ≡ int_in cell }
{
    match cell {
        Some(Cell::Int(a)) => Some(a),
        _ => None,
    }
}

/// Null, or a reference.
#[inline(always)]
fn reference_in(cell: Option<Cell>) -> Option<Cell>
    ensures { result ≡ reference_in cell }
{
    match cell {
        Some(Cell::Null) => Some(Cell::Null),
        Some(Cell::Reference(number)) => Some(Cell::Reference(number)),
        _ => None,
    }
}

/// The int that a local holds.
#[inline(always)]
pub(crate) fn local_int(locals: &[Cell], at: usize) -> Option<i32>
    ensures local { result ≡ int_in (slice_get locals.now at) }
    ensures some { IfSome result (λ a. at < length locals.now) }
{
    int_in(locals.get(at).copied())
}

/// The reference that a local holds, or null.
#[inline(always)]
pub(crate) fn local_reference(locals: &[Cell], at: usize) -> Option<Cell>
    ensures { result ≡ reference_in (slice_get locals.now at) }
{
    reference_in(locals.get(at).copied())
}

/// The operand on top.
#[inline(always)]
fn top_cell(stack: &[Cell], top: usize) -> Option<Cell>
    requires { top ≤ length stack.now }
    ensures top { result ≡ top_of (operands stack.now top) }
    ensures some { IfSome result (λ v. 1 ≤ top) }
{
    if top == 0 {
        return None;
    }
    Some(stack[top - 1])
}

/// The operand below the top.
#[inline(always)]
fn second_cell(stack: &[Cell], top: usize) -> Option<Cell>
    requires { top ≤ length stack.now }
    ensures top { result ≡ top_of (below_top (operands stack.now top)) }
    ensures some { IfSome result (λ v. 2 ≤ top) }
{
    if top < 2 {
        return None;
    }
    Some(stack[top - 2])
}

/// The int on top.
#[inline(always)]
pub(crate) fn top_int(stack: &[Cell], top: usize) -> Option<i32>
    requires { top ≤ length stack.now }
    ensures top { result ≡ int_of (operands stack.now top) }
    ensures some { IfSome result (λ v. 1 ≤ top) }
{
    int_in(top_cell(stack, top))
}

/// The two ints on top, the lower first.
#[inline(always)]
pub(crate) fn top_ints(stack: &[Cell], top: usize) -> Option<(i32, i32)>
    requires { top ≤ length stack.now }
    ensures top { result ≡ ints_of (operands stack.now top) }
    ensures some { IfSome result (λ v. 2 ≤ top) }
{
    let Some(b) = top_int(stack, top) else {
        return None;
    };
    let Some(a) = int_in(second_cell(stack, top)) else {
        return None;
    };
    Some((a, b))
}

/// The reference on top, or null.
#[inline(always)]
pub(crate) fn top_reference(stack: &[Cell], top: usize) -> Option<Cell>
    requires { top ≤ length stack.now }
    ensures top { result ≡ reference_of (operands stack.now top) }
    ensures some { IfSome result (λ v. 1 ≤ top) }
{
    reference_in(top_cell(stack, top))
}

/// The two references on top, the lower first.
#[inline(always)]
pub(crate) fn top_references(stack: &[Cell], top: usize) -> Option<(Cell, Cell)>
    requires { top ≤ length stack.now }
    ensures top { result ≡ references_of (operands stack.now top) }
    ensures some { IfSome result (λ v. 2 ≤ top) }
{
    let Some(b) = top_reference(stack, top) else {
        return None;
    };
    let Some(a) = reference_in(second_cell(stack, top)) else {
        return None;
    };
    Some((a, b))
}

/// The operands below the top.
#[inline(always)]
pub(crate) fn drop_top(stack: &[Cell], top: usize) -> usize
    requires some { 1 ≤ top }
    requires within { top ≤ length stack.now }
    ensures operands { operands stack.now result ≡ below_top (operands stack.now top) }
    ensures count { result + 1 ≡ top }
{
    top - 1
}

/// The operands below the two on top.
#[inline(always)]
pub(crate) fn drop_two(stack: &[Cell], top: usize) -> usize
    requires two { 2 ≤ top }
    requires within { top ≤ length stack.now }
    ensures operands { operands stack.now result ≡ below_top (below_top (operands stack.now top)) }
    ensures count { result + 2 ≡ top }
{
    top - 2
}

/// One operand more.
#[inline(always)]
pub(crate) fn push(stack: &mut [Cell], top: usize, cell: Cell)
    requires { top < length stack.old }
    ensures { operands stack.new (top + 1) ≡ cell ∷ operands stack.old top }
{
    stack[top] = cell;
}

/// An operand in place of the one on top.
#[inline(always)]
pub(crate) fn replace_top(stack: &mut [Cell], top: usize, cell: Cell)
    requires one { 1 ≤ top }
    requires within { top ≤ length stack.old }
    ensures { operands stack.new top ≡ cell ∷ below_top (operands stack.old top) }
{
    stack[top - 1] = cell;
}

/// An operand in place of the two on top.
#[inline(always)]
pub(crate) fn replace_two(stack: &mut [Cell], top: usize, cell: Cell)
    requires two { 2 ≤ top }
    requires within { top ≤ length stack.old }
    ensures { operands stack.new (top - 1) ≡ cell ∷ below_top (below_top (operands stack.old top)) }
{
    stack[top - 2] = cell;
}

/// One operand in the place of so many; how many there are then.
#[inline(always)]
#[tactic(auto, using(crate::proofs::Stacks::replaced_many))]
pub(crate) fn replace_many(stack: &mut [Cell], top: usize, count: usize, value: Cell) -> usize
    requires some { 1 ≤ count }
    requires few { count ≤ top }
    requires within { top ≤ length stack.old }
    ensures operands { operands stack.new result ≡ value ∷ drop count (operands stack.old top) }
    ensures within { result ≤ length stack.new }
    ensures same { length stack.new ≡ length stack.old }
{
    let place = top - count;
    stack[place] = value;
    place + 1
}
