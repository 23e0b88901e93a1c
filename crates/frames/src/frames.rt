//! One thread's frames.

ghost use Rattle.std.specs.Prelude.{◌≡◌, ◌≢◌, ◌∷◌, ◌<◌, ◌≤◌, ◌+◌, [], List, true, false, IfNone, IfSome, OnErr, OnOk, length, reverse, slice_get, vec_capacity, vec_len};
ghost use Rattle.frames.specs.Activations.{Activation, activation, at_handler, at_place, called, can_replace, dropped, frames_in, has_room, IsEmptyWithout, in_innermost, left, next_place, operands_of, place_of, pushed, replaced};
ghost use Rattle.frames.specs.Running.{GoesOn, IsAtNext};
ghost use Rattle.frames.specs.declared.cell.Cell.TheVariants as cell;
ghost use Rattle.frames.specs.declared.run.Stop.TheVariants as stop;

use crate::cell::Cell;
use crate::place::FramePlace;
use crate::run::Stop;
use crate::slot::Slot;
use code::{MethodCode, Op};
use std::alloc::{AllocError, Global};
use std::marker::Model;

/// The frames of one thread (JVMS SE 8 2.6), of the bodies that it runs, one within the other.
///
/// Contracts see the list of them, the innermost first. A frame that was left is kept for the next call, so that no call takes
/// memory at a depth that was reached before.
pub struct Frames {
    innermost: Option<Slot>,
    below: Vec<Slot>,
    spare: Vec<Slot>,
    alloc: Global,
}

impl Drop for Frames {
    fn drop(self) {
        let Self {
            innermost: _,
            below: _,
            spare: _,
            alloc: _,
        } = self;
    }
}

impl Model for Frames {
    ghost use Rattle.std.specs.Prelude.{◌≤◌, ◌+◌, List, length, vec_capacity, vec_len};
    ghost use Rattle.frames.specs.Activations.{Activation, frames_in, IsEmptyWithout};

    ghost Value = { List Activation };

    ghost view = { λ f. frames_in f.innermost f.below.items };

    ghost invariant = { λ f. record {
      empty : IsEmptyWithout f.innermost f.below.items;
      kept : vec_len f.spare + length (frames_in f.innermost f.below.items) ≤ vec_capacity f.spare;
    } };
}

fn push_below(below: &mut Vec<Slot>, slot: Slot)
    requires { vec_len below.old < vec_capacity below.old }
    ensures { reverse below.new.items ≡ slot ∷ reverse below.old.items }
{
    below.push_reserved(slot);
}

/// A frame becomes the innermost one, and the one that was waits for it.
fn put_innermost(innermost: &mut Option<Slot>, below: &mut Vec<Slot>, next: Slot)
    requires room { vec_len below.old < vec_capacity below.old }
    requires empty { IsEmptyWithout innermost.old below.old.items }
    ensures frames { frames_in innermost.new below.new.items ≡ next ∷ frames_in innermost.old below.old.items }
    ensures empty { IsEmptyWithout innermost.new below.new.items }
{
    if let Some(waiting) = std::mem::replace(innermost, Some(next)) {
        push_below(below, waiting);
    }
}

/// Begins a body, whose first frame this one becomes. An `Err` means out of memory and changes nothing.
fn begin_in(
    innermost: &mut Option<Slot>,
    below: &mut Vec<Slot>,
    mut first: Slot,
    class: usize,
    method: usize,
    code: &MethodCode,
    given: &[Cell],
) -> Result<(), AllocError>
    requires given { length given.now ≤ code.now.locals }
    requires empty { IsEmptyWithout innermost.old below.old.items }
    ensures ok { OnOk result (frames_in innermost.new below.new.items ≡ activation class method true code.now given.now ∷ frames_in innermost.old below.old.items) }
    ensures err { OnErr result (frames_in innermost.new below.new.items ≡ frames_in innermost.old below.old.items) }
    ensures empty { IsEmptyWithout innermost.new below.new.items }
{
    first.enter(class, method, true, code, given)?;
    below.reserve(1)?;
    put_innermost(innermost, below, first);
    Ok(())
}

/// Calls a method, whose frame this one becomes. An `Err` means out of memory and changes nothing.
fn call_in(
    innermost: &mut Option<Slot>,
    below: &mut Vec<Slot>,
    mut callee: Slot,
    class: usize,
    method: usize,
    code: &MethodCode,
    count: usize,
) -> Result<(), AllocError>
    requires few { count ≤ length (operands_of (frames_in innermost.old below.old.items)) }
    requires fits { count ≤ code.now.locals }
    requires frame { frames_in innermost.old below.old.items ≢ [] }
    requires empty { IsEmptyWithout innermost.old below.old.items }
    ensures ok { OnOk result (frames_in innermost.new below.new.items ≡ called class method code.now count (frames_in innermost.old below.old.items)) }
    ensures more { OnOk result (length (frames_in innermost.new below.new.items) ≡ length (frames_in innermost.old below.old.items) + 1) }
    ensures err { OnErr result (frames_in innermost.new below.new.items ≡ frames_in innermost.old below.old.items) }
    ensures empty { IsEmptyWithout innermost.new below.new.items }
{
    let Some(caller) = innermost else {
        return Ok(());
    };
    caller.call(&mut callee, class, method, code, count)?;
    below.reserve(1)?;
    caller.drop_operands(count);
    put_innermost(innermost, below, callee);
    Ok(())
}

/// Takes the frame that waits for the innermost.
fn pop_below(below: &mut Vec<Slot>) -> Option<Slot>
    ensures some { IfSome result (λ slot. reverse below.old.items ≡ slot ∷ reverse below.new.items) }
    ensures none { IfNone result (below.old.items ≡ []) }
    ensures empty { IfNone result (below.new.items ≡ []) }
{
    below.pop()
}

/// A frame more where there will be so many: one that was left, or else a new one, with room to keep them all.
fn take_spare(spare: &mut Vec<Slot>, alloc: Global, count: usize) -> Result<Slot, AllocError>
    requires { vec_len spare.old + count ≤ vec_capacity spare.old + 1 }
    ensures ok { OnOk result (vec_len spare.new + count ≤ vec_capacity spare.new) }
    ensures err { OnErr result (vec_len spare.new + count ≤ vec_capacity spare.new + 1) }
{
    if let Some(slot) = spare.pop() {
        return Ok(slot);
    }
    spare.reserve(count)?;
    Slot::new(alloc)
}

impl Frames {
    /// No frame. Takes no memory.
    pub fn new(alloc: Global) -> Self
        ensures { result ≡ [] }
    {
        Frames {
            innermost: None,
            below: Vec::new(alloc),
            spare: Vec::new(alloc),
            alloc,
        }
    }

    /// How many frames there are.
    pub fn len(&self) -> usize
        ensures { result ≡ length self.now }
    {
        match self.innermost {
            None => 0,
            Some(_) => self.below.len() + 1,
        }
    }

    /// Where the innermost frame is.
    pub fn at(&self) -> Option<FramePlace>
        ensures { result ≡ place_of self.now }
    {
        match &self.innermost {
            None => None,
            Some(slot) => Some(slot.place()),
        }
    }

    /// An operand of the innermost frame, that on top at 0.
    pub fn operand(&self, depth: usize) -> Option<Cell>
        ensures { result ≡ slice_get (operands_of self.now) depth }
    {
        match &self.innermost {
            None => None,
            Some(slot) => slot.operand(depth),
        }
    }

    /// Whether one more operand fits the innermost frame.
    pub fn has_room(&self) -> bool
        ensures { result ≡ has_room self.now }
    {
        match &self.innermost {
            None => false,
            Some(slot) => slot.has_room(),
        }
    }

    /// Whether one more operand fits the frame that waits for the innermost one.
    pub fn has_room_below(&self) -> bool
        ensures { result ≡ has_room (left self.now) }
    {
        match self.below.as_slice().last() {
            None => false,
            Some(waiting) => waiting.has_room(),
        }
    }

    /// How many frames there are with one more.
    fn len_with_next(&self) -> usize
        ensures { result ≡ length self.now + 1 }
    {
        match self.innermost {
            None => 1,
            Some(_) => self.below.len() + 2,
        }
    }

    /// Begins a body: a method's first frame is the innermost, with these arguments, the lowest first (JVMS SE 8 2.6.1).
    /// An `Err` means out of memory and changes nothing.
    pub fn begin(
        &mut self,
        class: usize,
        method: usize,
        code: &MethodCode,
        given: &[Cell],
    ) -> Result<(), AllocError>
        requires { length given.now ≤ code.now.locals }
        ensures ok { OnOk result (self.new ≡ activation class method true code.now given.now ∷ self.old) }
        ensures err { OnErr result (self.new ≡ self.old) }
    {
        let frames = self.len_with_next();
        let first = take_spare(&mut self.spare, self.alloc, frames)?;
        begin_in(
            &mut self.innermost,
            &mut self.below,
            first,
            class,
            method,
            code,
            given,
        )
    }

    /// Calls a method with so many operands of the innermost frame, which leave it: the method's frame is then the innermost
    /// (JVMS SE 8 2.6.1). An `Err` means out of memory and changes nothing.
    pub fn call(
        &mut self,
        class: usize,
        method: usize,
        code: &MethodCode,
        count: usize,
    ) -> Result<(), AllocError>
        requires few { count ≤ length (operands_of self.old) }
        requires fits { count ≤ code.now.locals }
        requires frame { self.old ≢ [] }
        ensures ok { OnOk result (self.new ≡ called class method code.now count self.old) }
        ensures err { OnErr result (self.new ≡ self.old) }
    {
        let frames = self.len_with_next();
        let callee = take_spare(&mut self.spare, self.alloc, frames)?;
        call_in(
            &mut self.innermost,
            &mut self.below,
            callee,
            class,
            method,
            code,
            count,
        )
    }

    /// Leaves the innermost frame (JVMS SE 8 2.6.4, 2.6.5). Takes no memory.
    pub fn leave(&mut self)
        ensures { self.new ≡ left self.old }
    {
        let waiting = pop_below(&mut self.below);
        if let Some(slot) = std::mem::replace(&mut self.innermost, waiting) {
            self.spare.push_reserved(slot);
        }
    }

    /// So many operands of the innermost frame are dropped, or all where there are fewer.
    pub fn drop_operands(&mut self, count: usize)
        ensures { self.new ≡ in_innermost (dropped count) self.old }
    {
        if let Some(slot) = &mut self.innermost {
            slot.drop_operands(count);
        }
    }

    /// One operand more in the innermost frame.
    pub fn push(&mut self, value: Cell)
        requires { has_room self.old ≡ true }
        ensures { self.new ≡ in_innermost (pushed value) self.old }
    {
        if let Some(slot) = &mut self.innermost {
            slot.push(value);
        }
    }

    /// Whether the innermost frame has so many operands, and room for one in their place.
    pub fn can_replace(&self, count: usize) -> bool
        ensures { result ≡ can_replace count self.now }
    {
        if count == 0 {
            return self.has_room();
        }
        self.operand(count - 1).is_some()
    }

    /// Puts an operand in the place of so many on top of the innermost frame.
    pub fn replace(&mut self, count: usize, value: Cell)
        requires { can_replace count self.old ≡ true }
        ensures { self.new ≡ in_innermost (replaced count value) self.old }
    {
        if let Some(slot) = &mut self.innermost {
            match count {
                0 => slot.push(value),
                _ => slot.replace(count, value),
            }
        }
    }

    /// The innermost frame goes on at that place.
    pub fn go_to(&mut self, place: u16)
        ensures { self.new ≡ in_innermost (at_place place) self.old }
    {
        if let Some(slot) = &mut self.innermost {
            slot.go_to(place);
        }
    }

    /// The innermost frame goes on at the next place.
    pub fn step_over(&mut self)
        ensures { self.new ≡ in_innermost next_place self.old }
    {
        if let Some(slot) = &mut self.innermost {
            slot.step_over();
        }
    }

    /// The innermost frame goes on at a handler.
    pub(crate) fn go_to_handler(&mut self, place: u16, reference: u32)
        ensures { self.new ≡ in_innermost (at_handler place (cell.Reference reference)) self.old }
    {
        if let Some(slot) = &mut self.innermost {
            slot.go_to_handler(place, reference);
        }
    }

    /// Does the instructions at the innermost frame's place, one after the other (JVMS SE 8 2.11), until one throws or asks
    /// something of what lies outside of the frame, or until as many as the limit are done: how many were done, and why no
    /// more. `ops` are the frame's method's. Takes no memory.
    pub fn go_on(&mut self, ops: &[Op], limit: u64) -> (u64, Stop)
        ensures goes { (a : Activation) (below : List Activation) → self.old ≡ a ∷ below → GoesOn ops.now a below result.0 result.1 self.new }
        ensures limit { result.0 ≤ limit }
        ensures reached { result.1 ≡ stop.Limit → result.0 ≡ limit }
        ensures before { IsAtNext result.1 → result.0 < limit }
        ensures none { self.old ≡ [] → self.new ≡ [] }
    {
        match &mut self.innermost {
            None => (0, Stop::PastTheEnd),
            Some(slot) => slot.go_on(ops, limit),
        }
    }
}
