//! One method's activation: its place, locals and operands.

ghost use Rattle.std.specs.Prelude.{◌≡◌, ◌<◌, ◌≤◌, ◌+◌, ◌^◌, IsOk, OnOk, length, slice_get, true, false};
ghost use Rattle.frames.specs.Running.{Goes, IsAtNext, Stops};
ghost use Rattle.frames.specs.Activations.{activation, arguments, at_handler, at_place, dropped, has_room_in, in_frame, next_place, place_in, pushed, replaced};
ghost use Rattle.frames.specs.declared.cell.Cell.TheVariants as cell;
ghost use Rattle.frames.specs.declared.run.Stop.TheVariants as stop;
ghost use Rattle.frames.specs.declared.slot.TheConstants.{MOST_LOCALS, MOST_OPERANDS};

use crate::cell::Cell;
use crate::operands::{push, replace_many};
use crate::place::FramePlace;
use crate::run::{Stop, run};
use code::{MethodCode, Op};
use std::alloc::{AllocError, Global};
use std::marker::Model;

/// The most locals that a method has.
const MOST_LOCALS: usize = 1_024;

/// The most operands that a method has.
const MOST_OPERANDS: usize = 1_024;

/// The last place that a frame can have.
const LAST_PLACE: usize = 9_223_372_036_854_775_807;

/// What an activation is made of. The cells of a stack beyond its operands have no meaning. There is at least one, for the object
/// that a handler gets, also where the method is to have no operand.
#[derive(Drop)]
struct Parts {
    class: usize,
    method: usize,
    is_first: bool,
    place: usize,
    top: usize,
    limit: usize,
    locals: Vec<Cell>,
    stack: Vec<Cell>,
}

/// An activation, in memory of its own, so that it is moved as one pointer. It has room for any method's locals and operands.
#[derive(Drop)]
pub(crate) struct Slot {
    parts: Box<Parts>,
}

impl Model for Slot {
    ghost use Rattle.std.specs.Prelude.{◌≤◌, ◌<◌, ◌+◌, ◌^◌, vec_capacity, vec_len};
    ghost use Rattle.frames.specs.declared.slot.TheConstants.{MOST_LOCALS, MOST_OPERANDS};
    ghost use Rattle.frames.specs.Frame.{frame_in};
    ghost use Rattle.frames.specs.Activations.{Activation};

    ghost Value = { Activation };

    ghost view = { λ s. record { class = s.parts.value.class; method = s.parts.value.method; is_first = s.parts.value.is_first; frame = frame_in s.parts.value.locals.items s.parts.value.stack.items s.parts.value.limit s.parts.value.top s.parts.value.place } };

    ghost invariant = { λ s. record {
      top : s.parts.value.top ≤ vec_len s.parts.value.stack;
      limit : s.parts.value.limit ≤ vec_len s.parts.value.stack;
      one : 1 ≤ vec_len s.parts.value.stack;
      place : s.parts.value.place < 2 ^ 63;
      locals : MOST_LOCALS ≤ vec_capacity s.parts.value.locals;
      operands : MOST_OPERANDS + 1 ≤ vec_capacity s.parts.value.stack;
    } };
}

impl Slot {
    /// An activation of no method, for any that is entered. An `Err` means out of memory.
    pub(crate) fn new(alloc: Global) -> Result<Self, AllocError> {
        let locals = Vec::with_capacity(alloc, MOST_LOCALS)?;
        let mut stack = Vec::with_capacity(alloc, MOST_OPERANDS + 1)?;
        stack.push(Cell::Unset)?;
        let parts = Parts {
            class: 0,
            method: 0,
            is_first: false,
            place: 0,
            top: 0,
            limit: 0,
            locals,
            stack,
        };
        Ok(Slot {
            parts: Box::new(alloc, parts)?,
        })
    }

    /// Becomes a method's activation, with these arguments, the lowest first. Takes no memory for a method within the limits.
    pub(crate) fn enter(
        &mut self,
        class: usize,
        method: usize,
        is_first: bool,
        code: &MethodCode,
        given: &[Cell],
    ) -> Result<(), AllocError>
        requires { length given.now ≤ code.now.locals }
        ensures ok { OnOk result (self.new ≡ activation class method is_first code.now given.now) }
        ensures room { code.now.locals ≤ MOST_LOCALS → code.now.stack ≤ MOST_OPERANDS → IsOk result }
    {
        let parts = &mut *self.parts;
        let limit = code.stack as usize;
        if parts.stack.len() <= limit {
            parts.stack.resize(limit + 1, Cell::Unset)?;
        }
        parts.locals.clear();
        parts.locals.extend_from_slice(given)?;
        parts.locals.resize(code.locals as usize, Cell::Unset)?;
        parts.class = class;
        parts.method = method;
        parts.is_first = is_first;
        parts.place = 0;
        parts.top = 0;
        parts.limit = limit;
        Ok(())
    }

    /// Makes another one the activation of a method that is called with the operands on top. Takes no memory for a method within
    /// the limits.
    pub(crate) fn call(
        &self,
        callee: &mut Slot,
        class: usize,
        method: usize,
        code: &MethodCode,
        count: usize,
    ) -> Result<(), AllocError>
        requires few { count ≤ length self.now.frame.stack }
        requires fits { count ≤ code.now.locals }
        ensures ok { OnOk result (callee.new ≡ activation class method false code.now (arguments count self.now.frame.stack)) }
        ensures room { code.now.locals ≤ MOST_LOCALS → code.now.stack ≤ MOST_OPERANDS → IsOk result }
    {
        let operands = self.parts.stack.as_slice().split_at(self.parts.top).0;
        let given = operands.split_at(self.parts.top - count).1;
        callee.enter(class, method, false, code, given)
    }

    #[inline(always)]
    pub(crate) fn place(&self) -> FramePlace
        ensures { result ≡ place_in self.now }
    {
        FramePlace {
            class: self.parts.class,
            method: self.parts.method,
            place: self.parts.place,
            is_first: self.parts.is_first,
        }
    }

    #[inline(always)]
    pub(crate) fn operand(&self, depth: usize) -> Option<Cell>
        ensures { result ≡ slice_get self.now.frame.stack depth }
    {
        if depth >= self.parts.top {
            return None;
        }
        Some(self.parts.stack[self.parts.top - 1 - depth])
    }

    #[inline(always)]
    pub(crate) fn has_room(&self) -> bool
        ensures { result ≡ has_room_in self.now }
    {
        self.parts.top < self.parts.limit
    }

    #[inline(always)]
    #[tactic(auto, using(crate::proofs::Stacks::dropped_at_most))]
    pub(crate) fn drop_operands(&mut self, count: usize)
        ensures { self.new ≡ in_frame (dropped count) self.old }
    {
        let parts = &mut *self.parts;
        parts.top = parts.top.saturating_sub(count);
    }

    #[inline(always)]
    pub(crate) fn push(&mut self, value: Cell)
        requires { has_room_in self.old ≡ true }
        ensures { self.new ≡ in_frame (pushed value) self.old }
    {
        let parts = &mut *self.parts;
        push(parts.stack.as_mut_slice(), parts.top, value);
        parts.top += 1;
    }

    /// One operand in the place of those on top, of which there is one at least.
    #[tactic(auto, using(crate::proofs::Stacks::few_operands))]
    pub(crate) fn replace(&mut self, count: usize, value: Cell)
        requires some { 1 ≤ count }
        requires few { count ≤ length self.old.frame.stack }
        ensures { self.new ≡ in_frame (replaced count value) self.old }
    {
        let parts = &mut *self.parts;
        parts.top = replace_many(parts.stack.as_mut_slice(), parts.top, count, value);
    }

    #[inline(always)]
    pub(crate) fn go_to(&mut self, place: u16)
        ensures { self.new ≡ in_frame (at_place place) self.old }
    {
        self.parts.place = place as usize;
    }

    #[inline(always)]
    pub(crate) fn step_over(&mut self)
        ensures { self.new ≡ in_frame next_place self.old }
    {
        if self.parts.place < LAST_PLACE {
            self.parts.place += 1;
        }
    }

    /// Goes on at a handler.
    pub(crate) fn go_to_handler(&mut self, place: u16, reference: u32)
        ensures { self.new ≡ in_frame (at_handler place (cell.Reference reference)) self.old }
    {
        let parts = &mut *self.parts;
        push(parts.stack.as_mut_slice(), 0, Cell::Reference(reference));
        parts.top = 1;
        parts.place = place as usize;
    }

    /// Goes on within the activation.
    pub(crate) fn go_on(&mut self, ops: &[Op], limit: u64) -> (u64, Stop)
        ensures rows { Goes ops.now self.old.frame result.0 self.new.frame }
        ensures stops { Stops ops.now self.new.frame result.1 }
        ensures same { self.new ≡ in_frame (λ f. self.new.frame) self.old }
        ensures limit { result.0 ≤ limit }
        ensures reached { result.1 ≡ stop.Limit → result.0 ≡ limit }
        ensures before { IsAtNext result.1 → result.0 < limit }
    {
        let parts = &mut *self.parts;
        let ran = run(
            ops,
            parts.locals.as_mut_slice(),
            parts.stack.as_mut_slice(),
            parts.limit,
            parts.top,
            parts.place,
            limit,
        );
        parts.top = ran.top;
        parts.place = ran.place;
        (ran.done, ran.stop)
    }
}
