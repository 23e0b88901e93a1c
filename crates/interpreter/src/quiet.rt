//! What a thread does between its touches of what all threads share: it is the same whatever others make of that.

ghost use Rattle.std.specs.Prelude.{◌≡◌, ◌↔◌, ◌<◌, [], List, None, Some, IfNone, IfSome, IsTrue};
ghost use Rattle.code.specs.IsCode.{IsCode};
ghost use Rattle.bodies.specs.declared.does.Does.TheVariants as does;
ghost use Rattle.heap.specs.declared.object.HeapObject.{HeapObject};
ghost use Rattle.interpreter.specs.Rows.{IsHere, Row, Rows, to_do};
ghost use Rattle.interpreter.specs.Says.{IsSayable, NoClassReady};
ghost use Rattle.interpreter.specs.Leads.{AsksNothing, IsQuietLead, LeadsTo};
ghost use Rattle.interpreter.specs.Touching.{ComesNext, IsToTouch, Quietly, RowsBetween, TouchesNothing};
ghost use Rattle.interpreter.specs.declared.lead.Lead.{Lead as LeadFacts};
ghost use Rattle.interpreter.specs.declared.phase.Phase.TheVariants as phases;

use crate::fitting::{built_in_type, has_plain_arguments, is_plain};
use crate::halves::asks_of;
use crate::interpreter::Interpreter;
use crate::lead::{Lead, lead_of};
use crate::methods::{method_code, static_type};
use crate::moves::{give, jump, take};
use crate::phase::Phase;
use crate::preparing::first_method;
use crate::says::Resumes;
use bodies::{Does, Limit};
use code::{Code, MethodCode, Op, instructions_name_what_is_there};
use frames::{Cell, FramePlace, Frames, Stop};
use heap::Heap;
use hierarchy::{BuiltIn, Program};
use std::alloc::Global;

/// Whether an instruction asks nothing of what is shared before it goes on, before its active use, or before it enters a monitor.
fn asks_nothing(
    frames: &Frames,
    program: &Program,
    resolved: &Code,
    code: &MethodCode,
    op: Op,
) -> bool
    requires code { IsCode resolved.now program.now }
    ensures { IsTrue result ↔ AsksNothing program.now frames.now code.now op }
{
    let top = frames.operand(0);
    match op {
        Op::Switch
        | Op::New(_)
        | Op::EnterMonitor
        | Op::GetStatic(_, _)
        | Op::GetOut
        | Op::ReturnInt
        | Op::Return => true,
        Op::CheckCast(_) | Op::CheckCastMissing | Op::InstanceOf(_) | Op::InstanceOfMissing => {
            matches!(top, Some(Cell::Null))
        }
        Op::PutStatic(class, field) => {
            let wanted = static_type(program, resolved, class as usize, field as usize);
            is_plain(wanted, top)
        }
        Op::PutOut => is_plain(Some(built_in_type(program, BuiltIn::PrintStream)), top),
        Op::InvokeStatic(class, method) => {
            let callee = method_code(program, resolved, class as usize, method as usize);
            has_plain_arguments(frames, callee)
        }
        Op::ReturnReference => is_plain(code.result, top),
        _ => false,
    }
}

/// Whether what an instruction comes to is an active use, a jump, another operand, a return, or a monitor that is entered next.
fn is_quiet(lead: Lead) -> bool
    ensures { IsTrue result ↔ IsQuietLead lead }
{
    matches!(
        lead,
        Lead::Uses(_)
            | Lead::Jumps(_)
            | Lead::Gives(_, _)
            | Lead::Drops(_)
            | Lead::Returns(_)
            | Lead::EntersMonitor(_)
    )
}

impl Interpreter {
    /// What an instruction comes to that asks nothing, where it goes on so ([`is_quiet`]): the same whatever was made.
    fn quiet_lead(
        &self,
        alloc: Global,
        program: &Program,
        resolved: &Code,
        at: FramePlace,
        code: &MethodCode,
        op: Op,
    ) -> Option<Lead>
        requires code { IsCode resolved.now program.now }
        ensures always { IfSome result (λ l. (made : List HeapObject) → LeadsTo program.now made self.now.frames at code.now op l) }
        ensures quiet { IfSome result (λ l. AsksNothing program.now self.now.frames code.now op × IsQuietLead l) }
        ensures none { IfNone result ((l : LeadFacts) → AsksNothing program.now self.now.frames code.now op → LeadsTo program.now [] self.now.frames at code.now op l → IsQuietLead l → ⊥) }
    {
        if !asks_nothing(&self.frames, program, resolved, code, op) {
            return None;
        }
        let nothing = Heap::new(alloc);
        let lead = lead_of(&self.frames, &nothing, program, resolved, at, code, op);
        if is_quiet(lead) { Some(lead) } else { None }
    }

    /// Does the instruction at which the innermost frame stopped, where that touches nothing: what the body does by it, or nothing yet; none
    /// where it touches what is shared, and then nothing changes.
    fn lead_quietly(
        &mut self,
        alloc: Global,
        program: &Program,
        resolved: &Code,
        at: FramePlace,
        code: &MethodCode,
        op: Op,
    ) -> Option<Option<Does>>
        requires code { IsCode resolved.now program.now }
        requires left { 0 < self.old.left }
        requires at { IsHere program.now self.old at code.now op }
        ensures row { result ≡ Some None → Quietly (Row program.now) self.old self.new }
        ensures less { result ≡ Some None → to_do self.new < to_do self.old }
        ensures says { IfSome result (λ d. IfSome d (λ x. Quietly (ComesNext program.now x) self.old self.new)) }
        ensures sayable { IfSome result (λ d. IfSome d (IsSayable program.now phases.Runs)) }
        ensures free { IfSome result (λ d. IsToTouch program.now self.old self.old.phase → ⊥) }
        ensures none { result ≡ None → self.new ≡ self.old }
        ensures touches { result ≡ None → TouchesNothing program.now self.old.frames self.old.taken code.now op → ⊥ }
    {
        instructions_name_what_is_there(program);
        let lead = self.quiet_lead(alloc, program, resolved, at, code, op)?;
        match (lead, asks_of(program, op)) {
            (Lead::Uses(_), Some(class)) => {
                self.left -= 1;
                Some(Some(Does::Asks(class)))
            }
            (Lead::Jumps(to), _) => {
                self.left -= 1;
                jump(&mut self.frames, to);
                Some(None)
            }
            (Lead::Gives(count, value), _) => {
                self.left -= 1;
                give(&mut self.frames, count, value);
                Some(None)
            }
            (Lead::Drops(count), _) => {
                self.left -= 1;
                take(&mut self.frames, count);
                Some(None)
            }
            (Lead::EntersMonitor(reference), _) => {
                self.left -= 1;
                self.enter_monitor(reference);
                Some(None)
            }
            (Lead::Returns(value), _) if self.taken_here().is_none() => {
                self.left -= 1;
                self.leave_frame(at, value);
                Some(None)
            }
            _ => None,
        }
    }

    /// Goes on with the innermost frame, up to what touches what is shared: what the body does, or nothing yet; none where it has come to
    /// such.
    fn turn_quietly(
        &mut self,
        alloc: Global,
        program: &Program,
        resolved: &Code,
    ) -> Option<Option<Does>>
        requires code { IsCode resolved.now program.now }
        requires phase { self.old.phase ≡ phases.Runs }
        ensures rows { result ≡ Some None → Quietly (RowsBetween program.now) self.old self.new }
        ensures less { result ≡ Some None → to_do self.new < to_do self.old }
        ensures says { IfSome result (λ d. IfSome d (λ x. Quietly (ComesNext program.now x) self.old self.new)) }
        ensures sayable { IfSome result (λ d. IfSome d (IsSayable program.now phases.Runs)) }
        ensures touches { result ≡ None → Quietly (ComesNext program.now does.Touches) self.old self.new }
    {
        let Some(at) = self.frames.at() else {
            return Some(Some(Does::Over(None)));
        };
        let Some(code) = method_code(program, resolved, at.class, at.method) else {
            return Some(Some(Does::Over(None)));
        };
        let stop = self.go_in(program, code);
        let Some(at) = self.frames.at() else {
            unreachable!()
        };
        match stop {
            Stop::Limit => {
                self.phase = Phase::Spent;
                Some(Some(Does::Ended(Limit::Steps)))
            }
            Stop::LeadsOut(op) => self.lead_quietly(alloc, program, resolved, at, code, op),
            _ => None,
        }
    }

    /// Goes on up to what the innermost body does next, or to what touches what is shared; it waits for no class.
    fn run_quietly(&mut self, alloc: Global, program: &Program, resolved: &Code) -> Does
        requires code { IsCode resolved.now program.now }
        requires ready { NoClassReady self.old.phase }
        ensures says { Quietly (ComesNext program.now result) self.old self.new }
        ensures sayable { (phase : _) → IsSayable program.now phase result }
    {
        loop {
            match self.phase {
                Phase::Over(thrown) => return self.over(program, thrown),
                Phase::Spent => return Does::Ended(Limit::Steps),
                Phase::Ready(_) => unreachable!(),
                Phase::Half => match self.say_half(alloc, program, resolved) {
                    Ok(None) => {}
                    Ok(Some(does)) => return does,
                    Err(_) => return Does::Ended(Limit::Memory),
                },
                Phase::Runs => match self.turn_quietly(alloc, program, resolved) {
                    Some(None) => {}
                    Some(Some(does)) => return does,
                    None => return Does::Touches,
                },
                Phase::Begins(class, given) => {
                    if self.begin_body(program, resolved, class, given).is_err() {
                        return Does::Ended(Limit::Memory);
                    }
                }
                Phase::Enters(class) => {
                    if first_method(program, resolved, class, Some(0)).is_some() {
                        return Does::Touches;
                    }
                    self.phase = Phase::Over(None);
                }
                _ => return Does::Touches,
            }
        }
    }

    /// Goes on up to what the innermost body does next, or to what touches what is shared.
    pub(crate) fn say_quietly(&mut self, alloc: Global, program: &Program, resolved: &Code) -> Does
        requires code { IsCode resolved.now program.now }
        ensures says { Quietly (ComesNext program.now result) self.old self.new }
        ensures sayable { IsSayable program.now self.old.phase result }
    {
        let Phase::Ready(class) = self.phase else {
            return self.run_quietly(alloc, program, resolved);
        };
        match self.resumes(program, resolved, class) {
            Resumes::Gets(field) => self.get_static(program, class, field),
            Resumes::Puts(field) => self.put_static(program, class, field),
            Resumes::Calls(wanted, method) => {
                if self.frames.len() >= 512 {
                    return Does::Touches;
                }
                match self.call_static(program, resolved, class, wanted, method) {
                    Ok(()) => self.run_quietly(alloc, program, resolved),
                    Err(_) => Does::Ended(Limit::Memory),
                }
            }
            Resumes::Idles => {
                self.phase = Phase::Runs;
                self.run_quietly(alloc, program, resolved)
            }
            Resumes::Makes(_) => Does::Touches,
        }
    }
}
