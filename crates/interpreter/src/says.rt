//! What the innermost body does next.

ghost use Rattle.std.specs.Prelude.{◌≡◌, ◌<◌, ◌↔◌, IsTrue, true, IfNone, IfOk, IfSome, None, OnErr, OnOk, length, option_copied};
ghost use Rattle.code.specs.IsCode.{IsCode};
ghost use Rattle.bodies.specs.declared.does.Does.TheVariants as does;
ghost use Rattle.bodies.specs.declared.report.Limit.TheVariants.{Steps};
ghost use Rattle.code.specs.declared.op.Op.{Op as OpFacts};
ghost use Rattle.code.specs.declared.op.Op.TheVariants as op;
ghost use Rattle.frames.specs.Activations.{has_room, operands_of};
ghost use Rattle.hierarchy.specs.LinkedProgram.{id};
ghost use Rattle.interpreter.specs.Methods.{method_at};
ghost use Rattle.hierarchy.specs.Subclasses.{IsThrowable};
ghost use Rattle.interpreter.specs.CodeRun.{AloneSaysNext};
ghost use Rattle.interpreter.specs.Memory.{TakesMemory};
ghost use Rattle.interpreter.specs.Rows.{HasArguments, IsAtOp, Row, WaitsFor};
ghost use Rattle.interpreter.specs.Says.{IsAnswer, NoClassReady, IsSayable, Resuming, Says, value_on_top as top_value};
ghost use Rattle.interpreter.specs.Touching.{Quietly};
ghost use Rattle.interpreter.specs.declared.phase.Phase.TheVariants as phases;
ghost use Rattle.interpreter.specs.declared.says.Resumes.TheVariants as resumes;

use crate::fitting::is_kind_of;
use crate::interpreter::Interpreter;
use crate::methods::{method_code, static_type};
use crate::moves::take;
use crate::phase::Phase;
use bodies::{Does, Limit};
use code::{Code, MethodCode, Op, instructions_name_what_is_there};
use frames::{Cell, Thrown};
use heap::{Monitor, no_class};
use hierarchy::{BuiltIn, ClassId, Program, Value, throwables_are_subclasses};
use std::alloc::{AllocError, Global};

/// The operand on top as a static field takes it.
fn value_on_top(value: Option<Cell>) -> Value
    ensures { result ≡ top_value value }
{
    match value {
        Some(Cell::Int(number)) => Value::Int(number),
        Some(Cell::Reference(number)) => Value::Reference(number),
        _ => Value::Null,
    }
}

/// What comes where a class was made ready, by the instruction that waited for it.
#[derive(Clone, Copy)]
pub(crate) enum Resumes {
    /// The static field at this place of the class is read.
    Gets(u16),
    /// It is written.
    Puts(u16),
    /// An object of the class of this number is made.
    Makes(u16),
    /// This method of the class of this number is called.
    Calls(u16, u16),
    /// No instruction waited for the class.
    Idles,
}

/// Whether an object that left a body is a throwable.
pub(crate) fn is_throwable(program: &Program, class: ClassId) -> bool
    ensures { IsTrue result ↔ IsThrowable program.now class }
{
    throwables_are_subclasses(program, class);
    program.is_subtype(class, program.built_in(BuiltIn::Throwable))
}

/// What is thrown where the procedure for a class completed abruptly by an error of a class, and what leaves a body.
pub(crate) fn answer(program: &Program, error: ClassId, thrown: Option<Thrown>) -> Thrown
    ensures { IsAnswer program.now error thrown result }
{
    match thrown {
        Some(thrown) => {
            if thrown.class == error && is_throwable(program, error) {
                thrown
            } else {
                no_class(program)
            }
        }
        None => no_class(program),
    }
}

impl Interpreter {
    /// The instruction at the innermost frame's place, where there is one.
    pub(crate) fn op(&self, program: &Program, resolved: &Code) -> Option<Op>
        requires code { IsCode resolved.now program.now }
        ensures some { IfSome result (IsAtOp program.now self.now.frames) }
        ensures none { IfNone result ((o : OpFacts) → IsAtOp program.now self.now.frames o → ⊥) }
    {
        let Some(at) = self.frames.at() else {
            return None;
        };
        let Some(code) = method_code(program, resolved, at.class, at.method) else {
            return None;
        };
        code.ops.as_slice().get(at.place).copied()
    }

    /// Whether there is such a method, the innermost frame has as many operands as it takes, and it as many locals.
    fn has_arguments(&self, callee: Option<&MethodCode>) -> bool
        ensures { IsTrue result ↔ HasArguments (option_copied callee.entry) (operands_of self.now.frames) }
    {
        let Some(callee) = callee else {
            return false;
        };
        let count = callee.parameters.len();
        count <= callee.locals as usize && (count == 0 || self.frames.operand(count - 1).is_some())
    }

    /// The body is over.
    #[tactic(auto, using(crate::proofs::Saying::answers_are_thrown))]
    pub(crate) fn over(&mut self, program: &Program, thrown: Option<Thrown>) -> Does
        requires { self.old.phase ≡ phases.Over thrown }
        ensures says { Quietly (λ u v. Says program.now u result v) self.old self.new }
        ensures sayable { IsSayable program.now self.old.phase result }
    {
        match thrown {
            Some(object) => {
                let left = answer(program, object.class, thrown);
                self.thrown = Some(left);
                Does::Over(Some(left.class))
            }
            None => {
                self.thrown = None;
                self.phase = Phase::Runs;
                Does::Over(None)
            }
        }
    }

    /// Whether an instruction waits for a class, to do its last part.
    #[tactic(auto, using(crate::proofs::Saying::same_number, crate::proofs::Saying::number_of))]
    fn waits_for(&self, program: &Program, resolved: &Code, op: Op, class: ClassId) -> bool
        requires code { IsCode resolved.now program.now }
        ensures { IsTrue result ↔ WaitsFor program.now self.now.frames op class }
    {
        match op {
            Op::GetStatic(wanted, _) => class.number == wanted as usize,
            Op::PutStatic(wanted, field) => {
                let held = static_type(program, resolved, wanted as usize, field as usize);
                class.number == wanted as usize && is_kind_of(held, self.frames.operand(0))
            }
            Op::New(wanted) => class.number == wanted as usize && self.frames.has_room(),
            Op::InvokeStatic(wanted, method) => {
                let callee = method_code(program, resolved, wanted as usize, method as usize);
                class.number == wanted as usize && self.has_arguments(callee)
            }
            _ => false,
        }
    }

    /// Reads the static field for which its class was made ready.
    pub(crate) fn get_static(&mut self, program: &Program, class: ClassId, field: u16) -> Does
        requires phase { self.old.phase ≡ phases.Ready class }
        requires at { Resuming program.now self.old.frames class (resumes.Gets field) }
        ensures says { Quietly (λ u v. Says program.now u result v) self.old self.new }
        ensures sayable { IsSayable program.now self.old.phase result }
    {
        program.is_linked();
        instructions_name_what_is_there(program);
        self.phase = Phase::Runs;
        Does::Gets {
            class,
            field: field as usize,
        }
    }

    /// Writes the static field for which its class was made ready.
    pub(crate) fn put_static(&mut self, program: &Program, class: ClassId, field: u16) -> Does
        requires phase { self.old.phase ≡ phases.Ready class }
        requires at { Resuming program.now self.old.frames class (resumes.Puts field) }
        ensures says { Quietly (λ u v. Says program.now u result v) self.old self.new }
        ensures sayable { IsSayable program.now self.old.phase result }
    {
        instructions_name_what_is_there(program);
        let value = value_on_top(self.frames.operand(0));
        take(&mut self.frames, 1);
        self.phase = Phase::Runs;
        Does::Puts {
            class,
            field: field as usize,
            value,
        }
    }

    /// Calls the method for which its class was made ready. An `Err` means out of memory, and changes nothing.
    #[tactic(auto, using(crate::proofs::Saying::calls_at, crate::proofs::Saying::calls_takes, crate::proofs::Saying::frame_there))]
    pub(crate) fn call_static(
        &mut self,
        program: &Program,
        resolved: &Code,
        ready: ClassId,
        class: u16,
        method: u16,
    ) -> Result<(), AllocError>
        requires code { IsCode resolved.now program.now }
        requires phase { self.old.phase ≡ phases.Ready ready }
        requires ready { ready ≡ id class }
        requires at { IsAtOp program.now self.old.frames (op.InvokeStatic class method) }
        requires arguments { HasArguments (method_at program.now class method) (operands_of self.old.frames) }
        ensures row { OnOk result (Row program.now self.old self.new) }
        ensures quiet { length self.old.frames < 512 → OnOk result (Quietly (Row program.now) self.old self.new) }
        ensures unready { OnOk result (NoClassReady self.new.phase) }
        ensures memory { OnErr result (TakesMemory program.now self.old) }
        ensures err { OnErr result (self.new ≡ self.old) }
    {
        let (class, method) = (class as usize, method as usize);
        let Some(callee) = method_code(program, resolved, class, method) else {
            unreachable!()
        };
        let count = callee.parameters.len();
        self.phase = Phase::Runs;
        if self
            .call(program, class, method, callee, count, Monitor::Class(ready))
            .is_err()
        {
            self.phase = Phase::Ready(ready);
            return Err(AllocError);
        }
        Ok(())
    }

    /// Makes an object of the class that was made ready for it. An `Err` means out of memory, and changes nothing.
    #[tactic(auto, using(crate::proofs::Saying::makes_at, crate::proofs::Saying::makes_takes, crate::proofs::Served::room_for_one))]
    pub(crate) fn make(
        &mut self,
        program: &Program,
        ready: ClassId,
        class: u16,
    ) -> Result<(), AllocError>
        requires phase { self.old.phase ≡ phases.Ready ready }
        requires ready { ready ≡ id class }
        requires at { IsAtOp program.now self.old.frames (op.New class) }
        requires room { has_room self.old.frames ≡ true }
        ensures row { OnOk result (Row program.now self.old self.new) }
        ensures unready { OnOk result (NoClassReady self.new.phase) }
        ensures memory { OnErr result (TakesMemory program.now self.old) }
        ensures err { OnErr result (self.new ≡ self.old) }
    {
        self.phase = Phase::Runs;
        if self.make_object(program, ready).is_err() {
            self.phase = Phase::Ready(ready);
            return Err(AllocError);
        }
        Ok(())
    }

    /// What comes where a class was made ready, by the instruction that waits for it.
    pub(crate) fn resumes(&self, program: &Program, resolved: &Code, class: ClassId) -> Resumes
        requires code { IsCode resolved.now program.now }
        ensures { Resuming program.now self.now.frames class result }
    {
        let Some(op) = self.op(program, resolved) else {
            return Resumes::Idles;
        };
        if !self.waits_for(program, resolved, op, class) {
            return Resumes::Idles;
        }
        match op {
            Op::GetStatic(_, field) => Resumes::Gets(field),
            Op::PutStatic(_, field) => Resumes::Puts(field),
            Op::New(wanted) => Resumes::Makes(wanted),
            Op::InvokeStatic(wanted, method) => Resumes::Calls(wanted, method),
            _ => unreachable!(),
        }
    }

    /// Goes on up to what the innermost body does next, on a thread that is alone.
    pub(crate) fn say(&mut self, alloc: Global, program: &Program, resolved: &Code) -> Does
        requires code { IsCode resolved.now program.now }
        ensures says { AloneSaysNext program.now self.old result self.new }
        ensures sayable { IsSayable program.now self.old.phase result }
    {
        let Phase::Ready(class) = self.phase else {
            return self.say_running(alloc, program, resolved);
        };
        match self.resumes(program, resolved, class) {
            Resumes::Gets(field) => self.get_static(program, class, field),
            Resumes::Puts(field) => self.put_static(program, class, field),
            Resumes::Makes(wanted) => match self.make(program, class, wanted) {
                Ok(()) => self.say_running(alloc, program, resolved),
                Err(_) => Does::Ended(Limit::Memory),
            },
            Resumes::Calls(wanted, method) => {
                match self.call_static(program, resolved, class, wanted, method) {
                    Ok(()) => self.say_running(alloc, program, resolved),
                    Err(_) => Does::Ended(Limit::Memory),
                }
            }
            Resumes::Idles => {
                self.phase = Phase::Runs;
                self.say_running(alloc, program, resolved)
            }
        }
    }

    /// Goes on up to what the innermost body does next, which waits for no class.
    fn say_running(&mut self, alloc: Global, program: &Program, resolved: &Code) -> Does
        requires code { IsCode resolved.now program.now }
        requires ready { NoClassReady self.old.phase }
        ensures says { AloneSaysNext program.now self.old result self.new }
        ensures sayable { (phase : _) → IsSayable program.now phase result }
    {
        loop {
            match self.phase {
                Phase::Over(thrown) => return self.over(program, thrown),
                Phase::Spent => return Does::Ended(Limit::Steps),
                Phase::Ready(_) => unreachable!(),
                Phase::Half => match self.say_half(alloc, program, resolved) {
                    Ok(None) => {}
                    Ok(Some(does)) => return does,
                    Err(_) => return Does::Ended(Limit::Memory),
                },
                Phase::Runs => match self.turn(program, resolved) {
                    Ok(None) => {}
                    Ok(Some(does)) => return does,
                    Err(_) => return Does::Ended(Limit::Memory),
                },
                _ => match self.prepare(program, resolved) {
                    Ok(true) => {}
                    Ok(false) => return self.wait_in_vain(),
                    Err(_) => return Does::Ended(Limit::Memory),
                },
            }
        }
    }

    /// (There is no other thread that could hold a monitor.)
    fn wait_in_vain(&mut self) -> Does
        ensures does { result ≡ does.Ended Steps }
        ensures spent { self.new ≡ record self.old { left = 0; phase = phases.Spent } }
    {
        self.left = 0;
        self.phase = Phase::Spent;
        Does::Ended(Limit::Steps)
    }
}
