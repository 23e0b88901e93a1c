//! Code on one of several threads, which share one heap.

ghost use Rattle.std.specs.Prelude.{◌≡◌, ◌≢◌, true, false, IfOk, OnErr, OnOk};
ghost use Rattle.code.specs.IsCode.{IsCode};
ghost use Rattle.interpreter.specs.Memory.{TakesMemory};
ghost use Rattle.frames.specs.declared.run.Stop.TheVariants as stops;
ghost use Rattle.interpreter.specs.Rows.{IsStopped, Row};
ghost use Rattle.interpreter.specs.Touching.{IsToTouch};
ghost use Rattle.interpreter.specs.Waiting.{IsHeldUp};
ghost use Rattle.interpreter.specs.declared.phase.Phase.TheVariants as phases;

use crate::interpreter::Interpreter;
use crate::lead::lead_of;
use crate::methods::method_code;
use crate::objects::Objects;
use crate::phase::Phase;
use crate::says::Resumes;
use bodies::{Bodies, Does, Touched};
use code::{Code, MethodCode, instructions_name_what_is_there};
use frames::{FramePlace, Stop};
use hierarchy::{ClassId, Program, Value};
use init_core::Completed;
use std::alloc::{AllocError, Global};

impl Interpreter {
    /// Does the instruction at which the innermost frame stopped, up to its second half. An `Err` means out of memory, and changes nothing.
    fn touch_at(
        &mut self,
        program: &Program,
        resolved: &Code,
        at: FramePlace,
        code: &MethodCode,
        stop: Stop,
    ) -> Result<(), AllocError>
        requires code { IsCode resolved.now program.now }
        requires stopped { IsStopped program.now self.old at code.now stop }
        requires left { stop ≢ stops.Limit }
        ensures row { OnOk result (Row program.now self.old self.new) }
        ensures memory { OnErr result (TakesMemory program.now self.old) }
        ensures err { OnErr result (self.new ≡ self.old) }
    {
        match stop {
            Stop::Limit => unreachable!(),
            Stop::PastTheEnd => self.run_past(program, at),
            Stop::Throws(class) => self.fail_by(program, class),
            Stop::LeadsOut(op) => {
                instructions_name_what_is_there(program);
                let lead = lead_of(&self.frames, &self.heap, program, resolved, at, code, op);
                self.perform_one(program, resolved, at, lead)
            }
        }
    }

    /// Does what the innermost frame comes to, which has stopped before that. An `Err` means out of memory, and changes nothing.
    fn touch_running(&mut self, program: &Program, resolved: &Code) -> Result<(), AllocError>
        requires code { IsCode resolved.now program.now }
        requires touches { IsToTouch program.now self.old phases.Runs }
        ensures row { OnOk result (Row program.now self.old self.new) }
        ensures memory { OnErr result (TakesMemory program.now self.old) }
        ensures err { OnErr result (self.new ≡ self.old) }
    {
        let Some(at) = self.frames.at() else {
            unreachable!()
        };
        let Some(code) = method_code(program, resolved, at.class, at.method) else {
            unreachable!()
        };
        let stop = self.go_in(program, code);
        self.touch_at(program, resolved, at, code, stop)
    }

    /// Does what comes where a class was made ready, which makes an object or calls a method. An `Err` means out of memory, and changes
    /// nothing.
    fn touch_ready(
        &mut self,
        program: &Program,
        resolved: &Code,
        class: ClassId,
    ) -> Result<(), AllocError>
        requires code { IsCode resolved.now program.now }
        requires phase { self.old.phase ≡ phases.Ready class }
        requires touches { IsToTouch program.now self.old (phases.Ready class) }
        ensures row { OnOk result (Row program.now self.old self.new) }
        ensures memory { OnErr result (TakesMemory program.now self.old) }
        ensures err { OnErr result (self.new ≡ self.old) }
    {
        match self.resumes(program, resolved, class) {
            Resumes::Makes(wanted) => self.make(program, class, wanted),
            Resumes::Calls(wanted, method) => {
                self.call_static(program, resolved, class, wanted, method)
            }
            _ => unreachable!(),
        }
    }

    /// Does what comes next, which touches what is shared; `false` where that is a monitor that another thread holds, and then nothing
    /// changes. An `Err` means out of memory, and changes nothing.
    fn touch_with_objects(&mut self, program: &Program, resolved: &Code) -> Result<bool, AllocError>
        requires code { IsCode resolved.now program.now }
        requires touches { IsToTouch program.now self.old self.old.phase }
        ensures row { IfOk result (λ done. done ≡ true → Row program.now self.old self.new) }
        ensures held { IfOk result (λ done. done ≡ false → IsHeldUp self.old self.new) }
        ensures memory { OnErr result (TakesMemory program.now self.old) }
        ensures err { OnErr result (self.new ≡ self.old) }
    {
        match self.phase {
            Phase::Runs => self.touch_running(program, resolved)?,
            Phase::Ready(class) => self.touch_ready(program, resolved, class)?,
            _ => return self.prepare(program, resolved),
        }
        Ok(true)
    }
}

impl Bodies for Interpreter {
    type Code = Code;

    type Shared = Objects;

    ghost use Rattle.interpreter.specs.CodeRun.{stays_ended};
    ghost use Rattle.interpreter.specs.Touching.{code_bodies, waits_once};

    ghost is_code = { λ c p. IsCode c p };

    ghost making = { λ p. code_bodies p };

    fn start(&mut self, _alloc: Global, _program: &Program, _resolved: &Code, class: ClassId) {
        self.phase = Phase::Begins(class, None);
    }

    fn enter(&mut self, _alloc: Global, _program: &Program, _resolved: &Code, class: ClassId) {
        self.phase = Phase::Enters(class);
    }

    fn next(
        &mut self,
        alloc: Global,
        program: &Program,
        resolved: &Code,
        last: Option<Completed>,
    ) -> Does {
        self.tell(program, last);
        self.say_quietly(alloc, program, resolved)
    }

    fn touch(
        &mut self,
        _alloc: Global,
        program: &Program,
        resolved: &Code,
        shared: &mut Objects,
    ) -> Result<Touched, AllocError> {
        self.exchange(shared);
        let touched = self.touch_with_objects(program, resolved);
        self.exchange(shared);
        match touched {
            Ok(true) if shared.monitors.take_freed() => Ok(Touched::Left),
            Ok(true) => Ok(Touched::Done),
            Ok(false) => Ok(Touched::Held),
            Err(_) => Err(AllocError),
        }
    }

    fn waits(&self, _program: &Program, shared: &Objects) -> bool {
        self.is_kept_out(shared)
    }

    fn get(&mut self, program: &Program, value: Value) {
        self.take_value(program, value);
    }

    fn leave(&mut self, _program: &Program) {
        self.leave_body();
    }

    fn replace(
        &mut self,
        _alloc: Global,
        program: &Program,
        shared: &mut Objects,
        thrown: ClassId,
    ) -> Result<ClassId, AllocError> {
        self.exchange(shared);
        let error = self.replaced(program, thrown);
        self.exchange(shared);
        error
    }

    fn end(&mut self, _program: &Program, shared: &mut Objects) {
        shared.monitors.release_all(self.thread);
    }

    ghost waits_on = { waits_once };

    ghost limits_stay = { stays_ended };
}
