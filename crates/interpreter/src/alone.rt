//! Code on a thread that is alone.

ghost use Rattle.std.specs.Prelude.{◌≡◌, Ok};
ghost use Rattle.bodies.specs.declared.does.Touched.TheVariants.{Held};
ghost use Rattle.code.specs.IsCode.{IsCode};
ghost use Rattle.interpreter.specs.CodeRun.{interpreter_at_start};

use crate::interpreter::Interpreter;
use crate::phase::Phase;
use bodies::{Bodies, Does, Touched};
use code::Code;
use hierarchy::{ClassId, Program, Value};
use init_core::Completed;
use std::alloc::{AllocError, Global};
use std::marker::Model;

/// What runs the code of a thread that is alone: it has its heap to itself, and never comes to what others share.
pub struct AloneInterpreter {
    inside: Interpreter,
}

impl Drop for AloneInterpreter {
    fn drop(self) {
        let Self { inside: _ } = self;
    }
}

impl Model for AloneInterpreter {
    ghost use Rattle.interpreter.specs.declared.interpreter.Interpreter.{Interpreter};

    ghost Value = { Interpreter };

    ghost view = { λ s. s.inside };
}

impl AloneInterpreter {
    /// What runs the code of the thread of this number, which may begin so many instructions; nothing has run yet. Takes no memory.
    pub fn new(alloc: Global, thread: u8, steps: u32) -> Self
        ensures { result ≡ interpreter_at_start thread steps }
    {
        AloneInterpreter {
            inside: Interpreter::new(alloc, thread, steps),
        }
    }
}

impl Bodies for AloneInterpreter {
    type Code = Code;

    type Shared = ();

    ghost use Rattle.interpreter.specs.CodeRun.{alone_bodies, never_waits, stays_ended};

    ghost is_code = { λ c p. IsCode c p };

    ghost making = { λ p. alone_bodies p };

    fn start(&mut self, _alloc: Global, _program: &Program, _resolved: &Code, class: ClassId) {
        self.inside.phase = Phase::Begins(class, None);
    }

    fn enter(&mut self, _alloc: Global, _program: &Program, _resolved: &Code, class: ClassId) {
        self.inside.phase = Phase::Enters(class);
    }

    fn next(
        &mut self,
        alloc: Global,
        program: &Program,
        resolved: &Code,
        last: Option<Completed>,
    ) -> Does {
        self.inside.tell(program, last);
        self.inside.say(alloc, program, resolved)
    }

    /// Never called in a run, since code that is alone comes to no touch.
    fn touch(
        &mut self,
        _alloc: Global,
        _program: &Program,
        _resolved: &Code,
        _shared: &mut (),
    ) -> Result<Touched, AllocError>
        ensures held { result ≡ Ok Held }
        ensures still { self.new ≡ self.old }
        ensures shared { _shared.new ≡ _shared.old }
    {
        Ok(Touched::Held)
    }

    fn waits(&self, _program: &Program, _shared: &()) -> bool {
        false
    }

    fn get(&mut self, program: &Program, value: Value) {
        self.inside.take_value(program, value);
    }

    fn leave(&mut self, _program: &Program) {
        self.inside.leave_body();
    }

    fn replace(
        &mut self,
        _alloc: Global,
        program: &Program,
        _shared: &mut (),
        thrown: ClassId,
    ) -> Result<ClassId, AllocError> {
        self.inside.replaced(program, thrown)
    }

    fn end(&mut self, _program: &Program, _shared: &mut ()) {}

    ghost waits_on = { never_waits };

    ghost limits_stay = { stays_ended };
}
