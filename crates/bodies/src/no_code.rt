//! Bodies that are empty.

ghost use Rattle.std.specs.Prelude.{◌≡◌, Ok};
ghost use Rattle.bodies.specs.declared.does.Touched.TheVariants.{Held};

use crate::does::{Bodies, Does, Touched};
use hierarchy::{BuiltIn, ClassId, Program, Value};
use init_core::Completed;
use std::alloc::{AllocError, Global};

/// Each class is run as if it had no initializer, and a main class as if it had no `main`.
#[derive(Clone, Copy, Drop)]
pub struct NoCode;

impl Bodies for NoCode {
    type Code = ();

    type Shared = ();

    ghost use Rattle.bodies.specs.Sharing.{comes_to_no_limit, empty_bodies, waits_for_nothing};

    ghost is_code = { λ code p. Unit {0} };

    ghost making = { λ p. empty_bodies };

    fn start(&mut self, _alloc: Global, _program: &Program, _code: &(), _class: ClassId) {}

    fn enter(&mut self, _alloc: Global, _program: &Program, _code: &(), _class: ClassId) {}

    fn next(
        &mut self,
        _alloc: Global,
        _program: &Program,
        _code: &(),
        _last: Option<Completed>,
    ) -> Does {
        Does::Over(None)
    }

    /// Never called in a run, since an empty body comes to no touch.
    fn touch(
        &mut self,
        _alloc: Global,
        _program: &Program,
        _code: &(),
        _shared: &mut (),
    ) -> Result<Touched, AllocError>
        ensures held { result ≡ Ok Held }
        ensures still { self.new ≡ self.old }
        ensures shared { _shared.new ≡ _shared.old }
    {
        Ok(Touched::Held)
    }

    fn waits(&self, _program: &Program, _shared: &()) -> bool {
        false
    }

    fn get(&mut self, _program: &Program, _value: Value) {}

    fn leave(&mut self, _program: &Program) {}

    fn replace(
        &mut self,
        _alloc: Global,
        program: &Program,
        _shared: &mut (),
        _thrown: ClassId,
    ) -> Result<ClassId, AllocError> {
        Ok(program.built_in(BuiltIn::ExceptionInInitializerError))
    }

    fn end(&mut self, _program: &Program, _shared: &mut ()) {}

    ghost waits_on = { waits_for_nothing };

    ghost limits_stay = { comes_to_no_limit };
}
