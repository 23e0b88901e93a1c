//! What comes before a body's innermost frame goes on: its beginning, what is thrown there, and monitors.

ghost use Rattle.std.specs.Prelude.{◌≡◌, ◌<◌, ◌≤◌, true, false, IfOk, OnErr, OnOk, length};
ghost use Rattle.code.specs.IsCode.{IsCode};
ghost use Rattle.heap.specs.Objects.{has_cells, no_texts, reference_of_new, with_new};
ghost use Rattle.interpreter.specs.Memory.{MakesThrown, TakesMemory};
ghost use Rattle.interpreter.specs.Methods.{method_at};
ghost use Rattle.interpreter.specs.Rows.{BeginsWith, Row, fails_by, first_method as first_method_of, to_do};
ghost use Rattle.interpreter.specs.Says.{ComesBefore};
ghost use Rattle.interpreter.specs.Touching.{Quietly, with_objects};
ghost use Rattle.interpreter.specs.Waiting.{IsHeldUp};
ghost use Rattle.interpreter.specs.declared.objects.Objects.{Objects};
ghost use Rattle.interpreter.specs.declared.phase.Phase.TheVariants as phases;

use crate::fitting::built_in_type;
use crate::interpreter::Interpreter;
use crate::methods::method_code;
use crate::performing::phase_of;
use crate::phase::Phase;
use code::{Code, MethodCode};
use frames::Cell;
use heap::{Heap, Monitor, out_of_memory};
use hierarchy::{BuiltIn, ClassId, Program};
use std::alloc::AllocError;

/// The first method of a body of a class: the initializer's, or `main`, which has an argument.
pub(crate) fn first_method(
    program: &Program,
    resolved: &Code,
    class: ClassId,
    given: Option<u32>,
) -> Option<usize>
    requires code { IsCode resolved.now program.now }
    ensures { result ≡ first_method_of program.now class given }
{
    let code = resolved.class(class.number)?;
    match given {
        None => code.initializer,
        Some(_) => code.main,
    }
}

/// A new array of no texts, if the heap has room. An `Err` means out of memory, and changes nothing.
fn new_texts(heap: &mut Heap, program: &Program) -> Result<Option<u32>, AllocError>
    ensures reference { IfOk result (λ r. r ≡ reference_of_new program.now heap.old (no_texts program.now)) }
    ensures made { OnOk result (heap.new ≡ with_new program.now heap.old (no_texts program.now)) }
    ensures room { OnErr result (has_cells program.now heap.old 1 ≡ true) }
    ensures err { OnErr result (heap.new ≡ heap.old) }
{
    heap.new_array(program, built_in_type(program, BuiltIn::String), 0)
}

impl Interpreter {
    /// Enters the first frame of a body, whose method takes its class's monitor if it is synchronized. An `Err` means out of memory,
    /// and changes nothing.
    fn begin(
        &mut self,
        program: &Program,
        class: ClassId,
        method: usize,
        code: &MethodCode,
        given: &[Cell],
    ) -> Result<(), AllocError>
        requires { method_at program.now class.number method ≡ Some code.now }
        ensures ok { OnOk result (BeginsWith program.now class method given.now self.old self.new) }
        ensures memory { OnErr result ((length given.now ≤ code.now.locals) × (length self.old.frames < 512)) }
        ensures err { OnErr result (self.new ≡ self.old) }
    {
        let _ = program;
        if given.len() > code.locals as usize {
            self.phase = Phase::Fails(BuiltIn::VerifyError);
            return Ok(());
        }
        if self.frames.len() >= 512 {
            self.phase = Phase::Fails(BuiltIn::StackOverflowError);
            return Ok(());
        }
        self.frames.begin(class.number, method, code, given)?;
        self.phase = phase_of(code, Monitor::Class(class));
        Ok(())
    }

    /// Begins a body of a class, if it has one. An `Err` means out of memory, and changes nothing.
    pub(crate) fn begin_body(
        &mut self,
        program: &Program,
        resolved: &Code,
        class: ClassId,
        given: Option<u32>,
    ) -> Result<(), AllocError>
        requires code { IsCode resolved.now program.now }
        requires phase { self.old.phase ≡ phases.Begins class given }
        ensures row { OnOk result (Quietly (Row program.now) self.old self.new) }
        ensures memory { OnErr result ((o : Objects) → TakesMemory program.now (with_objects self.old o)) }
        ensures err { OnErr result (self.new ≡ self.old) }
    {
        let Some(method) = first_method(program, resolved, class, given) else {
            self.phase = Phase::Over(None);
            return Ok(());
        };
        let Some(code) = method_code(program, resolved, class.number, method) else {
            unreachable!()
        };
        match given {
            None => self.begin(program, class, method, code, &[]),
            Some(reference) => {
                let given = [Cell::Reference(reference)];
                self.begin(program, class, method, code, &given)
            }
        }
    }

    /// Makes the argument of `main`, a new array of no texts, if the class has a `main`. An `Err` means out of memory, and changes nothing.
    fn make_argument(
        &mut self,
        program: &Program,
        resolved: &Code,
        class: ClassId,
    ) -> Result<(), AllocError>
        requires code { IsCode resolved.now program.now }
        requires phase { self.old.phase ≡ phases.Enters class }
        ensures row { OnOk result (Row program.now self.old self.new) }
        ensures memory { OnErr result (TakesMemory program.now self.old) }
        ensures err { OnErr result (self.new ≡ self.old) }
    {
        let Some(_) = first_method(program, resolved, class, Some(0)) else {
            self.phase = Phase::Over(None);
            return Ok(());
        };
        match new_texts(&mut self.heap, program)? {
            Some(reference) => {
                self.phase = Phase::Begins(class, Some(reference));
                Ok(())
            }
            None => {
                self.phase = Phase::Over(Some(out_of_memory(program)));
                Ok(())
            }
        }
    }

    /// The body is over, with an object of a built-in throwable that nothing in it can catch. An `Err` means out of memory, and changes
    /// nothing.
    fn fail(&mut self, program: &Program, class: BuiltIn) -> Result<(), AllocError>
        ensures ok { OnOk result (self.new ≡ fails_by program.now class self.old) }
        ensures memory { OnErr result (MakesThrown program.now class self.old) }
        ensures err { OnErr result (self.new ≡ self.old) }
    {
        let thrown = self.heap.throwable(program, class)?;
        self.phase = Phase::Over(Some(thrown));
        Ok(())
    }

    /// Does what comes before the innermost frame goes on; `false` where that is a monitor that another thread holds, and then nothing
    /// changes. An `Err` means out of memory, and changes nothing.
    pub(crate) fn prepare(&mut self, program: &Program, resolved: &Code) -> Result<bool, AllocError>
        requires code { IsCode resolved.now program.now }
        requires before { ComesBefore self.old.phase }
        ensures row { IfOk result (λ done. done ≡ true → Row program.now self.old self.new) }
        ensures less { IfOk result (λ done. done ≡ true → to_do self.new < to_do self.old) }
        ensures held { IfOk result (λ done. done ≡ false → IsHeldUp self.old self.new) }
        ensures memory { OnErr result (TakesMemory program.now self.old) }
        ensures err { OnErr result (self.new ≡ self.old) }
    {
        match self.phase {
            Phase::Begins(class, given) => self.begin_body(program, resolved, class, given)?,
            Phase::Enters(class) => self.make_argument(program, resolved, class)?,
            Phase::Fails(class) => self.fail(program, class)?,
            Phase::Throws(thrown) => self.throw(program, thrown),
            Phase::Locks(monitor, of_method) => return self.lock(program, monitor, of_method),
            Phase::Runs | Phase::Half | Phase::Ready(_) | Phase::Over(_) | Phase::Spent => {
                unreachable!()
            }
        }
        Ok(true)
    }
}
