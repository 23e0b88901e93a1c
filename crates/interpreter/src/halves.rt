//! The second halves of instructions.

ghost use Rattle.std.specs.Prelude.{◌≡◌, ◌<◌, IfOk, IfSome, None, OnErr, OnOk};
ghost use Rattle.bodies.specs.declared.does.Does.TheVariants as does;
ghost use Rattle.code.specs.IsCode.{IsCode};
ghost use Rattle.interpreter.specs.Memory.{TakesMemory};
ghost use Rattle.frames.specs.Activations.{dropped, next_place};
ghost use Rattle.interpreter.specs.Fitting.{on_top};
ghost use Rattle.interpreter.specs.Printing.{operand_count as operand_count_of, text_by};
ghost use Rattle.interpreter.specs.Rows.{Row, asks_of as asks_of_op, prints_of as prints_of_op, to_do, with_frame};
ghost use Rattle.interpreter.specs.Says.{IsSayable, Says};
ghost use Rattle.interpreter.specs.Touching.{Quietly, with_objects};
ghost use Rattle.interpreter.specs.declared.objects.Objects.{Objects};
ghost use Rattle.interpreter.specs.declared.phase.Phase.TheVariants as phases;

use crate::interpreter::Interpreter;
use crate::lead::id;
use crate::moves::take;
use crate::phase::Phase;
use crate::text::text;
use bodies::Does;
use code::{Code, Op, instructions_name_what_is_there};
use hierarchy::{BuiltInMethod, ClassId, Program};
use std::alloc::{AllocError, Global};

/// The class of which an instruction is an active use (JLS SE 8 12.4.1), where it is one of the files.
#[inline(always)]
pub(crate) fn asks_of(program: &Program, op: Op) -> Option<ClassId>
    ensures { result ≡ asks_of_op program.now op }
{
    match op {
        Op::GetStatic(class, _) | Op::PutStatic(class, _) | Op::InvokeStatic(class, _) => {
            Some(id(class))
        }
        Op::New(class) if (class as usize) < program.classes().len() => Some(id(class)),
        _ => None,
    }
}

/// The method by which an instruction prints.
fn prints_of(op: Op) -> Option<BuiltInMethod>
    ensures { result ≡ prints_of_op op }
{
    match op {
        Op::InvokeBuiltIn(_, method) | Op::InvokeSpecialBuiltIn(_, method) => Some(method),
        _ => None,
    }
}

/// How many operands a call of a method of java/io/PrintStream takes, with the receiver.
fn operand_count(method: BuiltInMethod) -> usize
    ensures { result ≡ operand_count_of method }
{
    match method {
        BuiltInMethod::PrintLineAlone | BuiltInMethod::Init => 1,
        _ => 2,
    }
}

impl Interpreter {
    /// Prints, as the instruction of the innermost frame does. An `Err` means out of memory, and changes nothing.
    fn print(
        &mut self,
        alloc: Global,
        program: &Program,
        method: BuiltInMethod,
    ) -> Result<Does, AllocError>
        ensures prints { IfOk result (λ d. d ≡ does.Prints (text_by program.now method (on_top self.old.frames))) }
        ensures sayable { IfOk result (λ d. (phase : _) → IsSayable program.now phase d) }
        ensures ok { OnOk result (self.new ≡ with_frame (λ f. next_place (dropped (operand_count_of method) f)) (record self.old { phase = phases.Runs })) }
        ensures err { OnErr result (self.new ≡ self.old) }
    {
        let text = text(alloc, program, method, self.frames.operand(0))?;
        take(&mut self.frames, operand_count(method));
        self.phase = Phase::Runs;
        Ok(Does::Prints(text))
    }

    /// Does the second half of the instruction of the innermost frame: what the body does by it, or nothing where it has none. An `Err`
    /// means out of memory, and changes nothing.
    pub(crate) fn say_half(
        &mut self,
        alloc: Global,
        program: &Program,
        resolved: &Code,
    ) -> Result<Option<Does>, AllocError>
        requires code { IsCode resolved.now program.now }
        requires half { self.old.phase ≡ phases.Half }
        ensures row { IfOk result (λ d. d ≡ None → Quietly (Row program.now) self.old self.new) }
        ensures less { IfOk result (λ d. d ≡ None → to_do self.new < to_do self.old) }
        ensures says { IfOk result (λ d. IfSome d (λ x. Quietly (λ u v. Says program.now u x v) self.old self.new)) }
        ensures sayable { IfOk result (λ d. IfSome d (λ x. (phase : _) → IsSayable program.now phase x)) }
        ensures memory { OnErr result ((o : Objects) → TakesMemory program.now (with_objects self.old o)) }
        ensures err { OnErr result (self.new ≡ self.old) }
    {
        instructions_name_what_is_there(program);
        let Some(op) = self.op(program, resolved) else {
            self.phase = Phase::Runs;
            return Ok(None);
        };
        if let Some(class) = asks_of(program, op) {
            self.phase = Phase::Runs;
            return Ok(Some(Does::Asks(class)));
        }
        let Some(method) = prints_of(op) else {
            self.phase = Phase::Runs;
            return Ok(None);
        };
        Ok(Some(self.print(alloc, program, method)?))
    }
}
