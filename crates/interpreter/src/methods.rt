//! The code that a program has.

ghost use Rattle.std.specs.Prelude.{◌≡◌, Some, option_copied};
ghost use Rattle.code.specs.IsCode.{IsCode};
ghost use Rattle.interpreter.specs.Methods.{instruction_at as instruction_of, method_at, static_type as type_of_static, text_in_method};

use code::{Code, MethodCode, ResolvedType};
use hierarchy::{ClassId, Program};
use jasmin_text::{Instruction, Method};

/// The code of a method, where the program has it.
pub(crate) fn method_code<'c>(
    program: &Program,
    resolved: &'c Code,
    class: usize,
    method: usize,
) -> Option<&'c MethodCode>
    requires code { IsCode resolved.now program.now }
    ensures { method_at program.now class method ≡ option_copied result }
{
    let Some(class) = resolved.class(class) else {
        return None;
    };
    class.methods.as_slice().get(method)
}

/// The type of a static field, where the program has it.
pub(crate) fn static_type(
    program: &Program,
    resolved: &Code,
    class: usize,
    field: usize,
) -> Option<ResolvedType>
    requires code { IsCode resolved.now program.now }
    ensures { result ≡ type_of_static program.now class field }
{
    let Some(class) = resolved.class(class) else {
        return None;
    };
    class.statics.as_slice().get(field).copied()
}

fn instruction_in(method: &Method, place: usize) -> Option<&Instruction<u16>>
    ensures { option_copied result ≡ text_in_method (Some method.now) place }
{
    match &method.code {
        Some(code) => code.instructions.as_slice().get(place),
        None => None,
    }
}

/// An instruction as its class text has it.
pub(crate) fn instruction_at(
    program: &Program,
    class: usize,
    method: usize,
    place: usize,
) -> Option<&Instruction<u16>>
    ensures { option_copied result ≡ instruction_of program.now class method place }
{
    let Some(class) = program.class(ClassId { number: class }) else {
        return None;
    };
    match class.methods.as_slice().get(method) {
        Some(method) => instruction_in(method, place),
        None => None,
    }
}
