//! The quoted texts of a program, which take a cell of the heap each.

ghost use Rattle.std.specs.Prelude.{◌≡◌, ℕ, ◌≤◌, [], OnOk, IfOk, IfSome, IfNone};
ghost use Rattle.std.specs.List.{flat_map};
ghost use Rattle.hierarchy.specs.Linking.{IsFirst};
ghost use Rattle.hierarchy.specs.Quoted.{note_all, text_of, texts_of_field, texts_of_instruction, texts_of_method, quoted_in, quoted_texts, cells_of, FillsHeap};

use crate::class::Class;
use jasmin_text::{Constant, Field, Instruction, Method};
use std::alloc::{AllocError, Global};
use texts::Texts;

/// How many cells the heap has.
const HEAP_CELLS: usize = 1_000_000;

/// How many objects are ready from the start: System.out, an OutOfMemoryError and a NoClassDefFoundError.
pub(crate) const READY_OBJECTS: usize = 3;

fn note_constant(alloc: Global, constant: &Constant, noted: &mut Texts) -> Result<(), AllocError>
    ensures { OnOk result (noted.new ≡ note_all noted.old (text_of constant.now)) }
{
    match constant {
        Constant::Int(_) => Ok(()),
        Constant::Text(text) => noted.note(alloc, text.get().as_slice()),
    }
}

fn note_field(alloc: Global, field: &Field, noted: &mut Texts) -> Result<(), AllocError>
    ensures { OnOk result (noted.new ≡ note_all noted.old (texts_of_field field.now)) }
{
    if !field.access.is_static {
        return Ok(());
    }
    match &field.value {
        Some(value) => note_constant(alloc, value, noted),
        None => Ok(()),
    }
}

fn note_fields(alloc: Global, fields: &[Field], noted: &mut Texts) -> Result<(), AllocError>
    ensures { OnOk result (noted.new ≡ note_all noted.old (flat_map texts_of_field fields.now)) }
{
    let mut rest = fields;
    while let [field, after @ ..] = rest {
        note_field(alloc, field, noted)?;
        rest = after;
    }
    Ok(())
}

fn note_instruction(
    alloc: Global,
    instruction: &Instruction<u16>,
    noted: &mut Texts,
) -> Result<(), AllocError>
    ensures { OnOk result (noted.new ≡ note_all noted.old (texts_of_instruction instruction.now)) }
{
    match instruction {
        Instruction::Constant(constant) => note_constant(alloc, constant, noted),
        _ => Ok(()),
    }
}

fn note_instructions(
    alloc: Global,
    instructions: &[Instruction<u16>],
    noted: &mut Texts,
) -> Result<(), AllocError>
    ensures { OnOk result (noted.new ≡ note_all noted.old (flat_map texts_of_instruction instructions.now)) }
{
    let mut rest = instructions;
    while let [instruction, after @ ..] = rest {
        note_instruction(alloc, instruction, noted)?;
        rest = after;
    }
    Ok(())
}

fn note_method(alloc: Global, method: &Method, noted: &mut Texts) -> Result<(), AllocError>
    ensures { OnOk result (noted.new ≡ note_all noted.old (texts_of_method method.now)) }
{
    match &method.code {
        Some(code) => note_instructions(alloc, code.instructions.as_slice(), noted),
        None => Ok(()),
    }
}

fn note_methods(alloc: Global, methods: &[Method], noted: &mut Texts) -> Result<(), AllocError>
    ensures { OnOk result (noted.new ≡ note_all noted.old (flat_map texts_of_method methods.now)) }
{
    let mut rest = methods;
    while let [method, after @ ..] = rest {
        note_method(alloc, method, noted)?;
        rest = after;
    }
    Ok(())
}

/// Notes the quoted texts of a class: of its static fields, then of its methods.
fn note_class(alloc: Global, class: &Class, noted: &mut Texts) -> Result<(), AllocError>
    ensures { OnOk result (noted.new ≡ note_all noted.old (quoted_in class.now)) }
{
    note_fields(alloc, class.fields.as_slice(), noted)?;
    note_methods(alloc, class.methods.as_slice(), noted)?;
    Ok(())
}

/// Notes the quoted texts of all classes, and answers the first class whose texts, with those before it, are more
/// than the heap holds.
pub(crate) fn first_beyond_heap(
    alloc: Global,
    classes: &[Class],
    noted: &mut Texts,
) -> Result<Option<usize>, AllocError>
    requires { noted.old ≡ [] }
    ensures beyond { IfOk result (λ found. IfSome found (IsFirst (FillsHeap classes.now))) }
    ensures within { IfOk result (λ found. IfNone found ((i : ℕ) → FillsHeap classes.now i → ⊥)) }
    ensures noted { IfOk result (λ found. IfNone found (noted.new ≡ quoted_texts classes.now)) }
    ensures cells { IfOk result (λ found. IfNone found (cells_of classes.now ≤ 1000000)) }
{
    for (place, class) in classes.iter().enumerate() {
        note_class(alloc, class, noted)?;
        if noted.len() > HEAP_CELLS - READY_OBJECTS {
            return Ok(Some(place));
        }
    }
    Ok(None)
}
