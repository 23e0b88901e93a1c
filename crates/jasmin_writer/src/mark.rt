//! The places that a body names.

ghost use Rattle.std.specs.Prelude.{◌++◌, ◌+◌, ◌∷◌, [], List, ℕ, length, IfOk};
ghost use Rattle.std.specs.List.{flat_map};
ghost use Rattle.jasmin_writer.specs.Canonical.{handler_places, instruction_places, code_places};
ghost use Rattle.jasmin_writer.specs.Marks.{IsMarked};

use jasmin_text::{Code, Handler, Instruction};
use std::alloc::{AllocError, Global};

/// Marks a place. One after the list isn't marked.
fn mark(marks: &mut Vec<bool>, place: u16)
    ensures { (n : ℕ) (places : List ℕ) → IsMarked n marks.old.items places → IsMarked n marks.new.items (places ++ place ∷ []) }
{
    let at = place as usize;
    if at < marks.len() {
        marks[at] = true;
    }
}

fn mark_all(marks: &mut Vec<bool>, all: &[u16])
    ensures { (n : ℕ) (places : List ℕ) → IsMarked n marks.old.items places → IsMarked n marks.new.items (places ++ flat_map (λ p. p ∷ []) all.now) }
{
    for place in all {
        mark(marks, *place);
    }
}

fn mark_cases(marks: &mut Vec<bool>, cases: &[(i32, u16)])
    ensures { (n : ℕ) (places : List ℕ) → IsMarked n marks.old.items places → IsMarked n marks.new.items (places ++ flat_map (λ c. c.1 ∷ []) cases.now) }
{
    for case in cases {
        mark(marks, case.1);
    }
}

fn mark_handler(marks: &mut Vec<bool>, handler: &Handler)
    ensures { (n : ℕ) (places : List ℕ) → IsMarked n marks.old.items places → IsMarked n marks.new.items (places ++ handler_places handler.now) }
{
    mark(marks, handler.from);
    mark(marks, handler.to);
    mark(marks, handler.handler);
}

fn mark_instruction(marks: &mut Vec<bool>, instruction: &Instruction<u16>)
    ensures { (n : ℕ) (places : List ℕ) → IsMarked n marks.old.items places → IsMarked n marks.new.items (places ++ instruction_places instruction.now) }
{
    match instruction {
        Instruction::Jump(_, place) => mark(marks, *place),
        Instruction::TableSwitch(_, places, default) => {
            mark_all(marks, places.get().as_slice());
            mark(marks, *default);
        }
        Instruction::LookupSwitch(cases, default) => {
            mark_cases(marks, cases.get().as_slice());
            mark(marks, *default);
        }
        _ => {}
    }
}

fn mark_handlers(marks: &mut Vec<bool>, handlers: &[Handler])
    ensures { (n : ℕ) (places : List ℕ) → IsMarked n marks.old.items places → IsMarked n marks.new.items (places ++ flat_map handler_places handlers.now) }
{
    for handler in handlers {
        mark_handler(marks, handler);
    }
}

fn mark_instructions(marks: &mut Vec<bool>, instructions: &[Instruction<u16>])
    ensures { (n : ℕ) (places : List ℕ) → IsMarked n marks.old.items places → IsMarked n marks.new.items (places ++ flat_map instruction_places instructions.now) }
{
    for instruction in instructions {
        mark_instruction(marks, instruction);
    }
}

/// For each place of the body, and the one after the last, whether the body names it.
pub(crate) fn marks(alloc: Global, code: &Code) -> Result<Vec<bool>, AllocError>
    ensures { IfOk result (λ marks. IsMarked (length code.now.instructions + 1) marks.items (code_places code.now)) }
{
    let mut marks = vec![in alloc; false; code.instructions.len()]?;
    marks.push(false)?;
    mark_handlers(&mut marks, code.handlers.as_slice());
    mark_instructions(&mut marks, code.instructions.as_slice());
    Ok(marks)
}
