//! The targets of switches.

ghost use Rattle.std.specs.Prelude.{◌≡◌, Some};
ghost use Rattle.interpreter.specs.Leads.{case_target, switch_lead, target_at as target_behind, target_of};
ghost use Rattle.interpreter.specs.Methods.{instruction_at as text_at};

use crate::lead::{Lead, VERIFY};
use crate::methods::instruction_at;
use frames::{Cell, FramePlace};
use hierarchy::Program;
use jasmin_text::Instruction;

/// The target at a place after the lowest key, if there is one.
fn target_at(targets: &[u16], offset: i64) -> Option<u16>
    ensures { result ≡ target_behind targets.now offset }
{
    if offset < 0 {
        return None;
    }
    targets.get(offset as usize).copied()
}

/// The target of the case that has a key.
fn target_among(cases: &[(i32, u16)], key: i32) -> Option<u16>
    ensures { result ≡ case_target cases.now key }
{
    let mut rest = cases;
    while let [case, after @ ..] = rest {
        if case.0 == key {
            return Some(case.1);
        }
        rest = after;
    }
    None
}

/// Where a switch goes on for a key (JVMS SE 8 6.5 tableswitch, lookupswitch); none where the instruction is no switch. Takes time
/// linear in the keys of a `lookupswitch`.
fn target_for(instruction: &Instruction<u16>, key: i32) -> Option<u16>
    ensures { result ≡ target_of (Some instruction.now) key }
{
    match instruction {
        Instruction::TableSwitch(low, targets, default) => {
            let offset = key as i64 - *low as i64;
            Some(target_at(targets.get().as_slice(), offset).unwrap_or(*default))
        }
        Instruction::LookupSwitch(cases, default) => {
            Some(target_among(cases.get().as_slice(), key).unwrap_or(*default))
        }
        _ => None,
    }
}

/// Where the switch at a place goes on for a key.
fn target(program: &Program, at: FramePlace, key: i32) -> Option<u16>
    ensures { result ≡ target_of (text_at program.now at.class at.method at.place) key }
{
    target_for(instruction_at(program, at.class, at.method, at.place)?, key)
}

/// What the switch at a place comes to, by the operand on top.
pub(crate) fn switch(program: &Program, at: FramePlace, value: Option<Cell>) -> Lead
    ensures { result ≡ switch_lead program.now at value }
{
    match value {
        Some(Cell::Int(key)) => match target(program, at, key) {
            Some(to) => Lead::Jumps(to),
            None => VERIFY,
        },
        _ => VERIFY,
    }
}
