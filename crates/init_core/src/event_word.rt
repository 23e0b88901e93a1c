//! The word that an event is stored as.

ghost use Rattle.std.specs.Prelude.{◌≡◌, ◌<◌, ◌^◌, None};
ghost use Rattle.hierarchy.specs.LinkedProgram.{id};
ghost use Rattle.init_core.specs.Decisions.{event};
ghost use Rattle.init_core.specs.EventWord.{class_in, deed_in, deed_number, event_of, kind_in, thread_in};
ghost use Rattle.init_core.specs.Numbers.{IsInRange};

use crate::event::{CLASS_NUMBERS, FIELD_PLACES, Kind, THREADS};
use hierarchy::{ClassId, Value};

/// How many numbers of steps there is room for.
pub(crate) const STEPS: u64 = 32;

/// A step's operand is below this.
pub(crate) const OPERANDS: u64 = 4_294_967_296;

// The numbers of the steps. A read and a write have three each: of an int, of null, and of a reference.

pub(crate) const WAITS: u64 = 0;

pub(crate) const RECURS: u64 = 1;

pub(crate) const FINDS_INITIALIZED: u64 = 2;

pub(crate) const FINDS_ERRONEOUS: u64 = 3;

pub(crate) const BEGINS: u64 = 4;

pub(crate) const SUPER_FAILS: u64 = 5;

pub(crate) const RUNS: u64 = 6;

pub(crate) const COMPLETES: u64 = 7;

pub(crate) const FAILS: u64 = 8;

pub(crate) const GETS_INT: u64 = 9;

pub(crate) const GETS_NULL: u64 = 10;

pub(crate) const GETS_REFERENCE: u64 = 11;

pub(crate) const PUTS_INT: u64 = 12;

pub(crate) const PUTS_NULL: u64 = 13;

pub(crate) const PUTS_REFERENCE: u64 = 14;

/// The word of a step.
#[tactic(auto, using(crate::proofs::EventWords::word_again))]
pub(crate) fn word(thread: usize, class: ClassId, kind: Kind) -> u64
    requires thread { thread < THREADS }
    requires class { class.number < CLASS_NUMBERS }
    requires kind { IsInRange kind }
    ensures { event_of result None ≡ event thread class kind }
{
    let class = class.number as u64;
    (deed_of(kind) * CLASS_NUMBERS as u64 + class) * THREADS as u64 + thread as u64
}

/// The thread in a word.
pub(crate) fn thread(word: u64) -> usize
    ensures { result ≡ thread_in word }
{
    (word % THREADS as u64) as usize
}

/// The class in a step's word.
pub(crate) fn class(word: u64) -> ClassId
    ensures { result ≡ class_in word }
{
    ClassId {
        number: (word / THREADS as u64 % CLASS_NUMBERS as u64) as usize,
    }
}

/// What the step of a word does.
pub(crate) fn kind(word: u64) -> Kind
    ensures { result ≡ kind_in (deed_in word) }
{
    kind_of(word / THREADS as u64 / CLASS_NUMBERS as u64)
}

/// The number of a step, at the field of this place, with this operand.
fn number(step: u64, place: usize, operand: u32) -> u64
    requires step { step < STEPS }
    requires place { place < FIELD_PLACES }
    ensures number { result ≡ deed_number step place operand }
    ensures within { result < 2 ^ 47 }
{
    (u64::from(operand) * FIELD_PLACES as u64 + place as u64) * STEPS + step
}

/// The number of what a step does. A print has none.
fn deed_of(kind: Kind) -> u64
    requires { IsInRange kind }
    ensures kind { kind_in result ≡ kind }
    ensures within { result < 2 ^ 47 }
{
    match kind {
        Kind::Waits => WAITS,
        Kind::Recurs => RECURS,
        Kind::FindsInitialized => FINDS_INITIALIZED,
        Kind::FindsErroneous => FINDS_ERRONEOUS,
        Kind::Begins => BEGINS,
        Kind::SuperFails(throwable) => number(SUPER_FAILS, 0, throwable.number as u32),
        Kind::Runs => RUNS,
        Kind::Completes => COMPLETES,
        Kind::Fails(throwable) => number(FAILS, 0, throwable.number as u32),
        Kind::Gets { field, value } => match value {
            Value::Int(int) => number(GETS_INT, field, int.cast_unsigned()),
            Value::Null => number(GETS_NULL, field, 0),
            Value::Reference(reference) => number(GETS_REFERENCE, field, reference),
        },
        Kind::Puts { field, value } => match value {
            Value::Int(int) => number(PUTS_INT, field, int.cast_unsigned()),
            Value::Null => number(PUTS_NULL, field, 0),
            Value::Reference(reference) => number(PUTS_REFERENCE, field, reference),
        },
        Kind::Prints(_) => unreachable!(),
    }
}

fn throwable(operand: u32) -> ClassId
    ensures { result ≡ id operand }
{
    ClassId {
        number: operand as usize,
    }
}

/// What is done, by its number.
fn kind_of(deed: u64) -> Kind
    ensures { result ≡ kind_in deed }
{
    let field = (deed / STEPS % FIELD_PLACES as u64) as usize;
    let operand = (deed / STEPS / FIELD_PLACES as u64 % OPERANDS) as u32;
    match deed % STEPS {
        WAITS => Kind::Waits,
        RECURS => Kind::Recurs,
        FINDS_INITIALIZED => Kind::FindsInitialized,
        FINDS_ERRONEOUS => Kind::FindsErroneous,
        BEGINS => Kind::Begins,
        SUPER_FAILS => Kind::SuperFails(throwable(operand)),
        RUNS => Kind::Runs,
        COMPLETES => Kind::Completes,
        FAILS => Kind::Fails(throwable(operand)),
        GETS_INT => Kind::Gets {
            field,
            value: Value::Int(operand.cast_signed()),
        },
        GETS_NULL => Kind::Gets {
            field,
            value: Value::Null,
        },
        GETS_REFERENCE => Kind::Gets {
            field,
            value: Value::Reference(operand),
        },
        PUTS_INT => Kind::Puts {
            field,
            value: Value::Int(operand.cast_signed()),
        },
        PUTS_NULL => Kind::Puts {
            field,
            value: Value::Null,
        },
        _ => Kind::Puts {
            field,
            value: Value::Reference(operand),
        },
    }
}
