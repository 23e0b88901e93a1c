//! One line of a trace.

ghost use Rattle.std.specs.Prelude.{◌<◌, ◌≤◌, IfOk, Some};
ghost use Rattle.hierarchy.specs.LinkedProgram.{class_named};
ghost use Rattle.init_core.specs.Numbers.{IsInRange};
ghost use Rattle.sequence.specs.Gives.{Gives};
ghost use Rattle.trace_reader.specs.Reading.{of_files, of_program, class_at, throwable_at, use_at, kind_at, done_at, event_at};

use crate::fault::TraceFaultKind;
use crate::fields::{field, value};
use crate::numbers::{line_number, thread};
use crate::strings::text;
use crate::verbs::{Deed, Verb, verb_of};
use crate::words::{Read, behind_space, line_end, next_word, word};
use hierarchy::{ClassId, Program, Value};
use init_core::{CLASS_NUMBERS, Event, FIELD_PLACES, Kind, THREADS};
use sequence::Refusal;
use std::alloc::Global;

/// The class of the files that has this name.
fn class_of_files(program: &Program, name: &[u8]) -> Read<ClassId>
    ensures read { Gives (λ c. c) result (of_files program.now (class_named program.now name.now)) }
    ensures within { IfOk result (λ c. c.number < CLASS_NUMBERS) }
{
    match program.class_named(name) {
        Some(class) if class.number < program.len() => Ok(class),
        _ => Err(Refusal::Fault(TraceFaultKind::UnknownName)),
    }
}

/// A class of the files, by the next word, and what follows it.
#[tactic(auto, unfolding(crate::specs::Reading::class_at))]
fn class<'a>(program: &Program, bytes: &'a [u8]) -> Read<(ClassId, &'a [u8])>
    ensures read { Gives (λ x. (x.0, x.1.now)) result (class_at program.now bytes.now) }
    ensures within { IfOk result (λ x. x.0.number < CLASS_NUMBERS) }
{
    let (name, rest) = next_word(bytes)?;
    let class = class_of_files(program, name)?;
    Ok((class, rest))
}

/// The class of the program that has this name.
fn class_of_program(program: &Program, name: &[u8]) -> Read<ClassId>
    ensures read { Gives (λ c. c) result (of_program (class_named program.now name.now)) }
    ensures within { IfOk result (λ c. c.number < CLASS_NUMBERS) }
{
    program.is_linked();
    match program.class_named(name) {
        Some(class) => Ok(class),
        None => Err(Refusal::Fault(TraceFaultKind::UnknownName)),
    }
}

/// A class of the program, by the next word, and what follows it.
#[tactic(auto, unfolding(crate::specs::Reading::throwable_at))]
fn throwable<'a>(program: &Program, bytes: &'a [u8]) -> Read<(ClassId, &'a [u8])>
    ensures read { Gives (λ x. (x.0, x.1.now)) result (throwable_at program.now bytes.now) }
    ensures within { IfOk result (λ x. x.0.number < CLASS_NUMBERS) }
{
    let (name, rest) = next_word(bytes)?;
    let class = class_of_program(program, name)?;
    Ok((class, rest))
}

/// A static field of the class and its value, by the next two words, and what follows them.
#[tactic(auto, unfolding(crate::specs::Reading::use_at))]
fn use_of<'a>(
    program: &Program,
    class: ClassId,
    bytes: &'a [u8],
) -> Read<((usize, Value), &'a [u8])>
    ensures read { Gives (λ x. (x.0, x.1.now)) result (use_at program.now class bytes.now) }
    ensures within { IfOk result (λ x. x.0.0 < FIELD_PLACES) }
{
    program.is_linked();
    let (name, rest) = next_word(bytes)?;
    let (place, base) = field(program, class, name)?;
    let (said, rest) = next_word(rest)?;
    let value = value(base, said)?;
    Ok(((place, value), rest))
}

/// What is done at the class, and what follows it.
#[tactic(auto, unfolding(crate::specs::Reading::kind_at))]
fn kind<'a>(
    program: &Program,
    class: ClassId,
    deed: Deed,
    bytes: &'a [u8],
) -> Read<(Kind, &'a [u8])>
    ensures read { Gives (λ x. (x.0, x.1.now)) result (kind_at program.now class deed bytes.now) }
    ensures within { IfOk result (λ x. IsInRange x.0) }
{
    match deed {
        Deed::Waits => Ok((Kind::Waits, bytes)),
        Deed::Recurs => Ok((Kind::Recurs, bytes)),
        Deed::FindsInitialized => Ok((Kind::FindsInitialized, bytes)),
        Deed::FindsErroneous => Ok((Kind::FindsErroneous, bytes)),
        Deed::Begins => Ok((Kind::Begins, bytes)),
        Deed::SuperFails => {
            let (throwable, rest) = throwable(program, bytes)?;
            Ok((Kind::SuperFails(throwable), rest))
        }
        Deed::Runs => Ok((Kind::Runs, bytes)),
        Deed::Completes => Ok((Kind::Completes, bytes)),
        Deed::Fails => {
            let (throwable, rest) = throwable(program, bytes)?;
            Ok((Kind::Fails(throwable), rest))
        }
        Deed::Gets => {
            let ((field, value), rest) = use_of(program, class, bytes)?;
            Ok((Kind::Gets { field, value }, rest))
        }
        Deed::Puts => {
            let ((field, value), rest) = use_of(program, class, bytes)?;
            Ok((Kind::Puts { field, value }, rest))
        }
    }
}

/// What follows the third word, to the line's end, and what follows that.
#[tactic(auto, unfolding(crate::specs::Reading::done_at))]
fn done<'a>(
    alloc: Global,
    program: &Program,
    thread: usize,
    verb: Verb,
    bytes: &'a [u8],
) -> Read<(Event, &'a [u8])>
    requires { thread < THREADS }
    ensures { Gives (λ x. (x.0, x.1.now)) result (done_at program.now thread verb bytes.now) }
{
    match verb {
        Verb::AtClass(deed) => {
            let (class, rest) = class(program, bytes)?;
            let (kind, rest) = kind(program, class, deed, rest)?;
            let after = line_end(rest)?;
            Ok((Event::new(thread, class, kind), after))
        }
        Verb::Prints => {
            let rest = behind_space(bytes)?;
            let (text, after) = text(alloc, rest)?;
            Ok((Event::print(alloc, thread, text)?, after))
        }
    }
}

/// The event of the line with this number, and what follows the line.
#[tactic(auto, unfolding(crate::specs::Reading::event_at))]
pub(crate) fn event<'a>(
    alloc: Global,
    program: &Program,
    threads: usize,
    number: usize,
    bytes: &'a [u8],
) -> Read<(Event, &'a [u8])>
    requires { threads ≤ THREADS }
    ensures { Gives (λ x. (x.0, x.1.now)) result (event_at program.now threads number bytes.now) }
{
    let (first, rest) = word(bytes)?;
    line_number(number, first)?;
    let (second, rest) = next_word(rest)?;
    let thread = thread(threads, second)?;
    let (third, rest) = next_word(rest)?;
    let verb = verb_of(third)?;
    done(alloc, program, thread, verb, rest)
}
