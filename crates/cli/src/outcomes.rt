//! The lines that say how the threads of a run ended.

ghost use Rattle.std.specs.Prelude.{◌≡◌, IfOk};
ghost use Rattle.sequence.specs.Written.{Adds};
ghost use Rattle.std.specs.List.{list_any};
ghost use Rattle.cli.specs.Outcomes.{is_abrupt, outcome_line, outcome_text, outcomes_text, status_after};

use bodies::{Limit, ThreadOutcome};
use hierarchy::{BuiltIn, ClassId, Program};
use jasmin_words::integer::push_decimal;
use sequence::Writer;
use std::alloc::{AllocError, Global};
use trace::write_class_name;

/// Writes the line of a thread that ended by this throwable.
fn write_line(out: &mut Writer, program: &Program, thread: usize, throwable: ClassId)
    ensures { Adds out.old (outcome_line program.now thread throwable) out.new }
{
    out.push(b"t");
    push_decimal(out, thread);
    out.push(b": ");
    write_class_name(out, program, throwable);
    out.push(b"\n");
}

/// Writes the line of a thread that ended so, where it has one.
fn write_outcome(out: &mut Writer, program: &Program, thread: usize, outcome: ThreadOutcome)
    ensures { Adds out.old (outcome_text program.now thread outcome) out.new }
{
    match outcome {
        ThreadOutcome::Normal => {}
        ThreadOutcome::Abrupt(throwable) => write_line(out, program, thread, throwable),
        ThreadOutcome::Ended(Limit::Memory) => {
            let error = program.built_in(BuiltIn::OutOfMemoryError);
            write_line(out, program, thread, error);
        }
        ThreadOutcome::Ended(Limit::Steps | Limit::Patience) => {
            let error = program.built_in(BuiltIn::InternalError);
            write_line(out, program, thread, error);
        }
    }
}

/// For each thread that didn't end normally, lowest first, a line: `t`, its number, a colon, and the class of the throwable
/// that ended it.
pub fn write_outcomes(
    alloc: Global,
    program: &Program,
    outcomes: &[ThreadOutcome],
) -> Result<Vec<u8>, AllocError>
    ensures { IfOk result (λ text. text.items ≡ outcomes_text program.now outcomes.now) }
{
    let mut out = Writer::new(alloc);
    let mut rest = outcomes;
    let mut thread = 0;
    while let [outcome, after @ ..] = rest {
        write_outcome(&mut out, program, thread, *outcome);
        thread += 1;
        rest = after;
    }
    out.into_text()
}

fn has_ended_abruptly(outcome: &ThreadOutcome) -> bool
    ensures { result ≡ is_abrupt outcome.now }
{
    !matches!(outcome, ThreadOutcome::Normal)
}

fn has_one_ended_abruptly(outcomes: &[ThreadOutcome]) -> bool
    ensures { result ≡ list_any is_abrupt outcomes.now }
{
    outcomes.iter().any(has_ended_abruptly)
}

/// The exit status of a run whose threads ended so: 0 where all ended normally, else 1.
pub fn status_of_outcomes(outcomes: &[ThreadOutcome]) -> u8
    ensures { result ≡ status_after outcomes.now }
{
    if has_one_ended_abruptly(outcomes) {
        1
    } else {
        0
    }
}
