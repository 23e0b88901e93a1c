//! The ordered run of main classes.

ghost use Rattle.std.specs.Prelude.{◌≡◌, ◌<◌, IfOk, length, vec_len};
ghost use Rattle.std.specs.List.{AllByRecursion};
ghost use Rattle.init_core.specs.Interleaving.{labels_of};
ghost use Rattle.bodies.specs.Output.{output_of};
ghost use Rattle.bodies.specs.Sharing.{used_bodies};
ghost use Rattle.bodies.specs.Runs.{AreMains};
ghost use Rattle.replayer.specs.AllGoing.{AllThreads, AreGoing, HasDone, outcomes_of};
ghost use Rattle.replayer.specs.Going.{outcome_by};
ghost use Rattle.replayer.specs.OrderedRun.{IsOrderedRunOf};

use crate::run::Run;
use crate::thread::Thread;
use crate::used::Used;
use bodies::{Bodies, Limit, Report, ThreadOutcome, printed_by};
use hierarchy::{ClassId, Program};
use init_core::Outcome;
use sequence::Sequence;
use std::alloc::{AllocError, Global};

/// How a thread ended, by the result of what it did, and by whether it gave up.
fn outcome_of(done: Outcome, gave_up: bool) -> ThreadOutcome
    ensures { result ≡ outcome_by gave_up done }
{
    match done {
        Outcome::Normal => ThreadOutcome::Normal,
        Outcome::Abrupt(throwable) => ThreadOutcome::Abrupt(throwable),
        Outcome::Ended(_) => ThreadOutcome::Ended(if gave_up {
            Limit::Patience
        } else {
            Limit::Steps
        }),
    }
}

/// How each thread ended. An `Err` means out of memory.
fn outcomes<B, H>(alloc: Global, run: &Run<B, H>) -> Result<Sequence<ThreadOutcome>, AllocError>
    requires { AllThreads (λ t w. HasDone w) run.now }
    ensures { IfOk result (λ outcomes. outcomes ≡ outcomes_of run.now) }
{
    let mut outcomes = Sequence::new(alloc);
    'threads: for thread in &run.threads {
        let Thread { done, gave_up, .. } = thread;
        let Some(done) = done else { unreachable!() };
        outcomes.push(outcome_of(*done, *gave_up))?;
    }
    Ok(outcomes)
}

/// The report of a run that is over. An `Err` means out of memory.
fn report<B: Bodies>(
    alloc: Global,
    program: &Program,
    run: Run<Used<B, B::Shared>, B::Shared>,
) -> Result<Report, AllocError>
where
    B::Shared: Drop,
    requires going { AreGoing program.now (used_bodies (B.making program.now)) run }
    requires ended { AllThreads (λ t w. HasDone w) run }
    ensures outcomes { IfOk result (λ r. r.outcomes ≡ outcomes_of run) }
    ensures events { IfOk result (λ r. r.events ≡ run.log.events.items) }
    ensures labels { IfOk result (λ r. r.labels ≡ labels_of program.now run.log.events.items) }
    ensures output { IfOk result (λ r. r.output ≡ output_of run.log.events.items) }
{
    let outcomes = outcomes(alloc, &run)?;
    let Run { log, .. } = run;
    let labels = log.labels(alloc, program)?;
    let output = printed_by(alloc, log.events.as_slice())?;
    Ok(Report {
        outcomes,
        events: Sequence::from_vec(log.events),
        labels,
        output,
    })
}

/// Runs 1 to 16 main classes of a program in this order, on the calling thread. Thread t is that of the t-th main class: the
/// procedure for that class, with all that it needs, and then the method `main` (JLS SE 8 12.4.2). What its initializers and
/// `main` do is what the t-th of `bodies` says that they do. What the threads share is `shared` at first; each has it for each touch
/// of its bodies, and meets it as the touch before, of whichever thread, left it. `code` is the code of the program, as the bodies have it.
///
/// Each number of the order lets that thread go on until it has made one event, has ended or can't go on; it can't go on while it
/// waits for a class that another thread initializes, or in a body. Then the number is used up. After the order the lowest
/// thread that can goes on in the same way, from one event to the next. Where none can, the lowest that waits gives up: it is
/// ended by InternalError, at the limit of its patience, and ends the classes that it has begun, the innermost first. At other
/// limits of its bodies a thread is ended so too.
///
/// An `Err` means out of memory: that of the run ran out, or that of its bodies did, as they went on, at a touch or in step 11
/// ([`Limit::Memory`]).
pub fn run_ordered<B: Bodies>(
    alloc: Global,
    program: &Program,
    code: &B::Code,
    mains: &[ClassId],
    order: &[usize],
    bodies: Vec<B>,
    shared: B::Shared,
) -> Result<Report, AllocError>
where
    B::Shared: Drop,
    requires code { B.is_code code.now program.now }
    requires mains { AreMains program.now mains.now }
    requires count { vec_len bodies ≡ length mains.now }
    requires order { AllByRecursion (λ t. t < length mains.now) order.now }
    ensures { IfOk result (IsOrderedRunOf program.now (B.making program.now) shared bodies.items mains.now order.now) }
{
    let mut run = Run::begin(alloc, program, mains, bodies, shared)?;
    run.follow(alloc, program, code, order)?;
    run.finish(alloc, program, code)?;
    let report = report(alloc, program, run)?;
    Ok(report)
}
