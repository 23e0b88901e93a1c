//! What holds of traces by their definitions alone.

ghost use Rattle.std.specs.Prelude.{◌≡◌, ◌≤◌, ℕ, List, Ok, Err, length};
ghost use Rattle.std.specs.List.{AllByRecursion};
ghost use Rattle.init_core.specs.declared.event.Event.{Event as EventFacts};
ghost use Rattle.init_core.specs.ProgramEvents.{IsProgramEvent};
ghost use Rattle.trace.specs.TraceText.{trace_of};
ghost use Rattle.trace_reader.specs.Laws.{HasTraceValue, IsFirstFault};
ghost use Rattle.trace_reader.specs.TraceEvents.{IsTraceEvent, IsTraceOf};
ghost use Rattle.trace_reader.specs.TraceReading.{events_of};
ghost use Rattle.trace_reader.specs.declared.fault.TraceFault.{TraceFault as FaultFacts};

use crate::reader::{MOST_BYTES, MOST_LINES};
use hierarchy::Program;
use init_core::THREADS;

/// A text is read exactly where it is the trace of events within the limits, and as those events.
pub fn traces_are_read(program: &Program, threads: usize)
    requires { threads ≤ THREADS }
    ensures found { (text : List ℕ) (events : List EventFacts) → events_of program.now threads text ≡ Ok events → IsTraceOf program.now threads text events }
    ensures only { (text : List ℕ) (events : List EventFacts) → IsTraceOf program.now threads text events → events_of program.now threads text ≡ Ok events }
{
    program.is_linked();
}

/// A text is the trace of one list of events at most.
pub fn traces_are_of_one_list(program: &Program, threads: usize)
    requires { threads ≤ THREADS }
    ensures { (text : List ℕ) (events others : List EventFacts) → IsTraceOf program.now threads text events → IsTraceOf program.now threads text others → events ≡ others }
{
    program.is_linked();
}

/// Events of a program and its threads are read again from their trace, if they are within the limits and their values within
/// those of a trace.
pub fn what_is_written_is_read(program: &Program, threads: usize)
    requires { threads ≤ THREADS }
    ensures one { (event : EventFacts) → IsProgramEvent program.now threads event → HasTraceValue event.kind → IsTraceEvent program.now threads event }
    ensures all { (events : List EventFacts) → AllByRecursion (IsTraceEvent program.now threads) events → length events ≤ MOST_LINES → length (trace_of program.now events) ≤ MOST_BYTES
        → events_of program.now threads (trace_of program.now events) ≡ Ok events }
{
    program.is_linked();
}

/// A fault is the first: the lines before it are the trace of as many events.
pub fn faults_are_the_first(program: &Program, threads: usize)
    requires { threads ≤ THREADS }
    ensures { (text : List ℕ) (fault : FaultFacts) → events_of program.now threads text ≡ Err fault → IsFirstFault program.now threads text fault }
{
    program.is_linked();
}
