//! From a trace's text to its events.

ghost use Rattle.std.specs.Prelude.{◌≡◌, ◌<◌, ◌≤◌, ◌++◌, ◌∷◌, [], length, min, List, Ok, OnOk, IfOk, IfErr};
ghost use Rattle.init_core.specs.declared.event.Event.{Event as EventFacts};
ghost use Rattle.trace_reader.specs.Faults.{told, Reads};
ghost use Rattle.trace_reader.specs.TraceReading.{line_end, is_past, line_at, events_of};
ghost use Rattle.trace_reader.specs.TraceEvents.{IsTraceOf};
ghost use Rattle.trace_reader.specs.declared.fault.TraceFaultKind.TheVariants as faults;

use crate::fault::{TraceFault, TraceFaultKind};
use crate::lines::event;
use hierarchy::Program;
use init_core::{Event, THREADS};
use sequence::Refusal;
use std::alloc::Global;

/// The most lines of a trace.
pub const MOST_LINES: usize = 1_000_000;

/// The most bytes of a trace: 64 MiB.
pub const MOST_BYTES: usize = 67_108_864;

/// How many bytes the first line has, with its LF.
fn line_length(bytes: &[u8]) -> usize
    ensures value { result ≡ line_end bytes.now }
    ensures within { result ≤ length bytes.now }
{
    let mut count = 0;
    let mut rest = bytes;
    while let [byte, after @ ..] = rest {
        count += 1;
        if *byte == b'\n' {
            return count;
        }
        rest = after;
    }
    count
}

/// Whether the next line ends past the limit, where `rest` is what is left of a text of `total` bytes.
#[tactic(auto, using(crate::proofs::WholeTrace::line_within))]
fn ends_past(total: usize, rest: &[u8]) -> bool
    requires { length rest.now ≤ total }
    ensures { result ≡ is_past total rest.now }
{
    total > MOST_BYTES && total - rest.len() + line_length(rest) > MOST_BYTES
}

fn fault_on(refusal: Refusal<TraceFaultKind>, line: usize) -> TraceFault
    ensures { result ≡ told refusal line }
{
    match refusal {
        Refusal::Memory => TraceFault {
            kind: TraceFaultKind::OutOfMemory,
            line,
        },
        Refusal::Fault(kind) => TraceFault { kind, line },
    }
}

/// The event of the line with this number, and what follows the line; `rest` is what is left of a text of `total` bytes.
#[tactic(auto, unfolding(crate::specs::TraceReading::line_at))]
fn line<'a>(
    alloc: Global,
    program: &Program,
    threads: usize,
    total: usize,
    number: usize,
    rest: &'a [u8],
) -> Result<(Event, &'a [u8]), TraceFault>
    requires threads { threads ≤ THREADS }
    requires rest { length rest.now ≤ total }
    requires number { number < MOST_LINES }
    ensures read { Reads (λ x. (x.0, x.1.now)) result (line_at program.now threads total number rest.now) }
{
    if ends_past(total, rest) {
        return Err(TraceFault {
            kind: TraceFaultKind::TooLarge,
            line: number + 1,
        });
    }
    match event(alloc, program, threads, number, rest) {
        Ok(read) => Ok(read),
        Err(refusal) => Err(fault_on(refusal, number + 1)),
    }
}

/// Adds the event of a line.
fn keep(events: &mut Vec<Event>, event: Event, line: usize) -> Result<(), TraceFault>
    ensures ok { OnOk result (events.new.items ≡ events.old.items ++ event ∷ []) }
    ensures err { IfErr result (λ fault. fault.kind ≡ faults.OutOfMemory) }
{
    match events.push(event) {
        Ok(()) => Ok(()),
        Err(_) => Err(TraceFault {
            kind: TraceFaultKind::OutOfMemory,
            line,
        }),
    }
}

/// The events that a text spells, or its first fault.
fn events_in(
    alloc: Global,
    program: &Program,
    threads: usize,
    text: &[u8],
) -> Result<Vec<Event>, TraceFault>
    requires { threads ≤ THREADS }
    ensures { Reads (λ events. events.items) result (events_of program.now threads text.now) }
{
    program.is_linked();
    let mut events = Vec::new(alloc);
    let mut rest = text;
    'lines: for number in 0..MOST_LINES {
        if rest.is_empty() {
            return Ok(events);
        }
        let (event, after) = line(alloc, program, threads, text.len(), number, rest)?;
        keep(&mut events, event, number + 1)?;
        rest = after;
    }
    if rest.is_empty() {
        Ok(events)
    } else {
        Err(TraceFault {
            kind: TraceFaultKind::TooLarge,
            line: MOST_LINES + 1,
        })
    }
}

/// The events whose trace a text is, or the first fault and its line.
///
/// The bytes may be anything: a text is read line by line, and a line from the left. Threads are numbered from 0, below
/// `threads`, of which there are 16 at most. Memory is taken for the events and their texts alone.
pub fn read_trace(
    alloc: Global,
    program: &Program,
    threads: usize,
    text: &[u8],
) -> Result<Vec<Event>, TraceFault>
    // The events, or the first fault, are those of the reading function.
    ensures exact { Reads (λ events. events.items) result (events_of program.now (min threads THREADS) text.now) }
    // What is read is a list whose trace the text is.
    ensures found { IfOk result (λ events. IsTraceOf program.now (min threads THREADS) text.now events.items) }
    // A list whose trace the text is is read, unless memory runs out.
    ensures only { (events : List EventFacts) → IsTraceOf program.now (min threads THREADS) text.now events → Reads (λ read. read.items) result (Ok events) }
{
    program.is_linked();
    let threads = threads.min(THREADS);
    events_in(alloc, program, threads, text)
}
