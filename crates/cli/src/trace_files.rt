//! Traces in files: their events, and the order in which their threads went on.

ghost use Rattle.std.specs.Prelude.{◌≡◌, ◌≤◌, None, Some, IfErr, IfOk, length};
ghost use Rattle.std.specs.Option.{option_map};
ghost use Rattle.command_line.specs.CommandLine.{run_words_of, text_of};
ghost use Rattle.cli.specs.Checking.{IsTraceRefusal, TraceHolds};
ghost use Rattle.cli.specs.Files.{KeepsAllBut};
ghost use Rattle.cli.specs.NamedRun.{IsOrder, IsRunRefusal, threads_of as threads_of_events};
ghost use Rattle.cli.specs.Orders.{order_in};
ghost use Rattle.cli.specs.Running.{mains_in};

use crate::fault::Fault;
use crate::files::{Named, NamedFault};
use command_line::Run;
use hierarchy::{ClassId, Program};
use init_core::Event;
use std::alloc::{AllocError, Global};
use trace_reader::{MOST_BYTES, TraceFaultKind, read_trace};

/// The events of the trace in a file, of so many threads.
pub(crate) fn read_events<'a, N: Named>(
    alloc: Global,
    named: &mut N,
    program: &Program,
    threads: usize,
    file: &'a str,
) -> Result<Vec<Event>, Fault<'a>>
    requires { threads ≤ 16 }
    ensures traced { IfOk result (λ events. TraceHolds (N.held named.old) file.now program.now threads events.items) }
    ensures refused { IfErr result (IsTraceRefusal (N.held named.old) file.now program.now threads) }
    ensures files { KeepsAllBut None (N.held named.old) (N.held named.new) }
{
    let bytes = match named.read(alloc, file, MOST_BYTES + 1) {
        Ok(bytes) => bytes,
        Err(NamedFault::Io) => return Err(Fault::Io(file)),
        Err(NamedFault::Memory) => return Err(Fault::Memory),
    };
    match read_trace(alloc, program, threads, &bytes) {
        Ok(events) => Ok(events),
        Err(fault) => match fault.kind {
            TraceFaultKind::OutOfMemory => Err(Fault::Memory),
            _ => Err(Fault::Trace { file, fault }),
        },
    }
}

/// The threads of events, one after the other.
fn threads_of(alloc: Global, events: &[Event]) -> Result<Vec<usize>, AllocError>
    ensures { IfOk result (λ threads. threads.items ≡ threads_of_events events.now) }
{
    let mut threads = Vec::new(alloc);
    for event in events {
        threads.push(event.thread())?;
    }
    Ok(threads)
}

/// The order in which the threads of these main classes go on: what `--order` says, or where there is a trace to replay the threads of
/// its events.
pub(crate) fn order_for<'a, N: Named>(
    alloc: Global,
    program: &Program,
    mains: &[ClassId],
    words: &Run<'a>,
    order: Option<Vec<usize>>,
    named: &mut N,
) -> Result<Option<Vec<usize>>, Fault<'a>>
    requires mains { mains_in program.now (text_of words.now.mains) ≡ Some mains.now }
    requires count { length mains.now ≤ 16 }
    requires said { order_in (text_of words.now.mains) (text_of words.now.order) ≡ Some (option_map (λ all. all.items) order) }
    ensures ordered { IfOk result (λ all. IsOrder (N.held named.old) program.now (run_words_of words.now) (option_map (λ all. all.items) all)) }
    ensures refused { IfErr result (IsRunRefusal (N.held named.old) program.now (run_words_of words.now)) }
    ensures files { KeepsAllBut None (N.held named.old) (N.held named.new) }
{
    let Some(trace) = words.replay else {
        return Ok(order);
    };
    match read_events(alloc, named, program, mains.len(), trace) {
        Ok(events) => {
            let threads = threads_of(alloc, &events)?;
            Ok(Some(threads))
        }
        Err(fault) => Err(fault),
    }
}
