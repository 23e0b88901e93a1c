//! How a run is reported: the output, the trace, and the lines of the threads, one after the other.

ghost use Rattle.std.specs.Prelude.{◌≡◌, ◌&&◌, ◌||◌, Some, MatchBool, IfErr, IfOk, IfSome, OnErr, OnOk, [], false, if◌then◌else◌, is_some, length, nat_lt};
ghost use Rattle.std.specs.Io.KnownBytes.{Appends};
ghost use Rattle.trace.specs.TraceText.{trace_of};
ghost use Rattle.trace_reader.specs.declared.reader.TheConstants.{MOST_BYTES, MOST_LINES};
ghost use Rattle.command_line.specs.CommandLine.{run_words_of, text_of};
ghost use Rattle.cli.specs.declared.fault.Fault.TheVariants.{Lines, Output};
ghost use Rattle.cli.specs.CutShort.{IsReportCut, IsTextCut, IsTraceCut, IsTraceFault};
ghost use Rattle.cli.specs.Files.{FileHolds, KeepsAllBut};
ghost use Rattle.cli.specs.Outcomes.{status_after};
ghost use Rattle.cli.specs.Serving.{HasWritten, around, file_of, is_standard_output, is_too_large, lines_of_run, lines_with, trace_after};
ghost use Rattle.cli.specs.Sinks.{AppendsFront};
ghost use Rattle.cli.specs.Status.{status_of};

use crate::fault::Fault;
use crate::files::{Named, NamedFault};
use crate::outcomes::{status_of_outcomes, write_outcomes};
use crate::running::ProgramRun;
use crate::sink::emit_to;
use command_line::Run;
use std::alloc::{AllocError, Global};
use std::io;
use trace::write_trace;
use trace_reader::{MOST_BYTES, MOST_LINES};

/// Whether these bytes were written to a stream, all of them.
fn is_written<O: io::Write>(out: &mut O, bytes: &[u8]) -> bool
    ensures { MatchBool result (Appends (O.contents out.old) (O.contents out.new) bytes.now) (AppendsFront (O.contents out.old) (O.contents out.new) bytes.now) }
{
    match emit_to(out, bytes) {
        Ok(()) => match out.flush() {
            Ok(()) => true,
            Err(_) => false,
        },
        Err(_) => false,
    }
}

/// Writes these bytes to the output.
pub(crate) fn write_output<'a, O: io::Write>(out: &mut O, bytes: &[u8]) -> Result<(), Fault<'a>>
    ensures whole { OnOk result (Appends (O.contents out.old) (O.contents out.new) bytes.now) }
    ensures front { OnErr result (AppendsFront (O.contents out.old) (O.contents out.new) bytes.now) }
    ensures refused { IfErr result (λ f. f ≡ Output) }
{
    if is_written(out, bytes) {
        Ok(())
    } else {
        Err(Fault::Output)
    }
}

/// Writes these bytes to the trace file.
fn write_trace_file<'a, N: Named>(
    name: &'a str,
    bytes: &[u8],
    named: &mut N,
) -> Result<(), Fault<'a>>
    requires { is_standard_output name.now ≡ false }
    ensures traced { OnOk result (FileHolds (N.held named.new) name.now (λ all. all ≡ bytes.now)) }
    ensures files { KeepsAllBut (Some name.now) (N.held named.old) (N.held named.new) }
    ensures refused { IfErr result (IsTraceFault (Some name.now)) }
{
    match named.write(name, bytes) {
        Ok(()) => Ok(()),
        Err(NamedFault::Io) => Err(Fault::Io(name)),
        Err(NamedFault::Memory) => Err(Fault::Memory),
    }
}

/// Whether a trace that is named so goes to standard output.
fn is_output(name: &str) -> bool
    ensures { result ≡ is_standard_output name.now }
{
    name == "-"
}

/// Whether a trace of so many events and with this text has more than is read of one.
fn is_large(events: usize, text: &[u8]) -> bool
    ensures { result ≡ (nat_lt MOST_LINES events || nat_lt MOST_BYTES (length text.now)) }
{
    events > MOST_LINES || text.len() > MOST_BYTES
}

/// Writes a trace: to the output, or to a file.
fn write_trace_text<'a, N: Named, O: io::Write>(
    name: &'a str,
    text: &[u8],
    named: &mut N,
    out: &mut O,
) -> Result<(), Fault<'a>>
    ensures written { OnOk result (Appends (O.contents out.old) (O.contents out.new) (if is_standard_output name.now then text.now else [])) }
    ensures traced { OnOk result (IfSome (file_of (Some name.now)) (λ file. FileHolds (N.held named.new) file (λ all. all ≡ text.now))) }
    ensures files { KeepsAllBut (file_of (Some name.now)) (N.held named.old) (N.held named.new) }
    ensures cut { IfErr result (IsTraceCut (Some name.now) (N.held named.old) (N.held named.new) (O.contents out.old) (O.contents out.new) (if is_standard_output name.now then text.now else [])) }
{
    if is_output(name) {
        write_output(out, text)
    } else {
        write_trace_file(name, text, named)
    }
}

/// Writes the trace of a run, where one is asked for, and answers whether it has more than is read of one.
fn write_traced<'a, N: Named, O: io::Write>(
    alloc: Global,
    ran: &ProgramRun,
    trace: Option<&'a str>,
    named: &mut N,
    out: &mut O,
) -> Result<bool, Fault<'a>>
    ensures written { OnOk result (Appends (O.contents out.old) (O.contents out.new) (trace_after (text_of trace.entry) ran.now.program ran.now.report)) }
    ensures traced { OnOk result (IfSome (file_of (text_of trace.entry)) (λ name.
        FileHolds (N.held named.new) name (λ bytes. bytes ≡ trace_of ran.now.program ran.now.report.events))) }
    ensures large { IfOk result (λ large. large ≡ (is_some (text_of trace.entry) && is_too_large ran.now.program ran.now.report)) }
    ensures files { KeepsAllBut (file_of (text_of trace.entry)) (N.held named.old) (N.held named.new) }
    ensures cut { IfErr result (IsTraceCut (text_of trace.entry) (N.held named.old) (N.held named.new) (O.contents out.old) (O.contents out.new) (trace_after (text_of trace.entry) ran.now.program ran.now.report)) }
{
    let Some(name) = trace else {
        return Ok(false);
    };
    let events = ran.report.events.as_slice();
    match write_trace(alloc, &ran.program, events) {
        Ok(text) => match write_trace_text(name, &text, named, out) {
            Ok(()) => Ok(is_large(events.len(), &text)),
            Err(fault) => Err(fault),
        },
        Err(_) => Err(Fault::Memory),
    }
}

/// Writes these lines of the threads, whole.
fn write_lines<'a, E: io::Write>(err: &mut E, lines: &[u8]) -> Result<(), Fault<'a>>
    ensures told { OnOk result (Appends (E.contents err.old) (E.contents err.new) lines.now) }
    ensures cut { IfErr result (IsTextCut Lines (E.contents err.old) (E.contents err.new) lines.now) }
{
    if lines.is_empty() || is_written(err, lines) {
        Ok(())
    } else {
        Err(Fault::Lines)
    }
}

/// What is added to the lines of the threads where the trace has more than is read of one.
const NOTE: &str = "the trace has more than check and --replay read: 1000000 lines or 64 MiB\n";

/// The lines of the threads, and after them that the trace is too large to be read, where that is to be said.
fn lines_of(alloc: Global, ran: &ProgramRun, is_noted: bool) -> Result<Vec<u8>, AllocError>
    ensures { IfOk result (λ text. text.items ≡ lines_with is_noted ran.now.program ran.now.report) }
{
    let mut lines = write_outcomes(alloc, &ran.program, ran.report.outcomes.as_slice())?;
    if is_noted {
        lines.extend_from_slice(NOTE.as_bytes())?;
    }
    Ok(lines)
}

/// Tells how the threads of a run ended, and that its trace is too large to be read, where that is to be said.
fn tell_outcomes<'a, E: io::Write>(
    alloc: Global,
    ran: &ProgramRun,
    is_noted: bool,
    err: &mut E,
) -> Result<(), Fault<'a>>
    ensures told { OnOk result (Appends (E.contents err.old) (E.contents err.new) (lines_with is_noted ran.now.program ran.now.report)) }
    ensures cut { IfErr result (IsTextCut Lines (E.contents err.old) (E.contents err.new) (lines_with is_noted ran.now.program ran.now.report)) }
{
    match lines_of(alloc, ran, is_noted) {
        Ok(text) => write_lines(err, &text),
        Err(_) => Err(Fault::Memory),
    }
}

/// Writes the output and the trace of a run, tells how its threads ended, and answers the exit status.
pub(crate) fn report_run<'a, N: Named, O: io::Write, E: io::Write>(
    alloc: Global,
    ran: &ProgramRun,
    words: &Run<'a>,
    named: &mut N,
    out: &mut O,
    err: &mut E,
) -> Result<u8, Fault<'a>>
    ensures written { OnOk result (HasWritten (around (N.held named.old) (O.contents out.old)) (around (N.held named.new) (O.contents out.new))
        (text_of words.now.trace) ran.now.program ran.now.report) }
    ensures told { OnOk result (Appends (E.contents err.old) (E.contents err.new) (lines_of_run (run_words_of words.now) ran.now.program ran.now.report)) }
    ensures ended { IfOk result (λ status. status ≡ status_after ran.now.report.outcomes) }
    ensures files { KeepsAllBut (file_of (text_of words.now.trace)) (N.held named.old) (N.held named.new) }
    ensures cut { IfErr result (IsReportCut (around (N.held named.old) (O.contents out.old)) (around (N.held named.new) (O.contents out.new)) (E.contents err.old) (E.contents err.new) (run_words_of words.now) ran.now.program ran.now.report) }
    ensures refused { IfErr result (λ f. status_of f ≡ 3) }
{
    match write_output(out, ran.report.output.as_slice()) {
        Ok(()) => {}
        Err(fault) => return Err(fault),
    }
    let is_large = match write_traced(alloc, ran, words.trace, named, out) {
        Ok(is_large) => is_large,
        Err(fault) => return Err(fault),
    };
    match tell_outcomes(alloc, ran, words.explains && is_large, err) {
        Ok(()) => Ok(status_of_outcomes(ran.report.outcomes.as_slice())),
        Err(fault) => Err(fault),
    }
}
