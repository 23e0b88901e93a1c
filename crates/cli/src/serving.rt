//! The program's body.

ghost use Rattle.std.specs.Prelude.{◌≡◌, ◌≢◌, ◌≤◌, ◌⊎◌, ℕ, List, [], Option, None, Some, IfErr, IfOk, OnOk, false};
ghost use Rattle.std.specs.Option.{option_map};
ghost use Rattle.std.specs.Io.KnownBytes.{Appends, Keeps};
ghost use Rattle.std.specs.Bool.{OnTrue};
ghost use Rattle.clap.specs.Walk.{texts};
ghost use Rattle.clap.specs.Words.{kind_of};
ghost use Rattle.clap.specs.declared.error.kind.ErrorKind.TheVariants.{DisplayHelp, DisplayVersion, OutOfMemory};
ghost use Rattle.cli.specs.Checking.{TellsVerdict};
ghost use Rattle.command_line.specs.CommandLine.{check as check_request, check_words_of, explains_in, needs as needs_request, needs_words_of, request_in, request_of, run as run_request, run_words_of, text_of};
ghost use Rattle.cli.specs.CutShort.{AreWordsCut, IsClapCut, IsCutShort, IsLineCut, IsStopped, IsTextCut};
ghost use Rattle.cli.specs.Editions.{edition_in};
ghost use Rattle.cli.specs.FaultText.{fault_line};
ghost use Rattle.cli.specs.Files.{KeepsAllBut};
ghost use Rattle.cli.specs.Limits.{AreLimits};
ghost use Rattle.cli.specs.NamedRun.{IsAmongFiles};
ghost use Rattle.cli.specs.NeedsText.{needs_text};
ghost use Rattle.cli.specs.Orders.{order_in};
ghost use Rattle.cli.specs.Refusals.{AreWordsRefused, IsCheckFault, IsFaultOf, IsNeedsFault, IsRefusedBy, IsRunFault};
ghost use Rattle.cli.specs.Serving.{HasRun, HasToldNeeds, HasToldVerdict, IsDone, IsServed, IsToldVerdict, IsUntouched, around, file_of, trace_in};
ghost use Rattle.cli.specs.Status.{IsStatus, status_of};
ghost use Rattle.cli.specs.declared.fault.Fault.TheVariants.{Output, Words as WordsFault};

use crate::checking::{Judged, check_named, status_of_verdict, write_judged};
use crate::editions::edition_of;
use crate::explaining::{tell_codes, words_for};
use crate::fault::Fault;
use crate::files::Named;
use crate::limits::limits_of;
use crate::needed::write_needs;
use crate::orders::order_of;
use crate::reporting::{report_run, write_output};
use crate::running::{link_files, run_named};
use crate::sink::emit_to;
use bodies::Limits;
use clap::error::ErrorKind;
use command_line::{Asked, Check, Needs, Run, parse};
use hierarchy::{Edition, Program};
use judge::Verdict;
use std::alloc::Global;
use std::io;
use std::sync::Wait;
use std::thread::Threads;

/// Whether the trace is one of these files.
fn is_among<N: Named>(trace: &str, files: &[&str], named: &N) -> bool
    ensures { OnTrue result (IsAmongFiles (N.held named.now) trace.now (texts files.now)) }
{
    for file in files {
        if named.is_same(trace, file) {
            return true;
        }
    }
    false
}

/// Whether the trace is a file that is read, under another name.
fn replaces_input<N: Named>(words: &Run<'_>, named: &N) -> bool
    ensures { OnTrue result (IsRunFault (N.held named.now) (run_words_of words.now) WordsFault) }
{
    let Some(trace) = words.trace else {
        return false;
    };
    if is_among(trace, &words.files, named) {
        return true;
    }
    match words.replay {
        Some(replay) => named.is_same(trace, replay),
        None => false,
    }
}

/// Runs what the words ask for, in this order, where there is one, within these limits and in this edition, writes the output and
/// the trace, tells how the threads ended, and answers the exit status.
fn run_within<'a, R: Threads + Wait + Sync, N: Named, O: io::Write, E: io::Write>(
    rt: &R,
    alloc: Global,
    words: &Run<'a>,
    order: Option<Vec<usize>>,
    limits: Limits,
    edition: Edition,
    named: &mut N,
    out: &mut O,
    err: &mut E,
) -> Result<u8, Fault<'a>>
    requires order { order_in (text_of words.now.mains) (text_of words.now.order) ≡ Some (option_map (λ all. all.items) order) }
    requires said { AreLimits (text_of words.now.steps) (text_of words.now.patience) limits }
    requires edition_said { edition_in (text_of words.now.edition) ≡ Some edition }
    ensures files { KeepsAllBut (file_of (text_of words.now.trace)) (N.held named.old) (N.held named.new) }
    ensures ran { IfOk result (HasRun (around (N.held named.old) (O.contents out.old)) (around (N.held named.new) (O.contents out.new))
        (E.contents err.old) (E.contents err.new) (run_words_of words.now)) }
    ensures stopped { IfErr result (IsStopped (around (N.held named.old) (O.contents out.old)) (around (N.held named.new) (O.contents out.new))
        (E.contents err.old) (E.contents err.new) (run_request (run_words_of words.now))) }
    ensures untouched { IfErr result (λ f. status_of f ≡ 2 → IsUntouched (around (N.held named.old) (O.contents out.old)) (around (N.held named.new) (O.contents out.new))) }
    ensures refused { IfErr result (λ f. status_of f ≡ 2 → IsRunFault (N.held named.old) (run_words_of words.now) f) }
    ensures silent { IfErr result (λ f. status_of f ≡ 2 → Keeps (E.contents err.old) (E.contents err.new)) }
{
    match run_named(rt, alloc, words, order, limits, edition, named) {
        Ok(ran) => report_run(alloc, &ran, words, named, out, err),
        Err(fault) => Err(fault),
    }
}

/// Runs what the words ask for, writes the output and the trace, tells how the threads ended, and answers the exit status.
fn run<'a, R: Threads + Wait + Sync, N: Named, O: io::Write, E: io::Write>(
    rt: &R,
    alloc: Global,
    words: &Run<'a>,
    named: &mut N,
    out: &mut O,
    err: &mut E,
) -> Result<u8, Fault<'a>>
    ensures files { KeepsAllBut (file_of (text_of words.now.trace)) (N.held named.old) (N.held named.new) }
    ensures ran { IfOk result (HasRun (around (N.held named.old) (O.contents out.old)) (around (N.held named.new) (O.contents out.new))
        (E.contents err.old) (E.contents err.new) (run_words_of words.now)) }
    ensures stopped { IfErr result (IsStopped (around (N.held named.old) (O.contents out.old)) (around (N.held named.new) (O.contents out.new))
        (E.contents err.old) (E.contents err.new) (run_request (run_words_of words.now))) }
    ensures untouched { IfErr result (λ f. status_of f ≡ 2 → IsUntouched (around (N.held named.old) (O.contents out.old)) (around (N.held named.new) (O.contents out.new))) }
    ensures refused { IfErr result (λ f. status_of f ≡ 2 → IsRunFault (N.held named.old) (run_words_of words.now) f) }
    ensures silent { IfErr result (λ f. status_of f ≡ 2 → Keeps (E.contents err.old) (E.contents err.new)) }
{
    if replaces_input(words, named) {
        return Err(Fault::Words);
    }
    let order = match order_of(alloc, words.mains, words.order) {
        Ok(order) => order,
        Err(fault) => return Err(fault),
    };
    let limits = match limits_of(words.steps, words.patience) {
        Ok(limits) => limits,
        Err(fault) => return Err(fault),
    };
    let edition = match edition_of(words.edition) {
        Ok(edition) => edition,
        Err(fault) => return Err(fault),
    };
    run_within(rt, alloc, words, order, limits, edition, named, out, err)
}

/// Writes what each class needs.
fn write_needed<'a, O: io::Write>(
    alloc: Global,
    program: &Program,
    out: &mut O,
) -> Result<(), Fault<'a>>
    ensures output { OnOk result (Appends (O.contents out.old) (O.contents out.new) (needs_text program.now)) }
    ensures cut { IfErr result (IsTextCut Output (O.contents out.old) (O.contents out.new) (needs_text program.now)) }
    ensures refused { IfErr result (λ f. status_of f ≡ 3) }
{
    match write_needs(alloc, program) {
        Ok(text) => write_output(out, &text),
        Err(_) => Err(Fault::Memory),
    }
}

/// Tells what each class of the files needs, in the edition that the words say.
fn tell_needs<'a, N: Named, O: io::Write>(
    alloc: Global,
    words: &Needs<'a>,
    named: &mut N,
    out: &mut O,
) -> Result<(), Fault<'a>>
    ensures files { KeepsAllBut None (N.held named.old) (N.held named.new) }
    ensures told { OnOk result (HasToldNeeds (around (N.held named.old) (O.contents out.old)) (around (N.held named.new) (O.contents out.new)) (needs_words_of words.now)) }
    ensures stopped { IfErr result (λ f. (errors : Option (List ℕ)) → IsStopped (around (N.held named.old) (O.contents out.old)) (around (N.held named.new) (O.contents out.new))
        errors errors (needs_request (needs_words_of words.now)) f) }
    ensures untouched { IfErr result (λ f. status_of f ≡ 2 → IsUntouched (around (N.held named.old) (O.contents out.old)) (around (N.held named.new) (O.contents out.new))) }
    ensures refused { IfErr result (λ f. status_of f ≡ 2 → IsNeedsFault (N.held named.old) (needs_words_of words.now) f) }
{
    let edition = match edition_of(words.edition) {
        Ok(edition) => edition,
        Err(fault) => return Err(fault),
    };
    let program = match link_files(alloc, &words.files, edition, named) {
        Ok(program) => program,
        Err(fault) => return Err(fault),
    };
    write_needed(alloc, &program, out)
}

/// Writes the verdict.
fn write_verdict<'a, O: io::Write>(
    alloc: Global,
    judged: &Judged,
    explains: bool,
    out: &mut O,
) -> Result<(), Fault<'a>>
    ensures told { OnOk result (HasToldVerdict (O.contents out.old) (O.contents out.new) judged.now.verdict explains) }
    ensures cut { IfErr result (λ f. (text : List ℕ) × TellsVerdict judged.now.verdict explains text × IsTextCut Output (O.contents out.old) (O.contents out.new) text f) }
    ensures refused { IfErr result (λ f. status_of f ≡ 3) }
{
    match write_judged(alloc, judged, explains) {
        Ok(line) => write_output(out, &line),
        Err(_) => Err(Fault::Memory),
    }
}

/// Judges the trace that the words name, and writes the verdict.
fn tell_judged<'a, N: Named, O: io::Write>(
    alloc: Global,
    words: &Check<'a>,
    named: &mut N,
    out: &mut O,
) -> Result<Verdict, Fault<'a>>
    ensures files { KeepsAllBut None (N.held named.old) (N.held named.new) }
    ensures judged { IfOk result (IsToldVerdict (around (N.held named.old) (O.contents out.old)) (around (N.held named.new) (O.contents out.new)) (check_words_of words.now)) }
    ensures stopped { IfErr result (λ f. (errors : Option (List ℕ)) → IsStopped (around (N.held named.old) (O.contents out.old)) (around (N.held named.new) (O.contents out.new))
        errors errors (check_request (check_words_of words.now)) f) }
    ensures untouched { IfErr result (λ f. status_of f ≡ 2 → IsUntouched (around (N.held named.old) (O.contents out.old)) (around (N.held named.new) (O.contents out.new))) }
    ensures refused { IfErr result (λ f. status_of f ≡ 2 → IsCheckFault (N.held named.old) (check_words_of words.now) f) }
{
    let edition = match edition_of(words.edition) {
        Ok(edition) => edition,
        Err(fault) => return Err(fault),
    };
    let files = &words.files;
    let judged = match check_named(alloc, named, files, edition, words.mains, words.trace) {
        Ok(judged) => judged,
        Err(fault) => return Err(fault),
    };
    write_verdict(alloc, &judged, words.explains, out)?;
    Ok(judged.verdict)
}

/// Does what the words ask for, and answers the exit status.
fn answer<'a, R: Threads + Wait + Sync, N: Named, O: io::Write, E: io::Write>(
    rt: &R,
    alloc: Global,
    asked: &Asked<'a>,
    named: &mut N,
    out: &mut O,
    err: &mut E,
) -> Result<u8, Fault<'a>>
    ensures files { KeepsAllBut (trace_in (request_of asked.now)) (N.held named.old) (N.held named.new) }
    ensures served { IfOk result (IsServed (around (N.held named.old) (O.contents out.old)) (around (N.held named.new) (O.contents out.new))
        (E.contents err.old) (E.contents err.new) (request_of asked.now)) }
    ensures stopped { IfErr result (IsStopped (around (N.held named.old) (O.contents out.old)) (around (N.held named.new) (O.contents out.new))
        (E.contents err.old) (E.contents err.new) (request_of asked.now)) }
    ensures untouched { IfErr result (λ f. status_of f ≡ 2 → IsUntouched (around (N.held named.old) (O.contents out.old)) (around (N.held named.new) (O.contents out.new))) }
    ensures refused { IfErr result (λ f. status_of f ≡ 2 → IsFaultOf (N.held named.old) (request_of asked.now) f) }
    ensures silent { IfErr result (λ f. status_of f ≡ 2 → Keeps (E.contents err.old) (E.contents err.new)) }
{
    match asked {
        Asked::Run(words) => run(rt, alloc, words, named, out, err),
        Asked::Check(words) => {
            let verdict = tell_judged(alloc, words, named, out)?;
            Ok(status_of_verdict(verdict))
        }
        Asked::Needs(words) => {
            tell_needs(alloc, words, named, out)?;
            Ok(0)
        }
        Asked::Explain(names) => {
            tell_codes(alloc, names, out)?;
            Ok(0)
        }
        Asked::Unfit { .. } => Err(Fault::Words),
    }
}

/// Whether what `clap` answers was shown, with what is known of the program after its version.
fn is_shown<N: Named, O: io::Write>(
    alloc: Global,
    error: &clap::Error,
    named: &N,
    out: &mut O,
) -> bool {
    if write!(out, "{error}").is_err() {
        return false;
    }
    if let ErrorKind::DisplayVersion = error.kind() {
        if emit_to(out, &named.about(alloc)).is_err() {
            return false;
        }
    }
    out.flush().is_ok()
}

/// Reports what `clap` answers to the words: what is wrong with them, or the help or the version, and answers the exit status.
fn tell_words<N: Named, O: io::Write, E: io::Write>(
    alloc: Global,
    error: &clap::Error,
    named: &N,
    out: &mut O,
    err: &mut E,
) -> u8
    ensures status { IsStatus result }
    ensures shown { result ≤ 1 → (result ≡ 0) × ((kind_of error.now ≡ DisplayHelp) ⊎ (kind_of error.now ≡ DisplayVersion)) }
    ensures quiet { result ≤ 1 → Keeps (E.contents err.old) (E.contents err.new) }
    ensures untouched { result ≡ 2 → Keeps (O.contents out.old) (O.contents out.new) }
    ensures wrong { result ≡ 2 → (kind_of error.now ≢ OutOfMemory) × (kind_of error.now ≢ DisplayHelp) × (kind_of error.now ≢ DisplayVersion) }
    ensures cut { result ≡ 3 → IsClapCut (O.contents out.old) (O.contents out.new) (E.contents err.old) (E.contents err.new) (kind_of error.now) }
{
    match error.kind() {
        ErrorKind::OutOfMemory => {
            let _ = Fault::Memory.tell(err);
            3
        }
        ErrorKind::DisplayHelp | ErrorKind::DisplayVersion => {
            if !is_shown(alloc, error, named, out) {
                let _ = Fault::Output.tell(err);
                return 3;
            }
            0
        }
        _ => {
            if write!(err, "{error}").is_err() {
                return 3;
            }
            2
        }
    }
}

/// Tells of the fault, and answers the exit status.
fn tell_fault<E: io::Write>(fault: &Fault<'_>, err: &mut E) -> u8
    ensures status { (2 ≤ result) × IsStatus result }
    ensures told { result ≡ 2 → (status_of fault.now ≡ 2) × Appends (E.contents err.old) (E.contents err.new) (fault_line fault.now) }
    ensures cut { result ≡ 3 → IsLineCut (E.contents err.old) (E.contents err.new) fault.now }
{
    if fault.tell(err).is_err() {
        return 3;
    }
    fault.status()
}

/// Adds the words that explain a fault, where that is asked for, as far as they can be written.
fn explain_fault<N: Named, E: io::Write>(
    alloc: Global,
    fault: &Fault<'_>,
    asked: &Asked<'_>,
    named: &mut N,
    err: &mut E,
)
    ensures words { (words : List ℕ) × Appends (E.contents err.old) (E.contents err.new) words × (explains_in (request_of asked.now) ≡ false → words ≡ []) }
    ensures files { KeepsAllBut None (N.held named.old) (N.held named.new) }
{
    let words = words_for(alloc, fault, asked, named);
    let _ = emit_to(err, &words);
}

/// Does what the words ask for, or reports why it isn't done, and answers the exit status.
fn answer_or_tell<R: Threads + Wait + Sync, N: Named, O: io::Write, E: io::Write>(
    rt: &R,
    alloc: Global,
    asked: &Asked<'_>,
    named: &mut N,
    out: &mut O,
    err: &mut E,
) -> u8
    ensures status { IsStatus result }
    ensures served { result ≤ 1 → IsServed (around (N.held named.old) (O.contents out.old)) (around (N.held named.new) (O.contents out.new))
        (E.contents err.old) (E.contents err.new) (request_of asked.now) result }
    ensures quiet { result ≡ 0 → explains_in (request_of asked.now) ≡ false → Keeps (E.contents err.old) (E.contents err.new) }
    ensures untouched { result ≡ 2 → IsUntouched (around (N.held named.old) (O.contents out.old)) (around (N.held named.new) (O.contents out.new)) }
    ensures refused { result ≡ 2 → IsRefusedBy (N.held named.old) (E.contents err.old) (E.contents err.new) (request_of asked.now) }
    ensures cut { result ≡ 3 → IsCutShort (around (N.held named.old) (O.contents out.old)) (around (N.held named.new) (O.contents out.new))
        (E.contents err.old) (E.contents err.new) (request_of asked.now) }
    ensures files { KeepsAllBut (trace_in (request_of asked.now)) (N.held named.old) (N.held named.new) }
{
    match answer(rt, alloc, asked, named, out, err) {
        Ok(status) => status,
        Err(fault) => {
            let status = tell_fault(&fault, err);
            if status != 2 {
                return status;
            }
            explain_fault(alloc, &fault, asked, named, err);
            status
        }
    }
}

/// Does what the words of a command line ask for, and answers the exit status. The first word is the
/// program's name.
///
/// Files are read and written by name through `named`, the output goes to `out`, and to `err` what went wrong, in one line
/// or in `clap`'s words, with further words after the line where `--explain` is given, and how threads ended that didn't end normally, a
/// line each. The status is 0 where all
/// threads ended normally, or the trace is legal, 1 where one didn't, or the trace is illegal, 2 where the words, the files or the
/// classes are at fault, and 3 where memory, a thread, a file, the output or a line to `err` was refused; nothing further is written then. Without
/// `--order` and `--replay` it may wait, for ever where `--patience` is 0.
///
/// At status 0 and 1 what the words ask for is done, or, at 0, they ask for help or the version; at 0 nothing is written to `err`, unless
/// `--explain` is given and the trace has more than is read of one.
/// At status 2 no file is written, and nothing to `out`; where `clap` finds no fault in the words, what is added to `err` is the line of the
/// first fault of what they ask for, and that fault is one of status 2; after it come further words only if `--explain` is given. At status 3
/// `out` and `err` hold fronts of what they were to hold
/// (of texts of `clap`'s own, nothing is said): of the output, and of the lines of the threads or the line of the fault; and what was to follow
/// the one that failed wasn't begun, but for the fault's line. At every status all files but the trace are as they were. What files
/// hold is said where that is known (`Named::held`), and so is what was written (`Write::contents`).
pub fn serve<R: Threads + Wait + Sync, N: Named, O: io::Write, E: io::Write>(
    rt: &R,
    alloc: Global,
    words: &[&str],
    named: &mut N,
    out: &mut O,
    err: &mut E,
) -> u8
    ensures status { IsStatus result }
    ensures done { result ≤ 1 → IsDone (around (N.held named.old) (O.contents out.old)) (around (N.held named.new) (O.contents out.new))
        (E.contents err.old) (E.contents err.new) (texts words.entry.now) result }
    ensures quiet { result ≡ 0 → explains_in (request_in (texts words.entry.now)) ≡ false → Keeps (E.contents err.old) (E.contents err.new) }
    ensures untouched { result ≡ 2 → IsUntouched (around (N.held named.old) (O.contents out.old)) (around (N.held named.new) (O.contents out.new)) }
    ensures refused { result ≡ 2 → AreWordsRefused (N.held named.old) (E.contents err.old) (E.contents err.new) (texts words.entry.now) }
    ensures cut { result ≡ 3 → AreWordsCut (around (N.held named.old) (O.contents out.old)) (around (N.held named.new) (O.contents out.new))
        (E.contents err.old) (E.contents err.new) (texts words.entry.now) }
    ensures files { KeepsAllBut (trace_in (request_in (texts words.entry.now))) (N.held named.old) (N.held named.new) }
{
    match parse(alloc, words) {
        Ok(asked) => answer_or_tell(rt, alloc, &asked, named, out, err),
        Err(error) => tell_words(alloc, &error, named, out, err),
    }
}
