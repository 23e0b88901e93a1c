//! From files by name to the verdict on a trace.

ghost use Rattle.std.specs.Prelude.{◌≡◌, ◌≤◌, ℕ, List, None, IfErr, IfOk, length};
ghost use Rattle.sequence.specs.Written.{Adds};
ghost use Rattle.clap.specs.Walk.{texts};
ghost use Rattle.judge.specs.Verdicts.{IsVerdict};
ghost use Rattle.cli.specs.Checking.{IsCheckRefusal, IsJudgeRefusal, IsJudged, IsJudgedOf, IsTraceRefusal, TellsVerdict, TraceHolds, rule_text, status_by, verdict_line};
ghost use Rattle.command_line.specs.CommandLine.{text_of};
ghost use Rattle.cli.specs.Files.{KeepsAllBut};

use crate::fault::Fault;
use crate::files::Named;
use crate::running::{link_files, mains_of};
use crate::trace_files::read_events;
use hierarchy::{ClassId, Edition, Program};
use init_core::Event;
use jasmin_words::integer::push_decimal;
use judge::{Rule, Verdict, check, explain};
use sequence::Writer;
use std::alloc::{AllocError, Global};

/// A trace of a program, and what it was judged to be.
pub struct Judged {
    /// The classes of the files, linked.
    pub program: Program,
    /// The main classes, one a thread.
    pub mains: Vec<ClassId>,
    /// The events of the trace.
    pub events: Vec<Event>,
    /// Whether they are a legal interleaving.
    pub verdict: Verdict,
}

impl Drop for Judged {
    fn drop(self) {
        let Self {
            program: _,
            mains: _,
            events: _,
            verdict: _,
        } = self;
    }
}

/// Judges the trace in a file, of threads of these main classes.
fn judge_events<'a, N: Named>(
    alloc: Global,
    named: &mut N,
    program: &Program,
    mains: &[ClassId],
    file: &'a str,
) -> Result<(Vec<Event>, Verdict), Fault<'a>>
    requires { length mains.now ≤ 16 }
    ensures traced { IfOk result (λ r. TraceHolds (N.held named.old) file.now program.now (length mains.now) r.0.items) }
    ensures judged { IfOk result (λ r. IsVerdict program.now mains.now r.0.items r.1) }
    ensures refused { IfErr result (IsTraceRefusal (N.held named.old) file.now program.now (length mains.now)) }
    ensures files { KeepsAllBut None (N.held named.old) (N.held named.new) }
{
    let events = match read_events(alloc, named, program, mains.len(), file) {
        Ok(events) => events,
        Err(fault) => return Err(fault),
    };
    let verdict = check(alloc, program, mains, &events)?;
    Ok((events, verdict))
}

/// Judges the trace in a file against a program, with a thread for each class that the text of `--mains` names.
fn judge_trace<'a, N: Named>(
    alloc: Global,
    named: &mut N,
    program: Program,
    mains: Option<&str>,
    file: &'a str,
) -> Result<Judged, Fault<'a>>
    ensures program { IfOk result (λ j. j.program ≡ program) }
    ensures judged { IfOk result (λ j. IsJudgedOf (N.held named.old) program (text_of mains.entry) file.now j.mains.items j.events.items j.verdict) }
    ensures refused { IfErr result (IsJudgeRefusal (N.held named.old) program (text_of mains.entry) file.now) }
    ensures files { KeepsAllBut None (N.held named.old) (N.held named.new) }
{
    let mains = match mains_of(alloc, &program, mains) {
        Ok(mains) => mains,
        Err(fault) => return Err(fault),
    };
    match judge_events(alloc, named, &program, &mains, file) {
        Ok((events, verdict)) => Ok(Judged {
            program,
            mains,
            events,
            verdict,
        }),
        Err(fault) => Err(fault),
    }
}

/// Links the classes of the files in this edition, and judges the trace in a file against them, with a thread for each class that
/// the text of `--mains` names, 1 to 16, separated by commas.
///
/// The trace is judged by [`check`]: whatever the bodies of the initializers and of `main` do (JLS SE 8 12.4.2).
///
/// # Errors
///
/// The first of: more than 256 files, or the first file's fault (`Fault::Files`, `Fault::Io`, `Fault::Jasmin`); the first fault of
/// linking (`Fault::Link`); no main class, one that no file has, or more than 16 (`Fault::Mains`); the trace file can't be read
/// (`Fault::Io`) or isn't a trace of these classes and threads (`Fault::Trace`). Being out of memory (`Fault::Memory`) may come before
/// any of them.
pub fn check_named<'a, N: Named>(
    alloc: Global,
    named: &mut N,
    files: &[&'a str],
    edition: Edition,
    mains: Option<&str>,
    trace: &'a str,
) -> Result<Judged, Fault<'a>>
    ensures judged { IfOk result (λ j. IsJudged (N.held named.old) (texts files.now) edition (text_of mains.entry) trace.now j.program j.mains.items j.events.items j.verdict) }
    ensures refused { IfErr result (IsCheckRefusal (N.held named.old) (texts files.now) edition (text_of mains.entry) trace.now) }
    ensures files { KeepsAllBut None (N.held named.old) (N.held named.new) }
{
    match link_files(alloc, files, edition, named) {
        Ok(program) => judge_trace(alloc, named, program, mains, trace),
        Err(fault) => Err(fault),
    }
}

/// The rule's name.
fn name_of(rule: Rule) -> &'static str
    ensures { result.now ≡ rule_text rule }
{
    match rule {
        Rule::Word => "word",
        Rule::Label => "label",
        Rule::Value => "value",
        Rule::End => "end",
    }
}

/// Writes the line of a verdict: `legal`, or `illegal at <n>: <rule>`.
fn write_verdict(out: &mut Writer, verdict: Verdict)
    ensures { Adds out.old (verdict_line verdict) out.new }
{
    match verdict {
        Verdict::Legal => out.push(b"legal\n"),
        Verdict::IllegalAt(number, rule) => {
            out.push(b"illegal at ");
            push_decimal(out, number);
            out.push(b": ");
            out.push(name_of(rule).as_bytes());
            out.push(b"\n");
        }
    }
}

/// Writes the words that say what is illegal ([`explain`]).
fn write_reason(alloc: Global, out: &mut Writer, judged: &Judged)
    ensures { (words : List ℕ) × Adds out.old words out.new }
{
    let Judged {
        program,
        mains,
        events,
        verdict,
    } = judged;
    match explain(alloc, program, mains, events, *verdict) {
        Ok(words) => out.push(&words),
        Err(_) => out.lose(),
    }
}

/// The line of the verdict, `legal` or `illegal at <n>: <rule>`, and where `explains` is set further lines that say in words
/// what is illegal ([`explain`]).
///
/// An `Err` means out of memory.
pub fn write_judged(alloc: Global, judged: &Judged, explains: bool) -> Result<Vec<u8>, AllocError>
    ensures { IfOk result (λ text. TellsVerdict judged.now.verdict explains text.items) }
{
    let mut text = Writer::new(alloc);
    write_verdict(&mut text, judged.verdict);
    if explains {
        write_reason(alloc, &mut text, judged);
    }
    text.into_text()
}

/// The exit status that tells the verdict.
pub fn status_of_verdict(verdict: Verdict) -> u8
    ensures { result ≡ status_by verdict }
{
    match verdict {
        Verdict::Legal => 0,
        Verdict::IllegalAt(..) => 1,
    }
}
