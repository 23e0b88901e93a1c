//! Cases of whole command lines, each run over files in memory.
//!
//! A case is a command, and the parts after it up to the next command. The cases of a file follow one another over the
//! same files.
//!
//! | Head | Body |
//! |---|---|
//! | `command` | the words of the command line, with white space between them; `''` is an empty word |
//! | `file NAME` | a file that is made before the run; of the name `-` it is standard input |
//! | `N times file NAME` | N such files: `#` in the name and in the body is the number of the file, from 0 |
//! | `stdout`, `stderr` | what the run writes; nothing where the part is absent |
//! | `status` | the exit status; 0 where the part is absent |
//! | `left NAME` | what the file holds after the run |
//!
//! A file that no `left` names holds after the run what it held before, and the run makes no file but those. Where a command runs
//! one main class, its run on a thread of its own must come to the same output, lines and trace, with any patience and with the least.
//! A trace that a run wrote into a file must be judged legal. With `cases stop` each command is run too with its output stopped at each byte of it,
//! and likewise with its standard error (after 800 bytes at every 997th): the answer must be status 3 (in the words that explain a fault, that of
//! the fault), with just the bytes before on the stream that is stopped, and where that is the output, no file written and `io: output` on
//! standard error. With room for just the whole it must come to the same as without a limit. (That is 62,000 runs, which the kit would make twice.)

mod checked;
mod named_texts;
mod stopped;
mod threaded;

use crate::archive::{Part, parts_after};
use crate::programs::checked::judge_trace;
use crate::programs::named_texts::Texts;
use crate::programs::stopped::run_stopped;
use crate::programs::threaded::run_threaded;
use crate::report::Report;
use cli::{Named, serve};
use command_line::{Asked, Run, parse};
use std::alloc::{AllocError, Global};
use std::io;
use std::str::from_utf8;
use std::sync::Wait;
use std::thread::Threads;

/// Makes a file of this number.
fn put_copy(
    alloc: Global,
    number: usize,
    name: &str,
    body: &str,
    files: &mut Texts,
) -> Result<(), AllocError> {
    let number = format!(in alloc; "{number}")?;
    let name = name.replace(alloc, "#", number.as_str())?;
    let body = body.replace(alloc, "#", number.as_str())?;
    files.put(name.as_str(), body.as_bytes());
    Ok(())
}

/// Makes the files that a part has.
fn put_files(alloc: Global, part: &Part<'_>, files: &mut Texts) {
    if let Some(name) = part.head.strip_prefix("file ") {
        files.put(name, &part.body);
    } else if let Some((count, name)) = part.head.split_once(" times file ") {
        let body = from_utf8(&part.body).unwrap_or("");
        for number in 0..count.parse::<usize>().unwrap_or(0) {
            if put_copy(alloc, number, name, body, files).is_err() {
                files.is_refused = true;
            }
        }
    }
}

/// Adds what comes of a run, under the heads that say it.
fn put_outcome(outcome: &mut Texts, out: &[u8], err: &[u8], status: u8, files: &Texts) {
    outcome.put("stdout", out);
    outcome.put("stderr", err);
    outcome.put("status", &[b'0'.saturating_add(status), b'\n']);
    outcome.put_all("left", files);
}

/// Adds what is to come of a run over these files, as the parts say.
fn put_wanted(wanted: &mut Texts, parts: &[Part<'_>], files: &Texts) {
    put_outcome(wanted, b"", b"", 0, files);
    for part in parts {
        if !part.head.starts_with("file ") && !part.head.contains(" times file ") {
            wanted.put(part.head, &part.body);
        }
    }
}

/// The words of a command line.
fn words_of<'a>(alloc: Global, command: &'a str) -> Result<Vec<&'a str>, AllocError> {
    let mut words = Vec::new(alloc);
    for word in command.split_whitespace() {
        words.push(if word == "''" { "" } else { word })?;
    }
    Ok(words)
}

/// Adds what a run on a thread of its own, if there was one, made otherwise, under the heads that say it.
fn compare(threaded: &Texts, trace: Option<&str>, files: &Texts, came: &mut Texts) {
    if threaded.is_refused {
        came.is_refused = true;
    }
    if threaded.is_empty() {
        return;
    }
    for name in ["stdout", "stderr"] {
        if threaded.text(name) != came.text(name) {
            came.put_below("threaded", name, threaded.text(name));
        }
    }
    if let Some(trace) = trace {
        if threaded.text("trace") != files.text(trace) {
            came.put("threaded trace", threaded.text("trace"));
        }
    }
}

/// [`serve`] with nothing promised, over any files and streams: of those at hand its contract is slow to state.
pub(crate) fn serve_with<R: Threads + Wait + Sync, N: Named, O: io::Write, E: io::Write>(
    rt: &R,
    alloc: Global,
    words: &[&str],
    files: &mut N,
    out: &mut O,
    err: &mut E,
) -> u8 {
    serve(rt, alloc, words, files, out, err)
}

/// Serves a command line over the files, adds what came of it, and answers its exit status.
fn serve_words<R: Threads + Wait + Sync>(
    rt: &R,
    alloc: Global,
    words: &[&str],
    files: &mut Texts,
    came: &mut Texts,
) -> u8 {
    let mut out = Vec::new(alloc);
    let mut err = Vec::new(alloc);
    let status = serve_with(rt, alloc, words, files, &mut out, &mut err);
    put_outcome(came, &out, &err, status, files);
    status
}

/// The same for a command line that asks for this run, beside runs on a thread of its own.
fn serve_run<R: Threads + Wait + Sync>(
    rt: &R,
    alloc: Global,
    words: &[&str],
    run: &Run<'_>,
    files: &mut Texts,
    came: &mut Texts,
) {
    let mut patient = Texts::new(alloc);
    let mut hasty = Texts::new(alloc);
    run_threaded(rt, alloc, run, files, &mut patient, &mut hasty);
    let status = serve_words(rt, alloc, words, files, came);
    if status <= 1 {
        judge_trace(rt, alloc, run, files, came);
        compare(&patient, run.trace, files, came);
        compare(&hasty, run.trace, files, came);
    }
}

/// Runs a command line over the files, and adds what came of it.
fn run<R: Threads + Wait + Sync>(
    rt: &R,
    alloc: Global,
    words: &[&str],
    files: &mut Texts,
    came: &mut Texts,
) {
    match &parse(alloc, words) {
        // (a trace on standard output would have to be told from the output)
        Ok(Asked::Run(run)) if run.trace != Some("-") => {
            serve_run(rt, alloc, words, run, files, came);
        }
        _ => {
            serve_words(rt, alloc, words, files, came);
        }
    }
}

/// Judges what came of a run.
fn judge_run(line: usize, wanted: &Texts, came: &Texts, report: &mut Report<'_>) {
    if wanted.is_refused || came.is_refused {
        report.text.is_refused = true;
    }
    wanted.write_others(came, &mut report.wanted);
    came.write_others(wanted, &mut report.came);
    report.judges(line);
}

/// Judges a case: its command and the parts after it. Where it `stops`, the command is run too with its streams stopped.
fn judge_case<R: Threads + Wait + Sync>(
    rt: &R,
    alloc: Global,
    stops: bool,
    command: &Part<'_>,
    parts: &[Part<'_>],
    files: &mut Texts,
    report: &mut Report<'_>,
) {
    for part in parts {
        put_files(alloc, part, files);
    }
    let mut wanted = Texts::new(alloc);
    let mut came = Texts::new(alloc);
    put_wanted(&mut wanted, parts, files);
    match words_of(alloc, from_utf8(&command.body).unwrap_or("")) {
        Ok(words) => {
            if stops {
                run_stopped(rt, alloc, &words, files, &mut came, report);
            }
            run(rt, alloc, &words, files, &mut came);
        }
        Err(_) => came.is_refused = true,
    }
    if files.is_refused {
        came.is_refused = true;
    }
    judge_run(command.line, &wanted, &came, report);
}

/// Judges the cases of a file. A part before the first command fails. Where it `stops`, each command is run too with its streams stopped.
pub(crate) fn judge<R: Threads + Wait + Sync>(
    rt: &R,
    alloc: Global,
    stops: bool,
    parts: &[Part<'_>],
    report: &mut Report<'_>,
) {
    let mut files = Texts::new(alloc);
    for (index, part) in parts.iter().enumerate() {
        if part.head == "command" {
            let after = parts_after(parts, index, "command");
            judge_case(rt, alloc, stops, part, after, &mut files, report);
        } else if index == 0 {
            report.fails(part.line, b"command", part.head.as_bytes());
        }
    }
}
