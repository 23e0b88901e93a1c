//! Judges the cases of files: `cases FILE..`. See [`archive`] for their form. A file's folder says what its cases
//! are: files in the Jasmin form (`jasmin`), classes (`classes`), traces (`traces`), and a file `NAME.txtar` is a
//! whole command line with its files (`programs`). `cases stop FILE..` judges them with each command run with its streams stopped too.
//! `cases bench NAME` measures times ([`bench`]), and `cases call NAME ..` makes one call of a library ([`calls`]).
//!
//! The number of cases of each file, and each case that failed, is reported on standard output. The exit status is 0
//! where all files could be read and all cases passed, else 1.
//!
//! In the crate's folder `rt run -- data/jasmin/words.txt` judges one file. The file `args` names all, and `stdout` has
//! their counts, so that no case is lost unnoticed.
#![tactic(auto)]

mod archive;
mod bench;
mod calls;
mod classes;
mod classes_fields;
mod classes_hierarchy;
mod classes_members;
mod classes_selection;
mod descriptor_words;
mod framing;
mod jasmin;
mod linked;
mod programs;
mod report;
mod text;
mod traces;
mod words;

use crate::archive::{Archive, Part};
use crate::bench::Benchmark;
use crate::report::Report;
use std::alloc::{Alloc, Global};
use std::process::ExitCode;
use std::rt::{Clock, Files};
use std::sync::Wait;
use std::thread::Threads;
use std::{env, fs, io};

/// Judges the cases of a file.
fn judge<R: Threads + Wait + Sync>(
    rt: &R,
    alloc: Global,
    file: &str,
    stops: bool,
    parts: &[Part<'_>],
    report: &mut Report<'_>,
) {
    if file.ends_with(".txtar") {
        programs::judge(rt, alloc, stops, parts, report)
    } else if file.contains("jasmin/") {
        jasmin::judge(alloc, parts, report)
    } else if file.contains("classes/") || file.contains("traces/") {
        linked::judge(alloc, file, parts, report)
    } else {
        report.fails(0, b"a folder of cases", b"another one")
    }
}

/// Judges the cases of a file with these bytes.
fn judge_bytes<R: Threads + Wait + Sync>(
    rt: &R,
    alloc: Global,
    file: &str,
    stops: bool,
    bytes: &[u8],
    report: &mut Report<'_>,
) {
    let archive = Archive::read(alloc, bytes);
    if archive.is_refused {
        report.fails(0, b"cases", b"out of memory");
    } else if let Some(line) = archive.bad_line {
        report.fails(line, b"a good escape", b"a bad one");
    } else {
        judge(rt, alloc, file, stops, &archive.parts, report);
    }
}

/// Judges the cases of a file of this name, or does a little of each benchmark.
fn judge_file<'a, R: Files + Alloc + Clock + Threads + Wait + Sync>(
    rt: &R,
    alloc: Global,
    file: &'a str,
    stops: bool,
    benchmarks: &[Benchmark],
    report: &mut Report<'a>,
) {
    report.file = file;
    if file == "bench" {
        bench::judge(rt, alloc, benchmarks, report);
    } else {
        match fs::read(rt, file) {
            Ok(bytes) => judge_bytes(rt, alloc, file, stops, &bytes, report),
            Err(_) => report.fails(0, b"a file", b"none that can be read"),
        }
    }
    report.ends();
}

/// The words of the command line.
fn args_of(rt: &HostRuntime) -> io::Result<Vec<String>> {
    let args = env::args(rt)?.collect(rt.alloc())?;
    Ok(args)
}

/// Judges the files of these names, and prints what came of them.
fn judge_all<R: Files + Alloc + Clock + Print + Threads + Wait + Sync>(
    rt: &R,
    alloc: Global,
    files: &[String],
    stops: bool,
    benchmarks: &[Benchmark],
) -> ExitCode {
    let mut report = Report::new(alloc);
    for file in files {
        judge_file(rt, alloc, file.as_str(), stops, benchmarks, &mut report);
    }
    let has_passed = report.closes(stops);
    let is_written = rt.write_all(&report.text.bytes).is_ok();
    ExitCode::from(if has_passed && is_written { 0 } else { 1 })
}

/// Does what the words ask for.
fn answer<R: Files + Alloc + Clock + Print + Eprint + Threads + Wait + Sync>(
    rt: &R,
    alloc: Global,
    args: &[String],
    benchmarks: &[Benchmark],
) -> ExitCode {
    match args {
        [_, word, name, details @ ..] if word.as_str() == "bench" => {
            bench::answer(rt, alloc, benchmarks, name.as_str(), details)
        }
        [_, word, name, files @ ..] if word.as_str() == "call" => {
            calls::answer(rt, alloc, name.as_str(), files)
        }
        [_, word, files @ ..] if word.as_str() == "stop" => {
            judge_all(rt, alloc, files, true, benchmarks)
        }
        [_, files @ ..] => judge_all(rt, alloc, files, false, benchmarks),
        [] => ExitCode::from(1),
    }
}

fn main(rt: HostRuntime) -> ExitCode {
    match args_of(&rt) {
        Ok(args) => answer(&rt, rt.alloc(), &args, bench::ALL),
        Err(_) => ExitCode::from(1),
    }
}
