//! Runs whose output, or whose standard error, takes so many bytes and no more.

use crate::programs::named_texts::{Texts, Unchanged};
use crate::programs::serve_with;
use crate::report::Report;
use cli::Stops;
use std::alloc::Global;
use std::sync::Wait;
use std::thread::Threads;

/// What standard error holds where the output can't be written.
const UNWRITTEN: &[u8] = b"io: output\n";

/// Whether a stream is stopped at this byte: at each of the first 800, and further on (three texts are longer) at every 997th.
fn is_tried(at: usize) -> bool {
    at < 800 || at % 997 == 0
}

/// A command line, and what it comes to over these files.
#[derive(Clone, Copy)]
pub(crate) struct Whole<'a> {
    words: &'a [&'a str],
    out: &'a [u8],
    err: &'a [u8],
    status: u8,
    is_written: bool,
}

/// Whether a run comes to this status, and to files that were written or not, where its output and standard error take no more bytes
/// than these, and holds just them then.
fn fills<R: Threads + Wait + Sync>(
    rt: &R,
    alloc: Global,
    files: &mut Texts,
    expected: &Whole<'_>,
) -> bool {
    let Ok(mut out) = Stops::new(alloc, expected.out.len()) else {
        return false;
    };
    let Ok(mut err) = Stops::new(alloc, expected.err.len()) else {
        return false;
    };
    let mut files = Unchanged::new(files);
    let status = serve_with(rt, alloc, expected.words, &mut files, &mut out, &mut err);
    status == expected.status
        && files.is_written == expected.is_written
        && out.written() == expected.out
        && err.written() == expected.err
}

/// The status where standard error takes just this front of its text: that of the whole, once the line of a fault is written that words
/// explain, and else 3.
fn status_at(whole: &Whole<'_>, front: &[u8]) -> u8 {
    let is_explained = whole.words.contains(&"--explain") && !whole.err.starts_with(b"error:");
    if whole.status == 2 && is_explained && front.contains(&b'\n') {
        2
    } else {
        3
    }
}

/// Runs a command line with each of its streams stopped at bytes of it, and adds each front at which something else comes than
/// is to come: status 3, or that of a fault whose line is written.
fn stop_at_each<R: Threads + Wait + Sync>(
    rt: &R,
    alloc: Global,
    whole: &Whole<'_>,
    files: &mut Texts,
    came: &mut Texts,
    report: &mut Report<'_>,
) {
    let mut stopped = *whole;
    for at in 0..whole.err.len() {
        if is_tried(at) {
            report.stopped = report.stopped.saturating_add(1);
            stopped.err = &whole.err[..at];
            stopped.status = status_at(whole, stopped.err);
            if !fills(rt, alloc, files, &stopped) {
                came.put("stderr stopped", stopped.err);
            }
        }
    }
    stopped.status = 3;
    stopped.err = UNWRITTEN;
    stopped.is_written = false;
    for at in 0..whole.out.len() {
        if is_tried(at) {
            report.stopped = report.stopped.saturating_add(1);
            stopped.out = &whole.out[..at];
            if !fills(rt, alloc, files, &stopped) {
                came.put("stdout stopped", stopped.out);
            }
        }
    }
}

/// Runs a command line over the files with each of its streams stopped at bytes of it, and with room for just the whole, and adds what
/// comes otherwise than with just the bytes that there is room for, and with status 3 where that isn't the whole.
pub(crate) fn run_stopped<R: Threads + Wait + Sync>(
    rt: &R,
    alloc: Global,
    words: &[&str],
    files: &mut Texts,
    came: &mut Texts,
    report: &mut Report<'_>,
) {
    let mut out = Vec::new(alloc);
    let mut err = Vec::new(alloc);
    let mut unchanged = Unchanged::new(files);
    let status = serve_with(rt, alloc, words, &mut unchanged, &mut out, &mut err);
    let is_written = unchanged.is_written;
    let whole = Whole {
        words,
        out: &out,
        err: &err,
        status,
        is_written,
    };
    if !fills(rt, alloc, files, &whole) {
        came.put("stopped at the end", &out);
    }
    stop_at_each(rt, alloc, &whole, files, came, report);
}
