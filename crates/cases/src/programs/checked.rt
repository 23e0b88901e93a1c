//! The verdict on the trace that a run wrote.

use crate::programs::named_texts::Texts;
use crate::programs::serve_with;
use command_line::Run;
use std::alloc::{AllocError, Global};
use std::sync::Wait;
use std::thread::Threads;

/// The command line that has the trace of these main classes judged.
fn words_to_check<'a>(
    alloc: Global,
    run: &Run<'a>,
    mains: &'a str,
    trace: &'a str,
) -> Result<Vec<&'a str>, AllocError> {
    let mut words = Vec::from_slice(
        alloc,
        &["jinit", "check", "--mains", mains, "--trace", trace],
    )?;
    if let Some(edition) = run.edition {
        words.extend_from_slice(&["--edition", edition])?;
    }
    words.extend_from_slice(&run.files)?;
    Ok(words)
}

/// Has the trace judged by this command line, and adds what is said of it where that isn't that it is legal.
fn check<R: Threads + Wait + Sync>(
    rt: &R,
    alloc: Global,
    words: &[&str],
    files: &mut Texts,
    came: &mut Texts,
) {
    let mut said = Vec::new(alloc);
    let mut err = Vec::new(alloc);
    let _ = serve_with(rt, alloc, words, files, &mut said, &mut err);
    if said.append(&mut err).is_err() {
        came.is_refused = true;
    } else if said.as_slice() != b"legal\n".as_slice() {
        came.put("verdict", &said);
    }
}

/// Adds what is said of the trace that a run wrote, where it isn't judged legal: nothing where the run names no trace.
pub(crate) fn judge_trace<R: Threads + Wait + Sync>(
    rt: &R,
    alloc: Global,
    run: &Run<'_>,
    files: &mut Texts,
    came: &mut Texts,
) {
    let (Some(mains), Some(trace)) = (run.mains, run.trace) else {
        return;
    };
    match words_to_check(alloc, run, mains, trace) {
        Ok(words) => check(rt, alloc, &words, files, came),
        Err(_) => came.is_refused = true,
    }
}
