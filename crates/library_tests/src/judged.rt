//! What is judged of a trace in memory. Whole command lines are cases of the crate `cases`.

use crate::refusals::RefusingFiles;
use cli::{Judged, check_named, status_of_verdict, write_judged};
use hierarchy::Edition;
use judge::{Rule, Verdict, check, explain};
use std::alloc::Global;

const BROKEN_OFF: Verdict = Verdict::IllegalAt(2, Rule::End);

/// Whether the verdict is written as a line.
fn is_written(alloc: Global, judged: &Judged) -> bool {
    match write_judged(alloc, judged, false) {
        Ok(line) => line.as_slice() == b"illegal at 2: end\n".as_slice(),
        Err(_) => false,
    }
}

/// Whether the verdict is explained in words.
fn is_explained(alloc: Global, judged: &Judged) -> bool {
    match explain(
        alloc,
        &judged.program,
        &judged.mains,
        &judged.events,
        judged.verdict,
    ) {
        Ok(words) => {
            words.starts_with(b"the trace ends there\nt0 initializes Solo since event 0")
        }
        Err(_) => false,
    }
}

/// Whether all that is said of the trace is right.
fn is_right(alloc: Global, judged: &Judged) -> bool {
    judged.verdict == BROKEN_OFF
        && judged.events.len() == 2
        && status_of_verdict(judged.verdict) == 1
        && is_written(alloc, judged)
        && check(alloc, &judged.program, &judged.mains, &judged.events) == Ok(BROKEN_OFF)
        && check(alloc, &judged.program, &judged.mains, &[]) == Ok(Verdict::Legal)
        && is_explained(alloc, judged)
}

fn is_judged(alloc: Global) -> bool {
    let mut files = RefusingFiles { is_written: false };
    let edition = Edition::Eight;
    let trace = "broken off";
    match check_named(alloc, &mut files, &["Solo.j"], edition, Some("Solo"), trace) {
        Ok(judged) => is_right(alloc, &judged),
        Err(_) => false,
    }
}

#[test]
fn a_trace_is_judged(rt: HostRuntime) {
    assert!(rt; is_judged(rt.alloc()));
}
