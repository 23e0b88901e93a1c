//! Times of `needs` on ladders of diamonds, a rung, beside a short ladder.
//!
//! On each rung of a ladder are two interfaces with a default method, and each extends both of the rung below. So the
//! ways down from the top double with each rung, while the interfaces are only two a rung.

use crate::bench::files::Files;
use crate::bench::harness::{Failure, Row, Watch};
use crate::bench::sample::Sample;
use hierarchy::{ClassId, Program};
use init_core::needs;
use std::alloc::Global;
use std::rt::Clock;

// How often `needs` is called in a time, since one call is short.
const CALLS: usize = 200;

/// Ladders of doubled heights.
pub(crate) const ROWS: &[Row] = &[Row {
    what: "rungs, a rung, beside 32",
    sample: Sample::Needs,
    sizes: &[64, 128, 256],
    most: 1,
    unit: Sample::Needs,
    unit_size: Some(32),
    repeats: 8,
}];

// An interface on a rung with one below, with a default method: there are two on each.
const A_RUNG: &[u8] =
    b".interface A#\n.implements A@\n.implements B@\n.method m()V\nreturn\n.end method\n";

const B_RUNG: &[u8] =
    b".interface B#\n.implements A@\n.implements B@\n.method m()V\nreturn\n.end method\n";

/// Adds a ladder of so many rungs, one at least, and a class on its top, which is the first.
pub(crate) fn add_files(files: &mut Files, rungs: usize) {
    let top = rungs.saturating_sub(1);
    files.add_file(b".class Top\n.implements A#\n.implements B#\n", top, 0);
    files.add_file(b".interface A0\n.method m()V\nreturn\n.end method\n", 0, 0);
    files.add_file(b".interface B0\n.method m()V\nreturn\n.end method\n", 0, 0);
    for rung in 1..rungs {
        files.add_file(A_RUNG, rung, rung - 1);
        files.add_file(B_RUNG, rung, rung - 1);
    }
}

/// How long `needs` of the first class takes, for each of so many rungs.
pub(crate) fn time(
    rt: &impl Clock,
    alloc: Global,
    program: &Program,
    rungs: usize,
) -> Result<u128, Failure> {
    let watch = Watch::start(rt);
    for _ in 0..CALLS {
        let _needed = needs(alloc, program, ClassId { number: 0 })?;
    }
    watch.share(rt, rungs.saturating_mul(CALLS))
}
