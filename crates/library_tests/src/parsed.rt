//! What the words of the command line ask for, and the exit status of a fault. Runs of the whole program are cases of
//! the crate `cases`.

use cli::Fault;
use command_line::{Asked, parse};
use std::alloc::Global;

const WORDS: &[&str] = &[
    "jinit",
    "run",
    "a.j",
    "--mains",
    "A,B",
    "--order",
    "0,1,1",
    "b.j",
    "--trace=made",
    "--patience",
    "7",
    "--steps=10",
    "--edition",
    "7",
    "--",
    "--c.j",
];

/// Whether the words of a run are those that were given.
fn is_parsed(alloc: Global) -> bool {
    match &parse(alloc, WORDS) {
        Ok(Asked::Run(run)) => {
            run.mains == Some("A,B")
                && run.trace == Some("made")
                && run.order == Some("0,1,1")
                && run.patience == Some("7")
                && run.steps == Some("10")
                && run.edition == Some("7")
                && run.files.as_slice() == ["a.j", "b.j", "--c.j"].as_slice()
        }
        _ => false,
    }
}

#[test]
fn words_are_parsed(rt: HostRuntime) {
    assert!(rt; is_parsed(rt.alloc()));
}

#[test]
fn statuses(rt: HostRuntime) {
    assert!(rt; Fault::Mains.status() == 2 && Fault::Output.status() == 3);
}
