//! A long chain of classes, each over the same interfaces with code.

use crate::programs::{Question, add, is_answered};
use crate::runs::Crowd;
use jasmin_text::ClassText;
use std::alloc::{AllocError, Global};
use std::rt::Clock;
use std::sync::Wait;
use std::thread::Threads;

/// How many classes the chain has. With this number and the next the room that is made at a time runs out before looks and before
/// steps 9.
pub(crate) const CLASSES: usize = 22;

/// How many interfaces.
pub(crate) const INTERFACES: usize = 18;

/// What is asked of the chain.
const RUN: &Question = &Question::Ran(Crowd::OverAll);

/// A class of the chain over all interfaces.
fn chained(alloc: Global, class: usize) -> Result<String, AllocError> {
    let mut file = format!(in alloc; ".class C{class}")?;
    if class > 0 {
        write!(file, "\n.super C{}", class - 1)?;
    }
    for interface in 0..INTERFACES {
        write!(file, "\n.implements I{interface}")?;
    }
    Ok(file)
}

/// The classes of a long chain, from the top, and then their interfaces.
fn long_chain(alloc: Global) -> Result<Vec<ClassText>, AllocError> {
    let mut classes = Vec::new(alloc);
    for class in 0..CLASSES {
        add(alloc, chained(alloc, class)?.as_bytes(), &mut classes)?;
    }
    for interface in 0..INTERFACES {
        let file = format!(in alloc; ".interface I{interface}\n.method m()V\nreturn\n.end method")?;
        add(alloc, file.as_bytes(), &mut classes)?;
    }
    Ok(classes)
}

fn is_chain_run<R: Threads + Wait + Sync + Clock>(rt: &R, alloc: Global) -> bool {
    match long_chain(alloc) {
        Ok(classes) => is_answered(rt, alloc, classes, CLASSES + INTERFACES, RUN),
        Err(_) => false,
    }
}

#[test]
fn a_long_chain_takes_room_again_and_again(rt: HostRuntime) {
    assert!(rt; is_chain_run(&rt, rt.alloc()));
}
