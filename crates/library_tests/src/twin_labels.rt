//! The twin's labels: what each event of a class asks of those before it.

use crate::twin::{Act, Made};
use init_core::Label;
use std::alloc::{AllocError, Global};

/// The label of a class after these events.
fn label_of(list: &[Made], class: usize) -> Label {
    let mut label = Label::Prepared;
    for made in list {
        if made.class == class {
            match made.act {
                Act::SuperFails(_) | Act::Fails(_) => label = Label::Erroneous,
                Act::Completes => label = Label::Initialized,
                Act::Begins => label = Label::InProgress(made.thread),
                _ => (),
            }
        }
    }
    label
}

/// Whether an event may be the next of its class after these events.
pub(crate) fn may_follow(list: &[Made], made: &Made) -> bool {
    let label = label_of(list, made.class);
    match made.act {
        Act::Begins => label == Label::Prepared,
        Act::FindsInitialized => label == Label::Initialized,
        Act::FindsErroneous => label == Label::Erroneous,
        Act::Waits => match label {
            Label::InProgress(thread) => thread != made.thread,
            _ => false,
        },
        _ => label == Label::InProgress(made.thread),
    }
}

/// The events of one thread, and then this one.
pub(crate) fn part_with(
    alloc: Global,
    list: &[Made],
    last: &Made,
) -> Result<Vec<Made>, AllocError> {
    let mut part = Vec::new(alloc);
    for made in list {
        if made.thread == last.thread {
            part.push(*made)?;
        }
    }
    part.push(*last)?;
    Ok(part)
}
