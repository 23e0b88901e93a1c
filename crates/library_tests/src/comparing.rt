//! World beside the twin, on every schedule up to a depth.

use crate::schedules::{Action, Choice, events_of};
use crate::twin::{Act, Made, begins_thread_word};
use crate::twin_labels::{may_follow, part_with};
use hierarchy::{BuiltIn, Program};
use std::alloc::{AllocError, Global};
use std::mem;

/// A program that is compared: what each of its classes needs, as read from JVMS SE 8 5.5 by hand, and the main classes
/// of two threads. A class is named by the place of its file; there are three at most.
pub(crate) struct Case {
    pub needs: &'static [&'static [usize]],
    pub mains: [usize; 2],
    /// The lists of fewer events than this are compared.
    pub depth: usize,
    /// How many lists they are.
    pub lists: usize,
    /// How many events World and the twin judge otherwise after them.
    pub differ: usize,
}

/// What a thread may do next, but that the machine ends it.
const ACTIONS: [Action; 6] = [
    Action::Goes,
    Action::Returns,
    Action::Throws,
    Action::Requests(0),
    Action::Requests(1),
    Action::Requests(2),
];

/// What an event may do, but reads, writes, prints and endings by the machine.
const ACTS: [Act; 10] = [
    Act::Waits,
    Act::Recurs,
    Act::FindsInitialized,
    Act::FindsErroneous,
    Act::Begins,
    Act::SuperFails(BuiltIn::Error),
    Act::SuperFails(BuiltIn::NoClassDefFoundError),
    Act::Runs,
    Act::Completes,
    Act::Fails(BuiltIn::Error),
];

/// What was found of all lists so far.
#[derive(Drop)]
struct Found {
    /// The choices that lead to the lists that have one event more.
    longer: Vec<Vec<Choice>>,
    /// How many lists were compared.
    lists: usize,
    /// How many events World and the twin judge otherwise.
    differ: usize,
}

/// The twin's judgement of a list with one event more.
fn is_legal_with(
    alloc: Global,
    case: &Case,
    list: &[Made],
    made: &Made,
) -> Result<bool, AllocError> {
    if made.thread >= 2 || !may_follow(list, made) {
        return Ok(false);
    }
    let part = part_with(alloc, list, made)?;
    begins_thread_word(alloc, case.needs, case.mains[made.thread], part.as_slice())
}

/// How many events of a thread at a class World and the twin judge otherwise after this list, where World makes these. One that
/// the twin has no memory to judge is one of them.
fn count_differences(
    alloc: Global,
    case: &Case,
    list: &[Made],
    made: &[Made],
    thread: usize,
    class: usize,
) -> usize {
    let mut differ = 0usize;
    for act in &ACTS {
        let act = *act;
        let event = Made { thread, class, act };
        if is_legal_with(alloc, case, list, &event) != Ok(made.contains(&event)) {
            differ = differ.saturating_add(1);
        }
    }
    differ
}

/// Adds the event that this choice makes after these choices, which make so many, if it makes one.
fn add_next(
    alloc: Global,
    program: &Program,
    case: &Case,
    path: &[Choice],
    choice: Choice,
    count: usize,
    found: &mut Found,
    made: &mut Vec<Made>,
) -> Result<(), AllocError> {
    let mut longer = Vec::from_slice(alloc, path)?;
    longer.push(choice)?;
    let events = events_of(alloc, program, &case.mains, longer.as_slice())?;
    if let Some(event) = events.as_slice().get(count) {
        made.push(*event)?;
        found.longer.push(longer)?;
    }
    Ok(())
}

/// Compares World with the twin after the list of these choices.
fn compare_at(
    alloc: Global,
    program: &Program,
    case: &Case,
    path: &[Choice],
    found: &mut Found,
) -> Result<(), AllocError> {
    let list = events_of(alloc, program, &case.mains, path)?;
    let mut made = Vec::new(alloc);
    let count = list.len();
    for thread in 0..2 {
        for action in &ACTIONS {
            let choice = (thread, *action);
            add_next(alloc, program, case, path, choice, count, found, &mut made)?;
        }
    }
    found.lists = found.lists.saturating_add(1);
    for thread in 0..2 {
        for class in 0..program.len() {
            let differ = count_differences(alloc, case, &list, &made, thread, class);
            found.differ = found.differ.saturating_add(differ);
        }
    }
    Ok(())
}

/// Whether World and the twin, on every list of fewer events than the depth, judge as the case says.
pub(crate) fn is_as_compared(
    alloc: Global,
    program: &Program,
    case: &Case,
) -> Result<bool, AllocError> {
    let mut found = Found {
        longer: Vec::new(alloc),
        lists: 0,
        differ: 0,
    };
    let mut paths = Vec::new(alloc);
    paths.push(Vec::new(alloc))?;
    for _ in 0..case.depth {
        for path in paths.as_slice() {
            compare_at(alloc, program, case, path.as_slice(), &mut found)?;
        }
        paths = mem::replace(&mut found.longer, Vec::new(alloc));
    }
    Ok(found.lists == case.lists && found.differ == case.differ)
}
