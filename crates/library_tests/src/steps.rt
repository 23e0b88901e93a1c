//! How many events there are of each step.

use init_core::{Event, Kind};

/// What an event does, of what is distinguished here.
#[derive(Clone, Copy)]
pub(crate) enum Step {
    Waits,
    FindsInitialized,
    Begins,
    Runs,
    Completes,
    Another,
}

pub(crate) fn step_of(event: &Event) -> Step {
    match event.kind() {
        Ok(Kind::Waits) => Step::Waits,
        Ok(Kind::FindsInitialized) => Step::FindsInitialized,
        Ok(Kind::Begins) => Step::Begins,
        Ok(Kind::Runs) => Step::Runs,
        Ok(Kind::Completes) => Step::Completes,
        _ => Step::Another,
    }
}

/// How many events there are of each step.
#[derive(Clone, Copy)]
pub(crate) struct Steps {
    pub waits: usize,
    pub finds_initialized: usize,
    pub begins: usize,
    pub runs: usize,
    pub completes: usize,
    pub others: usize,
}

pub(crate) fn steps_of(events: &[Event]) -> Steps {
    let mut steps = Steps {
        waits: 0,
        finds_initialized: 0,
        begins: 0,
        runs: 0,
        completes: 0,
        others: 0,
    };
    for event in events {
        let counter = match step_of(event) {
            Step::Waits => &mut steps.waits,
            Step::FindsInitialized => &mut steps.finds_initialized,
            Step::Begins => &mut steps.begins,
            Step::Runs => &mut steps.runs,
            Step::Completes => &mut steps.completes,
            Step::Another => &mut steps.others,
        };
        *counter = counter.saturating_add(1);
    }
    steps
}
