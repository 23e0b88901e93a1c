//! The classes whose events are judged: the label of each, and what its static fields hold.

ghost use Rattle.std.specs.Prelude.{◌≡◌, ◌↔◌, IsTrue, ◌<◌, [], List, None, IfOk, IfSome, OnOk, length};
ghost use Rattle.init_core.specs.declared.event.Event.{Event};
ghost use Rattle.init_core.specs.Lawful.{Allows, IsInProgressByOther, MayUse};
ghost use Rattle.judge.specs.Judging.{AreStatesAfter, HoldsNow, StateRefuses, StateTakes, StatesRefuse, StatesTake};

use crate::verdict::Rule;
use hierarchy::{ClassId, Program};
use init_core::{CLASS_NUMBERS, ClassState, Kind, Label, THREADS};
use std::alloc::{AllocError, Global};

fn may_use(label: Label, thread: usize) -> bool
    ensures { IsTrue result ↔ MayUse thread label }
{
    match label {
        Label::Initialized => true,
        Label::InProgress(owner) => thread == owner,
        _ => false,
    }
}

fn is_in_progress_by_other(label: Label, thread: usize) -> bool
    ensures { IsTrue result ↔ IsInProgressByOther thread label }
{
    match label {
        Label::InProgress(owner) => thread != owner,
        _ => false,
    }
}

/// Whether the label lets the thread do this.
fn allows(label: Label, thread: usize, kind: &Kind) -> bool
    ensures { IsTrue result ↔ Allows label thread kind.now }
{
    match kind {
        Kind::Waits => is_in_progress_by_other(label, thread),
        Kind::FindsInitialized => label == Label::Initialized,
        Kind::FindsErroneous => label == Label::Erroneous,
        Kind::Begins => label == Label::Prepared,
        Kind::Gets { .. } | Kind::Puts { .. } => may_use(label, thread),
        Kind::Prints(_) => false,
        _ => label == Label::InProgress(thread),
    }
}

/// Whether the field holds what is read, or is one of the class.
fn holds(state: &ClassState, kind: &Kind) -> bool
    ensures { IsTrue result ↔ HoldsNow state.now.fields state.now.values kind.now }
{
    match kind {
        Kind::Gets { field, value } => {
            *field < state.static_fields() && state.value(*field) == *value
        }
        Kind::Puts { field, .. } => *field < state.static_fields(),
        _ => true,
    }
}

/// A thread does this at the class.
fn apply(state: &mut ClassState, thread: usize, kind: &Kind)
    requires thread { thread < THREADS }
    requires allowed { Allows state.old.label thread kind.now }
    requires holds { HoldsNow state.old.fields state.old.values kind.now }
    ensures { StateTakes state.old state.new thread kind.now }
{
    state.add(thread, kind);
}

/// The same where it breaks no rule; else the rule.
fn step(state: &mut ClassState, thread: usize, kind: &Kind) -> Option<Rule>
    requires { thread < THREADS }
    ensures fits { result ≡ None → StateTakes state.old state.new thread kind.now }
    ensures breaks { IfSome result (StateRefuses state.old thread kind.now) }
{
    if !allows(state.label(), thread, kind) {
        return Some(Rule::Label);
    }
    if !holds(state, kind) {
        return Some(Rule::Value);
    }
    apply(state, thread, kind);
    None
}

/// The state of each class, by its number, up to the highest one with an event.
#[derive(Drop)]
pub(crate) struct Classes {
    pub(crate) states: Vec<ClassState>,
}

impl Classes {
    /// No class has an event. Takes no memory.
    pub(crate) fn new(alloc: Global) -> Self
        ensures { result.states.items ≡ [] }
    {
        Classes {
            states: Vec::new(alloc),
        }
    }

    /// Makes room for a class and those of lower numbers, each prepared.
    fn grow(&mut self, alloc: Global, program: &Program, class: ClassId) -> Result<(), AllocError>
        requires { class.number < CLASS_NUMBERS }
        ensures within { OnOk result (class.number < length self.new.states.items) }
        ensures states { OnOk result ((events : List Event) → AreStatesAfter program.now self.old.states.items events → AreStatesAfter program.now self.new.states.items events) }
    {
        'classes: while self.states.len() <= class.number {
            let number = self.states.len();
            let state = ClassState::prepared(alloc, program, ClassId { number })?;
            self.states.push(state)?;
        }
        Ok(())
    }

    /// A thread does this at a class, where it breaks no rule.
    ///
    /// An `Err` means out of memory.
    pub(crate) fn take(
        &mut self,
        alloc: Global,
        program: &Program,
        thread: usize,
        class: ClassId,
        kind: &Kind,
    ) -> Result<Option<Rule>, AllocError>
        requires thread { thread < THREADS }
        requires class { class.number < CLASS_NUMBERS }
        ensures fits { IfOk result (λ r. r ≡ None → StatesTake program.now self.old.states.items self.new.states.items thread class kind.now) }
        ensures breaks { IfOk result (λ r. IfSome r (StatesRefuse program.now self.old.states.items thread class kind.now)) }
    {
        self.grow(alloc, program, class)?;
        let state = &mut self.states[class.number];
        Ok(step(state, thread, kind))
    }
}
