//! The events of a run, and the state of each class after them.

ghost use Rattle.std.specs.Prelude.{◌≡◌, ◌<◌, ◌≤◌, ◌++◌, ◌∷◌, [], IfOk, OnOk, length};
ghost use Rattle.hierarchy.specs.LinkedProgram.{LinkedProgram};
ghost use Rattle.statics.specs.Statics.{statics_of};
ghost use Rattle.init_core.specs.Decisions.{event};
ghost use Rattle.init_core.specs.declared.event.TheConstants.{THREADS};
ghost use Rattle.init_core.specs.Interleaving.{of_class, label_at, labels_of as all_labels};
ghost use Rattle.init_core.specs.Lawful.{Allows, Holds};
ghost use Rattle.init_core.specs.ProcedureWord.{IsOfFiles, printed};
ghost use Rattle.init_core.specs.ProgramEvents.{IsDoneAt};
ghost use Rattle.replayer.specs.Logged.{IsLog, IsStateAfter};

use hierarchy::{ClassId, Program};
use init_core::{ClassState, Event, Kind, Label, THREADS};
use sequence::{Sequence, Text};
use std::alloc::{AllocError, Global};
use std::snapshot::Snapshot;

/// The events of all threads so far, and the state of each class of the files after them, by the classes' numbers.
#[derive(Drop)]
pub(crate) struct EventLog {
    /// How many threads there are.
    pub threads: Snapshot<usize>,
    pub states: Vec<ClassState>,
    pub events: Vec<Event>,
}

impl EventLog {
    /// No events: each class is prepared. An `Err` means out of memory.
    pub(crate) fn new(alloc: Global, program: &Program, threads: usize) -> Result<Self, AllocError>
        requires { threads ≤ THREADS }
        ensures threads { IfOk result (λ log. log.threads.value ≡ threads) }
        ensures log { IfOk result (λ log. IsLog program.now log) }
        ensures events { IfOk result (λ log. log.events.items ≡ []) }
    {
        Ok(EventLog {
            threads: Snapshot::of(&threads),
            states: ClassState::all_prepared(alloc, program)?,
            events: Vec::new(alloc),
        })
    }

    /// The state of a class.
    pub(crate) fn state(&self, class: ClassId) -> &ClassState
        requires { class.number < length self.now.states.items }
        ensures { (p : LinkedProgram) → IsLog p self.now → IsStateAfter p self.now.events.items class result.now }
    {
        &self.states[class.number]
    }

    /// A thread does this at a class. An `Err` means out of memory.
    pub(crate) fn add(
        &mut self,
        program: &Program,
        thread: usize,
        class: ClassId,
        kind: Kind,
    ) -> Result<(), AllocError>
        requires thread { thread < self.old.threads.value }
        requires log { IsLog program.now self.old }
        requires class { IsOfFiles program.now class }
        requires allowed { Allows (label_at self.old.events.items class) thread kind }
        requires done { IsDoneAt program.now class kind }
        requires holds { Holds (statics_of program.now class) (of_class class self.old.events.items) kind }
        ensures log { OnOk result (IsLog program.now self.new) }
        ensures events { OnOk result (self.new.events.items ≡ self.old.events.items ++ event thread class kind ∷ []) }
        ensures threads { self.new.threads ≡ self.old.threads }
    {
        program.is_linked();
        self.events.reserve(1)?;
        let state = &mut self.states[class.number];
        state.add(thread, &kind);
        self.events.push_reserved(Event::new(thread, class, kind));
        Ok(())
    }

    /// A thread prints a text. An `Err` means out of memory.
    pub(crate) fn print(
        &mut self,
        alloc: Global,
        thread: usize,
        text: Text,
    ) -> Result<(), AllocError>
        requires { thread < THREADS }
        ensures states { self.new.states ≡ self.old.states }
        ensures events { OnOk result (self.new.events.items ≡ self.old.events.items ++ printed thread text ∷ []) }
        ensures threads { self.new.threads ≡ self.old.threads }
    {
        let event = Event::print(alloc, thread, text)?;
        self.events.push(event)?;
        Ok(())
    }

    /// The label of each class of the files, by its number. An `Err` means out of memory.
    pub(crate) fn labels(
        &self,
        alloc: Global,
        program: &Program,
    ) -> Result<Sequence<Label>, AllocError>
        requires { IsLog program.now self.now }
        ensures { IfOk result (λ labels. labels ≡ all_labels program.now self.now.events.items) }
    {
        let mut labels = Sequence::new(alloc);
        for number in 0..program.len() {
            labels.push(self.state(ClassId { number }).label())?;
        }
        Ok(labels)
    }
}
