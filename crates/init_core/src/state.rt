//! The state of one class, without the list of its events (JLS SE 8 12.4.2, JVMS SE 8 5.5).

ghost use Rattle.std.specs.Prelude.{◌≡◌, ℕ, ◌<◌, ◌≤◌, ◌++◌, ◌∷◌, [], Some, IfOk, List, true, false, length, slice_get, slice_index_or};
ghost use Rattle.hierarchy.specs.LinkedProgram.{id};
ghost use Rattle.init_core.specs.ClassState.{State, IsStateOf, is_waiter, stepped};
ghost use Rattle.init_core.specs.Decisions.{Decides, event};
ghost use Rattle.init_core.specs.Label.{owner_in};
ghost use Rattle.init_core.specs.Lawful.{Allows, Holds};
ghost use Rattle.init_core.specs.Numbers.{IsInRange};
ghost use Rattle.init_core.specs.declared.event.Decision.TheVariants as decision;
ghost use Rattle.init_core.specs.declared.event.Event.{Event};
ghost use Rattle.statics.specs.Statics.{statics_of, kept_by};

use crate::event::{CLASS_NUMBERS, Decision, FIELD_PLACES, Kind, Label, THREADS};
use hierarchy::{ClassId, Program, Value};
use statics::{Bank, narrowed};
use std::alloc::{AllocError, Global};
use std::marker::Model;

/// Label, failure, what the static fields hold, and which threads wait.
///
/// It keeps no events: whoever does adds each to its own list, and each call says of which history of the class this is
/// the state. No call's time grows with what came before.
pub struct ClassState {
    class: ClassId,
    label: Label,
    failure: Option<ClassId>,
    bank: Bank,
    waiting: [bool; 16],
}

impl Drop for ClassState {
    fn drop(self) {
        let Self {
            class: _,
            label: _,
            failure: _,
            bank: _,
            waiting: _,
        } = self;
    }
}

impl Model for ClassState {
    ghost use Rattle.std.specs.Prelude.{◌<◌, ◌≤◌, ◌≡◌, length};
    ghost use Rattle.init_core.specs.ClassState.{State};
    ghost use Rattle.init_core.specs.declared.event.TheConstants.{CLASS_NUMBERS, FIELD_PLACES, THREADS};

    ghost Value = { State };

    ghost view = { λ s. record {
      class = s.class;
      label = s.label;
      failure = s.failure;
      fields = s.bank.fields;
      values = s.bank.values;
      waiting = s.waiting;
    } };

    ghost invariant = { λ s. record {
      class : s.class.number < CLASS_NUMBERS;
      fields : length s.bank.fields ≤ FIELD_PLACES;
    } };
}

impl ClassState {
    /// The state of a class of this program that is prepared.
    ///
    /// An `Err` means out of memory.
    pub fn prepared(alloc: Global, program: &Program, class: ClassId) -> Result<Self, AllocError>
        requires { class.number < CLASS_NUMBERS }
        ensures class { IfOk result (λ made. made.class ≡ class) }
        ensures fields { IfOk result (λ made. made.fields ≡ statics_of program.now class) }
        ensures events { IfOk result (λ made. IsStateOf made []) }
    {
        program.is_linked();
        let bank = Bank::prepared(alloc, program, class)?;
        Ok(ClassState {
            class,
            label: Label::Prepared,
            failure: None,
            bank,
            waiting: [false; 16],
        })
    }

    /// The states of all classes of the program's files, prepared, by the classes' numbers.
    ///
    /// An `Err` means out of memory.
    pub fn all_prepared(alloc: Global, program: &Program) -> Result<Vec<Self>, AllocError>
        ensures count { IfOk result (λ made. length made.items ≡ length program.now.classes) }
        ensures classes { IfOk result (λ made. (n : ℕ) (other : State) → n < length program.now.classes → (slice_index_or made.items n other).class ≡ id n) }
        ensures fields { IfOk result (λ made. (n : ℕ) (other : State) → n < length program.now.classes → (slice_index_or made.items n other).fields ≡ statics_of program.now (id n)) }
        ensures events { IfOk result (λ made. (n : ℕ) (other : State) → n < length program.now.classes → IsStateOf (slice_index_or made.items n other) []) }
    {
        let count = program.len();
        let mut made = Vec::new(alloc);
        'classes: while made.len() < count {
            let number = made.len();
            made.push(ClassState::prepared(alloc, program, ClassId { number })?)?;
        }
        Ok(made)
    }

    /// The class of which this is known.
    pub fn class(&self) -> ClassId
        ensures class { result ≡ self.now.class }
        ensures within { result.number < CLASS_NUMBERS }
    {
        self.class
    }

    /// The label of the class.
    pub fn label(&self) -> Label
        ensures { result ≡ self.now.label }
    {
        self.label
    }

    /// The thread that initializes the class, while it is in progress.
    pub fn owner(&self) -> Option<usize>
        ensures { result ≡ owner_in self.now.label }
    {
        match self.label {
            Label::InProgress(thread) => Some(thread),
            _ => None,
        }
    }

    /// The class of the throwable that ended the initialization, where one did.
    pub fn failure(&self) -> Option<ClassId>
        ensures { result ≡ self.now.failure }
    {
        self.failure
    }

    /// A class has at most as many static fields as there are places for them.
    pub(crate) fn has_field_places(&self)
        ensures { length self.now.fields ≤ FIELD_PLACES }
    {
        let _ = &self.bank;
    }

    /// How many static fields the class has.
    pub fn static_fields(&self) -> usize
        ensures { result ≡ length self.now.fields }
    {
        self.bank.len()
    }

    /// What a static field holds, by its place among those of the class.
    pub fn value(&self, place: usize) -> Value
        requires { place < length self.now.fields }
        ensures { slice_get self.now.values place ≡ Some result }
    {
        self.bank.get(place)
    }

    /// What a static field keeps of a value, by its place among those of the class.
    pub fn kept(&self, place: usize, value: Value) -> Value
        requires { place < length self.now.fields }
        ensures { result ≡ kept_by self.now.fields place value }
    {
        narrowed(self.bank.field(place).base, value)
    }

    /// What a look at the class by a thread comes to: steps 2 to 6. It changes nothing.
    pub fn decision(&self, thread: usize) -> Decision
        requires { thread < THREADS }
        ensures allowed { Decides self.now.label thread result }
        ensures again { (result ≡ decision.Waits false) → (is_waiter self.now thread ≡ true) }
        ensures first { (result ≡ decision.Waits true) → (is_waiter self.now thread ≡ false) }
    {
        match self.label {
            Label::Prepared => Decision::Begins,
            Label::InProgress(owner) => {
                if owner == thread {
                    Decision::Recurs
                } else {
                    Decision::Waits {
                        first: !self.waiting[thread],
                    }
                }
            }
            Label::Initialized => Decision::FindsInitialized,
            Label::Erroneous => Decision::FindsErroneous,
        }
    }

    /// A thread does this at the class, as the label allows it; a field that is read or written is one of the class's.
    /// The state after a history becomes the state after one event more. Takes no memory.
    pub fn add(&mut self, thread: usize, kind: &Kind)
        requires thread { thread < THREADS }
        requires allowed { Allows self.old.label thread kind.now }
        ensures step { self.new ≡ stepped self.old thread kind.now }
        ensures history { (events : List Event) → IsStateOf self.old events → IsInRange kind.now → Holds self.old.fields events kind.now →
            IsStateOf self.new (events ++ event thread self.old.class kind.now ∷ []) }
    {
        self.step(thread, kind);
    }

    fn step(&mut self, thread: usize, kind: &Kind)
        requires { thread < THREADS }
        ensures { self.new ≡ stepped self.old thread kind.now }
    {
        self.waiting[thread] = matches!(kind, Kind::Waits);
        match kind {
            Kind::Begins => {
                self.label = Label::InProgress(thread);
                self.bank.constants();
            }
            Kind::SuperFails(throwable) | Kind::Fails(throwable) => {
                self.label = Label::Erroneous;
                self.failure = Some(*throwable);
            }
            Kind::Completes => self.label = Label::Initialized,
            Kind::Puts { field, value } => {
                if *field < self.bank.len() {
                    self.bank.put(*field, *value);
                }
            }
            _ => (),
        }
    }
}
