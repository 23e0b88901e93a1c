//! The reading of one thread's events.

ghost use Rattle.std.specs.Prelude.{◌≡◌, ℕ, List, IfOk, None, true, false};
ghost use Rattle.init_core.specs.declared.event.Kind.TheVariants as kinds;
ghost use Rattle.judge.specs.Reading.{ReadsNext, RefusesNext, opening};

use crate::open_class::Procedures;
use hierarchy::{ClassId, Program};
use init_core::{Kind, Outcome};
use sequence::Sequence;
use std::alloc::{AllocError, Global};

/// Where the events of one thread have led.
#[derive(Drop)]
pub(crate) struct Reader {
    /// An item of main's body was made.
    pub(crate) begun: bool,
    pub(crate) procedures: Procedures,
}

impl Reader {
    /// A thread of this main class, before its first event.
    ///
    /// An `Err` means out of memory.
    pub(crate) fn new(alloc: Global, main: ClassId) -> Result<Self, AllocError>
        ensures begun { IfOk result (λ made. made.begun ≡ false) }
        ensures procedures { IfOk result (λ made. made.procedures ≡ opening main) }
    {
        Ok(Reader {
            begun: false,
            procedures: Procedures::opening(alloc, main)?,
        })
    }

    /// Reads the thread's next event, of this class and kind: whether it may come. Where it may not, nothing is
    /// said of the reader.
    ///
    /// An `Err` means out of memory.
    pub(crate) fn read(
        &mut self,
        alloc: Global,
        program: &Program,
        class: Option<ClassId>,
        kind: &Kind,
    ) -> Result<bool, AllocError>
        ensures yes { IfOk result (λ b. b ≡ true → ReadsNext program.now self.old.begun self.old.procedures class kind.now self.new.begun self.new.procedures) }
        ensures no { IfOk result (λ b. b ≡ false → RefusesNext program.now self.old.begun self.old.procedures class kind.now) }
    {
        let begun = self.begun;
        self.begun = self.procedures.begun_after(begun);
        self.procedures.take(alloc, program, begun, class, kind)
    }

    /// Reads a print: whether it may come, whatever its text. Where it may not, nothing is said of the reader.
    ///
    /// An `Err` means out of memory.
    pub(crate) fn read_print(
        &mut self,
        alloc: Global,
        program: &Program,
    ) -> Result<bool, AllocError>
        ensures yes { IfOk result (λ b. b ≡ true → (text : List ℕ) → ReadsNext program.now self.old.begun self.old.procedures None (kinds.Prints text) self.new.begun self.new.procedures) }
        ensures no { IfOk result (λ b. b ≡ false → (text : List ℕ) → RefusesNext program.now self.old.begun self.old.procedures None (kinds.Prints text)) }
    {
        self.read(alloc, program, None, &Kind::Prints(Sequence::new(alloc)))
    }

    /// Whether no class is open, and the thread is ended: by what its main class ended with, or by the machine. Takes no memory.
    pub(crate) fn has_ended(&self) -> bool {
        match self.procedures.last {
            Some(completed) => match completed.outcome {
                Outcome::Normal => false,
                Outcome::Abrupt(_) => !self.begun,
                Outcome::Ended(_) => true,
            },
            None => false,
        }
    }
}
