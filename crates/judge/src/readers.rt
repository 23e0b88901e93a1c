//! The readers of all threads.

ghost use Rattle.std.specs.Prelude.{◌≡◌, ℕ, List, IfOk, map, true, false};
ghost use Rattle.init_core.specs.ProcedureWord.{printed};
ghost use Rattle.judge.specs.Judging.{MayAllStop, ReadersRefuse, ReadersTake, opened};
ghost use Rattle.judge.specs.Reading.{made_by};

use crate::reader::Reader;
use hierarchy::{ClassId, Program};
use init_core::Kind;
use std::alloc::{AllocError, Global};

/// A reader a thread, by the thread's number.
#[derive(Drop)]
pub(crate) struct Readers {
    pub(crate) of_threads: Vec<Reader>,
}

impl Readers {
    /// Threads of these main classes, before their first events.
    ///
    /// An `Err` means out of memory.
    pub(crate) fn new(alloc: Global, mains: &[ClassId]) -> Result<Self, AllocError>
        ensures { IfOk result (λ made. made.of_threads.items ≡ map opened mains.now) }
    {
        let mut of_threads = Vec::new(alloc);
        'mains: for main in mains {
            of_threads.push(Reader::new(alloc, *main)?)?;
        }
        Ok(Readers { of_threads })
    }

    /// Reads an event of a thread: whether it may come next. Where it may not, nothing is said of
    /// the readers.
    ///
    /// An `Err` means out of memory.
    pub(crate) fn read(
        &mut self,
        alloc: Global,
        program: &Program,
        thread: usize,
        class: Option<ClassId>,
        kind: &Kind,
    ) -> Result<bool, AllocError>
        ensures yes { IfOk result (λ b. b ≡ true → ReadersTake program.now self.old.of_threads.items self.new.of_threads.items (made_by thread class kind.now)) }
        ensures no { IfOk result (λ b. b ≡ false → ReadersRefuse program.now self.old.of_threads.items (made_by thread class kind.now)) }
    {
        if thread >= self.of_threads.len() {
            return Ok(false);
        }
        let reader = &mut self.of_threads[thread];
        reader.read(alloc, program, class, kind)
    }

    /// Reads a print of a thread, whatever its text: whether it may come next. Where it may not, nothing is said of the readers.
    ///
    /// An `Err` means out of memory.
    pub(crate) fn read_print(
        &mut self,
        alloc: Global,
        program: &Program,
        thread: usize,
    ) -> Result<bool, AllocError>
        ensures yes { IfOk result (λ b. b ≡ true → (text : List ℕ) → ReadersTake program.now self.old.of_threads.items self.new.of_threads.items (printed thread text)) }
        ensures no { IfOk result (λ b. b ≡ false → (text : List ℕ) → ReadersRefuse program.now self.old.of_threads.items (printed thread text)) }
    {
        if thread < self.of_threads.len() {
            let reader = &mut self.of_threads[thread];
            reader.read_print(alloc, program)
        } else {
            Ok(false)
        }
    }

    /// Whether each thread may stop here. Takes no memory.
    pub(crate) fn may_stop(&self) -> bool
        ensures yes { result ≡ true → MayAllStop self.now.of_threads.items }
        ensures no { result ≡ false → MayAllStop self.now.of_threads.items → ⊥ }
    {
        'readers: for reader in &self.of_threads {
            if !reader.procedures.may_stop() {
                return false;
            }
        }
        true
    }
}
