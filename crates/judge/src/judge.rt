//! Events of all threads, judged one after the other.

ghost use Rattle.std.specs.Prelude.{◌≡◌, ℕ, ◌<◌, [], List, None, IfOk, IfSome};
ghost use Rattle.hierarchy.specs.LinkedProgram.{LinkedProgram};
ghost use Rattle.init_core.specs.ProcedureWord.{printed};
ghost use Rattle.judge.specs.Judging.{HasJudged, JudgeRefuses, JudgeTakes};
ghost use Rattle.judge.specs.Reading.{made_by};

use crate::classes::Classes;
use crate::readers::Readers;
use crate::verdict::Rule;
use hierarchy::{ClassId, Program};
use init_core::{CLASS_NUMBERS, Event, Kind, THREADS};
use std::alloc::{AllocError, Global};

/// The state of each thread and of each class after the events so far.
#[derive(Drop)]
pub(crate) struct Judge {
    pub(crate) readers: Readers,
    pub(crate) classes: Classes,
}

impl Judge {
    /// Before the first event.
    ///
    /// An `Err` means out of memory.
    pub(crate) fn new(alloc: Global, mains: &[ClassId]) -> Result<Self, AllocError>
        ensures { IfOk result (λ made. (p : LinkedProgram) → HasJudged p mains.now made []) }
    {
        Ok(Judge {
            readers: Readers::new(alloc, mains)?,
            classes: Classes::new(alloc),
        })
    }

    /// Takes the next event: the rule that it breaks, if it does; then nothing is said of the state.
    ///
    /// An `Err` means out of memory.
    pub(crate) fn take(
        &mut self,
        alloc: Global,
        program: &Program,
        event: &Event,
    ) -> Result<Option<Rule>, AllocError>
        ensures fits { IfOk result (λ r. r ≡ None → JudgeTakes program.now self.old self.new event.now) }
        ensures breaks { IfOk result (λ r. IfSome r (JudgeRefuses program.now self.old event.now)) }
    {
        if event.class().is_none() && event.text().is_some() {
            return self.take_print(alloc, program, event.thread());
        }
        let kind = event.kind()?;
        self.take_parts(alloc, program, event.thread(), event.class(), &kind)
    }

    /// The same of a print, whose text decides nothing and isn't copied.
    fn take_print(
        &mut self,
        alloc: Global,
        program: &Program,
        thread: usize,
    ) -> Result<Option<Rule>, AllocError>
        ensures fits { IfOk result (λ r. r ≡ None → (text : List ℕ) → JudgeTakes program.now self.old self.new (printed thread text)) }
        ensures breaks { IfOk result (λ r. IfSome r (λ rule. (text : List ℕ) → JudgeRefuses program.now self.old (printed thread text) rule)) }
    {
        if self.readers.read_print(alloc, program, thread)? {
            Ok(None)
        } else {
            Ok(Some(Rule::Word))
        }
    }

    /// The same by the event's parts.
    fn take_parts(
        &mut self,
        alloc: Global,
        program: &Program,
        thread: usize,
        class: Option<ClassId>,
        kind: &Kind,
    ) -> Result<Option<Rule>, AllocError>
        requires thread { thread < THREADS }
        requires class { IfSome class (λ c. c.number < CLASS_NUMBERS) }
        ensures fits { IfOk result (λ r. r ≡ None → JudgeTakes program.now self.old self.new (made_by thread class kind.now)) }
        ensures breaks { IfOk result (λ r. IfSome r (JudgeRefuses program.now self.old (made_by thread class kind.now))) }
    {
        if !self.readers.read(alloc, program, thread, class, kind)? {
            return Ok(Some(Rule::Word));
        }
        match class {
            None => Ok(None),
            Some(class) => self.classes.take(alloc, program, thread, class, kind),
        }
    }
}
