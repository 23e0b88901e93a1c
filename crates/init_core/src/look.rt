//! A look at a class's record (JLS SE 8 12.4.2 steps 2 to 6), at the record and at the procedure.

ghost use Rattle.std.specs.Prelude.{◌≡◌, ◌<◌, ◌++◌, ◌∷◌, [], List, true, false, IfOk, OnErr, OnOk};
ghost use Rattle.init_core.specs.declared.event.Decision.TheVariants as decisions;
ghost use Rattle.init_core.specs.declared.event.Kind.TheVariants as kinds;
ghost use Rattle.init_core.specs.declared.event.Label.TheVariants as labels;
ghost use Rattle.init_core.specs.declared.frames.Frame.{Frame};
ghost use Rattle.init_core.specs.declared.procedure.Answer.TheVariants as answers;
ghost use Rattle.init_core.specs.declared.procedure.Next.TheVariants as nexts;
ghost use Rattle.init_core.specs.Advance.{next_of, Advances, after_needs, is_waiting};
ghost use Rattle.init_core.specs.Decisions.{Decides, entered, event, waits};
ghost use Rattle.init_core.specs.History.{AreOfOneClass};
ghost use Rattle.init_core.specs.Label.{label_of};
ghost use Rattle.init_core.specs.Lawful.{IsInProgressByOther};
ghost use Rattle.init_core.specs.Needs.{needs};

use crate::event::{Decision, Label, THREADS};
use crate::procedure::{Answer, Procedure};
use crate::record::ClassRecord;
use hierarchy::Program;
use std::alloc::{AllocError, Global};

impl Procedure {
    /// A look at the record of the class that is asked for, under its initialization lock: steps 2 to 6, at the record
    /// and at the procedure.
    ///
    /// An `Err` means out of memory; then the procedure and the record's events are as they were.
    pub fn look_at(
        &mut self,
        alloc: Global,
        program: &Program,
        thread: usize,
        class_record: &mut ClassRecord,
    ) -> Result<Decision, AllocError>
        requires thread { thread < THREADS }
        requires next { next_of self.old.frames ≡ nexts.Look class_record.old.class }
        requires waiting { IsInProgressByOther thread (label_of class_record.old.events) → waits thread class_record.old.events ≡ is_waiting class_record.old.class self.old.frames }
        ensures decision { IfOk result (λ d. Decides (label_of class_record.old.events) thread d) }
        ensures class { AreOfOneClass class_record.old class_record.new }
        ensures events { IfOk result (λ d. class_record.new.events ≡ class_record.old.events ++ entered thread class_record.old.class d) }
        ensures standing { IfOk result (λ d. Advances program.now thread self.old (answers.Decided d) (entered thread class_record.old.class d) self.new) }
        ensures again { IfOk result (λ d. d ≡ decisions.Waits false → is_waiting class_record.old.class self.old.frames ≡ true) }
        ensures first { IfOk result (λ d. d ≡ decisions.Waits true → is_waiting class_record.old.class self.old.frames ≡ false) }
        ensures err_events { OnErr result (class_record.new.events ≡ class_record.old.events) }
        ensures err_standing { OnErr result (self.new ≡ self.old) }
    {
        if let Label::Prepared = class_record.label() {
            self.begin_at(alloc, program, thread, class_record)?;
            return Ok(Decision::Begins);
        }
        let decision = class_record.enter(thread)?;
        let Ok(_) = self.advance(alloc, program, Answer::Decided(decision)) else {
            unreachable!();
        };
        Ok(decision)
    }

    /// Step 6, at the record of a class that is prepared and at the procedure.
    ///
    /// An `Err` means out of memory; then the procedure and the record's events are as they were.
    fn begin_at(
        &mut self,
        alloc: Global,
        program: &Program,
        thread: usize,
        class_record: &mut ClassRecord,
    ) -> Result<(), AllocError>
        requires thread { thread < THREADS }
        requires prepared { label_of class_record.old.events ≡ labels.Prepared }
        ensures class { AreOfOneClass class_record.old class_record.new }
        ensures events { OnOk result (class_record.new.events ≡ class_record.old.events ++ event thread class_record.old.class kinds.Begins ∷ []) }
        ensures standing { OnOk result ((f : Frame) (fs : List Frame) → self.old.frames ≡ f ∷ fs → self.new ≡ after_needs f.class (needs program.now f.class) fs) }
        ensures err_events { OnErr result (class_record.new.events ≡ class_record.old.events) }
        ensures err_standing { OnErr result (self.new ≡ self.old) }
    {
        let needed = self.frames.needed(alloc, program)?;
        class_record.enter(thread)?;
        self.frames.begin(needed);
        self.last = None;
        Ok(())
    }
}
