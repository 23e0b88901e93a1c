//! The open classes of a thread whose events are read, and the state of the procedure for each (JLS SE 8 12.4.2).

ghost use Rattle.std.specs.Prelude.{◌≡◌, ◌∷◌, [], None, IfOk, IfSome, IfNone, OnOk, true, false};
ghost use Rattle.init_core.specs.declared.frames.Ending.TheVariants as endings;
ghost use Rattle.init_core.specs.declared.frames.Phase.TheVariants as phases;
ghost use Rattle.init_core.specs.Advance.{after_needs, after_in, after_word};
ghost use Rattle.init_core.specs.Leads.{frame, standing};
ghost use Rattle.judge.specs.OpenClass.{frame_in, phase_in};
ghost use Rattle.judge.specs.NextEvent.{begun_after};
ghost use Rattle.judge.specs.Reading.{MayStop, opening};

use hierarchy::ClassId;
use init_core::{Completed, Outcome};
use std::alloc::{AllocError, Global};
use std::marker::Model;

/// The needed classes that are still to be initialized, in order.
#[derive(Drop)]
pub(crate) struct Pending {
    /// The next one is the last.
    reversed: Vec<ClassId>,
}

impl Model for Pending {
    ghost use Rattle.std.specs.Prelude.{List, reverse};
    ghost use Rattle.hierarchy.specs.declared.class.ClassId.{ClassId};

    ghost Value = { List ClassId };

    ghost view = { λ p. reverse p.reversed.items };
}

impl Pending {
    pub(crate) fn new(mut classes: Vec<ClassId>) -> Self
        ensures { result ≡ classes.items }
    {
        classes.reverse();
        Pending { reversed: classes }
    }

    /// The next class, and those after it.
    fn next(mut self) -> Option<(ClassId, Pending)>
        ensures some { IfSome result (λ found. self ≡ found.0 ∷ found.1) }
        ensures none { IfNone result (self ≡ []) }
    {
        let class = self.reversed.pop()?;
        Some((class, self))
    }
}

/// The state of the procedure for an open class.
#[derive(Drop)]
pub(crate) enum Stage {
    /// Before an answer of steps 2 to 6; `waited` says that its step 2 was made.
    Looking { waited: bool },
    /// In step 7: a needed class is open further in, and these come after it.
    Needing(Pending),
    /// At step 9, or in the body after it.
    Running { ran: bool },
    /// Step 7 comes next; `by_machine` says that the machine ends the thread.
    SuperFails { error: ClassId, by_machine: bool },
}

/// One open class.
#[derive(Drop)]
pub(crate) struct OpenClass {
    pub(crate) class: ClassId,
    pub(crate) stage: Stage,
}

/// The state of one thread's procedures: the open classes, and the procedure that was completed last in the innermost
/// body, with nothing after it.
#[derive(Drop)]
pub(crate) struct Procedures {
    /// The innermost one is the last.
    outermost_first: Vec<OpenClass>,
    pub(crate) last: Option<Completed>,
}

impl Model for Procedures {
    ghost use Rattle.std.specs.Prelude.{map, reverse};
    ghost use Rattle.init_core.specs.Standing.{Standing};
    ghost use Rattle.judge.specs.OpenClass.{frame_in};

    ghost Value = { Standing };

    ghost view = { λ p. record { frames = map frame_in (reverse p.outermost_first.items); last = p.last } };
}

impl Procedures {
    /// Main's class is requested, and nothing was done.
    ///
    /// An `Err` means out of memory, here and in all that follows; nothing is said of the procedures then.
    pub(crate) fn opening(alloc: Global, main: ClassId) -> Result<Self, AllocError>
        ensures { IfOk result (λ made. made ≡ opening main) }
    {
        let mut made = Procedures {
            outermost_first: Vec::new(alloc),
            last: None,
        };
        made.push(main, Stage::Looking { waited: false })?;
        Ok(made)
    }

    /// The open classes; the innermost one is the last.
    pub(crate) fn open_classes(&self) -> &[OpenClass] {
        &self.outermost_first
    }

    /// The innermost open class, which is open no more.
    pub(crate) fn pop(&mut self) -> Option<OpenClass>
        ensures some { IfSome result (λ found. self.old.frames ≡ frame_in found ∷ self.new.frames) }
        ensures none { IfNone result (self.old.frames ≡ []) }
        ensures unchanged { IfNone result (self.new ≡ self.old) }
        ensures last { self.new.last ≡ self.old.last }
    {
        self.outermost_first.pop()
    }

    /// One more class is open, the innermost.
    pub(crate) fn push(&mut self, class: ClassId, stage: Stage) -> Result<(), AllocError>
        ensures { OnOk result (self.new ≡ standing (frame class (phase_in stage) ∷ self.old.frames) self.old.last) }
    {
        self.outermost_first.push(OpenClass { class, stage })?;
        Ok(())
    }

    /// Nothing was completed since the last event.
    pub(crate) fn forget_last(&mut self)
        ensures { self.new ≡ standing self.old.frames None }
    {
        self.last = None;
    }

    /// Whether an item of main's body is made, once one more event is.
    pub(crate) fn begun_after(&self, begun: bool) -> bool
        ensures { result ≡ begun_after begun self.now.frames }
    {
        self.outermost_first.is_empty() || begun
    }

    /// Whether the thread may stop here: no class is open, or only a request that is given up.
    pub(crate) fn may_stop(&self) -> bool
        ensures yes { result ≡ true → MayStop self.now }
        ensures no { result ≡ false → MayStop self.now → ⊥ }
    {
        match self.outermost_first.as_slice() {
            [] => true,
            [open] => matches!(open.stage, Stage::Looking { .. }),
            _ => false,
        }
    }

    /// The next needed class is open, or step 9 comes where none is left.
    pub(crate) fn open_need(&mut self, class: ClassId, pending: Pending) -> Result<(), AllocError>
        ensures { OnOk result (self.new ≡ after_needs class pending self.old.frames) }
    {
        self.forget_last();
        match pending.next() {
            None => self.push(class, Stage::Running { ran: false }),
            Some((next, rest)) => {
                self.push(class, Stage::Needing(rest))?;
                self.push(next, Stage::Looking { waited: false })
            }
        }
    }

    /// The procedure for a class is completed within the open ones: the one that it is part of goes on.
    pub(crate) fn close(&mut self, class: ClassId, outcome: Outcome) -> Result<(), AllocError>
        ensures { OnOk result (self.new ≡ after_word self.old.frames class outcome) }
    {
        match self.pop() {
            None => {
                self.last = Some(Completed { class, outcome });
                Ok(())
            }
            Some(outer) => self.close_within(outer, class, outcome),
        }
    }

    fn close_within(
        &mut self,
        outer: OpenClass,
        class: ClassId,
        outcome: Outcome,
    ) -> Result<(), AllocError>
        ensures { OnOk result (self.new ≡ after_in (phase_in outer.stage) outer.class self.old.frames class outcome) }
    {
        let OpenClass {
            class: around,
            stage,
        } = outer;
        match stage {
            Stage::Needing(pending) => match outcome {
                Outcome::Normal => self.open_need(around, pending),
                Outcome::Abrupt(error) => self.fail_need(around, error, false),
                Outcome::Ended(error) => self.fail_need(around, error, true),
            },
            stage => {
                self.last = Some(Completed { class, outcome });
                self.push(around, stage)
            }
        }
    }

    /// Step 7 of the class comes next.
    fn fail_need(
        &mut self,
        class: ClassId,
        error: ClassId,
        by_machine: bool,
    ) -> Result<(), AllocError>
        ensures { OnOk result (self.new ≡ standing (frame class (phases.EndingBy (endings.SuperFails error) by_machine) ∷ self.old.frames) None) }
    {
        self.forget_last();
        self.push(class, Stage::SuperFails { error, by_machine })
    }
}
