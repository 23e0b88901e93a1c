//! What a body may go on with: requests, reads and writes of static fields, prints (JLS SE 8 12.4.2).
//!
//! Each call answers whether the event may come next, and moves the procedures if so; else nothing is said of them.

ghost use Rattle.std.specs.Prelude.{◌≡◌, ◌↔◌, IsTrue, IfOk, Some};
ghost use Rattle.hierarchy.specs.Subclasses.{IsError};
ghost use Rattle.init_core.specs.ProcedureWord.{IsMachineError, completed, given_up};
ghost use Rattle.init_core.specs.declared.frames.Outcome.TheVariants as outcomes;
ghost use Rattle.judge.specs.NextEvent.{MovesIf, MayLook, look_to, MayGoOn, item_to};

use crate::open_class::{Pending, Procedures, Stage};
use hierarchy::laws::throwables_are_subclasses;
use hierarchy::{BuiltIn, ClassId, Program};
use init_core::{Completed, Kind, Outcome, needs};
use std::alloc::{AllocError, Global};

pub(crate) fn is_error(program: &Program, class: ClassId) -> bool
    ensures { IsTrue result ↔ IsError program.now class }
{
    throwables_are_subclasses(program, class);
    program.is_subtype(class, program.built_in(BuiltIn::Error))
}

pub(crate) fn is_machine_error(program: &Program, class: ClassId) -> bool
    ensures { IsTrue result ↔ IsMachineError program.now class }
{
    class == program.built_in(BuiltIn::InternalError)
        || class == program.built_in(BuiltIn::OutOfMemoryError)
}

/// The error by which the machine is ending the thread, where it is.
pub(crate) fn ending_error(last: Option<Completed>) -> Option<ClassId>
    ensures { result ≡ given_up last }
{
    match last {
        Some(
            Completed {
                outcome: Outcome::Ended(error),
                ..
            },
        ) => Some(error),
        _ => None,
    }
}

pub(crate) fn is_of(class: Option<ClassId>, other: ClassId) -> bool
    ensures { IsTrue result ↔ class ≡ Some other }
{
    class == Some(other)
}

/// Whether the procedure for a class was completed last, normally.
fn was_normal(last: Option<Completed>, class: ClassId) -> bool
    ensures { IsTrue result ↔ last ≡ Some (completed class outcomes.Normal) }
{
    last == Some(Completed {
        class,
        outcome: Outcome::Normal,
    })
}

impl Procedures {
    /// Steps 2 to 6 of a request, which has no place among the open classes.
    pub(crate) fn look(
        &mut self,
        alloc: Global,
        program: &Program,
        class: ClassId,
        waited: bool,
        kind: &Kind,
    ) -> Result<bool, AllocError>
        ensures { IfOk result (MovesIf (MayLook waited kind.now) (look_to program.now class self.old.frames kind.now) self.new) }
    {
        match kind {
            Kind::Waits => {
                if waited {
                    return Ok(false);
                }
                self.forget_last();
                self.push(class, Stage::Looking { waited: true })?;
                Ok(true)
            }
            Kind::Recurs | Kind::FindsInitialized => {
                self.close(class, Outcome::Normal)?;
                Ok(true)
            }
            Kind::FindsErroneous => {
                let error = program.built_in(BuiltIn::NoClassDefFoundError);
                self.close(class, Outcome::Abrupt(error))?;
                Ok(true)
            }
            Kind::Begins => {
                let pending = Pending::new(needs(alloc, program, class)?);
                self.open_need(class, pending)?;
                Ok(true)
            }
            _ => Ok(false),
        }
    }

    /// A body goes on, after what was completed last in it.
    pub(crate) fn item(
        &mut self,
        alloc: Global,
        program: &Program,
        last: Option<Completed>,
        class: Option<ClassId>,
        kind: &Kind,
    ) -> Result<bool, AllocError>
        ensures { IfOk result (MovesIf (MayGoOn program.now last class kind.now) (item_to program.now self.old.frames class kind.now) self.new) }
    {
        match class {
            None => {
                self.forget_last();
                Ok(matches!(kind, Kind::Prints(_)))
            }
            Some(class) => self.item_of_class(alloc, program, last, class, kind),
        }
    }

    fn item_of_class(
        &mut self,
        alloc: Global,
        program: &Program,
        last: Option<Completed>,
        class: ClassId,
        kind: &Kind,
    ) -> Result<bool, AllocError>
        ensures { IfOk result (MovesIf (MayGoOn program.now last (Some class) kind.now) (item_to program.now self.old.frames (Some class) kind.now) self.new) }
    {
        match kind {
            Kind::Gets { .. } | Kind::Puts { .. } => {
                self.forget_last();
                Ok(was_normal(last, class))
            }
            _ => {
                if class.number < program.len() {
                    self.look(alloc, program, class, false, kind)
                } else {
                    Ok(false)
                }
            }
        }
    }
}
