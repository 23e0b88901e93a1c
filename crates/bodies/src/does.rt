//! What a body does next, and what runs bodies.

ghost use Rattle.std.specs.Prelude.{◌≡◌, ◌≢◌, ◌↔◌, IsTrue, Option, IfOk, OnErr};
ghost use Rattle.hierarchy.specs.LinkedProgram.{LinkedProgram};
ghost use Rattle.hierarchy.specs.Subclasses.{IsError, IsThrowable};
ghost use Rattle.init_core.specs.declared.frames.Completed.{Completed as CompletedFacts};
ghost use Rattle.init_core.specs.ProcedureWord.{GoesOn, IsOfFiles};
ghost use Rattle.bodies.specs.declared.report.Limit.{Limit as LimitFacts};
ghost use Rattle.bodies.specs.Sharing.{IsAtTouch, Sharing};
ghost use Rattle.bodies.specs.Doing.{MayDo};
ghost use Rattle.bodies.specs.declared.does.Does.{Does as DoesFacts};
ghost use Rattle.bodies.specs.declared.does.Does.TheVariants.{Touches};
ghost use Rattle.bodies.specs.declared.does.Touched.TheVariants.{Held};

use crate::report::Limit;
use hierarchy::{ClassId, Program, Value};
use init_core::Completed;
use sequence::Text;
use std::alloc::{AllocError, Global};

/// What a body does next.
#[derive(Drop)]
pub enum Does {
    /// An active use of a class (JLS SE 8 12.4.1): the procedure for the class comes next.
    Asks(ClassId),
    /// It reads a static field, by its place among those of its class, directly after the procedure for the class was
    /// completed normally. It takes the value by [`Bodies::get`].
    Gets {
        class: ClassId,
        field: usize,
    },
    /// It writes a static field, by its place among those of its class, directly after the procedure for the class was
    /// completed normally.
    Puts {
        class: ClassId,
        field: usize,
        value: Value,
    },
    /// It prints a text.
    Prints(Text),
    /// It has come to something that touches what all threads share. [`Bodies::touch`] does it.
    Touches,
    /// It returns, or it throws an object of this class, which nothing in it catches.
    Over(Option<ClassId>),
    /// The machine ends it at this limit.
    Ended(Limit),
}

/// What came of a touch of what all threads share.
#[derive(Clone, Copy, PartialEq, Eq)]
pub enum Touched {
    /// It is done, and nothing has become free that others wait for.
    Done,
    /// It is done, and what others wait for may have become free.
    Left,
    /// Another thread holds what is touched, and nothing has changed.
    Held,
}

/// What runs the bodies of one thread: its initializers, one within the other, and `main`.
pub trait Bodies: Drop {
    /// The code of a program, in the form in which it is run.
    type Code;

    /// What all threads of a run share, which one thread at a time has for a touch.
    type Shared;

    /// Whether it is the code of this program. A run requires it of its caller; nothing is promised of an implementation for which
    /// it never holds.
    ghost is_code: { Self.Code → LinkedProgram → Type 0 };

    /// What the bodies do, over the states of what runs them and of what all threads share.
    ghost making: { LinkedProgram → Sharing Self Self.Shared };

    /// The initializer of a class begins, in step 9.
    fn start(&mut self, alloc: Global, program: &Program, code: &Self::Code, class: ClassId)
        requires code { is_code code.now program.now }
        requires class { IsOfFiles program.now class }
        ensures { (making program.now).starts self.old class self.new };

    /// The method `main` of a class begins, if the class has one.
    fn enter(&mut self, alloc: Global, program: &Program, code: &Self::Code, class: ClassId)
        requires code { is_code code.now program.now }
        requires class { IsOfFiles program.now class }
        ensures { (making program.now).enters self.old class self.new };

    /// Goes on up to what the innermost body does next. It is told the procedure completed last, if nothing was done since. After
    /// [`Does::Touches`] the touch comes first.
    fn next(
        &mut self,
        alloc: Global,
        program: &Program,
        code: &Self::Code,
        last: Option<Completed>,
    ) -> Does
        requires code { is_code code.now program.now }
        requires goes_on { GoesOn last }
        ensures does { (making program.now).does self.old last result self.new }
        ensures fits { MayDo program.now (making program.now).limits last result self.new };

    /// Touches what all threads share, where the innermost body has come to that. An `Err` means out of memory; it and
    /// [`Touched::Held`] change nothing.
    fn touch(
        &mut self,
        alloc: Global,
        program: &Program,
        code: &Self::Code,
        shared: &mut Self::Shared,
    ) -> Result<Touched, AllocError>
        requires code { is_code code.now program.now }
        requires at { IsAtTouch (making program.now) self.old }
        ensures done { IfOk result (λ touched. touched ≢ Held → (making program.now).touches self.old shared.old self.new shared.new) }
        ensures held { IfOk result (λ touched. touched ≡ Held → (making program.now).waits self.old shared.old) }
        ensures still { IfOk result (λ touched. touched ≡ Held → self.new ≡ self.old) }
        ensures unshared { IfOk result (λ touched. touched ≡ Held → shared.new ≡ shared.old) }
        ensures memory { OnErr result ((making program.now).takes_memory self.old shared.old) }
        ensures err { OnErr result (self.new ≡ self.old) }
        ensures shared { OnErr result (shared.new ≡ shared.old) };

    /// Whether the innermost body is at something that another thread holds, and so can't go on.
    fn waits(&self, program: &Program, shared: &Self::Shared) -> bool
        ensures { IsTrue result ↔ (making program.now).waits self.now shared.now };

    /// The value of the field that is read.
    fn get(&mut self, program: &Program, value: Value)
        ensures { (making program.now).gets self.old value self.new };

    /// The machine ends the innermost body. What it holds stays held until [`Bodies::end`].
    fn leave(&mut self, program: &Program)
        ensures { (making program.now).is_ended self.old self.new };

    /// Step 11: the class of the error by which the class fails, for a throwable that its initializer threw. An `Err` means out of memory,
    /// changes nothing, and comes only where a new error is made: never for an Error, which is left as it is.
    fn replace(
        &mut self,
        alloc: Global,
        program: &Program,
        shared: &mut Self::Shared,
        thrown: ClassId,
    ) -> Result<ClassId, AllocError>
        requires thrown { IsThrowable program.now thrown }
        ensures replaces { IfOk result (λ error. (making program.now).replaces self.old shared.old thrown error self.new shared.new) }
        ensures error { IfOk result (λ error. IsError program.now error) }
        ensures wraps { OnErr result (IsError program.now thrown → ⊥) }
        ensures memory { OnErr result ((making program.now).error_takes_memory self.old shared.old) }
        ensures err { OnErr result (self.new ≡ self.old) }
        ensures shared { OnErr result (shared.new ≡ shared.old) };

    /// The thread has ended, and leaves all that it holds. Takes no memory.
    fn end(&mut self, program: &Program, shared: &mut Self::Shared)
        ensures { (making program.now).ends self.old shared.old self.new shared.new };

    /// Being held up changes nothing: what the body does afterwards it could have done at once, whatever it is told then.
    ghost waits_on: { (p : LinkedProgram) (s u z : Self) (h : Self.Shared) (last again : Option CompletedFacts) (d : DoesFacts) →
        (making p).does s last Touches u → (making p).waits u h → (making p).does u again d z → (making p).does s last d z };

    /// Where the machine has ended a body at a limit, and then ends the next, it has ended that one at the limit too.
    ghost limits_stay: { (p : LinkedProgram) (l : LimitFacts) (s z : Self) → (making p).limits l s → (making p).is_ended s z → (making p).limits l z };
}
