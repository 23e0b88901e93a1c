//! What runs the bodies of a thread, which has what all threads share for each of its touches.

ghost use Rattle.std.specs.Prelude.{◌≡◌, ◌↔◌, ◌++◌, ◌∷◌, [], IfOk, IsTrue, false, true};
ghost use Rattle.hierarchy.specs.Subclasses.{IsError, IsThrowable};
ghost use Rattle.init_core.specs.ProcedureWord.{GoesOn, IsOfFiles};
ghost use Rattle.bodies.specs.Doing.{MayDo};
ghost use Rattle.bodies.specs.Sharing.{IsAtTouch, StepsAlone, StepsWith, used_at_start, used_bodies};
ghost use Rattle.bodies.specs.declared.does.Does.TheVariants as does;
ghost use Rattle.replayer.specs.Turning.{HasTurned};

use crate::shared::Shared;
use bodies::{Bodies, Does, Touched};
use hierarchy::{ClassId, Program, Value};
use http_server::Log;
use init_core::Completed;
use std::alloc::{AllocError, Global};
use std::marker::Model;
use std::snapshot::Snapshot;

/// What runs the bodies of a thread, and, in proofs alone, what it met and left at each of its touches.
#[derive(Drop)]
pub(crate) struct Used<B, H> {
    bodies: B,
    uses: Log<Snapshot<H>, H>,
}

impl<B, H> Model for Used<B, H> {
    ghost use Rattle.std.specs.Prelude.{map};
    ghost use Rattle.bodies.specs.Sharing.{Used};

    ghost Value = { Used B H };

    ghost view = { λ l. record { state = l.bodies; uses = map (λ u. (u.0.value, u.1)) l.uses.items } };
}

impl<B: Bodies> Used<B, B::Shared> {
    pub(crate) fn new(bodies: B) -> Self
        ensures { result ≡ used_at_start bodies }
    {
        Used {
            bodies,
            uses: Log::new(),
        }
    }

    pub(crate) fn start(&mut self, alloc: Global, program: &Program, code: &B::Code, class: ClassId)
        requires code { B.is_code code.now program.now }
        requires class { IsOfFiles program.now class }
        ensures { (used_bodies (B.making program.now)).starts self.old class self.new }
    {
        self.bodies.start(alloc, program, code, class);
    }

    pub(crate) fn enter(&mut self, alloc: Global, program: &Program, code: &B::Code, class: ClassId)
        requires code { B.is_code code.now program.now }
        requires class { IsOfFiles program.now class }
        ensures { (used_bodies (B.making program.now)).enters self.old class self.new }
    {
        self.bodies.enter(alloc, program, code, class);
    }

    /// What the innermost body does next; where it says so it has come to something that touches what all threads share.
    fn ask(
        &mut self,
        alloc: Global,
        program: &Program,
        code: &B::Code,
        last: Option<Completed>,
    ) -> Does
        requires code { B.is_code code.now program.now }
        requires goes_on { GoesOn last }
        ensures does { StepsAlone (λ s z. (B.making program.now).does s last result z) self.old self.new }
        ensures fits { MayDo program.now (B.making program.now).limits last result self.new.state }
    {
        self.bodies.next(alloc, program, code, last)
    }

    /// Notes a turn of the thread of this number, which met this.
    fn note(&mut self, number: usize, met: Snapshot<B::Shared>, shared: &mut Shared<B::Shared>)
        ensures own { self.new.state ≡ self.old.state }
        ensures uses { self.new.uses ≡ self.old.uses ++ (met.value, shared.old.state) ∷ [] }
        ensures state { shared.new.state ≡ shared.old.state }
        ensures first { shared.new.first ≡ shared.old.first }
        ensures turns { shared.new.turns.items ≡ shared.old.turns.items ++ (number, shared.old.state) ∷ [] }
    {
        self.uses = self.uses.and(&met, &shared.state);
        shared.turns = shared.turns.and(&number, &shared.state);
    }

    /// Touches what all threads share. Where another thread holds what is touched the answer is `false`, and nothing has changed.
    /// An `Err` means out of memory.
    fn touch(
        &mut self,
        alloc: Global,
        program: &Program,
        code: &B::Code,
        number: usize,
        shared: &mut Shared<B::Shared>,
    ) -> Result<bool, AllocError>
        requires code { B.is_code code.now program.now }
        requires at { IsAtTouch (B.making program.now) self.old.state }
        ensures done { IfOk result (λ done. done ≡ true → StepsWith (B.making program.now).touches self.old self.new) }
        ensures turned { IfOk result (λ done. done ≡ true → HasTurned number shared.old shared.new self.old.uses self.new.uses) }
        ensures held { IfOk result (λ done. done ≡ false → (B.making program.now).waits self.old.state shared.old.state) }
        ensures still { IfOk result (λ done. done ≡ false → self.new ≡ self.old) }
        ensures unshared { IfOk result (λ done. done ≡ false → shared.new ≡ shared.old) }
    {
        let met = Snapshot::of(&shared.state);
        match self.bodies.touch(alloc, program, code, &mut shared.state)? {
            Touched::Held => Ok(false),
            Touched::Done | Touched::Left => {
                self.note(number, met, shared);
                Ok(true)
            }
        }
    }

    /// Goes on to what the innermost body does next, by touches of what all threads share; `Touches` where another thread holds what it
    /// has come to. An `Err` means out of memory, or more touches than there are numbers.
    pub(crate) fn next(
        &mut self,
        alloc: Global,
        program: &Program,
        code: &B::Code,
        number: usize,
        shared: &mut Shared<B::Shared>,
        last: Option<Completed>,
    ) -> Result<Does, AllocError>
        requires code { B.is_code code.now program.now }
        requires goes_on { GoesOn last }
        ensures does { IfOk result (λ d. (used_bodies (B.making program.now)).does self.old last d self.new) }
        ensures fits { IfOk result (λ d. MayDo program.now (used_bodies (B.making program.now)).limits last d self.new) }
        ensures held { IfOk result (λ d. d ≡ does.Touches → (B.making program.now).waits self.new.state shared.new.state) }
        ensures turned { IfOk result (λ d. HasTurned number shared.old shared.new self.old.uses self.new.uses) }
    {
        let mut told = last;
        'touches: for _ in 0..u64::MAX {
            let does = self.ask(alloc, program, code, told);
            let Does::Touches = does else {
                return Ok(does);
            };
            if !self.touch(alloc, program, code, number, shared)? {
                return Ok(Does::Touches);
            }
            told = None;
        }
        Err(AllocError)
    }

    /// Whether the innermost body is at something that another thread holds, and so can't go on.
    pub(crate) fn waits(&self, program: &Program, shared: &Shared<B::Shared>) -> bool
        ensures { IsTrue result ↔ (B.making program.now).waits self.now.state shared.now.state }
    {
        self.bodies.waits(program, &shared.state)
    }

    pub(crate) fn get(&mut self, program: &Program, value: Value)
        ensures { (used_bodies (B.making program.now)).gets self.old value self.new }
    {
        self.bodies.get(program, value);
    }

    pub(crate) fn leave(&mut self, program: &Program)
        ensures { (used_bodies (B.making program.now)).is_ended self.old self.new }
    {
        self.bodies.leave(program);
    }

    /// An `Err` means out of memory.
    pub(crate) fn replace(
        &mut self,
        alloc: Global,
        program: &Program,
        number: usize,
        shared: &mut Shared<B::Shared>,
        thrown: ClassId,
    ) -> Result<ClassId, AllocError>
        requires { IsThrowable program.now thrown }
        ensures replaces { IfOk result (λ error. (used_bodies (B.making program.now)).replaces self.old thrown error self.new) }
        ensures error { IfOk result (λ error. IsError program.now error) }
        ensures turned { IfOk result (λ error. HasTurned number shared.old shared.new self.old.uses self.new.uses) }
    {
        let met = Snapshot::of(&shared.state);
        let error = self
            .bodies
            .replace(alloc, program, &mut shared.state, thrown)?;
        self.note(number, met, shared);
        Ok(error)
    }

    pub(crate) fn end(&mut self, program: &Program, number: usize, shared: &mut Shared<B::Shared>)
        ensures ends { (used_bodies (B.making program.now)).ends self.old self.new }
        ensures turned { HasTurned number shared.old shared.new self.old.uses self.new.uses }
    {
        let met = Snapshot::of(&shared.state);
        self.bodies.end(program, &mut shared.state);
        self.note(number, met, shared);
    }
}
