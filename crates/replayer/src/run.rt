//! All threads of an ordered run.

ghost use Rattle.std.specs.Prelude.{◌≡◌, ℕ, ◌<◌, List, [], IfOk, OnOk, true, length, vec_len};
ghost use Rattle.bodies.specs.Runs.{AreMains};
ghost use Rattle.replayer.specs.AllGoing.{AllThreads, AreGoing, HasDone, IsSameThere, ThreadAt};
ghost use Rattle.replayer.specs.Turning.{AreInTurn, GoesAlone, HasGoneWith, HasBegun, HasFollowed, IsHeldAt, IsFoundWith, StillGoes};
ghost use Rattle.bodies.specs.Sharing.{used_bodies};
ghost use Rattle.std.specs.List.{AllByRecursion};

use crate::log::EventLog;
use crate::shared::Shared;
use crate::thread::{Thread, Turn};
use crate::used::Used;
use bodies::Bodies;
use hierarchy::{ClassId, Program};
use std::alloc::{AllocError, Global};

/// The threads of a run, by their numbers, and what they have done.
#[derive(Drop)]
pub(crate) struct Run<B, H> {
    pub log: EventLog,
    pub threads: Vec<Thread<B>>,
    pub shared: Shared<H>,
}

/// Which thread goes on next, once the order is used up.
#[derive(Clone, Copy)]
pub(crate) enum Found {
    /// The lowest that can has gone on.
    GoesOn,
    /// None can; this is the lowest that waits.
    Held(usize),
    /// None can: all have ended.
    Ended,
}

impl<B: Bodies> Run<Used<B, B::Shared>, B::Shared>
where
    B::Shared: Drop,
{
    /// Each main class is requested, by a thread of its own. An `Err` means out of memory.
    pub(crate) fn begin(
        alloc: Global,
        program: &Program,
        mains: &[ClassId],
        bodies: Vec<B>,
        shared: B::Shared,
    ) -> Result<Self, AllocError>
        requires mains { AreMains program.now mains.now }
        requires count { vec_len bodies ≡ length mains.now }
        ensures { IfOk result (HasBegun program.now (B.making program.now) mains.now bodies.items shared) }
    {
        let log = EventLog::new(alloc, program, mains.len())?;
        let mut threads = Vec::new(alloc);
        'threads: for bodies in bodies {
            let number = threads.len();
            let thread = Thread::begin(alloc, program, &log, number, mains[number], bodies)?;
            threads.push(thread)?;
        }
        Ok(Run {
            log,
            threads,
            shared: Shared::new(shared),
        })
    }

    /// A thread goes on until it has made one event, has ended or can't go on; `Ended` where it had ended before. An `Err` is out of
    /// memory.
    fn go(
        &mut self,
        alloc: Global,
        program: &Program,
        code: &B::Code,
        number: usize,
    ) -> Result<Turn, AllocError>
        requires code { B.is_code code.now program.now }
        requires going { AreGoing program.now (used_bodies (B.making program.now)) self.old }
        requires in_turn { AreInTurn self.old }
        requires number { number < length self.old.threads.items }
        ensures alone { IfOk result (λ turn. GoesAlone program.now (B.making program.now) number self.old self.new) }
        ensures gone { IfOk result (HasGoneWith program.now (B.making program.now) number self.old self.new) }
        ensures there { IfOk result (λ turn. IsSameThere number self.old self.new) }
    {
        let thread = &mut self.threads[number];
        if let Some(done) = thread.done {
            return Ok(Turn::Ended(done));
        }
        match thread.advance(alloc, program, code, &mut self.log, &mut self.shared)? {
            Turn::Ended(done) => {
                thread.end(program, &mut self.shared, done);
                Ok(Turn::Silent)
            }
            Turn::Comes => Ok(Turn::Silent),
            turn => Ok(turn),
        }
    }

    /// The threads go on in this order; the number of one that can't is used up. An `Err` means out of memory.
    pub(crate) fn follow(
        &mut self,
        alloc: Global,
        program: &Program,
        code: &B::Code,
        order: &[usize],
    ) -> Result<(), AllocError>
        requires code { B.is_code code.now program.now }
        requires going { AreGoing program.now (used_bodies (B.making program.now)) self.old }
        requires in_turn { AreInTurn self.old }
        requires order { AllByRecursion (λ t. t < length self.old.threads.items) order.now }
        ensures still { OnOk result (StillGoes program.now (B.making program.now) self.old self.new) }
        ensures follows { OnOk result (HasFollowed program.now (B.making program.now) order.now self.old [] self.new) }
    {
        'order: for number in order {
            self.go(alloc, program, code, *number)?;
        }
        Ok(())
    }

    /// The lowest thread that can goes on: each lower one had ended or waits, and stays so. An `Err` means out of memory.
    fn go_lowest(
        &mut self,
        alloc: Global,
        program: &Program,
        code: &B::Code,
    ) -> Result<Found, AllocError>
        requires code { B.is_code code.now program.now }
        requires going { AreGoing program.now (used_bodies (B.making program.now)) self.old }
        requires in_turn { AreInTurn self.old }
        ensures still { IfOk result (λ found. StillGoes program.now (B.making program.now) self.old self.new) }
        ensures found { IfOk result (IsFoundWith program.now (B.making program.now) self.old self.new) }
    {
        let mut held = None;
        'threads: for number in 0..self.threads.len() {
            match self.go(alloc, program, code, number)? {
                Turn::Event | Turn::Silent => return Ok(Found::GoesOn),
                Turn::Waits => held = held.or(Some(number)),
                Turn::Ended(_) => (),
                Turn::Comes => unreachable!(),
            }
        }
        Ok(match held {
            Some(number) => Found::Held(number),
            None => Found::Ended,
        })
    }

    /// A thread that waits gives up.
    fn give_up(&mut self, program: &Program, number: usize)
        requires going { AreGoing program.now (used_bodies (B.making program.now)) self.old }
        requires in_turn { AreInTurn self.old }
        requires number { number < length self.old.threads.items }
        requires held { IsHeldAt program.now (B.making program.now) number self.old }
        ensures alone { GoesAlone program.now (B.making program.now) number self.old self.new }
        ensures log { self.new.log ≡ self.old.log }
        ensures gave_up { ThreadAt self.new number (λ w. w.gave_up ≡ true) }
    {
        let thread = &mut self.threads[number];
        if let Some(done) = thread.give_up(program, &self.log, &self.shared) {
            thread.end(program, &mut self.shared, done);
        }
    }

    /// All threads go on to their end: the lowest that can, and where none can the lowest that waits gives up. An `Err` is out
    /// of memory; so are more events than there are numbers.
    pub(crate) fn finish(
        &mut self,
        alloc: Global,
        program: &Program,
        code: &B::Code,
    ) -> Result<(), AllocError>
        requires code { B.is_code code.now program.now }
        requires going { AreGoing program.now (used_bodies (B.making program.now)) self.old }
        requires in_turn { AreInTurn self.old }
        ensures still { OnOk result (StillGoes program.now (B.making program.now) self.old self.new) }
        ensures follows { OnOk result ((later : List ℕ) × HasFollowed program.now (B.making program.now) [] self.old later self.new) }
        ensures ended { OnOk result (AllThreads (λ t w. HasDone w) self.new) }
    {
        'rounds: for _ in 0..u64::MAX {
            match self.go_lowest(alloc, program, code)? {
                Found::GoesOn => (),
                Found::Held(number) => self.give_up(program, number),
                Found::Ended => return Ok(()),
            }
        }
        Err(AllocError)
    }
}
