//! The lock's rule as the table is given it, and what each kind of atomic step tells the pass that makes it.
ghost use Rattle.std.specs.Prelude.{ℕ, Option};

use crate::keeps::Keeps;
use crate::slot::Slot;
use crate::views::{PassView, Setup};
use atomic_table::{Join, Play, Split, TableRule};
use std::collections::LinkedList;
use std::marker::{Brand, PhantomData};

/// What a seat knows: the views of its passes.
pub type View<R, E> = LinkedList<PassView<R, E>>;

/// The lock's rule.
pub struct LockRule<R> {
    record: PhantomData<R>,
}

impl<R: Keeps> TableRule<Slot<R>, View<R, R::Event>, Setup<R>> for LockRule<R> {
    ghost use Rattle.init_lock.specs.Rule.{RuleHolds, opened};

    ghost holds = { λ setup s. RuleHolds R.kept R.may_draw R.follows R.settles R.lawful R.leans_on setup s };

    ghost first = { opened };
}

// The lock word is tried: free to taken, by one exchange.
pub(crate) struct TakeLock<R> {
    record: PhantomData<R>,
}

impl<R: Keeps> Play<Slot<R>, View<R, R::Event>> for TakeLock<R> {
    ghost use Rattle.init_lock.specs.Steps.{TakesLock};

    ghost then = { TakesLock R.kept R.may_draw R.follows };
}

// The lock word is read, to see whether it is worth trying.
pub(crate) struct SeeLock;

impl<R, E> Play<Slot<R>, View<R, E>> for SeeLock {
    ghost use Rattle.init_lock.specs.Steps.{SeesLock};

    ghost then = { SeesLock };
}

// The slot goes home empty, where the pass carries another.
pub(crate) struct ParkSlot;

impl<R, E> Play<Slot<R>, View<R, E>> for ParkSlot {
    ghost use Rattle.init_lock.specs.Steps.{ParksSlot};

    ghost then = { ParksSlot };
}

// The empty slot comes out again.
pub(crate) struct FetchSlot;

impl<R, E> Play<Slot<R>, View<R, E>> for FetchSlot {
    ghost use Rattle.init_lock.specs.Steps.{FetchesSlot};

    ghost then = { FetchesSlot };
}

// The done word is read, to see whether its place is settled.
pub(crate) struct SeeDone<R> {
    record: PhantomData<R>,
}

impl<R: Keeps> Play<Slot<R>, View<R, R::Event>> for SeeDone<R> {
    ghost use Rattle.init_lock.specs.Steps.{SeesDone};

    ghost then = { SeesDone R.may_draw R.settles R.lawful };
}

// The done word is set.
pub(crate) struct SetDone;

impl<R, E> Play<Slot<R>, View<R, E>> for SetDone {
    ghost use Rattle.init_lock.specs.Steps.{SetsDone};

    ghost then = { SetsDone };
}

// The lock word is freed, and the slot goes home with the record.
pub(crate) struct FreeLock;

impl<R, E> Play<Slot<R>, View<R, E>> for FreeLock {
    ghost use Rattle.init_lock.specs.Steps.{FreesLock};

    ghost then = { FreesLock };
}

// The place and the event that a step draws. The proof of the caller picks them, and they cost nothing.
pub(crate) trait Drawn<E> {
    ghost drawn: { Option (Option ℕ × E) };
}

impl<E> Drawn<E> for Brand {
    ghost use Rattle.std.specs.Prelude.{None};

    ghost drawn = { None };
}

// The stamp word is raised by one.
pub(crate) struct DrawStamp<J> {
    drawn: PhantomData<J>,
}

impl<R, E, J: Drawn<E>> Play<Slot<R>, View<R, E>> for DrawStamp<J> {
    ghost use Rattle.init_lock.specs.Steps.{DrawsWhatIsSaid};

    ghost then = { DrawsWhatIsSaid J.drawn };
}

// A seat's passes are dealt out one by one, and gathered into one seat.
pub(crate) struct OnePass;

impl<R, E> Split<View<R, E>> for OnePass {
    ghost use Rattle.init_lock.specs.Steps.{but_first, just_first};

    ghost left = { but_first };

    ghost right = { just_first };
}

impl<R, E> Join<View<R, E>> for OnePass {
    ghost use Rattle.std.specs.Prelude.{◌++◌, []};

    ghost both = { λ v w. v ++ w };

    ghost spent = { [] };
}

impl<R, E> Play<Slot<R>, View<R, E>> for OnePass {
    ghost use Rattle.std.specs.Prelude.{◌≡◌, []};

    ghost then = { λ s v found w. w.0 ≡ [] };
}
