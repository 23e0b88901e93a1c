//! What a thread steps with, and a record that it has.
ghost use Rattle.std.specs.Prelude.{◌≡◌, ◌+◌, ◌<◌, ◌≤◌, ◌^◌, length, OnOk, OnErr};
ghost use Rattle.std.specs.Borrow.{Lends, sem};
ghost use Rattle.init_lock.specs.contracts.pass.Held.{the_row};

use crate::block::Block;
use crate::journal::{Journal, Stamped};
use crate::keeps::Keeps;
use crate::rule::View;
use crate::slot::Slot;
use atomic_table::Seat;
use crossbeam_utils::CachePadded;
use std::alloc::AllocError;
use std::marker::Model;
use std::snapshot::Snapshot;

// So many events at most are in one journal, so that the stamps of all passes stay below 2^62.
const MOST_EVENTS: usize = 1 << 58;

/// The token of one thread: its number, and the journal of the events that it drew.
///
/// The seat at the table has no bytes. It is what the pass knows of the places, which exists in proofs alone.
/// Contracts see a pass as the record `PassFacts`.
#[derive(Drop)]
pub struct Pass<R: Keeps> {
    pub(crate) seat: Seat<Slot<R>, View<R, R::Event>>,
    pub(crate) number: usize,
    // The place whose slot the seat carries, empty, between taking its record and giving it back. A pass that has several
    // records carries the slot of the first, and the others' are at home: only for these it makes steps of their own.
    pub(crate) carried: Option<usize>,
    // All passes are made side by side in one `Vec`, and each draw writes to its journal. The padding keeps two journals off one
    // cache line, wherever the passes lie.
    pub(crate) journal: CachePadded<Journal<R>>,
}

impl<R: Keeps> Model for Pass<R> {
    ghost use Rattle.crossbeam_utils.specs.Padded.{padded_value};
    ghost use Rattle.init_lock.specs.Known.{PassFacts, places_of, misses_of, looks_of, opening_of};
    ghost use Rattle.init_lock.specs.Steps.{PassHolds};

    ghost Value = { PassFacts R R.Event };

    ghost view = { λ p. record { table = p.seat.table_id; number = p.number; misses = misses_of p.seat.me.0; journal = (padded_value p.journal).events; room = (padded_value p.journal).room; looks = looks_of p.seat.me.0; opening = opening_of p.seat.me.0; places = places_of p.seat.me.0 } };

    ghost invariant = { λ p. PassHolds p.seat.table_id.slots p.number p.carried (padded_value p.journal).events (padded_value p.journal).room p.seat.me };
}

impl<R: Keeps> Pass<R> {
    /// The number of the pass, below the number of the table's threads.
    pub fn number(&self) -> usize
        ensures { result ≡ self.now.number }
    {
        self.number
    }

    /// Makes room in the journal for `count` more events, beside the room that is left.
    /// Drawing takes no memory, and needs the room.
    ///
    /// It is refused where there is no memory for it, or where the journal would come to more than 2^58 events.
    /// A refusal leaves the pass as it was, and room for no more events is never refused.
    pub fn reserve(&mut self, count: usize) -> Result<(), AllocError>
        ensures ok { OnOk result (self.new ≡ record self.old { room = self.old.room + count }) }
        ensures few { OnOk result (length self.old.journal + self.old.room + count ≤ 2 ^ 58) }
        ensures err { OnErr result (self.new ≡ self.old) }
        ensures refused { OnErr result (0 < count) }
    {
        let left = MOST_EVENTS - (self.journal.len() + self.journal.room());
        if count > left {
            return Err(AllocError);
        }
        self.journal.reserve(count)
    }
}

/// A record out of the table, of the pass that took it. It has no `Drop`: it must go back.
///
/// Contracts see the record `HeldFacts`: the place, the record as it was taken, and the record as it is now.
pub struct Held<R> {
    pub(crate) block: Block<R>,
    pub(crate) place: usize,
    pub(crate) taken: Snapshot<Block<R>>,
}

impl<R> Model for Held<R> {
    ghost use Rattle.init_lock.specs.Known.{HeldFacts};

    ghost Value = { HeldFacts R };

    ghost view = { λ h. record { place = h.place; taken = h.taken.value; kept = h.block } };
}

impl<R> Held<R> {
    /// The record, to be read and changed in place.
    pub fn kept(&mut self) -> &mut R
        ensures* writes_back { sem 𝓛 (Lends (the_row R.row) R.row self.entry result (λ r. record { place = self.old.place; taken = self.old.taken; kept = r })) }
        ensures record { result.now ≡ self.old.kept }
    {
        self.block.record()
    }
}
