//! The table of locked records, and one try of a lock.
ghost use Rattle.std.specs.Prelude.{◌≡◌, ◌+◌, ◌<◌, ◌≤◌, MatchBool, Some, IfSome, IfNone, OnSome};
ghost use Rattle.init_lock.specs.Drawn.{WentBack};
ghost use Rattle.init_lock.specs.Known.{seen_at, out_of};
ghost use Rattle.init_lock.specs.Taken.{Taken};

use crate::journal::Journal;
use crate::keeps::Keeps;
use crate::pass::{Held, Pass};
use crate::rule::{LockRule, View};
use crate::seat::{put_back, see, take_out, without};
use crate::slot::Slot;
use crate::views::Setup;
use atomic_table::Table;
use std::alloc::Global;
use std::marker::Model;
use std::snapshot::Snapshot;

/// Records, each under its own lock, and one word that gives each event its stamp.
///
/// A place is the number of a record, from 0 on. All threads share the table by `&`, and each steps with its own [`Pass`].
/// Contracts see the record `TableFacts`: which table it is, how many places it has, and how many passes.
#[derive(Drop)]
pub struct InitTable<R: Keeps> {
    pub(crate) table: Table<Slot<R>, View<R, R::Event>, Setup<R>, LockRule<R>, Global>,
    pub(crate) places: usize,
    pub(crate) threads: usize,
    // Room for what `finish` gives out, so that it takes no memory.
    pub(crate) records: Vec<R>,
    pub(crate) journals: Vec<Journal<R>>,
}

impl<R: Keeps> Model for InitTable<R> {
    ghost use Rattle.std.specs.Prelude.{◌≡◌, ◌+◌, ◌*◌, ◌^◌, ◌<◌, ◌≤◌, vec_len, vec_capacity};
    ghost use Rattle.init_lock.specs.Known.{TableFacts};

    ghost Value = { TableFacts };

    ghost view = { λ t. record { id = t.table.shared.table_id; places = t.places; threads = t.threads } };

    ghost invariant = { λ t. (t.table.shared.table_id.words ≡ t.places * 9 + 8) × (t.table.shared.table_id.slots ≡ t.places) × (t.table.shared.key.threads ≡ t.threads) × (vec_len t.records ≡ 0) × (t.places ≤ vec_capacity t.records) × (vec_len t.journals ≡ 0) × (t.threads ≤ vec_capacity t.journals) × (t.places < 2 ^ 58) };
}

impl<R: Keeps> InitTable<R> {
    /// Takes the record of a place if its lock is free: one try of the lock word, with no waiting and no memory.
    ///
    /// The record's events begin with all that the pass had seen at the place, its own events there included, and go on
    /// with what other passes drew. One of them settles the place, where the pass knew it to be settled. `None` where
    /// another pass has the record, or this one: that is one more miss of this pass.
    ///
    /// This is the taking of the initialization lock (JLS SE 8 12.4.2 step 1, JVMS SE 8 5.5 step 1), tried once.
    pub fn try_take(&self, pass: &mut Pass<R>, place: usize) -> Option<Held<R>>
        requires table { pass.old.table ≡ self.now.id }
        requires place { place < self.now.places }
        ensures misses { OnSome result (pass.new.misses ≡ pass.old.misses) }
        ensures taken { IfSome result (Taken R.kept R.may_draw R.settles R.follows place pass.old pass.new) }
        ensures none { IfNone result (pass.new ≡ record pass.old { misses = pass.old.misses + 1 }) }
    {
        let block = take_out(
            &self.table.shared,
            &mut pass.seat,
            pass.number,
            pass.carried,
            place,
        )?;
        pass.carried = pass.carried.or(Some(place));
        let taken = Snapshot::of(&block);
        Some(Held {
            block,
            place,
            taken,
        })
    }

    /// Whether the lock of a place is free, as one load sees it, without a try. It may be taken or given back at once.
    pub fn is_free(&self, pass: &mut Pass<R>, place: usize) -> bool
        requires table { pass.old.table ≡ self.now.id }
        requires place { place < self.now.places }
        ensures { MatchBool result (pass.new ≡ pass.old) (pass.new ≡ record pass.old { misses = pass.old.misses + 1 }) }
    {
        see(
            &self.table.shared,
            &mut pass.seat,
            pass.number,
            pass.carried,
            place,
        )
    }

    /// Gives a record back and frees its lock, with no memory.
    ///
    /// The record must keep what it kept when it was taken, followed by the events drawn on it since, and must follow
    /// the record that was taken. From then on the pass has seen its events.
    ///
    /// This is the release of the initialization lock (JLS SE 8 12.4.2, JVMS SE 8 5.5).
    pub fn give_back(&self, pass: &mut Pass<R>, held: Held<R>)
        requires table { pass.old.table ≡ self.now.id }
        requires out { out_of held.place pass.old.places ≡ Some held.taken }
        requires keeps { R.kept held.kept ≡ seen_at held.place pass.old.places }
        requires follows { R.follows held.taken held.kept }
        ensures { WentBack held.place held.kept (R.kept held.kept) pass.old pass.new }
    {
        let Held {
            block,
            place,
            taken: _,
        } = held;
        put_back(
            &self.table.shared,
            &mut pass.seat,
            pass.carried,
            place,
            block,
        );
        pass.carried = without(pass.carried, place);
    }
}
