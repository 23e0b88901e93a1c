//! How a table ends: its records and the journals of all passes.
ghost use Rattle.std.specs.Prelude.{◌≡◌, ℕ, ◌<◌, ◌≤◌, List, [], map, vec_len, vec_capacity, Some, IsSome, slice_index_or, false};
ghost use Rattle.std.specs.List.{AllByRecursion};
ghost use Rattle.std.specs.List.Sorted.{IsPermutation};
ghost use Rattle.std.specs.Mem.Slots.{slots_items, slots_filled, slots_len, IsFull};
ghost use Rattle.init_lock.specs.Log.{Entry, AllAllowed, AllBacked};
ghost use Rattle.init_lock.specs.Known.{IsAway, view_of_pass};
ghost use Rattle.init_lock.specs.Closing.{numbers, written, HasJournals, HasLooks, HasSettledFirst, HasRecords, FollowsAll};

use crate::journal::Journal;
use crate::keeps::Keeps;
use crate::pass::Pass;
use crate::rule::{LockRule, OnePass, View};
use crate::slot::Slot;
use crate::table::InitTable;
use crate::views::Setup;
use atomic_table::{Closed as Unlocked, Seat, Shared};
use std::alloc::Global;

/// What a table leaves: the records by their places, and the journals in the order of the passes that were handed in.
#[derive(Drop)]
pub struct Closed<R: Keeps> {
    /// The records, by their places.
    pub records: Vec<R>,
    /// The journals, one a pass.
    pub journals: Vec<Journal<R>>,
}

impl<R: Keeps> InitTable<R> {
    /// Ends the table, with no memory. All its passes come back, in any order, and none has a record.
    ///
    /// There was one log of all events, in which the stamp of an event is its index. The journal of each pass has that
    /// pass's entries of the log, each event one that the pass may draw at its place. What a pass had seen when it took
    /// or gave back a record, or saw a place done, was in the log before every event that it drew afterwards: once it
    /// knew a place to be settled, each stamp that it drew is above that of an event that settles the place. An event at
    /// no place that leans on a place is above such an event too. Each record keeps exactly the events of its place, in
    /// the order of the log, and follows the record that the table began with.
    pub fn finish(self, passes: Vec<Pass<R>>) -> Closed<R>
        requires passes { IsPermutation (numbers 0 self.threads) (map (λ p. p.number) passes.items) }
        requires table { AllByRecursion (λ p. p.table ≡ self.id) passes.items }
        requires away { AllByRecursion (λ p. IsAway p.places) passes.items }
        ensures places { vec_len result.records ≡ self.places }
        ensures journals { result.journals.items ≡ map written passes.items }
        ensures log { (log : List (Entry R.Event)) × AllAllowed self.threads self.places R.may_draw log × HasJournals log passes.items × HasLooks log passes.items × HasRecords R.kept log 0 result.records.items × AllBacked R.leans_on R.settles [] log × HasSettledFirst R.settles log passes.items }
        ensures follows { AllByRecursion (FollowsAll R.follows result.records.items) passes.items }
    {
        let InitTable {
            table,
            places,
            threads: _,
            mut records,
            mut journals,
        } = self;
        let (_found, mut seat) = table.shared.load_new_seat::<OnePass>(0);
        gather(&table.shared, &mut seat, passes, &mut journals);
        let mut closed = table.close_with(seat);
        unload(&mut closed, places, &mut records);
        closed.free();
        Closed { records, journals }
    }
}

// One seat gets what all passes know, and their journals are moved out.
fn gather<R: Keeps>(
    shared: &Shared<Slot<R>, View<R, R::Event>, Setup<R>, LockRule<R>>,
    seat: &mut Seat<Slot<R>, View<R, R::Event>>,
    passes: Vec<Pass<R>>,
    journals: &mut Vec<Journal<R>>,
)
    requires table { (seat.old.table_id ≡ shared.now.table_id) × (0 < shared.now.table_id.words) × AllByRecursion (λ p. p.table ≡ shared.now.table_id) passes.items }
    requires away { AllByRecursion (λ p. IsAway p.places) passes.items }
    requires new { seat.old.me ≡ ([], []) }
    requires room { (vec_len journals.old ≡ 0) × (vec_len passes ≤ vec_capacity journals.old) }
    ensures table { (seat.new.table_id ≡ seat.old.table_id) × (seat.new.id ≡ seat.old.id) }
    ensures seat { seat.new.me ≡ (map view_of_pass passes.items, []) }
    ensures journals { journals.new.items ≡ map written passes.items }
{
    for pass in passes {
        let Pass {
            seat: other,
            number: _,
            carried: _,
            journal,
        } = pass;
        shared.join_seat::<OnePass>(seat, other);
        let pushed = journals.push(journal.into_inner());
        let Ok(()) = pushed else { unreachable!() };
    }
}

// The record of each slot moves out.
fn unload<R: Keeps>(closed: &mut Unlocked<Slot<R>, Global>, places: usize, records: &mut Vec<R>)
    requires full { IsFull closed.old.slots × (slots_len closed.old.slots ≡ places) }
    requires some { AllByRecursion (λ x. IsSome x) (slots_items closed.old.slots) }
    requires room { (vec_len records.old ≡ 0) × (places ≤ vec_capacity records.old) }
    ensures records { map Some records.new.items ≡ slots_items closed.old.slots }
    ensures empty { (k : ℕ) → k < slots_len closed.new.slots → slice_index_or (slots_filled closed.new.slots) k false ≡ false }
{
    for place in 0..places {
        let Some(block) = closed.take(place).into_block() else {
            unreachable!()
        };
        let pushed = records.push(block.into_record());
        let Ok(()) = pushed else { unreachable!() };
    }
}
