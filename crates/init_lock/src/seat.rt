//! The steps of a seat that has one pass: what a try of a lock and a giving back are made of.
ghost use Rattle.std.specs.Prelude.{◌≡◌, ◌+◌, ◌*◌, ◌^◌, ◌<◌, ◌∷◌, map, Option, Some, None, IfSome, IfNone, MatchBool};
ghost use Rattle.std.specs.Option.{option_or};
ghost use mathlib.Core.Option.{some};
ghost use Rattle.init_lock.specs.declared.views.Custody.TheVariants.{Carried};
ghost use Rattle.atomic_table.specs.Table.{rest};
ghost use Rattle.init_lock.specs.Rule.{Each};
ghost use Rattle.init_lock.specs.Log.{is_at};
ghost use Rattle.init_lock.specs.Steps.{Found, LearnsAt, HasSettled, IsOnePass, IsInTable, JustTook, HasOut, MayReturn, in_custody, custody_beside, slots_of, without as without_place, took, missed, released};

use crate::block::Block;
use crate::keeps::Keeps;
use crate::rule::{
    FetchSlot, FreeLock, LockRule, ParkSlot, SeeDone, SeeLock, SetDone, TakeLock, View,
};
use crate::slot::Slot;
use crate::views::Setup;
use atomic_table::{Seat, Shared};

// The lock word of a place. Word 0 is the counter of stamps, and eight words fill a cache line: threads that are busy at
// different places share none but that of the counter.
fn lock_word(place: usize) -> usize
    requires { place < 2 ^ 58 }
    ensures { result ≡ place * 8 + 8 }
{
    place * 8 + 8
}

// The done word of a place. Each of these is written once, so they lie packed, eight in a cache line, after the lines of
// all the lock words: no thread that is busy at a lock takes such a line away.
fn done_word(places: usize, place: usize) -> usize
    requires { (place < places) × (places < 2 ^ 58) }
    ensures { result ≡ places * 8 + 8 + place }
{
    places * 8 + 8 + place
}

/// Whether a place is settled, as one load sees it.
pub(crate) fn see_done<R: Keeps>(
    shared: &Shared<Slot<R>, View<R, R::Event>, Setup<R>, LockRule<R>>,
    seat: &mut Seat<Slot<R>, View<R, R::Event>>,
    _number: usize,
    _carried: Option<usize>,
    places: usize,
    place: usize,
) -> bool
    requires table { seat.old.table_id ≡ shared.now.table_id }
    requires places { places ≡ shared.now.table_id.slots }
    requires place { IsInTable place shared.now.table_id }
    requires pass { IsOnePass _number _carried seat.old.me }
    ensures table { (seat.new.table_id ≡ seat.old.table_id) × (seat.new.id ≡ seat.old.id) }
    ensures seat { MatchBool result (LearnsAt R.may_draw R.settles R.lawful place seat.old.me seat.new.me) (seat.new.me ≡ seat.old.me) }
{
    if shared.load::<SeeDone<R>>(seat, done_word(places, place)) == 0 {
        return false;
    }
    true
}

/// Says of a place that it is settled, while the pass has its record.
pub(crate) fn set_done<R: Keeps>(
    shared: &Shared<Slot<R>, View<R, R::Event>, Setup<R>, LockRule<R>>,
    seat: &mut Seat<Slot<R>, View<R, R::Event>>,
    _carried: Option<usize>,
    places: usize,
    place: usize,
)
    requires table { seat.old.table_id ≡ shared.now.table_id }
    requires places { places ≡ shared.now.table_id.slots }
    requires place { IsInTable place shared.now.table_id }
    requires settled { HasSettled R.settles _carried place seat.old.me }
    ensures table { (seat.new.table_id ≡ seat.old.table_id) × (seat.new.id ≡ seat.old.id) }
    ensures same { seat.new.me ≡ seat.old.me }
{
    shared.store::<SetDone>(seat, done_word(places, place), 1);
}

/// Whether the lock of a place is free, as one load sees it.
pub(crate) fn see<R: Keeps>(
    shared: &Shared<Slot<R>, View<R, R::Event>, Setup<R>, LockRule<R>>,
    seat: &mut Seat<Slot<R>, View<R, R::Event>>,
    _number: usize,
    _carried: Option<usize>,
    place: usize,
) -> bool
    requires table { seat.old.table_id ≡ shared.now.table_id }
    requires place { IsInTable place shared.now.table_id }
    requires pass { IsOnePass _number _carried seat.old.me }
    ensures table { (seat.new.table_id ≡ seat.old.table_id) × (seat.new.id ≡ seat.old.id) }
    ensures seat { MatchBool result (seat.new.me ≡ seat.old.me) (seat.new.me ≡ (map missed seat.old.me.0, seat.old.me.1)) }
{
    shared.load::<SeeLock>(seat, lock_word(place)) == 0
}

/// Whether the slot that the seat carries is that of this place.
fn is_carried(carried: Option<usize>, place: usize) -> bool
    ensures { result ≡ is_at place carried }
{
    match carried {
        Some(other) => other == place,
        None => false,
    }
}

/// The place whose slot the seat carries once that of a place has gone home.
pub(crate) fn without(carried: Option<usize>, place: usize) -> Option<usize>
    ensures { result ≡ without_place place carried }
{
    if is_carried(carried, place) {
        None
    } else {
        carried
    }
}

// Puts this into the slot that the seat took last, and answers what was there.
fn exchange<R: Keeps>(
    shared: &Shared<Slot<R>, View<R, R::Event>, Setup<R>, LockRule<R>>,
    seat: &mut Seat<Slot<R>, View<R, R::Event>>,
    place: usize,
    content: Option<Block<R>>,
) -> Option<Block<R>>
    requires table { seat.old.table_id ≡ shared.now.table_id }
    requires taken { (old : Option R) × (seat.old.me.1 ≡ (place, old) ∷ rest seat.old.me.1) }
    ensures table { (seat.new.table_id ≡ seat.old.table_id) × (seat.new.id ≡ seat.old.id) }
    ensures found { seat.old.me.1 ≡ (place, result) ∷ rest seat.old.me.1 }
    ensures seat { seat.new.me ≡ (seat.old.me.0, (place, content) ∷ rest seat.old.me.1) }
{
    seat.slot_mut(shared, place).replace(content)
}

// Where the seat carries another slot beside that of a record just taken, this one goes home, empty.
fn park<R: Keeps>(
    shared: &Shared<Slot<R>, View<R, R::Event>, Setup<R>, LockRule<R>>,
    seat: &mut Seat<Slot<R>, View<R, R::Event>>,
    carried: Option<usize>,
    place: usize,
    _taken: &Block<R>,
)
    requires table { seat.old.table_id ≡ shared.now.table_id }
    requires place { IsInTable place shared.now.table_id }
    requires taken { JustTook R.kept carried place _taken.now seat.old.me }
    ensures table { (seat.new.table_id ≡ seat.old.table_id) × (seat.new.id ≡ seat.old.id) }
    ensures parked { seat.new.me ≡ (map (in_custody place (custody_beside carried)) seat.old.me.0, slots_of (option_or carried (Some place))) }
{
    if carried.is_some() {
        shared.load::<ParkSlot>(seat, lock_word(place));
    }
}

// The empty slot of a record that the pass has comes to the seat, where it isn't there.
fn fetch<R: Keeps>(
    shared: &Shared<Slot<R>, View<R, R::Event>, Setup<R>, LockRule<R>>,
    seat: &mut Seat<Slot<R>, View<R, R::Event>>,
    carried: Option<usize>,
    place: usize,
)
    requires table { seat.old.table_id ≡ shared.now.table_id }
    requires place { IsInTable place shared.now.table_id }
    requires out { HasOut carried place seat.old.me }
    ensures table { (seat.new.table_id ≡ seat.old.table_id) × (seat.new.id ≡ seat.old.id) }
    ensures fetched { seat.new.me ≡ (map (in_custody place Carried) seat.old.me.0, (place, None) ∷ slots_of (without_place place carried)) }
{
    if !is_carried(carried, place) {
        shared.load::<FetchSlot>(seat, lock_word(place));
    }
}

/// Tries the lock of a place once, and takes its record out of the slot. The seat carries on the slot, empty, unless it
/// carries another.
pub(crate) fn take_out<R: Keeps>(
    shared: &Shared<Slot<R>, View<R, R::Event>, Setup<R>, LockRule<R>>,
    seat: &mut Seat<Slot<R>, View<R, R::Event>>,
    number: usize,
    carried: Option<usize>,
    place: usize,
) -> Option<Block<R>>
    requires table { seat.old.table_id ≡ shared.now.table_id }
    requires place { IsInTable place shared.now.table_id }
    requires pass { (number < 16) × IsOnePass number carried seat.old.me }
    ensures table { (seat.new.table_id ≡ seat.old.table_id) × (seat.new.id ≡ seat.old.id) }
    ensures some { IfSome result (λ r. (seat.new.me ≡ (map (took R.kept place r (custody_beside carried)) seat.old.me.0, slots_of (option_or carried (Some place)))) × Each (Found R.kept R.may_draw R.follows place r) seat.old.me.0) }
    ensures none { IfNone result (seat.new.me ≡ (map missed seat.old.me.0, seat.old.me.1)) }
{
    // A lock word is 0 while the lock is free, and one more than the pass's number while a pass has it.
    let word = lock_word(place);
    let found = shared.compare_exchange::<TakeLock<R>>(seat, word, 0, number as u64 + 1);
    if found != 0 {
        return None;
    }
    let Some(block) = exchange(shared, seat, place, None) else {
        unreachable!()
    };
    park(shared, seat, carried, place, &block);
    Some(block)
}

/// Puts the record of a place into its slot, and frees its lock.
pub(crate) fn put_back<R: Keeps>(
    shared: &Shared<Slot<R>, View<R, R::Event>, Setup<R>, LockRule<R>>,
    seat: &mut Seat<Slot<R>, View<R, R::Event>>,
    carried: Option<usize>,
    place: usize,
    back: Block<R>,
)
    requires table { seat.old.table_id ≡ shared.now.table_id }
    requires place { IsInTable place shared.now.table_id }
    requires held { MayReturn R.kept R.may_draw R.follows carried place back seat.old.me }
    ensures table { (seat.new.table_id ≡ seat.old.table_id) × (seat.new.id ≡ seat.old.id) }
    ensures freed { seat.new.me ≡ (map (released place back) seat.old.me.0, slots_of (without_place place carried)) }
{
    fetch(shared, seat, carried, place);
    let empty = exchange(shared, seat, place, Some(back));
    let None = empty else { unreachable!() };
    shared.store::<FreeLock>(seat, lock_word(place), 0);
}
