//! The events that one pass drew, with their stamps.
ghost use Rattle.std.specs.Prelude.{◌≡◌, ◌+◌, ◌++◌, ◌∷◌, [], ◌<◌, ◌≤◌, ◌^◌, length, IfOk, IfSome, IfNone, OnOk, OnErr, IsTrue, ◌↔◌};
ghost use Rattle.init_lock.specs.Merging.{end_of};
ghost use Rattle.init_lock.specs.Packing.{IsLow, place_in};

use crate::keeps::Keeps;
use event_rows::Rows;
use std::alloc::{AllocError, Global};
use std::marker::Model;

/// A number in the order of all events, from 0 on. It stays below 2^62.
pub type Stamp = u64;

/// An event with its stamp, and with its place if it has one.
#[derive(Drop)]
pub struct Stamped<E> {
    /// Where it comes in the order of all events.
    pub stamp: Stamp,
    /// The place whose record the pass had, if it was drawn there.
    pub place: Option<usize>,
    /// What was drawn.
    pub event: E,
}

// The words of a row: a stamp, a place with 1 added, or 0, and the word of a packed event.
const WIDTH: usize = 3;

/// The events of one pass in the order in which it drew them, with room for more.
///
/// Each is packed ([`Keeps::pack`]) and lies in a row of three words, 24 bytes. Contracts see the list of the events, and
/// beside it the room: how many more events go in without memory.
pub struct Journal<R: Keeps> {
    rows: Rows<R::Text>,
}

impl<R: Keeps> Drop for Journal<R> {
    fn drop(self) {
        let Self { rows: _ } = self;
    }
}

impl<R: Keeps> Model for Journal<R> {
    ghost use Rattle.std.specs.Prelude.{◌≡◌, map};
    ghost use Rattle.std.specs.List.{AllByRecursion};
    ghost use Rattle.init_lock.specs.Known.{Written};
    ghost use Rattle.init_lock.specs.Packing.{event_in, IsEventRow};

    ghost Value = { Written R.Event };

    ghost view = { λ j. record { events = map (event_in R.unpacked) j.rows.rows; room = j.rows.room } };

    ghost invariant = { λ j. (j.rows.width ≡ 3) × AllByRecursion (IsEventRow R.is_packed) j.rows.rows };
}

impl<R: Keeps> Journal<R> {
    /// An empty journal, without room. An `Err` means out of memory.
    pub(crate) fn new(alloc: Global) -> Result<Journal<R>, AllocError>
        ensures events { IfOk result (λ j. j.events ≡ []) }
        ensures room { IfOk result (λ j. j.room ≡ 0) }
    {
        Ok(Journal {
            rows: Rows::new(alloc, WIDTH)?,
        })
    }

    /// Makes room for `count` more events, beside the room that is left. It is refused where there is no memory for it,
    /// which leaves the journal as it was.
    pub(crate) fn reserve(&mut self, count: usize) -> Result<(), AllocError>
        requires { length self.old.events + self.old.room + count ≤ 2 ^ 58 }
        ensures ok { OnOk result (self.new ≡ record self.old { room = self.old.room + count }) }
        ensures err { OnErr result (self.new ≡ self.old) }
        ensures refused { OnErr result (0 < count) }
    {
        self.rows.reserve(count)
    }

    /// Writes an event at the end, into the room.
    #[inline]
    pub(crate) fn push(&mut self, event: Stamped<R::Event>)
        requires room { 0 < self.old.room }
        requires below { event.stamp < 2 ^ 62 }
        requires place { IsLow event.place }
        ensures events { self.new.events ≡ self.old.events ++ event ∷ [] }
        ensures room { self.new.room + 1 ≡ self.old.room }
    {
        let Stamped {
            stamp,
            place,
            event,
        } = event;
        let (word, text) = R::pack(event);
        self.rows.push(&[stamp, place_word(place), word], text);
    }

    /// How many more events go in without memory.
    #[inline]
    pub(crate) fn room(&self) -> usize
        ensures { result ≡ self.now.room }
    {
        self.rows.room()
    }

    /// How many events it has.
    #[inline]
    pub fn len(&self) -> usize
        ensures { result ≡ length self.now.events }
    {
        self.rows.len()
    }

    /// Whether it has none.
    #[inline]
    pub fn is_empty(&self) -> bool
        ensures { IsTrue result ↔ self.now.events ≡ [] }
    {
        self.rows.is_empty()
    }

    /// Takes the last event out, if there is one. Memory that no event needs any more is freed.
    #[inline]
    pub fn pop(&mut self) -> Option<Stamped<R::Event>>
        ensures some { IfSome result (λ s. self.old.events ≡ self.new.events ++ s ∷ []) }
        ensures none { IfNone result ((self.old.events ≡ []) × (self.new.events ≡ [])) }
        ensures room { self.new.room ≡ self.old.room }
    {
        if self.rows.is_empty() {
            return None;
        }
        let mut words = [0; WIDTH];
        let text = self.rows.pop(&mut words);
        let [stamp, place, word] = words;
        Some(Stamped {
            stamp,
            place: place_of(place),
            event: R::unpack(word, text),
        })
    }

    /// The number after the stamp of the last event, 0 where there is none.
    #[inline]
    pub(crate) fn end(&self) -> Stamp
        ensures { result ≡ end_of self.now.events }
    {
        match self.rows.last(0) {
            None => 0,
            Some(stamp) => stamp + 1,
        }
    }

    /// Takes the last event out if its stamp is not below `start`.
    #[inline]
    pub(crate) fn pop_from(&mut self, start: Stamp) -> Option<Stamped<R::Event>>
        ensures some { IfSome result (λ s. (self.old.events ≡ self.new.events ++ s ∷ []) × (start ≤ s.stamp)) }
        ensures none { IfNone result ((self.new.events ≡ self.old.events) × (end_of self.old.events ≤ start)) }
    {
        if self.end() <= start {
            return None;
        }
        self.pop()
    }
}

// The word of a place in a row.
#[inline]
fn place_word(place: Option<usize>) -> u64
    requires { IsLow place }
    ensures { place_in result ≡ place }
{
    match place {
        None => 0,
        Some(place) => place as u64 + 1,
    }
}

// The place that a word of a row stands for.
#[inline]
fn place_of(word: u64) -> Option<usize>
    ensures { result ≡ place_in word }
{
    if word == 0 {
        None
    } else {
        Some((word - 1) as usize)
    }
}
