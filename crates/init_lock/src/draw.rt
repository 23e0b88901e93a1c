//! How events get their stamps.
ghost use Rattle.std.specs.Prelude.{◌≡◌, ◌<◌, ℕ, ◌++◌, ◌∷◌, [], Some, None, true};
ghost use Rattle.init_lock.specs.Drawn.{Draws, HasSeenMore};
ghost use Rattle.init_lock.specs.Known.{out_of, seen_at};
ghost use Rattle.init_lock.specs.Log.{settled};
ghost use Rattle.init_lock.specs.Steps.{IsOutAt, MayStand};

use crate::journal::{Stamp, Stamped};
use crate::keeps::Keeps;
use crate::pass::{Held, Pass};
use crate::rule::{DrawStamp, Drawn};
use crate::table::InitTable;
use std::marker::Brand;

impl<R: Keeps> InitTable<R> {
    // One `fetch_add` on the stamp word, and the event goes into the room of the journal.
    fn stamp<J: Drawn<R::Event>>(
        &self,
        pass: &mut Pass<R>,
        place: Option<usize>,
        event: R::Event,
    ) -> Stamp
        requires told { J.drawn ≡ Some (place, event) }
        requires table { pass.old.table ≡ self.now.id }
        requires room { 0 < pass.old.room }
        requires allowed { R.may_draw pass.old.number place event }
        requires out { IsOutAt place pass.old.places }
        requires stands { MayStand R.lawful R.leans_on R.settles place event pass.old.places }
        ensures { Draws result place event pass.old pass.new }
    {
        let stamp = self
            .table
            .shared
            .fetch_add::<DrawStamp<J>>(&mut pass.seat, 0, 1);
        pass.journal.push(Stamped {
            stamp,
            place,
            event,
        });
        stamp
    }

    /// Draws an event that is at no place: it gets the next stamp, and is written into the pass's journal.
    ///
    /// By [`InitTable::finish`] its stamp is above those of all that the pass has seen. The journal must have room
    /// ([`Pass::reserve`]), the event must be one that this pass may draw at no place, and the place that it leans on, if there is one,
    /// must be settled in what the pass has seen. No waiting and no memory.
    pub fn draw(&self, pass: &mut Pass<R>, event: R::Event) -> Stamp
        requires table { pass.old.table ≡ self.now.id }
        requires room { 0 < pass.old.room }
        requires allowed { R.may_draw pass.old.number None event }
        requires backed { (n : ℕ) → R.leans_on event ≡ Some n → settled R.settles (seen_at n pass.old.places) ≡ true }
        ensures { Draws result None event pass.old pass.new }
    {
        self.stamp::<Brand>(pass, None, event)
    }

    /// Draws an event that is at the place of a record that the pass has, while it has it.
    ///
    /// The record must keep the event when it goes back. The journal must have room ([`Pass::reserve`]), and the event
    /// must be one that this pass may draw at that place, with which the list of events there stays lawful. No waiting and no memory.
    pub fn draw_held(&self, pass: &mut Pass<R>, held: &mut Held<R>, event: R::Event) -> Stamp
        requires table { pass.old.table ≡ self.now.id }
        requires room { 0 < pass.old.room }
        requires allowed { R.may_draw pass.old.number (Some held.old.place) event }
        requires out { out_of held.old.place pass.old.places ≡ Some held.old.taken }
        requires lawful { R.lawful (seen_at held.old.place pass.old.places ++ event ∷ []) }
        ensures held { held.new ≡ held.old }
        ensures draws { Draws result (Some held.old.place) event pass.old pass.new }
        ensures more { HasSeenMore held.old.place event pass.old pass.new }
    {
        self.stamp::<Brand>(pass, Some(held.place), event)
    }
}
