//! Places that are settled for good are passed without their locks.
ghost use Rattle.std.specs.Prelude.{◌≡◌, ◌<◌, MatchBool, Some, true};
ghost use Rattle.init_lock.specs.Known.{seen_at, out_of};
ghost use Rattle.init_lock.specs.Log.{settled};
ghost use Rattle.init_lock.specs.Settled.{KnowsDone};

use crate::keeps::Keeps;
use crate::pass::{Held, Pass};
use crate::seat::{see_done, set_done};
use crate::table::InitTable;

impl<R: Keeps> InitTable<R> {
    /// Says to all passes that a place is settled, while this one has its record. No waiting and no memory.
    ///
    /// An event that settles the place is among those that the record kept when it was taken, or was drawn on it since.
    /// From then on a pass may learn by [`InitTable::is_done`] that the class's initialization has completed, and leave
    /// out its lock (JVMS SE 8 5.5).
    pub fn publish(&self, pass: &mut Pass<R>, held: &mut Held<R>)
        requires table { pass.old.table ≡ self.now.id }
        requires out { out_of held.old.place pass.old.places ≡ Some held.old.taken }
        requires settled { settled R.settles (seen_at held.old.place pass.old.places) ≡ true }
        ensures pass { pass.new ≡ pass.old }
        ensures held { held.new ≡ held.old }
    {
        set_done(
            &self.table.shared,
            &mut pass.seat,
            pass.carried,
            self.places,
            held.place,
        );
    }

    /// Whether a place is settled, as one load sees it, with no lock, no waiting and no memory.
    ///
    /// Where it is, the pass has seen a list of events at the place of which one settles it, and by
    /// [`InitTable::finish`] the stamps that it draws from then on are above those of the list. Where the answer is no, an
    /// event may have settled the place all the same, before its pass published it.
    ///
    /// This is what lets the initialization lock be left out where initialization is known to be complete (JVMS SE 8 5.5).
    pub fn is_done(&self, pass: &mut Pass<R>, place: usize) -> bool
        requires table { pass.old.table ≡ self.now.id }
        requires place { place < self.now.places }
        ensures { MatchBool result (KnowsDone R.may_draw R.settles R.lawful place pass.old pass.new) (pass.new ≡ pass.old) }
    {
        see_done(
            &self.table.shared,
            &mut pass.seat,
            pass.number,
            pass.carried,
            self.places,
            place,
        )
    }
}
