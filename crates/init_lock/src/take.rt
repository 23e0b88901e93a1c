//! A lock taken by trying again.
ghost use Rattle.std.specs.Prelude.{◌≡◌, ◌≢◌, ◌+◌, ◌<◌, IfSome, IfNone, OnSome, IfOk, OnOk, OnErr};
ghost use Rattle.init_lock.specs.Taken.{Taken};

use crate::keeps::Keeps;
use crate::pass::{Held, Pass};
use crate::table::InitTable;
use std::sync::Wait;
use std::{hint, thread};
use thiserror::Error;

/// How often in a row a thread looks again at a lock that it found taken, before it lets others run. A lock is mostly free
/// again after less time than it takes to ask the operating system for another thread.
pub const LOOKS_IN_A_ROW: u32 = 8;

/// The lock was found taken as often as the patience allows.
#[derive(Debug, Drop, Error)]
#[error("a lock was found taken as often as the patience allows")]
pub struct GaveUp;

impl<R: Keeps> InitTable<R> {
    // A try that looks first leaves the lock word's cache line where it is while another pass has the record.
    fn look_and_try(&self, pass: &mut Pass<R>, place: usize) -> Option<Held<R>>
        requires table { pass.old.table ≡ self.now.id }
        requires place { place < self.now.places }
        ensures misses { OnSome result (pass.new.misses ≡ pass.old.misses) }
        ensures taken { IfSome result (Taken R.kept R.may_draw R.settles R.follows place pass.old pass.new) }
        ensures none { IfNone result (pass.new ≡ record pass.old { misses = pass.old.misses + 1 }) }
    {
        if !self.is_free(pass, place) {
            return None;
        }
        self.try_take(pass, place)
    }

    /// Takes the record of a place, trying its lock again until it is free (JLS SE 8 12.4.2 step 1, JVMS SE 8 5.5
    /// step 1).
    ///
    /// `patience` is the number of tries, and 0 is without limit: then it may wait for ever, and never gives up. It gives
    /// up once it has found the lock taken exactly so often, and the pass counts these misses.
    /// What it finds is what [`InitTable::try_take`] says. Each try after the first looks before it exchanges. Between two
    /// tries the thread waits as long as the processor's hint for such loops takes, and now and then it lets others run.
    #[inline]
    pub fn take<W: Wait>(
        &self,
        rt: &W,
        pass: &mut Pass<R>,
        place: usize,
        patience: u64,
    ) -> Result<Held<R>, GaveUp>
        requires table { pass.old.table ≡ self.now.id }
        requires place { place < self.now.places }
        ensures taken { IfOk result (Taken R.kept R.may_draw R.settles R.follows place pass.old pass.new) }
        ensures patient { OnErr result (patience ≢ 0) }
        ensures gave_up { OnErr result (pass.new ≡ record pass.old { misses = pass.old.misses + patience }) }
        ensures misses { patience ≢ 0 → OnOk result (pass.new.misses < pass.old.misses + patience) }
    {
        if let Some(held) = self.try_take(pass, place) {
            return Ok(held);
        }
        if patience == 1 {
            return Err(GaveUp);
        }
        match self.take_later(rt, pass, place, patience.saturating_sub(1)) {
            Ok(held) => Ok(held),
            Err(GaveUp) => Err(GaveUp),
        }
    }

    // The same where the lock was just found taken: each try looks before, after a moment.
    #[cold]
    #[inline(never)]
    fn take_later<W: Wait>(
        &self,
        rt: &W,
        pass: &mut Pass<R>,
        place: usize,
        patience: u64,
    ) -> Result<Held<R>, GaveUp>
        requires table { pass.old.table ≡ self.now.id }
        requires place { place < self.now.places }
        ensures taken { IfOk result (Taken R.kept R.may_draw R.settles R.follows place pass.old pass.new) }
        ensures patient { OnErr result (patience ≢ 0) }
        ensures gave_up { OnErr result (pass.new ≡ record pass.old { misses = pass.old.misses + patience }) }
        ensures misses { patience ≢ 0 → OnOk result (pass.new.misses < pass.old.misses + patience) }
    {
        let mut left = patience;
        let mut looks = 1;
        for _ in rt.forever() {
            looks = pause(looks);
            if let Some(held) = self.look_and_try(pass, place) {
                return Ok(held);
            }
            if left == 1 {
                return Err(GaveUp);
            }
            left = left.saturating_sub(1);
        }
        unreachable!()
    }
}

// Lets a moment pass before the next look at a lock, after so many in a row. The answer counts that look too.
fn pause(looks: u32) -> u32 {
    if looks < LOOKS_IN_A_ROW {
        hint::spin_loop();
        return looks + 1;
    }
    thread::yield_now();
    1
}
