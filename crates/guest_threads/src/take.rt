//! A class's record, taken from its lock and given back.

ghost use Rattle.std.specs.Prelude.{◌≡◌, ◌≢◌, ◌+◌, ◌<◌, ◌++◌, ◌∷◌, [], Some, IfOk, OnErr, true};
ghost use Rattle.init_core.specs.declared.event.TheConstants.{THREADS};
ghost use Rattle.init_lock.specs.Known.{seen_at};
ghost use Rattle.init_core.specs.Label.{is_completion};
ghost use Rattle.init_core.specs.ProcedureWord.{IsOfFiles};
ghost use Rattle.bodies.specs.Writes.{WritesHeld};
ghost use Rattle.guest_threads.specs.Drawing.{MayDraw};
ghost use Rattle.guest_threads.specs.Working.{Works, Took, MayGiveBack, GaveBack, IsUnmoved, drawn};

use crate::guarded::Guarded;
use hierarchy::{ClassId, Program};
use init_core::Event;
use init_lock::{GaveUp, Held, InitTable, Pass};
use std::sync::Wait;

/// Takes the record of a class from its initialization lock (JLS SE 8 12.4.2 step 1), with so many tries; 0 is without
/// limit.
pub(crate) fn take_record<W: Wait>(
    rt: &W,
    program: &Program,
    table: &InitTable<Guarded>,
    pass: &mut Pass<Guarded>,
    class: ClassId,
    patience: u64,
) -> Result<Held<Guarded>, GaveUp>
    requires works { Works program.now table.now pass.old.number pass.old }
    requires class { IsOfFiles program.now class }
    ensures took { IfOk result (λ h. Took program.now class pass.old pass.new h) }
    ensures patient { OnErr result (patience ≢ 0) }
    ensures gave_up { OnErr result (IsUnmoved pass.old pass.new) }
    ensures room { OnErr result (pass.new.room ≡ pass.old.room) }
{
    let taken = table.take(rt, pass, class.number, patience);
    let mut held = taken?;
    held.kept().record.is_lawful();
    Ok(held)
}

/// Draws the event that a record was given, says that the class is initialized where it is step 10, and gives the record back.
pub(crate) fn give_back_with(
    table: &InitTable<Guarded>,
    pass: &mut Pass<Guarded>,
    mut held: Held<Guarded>,
    event: Event,
    settles: bool,
)
    requires back { MayGiveBack table.now pass.old held (seen_at held.place pass.old.places ++ event ∷ []) }
    requires settles { settles ≡ true → is_completion event ≡ true }
    requires room { 0 < pass.old.room }
    requires allowed { MayDraw pass.old.number (Some held.place) event }
    requires writes { WritesHeld held.taken.record.fields event }
    ensures back { GaveBack held.place held.kept.record.events pass.old pass.new }
    ensures journal { drawn pass.new.journal ≡ drawn pass.old.journal ++ event ∷ [] }
    ensures room { pass.new.room + 1 ≡ pass.old.room }
{
    held.kept().record.is_lawful();
    table.draw_held(pass, &mut held, event);
    if settles {
        table.publish(pass, &mut held);
    }
    table.give_back(pass, held);
}

/// Gives a record back as it was found.
pub(crate) fn give_back_untouched(
    table: &InitTable<Guarded>,
    pass: &mut Pass<Guarded>,
    held: Held<Guarded>,
)
    requires back { MayGiveBack table.now pass.old held (seen_at held.place pass.old.places) }
    ensures back { GaveBack held.place held.kept.record.events pass.old pass.new }
    ensures journal { pass.new.journal ≡ pass.old.journal }
    ensures room { pass.new.room ≡ pass.old.room }
{
    table.give_back(pass, held);
}

/// Gives a record back as it was found, with a note that the thread sleeps until the class is ended.
pub(crate) fn give_back_asleep(
    table: &InitTable<Guarded>,
    pass: &mut Pass<Guarded>,
    mut held: Held<Guarded>,
    thread: usize,
)
    requires thread { thread < THREADS }
    requires back { MayGiveBack table.now pass.old held (seen_at held.place pass.old.places) }
    ensures back { GaveBack held.place held.kept.record.events pass.old pass.new }
    ensures journal { pass.new.journal ≡ pass.old.journal }
    ensures room { pass.new.room ≡ pass.old.room }
{
    let guarded = held.kept();
    guarded.sleepers |= 1 << thread;
    table.give_back(pass, held);
}
