//! Rounds on a table: take, add to the history, draw, give back.
ghost use Rattle.std.specs.Prelude.{◌≡◌, ◌+◌, ◌<◌, ◌≤◌, Some};
ghost use Rattle.std.specs.List.{AllByRecursion};
ghost use Rattle.init_lock.specs.Known.{seen_at, out_of, IsAway, IsAwayBut, IsSamePass};
ghost use Rattle.cases.specs.Ready.{IsReady};

use crate::bench::history::History;
use init_lock::{Held, InitTable, Pass};
use std::alloc::AllocError;
use std::sync::Wait;
use std::thread;
use std::thread::Threads;

/// On which of 32 records up to four threads draw.
pub(crate) enum Records {
    /// All on the first.
    One,
    /// Each on one of its own, and these are neighbours.
    Neighbours,
    /// Each on one of its own, and these are eight places apart.
    Apart,
}

impl Records {
    // The place of the record on which the pass of a number draws.
    fn place(&self, number: usize) -> usize
        ensures { result < 32 }
    {
        let nth = number % 4;
        match self {
            Records::One => 0,
            Records::Neighbours => nth,
            Records::Apart => nth * 8,
        }
    }

    /// How many of so many threads draw on each record that is drawn on.
    pub(crate) fn sharers(&self, threads: usize) -> usize {
        match self {
            Records::One => threads,
            Records::Neighbours | Records::Apart => 1,
        }
    }
}

// Draws an event on a record that the pass has, and gives the record back.
fn tick(table: &InitTable<History>, pass: &mut Pass<History>, mut held: Held<History>, event: u64)
    requires table { pass.old.table ≡ table.now.id }
    requires room { 0 < pass.old.room }
    requires out { out_of held.place pass.old.places ≡ Some held.taken }
    requires untouched { held.kept.events.items ≡ seen_at held.place pass.old.places }
    ensures pass { IsSamePass pass.old pass.new }
    ensures away { IsAwayBut held.place pass.old.places → IsAway pass.new.places }
    ensures room { pass.old.room ≤ pass.new.room + 1 }
{
    if held.kept().events.push(event).is_ok() {
        table.draw_held(pass, &mut held, event);
    }
    table.give_back(pass, held);
}

// Ticks on one record, waiting for its lock.
fn often<W: Wait>(
    rt: &W,
    table: &InitTable<History>,
    pass: &mut Pass<History>,
    place: usize,
    rounds: usize,
)
    requires table { pass.old.table ≡ table.now.id }
    requires place { place < table.now.places }
    requires room { rounds ≤ pass.old.room }
    requires away { IsAway pass.old.places }
    ensures pass { IsSamePass pass.old pass.new }
    ensures away { IsAway pass.new.places }
{
    let mut left = rounds;
    while left > 0 {
        left -= 1;
        let Ok(held) = table.take(rt, pass, place, 0) else {
            unreachable!()
        };
        tick(table, pass, held, left as u64);
    }
}

// The rounds of one thread, on its record.
fn rounds_of<W: Wait>(
    rt: &W,
    table: &InitTable<History>,
    mut pass: Pass<History>,
    records: &Records,
    rounds: usize,
) -> Result<(), AllocError>
    requires pass { IsReady table.now.id pass }
    requires places { table.now.places ≡ 32 }
{
    pass.reserve(rounds)?;
    let place = records.place(pass.number());
    often(rt, table, &mut pass, place, rounds);
    Ok(())
}

// A thread for each pass makes so many rounds.
pub(crate) fn in_threads<R: Threads + Wait + Sync>(
    rt: &R,
    table: &InitTable<History>,
    passes: Vec<Pass<History>>,
    records: &Records,
    rounds: usize,
) -> Result<(), AllocError>
    requires passes { AllByRecursion (IsReady table.now.id) passes.items }
    requires places { table.now.places ≡ 32 }
{
    let ends = thread::map_vec(
        rt,
        passes,
        &|pass: Pass<History>| -> Result<(), AllocError>
            requires { IsReady table.now.id pass × (table.now.places ≡ 32) }
        { rounds_of(rt, table, pass, records, rounds) },
    )?;
    for end in ends {
        end?;
    }
    Ok(())
}
