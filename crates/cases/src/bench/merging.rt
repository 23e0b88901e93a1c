//! Merging of journals, an event: sixteen passes draw in no pattern, so that nothing foretells from which journal the next event comes.

ghost use Rattle.std.specs.Prelude.{◌≡◌, IfOk, map};
ghost use Rattle.std.specs.List.{AllByRecursion};
ghost use Rattle.init_lock.specs.Known.{IsAway};

use crate::bench::harness::{Failure, Watch};
use crate::bench::history::{History, histories};
use init_lock::{InitTable, Journal, Pass, merge};
use std::alloc::{AllocError, Global};
use std::rt::Clock;

// How many passes draw.
const PASSES: usize = 16;

// In a turn one pass in so many draws.
const RARITY: usize = 4;

// The next number of a row in no pattern (a linear congruential generator, by Knuth's numbers).
fn next_number(number: u64) -> u64 {
    number
        .wrapping_mul(6_364_136_223_846_793_005)
        .wrapping_add(1_442_695_040_888_963_407)
}

// A turn: each pass draws an event or none, as the next number says.
fn draw_some(
    alloc: Global,
    table: &InitTable<History>,
    passes: Vec<Pass<History>>,
    number: &mut u64,
) -> Result<Vec<Pass<History>>, AllocError>
    requires table { AllByRecursion (λ p. p.table ≡ table.now.id) passes.items }
    requires away { AllByRecursion (λ p. IsAway p.places) passes.items }
    ensures table { IfOk result (λ v. AllByRecursion (λ p. p.table ≡ table.now.id) v.items) }
    ensures away { IfOk result (λ v. AllByRecursion (λ p. IsAway p.places) v.items) }
    ensures numbers { IfOk result (λ v. map (λ p. p.number) v.items ≡ map (λ p. p.number) passes.items) }
{
    let mut drawn = Vec::with_capacity(alloc, PASSES)?;
    for mut pass in passes {
        *number = next_number(*number);
        if (*number >> 32) % RARITY as u64 == 0 {
            pass.reserve(1)?;
            table.draw(&mut pass, 0);
        }
        drawn.push(pass)?;
    }
    Ok(drawn)
}

// The passes draw about so many events each.
fn draw_all(
    alloc: Global,
    table: &InitTable<History>,
    mut passes: Vec<Pass<History>>,
    events: usize,
) -> Result<Vec<Pass<History>>, AllocError>
    requires table { AllByRecursion (λ p. p.table ≡ table.now.id) passes.items }
    requires away { AllByRecursion (λ p. IsAway p.places) passes.items }
    ensures table { IfOk result (λ v. AllByRecursion (λ p. p.table ≡ table.now.id) v.items) }
    ensures away { IfOk result (λ v. AllByRecursion (λ p. IsAway p.places) v.items) }
    ensures numbers { IfOk result (λ v. map (λ p. p.number) v.items ≡ map (λ p. p.number) passes.items) }
{
    let mut number = 0;
    for _ in 0..events.saturating_mul(RARITY) {
        passes = draw_some(alloc, table, passes, &mut number)?;
    }
    Ok(passes)
}

// The journals of sixteen passes that drew about so many events each.
fn journals(alloc: Global, events: usize) -> Result<Vec<Journal<History>>, AllocError> {
    let (table, passes) = InitTable::new(alloc, histories(alloc, 1, 0)?, PASSES)?;
    let drawn = draw_all(alloc, &table, passes, events)?;
    Ok(table.finish(drawn).journals)
}

/// The time of an event, where sixteen journals with about so many events each are merged.
pub(crate) fn time(rt: &impl Clock, alloc: Global, events: usize) -> Result<u128, Failure> {
    let journals = journals(alloc, events)?;
    let watch = Watch::start(rt);
    let merged = merge(alloc, journals)?;
    watch.share(rt, merged.len())
}
