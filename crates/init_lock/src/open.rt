//! How a table is made.
ghost use Rattle.std.specs.Prelude.{◌≡◌, ◌+◌, ◌-◌, ◌*◌, ◌^◌, ◌<◌, ◌≤◌, [], length, map, vec_len, Some, IfOk};
ghost use Rattle.std.specs.List.{AllByRecursion};
ghost use Rattle.init_lock.specs.Rule.{newcomers};
ghost use Rattle.init_lock.specs.Known.{IsNewPass};
ghost use Rattle.init_lock.specs.Closing.{numbers};

use crate::block::Block;
use crate::journal::Journal;
use crate::keeps::Keeps;
use crate::pass::Pass;
use crate::rule::{LockRule, OnePass, View};
use crate::slot::Slot;
use crate::table::InitTable;
use crate::views::Setup;
use atomic_table::{Seat, Shared, Table};
use crossbeam_utils::CachePadded;
use std::alloc::{AllocError, Global};
use std::snapshot::Snapshot;

type LockTable<R> = Table<Slot<R>, View<R, <R as Keeps>::Event>, Setup<R>, LockRule<R>, Global>;

impl<R: Keeps> InitTable<R> {
    /// A table of the records, each free, and one pass for each thread, numbered from 0 on.
    ///
    /// There may be up to 16 threads, and the records must keep no events yet. The passes have no room for events.
    pub fn new(
        alloc: Global,
        records: Vec<R>,
        threads: usize,
    ) -> Result<(InitTable<R>, Vec<Pass<R>>), AllocError>
        requires threads { threads ≤ 16 }
        requires records { AllByRecursion (λ r. R.kept r ≡ []) records.items }
        ensures places { IfOk result (λ t. t.0.places ≡ vec_len records) }
        ensures threads { IfOk result (λ t. t.0.threads ≡ threads) }
        ensures numbers { IfOk result (λ t. map (λ p. p.number) t.1.items ≡ numbers 0 threads) }
        ensures passes { IfOk result (λ t. AllByRecursion (IsNewPass t.0.id records.items) t.1.items) }
    {
        let places = records.len();
        // The words of so many places fit no memory.
        if places > usize::MAX / 128 {
            return Err(AllocError);
        }
        let (table, seat) = lay(alloc, records, threads)?;
        let passes = deal(alloc, &table.shared, seat, threads)?;
        let made = with_room(alloc, table, places, threads)?;
        Ok((made, passes))
    }
}

// The words and the slots, and the first seat, which has the views of all passes.
fn lay<R: Keeps>(
    alloc: Global,
    records: Vec<R>,
    threads: usize,
) -> Result<(LockTable<R>, Seat<Slot<R>, View<R, R::Event>>), AllocError>
    requires threads { threads ≤ 16 }
    requires few { vec_len records < 2 ^ 58 }
    requires records { AllByRecursion (λ r. R.kept r ≡ []) records.items }
    ensures words { IfOk result (λ t. t.0.shared.table_id.words ≡ vec_len records * 9 + 8) }
    ensures slots { IfOk result (λ t. t.0.shared.table_id.slots ≡ vec_len records) }
    ensures key { IfOk result (λ t. (t.0.shared.key.threads ≡ threads) × (t.0.shared.key.records.value ≡ records)) }
    ensures seat { IfOk result (λ t. (t.1.table_id ≡ t.0.shared.table_id) × (t.1.me ≡ (newcomers 0 threads records.items, []))) }
{
    let setup = Setup {
        threads,
        records: Snapshot::of(&records),
    };
    let words = vec![in alloc; 0; records.len() * 9 + 8]?;
    let slots = shelve(alloc, records)?;
    match Table::new(alloc, words.as_slice(), slots, &setup) {
        Ok(laid) => Ok(laid),
        Err(_) => Err(AllocError),
    }
}

// The table with room for what `finish` gives out.
fn with_room<R: Keeps>(
    alloc: Global,
    table: LockTable<R>,
    places: usize,
    threads: usize,
) -> Result<InitTable<R>, AllocError>
    requires few { places < 2 ^ 58 }
    requires words { table.shared.table_id.words ≡ places * 9 + 8 }
    requires slots { table.shared.table_id.slots ≡ places }
    requires threads { table.shared.key.threads ≡ threads }
    ensures { IfOk result (λ t. t ≡ record { id = table.shared.table_id; places = places; threads = threads }) }
{
    let records = Vec::with_capacity(alloc, places)?;
    let journals = Vec::with_capacity(alloc, threads)?;
    Ok(InitTable {
        table,
        places,
        threads,
        records,
        journals,
    })
}

// Each record in its slot, in a block of its own.
fn shelve<R: Keeps>(alloc: Global, records: Vec<R>) -> Result<Vec<Slot<R>>, AllocError>
    ensures { IfOk result (λ v. v.items ≡ map Some records.items) }
{
    let mut slots = Vec::new(alloc);
    for record in records {
        let block = Block::new(alloc, record)?;
        slots.push(Slot::new(block))?;
    }
    Ok(slots)
}

// The first seat has the views of all passes. Each pass gets its own.
fn deal<R: Keeps>(
    alloc: Global,
    shared: &Shared<Slot<R>, View<R, R::Event>, Setup<R>, LockRule<R>>,
    mut seat: Seat<Slot<R>, View<R, R::Event>>,
    threads: usize,
) -> Result<Vec<Pass<R>>, AllocError>
    requires few { threads ≤ 16 }
    requires table { (seat.table_id ≡ shared.now.table_id) × (0 < shared.now.table_id.words) }
    requires slots { shared.now.table_id.slots ≡ length shared.now.key.records.value.items }
    requires seat { seat.me ≡ (newcomers 0 threads shared.now.key.records.value.items, []) }
    ensures numbers { IfOk result (λ v. map (λ p. p.number) v.items ≡ numbers 0 threads) }
    ensures passes { IfOk result (λ v. AllByRecursion (IsNewPass shared.now.table_id shared.now.key.records.value.items) v.items) }
{
    let mut passes = Vec::new(alloc);
    for number in 0..threads {
        let own = shared.split_seat::<OnePass>(&mut seat);
        passes.push(Pass {
            seat: own,
            number,
            carried: None,
            journal: CachePadded::new(Journal::new(alloc)?),
        })?;
    }
    Ok(passes)
}
