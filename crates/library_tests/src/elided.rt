//! A class that is initialized and published is passed by another thread while its record is still out.

ghost use Rattle.std.specs.Prelude.{◌≡◌, ◌+◌, ◌<◌, ◌≤◌, ◌++◌, ◌∷◌, [], length, vec_len, Some, IfOk, true};
ghost use Rattle.init_lock.specs.Known.{seen_at, IsAway};
ghost use Rattle.guest_threads.specs.Drawing.{MayDraw};
ghost use Rattle.guest_threads.specs.Working.{MayBegin};
ghost use Rattle.library_tests.specs.InHand.{IsInHand};

use crate::steps::{Step, step_of};
use bodies::{Limits, NoCode, ThreadOutcome};
use guest_threads::{Common, Guarded, NoGate, run_one};
use hierarchy::{ClassId, Program};
use init_core::{ClassRecord, Decision, Event, Kind, Label};
use init_lock::{Closed, Held, InitTable, Journal, Pass};
use std::alloc::{AllocError, Global};
use std::sync::Wait;

/// A table over the record of a program's one class, and two passes. The first has room for three events.
fn table_of_one(
    alloc: Global,
    program: &Program,
) -> Result<(InitTable<Guarded>, Pass<Guarded>, Pass<Guarded>), AllocError>
    requires { length program.now.classes ≡ 1 }
    ensures places { IfOk result (λ t. t.0.places ≡ 1) }
    ensures threads { IfOk result (λ t. t.0.threads ≡ 2) }
    ensures first { IfOk result (λ t. (t.1.number ≡ 0) × (t.1.room ≡ 3) × MayBegin program.now t.0 t.1) }
    ensures second { IfOk result (λ t. (t.2.number ≡ 1) × MayBegin program.now t.0 t.2) }
{
    let record = ClassRecord::new(alloc, program, ClassId { number: 0 })?;
    let records = vec![in alloc;
        Guarded {
            record,
            sleepers: 0
        },
    ]?;
    let (table, mut passes) = InitTable::new(alloc, records, 2)?;
    let Some(second) = passes.pop() else {
        unreachable!()
    };
    let Some(mut first) = passes.pop() else {
        unreachable!()
    };
    first.reserve(3)?;
    Ok((table, first, second))
}

/// Draws the event that the record was given.
fn draw_given(
    table: &InitTable<Guarded>,
    pass: &mut Pass<Guarded>,
    held: &mut Held<Guarded>,
    event: Event,
)
    requires hand { IsInHand table.now pass.old held.old (seen_at 0 pass.old.places ++ event ∷ []) }
    requires room { 0 < pass.old.room }
    requires allowed { MayDraw 0 (Some 0) event }
    ensures hand { IsInHand table.now pass.new held.new (seen_at 0 pass.new.places) }
    ensures seen { seen_at 0 pass.new.places ≡ seen_at 0 pass.old.places ++ event ∷ [] }
    ensures room { pass.new.room + 1 ≡ pass.old.room }
{
    held.kept().record.is_lawful();
    table.draw_held(pass, held, event);
}

/// Step 6, where the class is prepared and there is memory for it.
fn begin(table: &InitTable<Guarded>, pass: &mut Pass<Guarded>, held: &mut Held<Guarded>) -> bool
    requires hand { IsInHand table.now pass.old held.old (seen_at 0 pass.old.places) }
    requires room { 0 < pass.old.room }
    ensures hand { IsInHand table.now pass.new held.new (seen_at 0 pass.new.places) }
    ensures room { result ≡ true → pass.new.room + 1 ≡ pass.old.room }
{
    let record = &mut held.kept().record;
    let Label::Prepared = record.label() else {
        return false;
    };
    let entered = record.enter(0);
    let Ok(Decision::Begins) = entered else {
        return false;
    };
    let event = Event::new(0, ClassId { number: 0 }, Kind::Begins);
    draw_given(table, pass, held, event);
    true
}

/// Step 10, where the class is in progress by thread 0, and the notice that it is initialized.
fn complete(table: &InitTable<Guarded>, pass: &mut Pass<Guarded>, held: &mut Held<Guarded>) -> bool
    requires hand { IsInHand table.now pass.old held.old (seen_at 0 pass.old.places) }
    requires room { 0 < pass.old.room }
    ensures hand { IsInHand table.now pass.new held.new (seen_at 0 pass.new.places) }
{
    let record = &mut held.kept().record;
    let Label::InProgress(0) = record.label() else {
        return false;
    };
    record.complete(0);
    let event = Event::new(0, ClassId { number: 0 }, Kind::Completes);
    draw_given(table, pass, held, event);
    table.publish(pass, held);
    true
}

/// Whether thread 0 initializes the class, by steps 6, 9 and 10. It keeps the record.
fn initializes(
    table: &InitTable<Guarded>,
    pass: &mut Pass<Guarded>,
    held: &mut Held<Guarded>,
) -> bool
    requires hand { IsInHand table.now pass.old held.old (seen_at 0 pass.old.places) }
    requires room { 3 ≤ pass.old.room }
    ensures hand { IsInHand table.now pass.new held.new (seen_at 0 pass.new.places) }
{
    if !begin(table, pass, held) {
        return false;
    }
    let event = Event::new(0, ClassId { number: 0 }, Kind::Runs);
    table.draw(pass, event);
    complete(table, pass, held)
}

/// Ends a table of two passes.
fn finish_both(
    alloc: Global,
    table: InitTable<Guarded>,
    first: Pass<Guarded>,
    second: Pass<Guarded>,
) -> Result<Closed<Guarded>, AllocError>
    requires threads { table.threads ≡ 2 }
    requires first { (first.number ≡ 0) × (first.table ≡ table.id) × IsAway first.places }
    requires second { (second.number ≡ 1) × (second.table ≡ table.id) × IsAway second.places }
    ensures journals { IfOk result (λ c. vec_len c.journals ≡ 2) }
{
    let passes = vec![in alloc; first, second]?;
    Ok(table.finish(passes))
}

/// Whether it has one event alone: a step 4 of thread 1, drawn without the record, after three others.
fn is_step_4(journal: &mut Journal<Guarded>) -> bool {
    if journal.len() != 1 {
        return false;
    }
    match journal.pop() {
        Some(last) => {
            let is_found = matches!(step_of(&last.event), Step::FindsInitialized);
            is_found && last.event.thread() == 1 && last.place.is_none() && last.stamp == 3
        }
        None => false,
    }
}

/// Whether a thread passes the program's one class by a step 4 alone, with a single look, while another one, which has initialized
/// it, has its record.
fn passes<W: Wait>(rt: &W, alloc: Global, program: &Program) -> Result<bool, AllocError>
    requires { length program.now.classes ≡ 1 }
{
    let (table, mut first, second) = table_of_one(alloc, program)?;
    let taken = table.take(rt, &mut first, 0, 0);
    let Ok(mut held) = taken else { unreachable!() };
    let is_initialized = initializes(&table, &mut first, &mut held);
    let limits = Limits {
        patience: 1,
        ..Limits::USUAL
    };
    let main = ClassId { number: 0 };
    let common = Common::new(());
    let worked = run_one(
        rt,
        alloc,
        program,
        &(),
        &table,
        limits,
        &NoGate,
        main,
        second,
        NoCode,
        &common,
    );
    table.give_back(&mut first, held);
    let is_normal = worked.outcome == ThreadOutcome::Normal;
    let mut closed = finish_both(alloc, table, first, worked.pass)?;
    Ok(is_initialized && is_normal && is_step_4(&mut closed.journals[1]))
}

/// The same, of a program that must have one class.
pub(crate) fn is_passed<W: Wait>(rt: &W, alloc: Global, program: &Program) -> bool {
    program.len() == 1 && passes(rt, alloc, program) == Ok(true)
}
