//! The calls of the lock on a small record, on one thread and on two.

ghost use Rattle.std.specs.Prelude.{◌≡◌, ◌+◌, ◌<◌, ◌≤◌, [], vec_len, Some, IfOk};
ghost use Rattle.init_lock.specs.Known.{seen_at, out_of, IsAway, IsAwayBut, IsSamePass};

use init_lock::{Closed, GaveUp, Held, InitTable, Journal, Keeps, Pass, merge};
use std::alloc::{AllocError, Global};
use std::sync::Wait;
use std::thread::{Threads, join};

/// A record that keeps a list of numbers. Every pass may draw every number, and 9 settles its place.
#[derive(Drop)]
pub struct Numbers {
    pub events: Vec<u64>,
}

impl Keeps for Numbers {
    type Event = u64;

    type Text = ();

    ghost use Rattle.std.specs.Prelude.{eqb, None};

    ghost unpacked = { λ word text. word };

    ghost is_packed = { λ word text. Unit {0} };

    ghost kept = { λ r. r.events.items };

    ghost may_draw = { λ by place event. Unit {0} };

    ghost settles = { λ event. eqb event 9 };

    ghost lawful = { λ events. Unit {0} };

    ghost lawful_at_first = { tt };

    ghost leans_on = { λ event. None };

    ghost follows = { λ x y. Unit {0} };

    ghost follows_itself = { λ x. tt };

    ghost follows_on = { λ x y z p q. tt };

    fn pack(event: u64) -> (u64, Option<()>) {
        (event, None)
    }

    fn unpack(word: u64, _text: Option<()>) -> u64
        ensures { result ≡ word }
    {
        word
    }
}

fn empty(alloc: Global) -> Numbers
    ensures { result.events.items ≡ [] }
{
    Numbers {
        events: Vec::new(alloc),
    }
}

// Draws a number on a record that the pass has, writes it into the record and gives the record back.
// The answer is false where the record had no memory: then it goes back as it was taken.
fn draw_and_give_back(
    table: &InitTable<Numbers>,
    pass: &mut Pass<Numbers>,
    mut held: Held<Numbers>,
    event: u64,
) -> bool
    requires table { pass.old.table ≡ table.now.id }
    requires room { 0 < pass.old.room }
    requires out { out_of held.place pass.old.places ≡ Some held.taken }
    requires untouched { held.kept.events.items ≡ seen_at held.place pass.old.places }
    ensures pass { IsSamePass pass.old pass.new }
    ensures away { IsAwayBut held.place pass.old.places → IsAway pass.new.places }
    ensures room { pass.old.room ≤ pass.new.room + 1 }
{
    if held.kept().events.push(event).is_err() {
        table.give_back(pass, held);
        return false;
    }
    table.draw_held(pass, &mut held, event);
    table.give_back(pass, held);
    true
}

// Draws a number on a record, which is taken by one try.
// The answer is how many numbers the record kept before, or `None` where it wasn't free or had no memory.
fn draw_on(
    table: &InitTable<Numbers>,
    pass: &mut Pass<Numbers>,
    place: usize,
    event: u64,
) -> Option<usize>
    requires table { pass.old.table ≡ table.now.id }
    requires place { place < table.now.places }
    requires room { 0 < pass.old.room }
    requires away { IsAway pass.old.places }
    ensures pass { IsSamePass pass.old pass.new }
    ensures away { IsAway pass.new.places }
    ensures room { pass.old.room ≤ pass.new.room + 1 }
{
    let mut held = table.try_take(pass, place)?;
    let before = held.kept().events.len();
    if draw_and_give_back(table, pass, held, event) {
        Some(before)
    } else {
        None
    }
}

// Two records that keep nothing, and two passes with room for so many events each.
fn two_of_each(
    alloc: Global,
    room: usize,
) -> Result<(InitTable<Numbers>, Pass<Numbers>, Pass<Numbers>), AllocError>
    requires { room < 1000 }
    ensures places { IfOk result (λ t. t.0.places ≡ 2) }
    ensures threads { IfOk result (λ t. t.0.threads ≡ 2) }
    ensures first { IfOk result (λ t. (t.1.number ≡ 0) × (t.1.table ≡ t.0.id) × (t.1.room ≡ room) × IsAway t.1.places) }
    ensures second { IfOk result (λ t. (t.2.number ≡ 1) × (t.2.table ≡ t.0.id) × (t.2.room ≡ room) × IsAway t.2.places) }
{
    let records = vec![in alloc; empty(alloc), empty(alloc)]?;
    let (table, mut passes) = InitTable::new(alloc, records, 2)?;
    let Some(mut second) = passes.pop() else {
        unreachable!()
    };
    let Some(mut first) = passes.pop() else {
        unreachable!()
    };
    first.reserve(room)?;
    second.reserve(room)?;
    Ok((table, first, second))
}

// Ends a table of two passes.
fn finish_both(
    alloc: Global,
    table: InitTable<Numbers>,
    first: Pass<Numbers>,
    second: Pass<Numbers>,
) -> Result<Closed<Numbers>, AllocError>
    requires threads { table.threads ≡ 2 }
    requires first { (first.number ≡ 0) × (first.table ≡ table.id) × IsAway first.places }
    requires second { (second.number ≡ 1) × (second.table ≡ table.id) × IsAway second.places }
    ensures records { IfOk result (λ c. vec_len c.records ≡ table.places) }
    ensures journals { IfOk result (λ c. vec_len c.journals ≡ 2) }
{
    let passes = vec![in alloc; first, second]?;
    Ok(table.finish(passes))
}

// Draws on the first record by the first pass, on none by it, and then on the first record by the second pass.
fn draws(table: &InitTable<Numbers>, first: &mut Pass<Numbers>, second: &mut Pass<Numbers>) -> bool
    requires places { table.now.places ≡ 2 }
    requires first { (first.old.table ≡ table.now.id) × (first.old.room ≡ 4) × IsAway first.old.places }
    requires second { (second.old.table ≡ table.now.id) × (second.old.room ≡ 4) × IsAway second.old.places }
    ensures first { IsSamePass first.old first.new × IsAway first.new.places }
    ensures second { IsSamePass second.old second.new × IsAway second.new.places }
{
    let is_first = draw_on(table, first, 0, 5) == Some(0);
    let is_next = table.draw(first, 6) == 1;
    let is_last = draw_on(table, second, 0, 7) == Some(1);
    is_first && is_next && is_last
}

// An event as it was drawn: its stamp, the place of its record, and the number.
type Drawn = (u64, Option<usize>, u64);

// Whether a journal has these events alone, from the last one.
fn is_of(journal: &mut Journal<Numbers>, drawn: &[Drawn]) -> bool {
    if journal.len() != drawn.len() || journal.is_empty() {
        return false;
    }
    for (stamp, place, event) in drawn {
        match journal.pop() {
            Some(last) if last.stamp == *stamp && last.place == *place && last.event == *event => {}
            _ => return false,
        }
    }
    journal.pop().is_none() && journal.is_empty()
}

// Whether the journals are those of these passes.
fn are_of(journals: &mut [Journal<Numbers>], first: &[Drawn], second: &[Drawn]) -> bool {
    match journals {
        [one, other] => is_of(one, first) && is_of(other, second),
        _ => false,
    }
}

// Whether the first record keeps these numbers, and the second none.
fn are_kept(records: &[Numbers], numbers: &[u64]) -> bool {
    match records {
        [one, other] => one.events.as_slice() == numbers && other.events.is_empty(),
        _ => false,
    }
}

fn two_passes_draw(alloc: Global) -> Result<bool, AllocError> {
    let (table, mut first, mut second) = two_of_each(alloc, 4)?;
    let are_numbered = first.number() == 0 && second.number() == 1;
    let are_drawn = draws(&table, &mut first, &mut second);
    let mut closed = finish_both(alloc, table, first, second)?;
    Ok(
        are_numbered
            && are_drawn
            && are_kept(&closed.records, &[5, 7])
            && are_of(
                &mut closed.journals,
                &[(1, None, 6), (0, Some(0), 5)],
                &[(2, Some(0), 7)],
            ),
    )
}

fn are_merged(alloc: Global) -> Result<bool, AllocError> {
    let (table, mut first, mut second) = two_of_each(alloc, 4)?;
    let are_drawn = draws(&table, &mut first, &mut second);
    let closed = finish_both(alloc, table, first, second)?;
    let merged = merge(alloc, closed.journals)?;
    Ok(are_drawn && merged.as_slice() == [5, 6, 7].as_slice())
}

// Whether a place is done, as a pass sees it.
fn asks(table: &InitTable<Numbers>, pass: &mut Pass<Numbers>, place: usize) -> bool
    requires table { pass.old.table ≡ table.now.id }
    requires place { place < table.now.places }
    requires away { IsAway pass.old.places }
    ensures pass { IsSamePass pass.old pass.new }
    ensures away { IsAway pass.new.places }
    ensures room { pass.new.room ≡ pass.old.room }
{
    if table.is_done(pass, place) {
        return true;
    }
    false
}

// Whether the lock of a place is taken, as one try finds it. A record that is got goes back.
fn is_taken(table: &InitTable<Numbers>, pass: &mut Pass<Numbers>, place: usize) -> bool
    requires table { pass.old.table ≡ table.now.id }
    requires place { place < table.now.places }
    requires away { IsAway pass.old.places }
    ensures pass { IsSamePass pass.old pass.new }
    ensures away { IsAway pass.new.places }
    ensures room { pass.new.room ≡ pass.old.room }
{
    match table.try_take(pass, place) {
        Some(held) => {
            table.give_back(pass, held);
            false
        }
        None => true,
    }
}

// Draws 9 on a record that the pass has, says to all that its place is done, and goes on having the record.
// The answer is false where the record had no memory: then nothing is drawn.
fn publish_on(
    table: &InitTable<Numbers>,
    pass: &mut Pass<Numbers>,
    held: &mut Held<Numbers>,
) -> bool
    requires table { pass.old.table ≡ table.now.id }
    requires room { 0 < pass.old.room }
    requires out { out_of held.old.place pass.old.places ≡ Some held.old.taken }
    requires untouched { held.old.kept.events.items ≡ seen_at held.old.place pass.old.places }
    ensures held { (held.new.place ≡ held.old.place) × (held.new.taken ≡ held.old.taken) }
    ensures keeps { held.new.kept.events.items ≡ seen_at held.old.place pass.new.places }
    ensures pass { IsSamePass pass.old pass.new }
    ensures out { out_of held.old.place pass.new.places ≡ out_of held.old.place pass.old.places }
    ensures away { IsAwayBut held.old.place pass.old.places → IsAwayBut held.old.place pass.new.places }
{
    if held.kept().events.push(9).is_err() {
        return false;
    }
    table.draw_held(pass, held, 9);
    table.publish(pass, held);
    true
}

// Whether the second pass sees the first place done while the first pass still has its record, and not before.
fn is_seen_early(
    table: &InitTable<Numbers>,
    first: &mut Pass<Numbers>,
    second: &mut Pass<Numbers>,
) -> bool
    requires places { table.now.places ≡ 2 }
    requires first { (first.old.table ≡ table.now.id) × (first.old.room ≡ 4) × IsAway first.old.places }
    requires second { (second.old.table ≡ table.now.id) × (second.old.room ≡ 4) × IsAway second.old.places }
    ensures first { IsSamePass first.old first.new × IsAway first.new.places }
    ensures second { IsSamePass second.old second.new × IsAway second.new.places }
{
    let was_done = asks(table, second, 0);
    let Some(mut held) = table.try_take(first, 0) else {
        return false;
    };
    let is_published = publish_on(table, first, &mut held);
    let is_passed = is_taken(table, second, 0) && asks(table, second, 0);
    let is_next = table.draw(second, 6) == 1;
    table.give_back(first, held);
    !was_done && is_published && is_passed && is_next
}

fn is_published_early(alloc: Global) -> Result<bool, AllocError> {
    let (table, mut first, mut second) = two_of_each(alloc, 4)?;
    let is_seen = is_seen_early(&table, &mut first, &mut second);
    let mut closed = finish_both(alloc, table, first, second)?;
    Ok(
        is_seen
            && are_kept(&closed.records, &[9])
            && are_of(&mut closed.journals, &[(0, Some(0), 9)], &[(1, None, 6)]),
    )
}

// Takes the second record, and says whether it was free. Where it was, it goes back.
fn takes<W: Wait>(
    rt: &W,
    table: &InitTable<Numbers>,
    pass: &mut Pass<Numbers>,
    patience: u64,
) -> bool
    requires table { (pass.old.table ≡ table.now.id) × (table.now.places ≡ 2) }
    requires away { IsAway pass.old.places }
    ensures pass { IsSamePass pass.old pass.new }
    ensures away { IsAway pass.new.places }
{
    match table.take(rt, pass, 1, patience) {
        Ok(held) => {
            table.give_back(pass, held);
            true
        }
        Err(GaveUp) => false,
    }
}

// Whether the second pass gives up while the first has the record, and then takes it.
fn is_given_up<W: Wait>(
    rt: &W,
    table: &InitTable<Numbers>,
    first: &mut Pass<Numbers>,
    second: &mut Pass<Numbers>,
) -> bool
    requires places { table.now.places ≡ 2 }
    requires first { (first.old.table ≡ table.now.id) × IsAway first.old.places }
    requires second { (second.old.table ≡ table.now.id) × IsAway second.old.places }
{
    let Ok(held) = table.take(rt, first, 1, 0) else {
        unreachable!()
    };
    let gave_up = !takes(rt, table, second, 3);
    table.give_back(first, held);
    gave_up && takes(rt, table, second, 1)
}

fn gives_up<W: Wait>(rt: &W, alloc: Global) -> Result<bool, AllocError> {
    let (table, mut first, mut second) = two_of_each(alloc, 1)?;
    Ok(is_given_up(rt, &table, &mut first, &mut second))
}

// Draws a number on record 0, some times.
fn draw_often<W: Wait>(
    rt: &W,
    table: &InitTable<Numbers>,
    mut pass: Pass<Numbers>,
    event: u64,
    rounds: usize,
) -> Pass<Numbers>
    requires table { pass.table ≡ table.now.id }
    requires place { 0 < table.now.places }
    requires room { rounds ≤ pass.room }
    requires away { IsAway pass.places }
    ensures pass { (result.table ≡ pass.table) × (result.number ≡ pass.number) }
    ensures away { IsAway result.places }
{
    let mut left = rounds;
    while left > 0 {
        left -= 1;
        let Ok(held) = table.take(rt, &mut pass, 0, 0) else {
            unreachable!()
        };
        draw_and_give_back(table, &mut pass, held, event);
    }
    pass
}

// Whether two threads that draw on the first record draw all their numbers.
fn two_take<R: Threads + Wait + Sync>(rt: &R, alloc: Global) -> Result<bool, AllocError> {
    let (table, first, second) = two_of_each(alloc, 100)?;
    let (first, second) = join(
        rt,
        || -> Pass<Numbers>
            requires { (first.table ≡ table.id) × (0 < table.places) × (100 ≤ first.room) × IsAway first.places }
            ensures { (result.table ≡ first.table) × (result.number ≡ first.number) × IsAway result.places }
        { draw_often(rt, &table, first, 5, 100) },
        || -> Pass<Numbers>
            requires { (second.table ≡ table.id) × (0 < table.places) × (100 ≤ second.room) × IsAway second.places }
            ensures { (result.table ≡ second.table) × (result.number ≡ second.number) × IsAway result.places }
        { draw_often(rt, &table, second, 7, 100) },
    );
    let closed = finish_both(alloc, table, first, second)?;
    let are_drawn = closed.journals[0].len() == 100 && closed.journals[1].len() == 100;
    Ok(are_drawn && closed.records[0].events.len() == 200)
}

#[test]
fn two_passes(rt: HostRuntime) {
    assert!(rt; two_passes_draw(rt.alloc()) == Ok(true));
    assert!(rt; are_merged(rt.alloc()) == Ok(true));
    assert!(rt; gives_up(&rt, rt.alloc()) == Ok(true));
    assert!(rt; two_take(&rt, rt.alloc()) == Ok(true));
}

#[test]
fn published_early(rt: HostRuntime) {
    assert!(rt; is_published_early(rt.alloc()) == Ok(true));
}
