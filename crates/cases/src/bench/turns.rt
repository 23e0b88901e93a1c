//! Times of turns of a world, a turn, beside the same of fewer turns or fewer threads.
//!
//! Threads of a [`World`] take turns one after the other. Their main class ends a chain of classes, each below the one before
//! it. A thread without an open class requests the main class, and one in an initializer ends it, before the turn, so that
//! each turn does something or waits. Either the chain is short, and nearly all turns find the main class initialized (step 4
//! of JLS SE 8 12.4.2); or the turns are those in which one thread initializes a long chain, and the others wait.

ghost use Rattle.std.specs.Prelude.{◌≡◌, ◌<◌, length};

use crate::bench::files::Files;
use crate::bench::harness::{Failure, Row, Watch};
use crate::bench::sample::Sample;
use hierarchy::{ClassId, Program};
use init_world::World;
use std::alloc::{AllocError, Global};
use std::rt::Clock;

/// Twice and four times as many turns as the least; sixteen threads beside two.
pub(crate) const ROWS: &[Row] = &[
    Row {
        what: "turns of 2 threads at an initialized class, beside 50000",
        sample: Sample::Find(2),
        sizes: &[100_000, 200_000],
        most: 1,
        unit: Sample::Find(2),
        unit_size: Some(50_000),
        repeats: 20,
    },
    Row {
        what: "turns of 16 threads at an initialized class, beside 2 threads",
        sample: Sample::Find(16),
        sizes: &[50_000],
        most: 1,
        unit: Sample::Find(2),
        unit_size: None,
        repeats: 20,
    },
    Row {
        what: "classes of a chain, a turn of 2 threads, beside 128",
        sample: Sample::Climb(2),
        sizes: &[256, 512],
        most: 1,
        unit: Sample::Climb(2),
        unit_size: Some(128),
        repeats: 20,
    },
    Row {
        what: "classes of a chain, a turn of 16 threads, beside 2 threads",
        sample: Sample::Climb(16),
        sizes: &[256],
        most: 1,
        unit: Sample::Climb(2),
        unit_size: None,
        repeats: 20,
    },
];

/// Adds the files of a chain of so many classes.
pub(crate) fn add_files(files: &mut Files, length: usize) {
    files.add_file(b".class C0\n", 0, 0);
    for number in 1..length {
        files.add_file(b".class C#\n.super C@\n", number, number - 1);
    }
}

// Ends the initializer that the thread is in, or requests the main class where it has no class open: else its turn would say
// the same again.
fn go_on(world: &mut World, thread: usize, main: ClassId) -> Result<(), AllocError>
    requires thread { thread < length world.old.threads }
    requires main { main.number < length world.old.program.classes }
    ensures program { world.new.program ≡ world.old.program }
    ensures threads { length world.new.threads ≡ length world.old.threads }
{
    if world.ending_error(thread).is_some() {
        return Ok(());
    }
    if world.is_running(thread) {
        world.body_ended(thread, None);
    } else if world.may_request(thread) {
        world.request(thread, main)?;
    }
    Ok(())
}

fn take_turn(
    alloc: Global,
    program: &Program,
    world: &mut World,
    thread: usize,
    main: ClassId,
) -> Result<(), AllocError>
    requires program { program.now ≡ world.old.program }
    requires thread { thread < length world.old.threads }
    requires main { main.number < length world.old.program.classes }
    ensures program { world.new.program ≡ world.old.program }
    ensures threads { length world.new.threads ≡ length world.old.threads }
{
    go_on(world, thread, main)?;
    if world.has_begun(thread) {
        let _turn = world.turn(alloc, program, thread)?;
    }
    Ok(())
}

// The time of a turn, of so many turns of so many threads, one after the other. The first thread makes an event in each of its turns.
fn turns_time(
    rt: &impl Clock,
    alloc: Global,
    program: &Program,
    world: &mut World,
    threads: usize,
    main: ClassId,
    turns: usize,
) -> Result<u128, Failure>
    requires program { program.now ≡ world.old.program }
    requires threads { (length world.old.threads ≡ threads) × (0 < threads) }
    requires main { main.number < length program.now.classes }
{
    let watch = Watch::start(rt);
    for turn in 0..turns {
        take_turn(alloc, program, world, turn % threads, main)?;
    }
    let share = watch.share(rt, turns)?;
    if world.len() < turns / threads {
        return Err(Failure::Program);
    }
    Ok(share)
}

/// The time of a turn, of so many turns of so many threads, 1 to 16, of a world of their own.
pub(crate) fn time(
    rt: &impl Clock,
    alloc: Global,
    program: &Program,
    threads: usize,
    turns: usize,
) -> Result<u128, Failure> {
    let classes = program.len();
    if classes == 0 {
        return Err(Failure::Program);
    }
    let main = ClassId {
        number: classes - 1,
    };
    let threads = threads.clamp(1, 16);
    match World::new(alloc, program, threads) {
        Ok(mut world) => turns_time(rt, alloc, program, &mut world, threads, main, turns),
        Err(_) => Err(Failure::Memory),
    }
}
