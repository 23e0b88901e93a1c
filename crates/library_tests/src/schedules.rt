//! Every schedule of two threads, as World makes them.

ghost use Rattle.std.specs.Prelude.{◌≡◌, ◌<◌, length, IfOk};

use crate::twin::{Act, Made};
use hierarchy::{BuiltIn, ClassId, Program};
use init_core::{Event, Kind};
use init_world::{Turn, World};
use std::alloc::{AllocError, Global};

/// What a thread does next, where it can.
#[derive(Clone, Copy)]
pub enum Action {
    Goes,
    Requests(usize),
    Returns,
    Throws,
    GivesUp,
}

/// A thread, and what it does.
pub(crate) type Choice = (usize, Action);

/// Two threads, and whether the procedure for the main class of each has completed normally.
#[derive(Drop)]
pub struct Run {
    pub world: World,
    pub in_main: [bool; 2],
}

/// Requests a class, where the program has it and the thread may request one.
fn requests(
    program: &Program,
    world: &mut World,
    thread: usize,
    class: usize,
) -> Result<bool, AllocError>
    requires program { program.now ≡ world.old.program }
    requires thread { thread < length world.old.threads }
    ensures program { world.new.program ≡ world.old.program }
    ensures threads { length world.new.threads ≡ length world.old.threads }
{
    if class >= program.len()
        || !world.may_request(thread)
        || world.ending_error(thread).is_some()
    {
        return Ok(false);
    }
    world.request(thread, ClassId { number: class })?;
    Ok(true)
}

/// Ends a body, where the thread is in one that may end.
fn ends(program: &Program, world: &mut World, thread: usize, throws: bool) -> bool
    requires program { program.now ≡ world.old.program }
    requires thread { thread < length world.old.threads }
    ensures program { world.new.program ≡ world.old.program }
    ensures threads { length world.new.threads ≡ length world.old.threads }
{
    if !world.is_running(thread) || world.ending_error(thread).is_some() {
        return false;
    }
    if throws {
        world.body_ended(thread, Some(program.built_in(BuiltIn::Error)));
    } else {
        world.body_ended(thread, None);
    }
    true
}

/// The machine ends the thread by an InternalError, where it may.
fn gives_up(program: &Program, world: &mut World, thread: usize) -> bool
    requires program { program.now ≡ world.old.program }
    requires thread { thread < length world.old.threads }
    ensures program { world.new.program ≡ world.old.program }
    ensures threads { length world.new.threads ≡ length world.old.threads }
{
    let may = world.may_give_up(thread);
    if may {
        world.give_up(thread, program.built_in(BuiltIn::InternalError));
    }
    may
}

/// Whether the thread may request a class here: its main class first, and from a body, its own or an
/// initializer's.
fn is_word(run: &Run, mains: &[usize; 2], thread: usize, class: usize) -> bool
    requires { thread < length run.now.world.threads }
{
    if run.world.is_running(thread) {
        return true;
    }
    if thread >= 2 {
        return false;
    }
    if run.world.has_begun(thread) {
        run.in_main[thread]
    } else {
        mains[thread] == class
    }
}

/// Does what comes before the turn of a choice, and says whether the thread can do it.
fn prepares(
    program: &Program,
    run: &mut Run,
    mains: &[usize; 2],
    thread: usize,
    action: Action,
) -> Result<bool, AllocError>
    requires program { program.now ≡ run.old.world.program }
    requires thread { thread < length run.old.world.threads }
    ensures program { run.new.world.program ≡ run.old.world.program }
    ensures threads { length run.new.world.threads ≡ length run.old.world.threads }
{
    match action {
        Action::Goes => Ok(true),
        Action::Requests(class) => {
            if !is_word(run, mains, thread, class) {
                return Ok(false);
            }
            requests(program, &mut run.world, thread, class)
        }
        Action::Returns => Ok(ends(program, &mut run.world, thread, false)),
        Action::Throws => Ok(ends(program, &mut run.world, thread, true)),
        Action::GivesUp => Ok(gives_up(program, &mut run.world, thread)),
    }
}

/// A turn of the thread, where a request of it is open or was completed last.
pub(crate) fn turn(
    alloc: Global,
    program: &Program,
    world: &mut World,
    thread: usize,
) -> Result<Turn, AllocError>
    requires program { program.now ≡ world.old.program }
    requires thread { thread < length world.old.threads }
    ensures program { world.new.program ≡ world.old.program }
    ensures threads { length world.new.threads ≡ length world.old.threads }
{
    if !world.has_begun(thread) {
        return Ok(Turn::Waits);
    }
    world.turn(alloc, program, thread)
}

/// Notes that the procedure for the thread's main class has completed normally, where it has.
fn notes_main(
    alloc: Global,
    program: &Program,
    run: &mut Run,
    thread: usize,
) -> Result<(), AllocError>
    requires program { program.now ≡ run.old.world.program }
    requires thread { thread < length run.old.world.threads }
    ensures program { run.new.world.program ≡ run.old.world.program }
    ensures threads { length run.new.world.threads ≡ length run.old.world.threads }
{
    // The thread has no class open here.
    if thread < 2 && run.world.may_request(thread) && !run.world.is_running(thread) {
        if turn(alloc, program, &mut run.world, thread)? == Turn::Normal {
            run.in_main[thread] = true;
        }
    }
    Ok(())
}

/// Makes a choice, where the thread can.
fn makes(
    alloc: Global,
    program: &Program,
    run: &mut Run,
    mains: &[usize; 2],
    thread: usize,
    action: Action,
) -> Result<(), AllocError>
    requires program { program.now ≡ run.old.world.program }
    requires thread { thread < length run.old.world.threads }
    ensures program { run.new.world.program ≡ run.old.world.program }
    ensures threads { length run.new.world.threads ≡ length run.old.world.threads }
{
    if prepares(program, run, mains, thread, action)? {
        turn(alloc, program, &mut run.world, thread)?;
    }
    notes_main(alloc, program, run, thread)
}

/// Makes these choices.
fn makes_all(
    alloc: Global,
    program: &Program,
    run: &mut Run,
    mains: &[usize; 2],
    choices: &[Choice],
) -> Result<(), AllocError>
    requires program { program.now ≡ run.old.world.program }
    requires threads { length run.old.world.threads ≡ 2 }
    ensures program { run.new.world.program ≡ run.old.world.program }
    ensures threads { length run.new.world.threads ≡ 2 }
{
    for choice in choices {
        let (thread, action) = *choice;
        if thread < 2 {
            makes(alloc, program, run, mains, thread, action)?;
        }
    }
    Ok(())
}

/// A new run after these choices.
pub(crate) fn replayed(
    alloc: Global,
    program: &Program,
    mains: &[usize; 2],
    choices: &[Choice],
) -> Result<Run, AllocError>
    ensures program { IfOk result (λ run. run.world.program ≡ program.now) }
    ensures threads { IfOk result (λ run. length run.world.threads ≡ 2) }
{
    let mut run = Run {
        world: World::new(alloc, program, 2)?,
        in_main: [false, false],
    };
    makes_all(alloc, program, &mut run, mains, choices)?;
    Ok(run)
}

/// Which throwable this is, of those that threads meet here.
fn throwable(program: &Program, class: ClassId) -> BuiltIn {
    if class == program.built_in(BuiltIn::Error) {
        BuiltIn::Error
    } else if class == program.built_in(BuiltIn::NoClassDefFoundError) {
        BuiltIn::NoClassDefFoundError
    } else {
        BuiltIn::InternalError
    }
}

fn made_of(program: &Program, event: &Event) -> Result<Made, AllocError> {
    let class = match event.class() {
        Some(class) => class.number,
        None => 0,
    };
    let kind = event.kind()?;
    let act = match &kind {
        Kind::Waits => Act::Waits,
        Kind::Recurs => Act::Recurs,
        Kind::FindsInitialized => Act::FindsInitialized,
        Kind::FindsErroneous => Act::FindsErroneous,
        Kind::Begins => Act::Begins,
        Kind::SuperFails(class) => Act::SuperFails(throwable(program, *class)),
        Kind::Completes => Act::Completes,
        Kind::Fails(class) => Act::Fails(throwable(program, *class)),
        _ => Act::Runs,
    };
    let thread = event.thread();
    Ok(Made { thread, class, act })
}

/// What two threads do that make these choices.
pub(crate) fn events_of(
    alloc: Global,
    program: &Program,
    mains: &[usize; 2],
    choices: &[Choice],
) -> Result<Vec<Made>, AllocError> {
    let run = replayed(alloc, program, mains, choices)?;
    let mut list = Vec::new(alloc);
    for event in &run.world.into_events() {
        list.push(made_of(program, event)?)?;
    }
    Ok(list)
}
