//! Times of runs of several threads, an event, beside one thread.
//!
//! Each thread has a main class that ends a chain of 30 classes over 30 interfaces with a default method, and makes about a
//! thousand events. The chains and interfaces are each thread's own; or the interfaces are the same for all; or the main
//! class is the same for all, and all but one thread wait. A time is that of a whole run, threads started and joined and
//! journals merged, divided by all events.

ghost use Rattle.std.specs.Prelude.{◌≡◌, true};
ghost use Rattle.std.specs.List.{AllByRecursion};
ghost use Rattle.init_core.specs.ProcedureWord.{IsOfFiles};

use crate::bench::files::Files;
use crate::bench::harness::{Failure, Row, Watch};
use crate::bench::sample::Sample;
use bodies::{Limits, NoCode};
use guest_threads::{Gate, NoGate, run_threads};
use hierarchy::{ClassId, Program};
use init_core::{Event, Kind};
use std::alloc::Global;
use std::rt::Clock;
use std::sync::Wait;
use std::thread;
use std::thread::Threads;
use std::time::Duration;

const LENGTH: usize = 30;

/// What the chains of several threads have in common.
pub(crate) enum Chains {
    /// Nothing.
    Own,
    /// The interfaces.
    SameInterfaces,
    /// All.
    Same,
}

/// One to sixteen threads beside one, of each kind of chains.
pub(crate) const ROWS: &[Row] = &[
    Row {
        what: "threads, classes of their own, an event, beside 1",
        sample: Sample::Run(Chains::Own),
        sizes: &[1, 2, 4, 8, 16],
        most: 1,
        unit: Sample::Run(Chains::Own),
        unit_size: Some(1),
        repeats: 20,
    },
    Row {
        what: "threads, the same interfaces, an event, beside 1",
        sample: Sample::Run(Chains::SameInterfaces),
        sizes: &[1, 2, 4, 8, 16],
        most: 1,
        unit: Sample::Run(Chains::SameInterfaces),
        unit_size: Some(1),
        repeats: 20,
    },
    Row {
        what: "threads, the same main class, an event, beside 1",
        sample: Sample::Run(Chains::Same),
        sizes: &[1, 2, 4, 8, 16],
        most: 1,
        unit: Sample::Run(Chains::Same),
        unit_size: Some(1),
        repeats: 20,
    },
];

const INTERFACE: &[u8] = b".interface I#_@\n.method m()V\nreturn\n.end method\n";

fn add_interfaces(files: &mut Files, family: usize) {
    for number in 0..LENGTH {
        files.add_file(INTERFACE, family, number);
    }
}

// Adds a class of a chain, below the one before it.
fn add_class(files: &mut Files, chain: usize, family: usize, number: usize) {
    files.add(b".class C#_@\n", chain, number);
    if number > 0 {
        files.add(b".super C#_@\n", chain, number - 1);
    }
    for interface in 0..LENGTH {
        files.add(b".implements I#_@\n", family, interface);
    }
    files.end();
}

fn add_chain(files: &mut Files, chain: usize, family: usize) {
    for number in 0..LENGTH {
        add_class(files, chain, family, number);
    }
}

/// Adds the files of so many threads: of each those that no earlier thread has.
pub(crate) fn add_files(files: &mut Files, chains: &Chains, threads: usize) {
    for thread in 0..threads {
        match chains {
            Chains::Own => {
                add_interfaces(files, thread);
                add_chain(files, thread, thread);
            }
            Chains::SameInterfaces if thread > 0 => add_chain(files, thread, 0),
            Chains::Same if thread > 0 => {}
            _ => {
                add_interfaces(files, 0);
                add_chain(files, 0, 0);
            }
        }
    }
}

// The main classes of sixteen threads: the last classes of their chains. Classes have the numbers of their files.
fn mains_of(chains: &Chains) -> [ClassId; 16] {
    let own_files = match chains {
        Chains::Own => 2 * LENGTH,
        Chains::SameInterfaces => LENGTH,
        Chains::Same => 0,
    };
    let mut mains = [ClassId { number: 0 }; 16];
    let mut number = 2 * LENGTH - 1;
    for thread in 0..16 {
        mains[thread] = ClassId { number };
        number = number.saturating_add(own_files);
    }
    mains
}

fn are_of_files(program: &Program, mains: &[ClassId]) -> bool
    ensures { result ≡ true → AllByRecursion (λ main. IsOfFiles program.now main) mains.now }
{
    for main in mains {
        if main.number >= program.len() {
            return false;
        }
    }
    true
}

/// Holds each thread for a second after its step 9.
#[derive(Drop)]
struct Holding<'a, R> {
    rt: &'a R,
}

impl<R: Clock> Gate for Holding<'_, R> {
    fn at(&self, event: &Event) {
        if let Ok(Kind::Runs) = event.kind() {
            thread::sleep(self.rt, Duration::from_secs(1));
        }
    }

    fn at_print(&self, _thread: usize) {}
}

// The time of a run of these main classes, an event.
fn run_time<R: Clock + Threads + Wait + Sync, G: Gate + Sync>(
    rt: &R,
    alloc: Global,
    program: &Program,
    mains: &[ClassId],
    gate: &G,
) -> Result<u128, Failure> {
    if mains.is_empty() || mains.len() > 16 || !are_of_files(program, mains) {
        return Err(Failure::Program);
    }
    let bodies = vec![in alloc; NoCode; mains.len()]?;
    let watch = Watch::start(rt);
    match run_threads(
        rt,
        alloc,
        program,
        &(),
        mains,
        bodies,
        (),
        Limits::USUAL,
        gate,
    ) {
        Ok(report) => watch.share(rt, report.events.len()),
        Err(_) => Err(Failure::Run),
    }
}

/// The time of a run of so many threads, an event.
pub(crate) fn time<R: Clock + Threads + Wait + Sync>(
    rt: &R,
    alloc: Global,
    program: &Program,
    chains: &Chains,
    threads: usize,
) -> Result<u128, Failure> {
    let mains = mains_of(chains);
    let mains = mains.get(..threads).unwrap_or_default();
    run_time(rt, alloc, program, mains, &NoGate)
}

/// A run of sixteen threads whose one main class is held for a second: the time of an event. How much processor time that takes is
/// the caller's to measure.
pub(crate) fn hold<R: Clock + Threads + Wait + Sync>(
    rt: &R,
    alloc: Global,
) -> Result<u128, Failure> {
    let mut files = Files::new(alloc);
    files.add_file(b".class A", 0, 0);
    match files.program() {
        Ok(program) => {
            let mains = [ClassId { number: 0 }; 16];
            run_time(rt, alloc, &program, &mains, &Holding { rt })
        }
        Err(failure) => Err(failure),
    }
}
