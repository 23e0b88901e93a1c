//! Which events the runs of small programs have, whatever the schedule.

ghost use Rattle.std.specs.Prelude.{◌≡◌, ◌<◌, true};
ghost use Rattle.std.specs.List.{AllByRecursion};
ghost use Rattle.init_core.specs.ProcedureWord.{IsOfFiles};

use crate::elided::is_passed;
use crate::long_chain::{CLASSES, INTERFACES};
use crate::programs::{Question, Row};
use crate::steps::{Step, Steps, step_of, steps_of};
use crate::waiting::is_waited_out;
use bodies::{Limits, NoCode, Report, ThreadOutcome};
use guest_threads::{Gate, NoGate, run_threads};
use hierarchy::{ClassId, Program};
use init_core::{Event, Kind, Label};
use std::alloc::Global;
use std::rt::Clock;
use std::sync::Wait;
use std::sync::atomic::{AtomicU64, Ordering};
use std::thread;
use std::thread::Threads;
use std::time::Duration;

/// Which threads run, and what is asked of their run.
pub(crate) enum Crowd {
    /// Sixteen at one class.
    Sixteen,
    /// Two at classes over the same interfaces.
    TwoMains,
    /// Two at one class, of which one waits.
    OneWaits,
    /// Two at classes that share nothing.
    Apart,
    /// One at the last class of a long chain.
    OverAll,
    /// One at a class whose record another has, which has initialized it.
    PassesBy,
    /// Two at classes whose initializers need each other.
    NeedEachOther,
}

/// Whether each main class is one of the files.
pub(crate) fn are_of_files(program: &Program, mains: &[ClassId]) -> bool
    ensures { result ≡ true → AllByRecursion (λ main. IsOfFiles program.now main) mains.now }
{
    for main in mains {
        if main.number >= program.len() {
            return false;
        }
    }
    true
}

/// What came of a run.
#[derive(Clone, Copy)]
struct Ran {
    /// Whether all threads ended normally, and all classes are initialized.
    is_whole: bool,
    threads: usize,
    events: usize,
    steps: Steps,
}

/// Whether all threads ended normally, and all classes are initialized.
fn is_whole(report: &Report) -> bool {
    for outcome in report.outcomes.as_slice() {
        if *outcome != ThreadOutcome::Normal {
            return false;
        }
    }
    for label in report.labels.as_slice() {
        if *label != Label::Initialized {
            return false;
        }
    }
    true
}

/// Tells a gate of an event that was made before.
fn tell<G: Gate>(gate: &G, event: &Event) {
    match event.text() {
        Some(_) => gate.at_print(event.thread()),
        None => gate.at(event),
    }
}

/// The run of these main classes, if there is one. Another gate is told of its events afterwards.
fn run<R: Threads + Wait + Sync, G: Gate + Sync, A: Gate>(
    rt: &R,
    alloc: Global,
    program: &Program,
    mains: &[ClassId],
    gate: &G,
    afterwards: &A,
) -> Option<Ran> {
    if mains.is_empty() || mains.len() > 16 || !are_of_files(program, mains) {
        return None;
    }
    let bodies = vec![in alloc; NoCode; mains.len()].ok()?;
    match run_threads(
        rt,
        alloc,
        program,
        &(),
        mains,
        bodies,
        (),
        Limits::USUAL,
        gate,
    ) {
        Ok(report) => {
            let events = report.events.as_slice();
            for event in events {
                tell(afterwards, event);
            }
            Some(Ran {
                is_whole: is_whole(&report),
                threads: report.outcomes.len(),
                events: events.len(),
                steps: steps_of(events),
            })
        }
        Err(_) => None,
    }
}

fn is_of_sixteen<R: Threads + Wait + Sync>(rt: &R, alloc: Global, program: &Program) -> bool {
    let mains = [ClassId { number: 0 }; 16];
    let Some(ran) = run(rt, alloc, program, &mains, &NoGate, &NoGate) else {
        return false;
    };
    let steps = ran.steps;
    let are_made = steps.begins == 1 && steps.runs == 1 && steps.completes == 1;
    let are_others = steps.finds_initialized == 15 && steps.waits <= 15 && steps.others == 0;
    ran.is_whole && ran.threads == 16 && are_made && are_others
}

/// Counts the events, and holds the thread that begins a class until another thread has made an event, for so many turns at most.
#[derive(Drop)]
struct Holding {
    made: AtomicU64,
    turns: u64,
}

impl Gate for Holding {
    fn at(&self, event: &Event) {
        self.made.fetch_add(1, Ordering::SeqCst);
        if let Step::Begins = step_of(event) {
            for _ in 0..self.turns {
                if self.made.load(Ordering::SeqCst) > 1 {
                    return;
                }
                thread::yield_now();
            }
        }
    }

    fn at_print(&self, _thread: usize) {
        self.made.fetch_add(1, Ordering::SeqCst);
    }
}

fn is_of_two_mains<R: Threads + Wait + Sync>(rt: &R, alloc: Global, program: &Program) -> bool {
    let mains = [ClassId { number: 1 }, ClassId { number: 2 }];
    let gate = Holding {
        made: AtomicU64::new(0),
        turns: 0,
    };
    let Some(ran) = run(rt, alloc, program, &mains, &gate, &NoGate) else {
        return false;
    };
    let steps = ran.steps;
    let are_made = steps.begins == 5 && steps.runs == 5 && steps.completes == 5;
    let are_told = gate.made.load(Ordering::SeqCst) == ran.events as u64;
    ran.is_whole && ran.threads == 2 && are_made && steps.others == 0 && are_told
}

fn is_waited_for<R: Threads + Wait + Sync>(rt: &R, alloc: Global, program: &Program) -> bool {
    let mains = [ClassId { number: 0 }; 2];
    let gate = Holding {
        made: AtomicU64::new(0),
        turns: 100_000_000,
    };
    let Some(ran) = run(rt, alloc, program, &mains, &gate, &NoGate) else {
        return false;
    };
    let steps = ran.steps;
    let are_made = steps.waits == 1 && steps.begins == 1 && steps.finds_initialized == 1;
    ran.is_whole && ran.events == 5 && are_made
}

/// How often steps 6, 9 and 10 of the class of its own number, and anything else, were reported for each of two threads.
#[derive(Drop)]
struct Tally {
    counts: [AtomicU64; 8],
}

/// Each thread made its own steps once, and nothing else.
const EACH_ONCE: [u64; 8] = [1, 1, 1, 0, 1, 1, 1, 0];

impl Tally {
    fn new() -> Self {
        Tally {
            counts: [
                AtomicU64::new(0),
                AtomicU64::new(0),
                AtomicU64::new(0),
                AtomicU64::new(0),
                AtomicU64::new(0),
                AtomicU64::new(0),
                AtomicU64::new(0),
                AtomicU64::new(0),
            ],
        }
    }

    /// Whether each thread made steps 6, 9 and 10 of the class of its own number once, and nothing else was reported.
    fn is_each_once(&self) -> bool {
        for (place, wanted) in EACH_ONCE.iter().enumerate() {
            match self.counts.as_slice().get(place) {
                Some(count) if count.load(Ordering::SeqCst) == *wanted => {}
                _ => return false,
            }
        }
        true
    }
}

impl Gate for Tally {
    /// An event by another thread counts as something else of the last one.
    fn at(&self, event: &Event) {
        let thread = event.thread();
        let is_own = match event.class() {
            Some(class) => class.number == thread && thread < 2,
            None => false,
        };
        let step = match step_of(event) {
            Step::Begins if is_own => 0,
            Step::Runs if is_own => 1,
            Step::Completes if is_own => 2,
            _ => 3,
        };
        self.counts[thread.min(1) * 4 + step].fetch_add(1, Ordering::SeqCst);
    }

    fn at_print(&self, thread: usize) {
        self.counts[thread.min(1) * 4 + 3].fetch_add(1, Ordering::SeqCst);
    }
}

/// Holds each thread after its step 9 until two threads have made theirs, for so many turns of 1 ms at most.
#[derive(Drop)]
pub(crate) struct Meeting<'a, C> {
    clock: &'a C,
    turns: u64,
    running: AtomicU64,
    missed: AtomicU64,
    told: Tally,
}

impl<'a, C> Meeting<'a, C> {
    pub(crate) fn new(clock: &'a C, turns: u64) -> Self {
        Meeting {
            clock,
            turns,
            running: AtomicU64::new(0),
            missed: AtomicU64::new(0),
            told: Tally::new(),
        }
    }

    /// Whether two threads came, and none was let go before another one came.
    pub(crate) fn has_met(&self) -> bool {
        self.running.load(Ordering::SeqCst) == 2 && self.missed.load(Ordering::SeqCst) == 0
    }

    /// Whether so many threads were let go before another one came, and each made its own steps.
    fn is_over(&self, missed: u64) -> bool {
        self.missed.load(Ordering::SeqCst) == missed && self.told.is_each_once()
    }
}

impl<'a, C: Clock> Gate for Meeting<'a, C> {
    fn at(&self, event: &Event) {
        self.told.at(event);
        if let Step::Runs = step_of(event) {
            self.running.fetch_add(1, Ordering::SeqCst);
            for _ in 0..self.turns {
                if self.running.load(Ordering::SeqCst) > 1 {
                    return;
                }
                thread::sleep(self.clock, Duration::from_millis(1));
            }
            self.missed.fetch_add(1, Ordering::SeqCst);
        }
    }

    fn at_print(&self, thread: usize) {
        self.told.at_print(thread);
    }
}

/// Whether both threads are at their step 9 at once.
fn is_at_once<R: Threads + Wait + Sync + Clock>(rt: &R, alloc: Global, program: &Program) -> bool {
    let mains = [ClassId { number: 0 }, ClassId { number: 1 }];
    let gate = Meeting::new(rt, 10_000);
    let made = Tally::new();
    let Some(ran) = run(rt, alloc, program, &mains, &gate, &made) else {
        return false;
    };
    ran.is_whole && ran.threads == 2 && gate.is_over(0) && made.is_each_once()
}

/// Tells a gate all that the thread of this number does at the class of the same number.
fn tell_all<G: Gate>(gate: &G, number: usize)
    requires { number < 2 }
{
    let class = ClassId { number };
    gate.at(&Event::new(number, class, Kind::Begins));
    gate.at(&Event::new(number, class, Kind::Runs));
    gate.at(&Event::new(number, class, Kind::Completes));
}

/// Whether a thread is missed that comes after the other.
fn is_missed<C: Clock>(clock: &C, first: usize, second: usize) -> bool
    requires first { first < 2 }
    requires second { second < 2 }
{
    let gate = Meeting::new(clock, 3);
    tell_all(&gate, first);
    tell_all(&gate, second);
    gate.is_over(1)
}

/// Threads that work one after the other don't meet, so a run of such threads fails [`is_at_once`].
#[test]
fn one_after_the_other_is_missed(rt: HostRuntime) {
    assert!(rt; is_missed(&rt, 0, 1));
    assert!(rt; is_missed(&rt, 1, 0));
}

fn is_over_all<R: Threads + Wait + Sync>(rt: &R, alloc: Global, program: &Program) -> bool {
    let mains = [ClassId {
        number: CLASSES - 1,
    }];
    let Some(ran) = run(rt, alloc, program, &mains, &NoGate, &NoGate) else {
        return false;
    };
    let steps = ran.steps;
    let begun = CLASSES + INTERFACES;
    let found = (CLASSES - 1) * INTERFACES;
    let are_made = steps.begins == begun && steps.runs == begun && steps.completes == begun;
    let are_found = steps.finds_initialized == found && ran.events == 3 * begun + found;
    ran.is_whole && are_made && are_found
}

/// Whether what is asked of the run of such threads is so.
pub(crate) fn is_run<R: Threads + Wait + Sync + Clock>(
    rt: &R,
    alloc: Global,
    program: &Program,
    crowd: &Crowd,
) -> bool {
    match crowd {
        Crowd::Sixteen => is_of_sixteen(rt, alloc, program),
        Crowd::TwoMains => is_of_two_mains(rt, alloc, program),
        Crowd::OneWaits => is_waited_for(rt, alloc, program),
        Crowd::Apart => is_at_once(rt, alloc, program),
        Crowd::OverAll => is_over_all(rt, alloc, program),
        Crowd::PassesBy => is_passed(rt, alloc, program),
        Crowd::NeedEachOther => is_waited_out(rt, alloc, program),
    }
}

pub(crate) const CROWDS: &[Row] = &[
    Row {
        files: &[b".class A"],
        question: Question::Ran(Crowd::Sixteen),
    },
    // Three classes in a chain, each over the same two interfaces with code.
    Row {
        files: &[
            b".class A\n.implements I\n.implements J",
            b".class B\n.super A\n.implements I\n.implements J",
            b".class C\n.super B\n.implements I\n.implements J",
            b".interface I\n.method m()V\nreturn\n.end method",
            b".interface J\n.method m()V\nreturn\n.end method",
        ],
        question: Question::Ran(Crowd::TwoMains),
    },
    Row {
        files: &[b".class A"],
        question: Question::Ran(Crowd::OneWaits),
    },
    Row {
        files: &[b".class A", b".class B"],
        question: Question::Ran(Crowd::Apart),
    },
    Row {
        files: &[b".class A"],
        question: Question::Ran(Crowd::PassesBy),
    },
];
