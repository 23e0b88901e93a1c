//! All threads of small programs, turn by turn, and World beside the twin.

ghost use Rattle.std.specs.Prelude.{◌≡◌, length};

use crate::comparing::Case;
use crate::programs::{Question, Row};
use crate::schedules::{Action, Choice, Run, replayed, turn};
use hierarchy::{BuiltIn, ClassId, Program};
use init_core::{Event, Label};
use init_world::{Turn, World, safety};
use std::alloc::Global;
use trace::write_trace;

const A_DEFAULT: &[u8] = b".interface A\n.method m()V\nreturn\n.end method";

/// World and the twin agree on each list of fewer events than the depth that two threads can make, and on each event
/// that may follow it: so on all beginnings of legal interleavings of that many events.
pub(crate) const AGREEING: &[Row] = &[
    Row {
        files: &[b".class A"],
        question: Question::Compared(Case {
            needs: &[&[]],
            mains: [0, 0],
            depth: 8,
            lists: 371,
            differ: 0,
        }),
    },
    Row {
        files: &[b".class A", b".class B"],
        question: Question::Compared(Case {
            needs: &[&[], &[]],
            mains: [0, 1],
            depth: 7,
            lists: 933,
            differ: 0,
        }),
    },
    Row {
        files: &[b".class A", b".class B\n.super A"],
        question: Question::Compared(Case {
            needs: &[&[], &[0]],
            mains: [1, 0],
            depth: 7,
            lists: 396,
            differ: 0,
        }),
    },
    Row {
        files: &[A_DEFAULT, b".class B\n.implements A"],
        question: Question::Compared(Case {
            needs: &[&[], &[0]],
            mains: [1, 1],
            depth: 7,
            lists: 227,
            differ: 0,
        }),
    },
    Row {
        files: &[b".interface A", b".class B\n.implements A"],
        question: Question::Compared(Case {
            needs: &[&[], &[]],
            mains: [1, 0],
            depth: 7,
            lists: 933,
            differ: 0,
        }),
    },
    Row {
        files: &[
            A_DEFAULT,
            b".class B\n.implements A",
            b".class C\n.super B\n.implements A",
        ],
        question: Question::Compared(Case {
            needs: &[&[], &[0], &[1, 0]],
            mains: [2, 1],
            depth: 8,
            lists: 968,
            differ: 0,
        }),
    },
];

/// B needs A, which the first case leaves out; in the second it needs nothing, and A is listed. The comparison finds both.
pub(crate) const DIFFERING: &[Row] = &[
    Row {
        files: &[b".class A", b".class B\n.super A"],
        question: Question::Compared(Case {
            needs: &[&[], &[]],
            mains: [1, 0],
            depth: 3,
            lists: 7,
            differ: 7,
        }),
    },
    Row {
        files: &[b".class A", b".class B"],
        question: Question::Compared(Case {
            needs: &[&[], &[0]],
            mains: [1, 0],
            depth: 3,
            lists: 7,
            differ: 10,
        }),
    },
];

/// What two threads do, and what comes of it.
pub(crate) struct Scene {
    mains: [usize; 2],
    choices: &'static [Choice],
    /// The events, as a trace.
    trace: &'static [u8],
    /// The label of each class.
    labels: &'static [Label],
    /// Whether the next turn of thread 0 answers that the machine has ended it.
    ended: bool,
}

/// Whether these are the labels of the classes.
fn has_labels(program: &Program, world: &World, labels: &[Label]) -> bool
    requires { program.now ≡ world.now.program }
{
    for (number, label) in labels.iter().enumerate() {
        if number >= program.len() || world.record(ClassId { number }).label() != *label {
            return false;
        }
    }
    labels.len() == program.len()
}

/// Whether the next turn of thread 0 answers that the machine has ended it.
fn is_ended(alloc: Global, program: &Program, run: &mut Run) -> bool
    requires program { program.now ≡ run.old.world.program }
    requires threads { length run.old.world.threads ≡ 2 }
    ensures program { run.new.world.program ≡ run.old.world.program }
{
    let error = program.built_in(BuiltIn::InternalError);
    turn(alloc, program, &mut run.world, 0) == Ok(Turn::Ended(error))
}

/// Whether these events have this trace.
pub(crate) fn is_traced(alloc: Global, program: &Program, events: &[Event], trace: &[u8]) -> bool {
    match write_trace(alloc, program, events) {
        Ok(text) => text.as_slice() == trace,
        Err(_) => false,
    }
}

/// Whether the threads do this.
pub(crate) fn is_as_played(alloc: Global, program: &Program, scene: &Scene) -> bool {
    let Ok(mut run) = replayed(alloc, program, &scene.mains, scene.choices) else {
        return false;
    };
    let ended = scene.ended && is_ended(alloc, program, &mut run);
    let labelled = has_labels(program, &run.world, scene.labels);
    let traced = is_traced(alloc, program, &run.world.into_events(), scene.trace);
    ended == scene.ended && labelled && traced
}

pub(crate) const SCENES: &[Row] = &[
    // B extends A, and one thread requests B.
    Row {
        files: &[b".class A", b".class B\n.super A"],
        question: Question::Played(Scene {
            mains: [1, 1],
            choices: &[
                (0, Action::Requests(1)),
                (0, Action::Goes),
                (0, Action::Goes),
                (0, Action::Returns),
                (0, Action::Goes),
                (0, Action::Returns),
            ],
            trace: b"0 t0 step6 B\n1 t0 step6 A\n2 t0 step9 A\n3 t0 step10 A\n4 t0 step9 B\n5 t0 step10 B\n",
            labels: &[Label::Initialized, Label::Initialized],
            ended: false,
        }),
    },
    // Two threads at one class.
    Row {
        files: &[b".class A"],
        question: Question::Played(Scene {
            mains: [0, 0],
            choices: &[
                (0, Action::Requests(0)),
                (0, Action::Goes),
                (1, Action::Requests(0)),
                (0, Action::Returns),
                (1, Action::Goes),
            ],
            trace: b"0 t0 step6 A\n1 t0 step9 A\n2 t1 step2 A\n3 t0 step10 A\n4 t1 step4 A\n",
            labels: &[Label::Initialized],
            ended: false,
        }),
    },
    // B extends A, and the machine ends the thread that requests B in the body of A.
    Row {
        files: &[b".class A", b".class B\n.super A"],
        question: Question::Played(Scene {
            mains: [1, 0],
            choices: &[
                (0, Action::Requests(1)),
                (0, Action::Goes),
                (0, Action::Goes),
                (0, Action::GivesUp),
                (0, Action::Goes),
            ],
            trace: b"0 t0 step6 B\n1 t0 step6 A\n2 t0 step9 A\n3 t0 step12 A java/lang/InternalError\n4 t0 step7 B java/lang/InternalError\n",
            labels: &[Label::Erroneous, Label::Erroneous],
            ended: true,
        }),
    },
    // The bodies of two classes request each other, in two threads, and the machine ends thread 0, which waits.
    Row {
        files: &[b".class A", b".class B"],
        question: Question::Played(Scene {
            mains: [1, 0],
            choices: &[
                (0, Action::Requests(1)),
                (1, Action::Requests(0)),
                (0, Action::Goes),
                (1, Action::Goes),
                (0, Action::Requests(0)),
                (1, Action::Requests(1)),
                (0, Action::GivesUp),
                (1, Action::Goes),
                (1, Action::Returns),
            ],
            trace: b"0 t0 step6 B\n1 t1 step6 A\n2 t0 step9 B\n3 t1 step9 A\n4 t0 step2 A\n5 t1 step2 B\n6 t0 step12 B java/lang/InternalError\n7 t1 step5 B\n8 t1 step10 A\n",
            labels: &[Label::Initialized, Label::Erroneous],
            ended: true,
        }),
    },
];

/// The law is there for all callers.
#[test]
fn safety_is_published() {
    safety();
}
