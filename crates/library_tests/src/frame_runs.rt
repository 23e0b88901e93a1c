//! Runs of instructions within a frame, calls and returns.

use crate::frame_steps::{Deed, begin, call, drop_operands, push};
use crate::programs::{Question, Row};
use code::{MethodCode, Op};
use frames::{Cell, FramePlace, Frames, Stop};
use hierarchy::BuiltIn;

/// Why a run of instructions stops.
#[derive(Clone, Copy, PartialEq, Eq)]
enum Reason {
    Limit,
    PastTheEnd,
    Throws(BuiltIn),
    Calls(u16, u16),
    ReturnsInt,
    Other,
}

/// Instructions that are run in a frame with two locals and four operands at the most, and what comes of it.
#[derive(Clone, Copy)]
pub(crate) struct Run {
    ops: &'static [Op],
    locals: &'static [Cell],
    /// So many are done at the most.
    limit: u64,
    /// How many are done.
    done: u64,
    /// Why no more.
    reason: Reason,
    /// The place of the next one.
    place: usize,
    /// What is on top then.
    top: Cell,
}

/// Adds up the numbers from 1 to that in the first local.
const SUM: &[Op] = &[
    Op::PushInt(0),
    Op::StoreInt(1),
    Op::LoadInt(0),
    Op::IfNotPositive(10),
    Op::LoadInt(1),
    Op::LoadInt(0),
    Op::Add,
    Op::StoreInt(1),
    Op::Increment(0, -1),
    Op::Goto(2),
    Op::LoadInt(1),
    Op::ReturnInt,
];

/// A loop of ints adds up.
const ADDS_UP: Run = Run {
    ops: SUM,
    locals: &[Cell::Int(10)],
    limit: 1000,
    done: 85,
    reason: Reason::ReturnsInt,
    place: 11,
    top: Cell::Int(55),
};

/// It goes on as far as its limit.
const ADDS_ONCE: Run = Run {
    ops: SUM,
    locals: &[Cell::Int(10)],
    limit: 7,
    done: 7,
    reason: Reason::Limit,
    place: 7,
    top: Cell::Int(10),
};

/// The same, further on.
const ADDS_SOMETIMES: Run = Run {
    ops: SUM,
    locals: &[Cell::Int(10)],
    limit: 33,
    done: 33,
    reason: Reason::Limit,
    place: 9,
    top: Cell::Unset,
};

/// Zero divides nothing.
const DIVIDES: Run = Run {
    ops: &[Op::PushInt(5), Op::PushInt(0), Op::Remainder],
    locals: &[],
    limit: 1000,
    done: 2,
    reason: Reason::Throws(BuiltIn::ArithmeticException),
    place: 2,
    top: Cell::Int(0),
};

/// No instruction is past the end.
const SHIFTS: Run = Run {
    ops: &[
        Op::PushInt(-8),
        Op::PushInt(33),
        Op::ShiftRight,
        Op::Dup,
        Op::ToChar,
    ],
    locals: &[],
    limit: 1000,
    done: 5,
    reason: Reason::PastTheEnd,
    place: 5,
    top: Cell::Int(65532),
};

/// Operands are at most as many as the limit.
const DUPLICATES: Run = Run {
    ops: &[
        Op::PushNull,
        Op::PushText(7),
        Op::DupX1,
        Op::Dup2X1,
        Op::Nop,
    ],
    locals: &[],
    limit: 1000,
    done: 3,
    reason: Reason::Throws(BuiltIn::VerifyError),
    place: 3,
    top: Cell::Reference(7),
};

fn reason_of(stop: Stop) -> Reason {
    match stop {
        Stop::Limit => Reason::Limit,
        Stop::PastTheEnd => Reason::PastTheEnd,
        Stop::Throws(class) => Reason::Throws(class),
        Stop::LeadsOut(Op::InvokeStatic(class, method)) => Reason::Calls(class, method),
        Stop::LeadsOut(Op::ReturnInt) => Reason::ReturnsInt,
        Stop::LeadsOut(_) => Reason::Other,
    }
}

/// How many instructions are done, and why no more, where at most so many are asked for at once.
fn go(frames: &mut Frames, run: &Run, step: u64) -> (u64, Reason) {
    let mut done = 0u64;
    for _ in 0..run.limit {
        let (count, stop) = frames.go_on(run.ops, step);
        done = done.saturating_add(count);
        if count < step || done >= run.limit {
            return (done, reason_of(stop));
        }
    }
    (done, Reason::Other)
}

/// Whether the run in the innermost frame comes to what it must.
fn comes_to(frames: &mut Frames, run: &Run, step: u64) -> bool {
    let (done, reason) = go(frames, run, step);
    let top = frames.operand(0).unwrap_or(Cell::Unset);
    match frames.at() {
        Some(at) => {
            done == run.done && reason == run.reason && at.place == run.place && top == run.top
        }
        None => false,
    }
}

/// Whether a run comes to what it must, where its instructions are asked for at once and where each is asked for alone.
pub(crate) fn runs(frames: &mut Frames, code: &MethodCode, run: &Run) -> bool {
    begin(frames, 0, code, run.locals).is_ok()
        && comes_to(frames, run, run.limit)
        && begin(frames, 0, code, run.locals).is_ok()
        && comes_to(frames, run, 1)
}

/// Whether the first of three operands is left where two are dropped.
pub(crate) fn drops_two(frames: &mut Frames, code: &MethodCode) -> bool {
    if begin(frames, 0, code, &[]).is_err() {
        return false;
    }
    for number in 1..4 {
        push(frames, Cell::Int(number));
    }
    drop_operands(frames, 2);
    frames.operand(0) == Some(Cell::Int(1)) && frames.operand(1).is_none()
}

/// Pushes 7 and 3 and calls a method with them, at place 2.
const CALL: Run = Run {
    ops: &[
        Op::PushInt(7),
        Op::PushInt(3),
        Op::InvokeStatic(0, 1),
        Op::ReturnInt,
    ],
    locals: &[],
    limit: 100,
    done: 2,
    reason: Reason::Calls(0, 1),
    place: 2,
    top: Cell::Int(3),
};

/// Subtracts the second argument from the first.
const SUBTRACT: Run = Run {
    ops: &[Op::LoadInt(0), Op::LoadInt(1), Op::Subtract, Op::ReturnInt],
    locals: &[],
    limit: 100,
    done: 3,
    reason: Reason::ReturnsInt,
    place: 3,
    top: Cell::Int(4),
};

/// Whether a call gives its result to the place after it.
pub(crate) fn calls(frames: &mut Frames, code: &MethodCode) -> bool {
    let is_called = begin(frames, 0, code, &[]).is_ok() && comes_to(frames, &CALL, 100);
    let returns = call(frames, 1, code, 2).is_ok() && comes_to(frames, &SUBTRACT, 100);
    // The innermost frame is left with its result, and its caller goes on past the call.
    let result = frames.operand(0).unwrap_or(Cell::Unset);
    if frames.has_room_below() {
        frames.leave();
        push(frames, result);
        frames.step_over();
    }
    let after = FramePlace {
        class: 0,
        method: 0,
        place: 3,
        is_first: true,
    };
    let is_back = frames.at() == Some(after);
    is_called && returns && is_back && frames.operand(0) == Some(Cell::Int(4))
}

/// Begins a body and calls methods, each with one operand, until there are so many frames.
fn go_down(frames: &mut Frames, code: &MethodCode, depth: usize) -> bool {
    if begin(frames, 0, code, &[Cell::Null]).is_err() {
        return false;
    }
    for number in 1..depth {
        push(frames, Cell::Int(5));
        if call(frames, number, code, 1).is_err() {
            return false;
        }
    }
    true
}

/// Whether so many frames are reached by a large method, without memory, where so many of a small one were reached and left.
pub(crate) fn reaches_again(
    frames: &mut Frames,
    small: &MethodCode,
    large: &MethodCode,
    depth: usize,
) -> bool {
    let is_reached = go_down(frames, small, depth);
    for _ in 0..depth {
        frames.leave();
    }
    let are_left = frames.len() == 0;
    is_reached && are_left && go_down(frames, large, depth) && frames.len() == depth
}

pub(crate) const RUNS: &[Row] = &[
    Row {
        files: &[],
        question: Question::Frames(Deed::Runs(ADDS_UP)),
    },
    Row {
        files: &[],
        question: Question::Frames(Deed::Runs(ADDS_ONCE)),
    },
    Row {
        files: &[],
        question: Question::Frames(Deed::Runs(ADDS_SOMETIMES)),
    },
    Row {
        files: &[],
        question: Question::Frames(Deed::Runs(DIVIDES)),
    },
    Row {
        files: &[],
        question: Question::Frames(Deed::Runs(SHIFTS)),
    },
    Row {
        files: &[],
        question: Question::Frames(Deed::Runs(DUPLICATES)),
    },
    Row {
        files: &[],
        question: Question::Frames(Deed::DropsTwo),
    },
    Row {
        files: &[],
        question: Question::Frames(Deed::Calls),
    },
    Row {
        files: &[],
        question: Question::Frames(Deed::ReachesAgain(20)),
    },
];
