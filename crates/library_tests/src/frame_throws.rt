//! Where thrown objects are caught in the frames of a thread.

use crate::frame_steps::{Deed, begin, call, push};
use crate::programs::{Question, Row};
use code::MethodCode;
use frames::{Cell, FramePlace, Frames, Thrown};
use hierarchy::Program;
use std::alloc::AllocError;

/// Three methods: the first catches exceptions at its places 1 and 2, at place 3; the second at place 1 alone; the third none.
const CATCHING: &[u8] = b".class C\n.method static a()V\nnop\nA:\nnop\nnop\nH:\nreturn
.catch java/lang/Exception from A to H using H\n.end method\n.method static b()V\nnop\nA:\nnop\nB:\nreturn
.catch java/lang/Exception from A to B using A\n.end method\n.method static c()V\nreturn\n.end method";

/// An object that the third method throws, called by the second at a place, and what comes of it.
#[derive(Clone, Copy)]
pub(crate) struct Throw {
    /// The class of the object.
    name: &'static [u8],
    /// The place of the second method.
    place: u16,
    /// Whether the second method begins a body of its own; else the first one calls it, at place 1.
    within: bool,
    /// Whether the object is caught.
    caught: bool,
    /// The place of the innermost frame that is left.
    at: Option<FramePlace>,
    /// What is on top there.
    top: Option<Cell>,
    /// How many frames are left.
    left: usize,
}

/// The third method's frame within that of the second.
fn stand(frames: &mut Frames, code: &MethodCode, throw: &Throw) -> Result<(), AllocError> {
    begin(frames, 0, code, &[])?;
    frames.go_to(1);
    push(frames, Cell::Int(1));
    if throw.within {
        begin(frames, 1, code, &[])?;
    } else {
        call(frames, 1, code, 1)?;
    }
    frames.go_to(throw.place);
    push(frames, Cell::Int(2));
    call(frames, 2, code, 1)
}

/// Whether what is thrown comes to what it must.
pub(crate) fn comes_out(
    frames: &mut Frames,
    code: &MethodCode,
    program: &Program,
    throw: &Throw,
) -> bool {
    match program.class_named(throw.name) {
        Some(class) if stand(frames, code, throw).is_ok() => {
            let reference = 6;
            let caught = frames.catch(program, Thrown { reference, class });
            caught == throw.caught
                && frames.at() == throw.at
                && frames.operand(0) == throw.top
                && frames.len() == throw.left
        }
        _ => false,
    }
}

/// Two frames are left.
const TWO_FRAMES: Throw = Throw {
    name: b"java/lang/ArithmeticException",
    place: 0,
    within: false,
    caught: true,
    at: Some(FramePlace {
        class: 0,
        method: 0,
        place: 3,
        is_first: true,
    }),
    top: Some(Cell::Reference(6)),
    left: 1,
};

/// One frame is left.
const ONE_FRAME: Throw = Throw {
    name: b"java/lang/ArithmeticException",
    place: 1,
    within: false,
    caught: true,
    at: Some(FramePlace {
        class: 0,
        method: 1,
        place: 1,
        is_first: false,
    }),
    top: Some(Cell::Reference(6)),
    left: 2,
};

/// All frames are left.
const ALL_FRAMES: Throw = Throw {
    name: b"java/lang/VerifyError",
    place: 1,
    within: false,
    caught: false,
    at: None,
    top: None,
    left: 0,
};

/// A body is left.
const A_BODY: Throw = Throw {
    name: b"java/lang/ArithmeticException",
    place: 0,
    within: true,
    caught: false,
    at: Some(FramePlace {
        class: 0,
        method: 0,
        place: 1,
        is_first: true,
    }),
    top: Some(Cell::Int(1)),
    left: 1,
};

pub(crate) const THROWS: &[Row] = &[
    Row {
        files: &[CATCHING],
        question: Question::Frames(Deed::Throws(TWO_FRAMES)),
    },
    Row {
        files: &[CATCHING],
        question: Question::Frames(Deed::Throws(ONE_FRAME)),
    },
    Row {
        files: &[CATCHING],
        question: Question::Frames(Deed::Throws(ALL_FRAMES)),
    },
    Row {
        files: &[CATCHING],
        question: Question::Frames(Deed::Throws(A_BODY)),
    },
];
