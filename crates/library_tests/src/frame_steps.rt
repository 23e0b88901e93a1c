//! What tests do to frames, where it may be done.

use crate::frame_runs::{Run, calls, drops_two, reaches_again, runs};
use crate::frame_throws::{Throw, comes_out};
use code::MethodCode;
use frames::{Cell, Frames};
use hierarchy::Program;
use sequence::Sequence;
use std::alloc::{AllocError, Global};

/// What is done in frames. They are held in one function alone, since each one that holds them costs its proof.
#[derive(Clone, Copy)]
pub(crate) enum Deed {
    /// Instructions are run, all at once and each alone.
    Runs(Run),
    /// Two of three operands are dropped.
    DropsTwo,
    /// A method is called, and returns.
    Calls,
    /// This depth is reached twice.
    ReachesAgain(usize),
    /// An object is thrown.
    Throws(Throw),
}

/// A method with room for so much. Its instructions are handed in where it is run.
fn method(alloc: Global, stack: u16, locals: u16) -> MethodCode {
    MethodCode {
        stack,
        locals,
        synchronized: false,
        parameters: Sequence::new(alloc),
        result: None,
        ops: Sequence::new(alloc),
    }
}

/// Whether what is done in new frames comes to what it must.
pub(crate) fn is_done(alloc: Global, program: &Program, deed: &Deed) -> bool {
    let code = method(alloc, 4, 2);
    let large = method(alloc, 1_024, 1_024);
    let mut frames = Frames::new(alloc);
    does(&mut frames, program, &code, &large, deed)
}

fn does(
    frames: &mut Frames,
    program: &Program,
    code: &MethodCode,
    large: &MethodCode,
    deed: &Deed,
) -> bool {
    match deed {
        Deed::Runs(run) => runs(frames, code, run),
        Deed::DropsTwo => drops_two(frames, code),
        Deed::Calls => calls(frames, code),
        Deed::ReachesAgain(depth) => reaches_again(frames, code, large, *depth),
        Deed::Throws(throw) => comes_out(frames, code, program, throw),
    }
}

/// Begins a body, where the method has locals for the arguments.
pub(crate) fn begin(
    frames: &mut Frames,
    number: usize,
    code: &MethodCode,
    given: &[Cell],
) -> Result<(), AllocError> {
    if given.len() <= code.locals as usize {
        frames.begin(0, number, code, given)?;
    }
    Ok(())
}

/// Calls a method with so many operands, where they are there and the method has locals for them.
#[tactic(auto, using(std::proofs::lemmas::Option::slice_get_within))]
pub(crate) fn call(
    frames: &mut Frames,
    number: usize,
    code: &MethodCode,
    count: usize,
) -> Result<(), AllocError> {
    if count == 0 || frames.len() == 0 || count > code.locals as usize {
        return Ok(());
    }
    if let Some(_) = frames.operand(count - 1) {
        frames.call(0, number, code, count)?;
    }
    Ok(())
}

/// Pushes an operand, where it has room.
pub(crate) fn push(frames: &mut Frames, value: Cell) {
    if frames.has_room() {
        frames.push(value);
    }
}

/// Drops so many operands, where they are there.
#[tactic(auto, using(std::proofs::lemmas::Option::slice_get_within))]
pub(crate) fn drop_operands(frames: &mut Frames, count: usize) {
    if count == 0 {
        return;
    }
    if let Some(_) = frames.operand(count - 1) {
        frames.drop_operands(count);
    }
}
