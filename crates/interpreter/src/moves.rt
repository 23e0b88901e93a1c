//! What instructions do to the innermost frame that lead out of it.

ghost use Rattle.std.specs.Prelude.{◌≡◌, true};
ghost use Rattle.frames.specs.Activations.{at_place, can_replace, dropped, in_innermost, next_place, past_call, replaced};
ghost use Rattle.interpreter.specs.Rows.{HasRoomFor};

use frames::{Cell, Frames};

/// The operand on top is taken, and the frame goes on at that place.
#[tactic(auto, using(crate::proofs::Turning::composed))]
pub(crate) fn jump(frames: &mut Frames, to: u16)
    ensures { frames.new ≡ in_innermost (λ f. at_place to (dropped 1 f)) frames.old }
{
    frames.drop_operands(1);
    frames.go_to(to);
}

/// In the place of so many operands comes this one, and the frame goes on.
#[tactic(auto, using(crate::proofs::Turning::composed))]
pub(crate) fn give(frames: &mut Frames, count: usize, value: Cell)
    requires { can_replace count frames.old ≡ true }
    ensures { frames.new ≡ in_innermost (λ f. next_place (replaced count value f)) frames.old }
{
    frames.replace(count, value);
    frames.step_over();
}

/// So many operands are taken, and the frame goes on.
#[tactic(auto, using(crate::proofs::Turning::composed))]
pub(crate) fn take(frames: &mut Frames, count: usize)
    ensures { frames.new ≡ in_innermost (λ f. next_place (dropped count f)) frames.old }
{
    frames.drop_operands(count);
    frames.step_over();
}

/// A call is done, with its result.
#[tactic(auto, using(crate::proofs::Turning::composed, crate::proofs::Turning::room_stays))]
pub(crate) fn come_back(frames: &mut Frames, value: Option<Cell>)
    requires { HasRoomFor frames.old value }
    ensures { frames.new ≡ in_innermost (past_call value) frames.old }
{
    frames.step_over();
    if let Some(value) = value {
        frames.push(value);
    }
}
