//! What all threads of a run share.

ghost use Rattle.std.specs.Prelude.{◌≡◌, []};

use http_server::Log;
use std::snapshot::Snapshot;

/// What all threads share, and how they left it, turn by turn. The turns and the first state are there in proofs alone.
#[derive(Drop)]
pub(crate) struct Shared<H> {
    pub first: Snapshot<H>,
    pub state: H,
    pub turns: Log<usize, H>,
}

impl<H> Shared<H> {
    /// No thread had a turn.
    pub(crate) fn new(state: H) -> Self
        ensures first { result.first.value ≡ state }
        ensures state { result.state ≡ state }
        ensures turns { result.turns.items ≡ [] }
    {
        Shared {
            first: Snapshot::of(&state),
            state,
            turns: Log::new(),
        }
    }
}
