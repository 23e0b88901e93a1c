//! A record that keeps the numbers drawn on it.
ghost use Rattle.std.specs.Prelude.{◌≡◌, [], vec_len, IfOk};
ghost use Rattle.std.specs.List.{AllByRecursion};

use init_lock::Keeps;
use std::alloc::{AllocError, Global};

/// The number whose event settles its place.
pub const SETTLES: u64 = 7;

/// A record that keeps a list of numbers.
#[derive(Drop)]
pub struct History {
    pub events: Vec<u64>,
}

impl Keeps for History {
    type Event = u64;

    type Text = ();

    ghost use Rattle.std.specs.Prelude.{eqb, None};
    ghost use Rattle.cases.specs.declared.bench.history.TheConstants.{SETTLES};

    ghost unpacked = { λ word text. word };

    ghost is_packed = { λ word text. Unit {0} };

    ghost kept = { λ r. r.events.items };

    ghost may_draw = { λ by place event. Unit {0} };

    ghost settles = { λ event. eqb event SETTLES };

    ghost lawful = { λ events. Unit {0} };

    ghost lawful_at_first = { tt };

    ghost leans_on = { λ event. None };

    ghost follows = { λ x y. Unit {0} };

    ghost follows_itself = { λ x. tt };

    ghost follows_on = { λ x y z p q. tt };

    fn pack(event: u64) -> (u64, Option<()>) {
        (event, None)
    }

    fn unpack(word: u64, _text: Option<()>) -> u64
        ensures { result ≡ word }
    {
        word
    }
}

/// A record that keeps nothing, with room for so many events.
fn blank_history(alloc: Global, room: usize) -> Result<History, AllocError>
    ensures { IfOk result (λ r. r.events.items ≡ []) }
{
    Ok(History {
        events: Vec::with_capacity(alloc, room)?,
    })
}

/// So many records that keep nothing. The first four, and each eighth, have room for so many events.
pub fn histories(alloc: Global, count: usize, room: usize) -> Result<Vec<History>, AllocError>
    ensures count { IfOk result (λ records. vec_len records ≡ count) }
    ensures blank { IfOk result (λ records. AllByRecursion (λ r. r.events.items ≡ []) records.items) }
{
    let mut records = Vec::new(alloc);
    'records: while records.len() < count {
        let place = records.len();
        let is_used = place < 4 || place % 8 == 0;
        let room = if is_used { room } else { 0 };
        records.push(blank_history(alloc, room)?)?;
    }
    Ok(records)
}
