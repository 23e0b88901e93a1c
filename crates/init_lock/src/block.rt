//! A record in a block of memory of its own.
ghost use Rattle.std.specs.Prelude.{◌≡◌, IfOk};
ghost use Rattle.std.specs.Borrow.{Lends, sem};
ghost use Rattle.init_lock.specs.contracts.block.Block.{the_row};

use crossbeam_utils::CachePadded;
use std::alloc::{AllocError, Global};
use std::marker::Model;

/// A record in a block of its own, which stays where it is while one pointer goes out of the table and back.
///
/// The padding keeps the records of two places off one cache line. Contracts see the record.
#[derive(Drop)]
pub(crate) struct Block<R> {
    memory: Box<CachePadded<R>>,
}

impl<R> Model for Block<R> {
    ghost use Rattle.crossbeam_utils.specs.Padded.{padded_value};

    ghost Value = { R };

    ghost view = { λ b. padded_value b.memory.value };
}

impl<R: Drop> Block<R> {
    pub(crate) fn new(alloc: Global, content: R) -> Result<Block<R>, AllocError>
        ensures { IfOk result (λ b. b ≡ content) }
    {
        Ok(Block {
            memory: Box::new(alloc, CachePadded::new(content))?,
        })
    }
}

impl<R> Block<R> {
    pub(crate) fn record(&mut self) -> &mut R
        ensures* writes_back { sem 𝓛 (Lends (the_row R.row) R.row self.entry result (λ r. r)) }
        ensures content { result.now ≡ self.old }
    {
        let padded: &mut CachePadded<R> = &mut self.memory;
        padded
    }

    pub(crate) fn into_record(self) -> R
        ensures { result ≡ self }
    {
        let Block { memory } = self;
        Box::into_inner(memory).into_inner()
    }
}
