//! What lies in the table at a place.
ghost use Rattle.std.specs.Prelude.{◌≡◌, Some};

use crate::block::Block;
use crossbeam_utils::CachePadded;
use std::marker::Model;
use std::mem;

/// The slot of a place: the place's record while it is free, else nothing.
///
/// The padding keeps the pointers of two places off one cache line, since each is written twice a round of its lock. It is
/// itself never written: a slot is changed by [`Slot::replace`] alone, where it lies. Contracts see the record, if it is there.
#[derive(Drop)]
pub(crate) struct Slot<R> {
    content: CachePadded<Option<Block<R>>>,
}

impl<R> Model for Slot<R> {
    ghost use Rattle.std.specs.Prelude.{Option};
    ghost use Rattle.crossbeam_utils.specs.Padded.{padded_value};

    ghost Value = { Option R };

    ghost view = { λ s. padded_value s.content };
}

impl<R> Slot<R> {
    pub(crate) fn new(block: Block<R>) -> Slot<R>
        ensures { result ≡ Some block }
    {
        Slot {
            content: CachePadded::new(Some(block)),
        }
    }

    /// Puts this in, and answers what was there.
    pub(crate) fn replace(&mut self, content: Option<Block<R>>) -> Option<Block<R>>
        ensures found { result ≡ self.old }
        ensures after { self.new ≡ content }
    {
        mem::replace(&mut self.content, content)
    }

    pub(crate) fn into_block(self) -> Option<Block<R>>
        ensures { result ≡ self }
    {
        self.content.into_inner()
    }
}
