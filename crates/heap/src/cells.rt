//! Lists whose elements are written in place.

ghost use Rattle.std.specs.Prelude.{◌≡◌, [], IfOk, length, nat_lt, replicate, slice_get, slice_set};

use std::alloc::{AllocError, Global};
use std::marker::Model;

/// A list that owns its memory, of a length that doesn't change.
#[derive(Drop)]
pub struct Cells<T> {
    items: Vec<T>,
}

impl<T> Model for Cells<T> {
    ghost use Rattle.std.specs.Prelude.{List};

    ghost Value = { List T };

    ghost view = { λ c. c.items.items };
}

impl<T: Copy> Cells<T> {
    /// A list without elements. Takes no memory.
    pub(crate) fn new(alloc: Global) -> Self
        ensures { result ≡ [] }
    {
        Cells {
            items: Vec::new(alloc),
        }
    }

    /// So many elements, all the same. An `Err` means out of memory.
    pub(crate) fn filled(alloc: Global, count: usize, item: T) -> Result<Self, AllocError>
        ensures { IfOk result (λ cells. cells ≡ replicate count item) }
    {
        let mut items = Vec::new(alloc);
        items.resize(count, item)?;
        Ok(Cells { items })
    }

    /// How many elements there are.
    pub(crate) fn len(&self) -> usize
        ensures { result ≡ length self.now }
    {
        self.items.len()
    }

    /// The element at a place, if there is one.
    pub(crate) fn get(&self, place: usize) -> Option<T>
        ensures { result ≡ slice_get self.now place }
    {
        self.items.get(place).copied()
    }

    /// Writes the element at a place. Answers whether there is one.
    pub(crate) fn put(&mut self, place: usize, item: T) -> bool
        ensures found { result ≡ nat_lt place (length self.old) }
        ensures written { self.new ≡ slice_set self.old place item }
    {
        let items = &mut self.items;
        if place < items.len() {
            items[place] = item;
            return true;
        }
        false
    }
}
