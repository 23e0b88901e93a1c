//! Lists that own their memory, seen by contracts as the list alone, and what every reading of texts shares.
//!
//! A [`Sequence`] is a `Vec` without its capacity and its allocator: two sequences are equal in a contract
//! where they have the same elements in the same order. Class texts, linked classes and events hold
//! their parts in sequences, so that a contract can compare whole values with `≡` and name no view
//! function. A [`Text`] is a sequence of bytes, and a [`Name`] a text that is a name of some [`NameKind`].
//!
//! A sequence is made of a `Vec` and gives it back without taking memory. A [`Writer`] gathers a text piece by piece.
//!
//! A function that reads a text returns its value or a [`Refusal`]: there was no memory, or the text has a fault.
//! `specs/Gives.antt` says what such a function gives, and `proofs/Results.antt` has the lemmas about its steps.
#![tactic(auto)]

ghost use Rattle.std.specs.Prelude.{◌≡◌, ◌++◌, ◌∷◌, [], length, IfOk, IsTrue, OnErr, OnOk, ◌↔◌};

mod name;
mod refusal;
mod writer;

pub use name::{Name, NameKind};
pub use refusal::Refusal;
use std::alloc::{AllocError, Global};
use std::marker::Model;
pub use writer::Writer;

/// A list that owns its memory.
pub struct Sequence<T> {
    items: Vec<T>,
}

impl<T: Drop> Drop for Sequence<T> {
    fn drop(self) {
        let Self { items: _ } = self;
    }
}

impl<T> Model for Sequence<T> {
    ghost use Rattle.std.specs.Prelude.{List};

    ghost Value = { List T };

    ghost view = { λ s. s.items.items };
}

impl<T> Sequence<T> {
    /// The empty list. Takes no memory.
    pub fn new(alloc: Global) -> Self
        ensures { result ≡ [] }
    {
        Sequence {
            items: Vec::new(alloc),
        }
    }

    /// The elements of `items`. Takes no memory.
    pub fn from_vec(items: Vec<T>) -> Self
        ensures { result ≡ items.items }
    {
        Sequence { items }
    }

    /// The elements as a `Vec`. Takes no memory.
    pub fn into_vec(self) -> Vec<T>
        ensures { result.items ≡ self }
    {
        let Sequence { items } = self;
        items
    }

    /// How many elements the list has.
    pub fn len(&self) -> usize
        ensures { result ≡ length self.now }
    {
        self.items.len()
    }

    /// Whether the list has no element.
    pub fn is_empty(&self) -> bool
        ensures { IsTrue result ↔ (self.now ≡ []) }
    {
        self.items.is_empty()
    }

    /// The elements in order.
    pub fn as_slice(&self) -> &[T]
        ensures { result.now ≡ self.now }
    {
        self.items.as_slice()
    }
}

impl<T: Drop> Sequence<T> {
    /// Adds an element at the end. An `Err` means out of memory, drops the element and changes nothing.
    pub fn push(&mut self, item: T) -> Result<(), AllocError>
        ensures ok { OnOk result (self.new ≡ self.old ++ item ∷ []) }
        ensures err { OnErr result (self.new ≡ self.old) }
    {
        self.items.push(item)?;
        Ok(())
    }
}

/// Bytes that own their memory.
pub type Text = Sequence<u8>;

impl Sequence<u8> {
    /// A copy of the bytes.
    pub fn copied(alloc: Global, bytes: &[u8]) -> Result<Self, AllocError>
        ensures { IfOk result (λ text. text ≡ bytes.now) }
    {
        Ok(Sequence {
            items: Vec::from_slice(alloc, bytes)?,
        })
    }
}

impl Clone for Sequence<u8> {
    ghost is_clone = { λ text copy. copy ≡ text };

    fn clone(&self) -> Result<Self, AllocError>
        ensures { IfOk result (λ text. text ≡ self.now) }
    {
        let items = self.items.clone()?;
        Ok(Sequence { items })
    }
}
