//! The labels of a method.

ghost use Rattle.std.specs.Prelude.{◌≡◌, ◌++◌, ◌∷◌, [], None, OnErr, OnOk, length};
ghost use Rattle.jasmin_text.specs.Grammar.{place_of};

use std::alloc::{AllocError, Global};
use std::marker::Model;
use texts::Texts;

/// The labels of a method with their places, in the order of the file, found by name.
#[derive(Drop)]
pub(crate) struct Labels {
    /// The labels themselves.
    names: Texts,
    /// The place of each label.
    places: Vec<u16>,
}

impl Model for Labels {
    ghost use Rattle.std.specs.Prelude.{◌≡◌, List, ℕ, length};
    ghost use Rattle.std.specs.List.{zip};

    ghost Value = { List (List ℕ × ℕ) };

    ghost view = { λ l. zip l.names l.places.items };

    ghost invariant = { λ l. length l.names ≡ length l.places.items };
}

impl Labels {
    /// No label. Takes no memory.
    pub(crate) fn new(alloc: Global) -> Self
        ensures { result ≡ [] }
    {
        Labels {
            names: Texts::new(alloc),
            places: Vec::new(alloc),
        }
    }

    /// How many labels there are.
    pub(crate) fn len(&self) -> usize
        ensures { result ≡ length self.now }
    {
        self.places.len()
    }

    /// The place of a label. Takes no memory.
    pub(crate) fn place(&self, label: &[u8]) -> Option<u16>
        ensures { result ≡ place_of self.now label.now }
    {
        let place = self.names.place(label)?;
        Some(self.places[place])
    }

    /// One label more. Out of memory, the labels stay as they were.
    pub(crate) fn add(&mut self, alloc: Global, label: &[u8], place: u16) -> Result<(), AllocError>
        requires { place_of self.old label.now ≡ None }
        ensures added { OnOk result (self.new ≡ self.old ++ (label.now, place) ∷ []) }
        ensures unchanged { OnErr result (self.new ≡ self.old) }
    {
        self.places.reserve(1)?;
        self.names.note(alloc, label)?;
        self.places.push_reserved(place);
        Ok(())
    }
}
