//! Texts without repeats, found by their bytes, for every crate that keeps a table of names.
//!
//! [`Texts`] holds byte strings in the order in which they were noted, each once. A contract sees them as the list of
//! those byte strings. A text's place is its index in that list, and it stays, since texts are only added at the end:
//! callers keep beside it what they know of each text, in lists of their own, and look it up by the place.
//!
//! The names in a file are chosen by whoever wrote it. So they are kept in a search tree and not in a hash table: to
//! find a text among n takes at most some log n comparisons whatever the texts are, and no choice of names makes that
//! slow, as one can against a hash function that is known.
#![tactic(auto)]

ghost use Rattle.std.specs.Prelude.{◌≡◌, ◌++◌, ◌∷◌, [], false, IfSome, ◌<◌, OnErr, OnOk, is_some, length, option_copied, slice_get};
ghost use Rattle.texts.specs.Texts.{place_of_text, has_text, note_text};

use std::alloc::{AllocError, Global};
use std::collections::BTreeMap;
use std::marker::Model;

/// Byte strings in the order in which they were noted, each once, found by their bytes.
pub struct Texts {
    /// The place of each text.
    places: BTreeMap<Vec<u8>, usize>,
    /// The text at each place.
    texts: Vec<Vec<u8>>,
}

impl Drop for Texts {
    fn drop(self) {
        let Self {
            places: _,
            texts: _,
        } = self;
    }
}

impl Model for Texts {
    ghost use Rattle.std.specs.Prelude.{List, ℕ, map};
    ghost use Rattle.texts.specs.Places.{FindsEach};

    ghost Value = { List (List ℕ) };

    ghost view = { λ t. map (λ v. v.items) t.texts.items };

    ghost invariant = { λ t. FindsEach t.places (map (λ v. v.items) t.texts.items) };
}

impl Texts {
    /// No text. Takes no memory.
    pub fn new(alloc: Global) -> Self
        ensures { result ≡ [] }
    {
        Texts {
            places: BTreeMap::new(alloc),
            texts: Vec::new(alloc),
        }
    }

    /// The place of a text, from 0. Takes no memory.
    pub fn place(&self, text: &[u8]) -> Option<usize>
        ensures place { result ≡ place_of_text text.now self.now }
        ensures found { is_some result ≡ has_text text.now self.now }
        ensures within { IfSome result (λ place. place < length self.now) }
    {
        self.places.get(text).copied()
    }

    /// The text at that place.
    pub fn at(&self, place: usize) -> Option<&[u8]>
        ensures { option_copied result ≡ slice_get self.now place }
    {
        Some(self.texts.get(place)?.as_slice())
    }

    /// How many texts there are.
    pub fn len(&self) -> usize
        ensures { result ≡ length self.now }
    {
        self.texts.len()
    }

    /// Adds a text that is not there yet at the end, all memory first.
    fn add(&mut self, alloc: Global, text: &[u8]) -> Result<(), AllocError>
        requires { has_text text.now self.old ≡ false }
        ensures noted { OnOk result (self.new ≡ self.old ++ text.now ∷ []) }
        ensures unchanged { OnErr result (self.new ≡ self.old) }
    {
        let key = Vec::from_slice(alloc, text)?;
        let copy = Vec::from_slice(alloc, text)?;
        self.texts.reserve(1)?;
        self.places.insert(key, self.texts.len())?;
        self.texts.push_reserved(copy);
        Ok(())
    }

    /// Notes a copy of a text at the end unless it is there already. Out of memory, the texts stay as they were.
    pub fn note(&mut self, alloc: Global, text: &[u8]) -> Result<(), AllocError>
        ensures noted { OnOk result (self.new ≡ note_text self.old text.now) }
        ensures unchanged { OnErr result (self.new ≡ self.old) }
    {
        if self.place(text).is_some() {
            return Ok(());
        }
        self.add(alloc, text)
    }
}
