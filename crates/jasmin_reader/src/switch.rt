//! A switch that is not at its end.

ghost use Rattle.std.specs.Prelude.{◌≡◌, [], is_some, IfOk, OnOk};
ghost use Rattle.jasmin_reader.specs.Listing.{case_of, with_key, end_of};

use jasmin_text::{Boxed, Instruction};
use sequence::{Sequence, Text};
use std::alloc::{AllocError, Global};
use std::collections::BTreeMap;
use std::marker::Model;

/// A `tableswitch`.
#[derive(Drop)]
pub(crate) struct Table {
    /// The first key.
    pub low: i32,
    /// The last key, where it is given.
    pub high: Option<i32>,
    /// The labels so far.
    pub labels: Sequence<Text>,
}

/// The keys of a `lookupswitch` so far, rising, with their labels.
#[derive(Drop)]
pub(crate) struct Cases {
    labels: BTreeMap<i32, Text>,
}

impl Model for Cases {
    ghost use Rattle.std.specs.Prelude.{List, ℕ, ℤ};

    ghost Value = { List (ℤ × List ℕ) };

    ghost view = { λ c. c.labels.entries };
}

impl Cases {
    /// No key.
    pub(crate) fn new(alloc: Global) -> Self
        ensures { result ≡ [] }
    {
        Cases {
            labels: BTreeMap::new(alloc),
        }
    }

    /// Whether the key is there already. Takes no memory.
    pub(crate) fn has(&self, key: i32) -> bool
        ensures { result ≡ is_some (case_of self.now key) }
    {
        self.labels.contains_key(&key)
    }

    /// One key more.
    pub(crate) fn add(&mut self, key: i32, label: Text) -> Result<(), AllocError>
        ensures { OnOk result (self.new ≡ with_key self.old key label) }
    {
        self.labels.insert(key, label)?;
        Ok(())
    }

    /// The keys and their labels, by rising key.
    pub(crate) fn into_sequence(self, alloc: Global) -> Result<Sequence<(i32, Text)>, AllocError>
        ensures { IfOk result (λ cases. cases ≡ self) }
    {
        let cases: Vec<(i32, Text)> = self.labels.into_iter().collect(alloc)?;
        Ok(Sequence::from_vec(cases))
    }
}

/// A switch whose last line has not come.
#[derive(Drop)]
pub(crate) enum Switch {
    /// A `tableswitch`.
    Table(Table),
    /// A `lookupswitch`.
    Lookup(Cases),
}

impl Switch {
    /// The instruction, with the label for all other keys.
    pub(crate) fn ended(self, alloc: Global, label: Text) -> Result<Instruction<Text>, AllocError>
        ensures { IfOk result (λ instruction. instruction ≡ end_of self label) }
    {
        match self {
            Switch::Table(Table { low, labels, .. }) => {
                let labels = Boxed::new(alloc, labels)?;
                Ok(Instruction::TableSwitch(low, labels, label))
            }
            Switch::Lookup(cases) => {
                let cases = Boxed::new(alloc, cases.into_sequence(alloc)?)?;
                Ok(Instruction::LookupSwitch(cases, label))
            }
        }
    }
}
