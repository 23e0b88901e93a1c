//! Texts that are written piece by piece.

ghost use Rattle.std.specs.Prelude.{◌≡◌, [], true, false, IfOk};
ghost use Rattle.sequence.specs.Written.{Adds};

use std::alloc::{AllocError, Global};
use std::marker::Model;

/// A text that is written piece by piece. Out of memory it is lost, with all that is written later; who writes asks for that once, at
/// the end ([`Writer::into_text`]).
#[derive(Drop)]
pub struct Writer {
    text: Vec<u8>,
    is_lost: bool,
}

impl Model for Writer {
    ghost use Rattle.sequence.specs.Written.{Written};

    ghost Value = { Written };

    ghost view = { λ w. record { text = w.text.items; is_lost = w.is_lost } };
}

impl Writer {
    /// The empty text. Takes no memory.
    pub fn new(alloc: Global) -> Self
        ensures text { result.text ≡ [] }
        ensures whole { result.is_lost ≡ false }
    {
        Writer {
            text: Vec::new(alloc),
            is_lost: false,
        }
    }

    /// Writes these bytes at the end.
    pub fn push(&mut self, bytes: &[u8])
        ensures { Adds self.old bytes.now self.new }
    {
        if !self.is_lost && self.text.extend_from_slice(bytes).is_err() {
            self.lose();
        }
    }

    /// Loses the text, where what is to be written can't be made.
    pub fn lose(&mut self)
        ensures { self.new.is_lost ≡ true }
    {
        self.is_lost = true;
    }

    /// The text. An `Err` is that it is lost. Takes no memory.
    pub fn into_text(self) -> Result<Vec<u8>, AllocError>
        ensures whole { IfOk result (λ text. self.is_lost ≡ false) }
        ensures text { IfOk result (λ text. text.items ≡ self.text) }
    {
        let Writer { text, is_lost } = self;
        if is_lost { Err(AllocError) } else { Ok(text) }
    }
}
