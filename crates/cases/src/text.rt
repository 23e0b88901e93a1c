//! Texts that grow.

use std::alloc::{AllocError, Global};
use std::fmt;
use std::fmt::Write;

/// A text that grows. Where memory is refused it notes so and stays as it is, so that what writes a text needs no answer: whoever
/// reads the text asks once.
#[derive(Drop)]
pub(crate) struct Text {
    /// What was added.
    pub(crate) bytes: Vec<u8>,
    /// Whether memory was refused.
    pub(crate) is_refused: bool,
}

impl Text {
    /// An empty text.
    pub(crate) fn new(alloc: Global) -> Text {
        Text {
            bytes: Vec::new(alloc),
            is_refused: false,
        }
    }

    /// Adds these bytes.
    pub(crate) fn push(&mut self, bytes: &[u8]) {
        if self.is_refused || self.bytes.extend_from_slice(bytes).is_err() {
            self.is_refused = true;
        }
    }

    /// Adds bytes that were made, or notes that they were refused.
    pub(crate) fn push_made(&mut self, made: Result<Vec<u8>, AllocError>) {
        match made {
            Ok(bytes) => self.push(&bytes),
            Err(_) => self.is_refused = true,
        }
    }

    /// Adds a value as it is shown.
    pub(crate) fn show(&mut self, value: &impl fmt::Display) {
        if write!(self, "{value}").is_err() {
            self.is_refused = true;
        }
    }

    /// Adds the code of a kind of fault, as `J5`: what it is shown as, up to a colon.
    pub(crate) fn show_code(&mut self, kind: &impl fmt::Display) {
        let mut shown = Text::new(*self.bytes.allocator());
        shown.show(kind);
        for byte in &shown.bytes {
            if *byte == b':' {
                break;
            }
            self.push(&[*byte]);
        }
        self.is_refused = self.is_refused || shown.is_refused;
    }
}

impl fmt::Write for Text {
    fn write_str(&mut self, text: &str) -> fmt::Result {
        self.push(text.as_bytes());
        Ok(())
    }
}
