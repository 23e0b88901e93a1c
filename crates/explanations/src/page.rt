//! An explanation as it is written.

ghost use Rattle.std.specs.Prelude.{◌≤◌, IfOk, vec_len};

use crate::line::Word;
use jasmin_words::integer::{push_decimal, push_integer};
use sequence::Writer;
use std::alloc::{AllocError, Global};

/// The most bytes of a line that are shown.
const MOST_SHOWN: usize = 150;

/// How many bytes before the word at fault are shown of a line that is too long.
const MOST_BEFORE: usize = 60;

/// The most bytes of a name that are shown.
const MOST_OF_NAME: usize = 80;

/// An explanation, as far as it is written.
#[derive(Drop)]
pub(crate) struct Page {
    text: Writer,
}

/// How many spaces come before a line's number.
fn indent_of(number: usize) -> &'static str {
    if number < 10 {
        "  "
    } else if number < 100 {
        " "
    } else {
        ""
    }
}

/// As many spaces as a line's number takes with those before it.
fn gutter_of(number: usize) -> &'static str {
    if number < 1000 {
        "   "
    } else if number < 10_000 {
        "    "
    } else if number < 100_000 {
        "     "
    } else if number < 1_000_000 {
        "      "
    } else {
        "       "
    }
}

/// The bytes of a line without the CR at its end.
fn without_return(line: &[u8]) -> &[u8] {
    match line {
        [front @ .., b'\r'] => front,
        _ => line,
    }
}

impl Page {
    /// No line yet.
    pub(crate) fn new(alloc: Global) -> Self {
        Page {
            text: Writer::new(alloc),
        }
    }

    /// Writes these words at the end.
    pub(crate) fn say(&mut self, words: &str) {
        self.text.push(words.as_bytes());
    }

    /// Memory ran out.
    pub(crate) fn lose(&mut self) {
        self.text.lose();
    }

    /// Writes a number.
    pub(crate) fn number(&mut self, number: usize) {
        push_decimal(&mut self.text, number);
    }

    /// Writes an int.
    pub(crate) fn int(&mut self, number: i32) {
        push_integer(&mut self.text, number);
    }

    /// Writes a byte, `?` for one that isn't printable ASCII.
    fn byte(&mut self, byte: u8) {
        if byte == b'\t' || (32 <= byte && byte < 127) {
            self.text.push(&[byte]);
        } else {
            self.text.push(b"?");
        }
    }

    /// Writes bytes so.
    fn bytes(&mut self, bytes: &[u8]) {
        for byte in bytes {
            self.byte(*byte);
        }
    }

    /// Writes the first of these bytes in hexadecimal.
    pub(crate) fn hex(&mut self, bytes: &[u8]) {
        if let [byte, ..] = bytes {
            let digits = b"0123456789abcdef";
            let high = digits[*byte as usize / 16];
            let low = digits[*byte as usize % 16];
            self.text.push(&[b'0', b'x', high, low]);
        }
    }

    /// Writes a name, or a word: at most 80 bytes of it.
    pub(crate) fn name(&mut self, name: &[u8]) {
        self.bytes(name.get(..MOST_OF_NAME).unwrap_or(name));
        if MOST_OF_NAME < name.len() {
            self.say("..");
        }
    }

    /// Writes these words, a name, and these words.
    pub(crate) fn about(&mut self, before: &str, name: &[u8], after: &str) {
        self.say(before);
        self.name(name);
        self.say(after);
    }

    /// Writes the end of a line with carets: as many bytes as are before the word, then carets below it.
    fn carets(&mut self, before: &[u8], length: usize) {
        for byte in before {
            self.text.push(if *byte == b'\t' { b"\t" } else { b" " });
        }
        for _byte in 0..length {
            self.text.push(b"^");
        }
        self.say("\n");
    }

    /// Writes the beginning of a line of the page that shows a line with this number.
    fn numbered(&mut self, number: usize) {
        self.say(indent_of(number));
        self.number(number);
        self.say(" | ");
    }

    /// Shows a line, or of a long one what is round the word.
    fn line(&mut self, number: usize, line: &[u8], word: &Word<'_>) {
        let from = if line.len() <= MOST_SHOWN {
            0
        } else {
            word.at.saturating_sub(MOST_BEFORE)
        };
        let rest = line.get(from..).unwrap_or(&[]);
        let shown = rest.get(..MOST_SHOWN).unwrap_or(rest);
        let dots = if from == 0 { "" } else { ".." };
        self.numbered(number);
        self.say(dots);
        self.bytes(shown);
        self.say(if shown.len() < rest.len() {
            "..\n"
        } else {
            "\n"
        });
        self.say(gutter_of(number));
        self.say(" | ");
        self.say(if from == 0 { "" } else { "  " });
        let before = line.get(from..word.at).unwrap_or(&[]);
        let room = shown.len().saturating_sub(before.len());
        self.carets(before, word.bytes.len().min(room).max(1));
    }

    /// Shows a line with its number, and carets below the word.
    pub(crate) fn show(&mut self, number: usize, line: &[u8], word: &Word<'_>) {
        self.line(number, without_return(line), word);
    }

    /// Says that another name may be meant, if there is one.
    pub(crate) fn perhaps(&mut self, meant: Option<&[u8]>) {
        if let Some(name) = meant {
            self.about("; perhaps ", name, " is meant");
        }
    }

    /// The text, with the end of its last line, and a line that says where there is more on this code.
    pub(crate) fn ended(self, code: &str) -> Result<Vec<u8>, AllocError>
        ensures { IfOk result (λ text. 1 ≤ vec_len text) }
    {
        let Page { mut text } = self;
        text.push(b"\n`jinit explain ");
        text.push(code.as_bytes());
        text.push(b"` says more\n");
        text.into_text()
    }

    /// The same for the code of this letter and number.
    pub(crate) fn ended_at(self, letter: &str, number: u8) -> Result<Vec<u8>, AllocError>
        ensures { IfOk result (λ text. 1 ≤ vec_len text) }
    {
        let Page { mut text } = self;
        text.push(b"\n`jinit explain ");
        text.push(letter.as_bytes());
        push_decimal(&mut text, number as usize);
        text.push(b"` says more\n");
        text.into_text()
    }
}
