//! Lines of a text and their words, with the places where they are.

use jasmin_words::name::same;
use std::alloc::{AllocError, Global};

/// What a word of a line is, as docs/JASMIN.md has them.
#[derive(Clone, Copy, PartialEq, Eq)]
pub(crate) enum Sort {
    /// A word of ASCII bytes from 33 to 126.
    Plain,
    /// A word with another byte.
    Bad,
    /// `=`
    Equals,
    /// `:`
    Colon,
    /// A string with both quotes.
    Text,
    /// A string without its closing quote, to the line's end.
    Open,
}

/// A word of a line.
#[derive(Clone, Copy)]
pub(crate) struct Word<'a> {
    /// How many bytes of the line are before it.
    pub at: usize,
    /// Its bytes, with the quotes of a string.
    pub bytes: &'a [u8],
    /// What it is.
    pub sort: Sort,
}

impl<'a> Word<'a> {
    /// No word, at a line's beginning.
    pub(crate) const NONE: Word<'static> = Word {
        at: 0,
        bytes: b"",
        sort: Sort::Plain,
    };

    /// Where the line goes on after it.
    pub(crate) fn end(&self) -> usize {
        self.at.saturating_add(self.bytes.len())
    }

    /// Whether it is this word.
    pub(crate) fn is(&self, word: &[u8]) -> bool {
        same(self.bytes, word)
    }

    /// Whether it may be a name or another operand, as far as its bytes go.
    pub(crate) fn is_plain(&self) -> bool {
        self.sort == Sort::Plain
    }

    /// Nothing, right after it.
    pub(crate) fn after(&self) -> Word<'a> {
        self.part(self.bytes.len(), self.bytes.len())
    }

    /// A part of it, from `from` on.
    pub(crate) fn part(&self, from: usize, to: usize) -> Word<'a> {
        let bytes = self.bytes.get(..to).unwrap_or(self.bytes);
        Word {
            at: self.at.saturating_add(from),
            bytes: bytes.get(from..).unwrap_or(&[]),
            sort: self.sort,
        }
    }
}

fn is_blank(byte: u8) -> bool {
    byte == b' ' || byte == b'\t' || byte == b'\r'
}

/// How many bytes without meaning come first.
fn blank_length(bytes: &[u8]) -> usize {
    for (count, byte) in bytes.iter().enumerate() {
        if !is_blank(*byte) {
            return count;
        }
    }
    bytes.len()
}

/// How many bytes the word has that comes first.
fn plain_length(bytes: &[u8]) -> usize {
    for (count, byte) in bytes.iter().enumerate() {
        if is_blank(*byte) || *byte == b'"' || *byte == b':' || *byte == b'=' {
            return count;
        }
    }
    bytes.len()
}

/// How many bytes come before a string's closing quote, if there is one, after its opening one.
fn text_length(bytes: &[u8]) -> Option<usize> {
    let mut escaped = false;
    for (count, byte) in bytes.iter().enumerate() {
        if !escaped && *byte == b'"' {
            return Some(count);
        }
        escaped = !escaped && *byte == b'\\';
    }
    None
}

/// Where the first byte is that isn't from 33 to 126, if one is there.
pub(crate) fn odd_byte(bytes: &[u8]) -> Option<usize> {
    for (count, byte) in bytes.iter().enumerate() {
        if *byte < 33 || 126 < *byte {
            return Some(count);
        }
    }
    None
}

/// The length of the word that comes first, and what it is.
fn measured(bytes: &[u8]) -> (usize, Sort) {
    match bytes {
        [] => (0, Sort::Plain),
        [b':', ..] => (1, Sort::Colon),
        [b'=', ..] => (1, Sort::Equals),
        [b'"', after @ ..] => match text_length(after) {
            Some(count) => (count.saturating_add(2), Sort::Text),
            None => (bytes.len(), Sort::Open),
        },
        _ => {
            let length = plain_length(bytes);
            let word = bytes.get(..length).unwrap_or(bytes);
            if odd_byte(word).is_some() {
                (length, Sort::Bad)
            } else {
                (length, Sort::Plain)
            }
        }
    }
}

/// The next word from this place on, if one comes before the line's end or a comment.
pub(crate) fn next_word(line: &[u8], from: usize) -> Option<Word<'_>> {
    let rest = line.get(from..).unwrap_or(&[]);
    let blanks = blank_length(rest);
    let rest = rest.get(blanks..).unwrap_or(&[]);
    match rest {
        [] => None,
        [b';', ..] if from == 0 || 0 < blanks => None,
        _ => {
            let (length, sort) = measured(rest);
            Some(Word {
                at: from.saturating_add(blanks),
                bytes: rest.get(..length).unwrap_or(rest),
                sort,
            })
        }
    }
}

/// The word after this one.
pub(crate) fn word_after<'a>(line: &'a [u8], word: &Word<'_>) -> Option<Word<'a>> {
    next_word(line, word.end())
}

/// The last word of a line.
pub(crate) fn last_word(line: &[u8]) -> Option<Word<'_>> {
    let mut last = None;
    let mut from = 0;
    for _word in 0..line.len() {
        match next_word(line, from) {
            Some(word) => {
                from = word.end();
                last = Some(word);
            }
            None => return last,
        }
    }
    last
}

/// The lines of a text, without their ends.
pub(crate) fn lines_of(alloc: Global, text: &[u8]) -> Result<Vec<&[u8]>, AllocError> {
    let mut lines = Vec::new(alloc);
    let mut from = 0;
    for at in 0..text.len() {
        let end = at + 1;
        let is_end = text[at] == b'\n';
        if is_end || end == text.len() {
            let last = if is_end { at } else { end };
            lines.push(text.get(from..last).unwrap_or(&[]))?;
            from = end;
        }
    }
    Ok(lines)
}

/// The line with this number, from 1; an empty one where the text has fewer.
pub(crate) fn line_in<'a>(lines: &[&'a [u8]], number: usize) -> &'a [u8] {
    match lines.get(number.saturating_sub(1)) {
        Some(line) => *line,
        None => &[],
    }
}

/// What begins a line.
#[derive(Clone, Copy)]
pub(crate) struct Row<'a> {
    /// The label, where a colon follows the first word.
    pub label: Option<Word<'a>>,
    /// The first word after the label.
    pub word: Option<Word<'a>>,
}

/// What begins a line.
pub(crate) fn row_of(line: &[u8]) -> Row<'_> {
    let Some(first) = next_word(line, 0) else {
        return Row {
            label: None,
            word: None,
        };
    };
    match word_after(line, &first) {
        Some(second) if second.sort == Sort::Colon && !first.bytes.starts_with(b".") => Row {
            label: Some(first),
            word: word_after(line, &second),
        },
        _ => Row {
            label: None,
            word: Some(first),
        },
    }
}
