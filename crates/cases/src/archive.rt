//! Cases as text: the form of the files in data/.
//!
//! A file is UTF-8 text, an archive of parts. The lines before the first head are a comment.
//!
//! - A line `-- TEXT --` is a head. The lines after it, up to the next head, are its body, each with its line feed.
//! - After a head `-- each: TEXT --` each line is a part of its own, with the head `TEXT`.
//! - A line `== TEXT ==` is a head too. It begins a group of cases and says why they are answered so, with the
//!   section of the standard where there is one. Its body is a comment.
//! - An empty line directly before a `== ==` head belongs to no part. Any other empty line is one of the body.
//!
//! In a body `«` and `»` spell what a text editor doesn't show:
//!
//! - `«0d»` and `«ff 01»` are these bytes, in hexadecimal digits. `«` itself is spelled `«c2 ab»`.
//! - `«»` at the end of a line takes away the line feed after it.
//! - `«300 times ab»` is `ab` 300 times. In what is repeated, `#` is the number of the repeat, from 0, and `¶` a
//!   line feed.

use jasmin_words::integer::push_decimal;
use sequence::Writer;
use std::alloc::Global;

/// A head with its body.
#[derive(Drop)]
pub(crate) struct Part<'a> {
    /// The text of the head, without its marks.
    pub(crate) head: &'a str,
    /// Whether the head is a `== ==`.
    pub(crate) is_group: bool,
    /// The bytes that the body spells.
    pub(crate) body: Vec<u8>,
    /// The number of the head's line, from 1.
    pub(crate) line: usize,
}

/// The parts of a file, in their order.
#[derive(Drop)]
pub(crate) struct Archive<'a> {
    alloc: Global,
    pub(crate) parts: Vec<Part<'a>>,
    /// The head of each line from here on, where each is a part of its own.
    each: Option<&'a str>,
    /// The first line with a malformed escape, if there is one: 0 where the file isn't UTF-8.
    pub(crate) bad_line: Option<usize>,
    /// Whether memory was refused: then there are more parts, or longer ones.
    pub(crate) is_refused: bool,
}

/// The text of a head, and whether it begins a group.
fn head_of(line: &str) -> Option<(&str, bool)> {
    if let Some(text) = line.strip_prefix("-- ") {
        return Some((text.strip_suffix(" --")?, false));
    }
    let text = line.strip_prefix("== ")?;
    Some((text.strip_suffix(" ==")?, true))
}

impl<'a> Archive<'a> {
    /// The archive that a file's bytes spell, up to a malformed escape.
    pub(crate) fn read(alloc: Global, bytes: &'a [u8]) -> Archive<'a> {
        let mut archive = Archive {
            alloc,
            parts: Vec::new(alloc),
            each: None,
            bad_line: None,
            is_refused: false,
        };
        match std::str::from_utf8(bytes) {
            Ok(text) => archive.push_text(text),
            Err(_) => archive.bad_line = Some(0),
        }
        archive
    }

    /// Adds bytes to the last part's body.
    fn push(&mut self, bytes: &[u8]) {
        if let Some(part) = self.parts.last_mut() {
            if part.body.extend_from_slice(bytes).is_err() {
                self.is_refused = true;
            }
        }
    }

    /// Adds the bytes that hexadecimal digits spell, or answers that they spell none.
    fn push_bytes(&mut self, digits: &str) -> bool {
        for word in digits.split_whitespace() {
            match u8::from_str_radix(word, 16) {
                Ok(byte) => self.push(&[byte]),
                Err(_) => return false,
            }
        }
        true
    }

    /// Adds a text with the number of the repeat for `#` and a line feed for `¶`.
    fn push_copy(&mut self, number: usize, text: &str) {
        let mut digits = Writer::new(self.alloc);
        push_decimal(&mut digits, number);
        let Ok(digits) = digits.into_text() else {
            self.is_refused = true;
            return;
        };
        for character in text.chars() {
            match character {
                '#' => self.push(&digits),
                '¶' => self.push(b"\n"),
                other => self.push(other.encode_utf8(&mut [0; 4]).as_bytes()),
            }
        }
    }

    /// Adds so many copies of a text, or answers that the count is none.
    fn push_times(&mut self, count: &str, text: &str) -> bool {
        let Ok(count) = count.parse::<usize>() else {
            return false;
        };
        for number in 0..count {
            if self.is_refused {
                return true;
            }
            self.push_copy(number, text);
        }
        true
    }

    /// Adds what is spelled after a `«`, or answers that the escape is malformed.
    fn push_piece(&mut self, piece: &str) -> bool {
        let Some((escape, after)) = piece.split_once('»') else {
            return false;
        };
        let is_good = match escape.split_once(" times ") {
            Some((count, text)) => self.push_times(count, text),
            None => self.push_bytes(escape),
        };
        self.push(after.as_bytes());
        is_good
    }

    /// Adds a line to the last part's body, or answers that an escape is malformed.
    fn push_line(&mut self, line: &str) -> bool {
        if self.parts.is_empty() {
            return true;
        }
        let mut is_first = true;
        for piece in line.split('«') {
            if is_first {
                self.push(piece.as_bytes());
            } else if !self.push_piece(piece) {
                return false;
            }
            is_first = false;
        }
        if !line.ends_with("«»") {
            self.push(b"\n");
        }
        true
    }

    /// Adds a part with an empty body.
    fn push_part(&mut self, head: &'a str, is_group: bool, line: usize) {
        let body = Vec::new(self.alloc);
        let part = Part {
            head,
            is_group,
            body,
            line,
        };
        if self.parts.push(part).is_err() {
            self.is_refused = true;
        }
    }

    /// Takes the empty line before a group: it is the last part, or the end of its body.
    fn drop_empty_line(&mut self) {
        if self.each.is_some() {
            let _ = self.parts.pop();
        } else if let Some(part) = self.parts.last_mut() {
            let _ = part.body.pop();
        }
    }

    /// Adds a line: a head, or a line of the last part's body. Answers whether its escapes are well formed.
    fn push_any(&mut self, line: &'a str, number: usize, is_after_empty: bool) -> bool {
        let Some((head, is_group)) = head_of(line) else {
            if let Some(head) = self.each {
                self.push_part(head, false, number);
            }
            return self.push_line(line);
        };
        if is_group && is_after_empty {
            self.drop_empty_line();
        }
        self.each = head.strip_prefix("each: ");
        if self.each.is_none() {
            self.push_part(head, is_group, number);
        }
        true
    }

    /// Adds the parts of a text, up to the first line with a malformed escape.
    fn push_text(&mut self, text: &'a str) {
        let mut number: usize = 0;
        let mut is_after_empty = false;
        for line in text.split_terminator('\n') {
            number = number.saturating_add(1);
            if !self.push_any(line, number, is_after_empty) {
                self.bad_line = Some(number);
                return;
            }
            is_after_empty = line.is_empty();
        }
    }
}

/// The parts after the one at this index, up to the next with that head.
pub(crate) fn parts_after<'p, 'a>(
    parts: &'p [Part<'a>],
    index: usize,
    head: &str,
) -> &'p [Part<'a>] {
    let after = parts.get(index.saturating_add(1)..).unwrap_or_default();
    for (count, part) in after.iter().enumerate() {
        if part.head == head && !part.is_group {
            return after.get(..count).unwrap_or_default();
        }
    }
    after
}
