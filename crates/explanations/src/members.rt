//! The fields and methods that a file declares.

use crate::classes::{directive_in, has_word};
use crate::line::{Word, last_word, row_of, word_after};
use jasmin_text::form::Directive;
use std::alloc::{AllocError, Global};

/// A field or a method that a line declares.
#[derive(Clone, Copy)]
pub(crate) struct Member<'a> {
    /// The number of the line, from 1.
    pub number: usize,
    /// The name; of a method with the descriptor, since they are one word.
    pub name: Word<'a>,
    /// The descriptor, or of a method the same word.
    pub descriptor: Word<'a>,
    /// Whether it is a static field.
    pub is_static_field: bool,
}

/// The name and the descriptor in a field's line.
fn field_words(line: &[u8]) -> Option<(Word<'_>, Word<'_>)> {
    let mut before = row_of(line).word?;
    let mut last = word_after(line, &before)?;
    for _word in 0..line.len() {
        match word_after(line, &last) {
            Some(word) if word.is_plain() && !word.is(b"signature") => {
                before = last;
                last = word;
            }
            _ => return Some((before, last)),
        }
    }
    None
}

/// The member that a line declares.
fn member_in(number: usize, line: &[u8]) -> Option<Member<'_>> {
    let (name, descriptor, is_static_field) = match directive_in(line)? {
        Directive::Method => {
            let word = last_word(line)?;
            (word, word, false)
        }
        Directive::Field => {
            let (name, descriptor) = field_words(line)?;
            (name, descriptor, has_word(line, b"static"))
        }
        _ => return None,
    };
    Some(Member {
        number,
        name,
        descriptor,
        is_static_field,
    })
}

/// The fields and methods that these lines declare, in their order.
pub(crate) fn members_of<'a>(
    alloc: Global,
    lines: &[&'a [u8]],
) -> Result<Vec<Member<'a>>, AllocError> {
    let mut members = Vec::new(alloc);
    for (count, line) in lines.iter().enumerate() {
        if let Some(member) = member_in(count.saturating_add(1), line) {
            members.push(member)?;
        }
    }
    Ok(members)
}
