//! What files say of their classes.

use crate::Source;
use crate::line::{Word, last_word, lines_of, row_of, word_after};
use crate::nearest::Nearest;
use hierarchy::built_in::BUILT_IN_NAMES;
use jasmin_text::form::{Directive, directive_of};
use jasmin_words::name::same;
use std::alloc::{AllocError, Global};

/// A line of a file that names a class.
#[derive(Clone, Copy)]
pub(crate) struct Naming<'a> {
    /// Its number, from 1.
    pub number: usize,
    /// The line.
    pub line: &'a [u8],
    /// The name.
    pub name: Word<'a>,
}

/// What a file says of its class.
#[derive(Drop)]
pub(crate) struct Class<'a> {
    /// The file.
    pub file: &'a str,
    /// Its lines.
    pub lines: Vec<&'a [u8]>,
    /// The line `.class` or `.interface`.
    pub head: Naming<'a>,
    /// Whether it is an interface.
    pub is_interface: bool,
    /// The line `.super`, where it is there, and the lines `.implements`, in their order.
    pub supertypes: Vec<Naming<'a>>,
}

/// Whether the directive of this line is the word.
pub(crate) fn directive_in(line: &[u8]) -> Option<Directive> {
    directive_of(row_of(line).word?.bytes)
}

/// Whether a line has this word.
pub(crate) fn has_word(line: &[u8], wanted: &[u8]) -> bool {
    let mut last = Word::NONE;
    for _word in 0..line.len() {
        match word_after(line, &last) {
            Some(word) if word.is(wanted) => return true,
            Some(word) => last = word,
            None => return false,
        }
    }
    false
}

/// Whether the line begins an interface.
fn begins_interface(line: &[u8]) -> bool {
    match directive_in(line) {
        Some(Directive::Interface) => true,
        Some(Directive::Class) => has_word(line, b"interface"),
        _ => false,
    }
}

impl<'a> Class<'a> {
    /// What a file says of its class.
    pub(crate) fn of(alloc: Global, source: &Source<'a>) -> Result<Class<'a>, AllocError> {
        let lines = lines_of(alloc, source.text)?;
        let mut class = Class {
            file: source.name,
            head: Naming {
                number: 1,
                line: &[],
                name: Word::NONE,
            },
            is_interface: false,
            supertypes: Vec::new(alloc),
            lines: Vec::new(alloc),
        };
        for (count, line) in lines.iter().enumerate() {
            class.pass(count.saturating_add(1), line)?;
        }
        class.lines = lines;
        Ok(class)
    }

    /// One line more.
    fn pass(&mut self, number: usize, line: &'a [u8]) -> Result<(), AllocError> {
        let naming = Naming {
            number,
            line,
            name: last_word(line).unwrap_or(Word::NONE),
        };
        match directive_in(line) {
            Some(Directive::Class | Directive::Interface) => {
                self.is_interface = begins_interface(line);
                self.head = naming;
            }
            Some(Directive::Super | Directive::Implements) => self.supertypes.push(naming)?,
            _ => {}
        }
        Ok(())
    }

    /// The class's name.
    pub(crate) fn name(&self) -> &'a [u8] {
        self.head.name.bytes
    }
}

/// What the files say of their classes.
pub(crate) fn classes_of<'a>(
    alloc: Global,
    sources: &[Source<'a>],
) -> Result<Vec<Class<'a>>, AllocError> {
    let mut classes = Vec::new(alloc);
    for source in sources {
        classes.push(Class::of(alloc, source)?)?;
    }
    Ok(classes)
}

/// The first of the classes that has this name.
pub(crate) fn class_named<'l, 'a>(classes: &'l [Class<'a>], name: &[u8]) -> Option<&'l Class<'a>> {
    for class in classes {
        if same(class.name(), name) {
            return Some(class);
        }
    }
    None
}

/// The nearest name of a class of the files, or of a built-in one where these count.
pub(crate) fn nearest_class<'a>(
    classes: &[Class<'a>],
    word: &[u8],
    with_built_in: bool,
) -> Option<&'a [u8]> {
    let mut nearest = Nearest::to(word);
    for class in classes {
        nearest.offer(class.name());
    }
    if with_built_in {
        for name in &BUILT_IN_NAMES {
            nearest.offer(name);
        }
    }
    nearest.found()
}
