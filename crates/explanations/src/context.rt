//! What is open at a line of a file.

use crate::line::{Row, Word, last_word, line_in, row_of};
use jasmin_text::form::{Directive, directive_of};

/// What is open at a line of a file, and where what comes once came. Each has the number of its line, from 1.
#[derive(Clone, Copy)]
pub(crate) struct Context {
    /// `.class` or `.interface`.
    pub class: Option<usize>,
    /// `.super`
    pub superclass: Option<usize>,
    /// The first field or method.
    pub member: Option<usize>,
    /// The last method whose end hasn't come.
    pub method: Option<usize>,
    /// The switch whose last line hasn't come.
    pub switch: Option<usize>,
}

/// Whether the row is the last one of a switch.
fn ends_switch(row: &Row<'_>) -> bool {
    match &row.label {
        Some(label) => label.is(b"default"),
        None => false,
    }
}

impl Context {
    fn pass_directive(&mut self, number: usize, directive: Directive) {
        match directive {
            Directive::Class | Directive::Interface => self.class = self.class.or(Some(number)),
            Directive::Super => self.superclass = self.superclass.or(Some(number)),
            Directive::Field => self.member = self.member.or(Some(number)),
            Directive::Method => {
                self.member = self.member.or(Some(number));
                self.method = Some(number);
                self.switch = None;
            }
            Directive::End => {
                self.method = None;
                self.switch = None;
            }
            _ => {}
        }
    }

    fn pass_word(&mut self, number: usize, row: &Row<'_>, word: &Word<'_>) {
        if self.switch.is_some() {
            if ends_switch(row) {
                self.switch = None;
            }
        } else if self.method.is_some() && (word.is(b"tableswitch") || word.is(b"lookupswitch")) {
            self.switch = Some(number);
        }
    }

    /// The context after a line.
    pub(crate) fn pass(&mut self, number: usize, line: &[u8]) {
        let row = row_of(line);
        if let Some(word) = &row.word {
            match directive_of(word.bytes) {
                Some(directive) => self.pass_directive(number, directive),
                None => self.pass_word(number, &row, word),
            }
        }
    }

    /// What is open before the line with this number.
    pub(crate) fn before(lines: &[&[u8]], number: usize) -> Context {
        let mut context = Context {
            class: None,
            superclass: None,
            member: None,
            method: None,
            switch: None,
        };
        let last = number.saturating_sub(1).min(lines.len());
        for count in 0..last {
            let number = count + 1;
            context.pass(number, line_in(lines, number));
        }
        context
    }
}

/// A line of a file that is at fault.
#[derive(Clone, Copy)]
pub(crate) struct Spot<'a, 'l> {
    /// All lines.
    pub lines: &'l [&'a [u8]],
    /// Its number, from 1.
    pub number: usize,
    /// The line.
    pub line: &'a [u8],
    /// What is open before it.
    pub context: Context,
}

impl<'a, 'l> Spot<'a, 'l> {
    /// The line with this number, or the last one where there are fewer.
    pub(crate) fn at(lines: &'l [&'a [u8]], number: usize) -> Self {
        let number = number.min(lines.len()).max(1);
        Spot {
            lines,
            number,
            line: line_in(lines, number),
            context: Context::before(lines, number),
        }
    }

    /// The name and descriptor of the method whose first line has this number.
    pub(crate) fn method_name(&self, number: usize) -> Word<'a> {
        match last_word(line_in(self.lines, number)) {
            Some(word) => word,
            None => Word::NONE,
        }
    }
}
