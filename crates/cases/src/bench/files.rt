//! The files of programs, written from templates.

use crate::bench::harness::{Failure, Watch};
use crate::linked::add_class;
use hierarchy::{Program, link};
use jasmin_text::ClassText;
use jasmin_words::integer::push_decimal;
use sequence::Writer;
use std::alloc::Global;
use std::mem::replace;
use std::rt::Clock;

/// Files, one after the other. What went wrong last is reported where the files are taken.
#[derive(Drop)]
pub(crate) struct Files {
    alloc: Global,
    /// The last file.
    last: Writer,
    classes: Vec<ClassText>,
    failure: Option<Failure>,
}

fn push_byte(text: &mut Writer, byte: u8, first: usize, second: usize) {
    match byte {
        b'#' => push_decimal(text, first),
        b'@' => push_decimal(text, second),
        other => text.push(&[other]),
    }
}

impl Files {
    /// No files.
    pub(crate) fn new(alloc: Global) -> Files {
        Files {
            alloc,
            last: Writer::new(alloc),
            classes: Vec::new(alloc),
            failure: None,
        }
    }

    /// Adds a template to the last file: `#` is for the first number and `@` for the second.
    pub(crate) fn add(&mut self, template: &[u8], first: usize, second: usize) {
        for byte in template {
            push_byte(&mut self.last, *byte, first, second);
        }
    }

    /// Ends the last file.
    pub(crate) fn end(&mut self) {
        match replace(&mut self.last, Writer::new(self.alloc)).into_text() {
            Ok(file) => {
                if add_class(self.alloc, &file, &mut self.classes).is_err() {
                    self.failure = Some(Failure::Program);
                }
            }
            Err(_) => self.failure = Some(Failure::Memory),
        }
    }

    /// Adds a whole file, from a template.
    pub(crate) fn add_file(&mut self, template: &[u8], first: usize, second: usize) {
        self.add(template, first, second);
        self.end();
    }

    /// The text of the last file, which has not ended.
    pub(crate) fn text(self) -> Result<Vec<u8>, Failure> {
        let Files { last, .. } = self;
        match last.into_text() {
            Ok(text) => Ok(text),
            Err(_) => Err(Failure::Memory),
        }
    }

    /// The program of these files.
    pub(crate) fn program(self) -> Result<Program, Failure> {
        if let Some(failure) = self.failure {
            return Err(failure);
        }
        match link(self.alloc, self.classes) {
            Ok(program) => Ok(program),
            Err(_) => Err(Failure::Program),
        }
    }
}

/// How long one pass takes a byte of a text, which has lines: it counts their ends.
pub(crate) fn pass_time(rt: &impl Clock, text: &[u8]) -> Result<u128, Failure> {
    let watch = Watch::start(rt);
    let mut ends: usize = 0;
    for byte in text {
        if *byte == b'\n' {
            ends = ends.wrapping_add(1);
        }
    }
    let share = watch.share(rt, text.len())?;
    if ends == 0 {
        return Err(Failure::Program);
    }
    Ok(share)
}
