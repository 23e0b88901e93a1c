//! A class file, from its first line to its last.

ghost use Rattle.std.specs.Prelude.{◌≡◌, ◌<◌, ◌∷◌, ◌≤◌, length, IfOk, Ok, unwrap_or};
ghost use Rattle.jasmin_text.specs.Grammar.{Spells};
ghost use Rattle.jasmin_text.specs.Spellable.{IsSpellable};
ghost use Rattle.jasmin_text.specs.declared.class_text.ClassParts.{ClassParts};
ghost use Rattle.sequence.specs.Gives.{Gives};
ghost use Rattle.jasmin_words.specs.Lexing.{words_of};
ghost use Rattle.jasmin_reader.specs.Reading.{line_at};
ghost use Rattle.jasmin_text.specs.Lines.{line_len, lines_of};
ghost use Rattle.jasmin_reader.specs.File.{Reads, class_at, empty_reader, parts_with, finished, fault_of, object_name};

use crate::fault::ReadFault;
use crate::head::HeadWords;
use crate::place::LineError;
use crate::reader::Reader;
use descriptors::ClassName;
use jasmin_text::{ClassParts, ClassText};
use jasmin_words::{FaultKind, words};
use sequence::{Refusal, Sequence};
use std::alloc::{AllocError, Global};
use std::mem::replace;

fn line_length(bytes: &[u8]) -> usize
    ensures value { result ≡ line_len bytes.now }
    ensures within { result ≤ length bytes.now }
{
    let mut count = 0;
    let mut rest = bytes;
    while let [byte, after @ ..] = rest {
        if *byte == b'\n' {
            return count;
        }
        count += 1;
        rest = after;
    }
    count
}

/// The first line and the bytes after its end.
fn cut(bytes: &[u8]) -> (&[u8], &[u8])
    requires { 0 < length bytes.now }
    ensures lines { lines_of bytes.now ≡ result.0.now ∷ lines_of result.1.now }
    ensures shorter { length result.1.now < length bytes.now }
{
    let (line, rest) = bytes.split_at(line_length(bytes));
    match rest {
        [] => (line, rest),
        [_, after @ ..] => (line, after),
    }
}

fn fault_on(error: LineError, line: usize) -> ReadFault
    ensures { result ≡ fault_of error line }
{
    match error {
        Refusal::Memory => ReadFault {
            kind: FaultKind::NoMemory,
            line,
        },
        Refusal::Fault(kind) => ReadFault { kind, line },
    }
}

fn add_line(reader: &mut Reader, alloc: Global, line: &[u8]) -> Result<(), LineError>
    ensures { Gives (λ _. reader.new) result (line_at reader.old (words_of line.now)) }
{
    let tokens = words(alloc, line)?;
    reader.line(alloc, tokens.as_slice())
}

/// The superclass, which is java/lang/Object where no line names one.
#[tactic(auto, unfolding(descriptors::specs::ClassName::is_class_name))]
fn or_object(alloc: Global, superclass: Option<ClassName>) -> Result<ClassName, AllocError>
    ensures { IfOk result (λ name. name ≡ unwrap_or superclass object_name) }
{
    match superclass {
        Some(name) => Ok(name),
        None => match ClassName::parse(alloc, b"java/lang/Object")? {
            Some(name) => Ok(name),
            None => unreachable!(),
        },
    }
}

/// The parts of a class with this head and superclass. The others are taken out of the reader.
fn assembled(
    alloc: Global,
    reader: &mut Reader,
    head: (HeadWords, ClassName),
    superclass: ClassName,
) -> ClassParts
    ensures { result ≡ parts_with reader.old head superclass }
{
    let (HeadWords { kind, access }, name) = head;
    ClassParts {
        kind,
        access,
        name,
        superclass,
        interfaces: replace(&mut reader.interfaces, Sequence::new(alloc)),
        fields: replace(&mut reader.fields, Sequence::new(alloc)),
        methods: replace(&mut reader.methods, Sequence::new(alloc)),
    }
}

/// The parts of a class that is read whole, which are taken out of the reader.
#[tactic(auto, unfolding(crate::specs::File::finished))]
fn parts(alloc: Global, reader: &mut Reader, last: usize) -> Result<ClassParts, ReadFault>
    ensures { Reads result (finished reader.old last) }
{
    let Some(head) = reader.class.take() else {
        return Err(ReadFault {
            kind: FaultKind::Misplaced,
            line: 1,
        });
    };
    if reader.body.is_some() {
        return Err(ReadFault {
            kind: FaultKind::Unfinished,
            line: last,
        });
    }
    match or_object(alloc, reader.superclass.take()) {
        Ok(superclass) => Ok(assembled(alloc, reader, head, superclass)),
        Err(_) => Err(ReadFault {
            kind: FaultKind::NoMemory,
            line: last,
        }),
    }
}

/// The class text of a class that is read whole.
fn finish(alloc: Global, reader: &mut Reader, last: usize) -> Result<ClassText, ReadFault>
    requires { (c : ClassParts) → finished reader.old last ≡ Ok c → IsSpellable c }
    ensures { Reads result (finished reader.old last) }
{
    let parts = parts(alloc, reader, last)?;
    Ok(ClassText::from_parts(parts))
}

/// The class that the lines spell, or the first fault and its line. The reader has read nothing yet.
fn read_lines(alloc: Global, reader: &mut Reader, bytes: &[u8]) -> Result<ClassText, ReadFault>
    requires { reader.old ≡ empty_reader }
    ensures { Reads result (class_at bytes.now) }
{
    let mut rest = bytes;
    let mut last = 0;
    while !rest.is_empty() {
        let (line, after) = cut(rest);
        last += 1;
        if let Err(error) = add_line(reader, alloc, line) {
            return Err(fault_on(error, last));
        }
        rest = after;
    }
    finish(alloc, reader, last)
}

/// The class that a Jasmin file spells, or the first fault and its line.
///
/// The bytes may be anything: a file is read from the top, and each line from the left. Of several faults at one
/// place the lowest kind is reported. Being out of memory is answered as [`FaultKind::NoMemory`].
pub fn read_class(alloc: Global, bytes: &[u8]) -> Result<ClassText, ReadFault>
    // The class, or the first fault, is that of the reading function.
    ensures exact { Reads result (class_at bytes.now) }
    // What is read is what the lines spell.
    ensures found { IfOk result (λ text. Spells (lines_of bytes.now) text) }
    // What the lines spell is read, unless memory runs out.
    ensures only { (c : ClassParts) → Spells (lines_of bytes.now) c → Reads result (Ok c) }
{
    let mut reader = Reader::new(alloc);
    let read = read_lines(alloc, &mut reader, bytes);
    drop(reader);
    read
}
