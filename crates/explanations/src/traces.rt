//! Texts that are no traces.

ghost use Rattle.std.specs.Prelude.{◌≤◌, IfOk, vec_len};

use crate::Source;
use crate::classes::{class_named, classes_of, nearest_class};
use crate::line::{Sort, Word};
use crate::members::members_of;
use crate::nearest::Nearest;
use crate::options::count_of;
use crate::page::Page;
use hierarchy::BuiltIn;
use std::alloc::{AllocError, Global};
use trace_reader::TraceFaultKind;

/// The words that may come third in a line.
const VERBS: [&[u8]; 12] = [
    b"step2", b"step3", b"step4", b"step5", b"step6", b"step7", b"step9", b"step10", b"step12",
    b"get", b"put", b"print",
];

/// A line of a trace.
#[derive(Clone, Copy)]
struct Event<'a> {
    number: usize,
    line: &'a [u8],
}

/// The line with this number, from 1.
fn line_of(text: &[u8], number: usize) -> &[u8] {
    let mut from = 0;
    let mut count: usize = 1;
    for (at, byte) in text.iter().enumerate() {
        if *byte == b'\n' {
            if count == number {
                return text.get(from..at).unwrap_or(&[]);
            }
            count = count.saturating_add(1);
            from = at.saturating_add(1);
        }
    }
    text.get(from..).unwrap_or(&[])
}

/// How many bytes come before the first space.
fn word_length(bytes: &[u8]) -> usize {
    for (count, byte) in bytes.iter().enumerate() {
        if *byte == b' ' {
            return count;
        }
    }
    bytes.len()
}

impl<'a> Event<'a> {
    /// The word that begins there, up to the next space.
    fn word_from(&self, from: usize) -> Word<'a> {
        let rest = self.line.get(from..).unwrap_or(&[]);
        let length = word_length(rest);
        Word {
            at: from.min(self.line.len()),
            bytes: rest.get(..length).unwrap_or(rest),
            sort: Sort::Plain,
        }
    }

    /// The word so many spaces from the line's beginning; nothing at the line's end where there are fewer.
    fn word(&self, place: usize) -> Word<'a> {
        let mut word = self.word_from(0);
        for _word in 0..place {
            word = self.word_from(word.end().saturating_add(1));
        }
        word
    }

    /// The rest of the line from this word on.
    fn rest(&self, place: usize) -> Word<'a> {
        let at = self.word(place).at;
        Word {
            at,
            bytes: self.line.get(at..).unwrap_or(&[]),
            sort: Sort::Plain,
        }
    }

    /// How many words a line with this third word has; none where a text ends it.
    fn length(&self) -> Option<usize> {
        let verb = self.word(2);
        if verb.is(b"print") {
            None
        } else if verb.is(b"get") || verb.is(b"put") {
            Some(6)
        } else if verb.is(b"step7") || verb.is(b"step12") {
            Some(5)
        } else {
            Some(4)
        }
    }
}

impl Page {
    /// Shows a word of a trace's line.
    fn show_event(&mut self, event: &Event<'_>, word: &Word<'_>) {
        self.show(event.number, event.line, word);
    }
}

/// Whether the bytes are a decimal number without leading zeros.
fn is_decimal(bytes: &[u8]) -> bool {
    for byte in bytes {
        if *byte < b'0' || b'9' < *byte {
            return false;
        }
    }
    match bytes {
        [] => false,
        [b'0', _, ..] => false,
        _ => true,
    }
}

/// The number of a thread, where it is one below this.
fn is_thread(bytes: &[u8], threads: usize) -> bool {
    let mut number: usize = 0;
    for byte in bytes.get(1..).unwrap_or(&[]) {
        let digit = byte.saturating_sub(b'0') as usize;
        number = number.saturating_mul(10).saturating_add(digit);
    }
    number < threads
}

/// The word of a line that is wrong in form after its first three, or too many, and what should be there.
fn wrong_form<'a>(event: &Event<'a>) -> (Word<'a>, &'static str) {
    let Some(length) = event.length() else {
        return (
            event.rest(3),
            "after print comes a text in double quotes, and nothing after it",
        );
    };
    for place in 3..length {
        let word = event.word(place);
        if word.bytes.is_empty() {
            return (
                word,
                "a word is missing or empty here: words are separated by one space",
            );
        }
        if place == 4 && length == 6 && !word.bytes.contains(&b':') {
            return (
                word,
                "a field is its name, a colon and its descriptor, as count:I",
            );
        }
    }
    let last = event.word(length.saturating_sub(1));
    if last.end() < event.line.len() {
        (event.rest(length), "nothing comes here, not even a space")
    } else {
        (last.after(), "the last line ends with LF, too")
    }
}

/// Of `L1`: the word that hasn't the form of its place.
fn bad_line(page: &mut Page, event: &Event<'_>) {
    let number = event.word(0);
    let thread = event.word(1);
    let is_thread = thread.bytes.starts_with(b"t")
        && is_decimal(thread.bytes.get(1..).unwrap_or(&[]));
    let (word, words) = if !is_decimal(number.bytes) {
        (
            number,
            "a line begins with its number, in decimal and without leading zeros",
        )
    } else if !is_thread {
        (thread, "the second word is the thread, as t0")
    } else if event.word(2).bytes.is_empty() {
        (event.word(2), "the third word is a step, get, put or print")
    } else {
        wrong_form(event)
    };
    page.show_event(event, &word);
    page.say(words);
}

/// Of `L2`: the number whose turn it is.
fn out_of_turn(page: &mut Page, event: &Event<'_>) {
    let word = event.word(0);
    page.show_event(event, &word);
    page.say("the number of this line is ");
    page.number(event.number.saturating_sub(1));
    page.say(": lines are numbered from 0, without a gap");
}

/// Of `L3`: the third word.
fn unknown_verb(page: &mut Page, event: &Event<'_>) {
    let word = event.word(2);
    page.show_event(event, &word);
    page.about(
        "",
        word.bytes,
        " is none of step2 to step7, step9, step10, step12, get, put and print",
    );
    let mut nearest = Nearest::to(word.bytes);
    for verb in &VERBS {
        nearest.offer(verb);
    }
    page.perhaps(nearest.found());
}

/// Of a field that its class doesn't have.
fn unknown_field(
    alloc: Global,
    page: &mut Page,
    event: &Event<'_>,
    lines: &[&[u8]],
) -> Result<(), AllocError> {
    let word = event.word(4);
    let name = word.part(
        0,
        word.bytes
            .iter()
            .position(|byte| *byte == b':')
            .unwrap_or(0),
    );
    let members = members_of(alloc, lines)?;
    page.show_event(event, &word);
    page.about("", event.word(3).bytes, " declares no static field ");
    page.name(word.bytes);
    let mut nearest = Nearest::to(name.bytes);
    for member in &members {
        if member.is_static_field {
            nearest.offer(member.name.bytes);
        }
    }
    page.perhaps(nearest.found());
    Ok(())
}

/// Of a thread that there isn't.
fn unknown_thread(page: &mut Page, event: &Event<'_>, threads: usize) {
    let word = event.word(1);
    page.show_event(event, &word);
    page.about("there is no thread ", word.bytes, ": --mains gives t0");
    if 1 < threads {
        page.say(" to t");
        page.number(threads.saturating_sub(1));
    }
}

/// Of `L4`: the thread, the class, the throwable or the field that there isn't.
fn unknown_name(
    alloc: Global,
    page: &mut Page,
    event: &Event<'_>,
    sources: &[Source<'_>],
    threads: usize,
) -> Result<(), AllocError> {
    if !is_thread(event.word(1).bytes, threads) {
        unknown_thread(page, event, threads);
        return Ok(());
    }
    let classes = classes_of(alloc, sources)?;
    let class = class_named(&classes, event.word(3).bytes);
    let word = match class {
        Some(class) if event.length() == Some(6) => {
            return unknown_field(alloc, page, event, &class.lines);
        }
        Some(_) => event.word(4),
        None => event.word(3),
    };
    page.show_event(event, &word);
    page.about("there is no class ", word.bytes, " in the files");
    if class.is_none() && BuiltIn::named(word.bytes).is_some() {
        page.say(", and built-in classes give no event");
    }
    page.perhaps(nearest_class(&classes, word.bytes, class.is_some()));
    Ok(())
}

/// The values of a field with this descriptor, in words.
fn values_of(descriptor: &[u8]) -> &'static str {
    match descriptor {
        b"Z" => "0 or 1",
        b"B" => "an int from -128 to 127 in decimal",
        b"C" => "an int from 0 to 65535 in decimal",
        b"S" => "an int from -32768 to 32767 in decimal",
        b"I" => "an int in decimal",
        _ => "null, or # and a number below 1000000",
    }
}

/// Of `L5`: the value or the text.
fn bad_value(page: &mut Page, event: &Event<'_>) {
    let Some(_) = event.length() else {
        page.show_event(event, &event.rest(3));
        page.say(
            "a text is UTF-8 in double quotes; its escapes are \\\" \\\\ \\n \\t \\r, and \\u with four lower case digits for other control characters",
        );
        return;
    };
    let (field, value) = (event.word(4), event.word(5));
    let mut descriptor = field;
    for (count, byte) in field.bytes.iter().enumerate() {
        if *byte == b':' {
            descriptor = field.part(count.saturating_add(1), field.bytes.len());
        }
    }
    page.show_event(event, &value);
    page.about("", value.bytes, " is no value of ");
    page.name(field.bytes);
    page.say(", which is ");
    page.say(values_of(descriptor.bytes));
    page.say(", without leading zeros or a plus");
}

/// Says what is wrong with a text that is no trace of these files' classes and of a thread for each of `mains`, as the option has it,
/// where its reading gave this fault at this line, counted from 1.
///
/// An `Err` means out of memory.
pub fn explain_trace(
    alloc: Global,
    trace: &Source<'_>,
    line: usize,
    kind: TraceFaultKind,
    sources: &[Source<'_>],
    mains: Option<&str>,
) -> Result<Vec<u8>, AllocError>
    ensures some { IfOk result (λ text. 1 ≤ vec_len text) }
{
    let event = Event {
        number: line,
        line: line_of(trace.text, line),
    };
    let mut page = Page::new(alloc);
    match kind {
        TraceFaultKind::BadLine => bad_line(&mut page, &event),
        TraceFaultKind::NumberOutOfTurn => out_of_turn(&mut page, &event),
        TraceFaultKind::UnknownStep => unknown_verb(&mut page, &event),
        TraceFaultKind::UnknownName => {
            unknown_name(alloc, &mut page, &event, sources, count_of(mains))?;
        }
        TraceFaultKind::BadValue => bad_value(&mut page, &event),
        TraceFaultKind::TooLarge => {
            page.say("a trace has at most 1,000,000 lines and 64 MiB, and this line is past them");
        }
        TraceFaultKind::OutOfMemory => page.say("memory was refused while the trace was read"),
    }
    page.ended_at("L", kind.number())
}
