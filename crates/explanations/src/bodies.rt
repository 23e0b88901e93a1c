//! Faults of a method as a whole: its labels, its end, its body.

use crate::classes::has_word;
use crate::context::{Context, Spot};
use crate::line::{Row, Sort, Word, last_word, line_in, row_of, word_after};
use crate::nearest::Nearest;
use crate::page::Page;
use crate::wanted::parts;
use jasmin_text::form::{Directive, Form, directive_of, form_of};
use std::alloc::{AllocError, Global};
use texts::Texts;

/// The word so many words after this one.
fn nth_word_after<'a>(line: &'a [u8], word: &Word<'a>, count: usize) -> Option<Word<'a>> {
    let mut last = *word;
    for _word in 0..count {
        last = word_after(line, &last)?;
    }
    Some(last)
}

/// The labels that a line of a method names: three at most.
fn used_labels<'a>(line: &'a [u8], row: &Row<'a>, in_switch: bool) -> [Option<Word<'a>>; 3] {
    let Some(word) = &row.word else {
        return [None, None, None];
    };
    if let Some(Directive::Catch) = directive_of(word.bytes) {
        return [
            nth_word_after(line, word, 3),
            nth_word_after(line, word, 5),
            nth_word_after(line, word, 7),
        ];
    }
    if in_switch {
        return [Some(*word), None, None];
    }
    match form_of(word.bytes) {
        Some(Form::Jump(_)) => [nth_word_after(line, word, 1), None, None],
        _ => [None, None, None],
    }
}

/// The labels that a method has, up to the line at fault.
fn labels_of(alloc: Global, spot: &Spot<'_, '_>, from: usize) -> Result<Texts, AllocError> {
    let mut labels = Texts::new(alloc);
    let mut context = Context::before(spot.lines, from);
    for number in from..spot.number {
        let line = line_in(spot.lines, number);
        if context.switch.is_none()
            && let Some(label) = row_of(line).label
        {
            labels.note(alloc, label.bytes)?;
        }
        context.pass(number, line);
    }
    Ok(labels)
}

/// The first label that a line names and the method doesn't have.
fn missing_in<'a>(labels: &Texts, line: &'a [u8], in_switch: bool) -> Option<Word<'a>> {
    let row = row_of(line);
    for used in used_labels(line, &row, in_switch) {
        if let Some(word) = used
            && labels.place(word.bytes).is_none()
        {
            return Some(word);
        }
    }
    None
}

/// The first line of a method that names a label which the method doesn't have, and that label.
fn missing_label<'a>(
    spot: &Spot<'a, '_>,
    labels: &Texts,
    from: usize,
) -> Option<(usize, Word<'a>)> {
    let mut context = Context::before(spot.lines, from);
    for number in from..spot.number {
        let line = line_in(spot.lines, number);
        let in_switch = context.switch.is_some();
        context.pass(number, line);
        if let Some(word) = missing_in(labels, line, in_switch) {
            return Some((number, word));
        }
    }
    None
}

/// The nearest of a method's labels.
fn perhaps_label(page: &mut Page, labels: &Texts, word: &[u8]) {
    let mut nearest = Nearest::to(word);
    for place in 0..labels.len() {
        if let Some(label) = labels.at(place) {
            nearest.offer(label);
        }
    }
    page.perhaps(nearest.found());
}

/// Of `J6`: the line that names the label.
pub(crate) fn unknown_label(
    alloc: Global,
    page: &mut Page,
    spot: &Spot<'_, '_>,
) -> Result<(), AllocError> {
    let from = spot.context.method.unwrap_or(spot.number);
    let labels = labels_of(alloc, spot, from)?;
    match missing_label(spot, &labels, from) {
        Some((number, word)) => {
            page.show(number, line_in(spot.lines, number), &word);
            page.name(spot.method_name(from).bytes);
            page.about(" has no label ", word.bytes, "");
            perhaps_label(page, &labels, word.bytes);
        }
        None => page.say("the method that ends there names a label that it doesn't have"),
    }
    Ok(())
}

/// Of `J7`: the label, and the line where it was before.
pub(crate) fn repeated_label(page: &mut Page, spot: &Spot<'_, '_>) {
    let label = row_of(spot.line).label.unwrap_or(Word::NONE);
    page.show(spot.number, spot.line, &label);
    page.about("the method has the label ", label.bytes, " already");
    let from = spot.context.method.unwrap_or(spot.number);
    for number in from..spot.number {
        if let Some(other) = row_of(line_in(spot.lines, number)).label
            && other.is(label.bytes)
        {
            page.say(", in line ");
            page.number(number);
            return;
        }
    }
}

/// The string of a line that isn't closed.
fn open_text(line: &[u8]) -> Option<Word<'_>> {
    match last_word(line) {
        Some(word) if word.sort == Sort::Open => Some(word),
        _ => None,
    }
}

/// Of `J8`: the string, the switch or the method that has no end.
pub(crate) fn unfinished(page: &mut Page, spot: &Spot<'_, '_>) {
    if let Some(word) = open_text(spot.line) {
        page.show(spot.number, spot.line, &word);
        page.say("the string that begins here has no closing quote on its line");
        return;
    }
    let after = Context::before(spot.lines, spot.number.saturating_add(1));
    let (from, lacks) = match (after.switch, after.method) {
        (Some(from), _) => (from, " has no last line as default : Label"),
        (None, Some(from)) => (from, " has no .end method"),
        (None, None) => (spot.number, " has no end"),
    };
    let line = line_in(spot.lines, from);
    let word = match (after.switch, row_of(line).word) {
        (Some(_), Some(word)) => word,
        _ => spot.method_name(from),
    };
    page.show(from, line, &word);
    page.name(word.bytes);
    page.say(lacks);
}

/// Of `J12`: what the initializer of the class lacks.
pub(crate) fn bad_initializer(page: &mut Page, spot: &Spot<'_, '_>) {
    let word = last_word(spot.line).unwrap_or(Word::NONE);
    let descriptor = parts(&word).1;
    page.show(spot.number, spot.line, &word);
    page.say("<clinit>, the initializer of a class, ");
    page.say(if !has_word(spot.line, b"static") {
        "is static, and this one isn't"
    } else if descriptor.bytes.starts_with(b"()") {
        "has no result: its descriptor is ()V"
    } else {
        "has no parameters: its descriptor is ()V"
    });
}

/// Of `J13`: the method without a body, or with one that it may not have.
pub(crate) fn bad_body(page: &mut Page, spot: &Spot<'_, '_>) {
    let from = spot.context.method.unwrap_or(spot.number);
    let line = line_in(spot.lines, from);
    let word = spot.method_name(from);
    page.show(from, line, &word);
    page.name(word.bytes);
    page.say(if has_word(line, b"abstract") {
        " is abstract, so it may have no instruction, no label and no .catch"
    } else {
        " has no instruction: a method has one or more, unless it is abstract"
    });
}
