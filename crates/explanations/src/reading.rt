//! Files that aren't of the Jasmin form.

ghost use Rattle.std.specs.Prelude.{◌≤◌, IfOk, vec_len};

use crate::Source;
use crate::bodies::{bad_body, bad_initializer, repeated_label, unfinished, unknown_label};
use crate::context::Spot;
use crate::findings::{left_out, wrong_operand};
use crate::line::{Sort, Word, lines_of, next_word, odd_byte, row_of, word_after};
use crate::nearest::Nearest;
use crate::page::Page;
use crate::places::misplaced;
use jasmin_text::form::{COMMON_FORMS, DIRECTIVES, OTHER_FORMS};
use jasmin_words::FaultKind;
use jasmin_words::name::is_label;
use jasmin_words::token::is_text;
use std::alloc::{AllocError, Global};

/// The first word with a bad byte: a word that isn't ASCII, or a string that isn't UTF-8.
fn bad_word(line: &[u8]) -> Option<Word<'_>> {
    let mut from = 0;
    for _word in 0..line.len() {
        let word = next_word(line, from)?;
        let is_bad = match word.sort {
            Sort::Text | Sort::Open => !is_text(word.bytes),
            _ => word.sort == Sort::Bad,
        };
        if is_bad {
            return Some(word);
        }
        from = word.end();
    }
    None
}

/// Of `J1`: the first bad byte.
fn bad_byte(page: &mut Page, spot: &Spot<'_, '_>) {
    let Some(word) = bad_word(spot.line) else {
        page.say("a byte of the line is neither ASCII nor in a string or a comment");
        return;
    };
    if word.sort != Sort::Bad {
        page.show(spot.number, spot.line, &word);
        page.say("the bytes of this string aren't UTF-8");
        return;
    }
    let count = odd_byte(word.bytes).unwrap_or(0);
    let part = word.part(count, count.saturating_add(1));
    page.show(spot.number, spot.line, &part);
    page.say("the byte ");
    page.hex(part.bytes);
    page.about(
        " in ",
        word.bytes,
        " may be in strings and comments alone: names are ASCII",
    );
}

/// Of `J2`: a word that begins with a dot and is no directive.
fn unknown_directive(page: &mut Page, spot: &Spot<'_, '_>) {
    let row = row_of(spot.line);
    let word = match (&row.label, &row.word) {
        (Some(label), _) if label.bytes.starts_with(b".") => *label,
        (_, Some(word)) => *word,
        _ => Word::NONE,
    };
    page.show(spot.number, spot.line, &word);
    page.about("there is no directive ", word.bytes, "");
    page.perhaps(Nearest::to(word.bytes).with(&DIRECTIVES).found());
}

/// The instruction that is nearest to a word.
fn perhaps_instruction(page: &mut Page, word: &[u8]) {
    let common = Nearest::to(word).with(&COMMON_FORMS);
    page.perhaps(common.with(&OTHER_FORMS).found());
}

/// Of `J3`: a word in an instruction's place that is none.
fn unknown_instruction(page: &mut Page, spot: &Spot<'_, '_>) {
    let row = row_of(spot.line);
    if let Some(label) = &row.label
        && !(label.is_plain() && is_label(label.bytes))
    {
        page.show(spot.number, spot.line, label);
        page.about(
            "",
            label.bytes,
            " is no label, which is a word that begins with neither a digit nor a dot",
        );
        return;
    }
    let word = row.word.unwrap_or(Word::NONE);
    page.show(spot.number, spot.line, &word);
    match word_after(spot.line, &word) {
        Some(next) if next.sort == Sort::Colon && row.label.is_some() => {
            page.about(
                "",
                word.bytes,
                " is a second label, and a line has one at most",
            );
        }
        _ => {
            page.about("there is no instruction ", word.bytes, "");
            perhaps_instruction(page, word.bytes);
        }
    }
}

/// What is wrong at this line, whose fault is of this kind.
fn fault(
    alloc: Global,
    page: &mut Page,
    spot: &Spot<'_, '_>,
    kind: FaultKind,
) -> Result<(), AllocError> {
    match kind {
        FaultKind::BadByte => bad_byte(page, spot),
        FaultKind::UnknownDirective => unknown_directive(page, spot),
        FaultKind::UnknownInstruction => unknown_instruction(page, spot),
        FaultKind::LeftOut => return left_out(alloc, page, spot),
        FaultKind::UnknownLabel => return unknown_label(alloc, page, spot),
        FaultKind::RepeatedLabel => repeated_label(page, spot),
        FaultKind::Unfinished => unfinished(page, spot),
        FaultKind::Misplaced => misplaced(page, spot),
        FaultKind::BadInitializer => bad_initializer(page, spot),
        FaultKind::BadBody => bad_body(page, spot),
        FaultKind::NoMemory => page.say("memory was refused while the file was read"),
        _ => return wrong_operand(alloc, page, spot, kind),
    }
    Ok(())
}

/// Says what is wrong with a file whose reading gave this fault at this line, counted from 1: the line at fault, which may be another one
/// than is reported, a caret below the word at fault, and a sentence.
///
/// An `Err` means out of memory.
pub fn explain_reading(
    alloc: Global,
    source: &Source<'_>,
    line: usize,
    kind: FaultKind,
) -> Result<Vec<u8>, AllocError>
    ensures some { IfOk result (λ text. 1 ≤ vec_len text) }
{
    let lines = lines_of(alloc, source.text)?;
    let spot = Spot::at(&lines, line);
    let mut page = Page::new(alloc);
    fault(alloc, &mut page, &spot, kind)?;
    page.ended_at("J", kind.number())
}
