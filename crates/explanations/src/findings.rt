//! What is wrong with the words of a line, in words.

use crate::classes::has_word;
use crate::context::Spot;
use crate::descriptor::{Stage, wrong_part};
use crate::line::{Sort, Word, line_in, next_word, row_of};
use crate::nearest::Nearest;
use crate::operands::{Finding, finding_in};
use crate::page::Page;
use crate::wanted::{Miss, Wanted, described, miss_of, parts};
use jasmin_text::form::{directive_of, left_out as is_left_out};
use jasmin_text::table::ACCESS_WORDS;
use jasmin_words::FaultKind;
use jasmin_words::token::MOST_BYTES;
use std::alloc::{AllocError, Global};

impl Page {
    /// Writes what a word must be.
    fn wanted(&mut self, wanted: Wanted) {
        self.say(described(wanted));
        if let Wanted::Int(low, high) | Wanted::PerhapsInt(low, high) = wanted {
            self.say(" from ");
            self.int(low);
            self.say(" to ");
            self.int(high);
        }
    }

    /// Shows a word of a line.
    fn show_word(&mut self, spot: &Spot<'_, '_>, word: &Word<'_>) {
        self.show(spot.number, spot.line, word);
    }
}

/// Says where the line is that is the cause.
pub(crate) fn because(page: &mut Page, words: &str, number: usize) {
    page.say(words);
    page.number(number);
}

/// The bytes with slashes in the place of dots, where what is wanted has slashes.
fn slashed(alloc: Global, wanted: Wanted, word: &Word<'_>) -> Result<Option<Vec<u8>>, AllocError> {
    let mut bytes = Vec::new(alloc);
    for byte in word.bytes {
        bytes.push(if *byte == b'.' { b'/' } else { *byte })?;
    }
    let meant = Word {
        at: 0,
        bytes: &bytes,
        sort: word.sort,
    };
    let has_slashes = match wanted {
        Wanted::Class | Wanted::Field | Wanted::Method | Wanted::ClassOrArray => true,
        _ => false,
    };
    let fits = has_slashes && !meant.is(word.bytes) && miss_of(wanted, &meant) == Miss::None;
    Ok(if fits { Some(bytes) } else { None })
}

/// Of a word that isn't what is wanted.
fn wrong_name(
    alloc: Global,
    page: &mut Page,
    wanted: Wanted,
    word: &Word<'_>,
) -> Result<(), AllocError> {
    page.about("", word.bytes, " isn't ");
    page.wanted(wanted);
    if let Some(meant) = slashed(alloc, wanted, word)? {
        page.say("; dots aren't slashes");
        page.perhaps(Some(&meant));
    }
    Ok(())
}

/// Of a word that is wrong where it is.
fn wrong_word(
    alloc: Global,
    page: &mut Page,
    spot: &Spot<'_, '_>,
    word: &Word<'_>,
    wanted: Wanted,
    miss: Miss,
) -> Result<(), AllocError> {
    match miss {
        Miss::Descriptor(stage) => {
            let descriptor = match wanted {
                Wanted::Method | Wanted::Declared => parts(word).1,
                _ => *word,
            };
            page.show_word(spot, &wrong_part(stage, &descriptor));
            page.wrong_descriptor(stage, &descriptor);
        }
        Miss::Length => {
            page.show_word(spot, word);
            page.say("a word has at most 65,535 bytes, and this one has ");
            page.number(word.bytes.len());
        }
        _ => {
            page.show_word(spot, word);
            return wrong_name(alloc, page, wanted, word);
        }
    }
    Ok(())
}

/// Of a word before a name that is no access word.
fn no_access(page: &mut Page, spot: &Spot<'_, '_>, word: &Word<'_>) {
    page.show_word(spot, word);
    page.about(
        "",
        word.bytes,
        " is no access word, and only these come before the name",
    );
    page.perhaps(Nearest::to(word.bytes).with(&ACCESS_WORDS).found());
}

/// Of a word too many.
fn extra(page: &mut Page, spot: &Spot<'_, '_>, word: &Word<'_>, before: &Word<'_>) {
    page.show_word(spot, word);
    if before.is(b"=") {
        page.say("a field of this type has no value: ints and strings have one");
    } else {
        page.about("nothing may come after ", before.bytes, "");
    }
}

/// Of an access word that is left out, or that may not come there.
fn access(page: &mut Page, spot: &Spot<'_, '_>, word: &Word<'_>, after: &str) {
    page.show_word(spot, word);
    page.about("", word.bytes, after);
}

/// Of a word after which something is missing.
fn missing(page: &mut Page, spot: &Spot<'_, '_>, word: &Word<'_>, after: &str) {
    page.show_word(spot, &word.after());
    page.about("", word.bytes, after);
}

/// Of what is wrong in a line.
fn finding(
    alloc: Global,
    page: &mut Page,
    spot: &Spot<'_, '_>,
    found: &Finding<'_>,
) -> Result<(), AllocError> {
    match found {
        Finding::Nothing => {}
        Finding::Wrong(word, wanted, miss) => {
            return wrong_word(alloc, page, spot, word, *wanted, *miss);
        }
        Finding::Missing(word, wanted) => {
            missing(page, spot, word, " lacks what comes after it: ");
            page.wanted(*wanted);
        }
        Finding::Extra(word, before) => extra(page, spot, word, before),
        Finding::NoAccess(word) => no_access(page, spot, word),
        Finding::NoName(word) => {
            let after = " is an access word, and the name is missing after it";
            missing(page, spot, word, after);
        }
        Finding::LeftOut(word) => access(page, spot, word, " is left out of this machine"),
        Finding::Together(word) => {
            let after = " may not come here: abstract and static don't go together on a method";
            access(page, spot, word, after);
        }
    }
    Ok(())
}

/// Whether an escape begins with this byte after its backslash.
fn is_escape(byte: u8) -> bool {
    match byte {
        b'n' | b't' | b'r' | b'b' | b'f' | b'"' | b'\'' | b'\\' | b'u' => true,
        _ => false,
    }
}

/// Where an escape is that is none, in a string: how many bytes come before its backslash.
fn wrong_escape(bytes: &[u8]) -> Option<usize> {
    let mut escaped = false;
    for (count, byte) in bytes.iter().enumerate() {
        if escaped && !is_escape(*byte) {
            return Some(count.saturating_sub(1));
        }
        escaped = !escaped && *byte == b'\\';
    }
    None
}

/// The first string of a line.
fn text_in(line: &[u8]) -> Option<Word<'_>> {
    let mut from = 0;
    for _word in 0..line.len() {
        let word = next_word(line, from)?;
        if word.sort == Sort::Text {
            return Some(word);
        }
        from = word.end();
    }
    None
}

/// Of a string with a wrong escape.
fn wrong_text(page: &mut Page, spot: &Spot<'_, '_>) {
    if let Some(word) = text_in(spot.line) {
        let part = match wrong_escape(word.bytes) {
            Some(count) => word.part(count, count.saturating_add(2)),
            None => word,
        };
        page.show_word(spot, &part);
    }
    page.say(
        "a wrong escape: after a backslash come n, t, r, b, f, a quote, a backslash, or u and four hexadecimal digits that spell a character",
    );
}

/// Of a line in a switch, which begins in the line with this number.
fn switch_row(page: &mut Page, spot: &Spot<'_, '_>, word: &Word<'_>, switch: usize) {
    page.show_word(spot, word);
    let is_lookup = has_word(line_in(spot.lines, switch), b"lookupswitch");
    page.say(match (is_lookup, word.is(b"default")) {
        (true, true) => "the last line of a lookupswitch is default, a colon and a label",
        (true, false) =>
            "a line of a lookupswitch is a key, a colon and a label, and each key comes once; the last line is as default : Label",
        (false, true) =>
            "the last line of a tableswitch is default, a colon and a label, after a label for each key up to the last",
        (false, false) =>
            "a line of a tableswitch is one label, for each key up to the last; the last line is as default : Label",
    });
    because(page, "; the switch begins in line ", switch);
}

/// Of a limit that is exceeded by no word.
fn too_many(page: &mut Page, spot: &Spot<'_, '_>, first: &Word<'_>) {
    page.show_word(spot, first);
    page.say(if MOST_BYTES < spot.line.len() {
        "a word or a string has at most 65,535 bytes"
    } else if first.is(b".implements") {
        "a class has at most 255 direct superinterfaces"
    } else if directive_of(first.bytes).is_some() {
        "a class has at most 1,024 fields and methods, together"
    } else {
        "a method has at most 16,384 instructions, labels and keys of switches counted"
    });
}

/// Of `J5`, `J10` and `J11`: the first word that is wrong, missing or too many.
pub(crate) fn wrong_operand(
    alloc: Global,
    page: &mut Page,
    spot: &Spot<'_, '_>,
    kind: FaultKind,
) -> Result<(), AllocError> {
    let row = row_of(spot.line);
    let first = row.word.unwrap_or(Word::NONE);
    if let Some(switch) = spot.context.switch
        && directive_of(first.bytes).is_none()
    {
        let word = row.label.unwrap_or(first);
        match kind {
            FaultKind::LimitExceeded => too_many(page, spot, &word),
            _ => switch_row(page, spot, &word, switch),
        }
        return Ok(());
    }
    match (finding_in(spot.line, first), kind) {
        (Finding::Nothing, FaultKind::LimitExceeded) => too_many(page, spot, &first),
        (Finding::Nothing, FaultKind::BadDescriptor) => {
            page.show_word(spot, &first);
            page.say("a type has at most 255 dimensions, and a method at most 255 parameters");
        }
        (Finding::Nothing, _) => wrong_text(page, spot),
        (found, _) => return finding(alloc, page, spot, &found),
    }
    Ok(())
}

/// The type of Java that an instruction's word is for, where that is left out.
fn type_of_word(word: &[u8]) -> Option<&'static str> {
    match word {
        [b'l', ..] | [b'i', b'2', b'l'] => Some("long"),
        [b'f', ..] | [b'i', b'2', b'f'] => Some("float"),
        [b'd', ..] | [b'i', b'2', b'd'] => Some("double"),
        _ => None,
    }
}

/// Of an instruction that is left out.
fn left_out_instruction(page: &mut Page, spot: &Spot<'_, '_>, word: &Word<'_>) {
    page.show_word(spot, word);
    page.about("", word.bytes, " is left out of this machine");
    if let Some(name) = type_of_word(word.bytes) {
        page.say(", which has no type ");
        page.say(name);
    }
}

/// Of `J4`: what is left out.
pub(crate) fn left_out(
    alloc: Global,
    page: &mut Page,
    spot: &Spot<'_, '_>,
) -> Result<(), AllocError> {
    let first = row_of(spot.line).word.unwrap_or(Word::NONE);
    if is_left_out(first.bytes) {
        left_out_instruction(page, spot, &first);
        return Ok(());
    }
    match finding_in(spot.line, first) {
        Finding::Wrong(word, Wanted::Base, _) => {
            finding(alloc, page, spot, &Finding::LeftOut(word))
        }
        Finding::Wrong(word, Wanted::Exactly(_), _) => {
            page.show_word(spot, &word);
            page.about(
                "after .end comes method, and .end ",
                word.bytes,
                " is left out",
            );
            Ok(())
        }
        // of a word with a wrong name too
        Finding::Wrong(word, wanted, Miss::Name) => {
            let miss = Miss::Descriptor(Stage::Opening);
            wrong_word(alloc, page, spot, &word, wanted, miss)
        }
        found => finding(alloc, page, spot, &found),
    }
}
