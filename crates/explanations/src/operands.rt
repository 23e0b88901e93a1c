//! The first word of a line that is wrong where it is.

use crate::line::{Sort, Word, word_after};
use crate::wanted::{Miss, Wanted, miss_of, operands_of};
use jasmin_text::form::{Directive, directive_of, form_of};
use jasmin_text::table::{AccessWord, access_of};

/// The first word of a line that is wrong where it is.
#[derive(Clone, Copy)]
pub(crate) enum Finding<'a> {
    /// There is none.
    Nothing,
    /// A word that isn't what is wanted.
    Wrong(Word<'a>, Wanted, Miss),
    /// What is wanted is missing after this word.
    Missing(Word<'a>, Wanted),
    /// A word too many, and the one before it.
    Extra(Word<'a>, Word<'a>),
    /// A word that is no access word, where only these come.
    NoAccess(Word<'a>),
    /// An access word where the name is wanted.
    NoName(Word<'a>),
    /// A word that is left out.
    LeftOut(Word<'a>),
    /// `abstract` after `static`, or the reverse, on a method.
    Together(Word<'a>),
}

/// What follows the words of a line that are as they must be: the last of these, or the finding.
type Passed<'a> = Result<Word<'a>, Finding<'a>>;

/// Whether the line may end where this is wanted.
fn is_optional(wanted: Wanted) -> bool {
    match wanted {
        Wanted::Nothing | Wanted::PerhapsInt(_, _) | Wanted::PerhapsValue => true,
        _ => false,
    }
}

/// The next word, where it is what is wanted.
fn pass_one<'a>(line: &'a [u8], before: Word<'a>, wanted: Wanted) -> Passed<'a> {
    match word_after(line, &before) {
        None if is_optional(wanted) => Err(Finding::Nothing),
        None => Err(Finding::Missing(before, wanted)),
        Some(word) => match (wanted, miss_of(wanted, &word)) {
            (_, Miss::None) => Ok(word),
            (Wanted::Nothing | Wanted::PerhapsValue, _) => Err(Finding::Extra(word, before)),
            (_, miss) => Err(Finding::Wrong(word, wanted, miss)),
        },
    }
}

/// The next words, where they are what is wanted.
fn pass_all<'a>(line: &'a [u8], before: Word<'a>, all: &[Wanted]) -> Passed<'a> {
    let mut last = before;
    for wanted in all {
        match pass_one(line, last, *wanted) {
            Ok(word) => last = word,
            Err(finding) => return Err(finding),
        }
    }
    Ok(last)
}

/// What is wrong in a line whose words after this one must be these.
fn finding_of<'a>(line: &'a [u8], before: Word<'a>, all: &[Wanted]) -> Finding<'a> {
    match pass_all(line, before, all) {
        Err(finding) => finding,
        Ok(last) => match pass_one(line, last, Wanted::Nothing) {
            Err(finding) => finding,
            Ok(_) => Finding::Nothing,
        },
    }
}

fn is_word(word: &Word<'_>) -> bool {
    word.sort == Sort::Plain || word.sort == Sort::Bad
}

/// Whether the words of a field's head end before this one.
fn ends_head(line: &[u8], word: &Word<'_>) -> bool {
    if !word.is(b"signature") {
        return !is_word(word);
    }
    match word_after(line, word) {
        Some(next) => !is_word(&next),
        None => true,
    }
}

/// How many words a head has after its directive.
fn head_length<'a>(line: &'a [u8], directive: Word<'a>) -> usize {
    let mut last = directive;
    for count in 0..line.len() {
        match word_after(line, &last) {
            Some(word) if !ends_head(line, &word) => last = word,
            _ => return count,
        }
    }
    0
}

/// Whether the word is an access word after this directive.
fn access_in(directive: Directive, word: &Word<'_>) -> Option<AccessWord> {
    match directive {
        Directive::Interface => access_of(word.bytes),
        _ if word.is(b"interface") => Some(AccessWord::Dropped),
        _ => access_of(word.bytes),
    }
}

/// The access words of a head, up to the name, which so many words are the rest from.
fn pass_access<'a>(
    line: &'a [u8],
    first: Word<'a>,
    directive: Directive,
    names: usize,
) -> Passed<'a> {
    let mut last = first;
    let mut seen: Option<bool> = None;
    for _word in 0..head_length(line, first).saturating_sub(names) {
        let Some(word) = word_after(line, &last) else {
            return Ok(last);
        };
        let is_abstract = match access_in(directive, &word) {
            None => return Err(Finding::NoAccess(word)),
            Some(AccessWord::LeftOut) => return Err(Finding::LeftOut(word)),
            Some(AccessWord::Abstract) => Some(true),
            Some(AccessWord::Static) => Some(false),
            Some(_) => None,
        };
        if let (Directive::Method, Some(now)) = (directive, is_abstract) {
            if seen == Some(!now) {
                return Err(Finding::Together(word));
            }
            seen = Some(now);
        }
        last = word;
    }
    Ok(last)
}

/// What is wrong in a head whose directive this is, up to its name and what follows the name.
fn head_finding<'a>(
    line: &'a [u8],
    first: Word<'a>,
    directive: Directive,
    all: &[Wanted],
) -> Passed<'a> {
    match pass_access(line, first, directive, all.len()) {
        Err(finding) => Err(finding),
        Ok(last) => {
            let name = word_after(line, &last).unwrap_or(Word::NONE);
            match access_in(directive, &name) {
                Some(AccessWord::LeftOut) => Err(Finding::LeftOut(name)),
                Some(_) => Err(Finding::NoName(name)),
                None => pass_all(line, last, all),
            }
        }
    }
}

/// What the value of a field with this descriptor must be.
fn value_of(descriptor: &Word<'_>) -> Wanted {
    if descriptor.is(b"Ljava/lang/String;") {
        Wanted::Text
    } else if descriptor.bytes.len() == 1 {
        Wanted::Int(i32::MIN, i32::MAX)
    } else {
        Wanted::Nothing
    }
}

/// What is wrong in a field's line.
fn field_finding<'a>(line: &'a [u8], first: Word<'a>) -> Finding<'a> {
    let all = [Wanted::Name, Wanted::Type];
    let descriptor = match head_finding(line, first, Directive::Field, &all) {
        Ok(word) => word,
        Err(finding) => return finding,
    };
    let mut last = descriptor;
    if let Some(word) = word_after(line, &last)
        && word.is(b"signature")
    {
        match pass_one(line, word, Wanted::Text) {
            Ok(text) => last = text,
            Err(finding) => return finding,
        }
    }
    let rest = [Wanted::PerhapsValue, value_of(&descriptor)];
    finding_of(line, last, &rest)
}

/// What is wrong in the head of a class or a method.
fn whole_head<'a>(
    line: &'a [u8],
    first: Word<'a>,
    directive: Directive,
    name: Wanted,
) -> Finding<'a> {
    match head_finding(line, first, directive, &[name]) {
        Ok(last) => finding_of(line, last, &[]),
        Err(finding) => finding,
    }
}

/// What is wrong in the line of a directive.
fn directive_finding<'a>(line: &'a [u8], first: Word<'a>, directive: Directive) -> Finding<'a> {
    match directive {
        Directive::Class | Directive::Interface => {
            whole_head(line, first, directive, Wanted::Class)
        }
        Directive::Method => whole_head(line, first, directive, Wanted::Declared),
        Directive::Field => field_finding(line, first),
        Directive::Super | Directive::Implements => finding_of(line, first, &[Wanted::Class]),
        Directive::Limit => {
            let all = [Wanted::Limited, Wanted::Int(0, 1024)];
            finding_of(line, first, &all)
        }
        Directive::Catch => {
            let all = [
                Wanted::Class,
                Wanted::Exactly("from"),
                Wanted::Label,
                Wanted::Exactly("to"),
                Wanted::Label,
                Wanted::Exactly("using"),
                Wanted::Label,
            ];
            finding_of(line, first, &all)
        }
        Directive::End => finding_of(line, first, &[Wanted::Exactly("method")]),
        Directive::LeftOut => Finding::LeftOut(first),
        Directive::Skipped => Finding::Nothing,
    }
}

/// The first word of a line that is wrong where it is, after the word that says what the line is.
pub(crate) fn finding_in<'a>(line: &'a [u8], first: Word<'a>) -> Finding<'a> {
    if let Some(directive) = directive_of(first.bytes) {
        return directive_finding(line, first, directive);
    }
    match form_of(first.bytes) {
        Some(form) => {
            let (one, other) = operands_of(form);
            finding_of(line, first, &[one, other])
        }
        None => Finding::Nothing,
    }
}
