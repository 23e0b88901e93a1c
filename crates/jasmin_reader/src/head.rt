//! The lines that name a class, a field or a method.

ghost use Rattle.std.specs.Prelude.{◌≡◌};
ghost use Rattle.std.specs.Option.{option_map};
ghost use Rattle.sequence.specs.Gives.{Gives};
ghost use Rattle.jasmin_words.specs.Lexing.{view, views};
ghost use Rattle.jasmin_reader.specs.Heads.{start, with_access, fits_place, head_word_at, with_word, is_word, has_word, begins_with_word, behind_signature as behind_signature_of, is_signature, begins_with_part, is_before_name, named_from, no_access_in, class_from};

use crate::place::{FromWord, LineError, bad_operand, ended, first, within};
use crate::table::ClassWord;
use descriptors::ClassName;
use jasmin_text::table::{AccessWord, access_of, member_access_of};
use jasmin_text::{Access, ClassKind};
use jasmin_words::name::same;
use jasmin_words::{FaultKind, Token};
use sequence::Refusal;
use std::alloc::Global;

/// What a line names.
#[derive(Clone, Copy)]
pub(crate) enum Place {
    /// `.class`
    Class,
    /// `.interface`
    Interface,
    /// `.field`
    Field,
    /// `.method`
    Method,
}

/// The words before a name, so far.
#[derive(Clone, Copy)]
pub(crate) struct HeadWords {
    /// Whether `.interface` or the word `interface` is there.
    pub kind: ClassKind,
    /// The access words.
    pub access: Access,
}

/// No word yet.
pub(crate) fn no_words(kind: ClassKind) -> HeadWords
    ensures { result ≡ start kind }
{
    HeadWords {
        kind,
        access: Access::NONE,
    }
}

/// The access words with one more.
fn add_access(access: Access, word: AccessWord) -> Result<Access, LineError>
    ensures { Gives (λ x. x) result (with_access access word) }
{
    let mut access = access;
    match word {
        AccessWord::Public => access.public = true,
        AccessWord::Private => access.private = true,
        AccessWord::Protected => access.protected = true,
        AccessWord::Static => access.is_static = true,
        AccessWord::Final => access.is_final = true,
        AccessWord::Synchronized => access.synchronized = true,
        AccessWord::Volatile => access.volatile = true,
        AccessWord::Transient => access.transient = true,
        AccessWord::Abstract => access.is_abstract = true,
        AccessWord::Dropped => {}
        AccessWord::LeftOut => return Err(Refusal::Fault(FaultKind::LeftOut)),
    }
    Ok(access)
}

/// Whether these access words may come together: `abstract` and `static` on no method.
fn together(place: Place, access: Access) -> Result<Access, LineError>
    ensures { Gives (λ x. x) result (fits_place place access) }
{
    match place {
        Place::Method if access.is_abstract && access.is_static => Err(bad_operand()),
        _ => Ok(access),
    }
}

/// What the word says before a name, if it is an access word there.
#[tactic(auto, unfolding(crate::specs::Heads::head_word_at))]
fn head_word(place: Place, word: &[u8]) -> Option<ClassWord>
    ensures { result ≡ head_word_at place word.now }
{
    let access = match place {
        Place::Class if same(word, b"interface") => return Some(ClassWord::Interface),
        Place::Class | Place::Interface => access_of(word),
        Place::Field | Place::Method => member_access_of(word),
    };
    access.map(ClassWord::Access)
}

/// The words with one more.
#[tactic(auto, unfolding(crate::specs::Heads::with_word))]
fn add_word(place: Place, words: HeadWords, word: &[u8]) -> Result<HeadWords, LineError>
    ensures { Gives (λ x. x) result (with_word place words word.now) }
{
    let HeadWords { kind, access } = words;
    match head_word(place, word) {
        None => Err(bad_operand()),
        Some(ClassWord::Interface) => Ok(HeadWords {
            kind: ClassKind::Interface,
            access,
        }),
        Some(ClassWord::Access(more)) => {
            let access = together(place, add_access(access, more)?)?;
            Ok(HeadWords { kind, access })
        }
    }
}

fn is_a_word(token: &Token<'_>) -> bool
    ensures { result ≡ is_word (view token.now) }
{
    match token {
        Token::Word(_) | Token::BadWord => true,
        _ => false,
    }
}

fn holds_word(tokens: &[Token<'_>]) -> bool
    ensures { result ≡ has_word (views tokens.now) }
{
    let mut rest = tokens;
    while let [first, after @ ..] = rest {
        if is_a_word(first) {
            return true;
        }
        rest = after;
    }
    false
}

fn starts_with_word(tokens: &[Token<'_>]) -> bool
    ensures { result ≡ begins_with_word (views tokens.now) }
{
    match tokens {
        [] => false,
        [first, ..] => is_a_word(first),
    }
}

/// What follows `signature`, where it comes next.
pub(crate) fn behind_signature<'a, 't>(tokens: &'t [Token<'a>]) -> Option<&'t [Token<'a>]>
    ensures { option_map (λ r. views r.now) result ≡ behind_signature_of (views tokens.now) }
{
    match tokens {
        [] => None,
        [first, rest @ ..] => match first {
            Token::Word(word) if same(word, b"signature") => Some(rest),
            _ => None,
        },
    }
}

/// Whether `signature` ends the words of a field here.
pub(crate) fn is_at_signature(tokens: &[Token<'_>]) -> bool
    ensures { result ≡ is_signature (views tokens.now) }
{
    match behind_signature(tokens) {
        None => false,
        Some(rest) => !starts_with_word(rest),
    }
}

/// Whether a word of a field's access words, name and descriptor comes next.
fn starts_with_part(tokens: &[Token<'_>]) -> bool
    ensures { result ≡ begins_with_part (views tokens.now) }
{
    starts_with_word(tokens) && !is_at_signature(tokens)
}

/// Whether the name is still to come, after the word before these.
fn name_follows(place: Place, tokens: &[Token<'_>]) -> bool
    ensures { result ≡ is_before_name place (views tokens.now) }
{
    match place {
        Place::Field => match tokens {
            [] => false,
            [_, second @ ..] => starts_with_part(tokens) && starts_with_part(second),
        },
        _ => holds_word(tokens),
    }
}

/// The fault of an access word in the name's place, if one is there: it is taken as one, and the name is missing.
#[tactic(auto, unfolding(crate::specs::Heads::no_access_in))]
fn no_access_word(place: Place, word: &[u8]) -> Result<(), LineError>
    ensures { Gives (λ x. x) result (no_access_in place word.now) }
{
    match head_word(place, word) {
        None => Ok(()),
        Some(ClassWord::Access(AccessWord::LeftOut)) => Err(Refusal::Fault(FaultKind::LeftOut)),
        Some(_) => Err(bad_operand()),
    }
}

/// The access words, the word in the name's place, and what follows it.
#[derive(Drop)]
pub(crate) struct Named<'a, 't> {
    pub words: HeadWords,
    pub name: &'a [u8],
    pub rest: &'t [Token<'a>],
}

/// The access words, the word in the name's place, and what follows it.
#[tactic(auto, unfolding(crate::specs::Heads::named_from))]
pub(crate) fn read_name<'a, 't>(
    place: Place,
    words: HeadWords,
    tokens: &'t [Token<'a>],
) -> Result<Named<'a, 't>, LineError>
    ensures { Gives (λ x. (x.words, (x.name.now, views x.rest.now))) result (named_from place words (views tokens.now)) }
{
    let mut words = words;
    let mut rest = tokens;
    while let [token, after @ ..] = rest {
        let name = first(FaultKind::BadOperand, token)?;
        if !name_follows(place, after) {
            let named = Named {
                words,
                name,
                rest: after,
            };
            return no_access_word(place, name).and(Ok(named));
        }
        words = add_word(place, words, name)?;
        within(name)?;
        rest = after;
    }
    Err(bad_operand())
}

/// A class's access words and its name, after `.class` or `.interface`.
#[tactic(auto, unfolding(crate::specs::Heads::class_from))]
pub(crate) fn class_head(
    alloc: Global,
    place: Place,
    tokens: &[Token<'_>],
) -> Result<(HeadWords, ClassName), LineError>
    ensures { Gives (λ x. x) result (class_from place (views tokens.now)) }
{
    let kind = match place {
        Place::Interface => ClassKind::Interface,
        _ => ClassKind::Class,
    };
    let named = read_name(place, no_words(kind), tokens)?;
    let name = ClassName::from_word(alloc, named.name)?;
    within(named.name)?;
    ended(named.rest).and(Ok((named.words, name)))
}
