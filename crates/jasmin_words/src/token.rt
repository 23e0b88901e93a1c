//! The words of a line.

ghost use Rattle.std.specs.Prelude.{◌≡◌, ◌≤◌, ℕ, List, length, true, false, if◌then◌else◌, IfOk};
ghost use Rattle.std.specs.List.{list_all};
ghost use Rattle.std.specs.Str.{is_utf8};
ghost use Rattle.jasmin_words.specs.declared.fault.FaultKind.TheVariants.{BadOperand, Unfinished};
ghost use Rattle.jasmin_words.specs.Lexing.{Item, BadText, is_blank, is_parting, is_plain, word_len, word_item, word_at, raw_len, string_item, string_at, token_at, words_of, view, views, token_view};
ghost use Rattle.jasmin_words.specs.Spelling.{IsSpelled, AreWords, AreLexed};

use crate::escape::{EscapeFault, unescape};
use crate::fault::FaultKind;
use sequence::{Refusal, Text};
use std::alloc::{AllocError, Global};

/// The most bytes of a word that isn't skipped, and of a string's characters in UTF-8.
pub const MOST_BYTES: usize = 65_535;

/// A word of a line, or what is wrong in its place.
#[derive(Drop)]
pub enum Token<'a> {
    /// A word of ASCII bytes from 33 to 126, of any length. It has no `"`, `=` and `:`.
    Word(&'a [u8]),
    /// A word with a byte above 127 or a control byte.
    BadWord,
    /// The word `=`.
    Equals,
    /// The word `:`.
    Colon,
    /// A string: its characters, escapes resolved, as at most 65,535 bytes of UTF-8.
    Text(Text),
    /// A string at fault: the lowest of `BadByte` where it isn't UTF-8, `BadOperand` for a wrong escape,
    /// `Unfinished` without a closing quote, `LimitExceeded` for too many bytes.
    BadText(FaultKind),
}

fn blank(byte: u8) -> bool
    ensures { result ≡ is_blank byte }
{
    byte == b' ' || byte == b'\t' || byte == b'\r'
}

fn parting(byte: u8) -> bool
    ensures { result ≡ is_parting byte }
{
    blank(byte) || byte == b'"' || byte == b':' || byte == b'='
}

fn plain(byte: u8) -> bool
    ensures { result ≡ is_plain byte }
{
    32 < byte && byte < 127
}

fn word_length(bytes: &[u8]) -> usize
    ensures value { result ≡ word_len bytes.now }
    ensures within { result ≤ length bytes.now }
{
    let mut count = 0;
    let mut rest = bytes;
    while let [byte, after @ ..] = rest {
        if parting(*byte) {
            return count;
        }
        count += 1;
        rest = after;
    }
    count
}

fn are_plain(word: &[u8]) -> bool
    ensures { result ≡ list_all is_plain word.now }
{
    let mut rest = word;
    while let [byte, after @ ..] = rest {
        if !plain(*byte) {
            return false;
        }
        rest = after;
    }
    true
}

/// A word, by its bytes.
#[tactic(auto, unfolding(crate::specs::Lexing::word_item))]
fn word_token(word: &[u8]) -> Token<'_>
    ensures { view result ≡ word_item word.now }
{
    if are_plain(word) {
        Token::Word(word)
    } else {
        Token::BadWord
    }
}

/// The word that the bytes begin with, and the bytes after it.
#[tactic(auto, unfolding(crate::specs::Lexing::word_at))]
fn word_of(bytes: &[u8]) -> (Token<'_>, &[u8])
    ensures { (view result.0, result.1.now) ≡ word_at bytes.now }
{
    let (word, rest) = bytes.split_at(word_length(bytes));
    (word_token(word), rest)
}

/// How many bytes come before the closing quote, or before the line's end.
fn raw_length(bytes: &[u8]) -> usize
    ensures value { result ≡ raw_len false bytes.now }
    ensures within { result ≤ length bytes.now }
{
    let mut count = 0;
    let mut escaped = false;
    let mut rest = bytes;
    while let [byte, after @ ..] = rest {
        if !escaped && *byte == b'"' {
            return count;
        }
        escaped = !escaped && *byte == b'\\';
        count += 1;
        rest = after;
    }
    count
}

/// Whether the bytes are UTF-8.
pub fn is_text(bytes: &[u8]) -> bool
    ensures { result ≡ is_utf8 bytes.now }
{
    std::str::from_utf8(bytes).is_ok()
}

fn unfinished(closed: bool) -> Token<'static>
    ensures { view result ≡ (if closed then BadText BadOperand else BadText Unfinished) }
{
    if closed {
        Token::BadText(FaultKind::BadOperand)
    } else {
        Token::BadText(FaultKind::Unfinished)
    }
}

/// The string whose inside is written so; `closed` says whether a quote closes it.
#[tactic(auto, unfolding(crate::specs::Lexing::string_item))]
fn string_token(alloc: Global, raw: &[u8], closed: bool) -> Result<Token<'static>, AllocError>
    ensures { IfOk result (λ token. view token ≡ string_item closed raw.now) }
{
    if !is_text(raw) {
        return Ok(Token::BadText(FaultKind::BadByte));
    }
    match unescape(alloc, raw) {
        Err(Refusal::Memory) => Err(AllocError),
        Err(Refusal::Fault(EscapeFault::Wrong)) => Ok(Token::BadText(FaultKind::BadOperand)),
        Err(Refusal::Fault(EscapeFault::Cut)) => Ok(unfinished(closed)),
        Ok(text) => {
            if !closed {
                Ok(Token::BadText(FaultKind::Unfinished))
            } else if text.len() <= MOST_BYTES {
                Ok(Token::Text(Text::from_vec(text)))
            } else {
                Ok(Token::BadText(FaultKind::LimitExceeded))
            }
        }
    }
}

/// The string after its opening quote, and the bytes after its closing one.
#[tactic(auto, unfolding(crate::specs::Lexing::string_at))]
fn string_of(alloc: Global, bytes: &[u8]) -> Result<(Token<'_>, &[u8]), AllocError>
    ensures { IfOk result (λ x. (view x.0, x.1.now) ≡ string_at bytes.now) }
{
    let (raw, rest) = bytes.split_at(raw_length(bytes));
    match rest {
        [] => Ok((string_token(alloc, raw, false)?, rest)),
        [_, after @ ..] => Ok((string_token(alloc, raw, true)?, after)),
    }
}

/// The next word and the bytes after it; `fresh` says whether a comment may begin here.
#[tactic(auto, unfolding(crate::specs::Lexing::token_at))]
fn token_of(
    alloc: Global,
    fresh: bool,
    line: &[u8],
) -> Result<Option<(Token<'_>, &[u8])>, AllocError>
    ensures { IfOk result (λ o. token_view o ≡ token_at fresh line.now) }
{
    let mut fresh = fresh;
    let mut rest = line;
    while let [byte, after @ ..] = rest {
        if !blank(*byte) {
            break;
        }
        fresh = true;
        rest = after;
    }
    match rest {
        [] => Ok(None),
        [b';', ..] if fresh => Ok(None),
        [b'=', after @ ..] => Ok(Some((Token::Equals, after))),
        [b':', after @ ..] => Ok(Some((Token::Colon, after))),
        [b'"', after @ ..] => Ok(Some(string_of(alloc, after)?)),
        _ => Ok(Some(word_of(rest))),
    }
}

/// The words of a line, from the left.
fn all_words(alloc: Global, line: &[u8]) -> Result<Vec<Token<'_>>, AllocError>
    ensures { IfOk result (λ tokens. views tokens.items ≡ words_of line.now) }
{
    let mut all = Vec::new(alloc);
    let mut rest = line;
    let mut fresh = true;
    while let Some((token, after)) = token_of(alloc, fresh, rest)? {
        all.push(token)?;
        rest = after;
        fresh = false;
    }
    Ok(all)
}

/// The words of a line, from the left.
///
/// Spaces, tabs and CR separate words. A `;` at the line's start or after whitespace begins a comment, to the
/// line's end. Outside strings `=` and `:` are words by themselves, and a `"` begins a string wherever it
/// is. Every line has words; only memory can run out.
pub fn words(alloc: Global, line: &[u8]) -> Result<Vec<Token<'_>>, AllocError>
    // The words are those of the reading function.
    ensures exact { IfOk result (λ tokens. views tokens.items ≡ words_of line.now) }
    // A line without a wrong word is spelled by its words.
    ensures found { IfOk result (λ tokens. AreWords (views tokens.items) → IsSpelled true line.now (views tokens.items)) }
    // A line that words spell is read as them.
    ensures only { (items : List Item) → IsSpelled true line.now items → IfOk result (λ tokens. views tokens.items ≡ items) }
    // Each string is UTF-8 and within its limit.
    ensures lexed { IfOk result (λ tokens. AreLexed (views tokens.items)) }
{
    all_words(alloc, line)
}

/// A line that words spell is cut into them, and a line of which no word is wrong is spelled by its words.
pub fn words_are_those_that_spell_the_line()
    ensures cut { (line : List ℕ) (items : List Item) → IsSpelled true line items → words_of line ≡ items }
    ensures spelled { (line : List ℕ) → AreWords (words_of line) → IsSpelled true line (words_of line) }
{}
