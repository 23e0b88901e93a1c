//! Texts in their canonical spelling.

ghost use Rattle.std.specs.Prelude.{◌≡◌, ◌<◌, ◌≤◌, ◌++◌, length, take, drop, nat_lt, option_copied, IfOk, IfSome};
ghost use Rattle.std.specs.List.{list_all};
ghost use Rattle.std.specs.Str.{is_utf8 as are_utf8};
ghost use Rattle.sequence.specs.Gives.{Gives};
ghost use Rattle.trace_reader.specs.Strings.{low_hex, has_code, coded, code_at, escape_at, is_plain, stands_alone, plain_len, byte_at, closing, bytes_at, quote_at, closed_at, text_at};

use crate::fault::TraceFaultKind;
use crate::words::{Read, ends_word};
use jasmin_words::token::is_text;
use sequence::{Refusal, Text};
use std::alloc::{AllocError, Global};

fn digit_of(byte: u8) -> Option<u8>
    ensures value { result ≡ low_hex byte }
    ensures small { IfSome result (λ d. d < 16) }
{
    if b'0' <= byte && byte <= b'9' {
        Some(byte - b'0')
    } else if b'a' <= byte && byte <= b'f' {
        Some(byte - 87)
    } else {
        None
    }
}

fn needs_code(byte: u8) -> bool
    ensures { result ≡ has_code byte }
{
    (byte < 32 || byte == 127) && byte != b'\n' && byte != b'\t' && byte != b'\r'
}

/// The byte of two digits, where its spelling has them.
fn coded_byte(high: u8, low: u8) -> Option<u8>
    ensures { result ≡ coded (low_hex high) (low_hex low) }
{
    let high = digit_of(high)?;
    let low = digit_of(low)?;
    let byte = high * 16 + low;
    if needs_code(byte) { Some(byte) } else { None }
}

/// The byte after `\u`.
#[tactic(auto, unfolding(crate::specs::Strings::code_at))]
fn code(bytes: &[u8]) -> Read<(u8, &[u8])>
    ensures { Gives (λ x. (x.0, x.1.now)) result (code_at bytes.now) }
{
    match bytes {
        [b'0', b'0', high, low, after @ ..] => match coded_byte(*high, *low) {
            Some(byte) => Ok((byte, after)),
            None => Err(Refusal::Fault(TraceFaultKind::BadValue)),
        },
        _ => Err(Refusal::Fault(TraceFaultKind::BadValue)),
    }
}

/// The byte after a backslash.
#[tactic(auto, unfolding(crate::specs::Strings::escape_at))]
fn escape(bytes: &[u8]) -> Read<(u8, &[u8])>
    ensures { Gives (λ x. (x.0, x.1.now)) result (escape_at bytes.now) }
{
    match bytes {
        [b'u', after @ ..] => code(after),
        [b'"', after @ ..] => Ok((b'"', after)),
        [b'\\', after @ ..] => Ok((b'\\', after)),
        [b'n', after @ ..] => Ok((b'\n', after)),
        [b't', after @ ..] => Ok((b'\t', after)),
        [b'r', after @ ..] => Ok((b'\r', after)),
        _ => Err(Refusal::Fault(TraceFaultKind::BadValue)),
    }
}

fn stands_for_itself(byte: u8) -> bool
    ensures { result ≡ is_plain byte }
{
    32 <= byte && byte != 127 && byte != b'"'
}

/// One byte of a text, and what follows its spelling.
#[tactic(auto, unfolding(crate::specs::Strings::byte_at))]
fn byte_of(bytes: &[u8]) -> Read<(u8, &[u8])>
    ensures { Gives (λ x. (x.0, x.1.now)) result (byte_at bytes.now) }
{
    match bytes {
        [b'\\', after @ ..] => escape(after),
        [byte, after @ ..] if stands_for_itself(*byte) => Ok((*byte, after)),
        _ => Err(Refusal::Fault(TraceFaultKind::BadValue)),
    }
}

/// What follows a closing quote that the bytes begin with.
fn behind_closing(bytes: &[u8]) -> Option<&[u8]>
    ensures { option_copied result ≡ closing bytes.now }
{
    match bytes {
        [b'"', after @ ..] => Some(after),
        _ => None,
    }
}

// Most bytes are letters of lower case, and take two tests.
fn is_alone(byte: u8) -> bool
    ensures { result ≡ stands_alone byte }
{
    if b'\\' < byte {
        byte != 127
    } else {
        32 <= byte && byte != b'"' && byte != b'\\'
    }
}

/// How many bytes at the front stand for themselves.
fn plain_length(bytes: &[u8]) -> usize
    ensures value { result ≡ plain_len bytes.now }
    ensures within { result ≤ length bytes.now }
{
    let mut count = 0;
    let mut rest = bytes;
    while let [byte, after @ ..] = rest {
        if !is_alone(*byte) {
            return count;
        }
        count += 1;
        rest = after;
    }
    count
}

/// Adds the bytes at the front that stand for themselves, all at once, with room for one more: what follows them.
fn add_plain<'a>(text: &mut Vec<u8>, bytes: &'a [u8]) -> Result<&'a [u8], AllocError>
    ensures text { IfOk result (λ _. text.new.items ≡ text.old.items ++ take (plain_len bytes.now) bytes.now) }
    ensures rest { IfOk result (λ rest. rest.now ≡ drop (plain_len bytes.now) bytes.now) }
{
    let length = plain_length(bytes);
    if length == 0 {
        return Ok(bytes);
    }
    let (plain, rest) = bytes.split_at(length);
    text.reserve(length + 1)?;
    text.extend_from_slice(plain)?;
    Ok(rest)
}

/// The bytes up to the closing quote, and what follows it.
fn bytes_of(alloc: Global, bytes: &[u8]) -> Read<(Vec<u8>, &[u8])>
    ensures { Gives (λ x. (x.0.items, x.1.now)) result (bytes_at bytes.now) }
{
    let mut text = Vec::new(alloc);
    let mut rest = bytes;
    'bytes: loop {
        let behind = add_plain(&mut text, rest)?;
        if let Some(after) = behind_closing(behind) {
            return Ok((text, after));
        }
        let (byte, after) = byte_of(behind)?;
        text.push(byte)?;
        rest = after;
    }
}

// Goes on after a byte that isn't, so that several bytes can be looked at at once.
fn is_ascii(bytes: &[u8]) -> bool
    ensures { result ≡ list_all (λ b. nat_lt b 128) bytes.now }
{
    let mut all = true;
    let mut rest = bytes;
    while let [byte, after @ ..] = rest {
        all &= *byte < 128;
        rest = after;
    }
    all
}

/// Whether the bytes are UTF-8, as those of ASCII are.
#[tactic(auto, using(crate::proofs::QuotedTexts::ascii_is_utf8))]
fn is_utf8(bytes: &[u8]) -> bool
    ensures { result ≡ are_utf8 bytes.now }
{
    is_ascii(bytes) || is_text(bytes)
}

#[tactic(auto, unfolding(crate::specs::Strings::quote_at))]
fn behind_quote(bytes: &[u8]) -> Read<&[u8]>
    ensures { Gives (λ x. x.now) result (quote_at bytes.now) }
{
    match bytes {
        [] => Err(Refusal::Fault(TraceFaultKind::BadLine)),
        [b'"', after @ ..] => Ok(after),
        [byte, ..] if ends_word(*byte) => Err(Refusal::Fault(TraceFaultKind::BadLine)),
        _ => Err(Refusal::Fault(TraceFaultKind::BadValue)),
    }
}

#[tactic(auto, unfolding(crate::specs::Strings::closed_at))]
fn behind_text(bytes: &[u8]) -> Read<&[u8]>
    ensures { Gives (λ x. x.now) result (closed_at bytes.now) }
{
    match bytes {
        [b'\n', after @ ..] => Ok(after),
        [] | [b' ', ..] => Err(Refusal::Fault(TraceFaultKind::BadLine)),
        _ => Err(Refusal::Fault(TraceFaultKind::BadValue)),
    }
}

/// The text between its quotes, and what follows the line's end.
#[tactic(auto, unfolding(crate::specs::Strings::text_at))]
pub(crate) fn text(alloc: Global, bytes: &[u8]) -> Read<(Text, &[u8])>
    ensures { Gives (λ x. (x.0, x.1.now)) result (text_at bytes.now) }
{
    let inside = behind_quote(bytes)?;
    let (text, after) = bytes_of(alloc, inside)?;
    if !is_utf8(&text) {
        return Err(Refusal::Fault(TraceFaultKind::BadValue));
    }
    let rest = behind_text(after)?;
    Ok((Text::from_vec(text), rest))
}
