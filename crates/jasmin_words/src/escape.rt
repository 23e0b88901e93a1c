//! The escapes of a string.

ghost use Rattle.std.specs.Prelude.{◌≡◌, ◌<◌, ◌≤◌, ◌++◌, IfOk, OnOk};
ghost use Rattle.std.specs.Char.Utf16.{is_high_surrogate, is_low_surrogate};
ghost use Rattle.sequence.specs.Gives.{Gives};
ghost use Rattle.jasmin_words.specs.Escapes.{encoded, hex_digit, hex_at, unit_at, low_at, unicode_at, escape_at, part_at, unescaped};

use sequence::Refusal;
use std::alloc::{AllocError, Global};

/// What is wrong with an escape.
#[derive(Clone, Copy)]
pub(crate) enum EscapeFault {
    /// No escape begins so, or a surrogate has no partner.
    Wrong,
    /// The text ends within the escape.
    Cut,
}

/// What a part of a written string means.
enum Part {
    /// This byte.
    Byte(u8),
    /// The bytes of this character.
    Char(char),
}

type Read<'a, T> = Result<(T, &'a [u8]), Refusal<EscapeFault>>;

fn digit_of(byte: u8) -> Option<u32>
    ensures { result ≡ hex_digit byte }
{
    (byte as char).to_digit(16)
}

fn hex_of(bytes: &[u8]) -> Read<'_, u32>
    ensures exact { Gives (λ x. (x.0, x.1.now)) result (hex_at bytes.now) }
    ensures digit { IfOk result (λ x. x.0 < 16) }
{
    match bytes {
        [] => Err(Refusal::Fault(EscapeFault::Cut)),
        [byte, rest @ ..] => match digit_of(*byte) {
            Some(digit) => Ok((digit, rest)),
            None => Err(Refusal::Fault(EscapeFault::Wrong)),
        },
    }
}

/// The unit of UTF-16 that four hexadecimal digits name.
#[tactic(auto, unfolding(crate::specs::Escapes::unit_at))]
fn unit_of(bytes: &[u8]) -> Read<'_, u32>
    ensures exact { Gives (λ x. (x.0, x.1.now)) result (unit_at bytes.now) }
    ensures unit { IfOk result (λ x. x.0 < 65536) }
{
    let (first, rest) = hex_of(bytes)?;
    let (second, rest) = hex_of(rest)?;
    let (third, rest) = hex_of(rest)?;
    let (fourth, rest) = hex_of(rest)?;
    Ok((((first * 16 + second) * 16 + third) * 16 + fourth, rest))
}

fn is_high(unit: u32) -> bool
    ensures { result ≡ is_high_surrogate unit }
{
    0xD800 <= unit && unit < 0xDC00
}

fn is_low(unit: u32) -> bool
    ensures { result ≡ is_low_surrogate unit }
{
    0xDC00 <= unit && unit < 0xE000
}

/// The character of a high surrogate and of the escaped low one after it.
#[tactic(auto, unfolding(crate::specs::Escapes::low_at))]
fn low_of(high: u32, bytes: &[u8]) -> Read<'_, Part>
    requires low { 55296 ≤ high }
    requires up { high < 56320 }
    ensures { Gives (λ x. (x.0, x.1.now)) result (low_at high bytes.now) }
{
    match bytes {
        [] | [b'\\'] => Err(Refusal::Fault(EscapeFault::Cut)),
        [b'\\', b'u', rest @ ..] => {
            let (low, rest) = unit_of(rest)?;
            if !is_low(low) {
                return Err(Refusal::Fault(EscapeFault::Wrong));
            }
            match char::from_u32(0x1_0000 + (high - 0xD800) * 0x400 + (low - 0xDC00)) {
                Some(character) => Ok((Part::Char(character), rest)),
                None => unreachable!(),
            }
        }
        [_, ..] => Err(Refusal::Fault(EscapeFault::Wrong)),
    }
}

/// The character that `\u` and four digits, or two such escapes, name.
#[tactic(auto, unfolding(crate::specs::Escapes::unicode_at))]
fn unicode_of(bytes: &[u8]) -> Read<'_, Part>
    ensures { Gives (λ x. (x.0, x.1.now)) result (unicode_at bytes.now) }
{
    let (unit, rest) = unit_of(bytes)?;
    if is_low(unit) {
        return Err(Refusal::Fault(EscapeFault::Wrong));
    }
    if is_high(unit) {
        return low_of(unit, rest);
    }
    match char::from_u32(unit) {
        Some(character) => Ok((Part::Char(character), rest)),
        None => unreachable!(),
    }
}

/// What an escape means, after its backslash.
#[tactic(auto, unfolding(crate::specs::Escapes::escape_at))]
fn escape_of(bytes: &[u8]) -> Read<'_, Part>
    ensures { Gives (λ x. (x.0, x.1.now)) result (escape_at bytes.now) }
{
    match bytes {
        [] => Err(Refusal::Fault(EscapeFault::Cut)),
        [b'u', rest @ ..] => unicode_of(rest),
        [b'n', rest @ ..] => Ok((Part::Byte(b'\n'), rest)),
        [b't', rest @ ..] => Ok((Part::Byte(b'\t'), rest)),
        [b'r', rest @ ..] => Ok((Part::Byte(b'\r'), rest)),
        [b'b', rest @ ..] => Ok((Part::Byte(8), rest)),
        [b'f', rest @ ..] => Ok((Part::Byte(12), rest)),
        [b'"', rest @ ..] => Ok((Part::Byte(b'"'), rest)),
        [b'\'', rest @ ..] => Ok((Part::Byte(b'\''), rest)),
        [b'\\', rest @ ..] => Ok((Part::Byte(b'\\'), rest)),
        [_, ..] => Err(Refusal::Fault(EscapeFault::Wrong)),
    }
}

/// The next part of a string.
#[tactic(auto, unfolding(crate::specs::Escapes::part_at))]
fn part_of(bytes: &[u8]) -> Read<'_, Part>
    ensures { Gives (λ x. (x.0, x.1.now)) result (part_at bytes.now) }
{
    match bytes {
        [] => Err(Refusal::Fault(EscapeFault::Cut)),
        [b'\\', rest @ ..] => escape_of(rest),
        [byte, rest @ ..] => Ok((Part::Byte(*byte), rest)),
    }
}

fn push_part(text: &mut Vec<u8>, part: Part) -> Result<(), AllocError>
    ensures { OnOk result (text.new.items ≡ text.old.items ++ encoded part) }
{
    match part {
        Part::Byte(byte) => {
            text.push(byte)?;
            Ok(())
        }
        Part::Char(character) => {
            let mut buffer = [0; 4];
            text.extend_from_slice(character.encode_utf8(&mut buffer).as_bytes())
        }
    }
}

/// The bytes that the inside of a written string means.
///
/// An error is the first wrong escape from the left, one that the text's end cuts, or being out of memory.
pub(crate) fn unescape(alloc: Global, bytes: &[u8]) -> Result<Vec<u8>, Refusal<EscapeFault>>
    ensures { Gives (λ text. text.items) result (unescaped bytes.now) }
{
    let mut text = Vec::new(alloc);
    let mut rest = bytes;
    while !rest.is_empty() {
        let (part, after) = part_of(rest)?;
        push_part(&mut text, part)?;
        rest = after;
    }
    Ok(text)
}
