//! Integers in words.

ghost use Rattle.std.specs.Prelude.{◌≡◌, ◌<◌, ◌≤◌, ℤ, Some, IfSome};
ghost use Rattle.sequence.specs.Written.{Adds};
ghost use Rattle.std.specs.Fmt.{decimal, signed_decimal};
ghost use Rattle.jasmin_words.specs.Integers.{number_after, magnitude_of, positive, negative, pattern, integer_of, IsInteger};

use itoa::Buffer;
use sequence::Writer;

/// The number that the digits spell in this base, if it is below 2 to the 32nd.
fn number(base: u32, digits: &[u8]) -> Option<u32>
    requires low { 2 ≤ base }
    requires up { base ≤ 16 }
    ensures { result ≡ number_after base 0 digits.now }
{
    let mut value: u32 = 0;
    let mut rest = digits;
    while let [byte, after @ ..] = rest {
        match (*byte as char).to_digit(base) {
            None => return None,
            Some(digit) => {
                let next = value as u64 * base as u64 + digit as u64;
                if next >= 0x1_0000_0000 {
                    return None;
                }
                value = next as u32;
            }
        }
        rest = after;
    }
    Some(value)
}

#[tactic(auto, unfolding(crate::specs::Integers::magnitude_of))]
fn magnitude(base: u32, digits: &[u8]) -> Option<u32>
    requires low { 2 ≤ base }
    requires up { base ≤ 16 }
    ensures { result ≡ magnitude_of base digits.now }
{
    if digits.is_empty() {
        return None;
    }
    number(base, digits)
}

fn above_zero(magnitude: Option<u32>) -> Option<i32>
    ensures { result ≡ positive magnitude }
{
    match magnitude {
        Some(number) if number < 0x8000_0000 => Some(number as i32),
        _ => None,
    }
}

fn below_zero(magnitude: Option<u32>) -> Option<i32>
    ensures { result ≡ negative magnitude }
{
    match magnitude {
        Some(number) if number <= 0x8000_0000 => Some((-(number as i64)) as i32),
        _ => None,
    }
}

fn by_pattern(magnitude: Option<u32>) -> Option<i32>
    ensures { result ≡ pattern magnitude }
{
    match magnitude {
        Some(number) if number < 0x8000_0000 => Some(number as i32),
        Some(number) => Some((number as i64 - 0x1_0000_0000) as i32),
        None => None,
    }
}

/// The integer that a word represents, if it represents one.
#[tactic(auto, unfolding(crate::specs::Integers::integer_of))]
fn integer_in(word: &[u8]) -> Option<i32>
    ensures { result ≡ integer_of word.now }
{
    match word {
        [] => None,
        [b'-', digits @ ..] => below_zero(magnitude(10, digits)),
        [b'0', b'x', digits @ ..] => {
            if digits.len() <= 8 {
                by_pattern(magnitude(16, digits))
            } else {
                None
            }
        }
        digits => above_zero(magnitude(10, digits)),
    }
}

/// The integer that a word represents: decimal digits, or a minus and decimal digits, in the 32 bits of an
/// int, or `0x` and one to eight hexadecimal digits, the pattern of 32 bits. Zeros may lead.
///
/// `None` is for every other word. Takes no memory.
pub fn parse_integer(word: &[u8]) -> Option<i32>
    ensures exact { result ≡ integer_of word.now }
    ensures found { IfSome result (λ n. IsInteger word.now n) }
    ensures only { (n : ℤ) → IsInteger word.now n → result ≡ Some n }
{
    integer_in(word)
}

/// Writes an integer in decimal at the end.
pub fn push_integer(text: &mut Writer, number: i32)
    ensures { Adds text.old (signed_decimal number) text.new }
{
    let mut buffer = Buffer::new();
    text.push(buffer.format(number).as_bytes());
}

/// Writes a number in decimal at the end.
pub fn push_decimal(text: &mut Writer, number: usize)
    ensures { Adds text.old (decimal number) text.new }
{
    let mut digits = Buffer::new();
    text.push(digits.format(number).as_bytes());
}
