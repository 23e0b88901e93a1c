//! Numbers in words.

ghost use Rattle.std.specs.Prelude.{◌≡◌, ◌<◌, IfOk};
ghost use Rattle.std.specs.List.{list_all};
ghost use Rattle.sequence.specs.Gives.{Gives};
ghost use Rattle.trace_reader.specs.Numbers.{is_digit, is_number as is_decimal, int_in, number_in, number_at, known_thread, thread_at};

use crate::fault::TraceFaultKind;
use crate::words::{Read, same};
use itoa::Buffer;
use jasmin_words::integer::parse_integer;
use sequence::Refusal;

fn digit(byte: u8) -> bool
    ensures { result ≡ is_digit byte }
{
    b'0' <= byte && byte <= b'9'
}

fn digits(bytes: &[u8]) -> bool
    ensures { result ≡ list_all is_digit bytes.now }
{
    let mut rest = bytes;
    while let [byte, after @ ..] = rest {
        if !digit(*byte) {
            return false;
        }
        rest = after;
    }
    true
}

/// Whether a word is a number in decimal without leading zeros.
fn is_number(word: &[u8]) -> bool
    ensures { result ≡ is_decimal word.now }
{
    match word {
        [] => false,
        [only] => digit(*only),
        [first, rest @ ..] => digit(*first) && *first != b'0' && digits(rest),
    }
}

/// The int whose decimal the word is. Takes no memory.
#[tactic(auto, unfolding(crate::specs::Numbers::int_in))]
pub(crate) fn int(word: &[u8]) -> Option<i32>
    ensures { result ≡ int_in word.now }
{
    let number = parse_integer(word)?;
    let mut buffer = Buffer::new();
    if same(word, buffer.format(number).as_bytes()) {
        Some(number)
    } else {
        None
    }
}

fn any_number(word: &[u8]) -> Option<u32>
    ensures { result ≡ number_in word.now }
{
    match int(word) {
        Some(number) if number >= 0 => Some(number as u32),
        _ => None,
    }
}

/// The number from 0 on whose decimal the word is, most often one digit. Takes no memory.
pub(crate) fn number(word: &[u8]) -> Option<u32>
    ensures { result ≡ number_in word.now }
{
    match word {
        [only] if digit(*only) => Some((*only - b'0') as u32),
        _ => any_number(word),
    }
}

/// Reads the number of a line.
#[tactic(auto, unfolding(crate::specs::Numbers::number_at))]
pub(crate) fn line_number(number: usize, word: &[u8]) -> Read<()>
    ensures { Gives (λ _. tt) result (number_at number word.now) }
{
    let mut digits = Buffer::new();
    if same(word, digits.format(number).as_bytes()) {
        Ok(())
    } else if is_number(word) {
        Err(Refusal::Fault(TraceFaultKind::NumberOutOfTurn))
    } else {
        Err(Refusal::Fault(TraceFaultKind::BadLine))
    }
}

fn thread_among(threads: usize, digits: &[u8]) -> Read<usize>
    ensures { Gives (λ t. t) result (known_thread threads digits.now (number_in digits.now)) }
{
    match number(digits) {
        Some(thread) if (thread as usize) < threads => Ok(thread as usize),
        Some(_) => Err(Refusal::Fault(TraceFaultKind::UnknownName)),
        None if is_number(digits) => Err(Refusal::Fault(TraceFaultKind::UnknownName)),
        None => Err(Refusal::Fault(TraceFaultKind::BadLine)),
    }
}

/// The thread that a word names, below `threads`.
#[tactic(auto, unfolding(crate::specs::Numbers::thread_at))]
pub(crate) fn thread(threads: usize, word: &[u8]) -> Read<usize>
    ensures read { Gives (λ t. t) result (thread_at threads word.now) }
    ensures below { IfOk result (λ t. t < threads) }
{
    match word {
        [b't', digits @ ..] => thread_among(threads, digits),
        _ => Err(Refusal::Fault(TraceFaultKind::BadLine)),
    }
}
