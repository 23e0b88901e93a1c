//! In which order the threads go on, as the command line says it.

ghost use Rattle.std.specs.Prelude.{◌≡◌, [], IfErr, IfOk, Some};
ghost use Rattle.std.specs.Option.{option_map};
ghost use Rattle.command_line.specs.CommandLine.{text_of};
ghost use Rattle.cli.specs.Orders.{IsOrderRefusal, commas_in, is_of_threads, number_up_to, number_with_digit, numbers_from, numbers_in, numbers_of, order_in};

use crate::fault::Fault;
use std::alloc::{AllocError, Global};

/// The number with one decimal digit more, where it is at most `most`.
fn with_digit(number: usize, byte: u8, most: usize) -> Option<usize>
    ensures { result ≡ number_with_digit most number byte }
{
    let digit = (byte as char).to_digit(10)?;
    let next = number as u128 * 10 + digit as u128;
    if next <= most as u128 {
        Some(next as usize)
    } else {
        None
    }
}

/// The decimal number that these digits write, and nothing else, where it is at most `most`.
fn number_of(digits: &[u8], most: usize) -> Option<usize>
    ensures { result ≡ number_up_to most digits.now }
{
    if digits.is_empty() {
        return None;
    }
    let mut number = 0;
    let mut rest = digits;
    while let [byte, after @ ..] = rest {
        match with_digit(number, *byte, most) {
            Some(next) => number = next,
            None => return None,
        }
        rest = after;
    }
    Some(number)
}

/// The numbers between the commas of a text that isn't empty, in order; none where one is no decimal number, or more than `most`.
fn numbers_between(
    alloc: Global,
    text: &[u8],
    most: usize,
) -> Result<Option<Vec<usize>>, AllocError>
    ensures { IfOk result (λ numbers. option_map (λ all. all.items) numbers ≡ numbers_from most [] text.now) }
{
    let mut numbers = Vec::new(alloc);
    let mut entry = Vec::new(alloc);
    let mut rest = text;
    while let [byte, after @ ..] = rest {
        if *byte == b',' {
            let Some(number) = number_of(&entry, most) else {
                return Ok(None);
            };
            numbers.push(number)?;
            entry.clear();
        } else {
            entry.push(*byte)?;
        }
        rest = after;
    }
    let Some(number) = number_of(&entry, most) else {
        return Ok(None);
    };
    numbers.push(number)?;
    Ok(Some(numbers))
}

/// The numbers that a text has between its commas, in order: the empty text has none.
#[tactic(auto, using(crate::proofs::OrderText::from_the_first))]
fn numbers_of_text(
    alloc: Global,
    text: &[u8],
    most: usize,
) -> Result<Option<Vec<usize>>, AllocError>
    ensures { IfOk result (λ numbers. option_map (λ all. all.items) numbers ≡ numbers_in most text.now) }
{
    if text.is_empty() {
        return Ok(Some(Vec::new(alloc)));
    }
    numbers_between(alloc, text, most)
}

/// How many commas a text has.
fn commas(text: &[u8]) -> usize
    ensures { result ≡ commas_in text.now }
{
    let mut count = 0;
    let mut rest = text;
    while let [byte, after @ ..] = rest {
        if *byte == b',' {
            count += 1;
        }
        rest = after;
    }
    count
}

/// The order that the text of `--order` says, where it is given: numbers of the classes that the text of `--mains` names, from 0.
pub(crate) fn order_of<'a>(
    alloc: Global,
    mains: Option<&str>,
    order: Option<&str>,
) -> Result<Option<Vec<usize>>, Fault<'a>>
    ensures said { IfOk result (λ said. Some (option_map (λ all. all.items) said) ≡ order_in (text_of mains.entry) (text_of order.entry)) }
    ensures refused { IfErr result (IsOrderRefusal (text_of mains.entry) (text_of order.entry)) }
{
    let Some(text) = order else {
        return Ok(None);
    };
    let Some(mains) = mains else {
        return Err(Fault::Order);
    };
    match numbers_of_text(alloc, text.as_bytes(), commas(mains.as_bytes()))? {
        Some(numbers) => Ok(Some(numbers)),
        None => Err(Fault::Order),
    }
}

/// Whether an order is one of so many threads.
pub(crate) fn fits(order: Option<&[usize]>, threads: usize) -> bool
    ensures { result ≡ is_of_threads threads (numbers_of order.entry) }
{
    let Some(numbers) = order else {
        return true;
    };
    let mut rest = numbers;
    while let [thread, after @ ..] = rest {
        if *thread >= threads {
            return false;
        }
        rest = after;
    }
    true
}
