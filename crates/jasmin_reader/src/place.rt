//! Words in their places.

ghost use Rattle.std.specs.Prelude.{◌≡◌, Result, List, ℕ};
ghost use Rattle.jasmin_words.specs.declared.fault.FaultKind.{FaultKind};
ghost use Rattle.jasmin_words.specs.declared.fault.FaultKind.TheVariants as faults;
ghost use Rattle.sequence.specs.declared.refusal.Refusal.TheVariants as refusals;
ghost use Rattle.sequence.specs.Gives.{Gives};
ghost use Rattle.jasmin_words.specs.Lexing.{view, views};
ghost use Rattle.jasmin_reader.specs.Places.{wanted_or, misplaced, within_limit, next_word, operand as operand_of, string_from, ended_at, first_word};
ghost use Rattle.jasmin_reader.specs.Operands.{last_operand as last_operand_of};

use jasmin_words::token::MOST_BYTES;
use jasmin_words::{FaultKind, Token};
use sequence::Refusal;
use std::alloc::Global;

/// Why a line is refused.
pub(crate) type LineError = Refusal<FaultKind>;

/// An operand that is missing, superfluous or not of its form.
pub(crate) fn bad_operand() -> LineError
    ensures { result ≡ refusals.Fault faults.BadOperand }
{
    Refusal::Fault(FaultKind::BadOperand)
}

/// The fault of a word that isn't allowed in its place.
pub(crate) fn fault_at(token: &Token<'_>) -> FaultKind
    ensures { result ≡ misplaced (view token.now) }
{
    match token {
        Token::BadWord | Token::BadText(FaultKind::BadByte) => FaultKind::BadByte,
        _ => FaultKind::BadOperand,
    }
}

/// This fault, unless what is wanted holds.
pub(crate) fn wanted(yes: bool, kind: FaultKind) -> Result<(), LineError>
    ensures { Gives (λ x. x) result (wanted_or yes kind) }
{
    if yes {
        Ok(())
    } else {
        Err(Refusal::Fault(kind))
    }
}

/// A word's length, which is looked at where nothing lower is wrong with it.
pub(crate) fn within(word: &[u8]) -> Result<(), LineError>
    ensures { Gives (λ x. x) result (within_limit word.now) }
{
    if word.len() > MOST_BYTES {
        return Err(Refusal::Fault(FaultKind::LimitExceeded));
    }
    Ok(())
}

/// The next word, and what follows it.
pub(crate) fn next<'a, 't>(
    tokens: &'t [Token<'a>],
) -> Result<(&'a [u8], &'t [Token<'a>]), LineError>
    ensures { Gives (λ x. (x.0.now, views x.1.now)) result (next_word (views tokens.now)) }
{
    match tokens {
        [] => Err(bad_operand()),
        [token, rest @ ..] => Ok((first(FaultKind::BadOperand, token)?, rest)),
    }
}

/// The characters of a string, and what follows it.
pub(crate) fn string<'a, 't>(
    tokens: &'t [Token<'a>],
) -> Result<(&'t [u8], &'t [Token<'a>]), LineError>
    ensures { Gives (λ x. (x.0.now, views x.1.now)) result (string_from (views tokens.now)) }
{
    match tokens {
        [] => Err(bad_operand()),
        [first, rest @ ..] => match first {
            Token::Text(text) => Ok((text.as_slice(), rest)),
            Token::BadText(kind) => Err(Refusal::Fault(*kind)),
            _ => Err(Refusal::Fault(fault_at(first))),
        },
    }
}

/// Nothing more is on the line.
pub(crate) fn ended(tokens: &[Token<'_>]) -> Result<(), LineError>
    ensures { Gives (λ x. x) result (ended_at (views tokens.now)) }
{
    match tokens {
        [] => Ok(()),
        [other, ..] => Err(Refusal::Fault(fault_at(other))),
    }
}

/// A word where one is wanted; `other` is the fault where another thing comes, unless that has a fault of its own.
pub(crate) fn first<'a>(other: FaultKind, token: &Token<'a>) -> Result<&'a [u8], LineError>
    ensures { Gives (λ x. x.now) result (first_word other (view token.now)) }
{
    match token {
        Token::Word(word) => Ok(*word),
        Token::BadWord | Token::BadText(FaultKind::BadByte) => {
            Err(Refusal::Fault(FaultKind::BadByte))
        }
        _ => Err(Refusal::Fault(other)),
    }
}

/// What one word represents.
pub(crate) trait FromWord: Drop {
    /// The value, or the fault of the word's bytes.
    ghost read: { List ℕ → Result Self FaultKind };

    /// The value of a word.
    fn from_word(alloc: Global, word: &[u8]) -> Result<Self, LineError>
        ensures { Gives (λ x. x) result (read word.now) };
}

/// An operand that is one word: what it represents, and what follows it.
pub(crate) fn operand<'a, 't, T: FromWord>(
    alloc: Global,
    tokens: &'t [Token<'a>],
) -> Result<(T, &'t [Token<'a>]), LineError>
    ensures { Gives (λ x. (x.0, views x.1.now)) result (operand_of T.read (views tokens.now)) }
{
    let (word, rest) = next(tokens)?;
    let value = T::from_word(alloc, word)?;
    within(word).and(Ok((value, rest)))
}

/// The last operand of a line.
pub(crate) fn last_operand<T: FromWord>(alloc: Global, tokens: &[Token<'_>]) -> Result<T, LineError>
    ensures { Gives (λ x. x) result (last_operand_of T.read (views tokens.now)) }
{
    let (value, rest) = operand(alloc, tokens)?;
    ended(rest).and(Ok(value))
}
