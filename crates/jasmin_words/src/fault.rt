//! What can be wrong with a Jasmin file.

ghost use Rattle.std.specs.Prelude.{◌≡◌};
ghost use Rattle.jasmin_words.specs.Fault.{number_of, message_of};

use std::fmt;
use thiserror::Error;

/// What is wrong with a Jasmin file. Of several faults at one place the lowest kind is reported, in the order of
/// this list. A kind prints as its code, `J1` to `J14`, and a few words.
#[derive(Clone, Copy, Debug, Error)]
pub enum FaultKind {
    /// `J1`: a byte above 127 or a control byte outside comment and string, or a string that isn't UTF-8.
    BadByte,
    /// `J2`: a word that begins with a dot and is no directive.
    UnknownDirective,
    /// `J3`: a word in an instruction's place that is none.
    UnknownInstruction,
    /// `J4`: a directive, an instruction, an access word or a type that is left out (`long`, `float`,
    /// `double`, `jsr`, `native` and others).
    LeftOut,
    /// `J5`: an operand that is missing, superfluous or not of its form, where no other kind names it.
    BadOperand,
    /// `J6`: a label that its method doesn't have, met at `.end method`.
    UnknownLabel,
    /// `J7`: a label that its method has already.
    RepeatedLabel,
    /// `J8`: a string without its closing quote, or a method without its end, met at the last line.
    Unfinished,
    /// `J9`: a directive where it isn't allowed, an instruction outside a method, a second `.class` or
    /// `.super`, no `.class` at all (met at line 1).
    Misplaced,
    /// `J10`: a descriptor that is none.
    BadDescriptor,
    /// `J11`: a word, a string, a number or a count beyond its limit.
    LimitExceeded,
    /// `J12`: a `<clinit>` that isn't static, isn't void or has parameters.
    BadInitializer,
    /// `J13`: a method without a body that isn't abstract, or the reverse, met at `.end method`.
    BadBody,
    /// `J14`: no memory for what was read. Its line is open.
    NoMemory,
}

impl FaultKind {
    /// The number of the code, from 1 to 14.
    pub fn number(self) -> u8
        ensures { result ≡ number_of self }
    {
        match self {
            FaultKind::BadByte => 1,
            FaultKind::UnknownDirective => 2,
            FaultKind::UnknownInstruction => 3,
            FaultKind::LeftOut => 4,
            FaultKind::BadOperand => 5,
            FaultKind::UnknownLabel => 6,
            FaultKind::RepeatedLabel => 7,
            FaultKind::Unfinished => 8,
            FaultKind::Misplaced => 9,
            FaultKind::BadDescriptor => 10,
            FaultKind::LimitExceeded => 11,
            FaultKind::BadInitializer => 12,
            FaultKind::BadBody => 13,
            FaultKind::NoMemory => 14,
        }
    }

    /// What the kind prints as.
    fn message(self) -> &'static str
        ensures { result.now ≡ message_of self }
    {
        match self {
            FaultKind::BadByte => "J1: bad byte",
            FaultKind::UnknownDirective => "J2: unknown directive",
            FaultKind::UnknownInstruction => "J3: unknown instruction",
            FaultKind::LeftOut => "J4: left out of this machine",
            FaultKind::BadOperand => "J5: bad operand",
            FaultKind::UnknownLabel => "J6: unknown label",
            FaultKind::RepeatedLabel => "J7: repeated label",
            FaultKind::Unfinished => "J8: unfinished string or method",
            FaultKind::Misplaced => "J9: misplaced directive or instruction",
            FaultKind::BadDescriptor => "J10: bad descriptor",
            FaultKind::LimitExceeded => "J11: limit exceeded",
            FaultKind::BadInitializer => "J12: bad class initializer",
            FaultKind::BadBody => "J13: body missing or not allowed",
            FaultKind::NoMemory => "J14: out of memory",
        }
    }
}

impl fmt::Display for FaultKind {
    ghost use Rattle.std.specs.Prelude.{Some};

    ghost output = { λ kind. Some (message_of kind) };

    fn fmt<W: fmt::Write>(&self, f: &mut fmt::Formatter<W>) -> fmt::Result {
        f.write_str(self.message())
    }
}
