//! What lines say.

ghost use Rattle.sequence.specs.Gives.{Gives};
ghost use Rattle.jasmin_words.specs.Lexing.{views};
ghost use Rattle.jasmin_reader.specs.Reading.{said_in, said_row};

use crate::body::{Setting, handler_row, limit_behind};
use crate::head::{HeadWords, Place, class_head};
use crate::member::{MethodHead, field, method_head};
use crate::place::{LineError, last_operand};
use descriptors::ClassName;
use jasmin_text::form::Directive;
use jasmin_text::{Field, Instruction};
use jasmin_words::{FaultKind, Token};
use sequence::{Refusal, Text};
use std::alloc::Global;

/// What the line of a directive says.
#[derive(Drop)]
pub(crate) enum Said {
    /// The access words and the name of the class.
    Class((HeadWords, ClassName)),
    /// The superclass.
    Super(ClassName),
    /// A direct superinterface.
    Implements(ClassName),
    /// A field.
    Field(Field),
    /// A method, whose lines follow.
    Method(MethodHead),
    /// What is set in a method.
    Setting(Setting),
}

/// What the line of an instruction says, or a line of a switch.
#[derive(Drop)]
pub(crate) enum Listed {
    /// An instruction.
    Instruction(Instruction<Text>),
    /// The head of a `tableswitch`: its first key, and its last one where it is given.
    Table(i32, Option<i32>),
    /// The head of a `lookupswitch`.
    Lookup,
    /// A label of a `tableswitch`.
    Target(Text),
    /// A key of a `lookupswitch` and its label.
    Case(i32, Text),
    /// The label for all other keys, which ends a switch.
    Default(Text),
}

/// What follows a directive. Every directive but these is left out.
#[tactic(auto, unfolding(crate::specs::Reading::said_in))]
pub(crate) fn said_behind(
    alloc: Global,
    directive: Directive,
    tokens: &[Token<'_>],
) -> Result<Said, LineError>
    ensures { Gives said_row result (said_in directive (views tokens.now)) }
{
    match directive {
        Directive::Class => class_head(alloc, Place::Class, tokens).map(Said::Class),
        Directive::Interface => class_head(alloc, Place::Interface, tokens).map(Said::Class),
        Directive::Super => last_operand(alloc, tokens).map(Said::Super),
        Directive::Implements => last_operand(alloc, tokens).map(Said::Implements),
        Directive::Field => field(alloc, tokens).map(Said::Field),
        Directive::Method => method_head(alloc, tokens).map(Said::Method),
        Directive::Limit => limit_behind(alloc, tokens).map(Said::Setting),
        Directive::Catch => handler_row(alloc, tokens).map(Said::Setting),
        _ => Err(Refusal::Fault(FaultKind::LeftOut)),
    }
}
