//! A method that is not at its end.

ghost use Rattle.std.specs.Prelude.{◌≡◌, None, OnOk};
ghost use Rattle.sequence.specs.Gives.{Gives};
ghost use Rattle.jasmin_reader.specs.Places.{IsFaultOr};
ghost use Rattle.jasmin_words.specs.Lexing.{views};
ghost use Rattle.jasmin_text.specs.Grammar.{LabelRow, place_of};
ghost use Rattle.jasmin_reader.specs.Bodies.{setting_row, with_setting, label_at, listed, end_from, no_directive, labelled_at, plain_by, statement_at, limit_from, label_behind, last_labels_from, catch_from};
ghost use Rattle.jasmin_reader.specs.Listing.{instruction_at, behind_colon as behind_colon_of};

use crate::labels::Labels;
use crate::listing::{Listing, behind_colon};
use crate::place::{
    FromWord, LineError, bad_operand, ended, first, last_operand, next, operand, within,
};
use crate::values::{Limit, begins};
use descriptors::{ClassName, MethodType};
use jasmin_text::Access;
use jasmin_text::form::{Directive, directive_of};
use jasmin_words::name::{MemberName, is_label, same};
use jasmin_words::{FaultKind, Token};
use sequence::{Refusal, Sequence, Text};
use std::alloc::{AllocError, Global};

/// A row of the handler table by labels.
#[derive(Drop)]
pub(crate) struct Catch {
    /// The class that is caught, `None` for all.
    pub class: Option<ClassName>,
    /// The label of the range's beginning.
    pub from: Text,
    /// The label of the place after the range.
    pub to: Text,
    /// The label of the handler.
    pub handler: Text,
}

/// What the line of a directive sets in a method.
#[derive(Drop)]
pub(crate) enum Setting {
    /// The limit of the stack.
    Stack(u16),
    /// The limit of the locals.
    Locals(u16),
    /// A row of the handler table.
    Catch(Catch),
}

/// A method that is not at its end.
#[derive(Drop)]
pub(crate) struct Body {
    pub access: Access,
    pub name: MemberName,
    pub method_type: MethodType,
    pub stack: u16,
    pub locals: u16,
    pub labels: Labels,
    pub catches: Sequence<Catch>,
    pub listing: Listing,
}

/// What follows `.end method`.
#[tactic(auto, unfolding(crate::specs::Bodies::end_from))]
pub(crate) fn behind_end<'a, 't>(tokens: &'t [Token<'a>]) -> Result<&'t [Token<'a>], LineError>
    ensures { Gives (λ x. views x.now) result (end_from (views tokens.now)) }
{
    match tokens {
        [] => Err(bad_operand()),
        [token, rest @ ..] => {
            if !same(first(FaultKind::LeftOut, token)?, b"method") {
                return Err(Refusal::Fault(FaultKind::LeftOut));
            }
            Ok(rest)
        }
    }
}

/// The fault of a directive where none is allowed.
#[tactic(auto, unfolding(crate::specs::Bodies::no_directive))]
fn stray(directive: Directive, rest: &[Token<'_>]) -> LineError
    ensures { IsFaultOr result (no_directive directive (views rest.now)) }
{
    match directive {
        Directive::LeftOut => Refusal::Fault(FaultKind::LeftOut),
        Directive::End => match behind_end(rest) {
            Err(error) => error,
            Ok(_) => Refusal::Fault(FaultKind::Misplaced),
        },
        _ => Refusal::Fault(FaultKind::Misplaced),
    }
}

impl FromWord for Option<ClassName> {
    ghost use Rattle.jasmin_reader.specs.Bodies.{caught_in};

    ghost read = { caught_in };

    fn from_word(alloc: Global, word: &[u8]) -> Result<Option<ClassName>, LineError> {
        if same(word, b"all") {
            return Ok(None);
        }
        Ok(Some(ClassName::from_word(alloc, word)?))
    }
}

/// A label after this word.
fn label_after<'a, 't>(
    alloc: Global,
    keyword: &[u8],
    tokens: &'t [Token<'a>],
) -> Result<(Text, &'t [Token<'a>]), LineError>
    ensures { Gives (λ x. (x.0, views x.1.now)) result (label_behind keyword.now (views tokens.now)) }
{
    let (word, rest) = next(tokens)?;
    if !same(word, keyword) {
        return Err(bad_operand());
    }
    within(word)?;
    operand::<Text>(alloc, rest)
}

/// The labels of the place after a range and of its handler.
fn last_labels(alloc: Global, tokens: &[Token<'_>]) -> Result<(Text, Text), LineError>
    ensures { Gives (λ x. x) result (last_labels_from (views tokens.now)) }
{
    let (to, rest) = label_after(alloc, b"to", tokens)?;
    let (handler, rest) = label_after(alloc, b"using", rest)?;
    ended(rest).and(Ok((to, handler)))
}

/// The row of the handler table after `.catch`.
#[tactic(auto, unfolding(crate::specs::Bodies::catch_from))]
pub(crate) fn handler_row(alloc: Global, tokens: &[Token<'_>]) -> Result<Setting, LineError>
    ensures { Gives setting_row result (catch_from (views tokens.now)) }
{
    let (class, rest) = operand::<Option<ClassName>>(alloc, tokens)?;
    let (from, rest) = label_after(alloc, b"from", rest)?;
    let (to, handler) = last_labels(alloc, rest)?;
    Ok(Setting::Catch(Catch {
        class,
        from,
        to,
        handler,
    }))
}

/// The limit after `.limit`.
pub(crate) fn limit_behind(alloc: Global, tokens: &[Token<'_>]) -> Result<Setting, LineError>
    ensures { Gives setting_row result (limit_from (views tokens.now)) }
{
    let (word, rest) = next(tokens)?;
    let is_stack = same(word, b"stack");
    if !is_stack && !same(word, b"locals") {
        return Err(bad_operand());
    }
    let Limit(count) = last_operand(alloc, rest)?;
    Ok(if is_stack {
        Setting::Stack(count)
    } else {
        Setting::Locals(count)
    })
}

impl Body {
    /// The method with what a line sets.
    pub(crate) fn set(&mut self, setting: Setting) -> Result<(), AllocError>
        ensures { OnOk result (self.new ≡ with_setting self.old (setting_row setting)) }
    {
        match setting {
            Setting::Stack(count) => self.stack = count,
            Setting::Locals(count) => self.locals = count,
            Setting::Catch(row) => return self.catches.push(row),
        }
        Ok(())
    }

    /// A label that is nowhere else.
    #[tactic(auto, unfolding(crate::specs::Bodies::label_at))]
    fn may_label(&self, word: &[u8]) -> Result<(), LineError>
        ensures new { OnOk result (place_of self.now.labels word.now ≡ None) }
        ensures gives { Gives (λ _. LabelRow word.now) result (label_at self.now word.now) }
    {
        if !is_label(word) {
            return Err(Refusal::Fault(FaultKind::UnknownInstruction));
        }
        if self.labels.place(word).is_some() {
            return Err(Refusal::Fault(FaultKind::RepeatedLabel));
        }
        within(word)
    }

    /// What follows a label on its line.
    #[tactic(auto, unfolding(crate::specs::Bodies::labelled_at))]
    fn labelled(&mut self, alloc: Global, tokens: &[Token<'_>]) -> Result<(), LineError>
        ensures { Gives (λ _. self.new) result (labelled_at self.old (views tokens.now)) }
    {
        match tokens {
            [] => Ok(()),
            [token, rest @ ..] => {
                let word = first(FaultKind::UnknownInstruction, token)?;
                match directive_of(word) {
                    Some(directive) => Err(stray(directive, rest)),
                    None => {
                        if begins(b'.', word) {
                            return Err(Refusal::Fault(FaultKind::UnknownDirective));
                        }
                        self.instruction(alloc, word, rest)
                    }
                }
            }
        }
    }

    /// An instruction, outside of a switch.
    fn instruction(
        &mut self,
        alloc: Global,
        word: &[u8],
        rest: &[Token<'_>],
    ) -> Result<(), LineError>
        ensures { Gives (λ _. self.new) result (listed self.old (instruction_at self.old.listing.room word.now (views rest.now))) }
    {
        let said = self.listing.instruction(alloc, word, rest)?;
        self.listing.add(alloc, said)?;
        Ok(())
    }

    /// A line outside of a switch that begins with this word.
    fn plain(&mut self, alloc: Global, word: &[u8], rest: &[Token<'_>]) -> Result<(), LineError>
        ensures { Gives (λ _. self.new) result (plain_by self.old word.now (views rest.now) (behind_colon_of (views rest.now))) }
    {
        match behind_colon(rest) {
            Some(after) => {
                self.may_label(word)?;
                let place = self.listing.place();
                self.labels.add(alloc, word, place)?;
                self.labelled(alloc, after)
            }
            None => self.instruction(alloc, word, rest),
        }
    }

    /// A line that begins with this word, which is no directive.
    #[tactic(auto, unfolding(crate::specs::Bodies::statement_at))]
    pub(crate) fn statement(
        &mut self,
        alloc: Global,
        word: &[u8],
        rest: &[Token<'_>],
    ) -> Result<(), LineError>
        ensures { Gives (λ _. self.new) result (statement_at self.old word.now (views rest.now)) }
    {
        match self.listing.switch() {
            None => self.plain(alloc, word, rest),
            Some(switch) => {
                let said = self.listing.switch_line(alloc, switch, word, rest)?;
                self.listing.add(alloc, said)?;
                Ok(())
            }
        }
    }
}
