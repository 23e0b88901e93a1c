//! The instructions of a method, as far as they are read.

ghost use Rattle.std.specs.Prelude.{◌≡◌, length, is_some, Ok, OnOk};
ghost use Rattle.sequence.specs.Gives.{Gives, ◌>>=◌ as followed_by};
ghost use Rattle.jasmin_words.specs.Lexing.{views};
ghost use Rattle.std.specs.Option.{option_map};
ghost use Rattle.jasmin_reader.specs.Operands.{label_in, last_operand as last_operand_of};
ghost use Rattle.jasmin_reader.specs.Listing.{empty_listing, with_switch, with_listed, listed_row, has_room, unknown_word as unknown_word_of, instruction_at, behind_colon as behind_colon_of, colon_from, takes_label as takes_label_of, is_full, key_in, target_at, table_end as table_end_of, table_by, case_at, lookup_end as lookup_end_of, switch_at};
ghost use Rattle.jasmin_text.specs.Grammar.{InstructionRow, TargetRow, CaseRow, DefaultRow};

use crate::operands::{begin, count_up_to};
use crate::place::{
    FromWord, LineError, bad_operand, ended, fault_at, last_operand, wanted, within,
};
use crate::said::Listed;
use crate::switch::{Cases, Switch, Table};
use crate::values::integer;
use jasmin_text::Instruction;
use jasmin_text::form::{form_of, left_out};
use jasmin_words::name::{is_label, same};
use jasmin_words::{FaultKind, Token};
use sequence::{Refusal, Sequence, Text};
use std::alloc::{AllocError, Global};
use std::marker::Model;
use std::mem::replace;

/// How many instructions a method may have. Each label and key of a switch counts as one more.
const MOST_INSTRUCTIONS: u16 = 16_384;

/// The instructions of a method so far, with labels as targets.
#[derive(Drop)]
pub(crate) struct Listing {
    instructions: Sequence<Instruction<Text>>,
    switch: Option<Switch>,
    room: u16,
}

impl Model for Listing {
    ghost use Rattle.jasmin_reader.specs.Listing.{Listing, IsWithinRoom};

    ghost Value = { Listing };

    ghost view = { λ l. record { instructions = l.instructions; switch = l.switch; room = l.room } };

    ghost invariant = { λ l. IsWithinRoom (record { instructions = l.instructions; switch = l.switch; room = l.room }) };
}

/// The fault of a word that begins no instruction.
pub(crate) fn unknown_word(word: &[u8]) -> FaultKind
    ensures { result ≡ unknown_word_of word.now }
{
    if left_out(word) {
        FaultKind::LeftOut
    } else {
        FaultKind::UnknownInstruction
    }
}

/// What follows a colon.
pub(crate) fn behind_colon<'a, 't>(tokens: &'t [Token<'a>]) -> Option<&'t [Token<'a>]>
    ensures { option_map (λ r. views r.now) result ≡ behind_colon_of (views tokens.now) }
{
    match tokens {
        [] => None,
        [first, rest @ ..] => match first {
            Token::Colon => Some(rest),
            _ => None,
        },
    }
}

/// A colon where one is wanted, and what follows it.
fn colon<'a, 't>(tokens: &'t [Token<'a>]) -> Result<&'t [Token<'a>], LineError>
    ensures { Gives (λ x. views x.now) result (colon_from (views tokens.now)) }
{
    match tokens {
        [] => Err(bad_operand()),
        [first, rest @ ..] => match first {
            Token::Colon => Ok(rest),
            _ => Err(Refusal::Fault(fault_at(first))),
        },
    }
}

/// Whether one label more may come in a `tableswitch`.
fn takes_label(table: &Table) -> Result<(), LineError>
    ensures { Gives (λ x. x) result (takes_label_of table.now.low (length table.now.labels) table.now.high) }
{
    match table.high {
        None => Ok(()),
        Some(high) => {
            let count = count_up_to(table.low, high)?;
            wanted((table.labels.len() as u64) < count, FaultKind::BadOperand)
        }
    }
}

/// Whether a `tableswitch` has all its labels.
fn full(table: &Table) -> Result<(), LineError>
    ensures { Gives (λ x. x) result (is_full table.now.low (length table.now.labels) table.now.high) }
{
    match table.high {
        None => Ok(()),
        Some(high) => {
            let count = count_up_to(table.low, high)?;
            wanted(table.labels.len() as u64 == count, FaultKind::BadOperand)
        }
    }
}

/// A key that a `lookupswitch` doesn't have yet.
fn new_key(cases: &Cases, word: &[u8]) -> Result<i32, LineError>
    ensures { Gives (λ x. x) result (key_in cases.now word.now) }
{
    let key = integer(word)?;
    if cases.has(key) {
        return Err(bad_operand());
    }
    Ok(key)
}

/// The last line of a `tableswitch`, after `default` and its colon.
#[tactic(auto, unfolding(crate::specs::Listing::table_end))]
fn table_end(alloc: Global, table: &Table, rest: &[Token<'_>]) -> Result<Listed, LineError>
    ensures { Gives listed_row result (table_end_of table.now (views rest.now)) }
{
    full(table)?;
    last_operand::<Text>(alloc, rest).map(Listed::Default)
}

/// The last line of a `lookupswitch`, after `default`.
#[tactic(auto, unfolding(crate::specs::Listing::lookup_end))]
fn lookup_end(alloc: Global, rest: &[Token<'_>]) -> Result<Listed, LineError>
    ensures { Gives listed_row result (lookup_end_of (views rest.now)) }
{
    let after = colon(rest)?;
    last_operand::<Text>(alloc, after).map(Listed::Default)
}

/// A key of a `lookupswitch` with the label after its colon.
fn key_label(alloc: Global, key: i32, rest: &[Token<'_>]) -> Result<Listed, LineError>
    ensures { Gives listed_row result (followed_by (colon_from (views rest.now))
        (λ after. followed_by (last_operand_of label_in after) (λ label. Ok (CaseRow key label)))) }
{
    let after = colon(rest)?;
    let label = last_operand::<Text>(alloc, after)?;
    Ok(Listed::Case(key, label))
}

impl Listing {
    /// No instruction yet.
    pub(crate) fn new(alloc: Global) -> Self
        ensures { result ≡ empty_listing }
    {
        Listing {
            instructions: Sequence::new(alloc),
            switch: None,
            room: MOST_INSTRUCTIONS,
        }
    }

    /// The instructions so far, which are taken out. Takes no memory.
    pub(crate) fn take_instructions(&mut self, alloc: Global) -> Vec<Instruction<Text>>
        ensures { result.items ≡ self.old.instructions }
    {
        replace(&mut self.instructions, Sequence::new(alloc)).into_vec()
    }

    /// The place of the next instruction: how many there are.
    pub(crate) fn place(&self) -> u16
        ensures { result ≡ length self.now.instructions }
    {
        self.instructions.len() as u16
    }

    /// The switch that is not at its end.
    pub(crate) fn switch(&self) -> Option<&Switch>
        ensures { option_map (λ s. s.now) result ≡ self.now.switch }
    {
        self.switch.as_ref()
    }

    /// Whether the lines of a switch are still to come.
    pub(crate) fn is_in_switch(&self) -> bool
        ensures { result ≡ is_some self.now.switch }
    {
        self.switch.is_some()
    }

    fn room(&self) -> Result<(), LineError>
        ensures { Gives (λ x. x) result (has_room self.now.room) }
    {
        wanted(self.room != 0, FaultKind::LimitExceeded)
    }

    /// What a line outside of a switch says that begins with this word.
    #[tactic(auto, unfolding(crate::specs::Listing::instruction_at))]
    pub(crate) fn instruction(
        &self,
        alloc: Global,
        word: &[u8],
        rest: &[Token<'_>],
    ) -> Result<Listed, LineError>
        ensures { Gives listed_row result (instruction_at self.now.room word.now (views rest.now)) }
    {
        let Some(form) = form_of(word) else {
            return Err(Refusal::Fault(unknown_word(word)));
        };
        within(word)?;
        self.room()?;
        begin(alloc, form, rest)
    }

    /// A label of a `tableswitch`.
    #[tactic(auto, unfolding(crate::specs::Listing::target_at))]
    fn target(
        &self,
        alloc: Global,
        table: &Table,
        word: &[u8],
        rest: &[Token<'_>],
    ) -> Result<Listed, LineError>
        ensures { Gives listed_row result (target_at self.now.room table.now word.now (views rest.now)) }
    {
        wanted(is_label(word), FaultKind::BadOperand)?;
        takes_label(table)?;
        within(word)?;
        self.room()?;
        ended(rest)?;
        Ok(Listed::Target(Text::copied(alloc, word)?))
    }

    /// A line of a `tableswitch`.
    fn table_line(
        &self,
        alloc: Global,
        table: &Table,
        word: &[u8],
        rest: &[Token<'_>],
    ) -> Result<Listed, LineError>
        ensures { Gives listed_row result (table_by self.now.room table.now word.now (views rest.now) (behind_colon_of (views rest.now))) }
    {
        match behind_colon(rest) {
            Some(after) if same(word, b"default") => table_end(alloc, table, after),
            _ => self.target(alloc, table, word, rest),
        }
    }

    /// A new key of a `lookupswitch` and its label.
    #[tactic(auto, unfolding(crate::specs::Listing::case_at))]
    fn case(
        &self,
        alloc: Global,
        cases: &Cases,
        word: &[u8],
        rest: &[Token<'_>],
    ) -> Result<Listed, LineError>
        ensures { Gives listed_row result (case_at self.now.room cases.now word.now (views rest.now)) }
    {
        let key = new_key(cases, word)?;
        within(word)?;
        self.room()?;
        key_label(alloc, key, rest)
    }

    /// What a line in a switch says that begins with this word.
    #[tactic(auto, unfolding(crate::specs::Listing::switch_at))]
    pub(crate) fn switch_line(
        &self,
        alloc: Global,
        switch: &Switch,
        word: &[u8],
        rest: &[Token<'_>],
    ) -> Result<Listed, LineError>
        ensures { Gives listed_row result (switch_at self.now.room switch.now word.now (views rest.now)) }
    {
        match switch {
            Switch::Table(table) => self.table_line(alloc, table, word, rest),
            Switch::Lookup(_) if same(word, b"default") => lookup_end(alloc, rest),
            Switch::Lookup(cases) => self.case(alloc, cases, word, rest),
        }
    }

    /// An instruction more, where there is room for it.
    fn push(&mut self, instruction: Instruction<Text>) -> Result<(), AllocError>
        ensures { OnOk result (self.new ≡ with_listed self.old (InstructionRow instruction)) }
    {
        if self.room == 0 {
            return Ok(());
        }
        self.room -= 1;
        self.instructions.push(instruction)
    }

    /// The lines of a switch follow, where there is room for it.
    fn open(&mut self, switch: Switch)
        ensures { self.new ≡ with_switch self.old switch }
    {
        if self.room != 0 {
            self.switch = Some(switch);
            self.room -= 1;
        }
    }

    /// A label more of the `tableswitch`.
    fn add_target(&mut self, label: Text) -> Result<(), AllocError>
        ensures { OnOk result (self.new ≡ with_listed self.old (TargetRow label)) }
    {
        if let Some(Switch::Table(table)) = &mut self.switch {
            table.labels.push(label)?;
            self.room = self.room.saturating_sub(1);
        }
        Ok(())
    }

    /// A key more of the `lookupswitch`.
    fn add_case(&mut self, key: i32, label: Text) -> Result<(), AllocError>
        ensures { OnOk result (self.new ≡ with_listed self.old (CaseRow key label)) }
    {
        if let Some(Switch::Lookup(cases)) = &mut self.switch {
            cases.add(key, label)?;
            self.room = self.room.saturating_sub(1);
        }
        Ok(())
    }

    /// The end of the switch.
    fn close(&mut self, alloc: Global, label: Text) -> Result<(), AllocError>
        ensures { OnOk result (self.new ≡ with_listed self.old (DefaultRow label)) }
    {
        match self.switch.take() {
            None => Ok(()),
            Some(switch) => {
                let instruction = switch.ended(alloc, label)?;
                self.instructions.push(instruction)
            }
        }
    }

    /// The instructions with what a line says.
    pub(crate) fn add(&mut self, alloc: Global, said: Listed) -> Result<(), AllocError>
        ensures { OnOk result (self.new ≡ with_listed self.old (listed_row said)) }
    {
        match said {
            Listed::Instruction(instruction) => self.push(instruction),
            Listed::Table(low, high) => {
                self.open(Switch::Table(Table {
                    low,
                    high,
                    labels: Sequence::new(alloc),
                }));
                Ok(())
            }
            Listed::Lookup => {
                self.open(Switch::Lookup(Cases::new(alloc)));
                Ok(())
            }
            Listed::Target(label) => self.add_target(label),
            Listed::Case(key, label) => self.add_case(key, label),
            Listed::Default(label) => self.close(alloc, label),
        }
    }
}
