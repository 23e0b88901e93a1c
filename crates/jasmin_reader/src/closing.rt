//! What is looked at where a method ends.

ghost use Rattle.std.specs.Prelude.{◌≡◌, Result, List, ℕ};
ghost use Rattle.jasmin_words.specs.declared.fault.FaultKind.{FaultKind};
ghost use Rattle.sequence.specs.Gives.{Gives};
ghost use Rattle.jasmin_text.specs.declared.instruction.Instruction.TheVariants as instructions;
ghost use Rattle.jasmin_reader.specs.Bodies.{placed_label, placed, each, handler_of, placed_catch, method_with, closed};

use crate::body::{Body, Catch};
use crate::labels::Labels;
use crate::place::LineError;
use jasmin_text::{Boxed, Code, Handler, Instruction, Jump, Method};
use jasmin_words::FaultKind;
use sequence::{Refusal, Sequence, Text};
use std::alloc::Global;
use std::mem::replace;

/// The place of a label.
fn place(labels: &Labels, label: &Text) -> Result<u16, LineError>
    ensures { Gives (λ n. n) result (placed_label labels.now label.now) }
{
    match labels.place(label.as_slice()) {
        Some(place) => Ok(place),
        None => Err(Refusal::Fault(FaultKind::UnknownLabel)),
    }
}

/// What has labels and gets places for them where its method ends.
trait HasLabels: Drop {
    /// The same with places.
    type Placed: Drop;

    /// It with the places of its labels, or the fault of a label that is nowhere.
    ghost placed: { List (List ℕ × ℕ) → Self → Result Self.Placed FaultKind };

    /// The same with places for its labels.
    fn with_places(self, alloc: Global, labels: &Labels) -> Result<Self::Placed, LineError>
        ensures { Gives (λ x. x) result (placed labels.now self) };
}

/// A label.
impl HasLabels for Text {
    type Placed = u16;

    ghost placed = { placed_label };

    fn with_places(self, _alloc: Global, labels: &Labels) -> Result<u16, LineError> {
        place(labels, &self)
    }
}

/// A key and its label.
impl HasLabels for (i32, Text) {
    ghost use Rattle.jasmin_reader.specs.Bodies.{placed_case};

    type Placed = (i32, u16);

    ghost placed = { placed_case };

    fn with_places(self, _alloc: Global, labels: &Labels) -> Result<(i32, u16), LineError> {
        Ok((self.0, place(labels, &self.1)?))
    }
}

/// Each with places for its labels.
#[tactic(auto, unfolding(crate::specs::Bodies::each), using(crate::proofs::Gathered::gathering))]
fn all_with_places<T: HasLabels>(
    alloc: Global,
    labels: &Labels,
    items: Vec<T>,
) -> Result<Sequence<T::Placed>, LineError>
    ensures { Gives (λ x. x) result (each (T.placed labels.now) items.items) }
{
    let mut all = Sequence::from_vec(Vec::with_capacity(alloc, items.len())?);
    for item in items {
        all.push(item.with_places(alloc, labels)?)?;
    }
    Ok(all)
}

/// Each with places for its labels, in memory of their own.
fn boxed_with_places<T: HasLabels>(
    alloc: Global,
    labels: &Labels,
    items: Boxed<Sequence<T>>,
) -> Result<Boxed<Sequence<T::Placed>>, LineError>
    ensures { Gives (λ x. x) result (each (T.placed labels.now) items) }
{
    let placed = all_with_places(alloc, labels, items.into_value().into_vec())?;
    Ok(Boxed::new(alloc, placed)?)
}

/// A jump with the place of its label.
#[tactic(auto, unfolding(crate::specs::Bodies::placed))]
fn jump_with_place(labels: &Labels, jump: Jump, label: Text) -> Result<Instruction<u16>, LineError>
    ensures { Gives (λ x. x) result (placed labels.now (instructions.Jump jump label)) }
{
    Ok(Instruction::Jump(jump, place(labels, &label)?))
}

/// A `tableswitch` with places for its labels.
#[tactic(auto, unfolding(crate::specs::Bodies::placed))]
fn table_with_places(
    alloc: Global,
    labels: &Labels,
    low: i32,
    names: Boxed<Sequence<Text>>,
    label: Text,
) -> Result<Instruction<u16>, LineError>
    ensures { Gives (λ x. x) result (placed labels.now (instructions.TableSwitch low names label)) }
{
    let targets = boxed_with_places(alloc, labels, names)?;
    Ok(Instruction::TableSwitch(low, targets, place(labels, &label)?))
}

/// A `lookupswitch` with places for its labels.
#[tactic(auto, unfolding(crate::specs::Bodies::placed))]
fn lookup_with_places(
    alloc: Global,
    labels: &Labels,
    cases: Boxed<Sequence<(i32, Text)>>,
    label: Text,
) -> Result<Instruction<u16>, LineError>
    ensures { Gives (λ x. x) result (placed labels.now (instructions.LookupSwitch cases label)) }
{
    let cases = boxed_with_places(alloc, labels, cases)?;
    Ok(Instruction::LookupSwitch(cases, place(labels, &label)?))
}

impl HasLabels for Instruction<Text> {
    type Placed = Instruction<u16>;

    ghost placed = { placed };

    #[tactic(auto, unfolding(crate::specs::Bodies::placed))]
    fn with_places(self, alloc: Global, labels: &Labels) -> Result<Instruction<u16>, LineError> {
        match self {
            Instruction::Plain(plain) => Ok(Instruction::Plain(plain)),
            Instruction::Constant(constant) => Ok(Instruction::Constant(constant)),
            Instruction::Local(local, number) => Ok(Instruction::Local(local, number)),
            Instruction::Increment(number, by) => Ok(Instruction::Increment(number, by)),
            Instruction::Jump(jump, label) => jump_with_place(labels, jump, label),
            Instruction::TableSwitch(low, names, label) => {
                table_with_places(alloc, labels, low, names, label)
            }
            Instruction::LookupSwitch(cases, label) => {
                lookup_with_places(alloc, labels, cases, label)
            }
            Instruction::Field(access, field) => Ok(Instruction::Field(access, field)),
            Instruction::Call(call, method) => Ok(Instruction::Call(call, method)),
            Instruction::CallInterface(method) => Ok(Instruction::CallInterface(method)),
            Instruction::New(name) => Ok(Instruction::New(name)),
            Instruction::NewArray(base) => Ok(Instruction::NewArray(base)),
            Instruction::TypeUse(use_of, class) => Ok(Instruction::TypeUse(use_of, class)),
        }
    }
}

/// The places of the beginning, the end and the handler of a row of the handler table.
#[tactic(auto, unfolding(crate::specs::Bodies::placed_catch))]
fn row_places(labels: &Labels, row: &Catch) -> Result<(u16, u16, u16), LineError>
    ensures { Gives (λ x. handler_of row.now.class x.0 x.1 x.2) result (placed_catch labels.now row.now) }
{
    let from = place(labels, &row.from)?;
    let to = place(labels, &row.to)?;
    let handler = place(labels, &row.handler)?;
    Ok((from, to, handler))
}

impl HasLabels for Catch {
    type Placed = Handler;

    ghost placed = { placed_catch };

    fn with_places(self, _alloc: Global, labels: &Labels) -> Result<Handler, LineError> {
        let (from, to, handler) = row_places(labels, &self)?;
        Ok(Handler {
            from,
            to,
            handler,
            class: self.class,
        })
    }
}

impl Body {
    /// The code of the method, at its end, whose instructions and rows are taken out.
    #[tactic(auto, unfolding(crate::specs::Bodies::closed))]
    fn code(&mut self, alloc: Global) -> Result<Option<Code>, LineError>
        ensures access { self.new.access ≡ self.old.access }
        ensures name { self.new.name ≡ self.old.name }
        ensures types { self.new.method_type ≡ self.old.method_type }
        ensures gives { Gives (λ code. method_with self.old code) result (closed self.old) }
    {
        let has_instructions = self.listing.place() != 0;
        let has_other = self.labels.len() != 0 || !self.catches.is_empty();
        let instructions = self.listing.take_instructions(alloc);
        let instructions = all_with_places(alloc, &self.labels, instructions)?;
        let catches = replace(&mut self.catches, Sequence::new(alloc));
        let handlers = all_with_places(alloc, &self.labels, catches.into_vec())?;
        if !self.access.is_abstract && has_instructions {
            Ok(Some(Code {
                stack: self.stack,
                locals: self.locals,
                handlers,
                instructions,
            }))
        } else if self.access.is_abstract && !has_instructions && !has_other {
            Ok(None)
        } else {
            Err(Refusal::Fault(FaultKind::BadBody))
        }
    }

    /// The method, at its end: each label that is named is there, and there is a body unless the method is abstract.
    pub(crate) fn close(self, alloc: Global) -> Result<Method, LineError>
        ensures { Gives (λ x. x) result (closed self) }
    {
        let mut body = self;
        let code = body.code(alloc);
        let Body {
            access,
            name,
            method_type,
            labels,
            catches,
            listing,
            ..
        } = body;
        drop((labels, catches, listing));
        Ok(Method {
            access,
            name,
            method_type,
            code: code?,
        })
    }
}
