//! The operands of instructions.
#![tactic(auto, unfolding(crate::specs::Operands::begun_at))]

ghost use Rattle.std.specs.Prelude.{List, Ok};
ghost use Rattle.sequence.specs.Gives.{Gives, ◌>>=◌ as followed_by};
ghost use Rattle.jasmin_words.specs.Lexing.{Item, views};
ghost use Rattle.jasmin_text.specs.declared.class_text.Constant.{Constant as ConstantValue};
ghost use Rattle.jasmin_text.specs.declared.class_text.Constant.TheVariants as constants;
ghost use Rattle.jasmin_text.specs.declared.form.Form.TheVariants as forms;
ghost use Rattle.jasmin_reader.specs.Places.{operand as operand_of};
ghost use Rattle.jasmin_reader.specs.Operands.{integer_in, constant_from, count_at, labels_between, high_in, high_at, alone as alone_of, begun_at};
ghost use Rattle.jasmin_reader.specs.Listing.{listed_row};

use crate::place::{LineError, bad_operand, ended, last_operand, next, operand, within};
use crate::said::Listed;
use crate::values::integer;
use descriptors::{BaseType, ClassName, FieldType};
use jasmin_text::form::Form;
use jasmin_text::{
    Boxed, Call, Constant, FieldAccess, FieldReference, Instruction, Jump, Local, MethodReference,
    ReferenceType, TypeUse,
};
use jasmin_words::Token;
use jasmin_words::name::MemberName;
use sequence::{Refusal, Text};
use std::alloc::Global;

/// An int, and what follows it.
pub(crate) fn number<'a, 't>(
    alloc: Global,
    tokens: &'t [Token<'a>],
) -> Result<(Constant, &'t [Token<'a>]), LineError>
    ensures { Gives (λ x. (x.0, views x.1.now)) result
        (followed_by {B = ConstantValue × List Item} (operand_of integer_in (views tokens.now)) (λ n. Ok (constants.Int n.0, n.1))) }
{
    let (number, rest) = operand::<i32>(alloc, tokens)?;
    Ok((Constant::Int(number), rest))
}

/// An int or a string.
fn constant<'a, 't>(
    alloc: Global,
    tokens: &'t [Token<'a>],
) -> Result<(Constant, &'t [Token<'a>]), LineError>
    ensures { Gives (λ x. (x.0, views x.1.now)) result (constant_from (views tokens.now)) }
{
    match tokens {
        [] => Err(bad_operand()),
        [first, rest @ ..] => match first {
            Token::Text(text) => Ok((Constant::Text(Boxed::new(alloc, text.clone()?)?), rest)),
            Token::BadText(kind) => Err(Refusal::Fault(*kind)),
            _ => number(alloc, tokens),
        },
    }
}

/// The optional count of `invokeinterface`, which has no effect.
fn count(alloc: Global, tokens: &[Token<'_>]) -> Result<(), LineError>
    ensures { Gives (λ x. x) result (count_at (views tokens.now)) }
{
    if tokens.is_empty() {
        return Ok(());
    }
    last_operand::<u8>(alloc, tokens).and(Ok(()))
}

/// How many labels there are for the keys from the first to the last; none where the last is just below the first.
pub(crate) fn count_up_to(low: i32, high: i32) -> Result<u64, LineError>
    ensures { Gives (λ n. n) result (labels_between low high) }
{
    let count = high as i64 + 1 - low as i64;
    match u64::try_from(count) {
        Ok(count) => Ok(count),
        Err(_) => Err(bad_operand()),
    }
}

/// The last key of a `tableswitch` that begins with the key `low`.
#[tactic(auto, unfolding(crate::specs::Operands::high_in))]
fn last_key(low: i32, word: &[u8]) -> Result<i32, LineError>
    ensures { Gives (λ n. n) result (high_in low word.now) }
{
    let high = integer(word)?;
    count_up_to(low, high)?;
    Ok(high)
}

/// The last key of a `tableswitch`, where it is given.
fn high(low: i32, tokens: &[Token<'_>]) -> Result<Option<i32>, LineError>
    ensures { Gives (λ n. n) result (high_at low (views tokens.now)) }
{
    if tokens.is_empty() {
        return Ok(None);
    }
    let (word, rest) = next(tokens)?;
    let high = last_key(low, word)?;
    within(word)?;
    ended(rest).and(Ok(Some(high)))
}

/// What the line of a word without operands says.
fn alone(said: Listed, tokens: &[Token<'_>]) -> Result<Listed, LineError>
    ensures { Gives listed_row result (alone_of (listed_row said) (views tokens.now)) }
{
    ended(tokens).and(Ok(said))
}

/// What a line of `bipush` says.
fn byte(alloc: Global, tokens: &[Token<'_>]) -> Result<Listed, LineError>
    ensures { Gives listed_row result (begun_at forms.Byte (views tokens.now)) }
{
    match last_operand::<i8>(alloc, tokens) {
        Ok(number) => Ok(Listed::Instruction(Instruction::Constant(Constant::Int(number as i32)))),
        Err(error) => Err(error),
    }
}

/// What a line of `sipush` says.
fn short(alloc: Global, tokens: &[Token<'_>]) -> Result<Listed, LineError>
    ensures { Gives listed_row result (begun_at forms.Short (views tokens.now)) }
{
    match last_operand::<i16>(alloc, tokens) {
        Ok(number) => Ok(Listed::Instruction(Instruction::Constant(Constant::Int(number as i32)))),
        Err(error) => Err(error),
    }
}

/// What the line of an instruction with an int or a string says.
fn pushed(alloc: Global, tokens: &[Token<'_>]) -> Result<Listed, LineError>
    ensures { Gives listed_row result (begun_at forms.Constant (views tokens.now)) }
{
    let (constant, rest) = constant(alloc, tokens)?;
    ended(rest).and(Ok(Listed::Instruction(Instruction::Constant(constant))))
}

/// What the line of an instruction with the number of a local says.
fn local(alloc: Global, word: Local, tokens: &[Token<'_>]) -> Result<Listed, LineError>
    ensures { Gives listed_row result (begun_at (forms.Local word) (views tokens.now)) }
{
    match last_operand::<u16>(alloc, tokens) {
        Ok(number) => Ok(Listed::Instruction(Instruction::Local(word, number))),
        Err(error) => Err(error),
    }
}

/// What a line of `iinc` says.
fn increment(alloc: Global, tokens: &[Token<'_>]) -> Result<Listed, LineError>
    ensures { Gives listed_row result (begun_at forms.Increment (views tokens.now)) }
{
    let (number, rest) = operand::<u16>(alloc, tokens)?;
    let by = last_operand::<i16>(alloc, rest)?;
    Ok(Listed::Instruction(Instruction::Increment(number, by)))
}

/// What the line of a jump says.
fn jump(alloc: Global, word: Jump, tokens: &[Token<'_>]) -> Result<Listed, LineError>
    ensures { Gives listed_row result (begun_at (forms.Jump word) (views tokens.now)) }
{
    match last_operand::<Text>(alloc, tokens) {
        Ok(label) => Ok(Listed::Instruction(Instruction::Jump(word, label))),
        Err(error) => Err(error),
    }
}

/// What a line of `tableswitch` says.
fn table_switch(alloc: Global, tokens: &[Token<'_>]) -> Result<Listed, LineError>
    ensures { Gives listed_row result (begun_at forms.TableSwitch (views tokens.now)) }
{
    let (low, rest) = operand::<i32>(alloc, tokens)?;
    let high = high(low, rest)?;
    Ok(Listed::Table(low, high))
}

/// What the line of an instruction on a field says: it has a class, a slash and a name, and then a descriptor.
fn field(alloc: Global, word: FieldAccess, tokens: &[Token<'_>]) -> Result<Listed, LineError>
    ensures { Gives listed_row result (begun_at (forms.Field word) (views tokens.now)) }
{
    let ((class, name), rest) = operand::<(ClassName, MemberName)>(alloc, tokens)?;
    let field_type = last_operand::<FieldType>(alloc, rest)?;
    let field = FieldReference {
        class,
        name,
        field_type,
    };
    Ok(Listed::Instruction(Instruction::Field(word, Boxed::new(alloc, field)?)))
}

/// What the line of a call but `invokeinterface` says.
fn call(alloc: Global, word: Call, tokens: &[Token<'_>]) -> Result<Listed, LineError>
    ensures { Gives listed_row result (begun_at (forms.Call word) (views tokens.now)) }
{
    match last_operand::<Boxed<MethodReference>>(alloc, tokens) {
        Ok(method) => Ok(Listed::Instruction(Instruction::Call(word, method))),
        Err(error) => Err(error),
    }
}

/// What a line of `invokeinterface` says.
fn interface_call(alloc: Global, tokens: &[Token<'_>]) -> Result<Listed, LineError>
    ensures { Gives listed_row result (begun_at forms.CallInterface (views tokens.now)) }
{
    let (method, rest) = operand::<Boxed<MethodReference>>(alloc, tokens)?;
    count(alloc, rest).and(Ok(Listed::Instruction(Instruction::CallInterface(method))))
}

/// What a line of `new` says.
fn object(alloc: Global, tokens: &[Token<'_>]) -> Result<Listed, LineError>
    ensures { Gives listed_row result (begun_at forms.New (views tokens.now)) }
{
    match last_operand::<Boxed<ClassName>>(alloc, tokens) {
        Ok(class) => Ok(Listed::Instruction(Instruction::New(class))),
        Err(error) => Err(error),
    }
}

/// What a line of `newarray` says.
fn array(alloc: Global, tokens: &[Token<'_>]) -> Result<Listed, LineError>
    ensures { Gives listed_row result (begun_at forms.NewArray (views tokens.now)) }
{
    match last_operand::<BaseType>(alloc, tokens) {
        Ok(base) => Ok(Listed::Instruction(Instruction::NewArray(base))),
        Err(error) => Err(error),
    }
}

/// What the line of an instruction on a class or the type of an array says.
fn type_use(alloc: Global, word: TypeUse, tokens: &[Token<'_>]) -> Result<Listed, LineError>
    ensures { Gives listed_row result (begun_at (forms.TypeUse word) (views tokens.now)) }
{
    match last_operand::<Boxed<ReferenceType>>(alloc, tokens) {
        Ok(reference) => Ok(Listed::Instruction(Instruction::TypeUse(word, reference))),
        Err(error) => Err(error),
    }
}

/// What an instruction's line says, by what its word asks for.
pub(crate) fn begin(alloc: Global, form: Form, tokens: &[Token<'_>]) -> Result<Listed, LineError>
    ensures { Gives listed_row result (begun_at form (views tokens.now)) }
{
    match form {
        Form::Plain(word) => alone(Listed::Instruction(Instruction::Plain(word)), tokens),
        Form::Number(value) => {
            let constant = Constant::Int(value);
            alone(Listed::Instruction(Instruction::Constant(constant)), tokens)
        }
        Form::LocalAt(word, place) => {
            alone(Listed::Instruction(Instruction::Local(word, place)), tokens)
        }
        Form::Byte => byte(alloc, tokens),
        Form::Short => short(alloc, tokens),
        Form::Constant => pushed(alloc, tokens),
        Form::Local(word) => local(alloc, word, tokens),
        Form::Increment => increment(alloc, tokens),
        Form::Jump(word) => jump(alloc, word, tokens),
        Form::TableSwitch => table_switch(alloc, tokens),
        Form::LookupSwitch => alone(Listed::Lookup, tokens),
        Form::Field(word) => field(alloc, word, tokens),
        Form::Call(word) => call(alloc, word, tokens),
        Form::CallInterface => interface_call(alloc, tokens),
        Form::New => object(alloc, tokens),
        Form::NewArray => array(alloc, tokens),
        Form::TypeUse(word) => type_use(alloc, word, tokens),
    }
}
