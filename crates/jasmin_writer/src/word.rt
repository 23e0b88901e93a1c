//! The canonical words of instructions, and of the base types that `newarray` makes.

ghost use Rattle.std.specs.Prelude.{◌≡◌};
ghost use Rattle.jasmin_text.specs.Tables.{rows};
ghost use Rattle.jasmin_writer.specs.CanonicalWords.{first_word as first_word_at, word_of as word_at};
ghost use Rattle.jasmin_text.specs.BaseWords.{base_word as base_word_spelling};

use descriptors::BaseType;
use jasmin_text::form::{COMMON_FORMS, Form, OTHER_FORMS};

/// The canonical word of what asks for this: the first such word of the tables. It is empty where they have none.
pub(crate) fn word_of(form: Form) -> &'static [u8]
    ensures { result.now ≡ word_at form }
{
    first_word(form, &COMMON_FORMS, first_word(form, &OTHER_FORMS, b""))
}

fn first_word(
    form: Form,
    table: &[(&'static [u8], Form)],
    otherwise: &'static [u8],
) -> &'static [u8]
    ensures { result.now ≡ first_word_at form (rows table.now) otherwise.now }
{
    let mut rest = table;
    while let [(word, row), after @ ..] = rest {
        if *row == form {
            return word;
        }
        rest = after;
    }
    otherwise
}

/// The word of a base type as `newarray` names it.
pub(crate) fn base_word(base: BaseType) -> &'static [u8]
    ensures { result.now ≡ base_word_spelling base }
{
    match base {
        BaseType::Boolean => b"boolean",
        BaseType::Byte => b"byte",
        BaseType::Char => b"char",
        BaseType::Short => b"short",
        BaseType::Int => b"int",
    }
}
