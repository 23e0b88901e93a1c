//! The words that may come before a class's name, and those of base types.

ghost use Rattle.std.specs.Prelude.{◌≡◌};
ghost use Rattle.jasmin_reader.specs.Table.{base_at};

use descriptors::BaseType;
use jasmin_text::table::{AccessWord, find};

/// A word before the name of a class.
#[derive(Clone, Copy)]
pub(crate) enum ClassWord {
    /// It makes the class an interface.
    Interface,
    /// It is any other access word.
    Access(AccessWord),
}

/// A word after `newarray`.
#[derive(Clone, Copy)]
pub(crate) enum BaseWord {
    /// A type that the machine knows.
    Known(BaseType),
    /// A type that is left out.
    LeftOut,
}

/// Each word of a base type (JVMS SE 8 6.5, newarray).
pub(crate) const BASE_WORDS: [(&[u8], BaseWord); 8] = [
    (b"boolean", BaseWord::Known(BaseType::Boolean)),
    (b"char", BaseWord::Known(BaseType::Char)),
    (b"byte", BaseWord::Known(BaseType::Byte)),
    (b"short", BaseWord::Known(BaseType::Short)),
    (b"int", BaseWord::Known(BaseType::Int)),
    (b"long", BaseWord::LeftOut),
    (b"float", BaseWord::LeftOut),
    (b"double", BaseWord::LeftOut),
];

/// What the word says after `newarray`, if it is the word of a base type.
#[tactic(auto, unfolding(crate::specs::Table::base_at, crate::specs::Table::base_words))]
pub(crate) fn base_word_of(word: &[u8]) -> Option<BaseWord>
    ensures { result ≡ base_at word.now }
{
    find(word, &BASE_WORDS)
}
