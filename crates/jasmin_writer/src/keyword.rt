//! The fixed words of the canonical spelling but those of instructions.

ghost use Rattle.std.specs.Prelude.{◌≡◌};
ghost use Rattle.sequence.specs.Written.{Adds};
ghost use Rattle.jasmin_writer.specs.Keywords.{spelled};

use sequence::Writer;

/// The fixed words of the canonical spelling but those of instructions, with the spaces round them.
#[derive(Clone, Copy)]
pub(crate) enum Keyword {
    Class,
    Interface,
    Super,
    Implements,
    Field,
    Method,
    EndMethod,
    LimitStack,
    LimitLocals,
    Catch,
    From,
    To,
    Using,
    All,
    Equals,
    Colon,
    Default,
    Public,
    Private,
    Protected,
    Static,
    Final,
    Synchronized,
    Volatile,
    Transient,
    Abstract,
}

/// The bytes of the word.
#[tactic(auto, unfolding(crate::specs::Keywords::spelled))]
pub(crate) fn spelling(keyword: Keyword) -> &'static [u8]
    ensures { result.now ≡ spelled keyword }
{
    match keyword {
        Keyword::Class => b".class",
        Keyword::Interface => b".interface",
        Keyword::Super => b".super ",
        Keyword::Implements => b".implements ",
        Keyword::Field => b".field",
        Keyword::Method => b".method",
        Keyword::EndMethod => b".end method",
        Keyword::LimitStack => b".limit stack ",
        Keyword::LimitLocals => b".limit locals ",
        Keyword::Catch => b".catch ",
        Keyword::From => b" from ",
        Keyword::To => b" to ",
        Keyword::Using => b" using ",
        Keyword::All => b"all",
        Keyword::Equals => b" = ",
        Keyword::Colon => b" : ",
        Keyword::Default => b"default : ",
        Keyword::Public => b" public",
        Keyword::Private => b" private",
        Keyword::Protected => b" protected",
        Keyword::Static => b" static",
        Keyword::Final => b" final",
        Keyword::Synchronized => b" synchronized",
        Keyword::Volatile => b" volatile",
        Keyword::Transient => b" transient",
        Keyword::Abstract => b" abstract",
    }
}

/// Adds the word at the end.
pub(crate) fn push_keyword(text: &mut Writer, keyword: Keyword)
    ensures { Adds text.old (spelled keyword) text.new }
{
    text.push(spelling(keyword));
}
