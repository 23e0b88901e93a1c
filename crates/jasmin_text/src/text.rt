//! Class texts: parts that a file can spell.

ghost use Rattle.std.specs.Prelude.{◌≡◌};
ghost use Rattle.jasmin_text.specs.Spellable.{IsSpellable};

use crate::class_text::ClassParts;
use std::marker::Model;

/// The text of one class or interface: parts that a Jasmin file can spell.
///
/// It leaves out what no file spells: a class or a field with an access word for its name, a class named `all`
/// in a handler table, a method with `abstract` and `static`, a body under `abstract` or none without it, a
/// `<clinit>` that isn't static and void without parameters, a value that doesn't fit its field's type, keys
/// of a `lookupswitch` that don't rise, a target after the end, and what is beyond a limit: 255 direct
/// superinterfaces, 1,024 members, 16,384 instructions with the labels and keys of switches, 1,024 operands
/// and locals, words and strings of 65,535 bytes. Contracts see a class text as its parts.
pub struct ClassText {
    parts: ClassParts,
}

impl Drop for ClassText {
    fn drop(self) {
        let Self { parts: _ } = self;
    }
}

impl Model for ClassText {
    ghost use Rattle.jasmin_text.specs.declared.class_text.ClassParts.{ClassParts};
    ghost use Rattle.jasmin_text.specs.Spellable.{IsSpellable};

    ghost Value = { ClassParts };

    ghost view = { λ t. t.parts };

    ghost invariant = { λ t. IsSpellable t.parts };
}

impl ClassText {
    /// The class text of parts that a file can spell. Takes no memory.
    pub fn from_parts(parts: ClassParts) -> Self
        requires { IsSpellable parts }
        ensures { result ≡ parts }
    {
        Self { parts }
    }

    /// The parts. A file can spell them.
    pub fn parts(&self) -> &ClassParts
        ensures parts { result.now ≡ self.now }
        ensures spellable { IsSpellable self.now }
    {
        &self.parts
    }

    /// The parts. A file can spell them. Takes no memory.
    pub fn into_parts(self) -> ClassParts
        ensures parts { result ≡ self }
        ensures spellable { IsSpellable result }
    {
        let ClassText { parts } = self;
        parts
    }
}
