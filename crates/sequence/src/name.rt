//! Texts that are names of some kind.

ghost use Rattle.std.specs.Prelude.{◌≡◌, Bool, IfOk, List, ℕ, true};
ghost use Rattle.std.specs.Option.{SomeIff};

use crate::Text;
use std::alloc::{AllocError, Global};
use std::marker::{Model, PhantomData};

/// A kind of names: which bytes are one.
pub trait NameKind {
    /// Which bytes are a name.
    ghost is_name: { List ℕ → Bool };

    /// Whether the bytes are a name of this kind. Takes no memory.
    fn is_name(bytes: &[u8]) -> bool
        ensures { result ≡ is_name bytes.now };
}

/// A text that is a name of the kind `K`. Contracts see a name as its bytes.
pub struct Name<K: NameKind> {
    text: Text,
    kind: PhantomData<K>,
}

impl<K: NameKind> Drop for Name<K> {
    fn drop(self) {
        let Self { text: _, kind: _ } = self;
    }
}

impl<K: NameKind> Model for Name<K> {
    ghost use Rattle.std.specs.Prelude.{◌≡◌, List, ℕ, true};

    ghost Value = { List ℕ };

    ghost view = { λ n. n.text };

    ghost invariant = { λ n. K.is_name n.text ≡ true };
}

impl<K: NameKind> Name<K> {
    /// The name with these bytes, or `None` where they are no name. An `Err` means out of memory.
    pub fn parse(alloc: Global, bytes: &[u8]) -> Result<Option<Self>, AllocError>
        ensures { IfOk result (λ name. SomeIff name (K.is_name bytes.now ≡ true) bytes.now) }
    {
        if !K::is_name(bytes) {
            return Ok(None);
        }
        let text = Text::copied(alloc, bytes)?;
        Ok(Some(Name {
            text,
            kind: PhantomData,
        }))
    }

    /// The bytes of the name.
    pub fn as_slice(&self) -> &[u8]
        ensures bytes { result.now ≡ self.now }
        ensures name { K.is_name self.now ≡ true }
    {
        self.text.as_slice()
    }
}
