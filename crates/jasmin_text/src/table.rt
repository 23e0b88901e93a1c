//! Tables of words.

ghost use Rattle.std.specs.Prelude.{◌≡◌, map};
ghost use Rattle.jasmin_text.specs.Tables.{find_row, rows, stands_in as is_among, access_of as access_at, member_access_of as member_access_at};

use jasmin_words::name::same;

/// What a word before a name says.
#[derive(Clone, Copy)]
pub enum AccessWord {
    /// `public`
    Public,
    /// `private`
    Private,
    /// `protected`
    Protected,
    /// `static`
    Static,
    /// `final`
    Final,
    /// `synchronized`
    Synchronized,
    /// `volatile`
    Volatile,
    /// `transient`
    Transient,
    /// `abstract`
    Abstract,
    /// A word that is taken and says nothing.
    Dropped,
    /// `native`, which is left out.
    LeftOut,
}

/// Each access word. Beside them `interface` is one on `.class`, `.field` and `.method`.
pub const ACCESS_WORDS: [(&[u8], AccessWord); 19] = [
    (b"public", AccessWord::Public),
    (b"private", AccessWord::Private),
    (b"protected", AccessWord::Protected),
    (b"static", AccessWord::Static),
    (b"final", AccessWord::Final),
    (b"synchronized", AccessWord::Synchronized),
    (b"volatile", AccessWord::Volatile),
    (b"transient", AccessWord::Transient),
    (b"abstract", AccessWord::Abstract),
    (b"super", AccessWord::Dropped),
    (b"strict", AccessWord::Dropped),
    (b"strictfp", AccessWord::Dropped),
    (b"fpstrict", AccessWord::Dropped),
    (b"varargs", AccessWord::Dropped),
    (b"bridge", AccessWord::Dropped),
    (b"synthetic", AccessWord::Dropped),
    (b"enum", AccessWord::Dropped),
    (b"annotation", AccessWord::Dropped),
    (b"native", AccessWord::LeftOut),
];

/// What is beside the word in the table's first row of it.
pub fn find<T: Copy>(word: &[u8], table: &[(&[u8], T)]) -> Option<T>
    ensures { result ≡ find_row word.now (rows table.now) }
{
    let mut rest = table;
    while let [(name, row), after @ ..] = rest {
        if same(word, name) {
            return Some(*row);
        }
        rest = after;
    }
    None
}

pub(crate) fn stands_in(word: &[u8], words: &[&[u8]]) -> bool
    ensures { result ≡ is_among word.now (map (λ w. w.now) words.now) }
{
    let mut rest = words;
    while let [next, after @ ..] = rest {
        if same(word, next) {
            return true;
        }
        rest = after;
    }
    false
}

/// What the word says, if it is an access word.
#[tactic(auto, unfolding(crate::specs::Tables::access_of, crate::specs::Tables::access_words))]
pub fn access_of(word: &[u8]) -> Option<AccessWord>
    ensures { result ≡ access_at word.now }
{
    find(word, &ACCESS_WORDS)
}

/// What the word says before the name of a field or a method, if it is an access word there.
#[tactic(auto, unfolding(crate::specs::Tables::member_access_of))]
pub fn member_access_of(word: &[u8]) -> Option<AccessWord>
    ensures { result ≡ member_access_at word.now }
{
    if same(word, b"interface") {
        return Some(AccessWord::Dropped);
    }
    access_of(word)
}
