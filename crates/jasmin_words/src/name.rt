//! Names of members, and labels.

ghost use Rattle.std.specs.Prelude.{◌≡◌};
ghost use Rattle.std.specs.List.{list_all};
ghost use Rattle.std.specs.Str.{bytes_eq};
ghost use Rattle.jasmin_words.specs.Names.{is_name_byte, is_member_name};
ghost use Rattle.jasmin_words.specs.Names.{is_label as may_be_label};

use sequence::{Name, NameKind};

/// The name of a field or a method (JVMS SE 8 4.2.2).
///
/// A name is `<init>`, `<clinit>`, or one byte or more, each from 33 to 126 and none of `.` `;` `[` `/` `(`
/// `)` `<` `>`, nor of `"` `=` `:`, which no word has. Contracts see a name as its bytes.
pub type MemberName = Name<MemberNameKind>;

/// The kind of names that fields and methods have. See [`MemberName`].
#[derive(Drop)]
pub struct MemberNameKind;

impl NameKind for MemberNameKind {
    ghost is_name = { is_member_name };

    fn is_name(bytes: &[u8]) -> bool {
        is_name(bytes)
    }
}

/// Whether two texts have the same bytes. Takes no memory.
pub fn same(bytes: &[u8], other: &[u8]) -> bool
    ensures { result ≡ bytes_eq bytes.now other.now }
{
    bytes == other
}

fn may_stand_in_name(byte: u8) -> bool
    ensures { result ≡ is_name_byte byte }
{
    32 < byte
        && byte < 127
        && byte != b'"'
        && byte != b':'
        && byte != b'='
        && byte != b'.'
        && byte != b';'
        && byte != b'['
        && byte != b'/'
        && byte != b'('
        && byte != b')'
        && byte != b'<'
        && byte != b'>'
}

fn all_in_name(bytes: &[u8]) -> bool
    ensures { result ≡ list_all is_name_byte bytes.now }
{
    let mut rest = bytes;
    while let [byte, after @ ..] = rest {
        if !may_stand_in_name(*byte) {
            return false;
        }
        rest = after;
    }
    true
}

/// Whether the bytes are the name of a member. See [`MemberName`]. Takes no memory.
#[tactic(auto, unfolding(crate::specs::Names::is_member_name))]
pub fn is_name(bytes: &[u8]) -> bool
    ensures { result ≡ is_member_name bytes.now }
{
    if same(bytes, b"<init>") || same(bytes, b"<clinit>") {
        return true;
    }
    match bytes {
        [] => false,
        _ => all_in_name(bytes),
    }
}

/// Whether a word may be a label: it begins with neither a digit nor a dot. Takes no memory.
pub fn is_label(word: &[u8]) -> bool
    ensures { result ≡ may_be_label word.now }
{
    match word {
        [] => false,
        [byte, ..] => *byte != b'.' && (*byte < b'0' || b'9' < *byte),
    }
}
