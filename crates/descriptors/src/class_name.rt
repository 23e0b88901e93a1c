//! Names of classes and interfaces.

ghost use Rattle.std.specs.Prelude.{◌↔◌, IsTrue, ◌≡◌};
ghost use Rattle.descriptors.specs.ClassName.{is_name_byte, IsClassName};

use sequence::{Name, NameKind};

/// The name of a class or interface in its internal form (JVMS SE 8 4.2.1), as `java/lang/Object`.
///
/// A name is one segment or more with `/` between them. A segment is one byte or more, each from 33 to
/// 126 and none of `.` `;` `:` `=` `"` `[` `(` `)`. Contracts see a name as its bytes.
pub type ClassName = Name<ClassNameKind>;

/// The kind of names that classes and interfaces have. See [`ClassName`].
#[derive(Drop)]
pub struct ClassNameKind;

impl NameKind for ClassNameKind {
    ghost use Rattle.descriptors.specs.ClassName.{is_class_name};

    ghost is_name = { is_class_name };

    fn is_name(bytes: &[u8]) -> bool {
        is_class_name(bytes)
    }
}

fn is_segment_byte(byte: u8) -> bool
    ensures { result ≡ is_name_byte byte }
{
    32 < byte
        && byte < 127
        && byte != b'.'
        && byte != b';'
        && byte != b':'
        && byte != b'='
        && byte != b'"'
        && byte != b'['
        && byte != b'('
        && byte != b')'
}

/// Whether the bytes are the name of a class or interface. See [`ClassName`]. Takes no memory.
pub fn is_class_name(bytes: &[u8]) -> bool
    ensures { IsTrue result ↔ IsClassName bytes.now }
{
    let mut in_segment = false;
    let mut rest = bytes;
    while let [byte, after @ ..] = rest {
        if *byte == b'/' {
            if !in_segment {
                return false;
            }
            in_segment = false;
        } else {
            if !is_segment_byte(*byte) {
                return false;
            }
            in_segment = true;
        }
        rest = after;
    }
    in_segment
}
