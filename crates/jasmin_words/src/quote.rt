//! The canonical spelling of strings.

ghost use Rattle.std.specs.Prelude.{◌≡◌, ◌<◌};
ghost use Rattle.sequence.specs.Written.{Adds};
ghost use Rattle.std.specs.Char.{digit_char};
ghost use Rattle.jasmin_words.specs.Quoting.{quoted_byte, quoted};

use sequence::Writer;

fn digit(value: u8) -> u8
    requires { value < 16 }
    ensures { result ≡ digit_char value }
{
    if value < 10 {
        b'0' + value
    } else {
        b'a' + (value - 10)
    }
}

fn push_quoted_byte(text: &mut Writer, byte: u8)
    ensures { Adds text.old (quoted_byte byte) text.new }
{
    match byte {
        b'"' => text.push(b"\\\""),
        b'\\' => text.push(b"\\\\"),
        b'\n' => text.push(b"\\n"),
        b'\t' => text.push(b"\\t"),
        b'\r' => text.push(b"\\r"),
        _ => {
            if byte < 32 || byte == 127 {
                text.push(&[b'\\', b'u', b'0', b'0', digit(byte / 16), digit(byte % 16)]);
            } else {
                text.push(&[byte]);
            }
        }
    }
}

/// Writes a string with its quotes at the end: a double quote is `\"`, a backslash `\\`, LF `\n`, TAB `\t`,
/// CR `\r`, another character below 32 and 127 is `\u` and four lower case hexadecimal digits, and every other
/// character is itself.
pub fn push_quoted(text: &mut Writer, characters: &[u8])
    ensures { Adds text.old (quoted characters.now) text.new }
{
    text.push(b"\"");
    for byte in characters {
        push_quoted_byte(text, *byte);
    }
    text.push(b"\"");
}
