//! Where a descriptor goes wrong.

use crate::line::Word;
use crate::page::Page;
use jasmin_text::table::find;

/// What may come next in a descriptor.
#[derive(Clone, Copy, PartialEq, Eq)]
pub(crate) enum Stage {
    /// The `(` of a method's descriptor.
    Opening,
    /// A parameter, or `)`.
    Parameter,
    /// The type of a parameter's elements.
    ParameterElement,
    /// The rest of the class name of a parameter.
    ParameterName,
    /// A method's result.
    Outcome,
    /// A type that is no parameter.
    Type,
    /// The rest of the class name of such a type.
    TypeName,
    /// Nothing more.
    Nothing,
}

/// What may come after a byte of a class name: the name's rest, or what follows its end.
fn after_name(stage: Stage, after: Stage, byte: u8) -> Option<Stage> {
    match byte {
        b';' => Some(after),
        b'.' | b'[' | b'(' | b')' | b':' | b'=' | b'"' => None,
        _ => Some(stage),
    }
}

/// What may come after a byte of a type: its element's type, the rest of its class name, or what follows the type.
fn after_type(element: Stage, name: Stage, after: Stage, byte: u8) -> Option<Stage> {
    match byte {
        b'[' => Some(element),
        b'L' => Some(name),
        b'Z' | b'B' | b'C' | b'S' | b'I' => Some(after),
        _ => None,
    }
}

/// What may come after this byte, where it may be there.
fn after_byte(stage: Stage, byte: u8) -> Option<Stage> {
    match stage {
        Stage::Opening if byte == b'(' => Some(Stage::Parameter),
        Stage::Opening | Stage::Nothing => None,
        Stage::Parameter if byte == b')' => Some(Stage::Outcome),
        Stage::Parameter | Stage::ParameterElement => {
            after_type(
                Stage::ParameterElement,
                Stage::ParameterName,
                Stage::Parameter,
                byte,
            )
        }
        Stage::ParameterName => after_name(stage, Stage::Parameter, byte),
        Stage::Outcome if byte == b'V' => Some(Stage::Nothing),
        Stage::Outcome | Stage::Type => {
            after_type(Stage::Type, Stage::TypeName, Stage::Nothing, byte)
        }
        Stage::TypeName => after_name(stage, Stage::Nothing, byte),
    }
}

/// How many bytes of a descriptor, which begins in this stage, are right, and what may come after them.
pub(crate) fn right_part(stage: Stage, bytes: &[u8]) -> (usize, Stage) {
    let mut stage = stage;
    for (count, byte) in bytes.iter().enumerate() {
        match after_byte(stage, *byte) {
            Some(after) => stage = after,
            None => return (count, stage),
        }
    }
    (bytes.len(), stage)
}

/// The type of Java that this letter is the descriptor of, where it is left out.
pub(crate) fn left_out_type(byte: u8) -> Option<&'static str> {
    match byte {
        b'J' => Some("long"),
        b'F' => Some("float"),
        b'D' => Some("double"),
        _ => None,
    }
}

/// What may come in this stage, in words.
fn wanted_in(stage: Stage) -> &'static str {
    match stage {
        Stage::Opening => "a method's descriptor begins with (",
        Stage::Parameter => "a parameter's type or ) comes here",
        Stage::ParameterElement => "the type of an array's elements comes here",
        Stage::ParameterName | Stage::TypeName => {
            "the rest of a class name comes here, with slashes in it and a semicolon after it"
        }
        Stage::Outcome => "the type of the result comes here, V where there is none",
        Stage::Type =>
            "a type comes here: Z, B, C, S, I, L with a class name and a semicolon, or [ and a type",
        Stage::Nothing => "nothing comes after the end of a descriptor",
    }
}

/// Words of Java for types, with the descriptors that are meant.
const JAVA_TYPES: [(&[u8], &[u8]); 7] = [
    (b"int", b"I"),
    (b"boolean", b"Z"),
    (b"byte", b"B"),
    (b"char", b"C"),
    (b"short", b"S"),
    (b"String", b"Ljava/lang/String;"),
    (b"java/lang/String", b"Ljava/lang/String;"),
];

/// The word in which a descriptor goes wrong, from the byte that is wrong on; nothing of it where it ends too early.
pub(crate) fn wrong_part<'a>(stage: Stage, word: &Word<'a>) -> Word<'a> {
    let (count, stage) = right_part(stage, word.bytes);
    match stage {
        Stage::ParameterName | Stage::TypeName => word.part(count, word.bytes.len()),
        _ => word.part(count, count.saturating_add(1)),
    }
}

impl Page {
    /// Says where a descriptor goes wrong that begins in this stage.
    pub(crate) fn wrong_descriptor(&mut self, begin: Stage, word: &Word<'_>) {
        let (count, stage) = right_part(begin, word.bytes);
        match word.bytes.get(count) {
            None if count == 0 => self.say("the descriptor is missing: "),
            None => self.about("the descriptor ", word.bytes, " ends too early: "),
            Some(byte) => match left_out_type(*byte) {
                Some(name) => {
                    self.about("", &[*byte], " is the type ");
                    self.say(name);
                    self.say(", which is left out: this machine has no long, float and double");
                    return;
                }
                None => {
                    self.about("", &[*byte], " is wrong in the descriptor ");
                    self.name(word.bytes);
                    self.say(": ");
                }
            },
        }
        self.say(wanted_in(stage));
        self.perhaps(find(word.bytes, &JAVA_TYPES));
    }
}
