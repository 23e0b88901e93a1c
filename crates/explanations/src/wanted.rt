//! What the words after a directive or an instruction must be.

use crate::descriptor::{Stage, right_part};
use crate::line::{Sort, Word};
use descriptors::is_class_name;
use jasmin_text::form::Form;
use jasmin_words::integer::parse_integer;
use jasmin_words::name::{is_label, is_name, same};
use jasmin_words::token::MOST_BYTES;

/// What a word must be.
#[derive(Clone, Copy)]
pub(crate) enum Wanted {
    /// Nothing: the line ends.
    Nothing,
    /// This word.
    Exactly(&'static str),
    /// An int from the one to the other.
    Int(i32, i32),
    /// The same, or nothing.
    PerhapsInt(i32, i32),
    /// An int or a string.
    Constant,
    /// A label.
    Label,
    /// The name of a class.
    Class,
    /// `stack` or `locals`.
    Limited,
    /// A class, a slash and the name of a field.
    Field,
    /// The descriptor of a field.
    Type,
    /// The name of a field.
    Name,
    /// A class, a slash, a name and a descriptor.
    Method,
    /// The name and the descriptor of a method.
    Declared,
    /// The word of a base type.
    Base,
    /// A class or the descriptor of an array.
    ClassOrArray,
    /// A string.
    Text,
    /// `=`, or nothing.
    PerhapsValue,
}

/// What an instruction's operands must be: the first and the second.
pub(crate) fn operands_of(form: Form) -> (Wanted, Wanted) {
    match form {
        Form::Plain(_) | Form::Number(_) | Form::LocalAt(_, _) | Form::LookupSwitch => {
            (Wanted::Nothing, Wanted::Nothing)
        }
        Form::Byte => (Wanted::Int(-128, 127), Wanted::Nothing),
        Form::Short => (Wanted::Int(-32_768, 32_767), Wanted::Nothing),
        Form::Constant => (Wanted::Constant, Wanted::Nothing),
        Form::Local(_) => (Wanted::Int(0, 65_535), Wanted::Nothing),
        Form::Increment => (Wanted::Int(0, 65_535), Wanted::Int(-32_768, 32_767)),
        Form::Jump(_) => (Wanted::Label, Wanted::Nothing),
        Form::TableSwitch => (
            Wanted::Int(i32::MIN, i32::MAX),
            Wanted::PerhapsInt(i32::MIN, i32::MAX),
        ),
        Form::Field(_) => (Wanted::Field, Wanted::Type),
        Form::Call(_) => (Wanted::Method, Wanted::Nothing),
        Form::CallInterface => (Wanted::Method, Wanted::PerhapsInt(1, 255)),
        Form::New => (Wanted::Class, Wanted::Nothing),
        Form::NewArray => (Wanted::Base, Wanted::Nothing),
        Form::TypeUse(_) => (Wanted::ClassOrArray, Wanted::Nothing),
    }
}

/// What a word must be, in words.
pub(crate) fn described(wanted: Wanted) -> &'static str {
    match wanted {
        Wanted::Nothing => "the end of the line",
        Wanted::Exactly(word) => word,
        Wanted::Int(_, _) | Wanted::PerhapsInt(_, _) => "an int",
        Wanted::Constant => "an int or a string in double quotes",
        Wanted::Label => "a label, which begins with neither a digit nor a dot",
        Wanted::Class => "the name of a class, as java/lang/Object",
        Wanted::Limited => "stack or locals",
        Wanted::Field => "a class, a slash and a field's name, as java/lang/System/out",
        Wanted::Type => "the descriptor of a type, as I or Ljava/lang/String;",
        Wanted::Name => "the name of a field",
        Wanted::Method => "a class, a slash, a method's name and its descriptor, as A/add(II)I",
        Wanted::Declared => "a method's name and its descriptor, as add(II)I",
        Wanted::Base => "boolean, char, byte, short or int",
        Wanted::ClassOrArray => "the name of a class, or the descriptor of an array, as [I",
        Wanted::Text => "a string in double quotes",
        Wanted::PerhapsValue => "=",
    }
}

/// How many bytes come before the last slash, if there is one.
fn last_slash(bytes: &[u8]) -> Option<usize> {
    let mut found = None;
    for (count, byte) in bytes.iter().enumerate() {
        if *byte == b'/' {
            found = Some(count);
        }
    }
    found
}

/// How many bytes come before the first `(`.
pub(crate) fn name_length(bytes: &[u8]) -> usize {
    for (count, byte) in bytes.iter().enumerate() {
        if *byte == b'(' {
            return count;
        }
    }
    bytes.len()
}

/// Whether the bytes are a class, a slash and a member's name.
fn is_member(bytes: &[u8]) -> bool {
    match last_slash(bytes) {
        Some(slash) => {
            let name = bytes.get(slash.saturating_add(1)..).unwrap_or(&[]);
            is_class_name(bytes.get(..slash).unwrap_or(&[])) && is_name(name)
        }
        None => false,
    }
}

/// Whether the bytes are a descriptor that begins in this stage.
fn is_descriptor(stage: Stage, bytes: &[u8]) -> bool {
    let (count, stage) = right_part(stage, bytes);
    count == bytes.len() && stage == Stage::Nothing
}

/// Whether the bytes are an int from the one to the other.
fn is_int(low: i32, high: i32, bytes: &[u8]) -> bool {
    match parse_integer(bytes) {
        Some(number) => low <= number && number <= high,
        None => false,
    }
}

/// Whether the bytes are the word of a base type.
fn is_base(bytes: &[u8]) -> bool {
    same(bytes, b"boolean")
        || same(bytes, b"char")
        || same(bytes, b"byte")
        || same(bytes, b"short")
        || same(bytes, b"int")
}

/// The name and the descriptor of a method in one word.
pub(crate) fn parts<'a>(word: &Word<'a>) -> (Word<'a>, Word<'a>) {
    let count = name_length(word.bytes);
    (word.part(0, count), word.part(count, word.bytes.len()))
}

/// Whether the bytes of a word without another fault are what is wanted, but for descriptors.
fn is_named(wanted: Wanted, bytes: &[u8]) -> bool {
    let name = bytes.get(..name_length(bytes)).unwrap_or(bytes);
    match wanted {
        Wanted::Nothing | Wanted::Text | Wanted::PerhapsValue => false,
        Wanted::Exactly(word) => same(bytes, word.as_bytes()),
        Wanted::Int(low, high) | Wanted::PerhapsInt(low, high) => is_int(low, high, bytes),
        Wanted::Constant => is_int(i32::MIN, i32::MAX, bytes),
        Wanted::Label => is_label(bytes),
        Wanted::Class => is_class_name(bytes),
        Wanted::Limited => same(bytes, b"stack") || same(bytes, b"locals"),
        Wanted::Field => is_member(bytes),
        Wanted::Type => true,
        Wanted::Name => is_name(bytes),
        Wanted::Method => is_member(name),
        Wanted::Declared => is_name(name),
        Wanted::Base => is_base(bytes),
        Wanted::ClassOrArray => bytes.starts_with(b"[") || is_class_name(bytes),
    }
}

/// What a word isn't that it must be.
#[derive(Clone, Copy, PartialEq, Eq)]
pub(crate) enum Miss {
    /// It is what is wanted.
    None,
    /// Its name, or the whole of it.
    Name,
    /// Its descriptor, which begins in this stage.
    Descriptor(Stage),
    /// It is too long.
    Length,
}

/// What is wrong with the descriptor of a word whose names are right.
fn descriptor_miss(wanted: Wanted, word: &Word<'_>) -> Miss {
    let (stage, bytes) = match wanted {
        Wanted::Type => (Stage::Type, word.bytes),
        Wanted::Method | Wanted::Declared => (Stage::Opening, parts(word).1.bytes),
        Wanted::ClassOrArray if word.bytes.starts_with(b"[") => (Stage::Type, word.bytes),
        _ => return Miss::None,
    };
    if is_descriptor(stage, bytes) {
        Miss::None
    } else {
        Miss::Descriptor(stage)
    }
}

/// What is wrong with a word, where this is wanted.
pub(crate) fn miss_of(wanted: Wanted, word: &Word<'_>) -> Miss {
    let fits = match wanted {
        Wanted::Constant | Wanted::Text if word.sort == Sort::Text => true,
        Wanted::PerhapsValue => word.sort == Sort::Equals,
        _ => word.is_plain() && is_named(wanted, word.bytes),
    };
    if !fits {
        return Miss::Name;
    }
    if word.is_plain() && MOST_BYTES < word.bytes.len() {
        return Miss::Length;
    }
    descriptor_miss(wanted, word)
}
