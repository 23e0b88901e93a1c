//! Cases of the words of a Jasmin line. Their heads:
//!
//! - `-- words --`: the body is a line, and that of the head `-- as --` after it lists its words, one a line.
//! - `-- a name --`, `-- no name --`, `-- a label --`, `-- no label --`: the body is a word that is the name of a
//!   member or none, may be a label or not.
//! - `-- the integer 5 --`, `-- no integer --`: the body is a word that is this integer, or none.
//! - Heads of descriptors and class names: see [`descriptor_words`](crate::descriptor_words).

use crate::descriptor_words::{push_class_name_answer, push_field_answer, push_method_answer};
use crate::text::Text;
use jasmin_words::integer::parse_integer;
use jasmin_words::name::{is_label, is_name};
use jasmin_words::token::MOST_BYTES;
use jasmin_words::{Token, words};
use std::alloc::Global;

/// Adds what a word of a line is, and its text.
fn push_token(list: &mut Text, token: &Token<'_>) {
    match token {
        Token::Word(word) if word.len() > MOST_BYTES => list.push(b"long word"),
        Token::Word(word) => {
            list.push(b"word ");
            list.push(word);
        }
        Token::BadWord => list.push(b"bad word"),
        Token::Equals => list.push(b"="),
        Token::Colon => list.push(b":"),
        Token::Text(characters) => {
            list.push(b"string ");
            list.push(characters.as_slice());
        }
        Token::BadText(kind) => {
            list.push(b"bad string ");
            list.show_code(kind);
        }
    }
    list.push(b"\n");
}

/// Adds the words of a line, one a line.
fn push_words(alloc: Global, list: &mut Text, line: &[u8]) {
    match words(alloc, line) {
        Ok(tokens) => {
            for token in tokens.as_slice() {
                push_token(list, token);
            }
        }
        Err(_) => list.is_refused = true,
    }
}

/// Whether the head asks what a word is, or the words of a line.
pub(crate) fn is_of_word(head: &str) -> bool {
    head == "words"
        || head.ends_with(" name")
        || head.ends_with(" label")
        || head.contains(" integer")
        || head.starts_with("a field: ")
        || head.starts_with("a method: ")
}

/// Adds what a word is, or the words of a line, under a head that asks for it.
pub(crate) fn push_word_answer(alloc: Global, came: &mut Text, head: &str, word: &[u8]) {
    match head {
        "words" => push_words(alloc, came, word),
        "a name" | "no name" => came.push(if is_name(word) { b"a name" } else { b"no name" }),
        "a label" | "no label" => came.push(if is_label(word) {
            b"a label"
        } else {
            b"no label"
        }),
        "a class name" | "no class name" => push_class_name_answer(alloc, came, word),
        _ if head.starts_with("a field: ") => push_field_answer(alloc, came, word),
        _ if head.starts_with("a method: ") => push_method_answer(alloc, came, word),
        _ => match parse_integer(word) {
            Some(value) => {
                came.push(b"the integer ");
                came.show(&value);
            }
            None => came.push(b"no integer"),
        },
    }
}
