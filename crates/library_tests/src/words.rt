//! Names, integers and strings by themselves, and the kinds of faults.

use jasmin_text::table::find;
use jasmin_words::fault::FaultKind;
use jasmin_words::integer::{push_decimal, push_integer};
use jasmin_words::name::{MemberName, same};
use jasmin_words::quote::push_quoted;
use jasmin_words::token::is_text;
use sequence::Writer;
use std::alloc::{AllocError, Global};

/// What is written.
#[derive(Clone, Copy)]
enum Written {
    /// Two integers and a number, one after the other.
    Integers,
    /// A string of these bytes.
    Quoted(&'static [u8]),
}

const WRITTEN: [(Written, &[u8]); 2] = [
    (Written::Integers, b"-2147483648065535"),
    (
        Written::Quoted(b"a\"\\\n\t\r\x08\x1F\x7F'\xC3\xA9"),
        b"\"a\\\"\\\\\\n\\t\\r\\u0008\\u001f\\u007f'\xC3\xA9\"",
    ),
];

fn is_written(alloc: Global, written: Written, wanted: &[u8]) -> bool {
    let mut text = Writer::new(alloc);
    match written {
        Written::Integers => {
            push_integer(&mut text, -2_147_483_648);
            push_integer(&mut text, 0);
            push_decimal(&mut text, 65_535);
        }
        Written::Quoted(bytes) => push_quoted(&mut text, bytes),
    }
    match text.into_text() {
        Ok(text) => text.as_slice() == wanted,
        Err(_) => false,
    }
}

#[test]
fn writes_integers_and_strings(rt: HostRuntime) {
    for (written, wanted) in WRITTEN {
        assert!(rt; is_written(rt.alloc(), written, wanted));
    }
}

#[test]
fn finds_the_first_row_of_a_word(rt: HostRuntime) {
    let table: [(&[u8], u8); 3] = [(b"a", 1), (b"b", 2), (b"b", 3)];
    assert!(rt; find(b"b", &table) == Some(2) && find(b"c", &table).is_none());
}

/// Whether these bytes are a name, which has them.
fn is_name(alloc: Global, bytes: &[u8]) -> Result<bool, AllocError> {
    let Some(name) = MemberName::parse(alloc, bytes)? else {
        return Ok(false);
    };
    Ok(name.as_slice() == bytes)
}

#[test]
fn keeps_names(rt: HostRuntime) {
    assert!(rt; is_name(rt.alloc(), b"count") == Ok(true));
    assert!(rt; is_name(rt.alloc(), b"a.b") == Ok(false));
    assert!(rt; same(b"default", b"default") && !same(b"default", b"defaults"));
    assert!(rt; is_text(b"caf\xC3\xA9") && !is_text(b"\xC3"));
}

fn is_spelled(alloc: Global, kind: FaultKind, wanted: &str) -> bool {
    match format!(in alloc; "{kind}") {
        Ok(text) => text.as_str() == wanted,
        Err(_) => false,
    }
}

/// No case of a file runs out of memory.
#[test]
fn out_of_memory_is_the_last_kind(rt: HostRuntime) {
    let kind = FaultKind::NoMemory;
    assert!(rt; is_spelled(rt.alloc(), kind, "J14: out of memory") && kind.number() == 14);
}
