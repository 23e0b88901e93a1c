//! Lists that own their memory, and texts that are found by their bytes.

use sequence::{Sequence, Text};
use std::alloc::{AllocError, Global};
use texts::Texts;

fn pushes(numbers: &mut Sequence<u8>) -> bool {
    numbers.is_empty() && numbers.push(3).is_ok() && numbers.push(5).is_ok() && numbers.len() == 2
}

#[test]
fn elements_are_in_order(rt: HostRuntime) {
    let mut numbers = Sequence::new(rt.alloc());
    assert!(rt; pushes(&mut numbers) && numbers.as_slice() == [3, 5].as_slice());
    let again = Sequence::from_vec(numbers.into_vec());
    assert!(rt; again.as_slice() == [3, 5].as_slice());
}

/// Whether a text's copy has its bytes.
fn has_its_bytes(alloc: Global) -> Result<bool, AllocError> {
    let text = Text::copied(alloc, b"java/lang/Object")?;
    let copy = text.clone()?;
    Ok(copy.as_slice() == b"java/lang/Object".as_slice())
}

#[test]
fn bytes_are_copied(rt: HostRuntime) {
    assert!(rt; has_its_bytes(rt.alloc()) == Ok(true));
}

/// Whether each text has its place, in the order in which they are noted, and no other text has one.
fn have_places(alloc: Global, texts: &mut Texts) -> bool {
    texts.note(alloc, b"main").is_ok()
        && texts.note(alloc, b"<clinit>").is_ok()
        && texts.note(alloc, b"main").is_ok()
        && texts.len() == 2
        && texts.place(b"main") == Some(0)
        && texts.place(b"<clinit>") == Some(1)
        && texts.place(b"run").is_none()
        && texts.at(0) == Some(b"main".as_slice())
        && texts.at(2).is_none()
}

#[test]
fn texts_are_noted_once(rt: HostRuntime) {
    let mut texts = Texts::new(rt.alloc());
    assert!(rt; have_places(rt.alloc(), &mut texts));
}
