//! Pieces that are written byte by byte, and pieces that aren't written whole.

use cli::{Printed, Stops, emit};
use std::alloc::Global;
use std::io;

/// A writer that takes one byte at a time, and each at the second try alone: a signal interrupts the first.
#[derive(Drop)]
struct Slow {
    bytes: Vec<u8>,
    is_interrupted: bool,
}

impl io::Write for Slow {
    fn write(&mut self, bytes: &[u8]) -> io::Result<usize> {
        self.is_interrupted = !self.is_interrupted;
        if self.is_interrupted {
            return Err(io::Error::from(io::ErrorKind::Interrupted));
        }
        let [byte, ..] = bytes else {
            return Ok(0);
        };
        self.bytes.push(*byte)?;
        Ok(1)
    }

    fn flush(&mut self) -> io::Result<()> {
        Ok(())
    }
}

#[test]
fn emitted_byte_by_byte(rt: HostRuntime) {
    let mut slow = Slow {
        bytes: Vec::new(rt.alloc()),
        is_interrupted: false,
    };
    let answer = emit(&mut Printed::new(&mut slow), b"hello");
    assert!(rt; answer == Ok(()));
    assert!(rt; slow.bytes.as_slice() == b"hello".as_slice());
}

/// Whether the word goes into so much room as far as the room goes, and the answer says how far.
fn is_emitted_within(alloc: Global, room: usize) -> bool {
    let word = b"hello".as_slice();
    let Ok(mut stops) = Stops::new(alloc, room) else {
        return false;
    };
    let answer = emit(&mut stops, word);
    let written = room.min(word.len());
    let is_told = match answer {
        Ok(()) => written == word.len(),
        Err(fault) => fault.written == written && written < word.len(),
    };
    is_told && stops.written() == &word[..written]
}

#[test]
fn emitted_up_to_a_byte(rt: HostRuntime) {
    for room in 0..7 {
        assert!(rt;
            is_emitted_within(rt.alloc(), room),
            "room for {room} bytes"
        );
    }
}
