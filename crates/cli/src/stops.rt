//! Memory that takes so many bytes, and no more.

ghost use Rattle.std.specs.Prelude.{◌≡◌, ◌+◌, ◌-◌, ◌++◌, ◌≤◌, [], Some, IfOk, length, take};
ghost use Rattle.cli.specs.Sinks.{failures_after, taken_within};

use crate::sink::{Sink, count_failure};
use std::alloc::{AllocError, Global};
use std::io;
use std::marker::Model;

/// Memory for so many bytes: a [`Sink`], and a writer, that fails once it is full.
#[derive(Drop)]
pub struct Stops {
    room: Vec<u8>,
    used: usize,
    failures: u64,
}

impl Model for Stops {
    ghost use Rattle.std.specs.Prelude.{◌-◌, ◌≤◌, take, vec_len};
    ghost use Rattle.cli.specs.Sinks.{Limited};

    ghost Value = { Limited };

    ghost view = { λ s. record { written = take s.used s.room.items; left = vec_len s.room - s.used; failures = s.failures } };

    ghost invariant = { λ s. s.used ≤ vec_len s.room };
}

/// Writes these bytes at a place.
fn put_at(room: &mut [u8], at: usize, bytes: &[u8])
    requires { at + length bytes.now ≤ length room.old }
    ensures { take (at + length bytes.now) room.new ≡ take at room.old ++ bytes.now }
{
    room[at..at + bytes.len()].copy_from_slice(bytes);
}

impl Stops {
    /// Memory that takes `most` bytes. An `Err` means out of memory.
    pub fn new(alloc: Global, most: usize) -> Result<Stops, AllocError>
        ensures empty { IfOk result (λ s. s.written ≡ []) }
        ensures left { IfOk result (λ s. s.left ≡ most) }
        ensures unfailed { IfOk result (λ s. s.failures ≡ 0) }
    {
        let room = Vec::from_elem(alloc, 0, most)?;
        Ok(Stops {
            room,
            used: 0,
            failures: 0,
        })
    }

    /// The bytes that were written.
    pub fn written(&self) -> &[u8]
        ensures { result.now ≡ self.now.written }
    {
        &self.room[..self.used]
    }

    /// Writes as many first bytes of the piece as there is room for, and answers how many; `None` where there are bytes and no
    /// room is left.
    pub fn fill(&mut self, piece: &[u8]) -> Option<usize>
        ensures taken { result ≡ taken_within self.old.left piece.now }
        ensures written { self.new.written ≡ self.old.written ++ take self.old.left piece.now }
        ensures left { self.new.left ≡ self.old.left - length piece.now }
        ensures failures { self.new.failures ≡ failures_after self.old.failures result piece.now }
    {
        let count = piece.len().min(self.room.len() - self.used);
        put_at(&mut self.room, self.used, &piece[..count]);
        self.used += count;
        let taken = if count == 0 && !piece.is_empty() {
            None
        } else {
            Some(count)
        };
        self.failures = count_failure(self.failures, taken, piece);
        taken
    }
}

impl Sink for Stops {
    ghost bytes = { λ s. Some s.written };

    ghost failures = { λ s. s.failures };

    ghost borrow = { λ _. 0 };

    fn put(&mut self, piece: &[u8]) -> Option<usize> {
        self.fill(piece)
    }
}

impl io::Write for Stops {
    ghost contents = { λ s. Some s.written };

    fn write(&mut self, piece: &[u8]) -> io::Result<usize> {
        match self.fill(piece) {
            Some(count) => Ok(count),
            None => Err(io::Error::from(io::ErrorKind::StorageFull)),
        }
    }

    fn flush(&mut self) -> io::Result<()> {
        Ok(())
    }
}
