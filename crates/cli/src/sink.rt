//! Writing bytes where it is known, when a write fails, how many were written.

ghost use Rattle.std.specs.Prelude.{◌≡◌, ◌<◌, ◌≤◌, ℕ, List, Option, IfErr, IfNone, IfSome, OnErr, OnOk, length, take};
ghost use Rattle.std.specs.Borrow.{GName};
ghost use Rattle.std.specs.Io.KnownBytes.{Appends, Keeps};
ghost use Rattle.cli.specs.Sinks.{AppendsShort, failures_after, is_failure, joined, raised};

use std::io;
use thiserror::Error;

/// Something that takes bytes, and tells how many of them were written.
pub trait Sink {
    // The bytes so far, as far as the writer tells them.
    ghost bytes: { Self → Option (List ℕ) };

    // How often a write has failed; it is counted up to 2^64 - 1.
    ghost failures: { Self → ℕ };

    // The borrow that it holds, where it holds one: a caller who lent it a writer knows by it that it is still that writer.
    ghost borrow: { Self → GName };

    /// How many first bytes of the piece were written, or `None` where the write failed and none were.
    fn put(&mut self, piece: &[u8]) -> Option<usize>
        ensures most { IfSome result (λ n. n ≤ length piece.now) }
        ensures written { IfSome result (λ n. Appends (bytes self.old) (bytes self.new) (take n piece.now)) }
        ensures none { IfNone result (Keeps (bytes self.old) (bytes self.new)) }
        ensures failed { failures self.new ≡ failures_after (failures self.old) result piece.now }
        ensures same_borrow { borrow self.new ≡ borrow self.old };
}

/// A piece wasn't written whole.
#[derive(Clone, Copy, Debug, Error, PartialEq, Eq)]
#[error("a write failed after {written} bytes")]
pub struct EmitFault {
    /// How many of its first bytes were written, and no others.
    pub written: usize,
}

/// Writes a piece, in as many writes as it takes. It takes no memory.
///
/// # Errors
///
/// [`EmitFault`] at the first write that fails, or that takes nothing; no further one is tried.
pub fn emit<S: Sink>(sink: &mut S, piece: &[u8]) -> Result<(), EmitFault>
    ensures whole { OnOk result (Appends (S.bytes sink.old) (S.bytes sink.new) piece.now) }
    ensures unfailed { OnOk result (S.failures sink.new ≡ S.failures sink.old) }

    ensures short { IfErr result (λ f. f.written < length piece.now) }
    ensures front { IfErr result (λ f. Appends (S.bytes sink.old) (S.bytes sink.new) (take f.written piece.now)) }
    ensures failed { OnErr result (S.failures sink.new ≡ raised (S.failures sink.old)) }

    ensures same_borrow { S.borrow sink.new ≡ S.borrow sink.old }
{
    let mut written = 0;
    while written < piece.len() {
        match sink.put(&piece[written..]) {
            None | Some(0) => return Err(EmitFault { written }),
            Some(count) => written += count,
        }
    }
    Ok(())
}

/// What one write took. A write that a signal interrupted is made again, as often as the standard library does it.
fn write_again<W: io::Write>(out: &mut W, piece: &[u8]) -> Option<usize>
    ensures most { IfSome result (λ n. n ≤ length piece.now) }
    ensures written { IfSome result (λ n. Appends (W.contents out.old) (W.contents out.new) (take n piece.now)) }
    ensures none { IfNone result (Keeps (W.contents out.old) (W.contents out.new)) }
{
    for _ in 0..u64::MAX {
        match out.write(piece) {
            Ok(count) => return Some(count),
            Err(error) => {
                if error.kind() != io::ErrorKind::Interrupted {
                    return None;
                }
            }
        }
    }
    None
}

/// Whether a write of this piece failed.
fn has_failed(written: Option<usize>, piece: &[u8]) -> bool
    ensures { result ≡ is_failure written piece.now }
{
    match written {
        None => true,
        Some(count) => count == 0 && !piece.is_empty(),
    }
}

/// The count of failures after a write of this piece.
pub(crate) fn count_failure(failures: u64, written: Option<usize>, piece: &[u8]) -> u64
    ensures { result ≡ failures_after failures written piece.now }
{
    if has_failed(written, piece) {
        failures.saturating_add(1)
    } else {
        failures
    }
}

/// A stream or a file of the machine, as a [`Sink`].
#[derive(Drop)]
pub struct Printed<'a, W> {
    /// What is written to.
    pub out: &'a mut W,
    /// How often a write has failed; it is counted up to 2^64 - 1.
    pub failures: u64,
}

impl<'a, W> Printed<'a, W> {
    /// A sink that hasn't failed.
    pub fn new(out: &'a mut W) -> Printed<'a, W>
        ensures writer { result.out.now ≡ out.old }
        ensures same_borrow { result.out.ghost_name ≡ out.entry.ghost_name }
        ensures failures { result.failures ≡ 0 }
    {
        Printed { out, failures: 0 }
    }
}

impl<W: io::Write> Sink for Printed<'_, W> {
    ghost bytes = { λ p. W.contents p.out.now };

    ghost failures = { λ p. p.failures };

    ghost borrow = { λ p. p.out.ghost_name };

    fn put(&mut self, piece: &[u8]) -> Option<usize> {
        let written = write_again(self.out, piece);
        self.failures = count_failure(self.failures, written, piece);
        written
    }
}

/// [`emit`] of these bytes to a stream or a file of the machine.
pub(crate) fn emit_to<W: io::Write>(out: &mut W, bytes: &[u8]) -> Result<(), EmitFault>
    ensures whole { OnOk result (Appends (W.contents out.old) (W.contents out.new) bytes.now) }
    ensures short { OnErr result (AppendsShort (W.contents out.old) (W.contents out.new) bytes.now) }
{
    let mut printed = Printed::new(out);
    match emit(&mut printed, bytes) {
        Ok(()) => Ok(()),
        Err(fault) => Err(fault),
    }
}

impl From<EmitFault> for io::Error {
    fn from(_fault: EmitFault) -> io::Error {
        io::Error::from(io::ErrorKind::WriteZero)
    }
}

/// The same of pieces one after the other. An `Err` means that one wasn't written whole, and none after it.
pub(crate) fn emit_all<W: io::Write>(out: &mut W, pieces: &[&[u8]]) -> io::Result<()>
    ensures whole { OnOk result (Appends (W.contents out.old) (W.contents out.new) (joined pieces.now)) }
    ensures short { OnErr result (AppendsShort (W.contents out.old) (W.contents out.new) (joined pieces.now)) }
{
    for piece in pieces {
        emit_to(out, piece)?;
    }
    Ok(())
}
