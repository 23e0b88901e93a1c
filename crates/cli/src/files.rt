//! Files by name.

ghost use Rattle.std.specs.Prelude.{◌≡◌, ◌≤◌, ℕ, List, Option, Some, None, vec_len, take, IfErr, IfOk, OnOk};
ghost use Rattle.std.specs.Bool.{OnTrue};
ghost use Rattle.clap.specs.Walk.{texts as texts_of};
ghost use Rattle.cli.specs.Files.{AreClassesOf, FileHolds, IsOneFile, KeepsAllBut, SpellsClass};
ghost use Rattle.cli.specs.ReadRefusals.{AreRefused, IsReadRefusal};

use crate::fault::Fault;
use jasmin_reader::read_class;
use jasmin_text::ClassText;
use jasmin_words::FaultKind;
use std::alloc::Global;
use thiserror::Error;

/// How many files a program may have.
pub const MOST_FILES: usize = 256;

/// How many bytes a Jasmin file may have: 1 MiB.
pub const MOST_BYTES: usize = 1_048_576;

/// Why a file by name can't be read or written.
#[derive(Clone, Copy, Debug, Error)]
pub enum NamedFault {
    /// The file's own fault: it isn't there, can't be read, or can't be written.
    #[error("the file can't be read or written")]
    Io,
    /// Out of memory.
    #[error("out of memory")]
    Memory,
}

/// Something that reads and writes files by name. A file named `-` that is read is standard input.
pub trait Named {
    // What the files hold, by their names, where that is known.
    ghost held: { Self → Option (List ℕ → Option (List ℕ)) } = { λ _. None };

    /// The first bytes of a file, at most `most` of them. An `Err` is the file's fault, or being out of memory.
    fn read(&mut self, alloc: Global, name: &str, most: usize) -> Result<Vec<u8>, NamedFault>
        ensures most { IfOk result (λ bytes. vec_len bytes ≤ most) }
        ensures bytes { IfOk result (λ bytes. FileHolds (held self.old) name.now (λ all. bytes.items ≡ take most all)) }
        ensures files { KeepsAllBut None (held self.old) (held self.new) };

    /// Whether a file that is to be written under the one name is known to be the one that is read under the other. `false` promises nothing.
    fn is_same(&self, one: &str, other: &str) -> bool
        ensures { OnTrue result (IsOneFile (held self.now) one.now other.now) }
    {
        let _ = one;
        let _ = other;
        false
    }

    /// What is known of the program itself, a few lines: of which commit it was built, and with which toolchain it was proved. Empty where
    /// nothing is known.
    fn about(&self, alloc: Global) -> Vec<u8> {
        Vec::new(alloc)
    }

    /// Makes a file of these bytes, in place of what was there (to a stream of the machine they are added). At an `Err`, the file's fault or being out of memory,
    /// it may hold anything.
    fn write(&mut self, name: &str, bytes: &[u8]) -> Result<(), NamedFault>
        ensures bytes { OnOk result (FileHolds (held self.new) name.now (λ all. all ≡ bytes.now)) }
        ensures files { KeepsAllBut (Some name.now) (held self.old) (held self.new) };
}

/// The class text of a file.
#[tactic(auto, using(crate::proofs::KnownFiles::keeps_all))]
fn read_text<'a, N: Named>(
    alloc: Global,
    named: &mut N,
    file: &'a str,
) -> Result<ClassText, Fault<'a>>
    ensures spelled { IfOk result (SpellsClass (N.held named.old) file.now) }
    ensures refused { IfErr result (IsReadRefusal (N.held named.old) file.now) }
    ensures files { KeepsAllBut None (N.held named.old) (N.held named.new) }
{
    let bytes = match named.read(alloc, file, MOST_BYTES + 1) {
        Ok(bytes) => bytes,
        Err(NamedFault::Io) => return Err(Fault::Io(file)),
        Err(NamedFault::Memory) => return Err(Fault::Memory),
    };
    if bytes.len() > MOST_BYTES {
        return Err(Fault::Files);
    }
    match read_class(alloc, &bytes) {
        Ok(text) => Ok(text),
        Err(fault) => match fault.kind {
            FaultKind::NoMemory => Err(Fault::Memory),
            _ => Err(Fault::Jasmin { file, fault }),
        },
    }
}

/// The class texts of all files, one after the other.
pub(crate) fn read_texts<'a, N: Named>(
    alloc: Global,
    named: &mut N,
    files: &[&'a str],
) -> Result<Vec<ClassText>, Fault<'a>>
    ensures classes { IfOk result (λ texts. AreClassesOf (N.held named.old) (texts_of files.now) texts.items) }
    ensures refused { IfErr result (AreRefused (N.held named.old) (texts_of files.now)) }
    ensures files { KeepsAllBut None (N.held named.old) (N.held named.new) }
{
    if files.len() > MOST_FILES {
        return Err(Fault::Files);
    }
    let mut texts = Vec::new(alloc);
    for file in files {
        let text = match read_text(alloc, named, file) {
            Ok(text) => text,
            Err(fault) => return Err(fault),
        };
        texts.push(text)?;
    }
    Ok(texts)
}
