//! The machine's files.

ghost use Rattle.std.specs.Prelude.{◌≡◌, ◌≤◌, vec_len, IfOk};

use crate::files::{Named, NamedFault};
use crate::sink::{Printed, emit};
use std::alloc::{AllocError, Global};
use std::fs::File;
use std::io;
use std::io::{Read, Write};
use std::os::unix::fs::MetadataExt;
use std::rt::Files;

fn fault_of(error: &io::Error) -> NamedFault {
    match error.kind() {
        io::ErrorKind::OutOfMemory => NamedFault::Memory,
        _ => NamedFault::Io,
    }
}

/// How many bytes are asked for at once.
const CHUNK: usize = 16_384;

/// Adds the next bytes of a file to those that were read, at most so many more.
fn read_more(file: impl Read + Drop, most: usize, bytes: &mut Vec<u8>) -> Result<(), NamedFault> {
    let mut file = file.take(most as u64);
    let mut chunk = [0; CHUNK];
    // (each turn but the last has a byte at least, unless a signal breaks into it)
    for _ in 0..=most {
        match file.read(&mut chunk) {
            Ok(0) => return Ok(()),
            Ok(count) => {
                if bytes.extend_from_slice(&chunk[..count]).is_err() {
                    return Err(NamedFault::Memory);
                }
            }
            Err(error) => {
                if error.kind() != io::ErrorKind::Interrupted {
                    return Err(fault_of(&error));
                }
            }
        }
    }
    Err(NamedFault::Io)
}

/// The first bytes of a file, at most `most` of them.
fn read_file(alloc: Global, file: impl Read + Drop, most: usize) -> Result<Vec<u8>, NamedFault>
    ensures { IfOk result (λ bytes. vec_len bytes ≤ most) }
{
    let mut bytes = Vec::new(alloc);
    read_more(file, most, &mut bytes)?;
    bytes.truncate(most);
    Ok(bytes)
}

/// Writes these bytes, all of them, to a file.
fn write_file(mut file: impl Write + Drop, bytes: &[u8]) -> Result<(), NamedFault> {
    match emit(&mut Printed::new(&mut file), bytes) {
        Ok(()) => Ok(()),
        Err(_) => Err(NamedFault::Io),
    }
}

/// Standard input, with what was read of it, so that a second reading answers the same bytes.
#[derive(Drop)]
struct StandardInput {
    stdin: io::Stdin,
    bytes: Vec<u8>,
    /// How the reading ended, once it has: at the last byte, or by a fault.
    ended: Option<Result<(), NamedFault>>,
}

impl StandardInput {
    /// Reads on, until so many bytes are there or the reading has ended.
    fn fill(&mut self, most: usize) {
        let missing = most.saturating_sub(self.bytes.len());
        if missing == 0 || self.ended.is_some() {
            return;
        }
        let read = read_more(self.stdin, missing, &mut self.bytes);
        if read.is_err() || self.bytes.len() < most {
            self.ended = Some(read);
        }
    }

    /// The first bytes, at most `most` of them.
    fn read(&mut self, alloc: Global, most: usize) -> Result<Vec<u8>, NamedFault>
        ensures { IfOk result (λ bytes. vec_len bytes ≤ most) }
    {
        self.fill(most);
        if let Some(Err(fault)) = self.ended {
            return Err(fault);
        }
        let length = self.bytes.len().min(most);
        match Vec::from_slice(alloc, &self.bytes[..length]) {
            Ok(bytes) => Ok(bytes),
            Err(_) => Err(NamedFault::Memory),
        }
    }
}

/// The name that is standard input where a file is read.
const STANDARD_INPUT: &str = "-";

/// The machine's files, by their paths, and standard input by the name `-`. What they hold isn't known.
#[derive(Drop)]
pub struct MachineFiles<'a, R> {
    rt: &'a R,
    input: StandardInput,
    out: io::Stdout,
    err: io::Stderr,
}

impl<'a, R> MachineFiles<'a, R> {
    /// The files that `rt` opens, with the program's own streams.
    pub fn new(
        rt: &'a R,
        alloc: Global,
        stdin: io::Stdin,
        out: io::Stdout,
        err: io::Stderr,
    ) -> MachineFiles<'a, R> {
        let input = StandardInput {
            stdin,
            bytes: Vec::new(alloc),
            ended: None,
        };
        MachineFiles {
            rt,
            input,
            out,
            err,
        }
    }
}

/// Opens a file that is to be written. What lies below `/dev/fd/` or `/proc/` may be a stream that goes into a file, and is added to.
fn open_to_write<R: Files>(rt: &R, name: &str) -> io::Result<R::File> {
    if name.starts_with("/dev/fd/") || name.starts_with("/proc/") {
        return File::options().append(true).open(rt, name);
    }
    File::create(rt, name)
}

/// Which regular file has this name: its device, and its number there.
fn regular_file(rt: &impl Files, name: &str) -> Option<(u64, u64)> {
    if name == STANDARD_INPUT {
        return None;
    }
    match rt.metadata(name) {
        Ok(found) if found.is_file() => Some((found.dev(), found.ino())),
        _ => None,
    }
}

/// The file PROVED of an installed package, seen from the program's folder.
const INSTALLED: &str = "../share/doc/jinit/PROVED";

/// The file PROVED of a checkout, seen from there.
const BUILT: &str = "PROVED";

/// The file PROVED that belongs to the running program.
fn open_proved<R: Files>(rt: &R, alloc: Global) -> Option<R::File> {
    let program = rt.read_link(alloc, "/proc/self/exe").ok()?;
    let folder = program.parent()?;
    let installed = folder.join(alloc, INSTALLED).ok()?;
    if let Ok(file) = File::open(rt, installed.as_path()) {
        return Some(file);
    }
    let built = folder.join(alloc, BUILT).ok()?;
    File::open(rt, built.as_path()).ok()
}

/// How many bytes of PROVED are looked at.
const MOST_OF_PROVED: usize = 4_096;

/// How many of them are answered at most.
const MOST_ABOUT: usize = 1_000;

/// Those lines of PROVED that say from which commit the program was built, and with which toolchain it was proved.
fn about_lines(alloc: Global, text: &[u8]) -> Result<Vec<u8>, AllocError>
    ensures { IfOk result (λ lines. vec_len lines ≤ MOST_ABOUT) }
{
    let mut lines = Vec::new(alloc);
    for line in text.split_inclusive(|byte| *byte == b'\n') {
        let is_about = line.starts_with(b"Commit") || line.starts_with(b"Toolchain");
        if is_about && line.len() <= MOST_ABOUT - lines.len() {
            lines.extend_from_slice(line)?;
        }
    }
    Ok(lines)
}

/// [`about_lines`] of the file PROVED that belongs to the running program.
fn about_program<R: Files>(rt: &R, alloc: Global) -> Option<Vec<u8>> {
    let file = open_proved(rt, alloc)?;
    let text = read_file(alloc, file, MOST_OF_PROVED).ok()?;
    about_lines(alloc, &text).ok()
}

impl<R: Files> Named for MachineFiles<'_, R> {
    fn read(&mut self, alloc: Global, name: &str, most: usize) -> Result<Vec<u8>, NamedFault> {
        if name == STANDARD_INPUT {
            return self.input.read(alloc, most);
        }
        match File::open(self.rt, name) {
            Ok(file) => read_file(alloc, file, most),
            Err(error) => Err(fault_of(&error)),
        }
    }

    fn write(&mut self, name: &str, bytes: &[u8]) -> Result<(), NamedFault> {
        match name {
            "/dev/stdout" | "/dev/fd/1" | "/proc/self/fd/1" => write_file(self.out, bytes),
            "/dev/stderr" | "/dev/fd/2" | "/proc/self/fd/2" => write_file(self.err, bytes),
            _ => match open_to_write(self.rt, name) {
                Ok(file) => write_file(file, bytes),
                Err(error) => Err(fault_of(&error)),
            },
        }
    }

    fn is_same(&self, one: &str, other: &str) -> bool {
        // (standard input may come from the file that is to be written)
        let read = if other == STANDARD_INPUT {
            "/dev/stdin"
        } else {
            other
        };
        match (regular_file(self.rt, one), regular_file(self.rt, read)) {
            (Some(one), Some(other)) => one == other,
            _ => false,
        }
    }

    fn about(&self, alloc: Global) -> Vec<u8> {
        match about_program(self.rt, alloc) {
            Some(lines) => lines,
            None => Vec::new(alloc),
        }
    }
}
