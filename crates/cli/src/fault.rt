//! What keeps the program from its work.

ghost use Rattle.std.specs.Prelude.{◌≡◌, ◌++◌, OnErr, OnOk, codes, decimal};
ghost use Rattle.std.specs.Io.KnownBytes.{Appends};
ghost use Rattle.cli.specs.declared.fault.Fault.TheVariants.{Memory};
ghost use Rattle.cli.specs.FaultText.{fault_line, fixed_line_of, io_line, jasmin_line, link_line, link_number_of, trace_line};
ghost use Rattle.cli.specs.Sinks.{AppendsShort};
ghost use Rattle.cli.specs.Status.{status_of};

use crate::sink::emit_all;
use hierarchy::{LinkFault, LinkFaultKind};
use itoa::Buffer;
use jasmin_reader::ReadFault;
use std::alloc::{AllocError, AllocFailed};
use std::io;
use thiserror::Error;
use trace_reader::TraceFault;

/// Why the program stops, once its command line has been read.
#[derive(Debug, Error)]
pub enum Fault<'a> {
    /// Options that don't go together or with their subcommand, or a trace that would replace a file that is read.
    #[error("options that don't go together, or a trace that would replace a file that is read")]
    Words,
    /// More than 256 files, or one over 1 MiB.
    #[error("more than 256 files, or one over 1 MiB")]
    Files,
    /// A file can't be read, or the trace can't be written.
    #[error("{0}: the file can't be read or written")]
    Io(&'a str),
    /// A file isn't in the Jasmin form that is read.
    #[error("{file}: {fault}")]
    Jasmin {
        file: &'a str,
        #[source]
        fault: ReadFault,
    },
    /// A file's text is no trace of the classes and their threads.
    #[error("{file}: {fault}")]
    Trace {
        file: &'a str,
        #[source]
        fault: TraceFault,
    },
    /// The classes can't be linked, for another reason than being out of memory.
    #[error(transparent)]
    Link(#[source] LinkFault),
    /// The order has an entry that is no number of a main class, or there are no main classes.
    #[error("bad order")]
    Order,
    /// The steps are no decimal number from 1 to 100,000,000.
    #[error("bad number of steps")]
    Steps,
    /// The patience is no decimal number up to 1,000,000,000.
    #[error("bad patience")]
    Patience,
    /// The edition is neither 7 nor 8.
    #[error("bad edition")]
    Edition,
    /// A main class is unknown, there is none, or more than 16 are named.
    #[error("no main class, an unknown one, or more than 16")]
    Mains,
    /// A word that is to be explained is no code of a fault.
    #[error("no code of a fault")]
    Code,
    /// A thread of the machine can't be started.
    #[error("a thread of the machine can't be started")]
    Threads,
    /// Out of memory.
    #[error("out of memory")]
    Memory,
    /// The output can't be written.
    #[error("the output can't be written")]
    Output,
    /// The lines that say how threads ended can't be written to standard error, so nothing more is written there.
    #[error("standard error can't be written")]
    Lines,
}

impl Drop for Fault<'_> {
    fn drop(self) {
        match self {
            Fault::Words | Fault::Files | Fault::Order | Fault::Steps | Fault::Patience => {}
            Fault::Edition | Fault::Code => {}
            Fault::Io(_) => {}
            Fault::Jasmin { file: _, fault: _ } => {}
            Fault::Trace { file: _, fault: _ } => {}
            Fault::Link(_) => {}
            Fault::Mains | Fault::Threads | Fault::Memory | Fault::Output | Fault::Lines => {}
        }
    }
}

impl From<AllocError> for Fault<'_> {
    ghost from_gives = { λ _ fault. fault ≡ Memory };

    fn from(_e: AllocError) -> Self {
        Fault::Memory
    }
}

impl<T: Drop> From<AllocFailed<T>> for Fault<'_> {
    ghost from_gives = { λ _ fault. fault ≡ Memory };

    fn from(_e: AllocFailed<T>) -> Self {
        Fault::Memory
    }
}

impl Fault<'_> {
    /// The exit status: 2 for what the user can mend, 3 for what the machine refused.
    pub fn status(&self) -> u8
        ensures { result ≡ status_of self.now }
    {
        match self {
            Fault::Words | Fault::Files | Fault::Jasmin { .. } | Fault::Trace { .. } => 2,
            Fault::Order | Fault::Steps | Fault::Patience | Fault::Edition => 2,
            Fault::Link(_) | Fault::Mains | Fault::Code => 2,
            Fault::Io(_) | Fault::Threads | Fault::Memory | Fault::Output | Fault::Lines => 3,
        }
    }

    /// The line of a fault that names no file and no class; empty of one that does, and where nothing more is to be written.
    fn fixed_line(&self) -> &'static str
        ensures { result.now ≡ fixed_line_of self.now }
    {
        match self {
            Fault::Words => "cli: words\n",
            Fault::Files => "cli: files\n",
            Fault::Order => "cli: order\n",
            Fault::Steps => "cli: steps\n",
            Fault::Patience => "cli: patience\n",
            Fault::Edition => "cli: edition\n",
            Fault::Mains => "cli: mains\n",
            Fault::Code => "cli: code\n",
            Fault::Threads => "threads\n",
            Fault::Memory => "memory\n",
            Fault::Output => "io: output\n",
            Fault::Io(_) | Fault::Jasmin { .. } | Fault::Trace { .. } | Fault::Link(_) => "",
            Fault::Lines => "",
        }
    }

    /// Writes the one line that reports the fault. An `Err` means that it wasn't written whole: a shorter front of it was.
    pub fn tell<W: io::Write>(&self, err: &mut W) -> io::Result<()>
        ensures whole { OnOk result (Appends (W.contents err.old) (W.contents err.new) (fault_line self.now)) }
        ensures short { OnErr result (AppendsShort (W.contents err.old) (W.contents err.new) (fault_line self.now)) }
    {
        match self {
            Fault::Io(name) => tell_io(name, err),
            Fault::Jasmin { file, fault } => tell_jasmin(file, fault, err),
            Fault::Trace { file, fault } => tell_trace(file, fault, err),
            Fault::Link(fault) => tell_link(fault, err),
            _ => emit_all(err, &[self.fixed_line().as_bytes()]),
        }
    }
}

fn tell_io<W: io::Write>(name: &str, err: &mut W) -> io::Result<()>
    ensures whole { OnOk result (Appends (W.contents err.old) (W.contents err.new) (io_line name.now)) }
    ensures short { OnErr result (AppendsShort (W.contents err.old) (W.contents err.new) (io_line name.now)) }
{
    emit_all(
        err,
        &[b"io: ".as_slice(), name.as_bytes(), b"\n".as_slice()],
    )
}

/// Writes the line of a fault in a line of a file: what lies between the line's number and the fault's is `mark`.
fn tell_in_file<W: io::Write>(
    file: &str,
    line: usize,
    mark: &[u8],
    number: u8,
    err: &mut W,
) -> io::Result<()>
    ensures whole { OnOk result (Appends (W.contents err.old) (W.contents err.new) (file.now ++ codes ":" ++ decimal line ++ mark.now ++ decimal number ++ codes "\n")) }
    ensures short { OnErr result (AppendsShort (W.contents err.old) (W.contents err.new) (file.now ++ codes ":" ++ decimal line ++ mark.now ++ decimal number ++ codes "\n")) }
{
    let mut of_line = Buffer::new();
    let mut of_fault = Buffer::new();
    let line = of_line.format(line).as_bytes();
    let number = of_fault.format(number).as_bytes();
    let colon = b":".as_slice();
    let end = b"\n".as_slice();
    emit_all(err, &[file.as_bytes(), colon, line, mark, number, end])
}

fn tell_jasmin<W: io::Write>(file: &str, fault: &ReadFault, err: &mut W) -> io::Result<()>
    ensures whole { OnOk result (Appends (W.contents err.old) (W.contents err.new) (jasmin_line file.now fault.now)) }
    ensures short { OnErr result (AppendsShort (W.contents err.old) (W.contents err.new) (jasmin_line file.now fault.now)) }
{
    tell_in_file(file, fault.line, b": J", fault.kind.number(), err)
}

fn tell_trace<W: io::Write>(file: &str, fault: &TraceFault, err: &mut W) -> io::Result<()>
    ensures whole { OnOk result (Appends (W.contents err.old) (W.contents err.new) (trace_line file.now fault.now)) }
    ensures short { OnErr result (AppendsShort (W.contents err.old) (W.contents err.new) (trace_line file.now fault.now)) }
{
    tell_in_file(file, fault.line, b": L", fault.kind.number(), err)
}

/// The number in the code of a fault of linking.
fn link_number(kind: LinkFaultKind) -> u8
    ensures { result ≡ link_number_of kind }
{
    match kind {
        LinkFaultKind::RepeatedName => 1,
        LinkFaultKind::UnknownSupertype => 2,
        LinkFaultKind::Cycle => 3,
        LinkFaultKind::SuperclassKind => 4,
        LinkFaultKind::InterfaceKind => 5,
        LinkFaultKind::ReservedName => 6,
        LinkFaultKind::RepeatedMember => 7,
        LinkFaultKind::TooMany => 8,
        LinkFaultKind::NoMemory => 9,
    }
}

fn tell_link<W: io::Write>(fault: &LinkFault, err: &mut W) -> io::Result<()>
    ensures whole { OnOk result (Appends (W.contents err.old) (W.contents err.new) (link_line fault.now)) }
    ensures short { OnErr result (AppendsShort (W.contents err.old) (W.contents err.new) (link_line fault.now)) }
{
    let mut of_fault = Buffer::new();
    let start = b"link: H".as_slice();
    let number = of_fault.format(link_number(fault.kind)).as_bytes();
    let end = b"\n".as_slice();
    emit_all(
        err,
        &[start, number, b" ".as_slice(), fault.class.as_slice(), end],
    )
}
