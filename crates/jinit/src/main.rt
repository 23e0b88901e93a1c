//! The program `jinit`: the machine's words, files and streams, handed to [`cli::serve`].
#![tactic(auto)]

ghost use Rattle.std.specs.Prelude.{◌≤◌};

use cli::{MachineFiles, Named, serve};
use std::alloc::{AllocError, Global};
use std::io::Write;
use std::process::ExitCode;
use std::sync::Wait;
use std::thread::Threads;
use std::{env, io};

/// Reports why the words of the command line can't be had, and answers the exit status: being out of memory, or a
/// word that isn't text.
fn tell_no_words<E: Write>(error: &io::Error, err: &mut E) -> u8
    ensures { result ≤ 3 }
{
    match error.kind() {
        io::ErrorKind::OutOfMemory => {
            let _ = writeln!(err, "memory");
            3
        }
        _ => match writeln!(err, "error: a word of the command line isn't UTF-8") {
            Ok(()) => 2,
            Err(_) => 3,
        },
    }
}

/// The words as texts.
fn texts_of(alloc: Global, args: &[String]) -> Result<Vec<&str>, AllocError> {
    let mut words = Vec::new(alloc);
    for arg in args {
        words.push(arg.as_str())?;
    }
    Ok(words)
}

/// The words of the command line.
fn args_of(rt: &HostRuntime) -> io::Result<Vec<String>> {
    let args = env::args(rt)?.collect(rt.alloc())?;
    Ok(args)
}

/// Does what the words of the command line ask for, and answers the exit status. An `Err` means out of memory. Nothing is promised, and the
/// files are any: of the machine's, the contract of [`serve`] is slow to state.
fn answer<R: Threads + Wait + Sync, N: Named, O: Write, E: Write>(
    rt: &R,
    alloc: Global,
    args: &[String],
    files: &mut N,
    out: &mut O,
    err: &mut E,
) -> io::Result<u8> {
    let words = texts_of(alloc, args)?;
    Ok(serve(rt, alloc, &words, files, out, err))
}

fn main(rt: HostRuntime) -> ExitCode {
    let mut out = rt.stdout();
    let mut err = rt.stderr();
    let mut files = MachineFiles::new(&rt, rt.alloc(), rt.stdin(), out, err);
    let answered = match args_of(&rt) {
        Ok(args) => answer(&rt, rt.alloc(), &args, &mut files, &mut out, &mut err),
        Err(error) => Err(error),
    };
    let status = match answered {
        Ok(status) => status,
        Err(error) => tell_no_words(&error, &mut err),
    };
    ExitCode::from(status)
}
