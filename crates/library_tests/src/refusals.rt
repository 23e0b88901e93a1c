//! What `serve` answers where a file or the output is refused in a way that no file on a disk shows for certain.

use cli::{Named, NamedFault, serve};
use std::alloc::Global;
use std::io;
use std::sync::Wait;
use std::thread::Threads;

/// A class whose `main` prints, and then ends by a throwable.
const THROWING: &[u8] =
    b".class Solo\n.method static main([Ljava/lang/String;)V\n.limit stack 2\ngetstatic java/lang/System/out Ljava/io/PrintStream;\niconst_1\ninvokevirtual java/io/PrintStream/println(I)V\naconst_null\nathrow\n.end method";

/// Files that each hold a class Solo, but for `None.j`, which isn't there, `empty`, and `broken off`, the trace of a run that was. That of
/// `throwing.j` is [`THROWING`]. Memory is refused for reading `starved.j` and for writing `starved`, and `locked` can't be written.
#[derive(Drop)]
pub(crate) struct RefusingFiles {
    pub(crate) is_written: bool,
}

impl Named for RefusingFiles {
    fn read(&mut self, alloc: Global, name: &str, most: usize) -> Result<Vec<u8>, NamedFault> {
        if name == "None.j" {
            return Err(NamedFault::Io);
        }
        if name == "starved.j" {
            return Err(NamedFault::Memory);
        }
        let text = if name == "empty" {
            b"".as_slice()
        } else if name == "broken off" {
            b"0 t0 step6 Solo\n1 t0 step9 Solo\n".as_slice()
        } else if name == "throwing.j" {
            THROWING
        } else {
            b".class Solo".as_slice()
        };
        match Vec::from_slice(alloc, &text[..text.len().min(most)]) {
            Ok(bytes) => Ok(bytes),
            Err(_) => Err(NamedFault::Memory),
        }
    }

    fn write(&mut self, name: &str, _bytes: &[u8]) -> Result<(), NamedFault> {
        if name == "locked" {
            return Err(NamedFault::Io);
        }
        if name == "starved" {
            return Err(NamedFault::Memory);
        }
        self.is_written = true;
        Ok(())
    }
}

/// A writer that is full.
#[derive(Drop)]
struct Full;

impl io::Write for Full {
    fn write(&mut self, _bytes: &[u8]) -> io::Result<usize> {
        Err(io::Error::from(io::ErrorKind::StorageFull))
    }

    fn flush(&mut self) -> io::Result<()> {
        Err(io::Error::from(io::ErrorKind::StorageFull))
    }
}

/// [`serve`] with nothing promised, over any files and streams: of those at hand its contract is slow to state.
fn serve_with<R: Threads + Wait + Sync, N: Named, O: io::Write, E: io::Write>(
    rt: &R,
    alloc: Global,
    words: &[&str],
    files: &mut N,
    out: &mut O,
    err: &mut E,
) -> u8 {
    serve(rt, alloc, words, files, out, err)
}

/// Whether these words, with this writer for the output, are answered by status 3 and this line, and no file is written.
fn is_refused<R: Threads + Wait + Sync, O: io::Write>(
    rt: &R,
    alloc: Global,
    words: &[&str],
    out: &mut O,
    line: &[u8],
) -> bool {
    let mut files = RefusingFiles { is_written: false };
    let mut err = Vec::new(alloc);
    let status = serve_with(rt, alloc, words, &mut files, out, &mut err);
    status == 3 && err.as_slice() == line && !files.is_written
}

const BY_FILES: &[(&[&str], &[u8])] = &[
    (
        &[
            "jinit",
            "check",
            "--mains",
            "Solo",
            "--trace",
            "starved.j",
            "Solo.j",
        ],
        b"memory\n",
    ),
    (
        &["jinit", "run", "--mains", "Solo", "starved.j", "None.j"],
        b"memory\n",
    ),
    (&["jinit", "needs", "starved.j"], b"memory\n"),
    (
        &[
            "jinit", "run", "--mains", "Solo", "--trace", "starved", "Solo.j",
        ],
        b"memory\n",
    ),
    (
        &[
            "jinit", "run", "--mains", "Solo", "--trace", "locked", "Solo.j",
        ],
        b"io: locked\n",
    ),
];

/// Nothing is written on the output.
#[test]
fn refused_by_files(rt: HostRuntime) {
    for (place, (words, line)) in BY_FILES.iter().enumerate() {
        let mut out = Vec::new(rt.alloc());
        assert!(rt;
            is_refused(&rt, rt.alloc(), words, &mut out, line) && out.is_empty(),
            "row {place}"
        );
    }
}

const WITH_OUTPUT: &[&[&str]] = &[
    &[
        "jinit", "check", "--mains", "Solo", "--trace", "empty", "Solo.j",
    ],
    &[
        "jinit", "run", "--mains", "Solo", "--trace", "solo", "Solo.j",
    ],
    &["jinit", "needs", "Solo.j"],
    &["jinit", "needs", "--help"],
    &["jinit", "--help"],
    &["jinit", "--version"],
];

#[test]
fn refused_by_the_output(rt: HostRuntime) {
    for (place, words) in WITH_OUTPUT.iter().enumerate() {
        assert!(rt;
            is_refused(&rt, rt.alloc(), words, &mut Full, b"io: output\n"),
            "row {place}"
        );
    }
}

/// Words, and what is on the output where no line can be written on standard error.
const WITHOUT_LINES: &[(&[&str], &[u8])] = &[
    // `t0: java/lang/NullPointerException`
    (&["jinit", "run", "--mains", "Solo", "throwing.j"], b"1\n"),
    // `cli: mains`
    (&["jinit", "run", "Solo.j"], b""),
    // `cli: edition`: a word with a space, which no case of a file can have
    (&["jinit", "needs", "--edition", "8 ", "Solo.j"], b""),
    // What `clap` says.
    (&["jinit"], b""),
];

/// Whether these words come to status 3 where no line can be written on standard error, with this output and no file written.
fn is_cut_short<R: Threads + Wait + Sync>(
    rt: &R,
    alloc: Global,
    words: &[&str],
    output: &[u8],
) -> bool {
    let mut files = RefusingFiles { is_written: false };
    let mut out = Vec::new(alloc);
    let status = serve_with(rt, alloc, words, &mut files, &mut out, &mut Full);
    status == 3 && out.as_slice() == output && !files.is_written
}

#[test]
fn refused_by_standard_error(rt: HostRuntime) {
    for (place, (words, output)) in WITHOUT_LINES.iter().enumerate() {
        assert!(rt; is_cut_short(&rt, rt.alloc(), words, output), "row {place}");
    }
}
