//! Times of reading a part of a file, beside the same of a file of the same shape with fewer parts; and of reading a byte of
//! code, beside one pass over the bytes of the same file, which counts the ends of its lines.

use crate::bench::files::{self, Files};
use crate::bench::harness::{Failure, Row, Watch};
use crate::bench::sample::Sample;
use crate::bench::shapes::{ARITHMETIC, CALLS, FIELDS, MIXED, STRINGS, SWITCHES};
use jasmin_reader::read_class;
use std::alloc::Global;
use std::rt::Clock;

/// What a file has many of: its parts are between a front and a back.
pub(crate) struct Part {
    pub front: &'static [u8],
    /// `#` is the number of the part, and `@` how many parts are left.
    pub text: &'static [u8],
    pub back: &'static [u8],
    /// Whether the size of the file is about so many bytes, and not so many parts.
    pub is_of_bytes: bool,
}

const LABELS: &Part = &Part {
    front: b".class A\n.method static m()V\n",
    text: b"L#:\n",
    back: b"return\n.end method\n",
    is_of_bytes: false,
};

const WORDS: &Part = &Part {
    front: b".class",
    text: b" public",
    back: b" A\n",
    is_of_bytes: false,
};

const COMMENTS: &Part = &Part {
    front: b".class A\n",
    text: b"; a comment of some length\n",
    back: b"",
    is_of_bytes: false,
};

// At most 16,384 keys count in a method.
const KEYS: &Part = &Part {
    front: b".class A\n.method static m()V\nlookupswitch\n",
    text: b"@ : a\n",
    back: b"default : a\na:\nreturn\n.end method\n",
    is_of_bytes: false,
};

// At most 1,024 methods count in a class.
const METHODS: &Part = &Part {
    front: b".class A\n",
    text: b".method static m#()V\niconst_1\npop\nreturn\n.end method\n",
    back: b"",
    is_of_bytes: false,
};

/// Each part twice and four times as many parts as the first file; then code of about so many bytes.
pub(crate) const ROWS: &[Row] = &[
    Row {
        what: "labels of one method, one read, beside the first",
        sample: Sample::Read(LABELS),
        sizes: &[2, 4],
        most: 10_000_000,
        unit: Sample::Read(LABELS),
        unit_size: Some(1),
        repeats: 4,
    },
    Row {
        what: "access words of one line, one read, beside the first",
        sample: Sample::Read(WORDS),
        sizes: &[2, 4],
        most: 10_000_000,
        unit: Sample::Read(WORDS),
        unit_size: Some(1),
        repeats: 4,
    },
    Row {
        what: "comments, one read, beside the first",
        sample: Sample::Read(COMMENTS),
        sizes: &[2, 4],
        most: 10_000_000,
        unit: Sample::Read(COMMENTS),
        unit_size: Some(1),
        repeats: 4,
    },
    Row {
        what: "falling keys of one lookupswitch, one read, beside the first",
        sample: Sample::Read(KEYS),
        sizes: &[2, 4],
        most: 4_000,
        unit: Sample::Read(KEYS),
        unit_size: Some(1),
        repeats: 4,
    },
    Row {
        what: "methods, one read, beside the first",
        sample: Sample::Read(METHODS),
        sizes: &[2, 4],
        most: 256,
        unit: Sample::Read(METHODS),
        unit_size: Some(1),
        repeats: 4,
    },
    Row {
        what: "bytes of methods of arithmetic, one read, beside a pass",
        sample: Sample::Read(ARITHMETIC),
        sizes: &[65_536],
        most: 1,
        unit: Sample::Pass(ARITHMETIC),
        unit_size: None,
        repeats: 4,
    },
    Row {
        what: "bytes of methods that call, one read, beside a pass",
        sample: Sample::Read(CALLS),
        sizes: &[65_536],
        most: 1,
        unit: Sample::Pass(CALLS),
        unit_size: None,
        repeats: 4,
    },
    Row {
        what: "bytes of methods with fields, one read, beside a pass",
        sample: Sample::Read(FIELDS),
        sizes: &[65_536],
        most: 1,
        unit: Sample::Pass(FIELDS),
        unit_size: None,
        repeats: 4,
    },
    Row {
        what: "bytes of methods with switches, one read, beside a pass",
        sample: Sample::Read(SWITCHES),
        sizes: &[65_536],
        most: 1,
        unit: Sample::Pass(SWITCHES),
        unit_size: None,
        repeats: 4,
    },
    Row {
        what: "bytes of methods with strings, one read, beside a pass",
        sample: Sample::Read(STRINGS),
        sizes: &[65_536],
        most: 1,
        unit: Sample::Pass(STRINGS),
        unit_size: None,
        repeats: 4,
    },
    Row {
        what: "bytes of long methods with all of these, one read, beside a pass",
        sample: Sample::Read(MIXED),
        sizes: &[65_536, 1_048_576],
        most: 1,
        unit: Sample::Pass(MIXED),
        unit_size: None,
        repeats: 4,
    },
];

// A file of so many parts, or of about so many bytes.
fn file_of(alloc: Global, part: &Part, size: usize) -> Result<Vec<u8>, Failure> {
    let parts = if part.is_of_bytes {
        (size / part.text.len().max(1)).saturating_add(1)
    } else {
        size
    };
    let mut files = Files::new(alloc);
    files.add(part.front, 0, 0);
    for number in 0..parts {
        files.add(part.text, number, parts.saturating_sub(number));
    }
    files.add(part.back, 0, 0);
    files.text()
}

/// How long a part of a file of that size is read, or a byte of it.
pub(crate) fn time(
    rt: &impl Clock,
    alloc: Global,
    part: &Part,
    size: usize,
) -> Result<u128, Failure> {
    let file = file_of(alloc, part, size)?;
    let parts = if part.is_of_bytes { file.len() } else { size };
    let watch = Watch::start(rt);
    match read_class(alloc, &file) {
        Ok(_class) => watch.share(rt, parts),
        Err(_) => Err(Failure::Program),
    }
}

/// How long one pass takes a byte of that file.
pub(crate) fn pass_time(
    rt: &impl Clock,
    alloc: Global,
    part: &Part,
    size: usize,
) -> Result<u128, Failure> {
    files::pass_time(rt, &file_of(alloc, part, size)?)
}
