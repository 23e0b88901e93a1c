//! What came of the cases.

use crate::text::Text;
use std::alloc::Global;

/// Counts the cases that passed and failed, and says for each that failed what was wanted and what came.
///
/// Once memory is refused, to the report or to a text of a case, nothing more is said.
#[derive(Drop)]
pub(crate) struct Report<'a> {
    /// The name of the file whose cases are judged.
    pub(crate) file: &'a str,
    /// The cases of that file.
    cases: usize,
    passed: usize,
    failed: usize,
    /// How many runs were made with a stream that stops.
    pub(crate) stopped: usize,
    /// What the report says.
    pub(crate) text: Text,
    /// Of the case that is judged: what it is about, where that isn't the body of a part alone.
    pub(crate) given: Text,
    /// Of that case: the answer that is wanted.
    pub(crate) wanted: Text,
    /// Of that case: the answer that came.
    pub(crate) came: Text,
}

/// Adds a text: after a space where it is one line, else as lines of their own, further in.
fn push_block(text: &mut Text, block: &[u8]) {
    if !block.contains(&b'\n') {
        text.push(b" ");
        text.push(block);
        return;
    }
    text.push(b"\n    ");
    for byte in block {
        text.push(&[*byte]);
        if *byte == b'\n' {
            text.push(b"    ");
        }
    }
    text.push(b"\n");
}

impl<'a> Report<'a> {
    /// A report of no case.
    pub(crate) fn new(alloc: Global) -> Report<'a> {
        Report {
            file: "",
            cases: 0,
            passed: 0,
            failed: 0,
            stopped: 0,
            text: Text::new(alloc),
            given: Text::new(alloc),
            wanted: Text::new(alloc),
            came: Text::new(alloc),
        }
    }

    /// Reports how many cases the file has.
    pub(crate) fn ends(&mut self) {
        self.text.push(self.file.as_bytes());
        self.text.push(b": ");
        self.text.show(&self.cases);
        self.text.push(b" cases\n");
        self.cases = 0;
    }

    /// Adds that another answer was wanted at a line of the file than the one that came.
    fn push_failure(&mut self, line: usize) {
        self.text.push(self.file.as_bytes());
        self.text.push(b":");
        self.text.show(&line);
        self.text.push(b": wanted");
        push_block(&mut self.text, &self.wanted.bytes);
        self.text.push(b", came");
        push_block(&mut self.text, &self.came.bytes);
        self.text.push(b"\n");
    }

    /// The case at this line of the file passed where the answer that came is the one that is wanted. Its texts make room for those
    /// of the next.
    pub(crate) fn judges(&mut self, line: usize) {
        if self.given.is_refused || self.wanted.is_refused || self.came.is_refused {
            self.text.is_refused = true;
        }
        self.cases = self.cases.saturating_add(1);
        if self.wanted.bytes.as_slice() == self.came.bytes.as_slice() {
            self.passed = self.passed.saturating_add(1);
        } else {
            self.failed = self.failed.saturating_add(1);
            self.push_failure(line);
        }
        self.given.bytes.clear();
        self.wanted.bytes.clear();
        self.came.bytes.clear();
    }

    /// The case at this line of the file failed: another answer was wanted than the one that came. What is no case has line 0.
    pub(crate) fn fails(&mut self, line: usize, wanted: &[u8], came: &[u8]) {
        self.wanted.push(wanted);
        self.came.push(came);
        self.judges(line);
    }

    /// Reports how many cases passed and failed, and, where it `stops`, first how many runs were stopped. Answers whether all passed.
    pub(crate) fn closes(&mut self, stops: bool) -> bool {
        if stops {
            self.text.show(&self.stopped);
            self.text.push(b" runs stopped\n");
        }
        self.text.show(&self.passed);
        self.text.push(b" passed, ");
        self.text.show(&self.failed);
        self.text.push(b" failed\n");
        self.failed == 0 && !self.text.is_refused
    }
}
