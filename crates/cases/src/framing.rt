//! What is around cases, and the answer that a head demands of a case there.

use crate::text::Text;
use std::str::from_utf8;

/// What comes before and after a case.
pub(crate) type Frame<'a> = (&'a [u8], &'a [u8]);

/// The frame of a body with three dots.
pub(crate) fn frame_of(body: &[u8]) -> Option<Frame<'_>> {
    let (before, after) = from_utf8(body).ok()?.split_once("...")?;
    Some((before.as_bytes(), after.as_bytes()))
}

/// A body without its last line feed.
pub(crate) fn without_line_feed(body: &[u8]) -> &[u8] {
    body.strip_suffix(b"\n").unwrap_or(body)
}

/// Adds the case in its frame.
pub(crate) fn push_framed(text: &mut Text, frame: Option<Frame<'_>>, case: &[u8]) {
    match frame {
        Some((before, after)) => {
            text.push(before);
            text.push(without_line_feed(case));
            text.push(after);
        }
        None => text.push(case),
    }
}

/// Adds the answer that a head demands of a case in its frame. A head that names no line means the first of the case.
pub(crate) fn push_wanted(text: &mut Text, head: &str, frame: Option<Frame<'_>>) {
    text.push(head.as_bytes());
    if head == "read" || head.contains(" in line ") {
        return;
    }
    let mut line: usize = 1;
    if let Some((before, _)) = frame {
        for byte in before {
            if *byte == b'\n' {
                line = line.saturating_add(1);
            }
        }
    }
    text.push(b" in line ");
    text.show(&line);
}
