//! Words, and rows of words with texts, in blocks.

use event_rows::{Rows, Words};
use std::process::Abort;
use std::test::Fail;

/// Adds a word, with room for it alone.
fn add_word(rt: &impl Abort, words: &mut Words, word: u64) -> Result<(), Fail> {
    assert!(rt; words.len() < 5_000 && words.room() < 5_000);
    words.reserve(1)?;
    assert!(rt; words.room() > 0);
    words.push(word);
    Ok(())
}

/// Whether the word at that index is this one.
fn has_word(words: &Words, index: usize, word: u64) -> bool {
    index < words.len() && words.get(index) == word
}

/// Whether these are the last words, one after the other from the end, with the numbers of blocks after each of them is gone.
fn take_out(words: &mut Words, last: &[(u64, usize)]) -> bool {
    for (word, blocks) in last {
        if words.pop() != Some(*word) || words.blocks() != *blocks {
            return false;
        }
    }
    true
}

#[test]
fn words_lie_in_blocks(rt: HostRuntime) -> Result<(), Fail> {
    let mut words = Words::new(rt.alloc());
    assert!(rt; words.is_empty() && words.last().is_none() && words.blocks() == 0);
    for number in 0..1_025 {
        add_word(&rt, &mut words, number)?;
        assert_eq!(rt; words.blocks(), if number < 1_024 { 1 } else { 2 });
    }
    assert_eq!(rt; words.len(), 1_025);
    assert_eq!(rt; words.last(), Some(1_024));
    assert!(rt;
        has_word(&words, 0, 0) && has_word(&words, 1_023, 1_023) && has_word(&words, 1_024, 1_024)
    );
    assert!(rt; take_out(&mut words, &[(1_024, 1), (1_023, 1)]));
    for number in 0..1_023 {
        assert_eq!(rt; words.blocks(), 1);
        assert_eq!(rt; words.pop(), Some(1_022 - number));
    }
    assert_eq!(rt; words.blocks(), 0);
    assert!(rt; words.pop().is_none());
    Ok(())
}

#[test]
fn room_is_given_up(rt: HostRuntime) -> Result<(), Fail> {
    let mut words = Words::new(rt.alloc());
    add_word(&rt, &mut words, 7)?;
    assert!(rt; words.len() < 5_000 && words.room() < 5_000);
    words.reserve(2_048)?;
    assert_eq!(rt; words.blocks(), 3);
    assert_eq!(rt; words.room(), 2_048);
    words.release(1_025);
    assert_eq!(rt; words.blocks(), 1);
    assert_eq!(rt; words.room(), 1_023);
    words.release(1_023);
    assert_eq!(rt; words.blocks(), 1);
    assert!(rt; take_out(&mut words, &[(7, 0)]));
    Ok(())
}

/// The text of that row: each seventh has one.
fn text_of(row: u64) -> Option<u64> {
    if row % 7 == 3 { Some(row / 2) } else { None }
}

/// Adds rows of three words, some with a text, with room for each alone, up to so many.
fn add_rows(rt: &impl Abort, rows: &mut Rows<u64>, count: u64) -> Result<(), Fail> {
    for row in 0..count {
        assert!(rt; rows.len() < 5_000 && rows.room() < 5_000 && rows.width() == 3);
        rows.reserve(1)?;
        assert!(rt; rows.room() > 0 && row < 5_000);
        rows.push(&[row, row / 3, 2 * row], text_of(row));
    }
    Ok(())
}

/// Whether the row with that number is as it was added.
fn has_row(rows: &Rows<u64>, row: u64) -> bool {
    let mut words = [0; 3];
    row < 5_000
        && rows.width() == 3
        && (row as usize) < rows.len()
        && rows.get(row as usize, &mut words).copied() == text_of(row)
        && words == [row, row / 3, 2 * row]
}

/// Whether the last row has that number; it is taken out.
fn take_row(rows: &mut Rows<u64>, row: u64) -> bool {
    let mut words = [0; 3];
    row < 5_000
        && rows.width() == 3
        && !rows.is_empty()
        && rows.last(0) == Some(row)
        && rows.last(2) == Some(2 * row)
        && rows.pop(&mut words) == text_of(row)
        && words == [row, row / 3, 2 * row]
}

#[test]
fn rows_are_kept_with_their_texts(rt: HostRuntime) -> Result<(), Fail> {
    let mut rows = Rows::new(rt.alloc(), 3)?;
    assert!(rt; rows.is_empty() && rows.blocks() == 0 && rows.room() == 0);
    add_rows(&rt, &mut rows, 2_050)?;
    assert_eq!(rt; rows.len(), 2_050);
    assert_eq!(rt; rows.blocks(), 9);
    for row in 0..2_050 {
        assert!(rt; has_row(&rows, row));
    }
    for row in 0..2_050 {
        let left = 2_049 - row;
        assert!(rt; take_row(&mut rows, left));
        let blocks = if left > 2_048 {
            9
        } else if left > 1_024 {
            6
        } else if left > 0 {
            3
        } else {
            0
        };
        assert_eq!(rt; rows.blocks(), blocks);
    }
    assert!(rt; rows.is_empty());
    Ok(())
}
