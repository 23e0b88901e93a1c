//! Rows of words, with texts.
ghost use Rattle.std.specs.Prelude.{◌≡◌, ℕ, ◌+◌, ◌-◌, ◌*◌, ◌++◌, ◌∷◌, [], ◌<◌, ◌≤◌, ◌^◌, length, slice_index, slice_get, option_map, IfOk, OnOk, OnErr, IsTrue, ◌↔◌, vec_len, vec_capacity, option_copied};
ghost use Rattle.event_rows.specs.WordList.{blocks_for};
ghost use Rattle.event_rows.specs.Rows.{RowList, text_at, AreRising};

use crate::blocks::Blocks;
use std::alloc::{AllocError, Global};
use std::marker::Model;

/// A text, and the number of the row that it belongs to.
#[derive(Drop)]
pub(crate) struct RowText<T> {
    row: usize,
    text: T,
}

/// Rows of equally many words, each with a text or none, that grow and shrink at their end.
///
/// Contracts see how many words a row has (`width`), the rows, and how many more go in without memory (`room`). These tell
/// how many blocks there are.
pub struct Rows<T: Drop> {
    /// The words of the rows.
    blocks: Blocks,
    /// The texts of those rows that have one, in the order of the rows.
    texts: Vec<RowText<T>>,
}

impl<T: Drop> Drop for Rows<T> {
    fn drop(self) {
        let Self {
            blocks: _,
            texts: _,
        } = self;
    }
}

impl<T: Drop> Model for Rows<T> {
    ghost use Rattle.event_rows.specs.Rows.{RowList, AreRowsWithTexts, rows_of};

    ghost Value = { RowList T };

    ghost view = { λ r. record { width = r.blocks.width; rows = rows_of r.blocks r.texts.items; room = r.blocks.room } };

    ghost invariant = { λ r. AreRowsWithTexts r.blocks r.texts };
}

impl<T: Drop> Rows<T> {
    /// No rows, without room. A row has `width` words, at least one and at most 4,096. An `Err` means out of memory.
    pub fn new(alloc: Global, width: usize) -> Result<Self, AllocError>
        requires some { 0 < width }
        requires few { width ≤ 2 ^ 12 }
        ensures { IfOk result (λ made. made ≡ record { width = width; rows = []; room = 0 }) }
    {
        Ok(Rows {
            blocks: Blocks::new(alloc, width),
            texts: Vec::new(alloc),
        })
    }

    /// Makes room for `count` more rows and as many texts, beside the room that is left. An `Err` means out of memory and
    /// changes nothing. There are at most 2^58 rows, with the room.
    pub fn reserve(&mut self, count: usize) -> Result<(), AllocError>
        requires { length self.old.rows + self.old.room + count ≤ 2 ^ 58 }
        ensures ok { OnOk result (self.new ≡ record self.old { room = self.old.room + count }) }
        ensures err { OnErr result (self.new ≡ self.old) }
        ensures refused { OnErr result (0 < count) }
    {
        self.texts.reserve(self.blocks.room() + count)?;
        self.blocks.reserve(count)?;
        Ok(())
    }

    /// Adds a row at the end, into the room. Takes no memory.
    #[inline]
    pub fn push(&mut self, words: &[u64], text: Option<T>)
        requires width { length words.now ≡ self.old.width }
        requires room { 0 < self.old.room }
        ensures rows { self.new.rows ≡ self.old.rows ++ record { words = words.now; text = text } ∷ [] }
        ensures width { self.new.width ≡ self.old.width }
        ensures room { self.new.room + 1 ≡ self.old.room }
    {
        push_text(&mut self.texts, self.blocks.len(), text);
        self.blocks.push(words);
    }

    /// Takes the last row out: writes its words into `words`, and answers its text.
    #[inline]
    pub fn pop(&mut self, words: &mut [u64]) -> Option<T>
        requires width { length words.old ≡ self.old.width }
        requires some { 0 < length self.old.rows }
        ensures rows { self.old.rows ≡ self.new.rows ++ record { words = words.new; text = result } ∷ [] }
        ensures width { self.new.width ≡ self.old.width }
        ensures room { self.new.room ≡ self.old.room }
    {
        self.blocks.pop(words);
        pop_text(&mut self.texts, self.blocks.len())
    }

    /// The row at that index: writes its words into `words`, and answers its text.
    #[inline]
    pub fn get(&self, index: usize, words: &mut [u64]) -> Option<&T>
        requires width { length words.old ≡ self.now.width }
        requires within { index < length self.now.rows }
        ensures { slice_get self.now.rows index ≡ Some (record { words = words.new; text = option_copied result }) }
    {
        self.blocks.get(index, words);
        find_text(&self.texts, index)
    }

    /// That word of the last row, if there is a row.
    #[inline]
    pub fn last(&self, column: usize) -> Option<u64>
        requires { column < self.now.width }
        ensures { result ≡ option_map (λ row. slice_index row.words column) (slice_get self.now.rows (length self.now.rows - 1)) }
    {
        self.blocks.last(column)
    }

    /// How many words a row has.
    #[inline]
    pub fn width(&self) -> usize
        ensures { result ≡ self.now.width }
    {
        self.blocks.width()
    }

    /// How many rows there are.
    #[inline]
    pub fn len(&self) -> usize
        ensures { result ≡ length self.now.rows }
    {
        self.blocks.len()
    }

    /// Whether there is no row.
    #[inline]
    pub fn is_empty(&self) -> bool
        ensures { IsTrue result ↔ self.now.rows ≡ [] }
    {
        self.blocks.is_empty()
    }

    /// How many more rows go in without memory.
    #[inline]
    pub fn room(&self) -> usize
        ensures { result ≡ self.now.room }
    {
        self.blocks.room()
    }

    /// How many blocks of 1,024 words there are, with those that are kept ahead. Each 1,024 rows lie in one piece, which counts as one block
    /// for each word of a row.
    pub fn blocks(&self) -> usize
        ensures { result ≡ self.now.width * blocks_for (length self.now.rows + self.now.room) }
    {
        self.width() * self.blocks.count()
    }
}

/// Adds the text of that row, if it has one.
#[inline]
fn push_text<T: Drop>(texts: &mut Vec<RowText<T>>, row: usize, text: Option<T>)
    requires rising { AreRising 0 row texts.old.items }
    requires room { vec_len texts.old < vec_capacity texts.old }
    ensures text { text_at texts.new.items row ≡ text }
    ensures others { (other : ℕ) → other < row → text_at texts.new.items other ≡ text_at texts.old.items other }
    ensures rising { AreRising 0 (row + 1) texts.new.items }
    ensures len { vec_len texts.new ≤ vec_len texts.old + 1 }
    ensures room { vec_capacity texts.new ≡ vec_capacity texts.old }
{
    if let Some(text) = text {
        texts.push_reserved(RowText { row, text });
    }
}

/// Takes the last text out, if it belongs to that row.
#[inline]
fn pop_text<T: Drop>(texts: &mut Vec<RowText<T>>, row: usize) -> Option<T>
    requires { AreRising 0 (row + 1) texts.old.items }
    ensures text { result ≡ text_at texts.old.items row }
    ensures others { (other : ℕ) → other < row → text_at texts.new.items other ≡ text_at texts.old.items other }
    ensures rising { AreRising 0 row texts.new.items }
    ensures len { vec_len texts.new ≤ vec_len texts.old }
    ensures room { vec_capacity texts.new ≡ vec_capacity texts.old }
{
    let Some(last) = texts.last() else {
        return None;
    };
    if last.row != row {
        return None;
    }
    let RowText { row: _, text } = texts.take_last();
    Some(text)
}

/// The text that belongs to that row, found by halves.
fn find_text<T: Drop>(texts: &[RowText<T>], row: usize) -> Option<&T>
    requires { (high : ℕ) × AreRising 0 high texts.now }
    ensures { option_copied result ≡ text_at texts.now row }
{
    let at = texts.partition_point(|text| text.row < row);
    let Some(found) = texts.get(at) else {
        return None;
    };
    if found.row != row {
        return None;
    }
    Some(&found.text)
}
