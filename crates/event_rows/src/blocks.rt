//! Rows of equally many words, in blocks.
ghost use Rattle.std.specs.Prelude.{◌≡◌, ◌+◌, ◌-◌, ◌*◌, ◌/◌, ◌++◌, [], ◌<◌, ◌≤◌, ◌^◌, length, slice_index, IfSome, IfNone, OnOk, OnErr, IsTrue, ◌↔◌, vec_len, vec_capacity};
ghost use Rattle.std.specs.List.{All};
ghost use Rattle.event_rows.specs.Blocks.{IsBlock, words_in, words_at};
ghost use Rattle.event_rows.specs.Laid.{AreBlocks, AreLaid};
ghost use Rattle.event_rows.specs.WordList.{blocks_for};

use crate::BLOCK_WORDS;
use std::alloc::{AllocError, Global};
use std::marker::Model;
use std::mem;

/// Rows of `width` words that grow and shrink at their end, side by side: a block has [`BLOCK_WORDS`] rows.
///
/// Contracts see the words of all rows (`items`), how many rows they are (`len`) and how many more go in without memory (`room`).
pub(crate) struct Blocks {
    /// How many words a row has.
    width: usize,
    /// How many rows there are. The blocks tell it too, but only by a division by the width.
    len: usize,
    /// How many rows there may be before the list takes memory.
    capacity: usize,
    /// The block that is being filled. It has a row if there is one at all, and takes no memory where `capacity` is 0.
    tail: Vec<u64>,
    /// The blocks before it, each with all its rows.
    full: Vec<Vec<u64>>,
    /// The blocks that are kept ahead, all empty.
    spare: Vec<Vec<u64>>,
}

impl Drop for Blocks {
    fn drop(self) {
        let Self {
            width: _,
            len: _,
            capacity: _,
            tail: _,
            full: _,
            spare: _,
        } = self;
    }
}

impl Model for Blocks {
    ghost use Rattle.event_rows.specs.Blocks.{BlockList};

    ghost Value = { BlockList };

    ghost use Rattle.event_rows.specs.Laid.{block_list, AreLaid};

    ghost view = { block_list };

    ghost invariant = { λ b. AreLaid b.width b.len b.full b.tail b.spare b.capacity };
}

impl Blocks {
    /// No rows, without room. Takes no memory.
    pub(crate) fn new(alloc: Global, width: usize) -> Self
        requires some { 0 < width }
        requires few { width ≤ 2 ^ 12 }
        ensures { result ≡ record { width = width; len = 0; items = []; room = 0 } }
    {
        Blocks {
            width,
            len: 0,
            capacity: 0,
            tail: Vec::new(alloc),
            full: Vec::new(alloc),
            spare: Vec::new(alloc),
        }
    }

    /// Makes room for `count` more rows. An `Err` means out of memory, where a block more is needed, and changes nothing.
    #[inline]
    pub(crate) fn reserve(&mut self, count: usize) -> Result<(), AllocError>
        requires { self.old.len + self.old.room + count ≤ 2 ^ 58 }
        ensures ok { OnOk result (self.new ≡ record self.old { room = self.old.room + count }) }
        ensures err { OnErr result (self.new ≡ self.old) }
        ensures refused { OnErr result (0 < count) }
        ensures block { OnErr result (BLOCK_WORDS * blocks_for (self.old.len + self.old.room) < self.old.len + self.old.room + count) }
    {
        let capacity = self.capacity + count;
        if BLOCK_WORDS * self.count() < capacity {
            return self.grow(count);
        }
        self.capacity = capacity;
        Ok(())
    }

    /// The same where the room needs more blocks.
    #[cold]
    #[inline(never)]
    fn grow(&mut self, count: usize) -> Result<(), AllocError>
        requires more { BLOCK_WORDS * blocks_for (self.old.len + self.old.room) < self.old.len + self.old.room + count }
        requires few { self.old.len + self.old.room + count ≤ 2 ^ 58 }
        ensures ok { OnOk result (self.new ≡ record self.old { room = self.old.room + count }) }
        ensures err { OnErr result (self.new ≡ self.old) }
    {
        let capacity = self.capacity + count;
        let more = (capacity - 1) / BLOCK_WORDS + 1 - self.count();
        let alloc = *self.tail.allocator();
        self.full.reserve(self.spare.len() + more)?;
        self.spare.reserve(self.full.len() + more)?;
        add_blocks(alloc, &mut self.spare, more, self.width * BLOCK_WORDS)?;
        if self.capacity == 0 {
            self.tail = take_empty(&mut self.spare, self.width * BLOCK_WORDS);
        }
        self.capacity = capacity;
        Ok(())
    }

    /// Gives up so much of the room. A block that neither the rows nor the room need any more is freed.
    pub(crate) fn release(&mut self, count: usize)
        requires { count ≤ self.old.room }
        ensures { self.new ≡ record self.old { room = self.old.room - count } }
    {
        self.capacity -= count;
        let ahead = self.capacity.saturating_sub(1) / BLOCK_WORDS - self.full.len();
        self.spare.truncate(ahead);
        if self.capacity == 0 {
            self.tail = Vec::new(*self.tail.allocator());
        }
    }

    /// Adds a row at the end, into the room. Takes no memory.
    #[inline]
    pub(crate) fn push(&mut self, words: &[u64])
        requires width { length words.now ≡ self.old.width }
        requires room { 0 < self.old.room }
        ensures width { self.new.width ≡ self.old.width }
        ensures items { self.new.items ≡ self.old.items ++ words.now }
        ensures len { self.new.len ≡ self.old.len + 1 }
        ensures room { self.new.room + 1 ≡ self.old.room }
    {
        if self.len == BLOCK_WORDS * (self.full.len() + 1) {
            to_next(
                &mut self.full,
                &mut self.tail,
                &mut self.spare,
                self.width,
                self.len,
                self.capacity,
            );
        }
        push_all(&mut self.tail, words);
        self.len += 1;
    }

    /// Takes the last row out, into `words`. A block that neither the rows nor the room need any more is freed.
    #[inline]
    pub(crate) fn pop(&mut self, words: &mut [u64])
        requires width { length words.old ≡ self.old.width }
        requires some { 0 < self.old.len }
        ensures width { self.new.width ≡ self.old.width }
        ensures items { self.old.items ≡ self.new.items ++ words.new }
        ensures len { self.new.len + 1 ≡ self.old.len }
        ensures room { self.new.room ≡ self.old.room }
    {
        let start = self.tail.len() - words.len();
        words.copy_from_slice(&self.tail[start..]);
        self.tail.truncate(start);
        self.len -= 1;
        self.capacity -= 1;
        if self.len == BLOCK_WORDS * self.full.len() || self.capacity % BLOCK_WORDS == 0 {
            settle(
                &mut self.full,
                &mut self.tail,
                &mut self.spare,
                self.width,
                self.len,
                self.capacity,
            );
        }
    }

    /// The row at that index, into `words`.
    #[inline]
    pub(crate) fn get(&self, index: usize, words: &mut [u64])
        requires width { length words.old ≡ self.now.width }
        requires within { index < self.now.len }
        ensures { words.new ≡ words_at self.now.width self.now.items index }
    {
        let filled = self.full.len();
        let block = index / BLOCK_WORDS;
        let start = words.len() * (index % BLOCK_WORDS);
        let end = start + words.len();
        if block < filled {
            words.copy_from_slice(&self.full[block][start..end]);
        } else {
            words.copy_from_slice(&self.tail[start..end]);
        }
    }

    /// That word of the last row, if there is a row.
    #[inline]
    pub(crate) fn last(&self, column: usize) -> Option<u64>
        requires { column < self.now.width }
        ensures some { IfSome result (λ word. (0 < self.now.len) × (word ≡ slice_index self.now.items (self.now.width * (self.now.len - 1) + column))) }
        ensures none { IfNone result (self.now.len ≡ 0) }
    {
        if self.len == 0 {
            return None;
        }
        Some(self.tail[self.tail.len() - self.width + column])
    }

    /// How many words a row has.
    #[inline]
    pub(crate) fn width(&self) -> usize
        ensures { result ≡ self.now.width }
    {
        self.width
    }

    /// How many rows there are.
    #[inline]
    pub(crate) fn len(&self) -> usize
        ensures { result ≡ self.now.len }
    {
        self.len
    }

    /// Whether there is no row.
    #[inline]
    pub(crate) fn is_empty(&self) -> bool
        ensures { IsTrue result ↔ self.now.len ≡ 0 }
    {
        self.len == 0
    }

    /// How many more rows go in without memory.
    #[inline]
    pub(crate) fn room(&self) -> usize
        ensures { result ≡ self.now.room }
    {
        self.capacity - self.len
    }

    /// How many blocks there are, with those that are kept ahead: as many as the rows and the room need.
    #[inline]
    pub(crate) fn count(&self) -> usize
        ensures { result ≡ blocks_for (self.now.len + self.now.room) }
    {
        let filling = if self.tail.capacity() == 0 { 0 } else { 1 };
        self.full.len() + self.spare.len() + filling
    }
}

/// Adds these words at the end of a block, where there is memory for them.
#[inline]
fn push_all(block: &mut Vec<u64>, words: &[u64])
    requires { vec_len block.old + length words.now ≤ vec_capacity block.old }
    ensures items { block.new.items ≡ block.old.items ++ words.now }
    ensures len { vec_len block.new ≡ vec_len block.old + length words.now }
    ensures room { vec_capacity block.new ≡ vec_capacity block.old }
{
    for at in 0..words.len() {
        block.push_reserved(words[at]);
    }
}

/// Adds so many empty blocks of that size at the end. An `Err` means out of memory, and then there are as many as before.
fn add_blocks(
    alloc: Global,
    blocks: &mut Vec<Vec<u64>>,
    count: usize,
    size: usize,
) -> Result<(), AllocError>
    requires room { vec_len blocks.old + count ≤ vec_capacity blocks.old }
    requires empty { All (IsBlock size 0) blocks.old.items }
    ensures ok { OnOk result (vec_len blocks.new ≡ vec_len blocks.old + count) }
    ensures err { OnErr result (vec_len blocks.new ≡ vec_len blocks.old) }
    ensures empty { All (IsBlock size 0) blocks.new.items }
    ensures room { vec_capacity blocks.new ≡ vec_capacity blocks.old }
{
    let before = blocks.len();
    for _ in 0..count {
        let Ok(block) = Vec::with_capacity(alloc, size) else {
            blocks.truncate(before);
            return Err(AllocError);
        };
        blocks.push_reserved(block);
    }
    Ok(())
}

/// Takes one of these empty blocks, which are of that size.
fn take_empty(blocks: &mut Vec<Vec<u64>>, _size: usize) -> Vec<u64>
    requires some { 0 < vec_len blocks.old }
    requires empty { All (IsBlock _size 0) blocks.old.items }
    ensures taken { IsBlock _size 0 result }
    ensures empty { All (IsBlock _size 0) blocks.new.items }
    ensures len { vec_len blocks.new + 1 ≡ vec_len blocks.old }
    ensures room { vec_capacity blocks.new ≡ vec_capacity blocks.old }
{
    blocks.take_last()
}

/// Goes on with an empty block after the one that is being filled, which is full.
#[cold]
#[inline(never)]
fn to_next(
    full: &mut Vec<Vec<u64>>,
    tail: &mut Vec<u64>,
    spare: &mut Vec<Vec<u64>>,
    width: usize,
    len: usize,
    capacity: usize,
)
    requires blocks { AreBlocks width len full.old tail.old spare.old capacity }
    requires filled { len ≡ BLOCK_WORDS * (vec_len full.old + 1) }
    requires room { len < capacity }
    ensures words { words_in full.new.items ++ tail.new.items ≡ words_in full.old.items ++ tail.old.items }
    ensures blocks { AreBlocks width len full.new tail.new spare.new capacity }
    ensures begun { len ≡ BLOCK_WORDS * vec_len full.new }
    ensures held { vec_len full.new + vec_len spare.new ≡ vec_len full.old + vec_len spare.old }
{
    let filled = mem::replace(tail, take_empty(spare, width * BLOCK_WORDS));
    full.push_reserved(filled);
}

/// After the last row is gone: the row before it comes into the block that is being filled, and a block more than the
/// capacity needs is freed.
#[cold]
#[inline(never)]
fn settle(
    full: &mut Vec<Vec<u64>>,
    tail: &mut Vec<u64>,
    spare: &mut Vec<Vec<u64>>,
    width: usize,
    len: usize,
    capacity: usize,
)
    requires blocks { AreBlocks width len full.old tail.old spare.old capacity }
    requires memory { vec_capacity tail.old ≡ width * BLOCK_WORDS }
    requires count { capacity / BLOCK_WORDS ≡ vec_len full.old + vec_len spare.old }
    ensures words { words_in full.new.items ++ tail.new.items ≡ words_in full.old.items ++ tail.old.items }
    ensures laid { AreLaid width len full.new tail.new spare.new capacity }
{
    if len == BLOCK_WORDS * full.len() {
        to_last(full, tail, spare, width * BLOCK_WORDS);
    }
    if capacity % BLOCK_WORDS == 0 {
        free_one(tail, spare, width * BLOCK_WORDS);
    }
}

/// Goes back to the last full block, if there is one, from the block that is being filled, which is empty. The blocks are of that size.
fn to_last(full: &mut Vec<Vec<u64>>, tail: &mut Vec<u64>, spare: &mut Vec<Vec<u64>>, _size: usize)
    requires full_words { All (IsBlock _size _size) full.old.items }
    requires spare_words { All (IsBlock _size 0) spare.old.items }
    requires tail { IsBlock _size 0 tail.old }
    requires spare_room { vec_len full.old + vec_len spare.old ≤ vec_capacity spare.old }

    ensures words { words_in full.new.items ++ tail.new.items ≡ words_in full.old.items ++ tail.old.items }
    ensures full_words { All (IsBlock _size _size) full.new.items }
    ensures spare_words { All (IsBlock _size 0) spare.new.items }
    ensures last { 0 < vec_len full.old → (vec_len full.new + 1 ≡ vec_len full.old) × IsBlock _size _size tail.new }
    ensures none { vec_len full.old ≡ 0 → (vec_len full.new ≡ 0) × (tail.new ≡ tail.old) }

    ensures blocks { vec_len full.new + vec_len spare.new ≡ vec_len full.old + vec_len spare.old }
    ensures full_room { vec_capacity full.new ≡ vec_capacity full.old }
    ensures spare_room { vec_capacity spare.new ≡ vec_capacity spare.old }
{
    if let Some(last) = full.pop() {
        let empty = mem::replace(tail, last);
        spare.push_reserved(empty);
    }
}

/// Frees a block that is kept ahead; where there is none, the one that is being filled. The blocks are of that size.
fn free_one(tail: &mut Vec<u64>, spare: &mut Vec<Vec<u64>>, _size: usize)
    requires { All (IsBlock _size 0) spare.old.items }
    ensures ahead { 0 < vec_len spare.old → (vec_len spare.new + 1 ≡ vec_len spare.old) × (tail.new ≡ tail.old) }
    ensures last { vec_len spare.old ≡ 0 → (vec_len spare.new ≡ 0) × (tail.new.items ≡ []) × (vec_len tail.new ≡ 0) × (vec_capacity tail.new ≡ 0) }
    ensures spare_words { All (IsBlock _size 0) spare.new.items }
    ensures spare_room { vec_capacity spare.new ≡ vec_capacity spare.old }
{
    if spare.pop().is_none() {
        *tail = Vec::new(*tail.allocator());
    }
}
