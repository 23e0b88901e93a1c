//! A list of words in blocks.
ghost use Rattle.std.specs.Prelude.{◌≡◌, ◌+◌, ◌-◌, ◌*◌, ◌++◌, ◌∷◌, [], ◌<◌, ◌≤◌, ◌^◌, length, slice_index, slice_get, IfSome, IfNone, OnOk, OnErr, IsTrue, ◌↔◌};
ghost use Rattle.event_rows.specs.WordList.{blocks_for};

use crate::BLOCK_WORDS;
use crate::blocks::Blocks;
use std::alloc::{AllocError, Global};
use std::marker::Model;

/// A list of words that grows and shrinks at its end, in blocks of [`BLOCK_WORDS`] words.
///
/// Contracts see the words (`items`) and how many more go in without memory (`room`). These two tell how many blocks there are.
pub struct Words {
    /// Rows of one word.
    blocks: Blocks,
}

impl Drop for Words {
    fn drop(self) {
        let Self { blocks: _ } = self;
    }
}

impl Model for Words {
    ghost use Rattle.std.specs.Prelude.{◌≡◌, length};
    ghost use Rattle.event_rows.specs.WordList.{WordList};

    ghost Value = { WordList };

    ghost view = { λ w. record { items = w.blocks.items; room = w.blocks.room } };

    ghost invariant = { λ w. (w.blocks.width ≡ 1) × (length w.blocks.items ≡ w.blocks.len) };
}

impl Words {
    /// No words, without room. Takes no memory.
    pub fn new(alloc: Global) -> Self
        ensures items { result.items ≡ [] }
        ensures room { result.room ≡ 0 }
    {
        Words {
            blocks: Blocks::new(alloc, 1),
        }
    }

    /// Makes room for `count` more words, beside the room that is left. An `Err` means out of memory, where a block more is
    /// needed, and changes nothing. A list has at most 2^58 words, with its room.
    #[inline]
    pub fn reserve(&mut self, count: usize) -> Result<(), AllocError>
        requires { length self.old.items + self.old.room + count ≤ 2 ^ 58 }
        ensures ok { OnOk result (self.new ≡ record self.old { room = self.old.room + count }) }
        ensures err { OnErr result (self.new ≡ self.old) }
        ensures refused { OnErr result (0 < count) }
        ensures block { OnErr result (BLOCK_WORDS * blocks_for (length self.old.items + self.old.room) < length self.old.items + self.old.room + count) }
    {
        self.blocks.reserve(count)
    }

    /// Gives up so much of the room. A block that neither the words nor the room need any more is freed.
    pub fn release(&mut self, count: usize)
        requires { count ≤ self.old.room }
        ensures { self.new ≡ record self.old { room = self.old.room - count } }
    {
        self.blocks.release(count);
    }

    /// Adds a word at the end, into the room. Takes no memory.
    #[inline]
    pub fn push(&mut self, word: u64)
        requires { 0 < self.old.room }
        ensures items { self.new.items ≡ self.old.items ++ word ∷ [] }
        ensures room { self.new.room + 1 ≡ self.old.room }
    {
        self.blocks.push(&[word]);
    }

    /// Takes the last word out, if there is one. A block that neither the words nor the room need any more is freed.
    #[inline]
    pub fn pop(&mut self) -> Option<u64>
        ensures some { IfSome result (λ word. self.old.items ≡ self.new.items ++ word ∷ []) }
        ensures none { IfNone result ((self.old.items ≡ []) × (self.new ≡ self.old)) }
        ensures room { self.new.room ≡ self.old.room }
    {
        if self.blocks.is_empty() {
            return None;
        }
        let mut words = [0];
        self.blocks.pop(&mut words);
        let [word] = words;
        Some(word)
    }

    /// The word at that index.
    #[inline]
    pub fn get(&self, index: usize) -> u64
        requires { index < length self.now.items }
        ensures { result ≡ slice_index self.now.items index }
    {
        let mut words = [0];
        self.blocks.get(index, &mut words);
        let [word] = words;
        word
    }

    /// The last word, if there is one.
    #[inline]
    pub fn last(&self) -> Option<u64>
        ensures { result ≡ slice_get self.now.items (length self.now.items - 1) }
    {
        self.blocks.last(0)
    }

    /// How many words there are.
    #[inline]
    pub fn len(&self) -> usize
        ensures { result ≡ length self.now.items }
    {
        self.blocks.len()
    }

    /// Whether there is no word.
    #[inline]
    pub fn is_empty(&self) -> bool
        ensures { IsTrue result ↔ self.now.items ≡ [] }
    {
        self.blocks.is_empty()
    }

    /// How many more words go in without memory.
    #[inline]
    pub fn room(&self) -> usize
        ensures { result ≡ self.now.room }
    {
        self.blocks.room()
    }

    /// How many blocks there are, with those that are kept ahead: as many as the words and the room need.
    #[inline]
    pub fn blocks(&self) -> usize
        ensures { result ≡ blocks_for (length self.now.items + self.now.room) }
    {
        self.blocks.count()
    }
}
