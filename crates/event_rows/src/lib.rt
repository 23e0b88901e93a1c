//! Words, and rows of words with texts, that are kept in blocks: lists that grow and shrink at their end, and hold no more blocks
//! than they need.
//!
//! [`Words`] is a list of numbers of 64 bits, and [`Rows`] a list of rows of equally many such numbers, each with a text or none.
//! Contracts see them as the list that they hold and the room that is left: how many more words or rows go in without memory.
//! `reserve` makes room and may be refused memory; `push` goes into the room and takes no memory; `release` gives room up.
//!
//! A list lies in blocks, never moved while it grows: of [`BLOCK_WORDS`] words, or of as many rows. There are always as many blocks as
//! the words and the room need, which `blocks` tells: a `reserve` makes what is missing, and a `pop` or `release` frees
//! at once what isn't needed any more. So what takes words out of some lists and adds them to another needs the blocks of one
//! of both, and one or two for each list. The lists of blocks and of texts keep their memory.
//!
//! Rows lie side by side, so a row lies across no two blocks, and adding one writes to one place. A block of rows counts as many blocks of
//! words as a row has words. Numbers of rows are stored, so that no call divides by the number of words in a row, which is known only when
//! the program runs. The texts are few, and lie in a list of their own, each with the number of its row.
//! What a word means, and how a thing becomes words and a text, is the caller's: a stamp, a place and a packed event, for one.
#![tactic(auto)]

mod blocks;
mod rows;
mod words;

pub use rows::Rows;
pub use words::Words;

/// How many words a block of words holds, and how many rows a block of rows.
pub const BLOCK_WORDS: usize = 1024;
