//! The journals of all passes as one list.
ghost use Rattle.std.specs.Prelude.{◌≡◌, ℕ, ◌+◌, ◌++◌, ◌<◌, ◌≤◌, List, length, map, take, reverse, vec_len, vec_capacity, Some, IfOk};
ghost use Rattle.std.specs.List.{All};
ghost use Rattle.init_lock.specs.Log.{Entry};
ghost use Rattle.init_lock.specs.Merging.{AreJournals, Unloaded, HasEvents, end_of};

use crate::journal::{Journal, Stamp};
use crate::keeps::Keeps;
use std::alloc::{AllocError, Global};

// How many stamps are looked at together. The window of their events fits a processor's own cache, and of each journal
// several lines in a row are read.
const WINDOW: u64 = 4096;

/// The events of all journals in the order of their stamps: those of the log, where these are the journals of all
/// passes, in the order of the passes' numbers.
///
/// A window of stamps goes from the last one down. Each journal in turn moves its events of the window to their
/// stamps' places there, so that no event costs a look at another journal. An `Err` means out of memory.
pub fn merge<R: Keeps>(
    alloc: Global,
    mut journals: Vec<Journal<R>>,
) -> Result<Vec<R::Event>, AllocError>
    ensures { IfOk result (λ merged. (log : List (Entry R.Event)) → AreJournals log journals.items → merged.items ≡ map (λ e. e.event) log) }
{
    let mut left = end_of_all(journals.as_slice());
    let mut merged = Vec::with_capacity(alloc, left as usize)?;
    let mut window = Vec::new(alloc);
    window.resize_with(left.min(WINDOW) as usize, || None)?;
    'windows: while 0 < left {
        let start = left.saturating_sub(WINDOW);
        fill(window.as_mut_slice(), journals.as_mut_slice(), start);
        empty(window.as_mut_slice(), (left - start) as usize, &mut merged);
        left = start;
    }
    merged.reverse();
    Ok(merged)
}

// The number after all stamps of the journals.
fn end_of_all<R: Keeps>(journals: &[Journal<R>]) -> Stamp
    ensures above { All (λ j. end_of j.events ≤ result) journals.now }
    ensures least { (bound : ℕ) → All (λ j. end_of j.events ≤ bound) journals.now → result ≤ bound }
{
    let mut most = 0;
    'journals: for at in 0..journals.len() {
        most = most.max(journals[at].end());
    }
    most
}

// Moves the events with stamps from `start` on out of the journals, each to its stamp's place in a window that begins
// with `start`.
fn fill<R: Keeps>(window: &mut [Option<R::Event>], journals: &mut [Journal<R>], start: Stamp)
    ensures filled { (before after : List (Entry R.Event)) → length before ≡ start → length after ≤ length window.old → AreJournals (before ++ after) journals.old → AreJournals before journals.new × HasEvents after window.new }
    ensures len { length window.new ≡ length window.old }
{
    'journals: for at in 0..journals.len() {
        unload(&mut journals[at], window, start);
    }
}

// Moves the events of one journal with stamps from `start` on, each to its stamp's place in a window that begins with
// `start`.
fn unload<R: Keeps>(journal: &mut Journal<R>, window: &mut [Option<R::Event>], start: Stamp)
    ensures unloaded { Unloaded start journal.old journal.new window.old window.new }
    ensures len { length window.new ≡ length window.old }
{
    'events: while let Some(last) = journal.pop_from(start) {
        let place = (last.stamp - start) as usize;
        if place < window.len() {
            window[place] = Some(last.event);
        }
    }
}

// Takes the events out of the first places of a window, the last one first, into the room of the list.
fn empty<E: Drop>(window: &mut [Option<E>], count: usize, merged: &mut Vec<E>)
    requires count { count ≤ length window.old }
    requires room { vec_len merged.old + count ≤ vec_capacity merged.old }
    ensures events { (events : List E) → take count window.old ≡ map Some events → merged.new.items ≡ merged.old.items ++ reverse events }
    ensures len { length window.new ≡ length window.old }
    ensures few { vec_len merged.new ≤ vec_len merged.old + count }
    ensures capacity { vec_capacity merged.new ≡ vec_capacity merged.old }
{
    let mut left = count;
    'places: while 0 < left {
        left -= 1;
        if let Some(event) = window[left].take() {
            merged.push_reserved(event);
        }
    }
}
