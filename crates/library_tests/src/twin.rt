//! A plain, slow judge of interleavings, straight from the definitions: the words of one thread are found by
//! following the forms of the procedure from each place of its list, the labels by a search of each class's history.
//!
//! The first event of a word names its class, and each event says which form goes on. So at most one word begins at a place.
//!
//! It judges lists without reads, writes and prints in which no thread is ended by the machine, of programs
//! that are handed in as what each class needs, in order.

use hierarchy::BuiltIn;
use std::alloc::{AllocError, Global};

/// What an event does. A throwable is of a built-in class.
#[derive(Clone, Copy, PartialEq, Eq)]
pub enum Act {
    Waits,
    Recurs,
    FindsInitialized,
    FindsErroneous,
    Begins,
    SuperFails(BuiltIn),
    Runs,
    Completes,
    Fails(BuiltIn),
}

/// An event: its thread and class by number, and what it does.
#[derive(Clone, Copy, PartialEq, Eq)]
pub struct Made {
    pub thread: usize,
    pub class: usize,
    pub act: Act,
}

/// What the events from one place on are of the procedure for a class.
#[derive(Clone, Copy)]
enum Word {
    /// They don't begin with a word of it, and don't begin one.
    None,
    /// All of them begin one.
    Begun,
    /// A word of them ends before this place, and completes normally.
    Normal(usize),
    /// A word of them ends before this place, and completes abruptly by this throwable.
    Abrupt(usize, BuiltIn),
}

fn act_at(list: &[Made], at: usize, class: usize) -> Option<Act> {
    match list.get(at) {
        Some(made) if made.class == class => Some(made.act),
        _ => None,
    }
}

/// The word of a class from a place on, by the words that were found from there on.
fn word_at(list: &[Made], words: &[Word], at: usize, class: usize) -> Word {
    if at >= list.len() {
        return Word::Begun;
    }
    match (act_at(list, at, class), words.get(at)) {
        (Some(_), Some(word)) => *word,
        _ => Word::None,
    }
}

/// The place after the words of any classes, one after the other, from here.
fn behind_items(words: &[Word], start: usize) -> usize {
    let mut at = start;
    for _ in start..words.len() {
        if let Some(Word::Normal(to)) | Some(Word::Abrupt(to, _)) = words.get(at) {
            at = *to;
        }
    }
    at
}

/// Whether the list ends here, or in a word that begins here.
fn is_open_at(words: &[Word], at: usize) -> bool {
    match words.get(at) {
        Some(word) => matches!(word, Word::Begun),
        None => true,
    }
}

/// After what is needed: the end of the list, or step 9, a body's items, and step 10 or step 12.
fn body_at(list: &[Made], words: &[Word], start: usize, class: usize) -> Word {
    if start >= list.len() {
        return Word::Begun;
    }
    if act_at(list, start, class) != Some(Act::Runs) {
        return Word::None;
    }
    let at = behind_items(words, start.saturating_add(1));
    if is_open_at(words, at) {
        return Word::Begun;
    }
    match act_at(list, at, class) {
        Some(Act::Completes) => Word::Normal(at.saturating_add(1)),
        Some(Act::Fails(thrown)) => Word::Abrupt(at.saturating_add(1), thrown),
        _ => Word::None,
    }
}

/// After an abrupt word of a needed class: the end of the list, or step 7.
fn failure_at(list: &[Made], at: usize, class: usize, thrown: BuiltIn) -> Word {
    if at >= list.len() {
        return Word::Begun;
    }
    if act_at(list, at, class) == Some(Act::SuperFails(thrown)) {
        Word::Abrupt(at.saturating_add(1), thrown)
    } else {
        Word::None
    }
}

/// After step 6: the words of the needed classes, in order, then step 9.
fn begun_at(needs: &[usize], list: &[Made], words: &[Word], start: usize, class: usize) -> Word {
    let mut at = start;
    for need in needs {
        match word_at(list, words, at, *need) {
            Word::Normal(to) => at = to,
            Word::Abrupt(to, thrown) => return failure_at(list, to, class, thrown),
            other => return other,
        }
    }
    body_at(list, words, at, class)
}

/// The word of a class from a place on: after its step 2, if there is one, its step 3, 4, 5 or 6.
fn found_at(
    all_needs: &[&[usize]],
    list: &[Made],
    words: &[Word],
    from: usize,
    class: usize,
) -> Word {
    let mut at = from;
    if act_at(list, at, class) == Some(Act::Waits) {
        at = at.saturating_add(1);
    }
    if at >= list.len() {
        return Word::Begun;
    }
    let next = at.saturating_add(1);
    match act_at(list, at, class) {
        Some(Act::Recurs) | Some(Act::FindsInitialized) => Word::Normal(next),
        Some(Act::FindsErroneous) => Word::Abrupt(next, BuiltIn::NoClassDefFoundError),
        Some(Act::Begins) => match all_needs.get(class) {
            Some(needs) => begun_at(needs, list, words, next, class),
            None => Word::None,
        },
        _ => Word::None,
    }
}

/// Finds the word from each place on, from the list's end, by the words after it.
fn find_all(all_needs: &[&[usize]], list: &[Made], words: &mut [Word]) {
    for from in (0..list.len()).rev() {
        let word = found_at(all_needs, list, words, from, list[from].class);
        if from < words.len() {
            words[from] = word;
        }
    }
}

/// Whether this list of one thread begins its word: the procedure for its main class, and then a body, if that was normal.
pub(crate) fn begins_thread_word(
    alloc: Global,
    all_needs: &[&[usize]],
    main: usize,
    list: &[Made],
) -> Result<bool, AllocError> {
    let mut words = vec![in alloc; Word::None; list.len()]?;
    find_all(all_needs, list, &mut words);
    match word_at(list, &words, 0, main) {
        Word::None => Ok(false),
        Word::Begun => Ok(true),
        Word::Normal(to) => Ok(is_open_at(&words, behind_items(&words, to))),
        Word::Abrupt(to, _) => Ok(to >= list.len()),
    }
}
