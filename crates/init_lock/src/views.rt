//! What the seats of the table know. These types exist in proofs alone: no value of them is made, but for [`Setup`].
use crate::journal::Stamped;
use std::collections::LinkedList;
use std::snapshot::Snapshot;

/// Where the record of a place is, as far as one pass is concerned.
pub enum Custody {
    /// The pass doesn't have the record.
    Away,
    /// The pass has the lock, and carries the slot itself.
    Carried,
    /// The pass has the record out of its slot, which is empty.
    Held,
}

/// What a pass knows of a place: the list of events that it saw last, its own among them, and the record that it saw last.
/// While the pass has the record, the list is all that is at the place.
pub struct PlaceView<R, E> {
    pub seen: LinkedList<E>,
    pub last: R,
    pub custody: Custody,
}

/// A list that was all there was at the place, at a moment when the pass had drawn so many events.
pub struct Look<E> {
    pub place: usize,
    pub after: usize,
    pub seen: LinkedList<E>,
}

/// What one pass knows: its number, how often it found a lock taken, its journal, the looks that were noted, the records of the beginning, and each place.
pub struct PassView<R, E> {
    pub pass: usize,
    pub misses: usize,
    pub journal: LinkedList<Stamped<E>>,
    pub looks: LinkedList<Look<E>>,
    pub opening: LinkedList<R>,
    pub places: LinkedList<PlaceView<R, E>>,
}

/// What the table is given once: the number of passes, and the records.
#[derive(Drop)]
pub struct Setup<R> {
    pub threads: usize,
    pub records: Snapshot<Vec<R>>,
}
