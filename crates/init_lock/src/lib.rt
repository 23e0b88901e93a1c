//! Records under locks, and one order of all that is done to them.
//!
//! A table holds records, each under a lock of its own. Several threads take records, change them and give them back.
//! Whatever is done is an *event*, and each event gets a *stamp*: the number that one shared counter had when the event
//! was drawn. A thread steps with a [`Pass`], which carries its *journal*, the list of the events that it drew. Many events
//! belong to a record: they are drawn while the thread has it, and are at its *place*, which is the record's number.
//! Others are at no place. The crate knows nothing of what a record or an event is; [`Keeps`] says the little that it
//! asks.
//!
//! # What is promised
//!
//! Ordinary locks promise that two threads never have one record at a time. Here three things more are proved, for every
//! schedule of the threads:
//!
//! - **What a thread finds under a lock begins with all that it had seen there.** The record that [`InitTable::try_take`]
//!   or [`InitTable::take`] answers keeps a list of events that begins with the list which this pass saw last at the
//!   place, its own events among them, and goes on with events that other passes may draw there.
//! - **A settled place is passed without its lock.** Some events settle their place for good ([`Keeps`] says which). A
//!   pass that has the record of a settled place says so to all others by [`InitTable::publish`], and
//!   [`InitTable::is_done`] asks by one load. Where it answers yes, the pass has seen a list of the place's events which
//!   begins with what it had seen there, is lawful, and has an event that settles the place; all that the pass draws from
//!   then on has stamps above that event's. For a class this leaves out the initialization lock where initialization is
//!   known to be complete, which JVMS SE 8 5.5 permits an implementation to do. Where it answers no, nothing is known.
//! - **When the threads have ended there is one log.** [`InitTable::finish`] shows one list of all events. The stamp of an
//!   event is its index in the log, so the stamps are 0 to m-1, each once. The journal of a pass is the part of the log
//!   that the pass drew, so its stamps rise. Each record keeps exactly the events of its place, in the order of the log.
//!   What a pass had seen at a place at some moment was in the log before all that the pass drew later, so an event that
//!   settles a place was there before all that a pass drew once it knew the place to be settled.
//!
//! # The rule
//!
//! All of it follows from one fact about the table, which holds between any two atomic steps. It speaks of the lock words
//! and the done words, of the counter, of the records in their slots, and of what each pass knows:
//!
//! 1. There is a log: a list of entries, each an event with its place, if it has one, and the pass that drew it. The
//!    counter is the length of the log. Each entry is one that its pass may draw at its place.
//! 2. The lock word of a place is 0 while its record is free, and p + 1 while pass p has it. At most one pass has the
//!    number p.
//! 3. While a record is free, it lies in its slot and keeps the events of its place in the log. It follows the record
//!    that the table began with.
//! 4. A pass that has a record knows all that is at its place in the log. The record that it took was the last there.
//! 5. A pass that doesn't have a record has seen a beginning of what is at its place, and has drawn nothing there
//!    since.
//! 6. Each look of a pass, noted when it took or gave back a record or saw a place done, shows all that was at the place
//!    at one moment of the log, and how many events the pass had drawn by then.
//! 7. The done word of a place is 0 until an event of the place settles it.
//! 8. The events of each place are lawful, in the sense of [`Keeps`]. An event at no place may lean on a place: then it
//!    comes after an event that settles that place.
//!
//! The kinds of atomic step are few, and each keeps the rule by one lemma (`proofs/Steps.antt`, and `proofs/Dones.antt`
//! for the done words):
//!
//! | Step | Word | What the pass knows afterwards |
//! |---|---|---|
//! | the lock is tried | lock word, 0 to p + 1 by one exchange | if it was 0: it has the record, and all that is there; else one miss more |
//! | the lock is seen | lock word, read | if it was taken: one miss more |
//! | the empty slot of a further record is parked or fetched | lock word, read | the same |
//! | a stamp is drawn | counter, plus one | its journal and, for an event with a place, the list there are longer by one |
//! | the lock is freed | lock word, to 0 | it has seen the list that the record keeps now |
//! | a done word is set | done word, to 1 | the same |
//! | a done word is read | done word, read | if it was set: it has seen all that is there, an event that settles the place among it |
//!
//! Rule 3 holds when the lock is freed because giving back asks that the record keep what it kept when it was taken,
//! followed by what was drawn on it since. It holds when a stamp is drawn because an event with a place is drawn only by
//! the pass that has the record, while it isn't free. Rule 5 holds for another pass because nothing is drawn at a
//! place under that pass's number but by itself. Rule 7 holds when a done word is set because the pass that sets it has
//! the record, so that it knows all that is at the place, and must know an event there that settles it; no event ever
//! leaves the log. Rule 8 is owed by who draws: at a place the list must be lawful with the event too, and an event at
//! no place may lean only on a place that the pass knows to be settled.
//!
//! A stamp takes one `fetch_add`, a try of a lock one exchange, giving back one store, and a done word one load or one
//! store. A pass carries the empty slot of the first record that it has; only for further ones it makes two loads more.
//! No lock goes round several records, and drawing, trying, giving back, publishing, asking and ending neither wait nor
//! take memory: [`Pass::reserve`] makes the journal's room beforehand. Only [`InitTable::take`] may wait, and it is the
//! single try again and again.
//!
//! # What is not promised
//!
//! That a lock is ever given back, that a try ever succeeds, that a settled place is ever seen done, which thread comes
//! first, and how long anything takes. A record that is taken must go back before its pass is handed to
//! [`InitTable::finish`].
//!
//! # How it is used
//!
//! Make the table and one pass a thread with [`InitTable::new`]; give each thread its pass and `&InitTable`; `reserve`,
//! then take, change the record by [`Held::kept`], [`InitTable::draw_held`], [`InitTable::give_back`]; draw events of no
//! place by [`InitTable::draw`]; at the end hand all passes to `finish`, and their journals to [`merge`], which makes one
//! list of them, in the order of the stamps. Where an event settles its place, publish after it is drawn and before the
//! record goes back. `library_tests/src/lock.rt` has small examples.
//!
//! # How it lies in memory
//!
//! Threads that take records of different places write to no cache line in common but that of the counter. Each record
//! lies in a block of its own, so that taking it moves a pointer (`block.rt`), and these pointers lie apart (`slot.rt`), as do the journals.
//! The counter has a cache line of its own, and so has each lock word. The done words lie after them, eight in a line:
//! each is written once, so every processor keeps a copy of its line, however busy the locks are (`specs/Rule.antt`).
#![tactic(auto)]

mod block;
mod done;
mod draw;
mod finish;
mod journal;
mod keeps;
mod merging;
mod open;
mod pass;
mod rule;
mod seat;
mod slot;
mod table;
mod take;
mod views;

pub use finish::Closed;
pub use journal::{Journal, Stamp, Stamped};
pub use keeps::Keeps;
pub use merging::merge;
pub use pass::{Held, Pass};
pub use table::InitTable;
pub use take::{GaveUp, LOOKS_IN_A_ROW};
pub use views::{Custody, Look, PassView, PlaceView, Setup};
