//! Threads of the machine, each a host thread, that initialize classes at once.
//!
//! Enter by [`run_threads`]: it takes main classes, starts a host thread for each, and answers what all of them did.
//! Each thread does the procedure for its main class, with all that it needs (JLS SE 8 12.4.2), and then `main`. What its
//! bodies do it is told by a [`bodies::Bodies`] of its own.
//!
//! What the bodies of all threads share, as the heap and its monitors, lies under one lock, in a [`Common`]. A thread takes that lock
//! where its body has come to something that touches what is shared ([`bodies::Bodies::touch`]), in step 11, and as the thread ends; what
//! a body does next ([`bodies::Bodies::next`]) it finds without the lock. Where another thread holds what is touched, as a monitor, the
//! thread sleeps until something is left. Where its patience has a limit it lets others run instead, and looks again as often as the
//! limit allows.
//!
//! The records of the classes lie in a table of locks ([`init_lock`]), each a [`Guarded`] under the initialization lock of
//! its class.
//!
//! A thread takes a record, looks at it and tells its procedure ([`init_core::Procedure::look_at`]), draws the stamp of the
//! event while it has the record, and gives the record back. Step 9 is drawn without a lock, and so is the step 4 of a request
//! that hasn't waited, where one load shows that the class is initialized (JVMS SE 8 5.5). What a thread knows is its
//! own events and what it saw of each class at its last visit: other threads move no class that is in progress by it, so
//! that suffices for all of its steps. When all threads have ended, their journals are merged in the order of the stamps.
//! That the merged list is a legal interleaving follows from four facts: each journal is a word; each record is lawful;
//! a step 9 comes between the step 6 and the ending of its class in the journal of one thread; and a step 4 that was drawn without a
//! lock comes after the step 10 of its class.
//!
//! [`run_one`] does the work of one such thread on the calling thread, for tests and tools.
//!
//! The definition of what a run makes is in `bodies/specs/Runs.antt`, and that of what the bodies of one thread do, where others may change
//! what they share between two of its touches, in `bodies/specs/Sharing.antt`.
#![tactic(auto)]

mod body;
mod common;
mod gate;
mod guarded;
mod launch;
mod report;
mod run;
mod signals;
mod steps;
mod take;
mod task;
mod work;

pub use common::Common;
pub use gate::{Gate, NoGate};
pub use guarded::Guarded;
pub use run::{RunFault, run_threads};
pub use work::{Worked, run_one};
