//! The ordered run of main classes, on one host thread.
//!
//! Enter by [`run_ordered`]: it requests each main class by a thread of its own and lets the threads go on in the order that is
//! asked for. A thread does what its procedure asks for next, one step after the other (JLS SE 8 12.4.2), and asks what runs
//! its bodies ([`bodies::Bodies`]) what they do; it goes on from one event to the next, or up to a wait. It has what all threads share
//! for one touch at a time. The definition of such a run is in `specs/OrderedRun.antt`.
#![tactic(auto)]

mod body;
mod log;
mod ordered;
mod run;
mod shared;
mod thread;
mod used;

pub use ordered::run_ordered;
