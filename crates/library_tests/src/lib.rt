//! Tests of the libraries that are no case of a file. They are of lists, types, words and instructions of Jasmin files, as values made
//! by hand; of linked classes, frames, the heap, records and schedules, over programs given as Jasmin files; of the lock, and of runs in
//! order and of several threads; of what words ask for, and of `serve` over files and writers whose bytes are known. The cases of
//! files are those of the crate `cases`.
//!
//! They are kept apart, since a crate that has tests is proved a second time with them, and in one crate, since each crate of tests is a
//! program of its own when its tests are built, with its own drops of all that it depends on.
#![tactic(auto)]

#[cfg(test)]
mod comparing;
#[cfg(test)]
mod elided;
#[cfg(test)]
mod frame_runs;
#[cfg(test)]
mod frame_steps;
#[cfg(test)]
mod frame_throws;
#[cfg(test)]
mod handlers;
#[cfg(test)]
mod heaps;
#[cfg(test)]
mod in_order;
#[cfg(test)]
mod instructions;
#[cfg(test)]
mod judged;
#[cfg(test)]
mod lists;
#[cfg(test)]
mod lock;
#[cfg(test)]
mod long_chain;
#[cfg(test)]
mod parsed;
#[cfg(test)]
mod prints;
#[cfg(test)]
mod procedures;
#[cfg(test)]
mod programs;
#[cfg(test)]
mod records;
#[cfg(test)]
mod refusals;
#[cfg(test)]
mod resolved;
#[cfg(test)]
mod rows;
#[cfg(test)]
mod runs;
#[cfg(test)]
mod schedules;
#[cfg(test)]
mod scripted;
#[cfg(test)]
mod sheet;
#[cfg(test)]
mod sinks;
#[cfg(test)]
mod steps;
#[cfg(test)]
mod twin;
#[cfg(test)]
mod twin_labels;
#[cfg(test)]
mod types;
#[cfg(test)]
mod waiting;
#[cfg(test)]
mod words;
#[cfg(test)]
mod worlds;
