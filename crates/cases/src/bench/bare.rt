//! Rounds by the bare steps that a lock makes: an exchange on its word, a `fetch_add` on the counter, and a store that frees
//! the word. Passes by theirs: a load of a word, and a `fetch_add` on the counter.

ghost use Rattle.std.specs.Prelude.{◌<◌, ◌≤◌};

use crate::bench::harness::{Failure, Watch};
use init_lock::LOOKS_IN_A_ROW;
use std::alloc::{AllocError, Global};
use std::rt::Clock;
use std::sync::atomic::{AtomicU64, Ordering};
use std::thread::Threads;
use std::{hint, thread};

// The words of four locks after a counter, laid as a table lays them: eight words fill a cache line.
fn four_locks(alloc: Global) -> Result<Vec<AtomicU64>, AllocError> {
    let mut words = Vec::new(alloc);
    for _ in 0..40 {
        words.push(AtomicU64::new(0))?;
    }
    Ok(words)
}

// Lets a moment pass before the next look at a lock, after so many in a row, as `InitTable::take` does. The answer counts that look
// too.
fn pause(looks: u32) -> u32 {
    if looks < LOOKS_IN_A_ROW {
        hint::spin_loop();
        return looks + 1;
    }
    thread::yield_now();
    1
}

// Tries a lock until it is free, as `InitTable::take` does. A try after the first looks before, which leaves the word's cache line
// where it is while another thread has the lock.
fn take(lock: &AtomicU64) {
    let mut looks = 0;
    for _ in 0..u64::MAX {
        if looks == 0 || lock.load(Ordering::SeqCst) == 0 {
            let tried = lock.compare_exchange(0, 1, Ordering::SeqCst, Ordering::SeqCst);
            if tried.is_ok() {
                return;
            }
        }
        looks = pause(looks);
    }
}

// The rounds of one thread, on one lock.
fn rounds_of(words: &[AtomicU64], place: usize, rounds: usize)
    requires { place < 4 }
{
    let (Some(counter), Some(lock)) = (words.first(), words.get(place * 8 + 8)) else {
        return;
    };
    for _ in 0..rounds {
        take(lock);
        counter.fetch_add(1, Ordering::SeqCst);
        lock.store(0, Ordering::SeqCst);
    }
}

/// The time of a round of bare steps, where so many threads make so many rounds each, on so many locks, 1 to 4 of each.
pub(crate) fn time<R: Clock + Threads + Sync>(
    rt: &R,
    alloc: Global,
    threads: usize,
    records: usize,
    rounds: usize,
) -> Result<u128, Failure> {
    let locks = records.clamp(1, 4);
    let kept = four_locks(alloc)?;
    let words = kept.as_slice();
    let watch = Watch::start(rt);
    let _ends = thread::map_indices(
        rt,
        alloc,
        threads.min(4),
        &|number: usize|
            requires { (0 < locks) × (locks ≤ 4) }
        { rounds_of(words, number % locks, rounds) },
    )?;
    watch.share(rt, rounds)
}

// The passes of one thread. The word that it loads says by 0 that it may pass.
fn passes_of(words: &[AtomicU64], times: usize) {
    let (Some(counter), Some(word)) = (words.first(), words.get(8)) else {
        return;
    };
    for _ in 0..times {
        if word.load(Ordering::SeqCst) == 0 {
            counter.fetch_add(1, Ordering::SeqCst);
        }
    }
}

/// The time of a pass by bare steps, where so many threads, 1 to 4, make so many passes each.
pub(crate) fn pass_time<R: Clock + Threads + Sync>(
    rt: &R,
    alloc: Global,
    threads: usize,
    times: usize,
) -> Result<u128, Failure> {
    let kept = four_locks(alloc)?;
    let words = kept.as_slice();
    let watch = Watch::start(rt);
    let _ends = thread::map_indices(
        rt,
        alloc,
        threads.min(4),
        &|_number: usize| { passes_of(words, times) },
    )?;
    watch.share(rt, times)
}
