//! Words to sleep on, one for each who may. They tell nothing: who wakes looks again for what it waits for.
ghost use Rattle.std.specs.Prelude.{◌≡◌, IfOk, vec_len};

use std::alloc::{AllocError, Global};
use std::sync::Wait;
use std::sync::atomic::{AtomicU64, Ordering};
use std::time::Duration;

// A word, and how many sleep on it or are about to: where there are none, nobody has to be woken. No two lie in one line of a processor's cache.
#[derive(Drop)]
struct WakeWord {
    word: AtomicU64,
    asleep: AtomicU64,
    // Not 0 once whoever sleeps here is to wait for no lock any more.
    unwanted: AtomicU64,
    apart: [u64; 5],
}

/// Words that are raised by who wakes. A sleeper glances at its word first, then looks whether it has to wait, and sleeps only as long as the word is as it was:
/// so no call of `wake` between the two is lost.
#[derive(Drop)]
pub struct WakeWords {
    // One for each who may sleep.
    words: Vec<WakeWord>,
}

impl WakeWords {
    /// So many words.
    pub fn new(alloc: Global, count: u32) -> Result<WakeWords, AllocError>
        ensures { IfOk result (λ made. vec_len made.words ≡ count) }
    {
        let mut words = Vec::with_capacity(alloc, count as usize)?;
        for _ in 0..count {
            words.push(WakeWord {
                word: AtomicU64::new(0),
                asleep: AtomicU64::new(0),
                unwanted: AtomicU64::new(0),
                apart: [0; 5],
            })?;
        }
        Ok(WakeWords { words })
    }

    /// What a sleeper remembers before it looks. 0 if there is no such word.
    pub fn glance(&self, sleeper: u32) -> u64 {
        match self.words.get(sleeper as usize) {
            Some(one) => one.word.load(Ordering::SeqCst),
            None => 0,
        }
    }

    /// Wakes all that sleep on this word, and whoever glanced at it and does not sleep yet.
    pub fn wake(&self, sleeper: u32) {
        if let Some(one) = self.words.get(sleeper as usize) {
            one.word.fetch_add(1, Ordering::SeqCst);
            if one.asleep.load(Ordering::SeqCst) > 0 {
                one.word.wake_all();
            }
        }
    }

    /// Whoever sleeps on this word, now or later, is to wait for no lock, until it is welcome again. It is told before it is woken: who glanced before that does not
    /// sleep, and who glances behind it is told.
    pub fn give_up(&self, sleeper: u32) {
        if let Some(one) = self.words.get(sleeper as usize) {
            one.unwanted.store(1, Ordering::SeqCst);
        }
        self.wake(sleeper);
    }

    /// Whether it is to wait for no lock. Who is to sleep asks behind its glance.
    pub fn is_unwanted(&self, sleeper: u32) -> bool {
        match self.words.get(sleeper as usize) {
            Some(one) => one.unwanted.load(Ordering::SeqCst) != 0,
            None => false,
        }
    }

    /// It may wait for locks again.
    pub fn welcome(&self, sleeper: u32) {
        if let Some(one) = self.words.get(sleeper as usize) {
            one.unwanted.store(0, Ordering::SeqCst);
        }
    }

    /// Sleeps until a wake behind the glance. It may return for no reason, and does at once if there is no such word.
    pub fn sleep<R: Wait>(&self, rt: &R, sleeper: u32, glanced: u64) {
        if let Some(one) = self.words.get(sleeper as usize) {
            one.asleep.fetch_add(1, Ordering::SeqCst);
            one.word.park(rt, low_half(glanced));
            one.asleep.fetch_sub(1, Ordering::SeqCst);
        }
    }

    /// Sleeps so, and no longer than this.
    pub fn nap<R: Wait>(&self, rt: &R, sleeper: u32, glanced: u64, most: Duration) {
        if let Some(one) = self.words.get(sleeper as usize) {
            one.asleep.fetch_add(1, Ordering::SeqCst);
            one.word.park_timeout(rt, low_half(glanced), most);
            one.asleep.fetch_sub(1, Ordering::SeqCst);
        }
    }
}

// The half of a word that a sleep compares.
fn low_half(word: u64) -> u32 {
    (word % (1 << 32)) as u32
}
