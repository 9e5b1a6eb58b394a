//! Waiting for a change that another thread makes.
//!
//! Two words, one for rings and one for sleepers, would lose a ring: a thread that rang before a
//! waiter took its mark could take back the sign that the waiter sleeps. A wait may end early.
//! There is no contract, since nothing is known of an atomic word.
use std::sync::Wait;
use std::sync::atomic::{AtomicU64, Ordering};
use std::time::Duration;

/// A bell that threads ring after a change, and at which other threads wait for one. It carries no
/// data.
///
/// To miss no change, take the `mark` first, then look for the change, and then wait past that
/// mark.
#[derive(Drop)]
pub struct Bell {
    // Twice the number of rings, which may wrap, and 1 more where a thread may be asleep.
    //
    // Only a thread that rings takes the 1 back, and then wakes all. So a thread that sleeps
    // without it is woken, and a thread that was about to sleep finds the word changed, and
    // doesn't.
    //
    // A wait that timed out leaves the 1, so the next ring makes a system call that may wake
    // nobody. A thread that wakes can't take the 1 back: it stands for all that sleep, and another
    // would sleep on without it.
    word: AtomicU64,
}

impl Bell {
    pub const fn new() -> Bell {
        Bell {
            word: AtomicU64::new(0),
        }
    }

    /// Wakes all threads that wait. Where none waits it is one atomic step, and no system call.
    pub fn ring(&self) {
        let before = self.word.fetch_add(2, Ordering::SeqCst);
        if before & 1 == 1 {
            let after = before.wrapping_add(2);
            // If another thread rang meanwhile, the 1 stays for the next ring.
            let _ = self
                .word
                .compare_exchange(after, after & !1, Ordering::SeqCst, Ordering::SeqCst);
            self.word.wake_all();
        }
    }

    /// The mark for `wait_past`.
    pub fn mark(&self) -> u64 {
        self.word.load(Ordering::SeqCst) & !1
    }

    /// Returns after a ring later than the mark, after the limit, or earlier.
    pub fn wait_past<R: Wait>(&self, rt: &R, mark: u64, limit: Duration) {
        let asleep = mark | 1;
        let set = self
            .word
            .compare_exchange(mark, asleep, Ordering::SeqCst, Ordering::SeqCst);
        // Another thread may have set it, or the bell was rung.
        if set.is_ok() || set == Err(asleep) {
            let low_half = (asleep & 0xffff_ffff) as u32;
            self.word.park_timeout(rt, low_half, limit);
        }
    }
}

impl Default for Bell {
    fn default() -> Bell {
        Bell::new()
    }
}
