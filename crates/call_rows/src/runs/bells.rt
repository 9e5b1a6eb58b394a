//! Waits at a bell, which end.

use anyhow::Result;
use lane::Bell;
use std::rt::Clock;
use std::sync::Wait;
use std::sync::atomic::{AtomicU64, Ordering};
use std::thread;
use std::thread::Threads;
use std::time::{Duration, Instant};

/// How many seconds a wait may take: one whose ring was missed would take longer.
const LIMIT: u64 = 20;

/// The rounds of two threads, and those of four.
const TURNS: u32 = 5_000;

const ROUNDS: u32 = 2_000;

pub fn wait_ends<R: Wait + Clock>(rt: &R) -> Result<bool> {
    let bell = Bell::new();
    let start = Instant::now(rt)?;
    let mark = bell.mark();
    bell.ring();
    let has_rung = bell.mark() != mark;
    bell.wait_past(rt, mark, Duration::from_secs(30));
    let mark = bell.mark();
    bell.wait_past(rt, mark, Duration::from_millis(2));
    let is_still = bell.mark() == mark;
    Ok(has_rung && is_still && start.elapsed(rt)?.as_secs() < LIMIT)
}

/// Waits at the bell until the count has come so far.
fn wait_until(rt: &impl Wait, bell: &Bell, count: &AtomicU64, least: u64) {
    for _ in rt.forever() {
        let mark = bell.mark();
        if count.load(Ordering::SeqCst) >= least {
            break;
        }
        bell.wait_past(rt, mark, Duration::from_secs(LIMIT));
    }
}

/// Counts in turn with another thread, at one bell.
fn take_turns(rt: &impl Wait, bell: &Bell, count: &AtomicU64, first: u32) {
    for round in 0..TURNS {
        wait_until(rt, bell, count, first as u64 + 2 * round as u64);
        count.fetch_add(1, Ordering::SeqCst);
        bell.ring();
    }
}

/// Two threads that ring and wait in turn.
pub fn two_take_turns<R: Threads + Wait + Sync + Clock>(rt: &R) -> Result<bool> {
    let start = Instant::now(rt)?;
    let bell = Bell::new();
    let count = AtomicU64::new(0);
    thread::join(
        rt,
        || take_turns(rt, &bell, &count, 0),
        || take_turns(rt, &bell, &count, 1),
    );
    let is_whole = count.load(Ordering::SeqCst) == 2 * u64::from(TURNS);
    Ok(is_whole && start.elapsed(rt)?.as_secs() < LIMIT)
}

/// Counts and rings in each round, beside another thread, and waits until two others have done so
/// at their bell.
fn keep_pace(rt: &impl Wait, ours: (&Bell, &AtomicU64), theirs: (&Bell, &AtomicU64)) {
    for round in 0..ROUNDS {
        ours.1.fetch_add(1, Ordering::SeqCst);
        ours.0.ring();
        wait_until(rt, theirs.0, theirs.1, 2 * round as u64 + 2);
    }
}

/// Four threads: at each of the bells two ring and two wait.
pub fn two_ring_and_two_wait<R: Threads + Wait + Sync + Clock>(rt: &R) -> Result<bool> {
    let start = Instant::now(rt)?;
    let bells = (Bell::new(), Bell::new());
    let counts = (AtomicU64::new(0), AtomicU64::new(0));
    let left = (&bells.0, &counts.0);
    let right = (&bells.1, &counts.1);
    thread::join(
        rt,
        || {
            thread::join(
                rt,
                || keep_pace(rt, left, right),
                || keep_pace(rt, left, right),
            )
        },
        || {
            thread::join(
                rt,
                || keep_pace(rt, right, left),
                || keep_pace(rt, right, left),
            )
        },
    );
    let each = 2 * u64::from(ROUNDS);
    let is_whole = counts.0.load(Ordering::SeqCst) == each
        && counts.1.load(Ordering::SeqCst) == each;
    Ok(is_whole && start.elapsed(rt)?.as_secs() < LIMIT)
}
