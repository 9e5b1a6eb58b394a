//! How fast items and rings of a bell go from one thread to another.

use crate::sizes::{number, number32};
use anyhow::Result;
use lane::{Bell, RingLane, relay};
use std::alloc::Global;
use std::sync::Wait;
use std::sync::atomic::{AtomicBool, Ordering};
use std::thread::Threads;
use std::time::{Clock, Duration, Instant};
use std::{io, thread};

/// Each measurement once, small.
pub fn run_all<R: Threads + Wait + Sync + Print>(rt: &R, alloc: Global) -> Result<()> {
    let taken = relay_numbers(rt, alloc, 1_000, 16)?;
    ring_often(1_000);
    ring_awaited(rt, 1_000);
    println!(rt; "lane: {taken} of 1000 items were taken")?;
    Ok(())
}

/// `lane-relay ITEMS ROOM`: numbers through a `RingLane`.
pub fn relayed<R: Threads + Wait + Sync + Print + Clock>(
    rt: &R,
    alloc: Global,
    sizes: &[String],
) -> Result<()> {
    let items = number32(sizes, 0)?;
    let room = number(sizes, 1)?;
    let start = Instant::now(rt)?;
    let taken = relay_numbers(rt, alloc, items, room)?;
    let time = start.elapsed(rt)?.as_nanos();
    println!(rt; "{taken} items in {time} ns")?;
    Ok(())
}

/// `lane-ring RINGS`: a bell at which nobody waits.
pub fn rings<R: Print + Clock>(rt: &R, sizes: &[String]) -> Result<()> {
    let rings = number32(sizes, 0)?;
    let start = Instant::now(rt)?;
    ring_often(rings);
    let time = start.elapsed(rt)?.as_nanos();
    println!(rt; "{rings} rings in {time} ns")?;
    Ok(())
}

/// `lane-ring-awaited RINGS`: a bell at which another thread waits again after each ring.
pub fn rings_awaited<R: Threads + Wait + Sync + Print + Clock>(
    rt: &R,
    sizes: &[String],
) -> Result<()> {
    let rings = number32(sizes, 0)?;
    let start = Instant::now(rt)?;
    ring_awaited(rt, rings);
    let time = start.elapsed(rt)?.as_nanos();
    println!(rt; "{rings} rings in {time} ns")?;
    Ok(())
}

fn relay_numbers<R: Threads + Wait + Sync>(
    rt: &R,
    alloc: Global,
    items: u32,
    room: usize,
) -> io::Result<usize> {
    let mut numbers = Vec::with_capacity(alloc, items as usize)?;
    for number in 0..items {
        numbers.push(number as u64)?;
    }
    let (taken, _) = relay::<u64, RingLane<u64>, R>(rt, alloc, room, numbers.as_slice())?;
    Ok(taken.len())
}

fn ring_often(rings: u32) {
    let bell = Bell::new();
    for _ in 0..rings {
        bell.ring();
    }
}

fn ring_awaited<R: Threads + Wait + Sync>(rt: &R, rings: u32) {
    let bell = Bell::new();
    let done = AtomicBool::new(false);
    thread::join(
        rt,
        || {
            for _ in 0..rings {
                bell.ring();
            }
            done.store(true, Ordering::SeqCst);
            bell.ring();
        },
        || {
            for _ in rt.forever() {
                let mark = bell.mark();
                if done.load(Ordering::SeqCst) {
                    break;
                }
                bell.wait_past(rt, mark, Duration::from_millis(1));
            }
        },
    );
}
