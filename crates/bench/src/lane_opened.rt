//! Lanes that are opened one after another, each for a few items.

use crate::sizes::{number, number32};
use anyhow::Result;
use lane::{Lane, RingLane};
use std::alloc::{AllocError, Global};
use std::rt::Clock;
use std::time::Instant;

/// The measurement once, small.
pub fn small<R: Print + AllocGlobal>(rt: &R) -> Result<()> {
    let taken = pass_all::<RingLane<u64>>(rt.alloc(), 10, 3)?;
    println!(rt; "lane-opened: {taken} items")?;
    Ok(())
}

/// `lane-opened LANES ITEMS`: ITEMS items and a last one through each of LANES `RingLane`s.
pub fn opened<R: Print + Clock + AllocGlobal>(rt: &R, sizes: &[String]) -> Result<()> {
    let lanes = number32(sizes, 0)?;
    let items = number(sizes, 1)?;
    let start = Instant::now(rt)?;
    let taken = pass_all::<RingLane<u64>>(rt.alloc(), lanes, items)?;
    let time = start.elapsed(rt)?.as_nanos();
    println!(rt; "{taken} items in {time} ns")?;
    Ok(())
}

/// How many items are taken from a number of lanes.
fn pass_all<L: Lane<Item = u64>>(
    alloc: Global,
    lanes: u32,
    items: usize,
) -> Result<u64, AllocError> {
    let mut taken = 0u64;
    for _ in 0..lanes {
        taken = taken.saturating_add(pass::<L>(alloc, items)?);
    }
    Ok(taken)
}

/// Puts a number of items and a last one, and takes them. Answers how many it took.
fn pass<L: Lane<Item = u64>>(alloc: Global, items: usize) -> Result<u64, AllocError> {
    let (mut tx, mut rx) = L::open(alloc, items)?;
    for _ in 0..items {
        let _placed = L::put(&mut tx, 7).is_ok();
    }
    let _shut = L::last(tx, 8);
    let mut taken = 0u64;
    for _ in 0..items.saturating_add(1) {
        if L::poll(&mut rx).is_some() {
            taken = taken.saturating_add(1);
        }
    }
    Ok(taken)
}
