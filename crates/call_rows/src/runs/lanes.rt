//! Both lanes: what was put is found, and the last item has its place.

use anyhow::Result;
use lane::{End, Lane, PutFault, RingLane, RowLane, poll_copy, relay};
use std::alloc::Global;
use std::sync::Wait;
use std::thread::Threads;

/// Items that cross from one thread to another.
const CROSSING: u64 = 65_536;

/// Room for two: the third item comes back with how many wait, the last one is placed, and the
/// others are found before it.
fn fills_and_empties<L: Lane<Item = u64>>(alloc: Global) -> Result<bool> {
    let (mut tx, mut rx) = L::open(alloc, 2)?;
    let are_put = L::put(&mut tx, 10).is_ok() && L::put(&mut tx, 11).is_ok();
    let is_full = is_full(&L::put(&mut tx, 12), 12, 2);
    let shut = L::last(tx, 13);
    let is_placed = L::placed(&shut);
    let first = poll_copy::<u64, L>(&mut rx);
    let polled = L::polled(&mut rx).copied();
    let second = poll_copy::<u64, L>(&mut rx);
    let last = poll_copy::<u64, L>(&mut rx);
    let nothing = poll_copy::<u64, L>(&mut rx);
    let settled = L::settle(End::Shut(shut), rx);
    let are_got = first == Some(10) && polled == Some(10) && second == Some(11);
    let is_end = last == Some(13) && nothing.is_none();
    let is_settled = settled.put == 3 && settled.got == 3 && settled.left == 0;
    Ok(are_put && is_full && is_placed && are_got && is_end && is_settled)
}

/// Whether a queue handed this item back, since this many waited.
fn is_full(put: &Result<(), PutFault<u64>>, refused: u64, wait: u64) -> bool {
    matches!(put, Err(PutFault::Full { item, waiting }) if *item == refused && *waiting == wait)
}

pub fn fill_and_empty(alloc: Global) -> Result<bool> {
    let of_rings = fills_and_empties::<RingLane<u64>>(alloc)?;
    Ok(fills_and_empties::<RowLane<u64>>(alloc)? && of_rings)
}

/// The writing end of a row of cells sees no taking.
pub fn rows_stay_full(alloc: Global) -> Result<bool> {
    let (mut tx, mut rx) = RowLane::open(alloc, 2)?;
    let are_put = RowLane::put(&mut tx, 10).is_ok() && RowLane::put(&mut tx, 11).is_ok();
    let are_got = poll_copy::<u64, RowLane<u64>>(&mut rx) == Some(10)
        && poll_copy::<u64, RowLane<u64>>(&mut rx) == Some(11);
    let is_refused = is_full(&RowLane::put(&mut tx, 12), 12, 2);
    Ok(are_put && are_got && is_refused && RowLane::check_room(&mut tx) == Err(2))
}

/// Each item finds its place and is found there, the last one too.
fn is_found<L: Lane<Item = u64>>(alloc: Global, room: u32) -> Result<bool> {
    let (mut tx, mut rx) = L::open(alloc, room as usize)?;
    let mut are_found = true;
    for item in 0..room {
        let put = L::put(&mut tx, u64::from(item)).is_ok();
        are_found &= put && poll_copy::<u64, L>(&mut rx) == Some(u64::from(item));
    }
    let shut = L::last(tx, 7);
    Ok(are_found && L::placed(&shut) && poll_copy::<u64, L>(&mut rx) == Some(7))
}

pub fn are_found(alloc: Global) -> Result<bool> {
    let mut are_found = true;
    for room in [0, 1, 2, 3, 15, 16, 17, 18, 255, 256] {
        are_found &= is_found::<RingLane<u64>>(alloc, room)?;
        are_found &= is_found::<RowLane<u64>>(alloc, room)?;
    }
    Ok(are_found)
}

fn crosses<L: Lane<Item = u64> + Send, R: Threads + Wait + Sync>(
    rt: &R,
    alloc: Global,
    room: usize,
) -> Result<bool> {
    let mut items = Vec::new(alloc);
    for item in 0..CROSSING {
        items.push(item * 3)?;
    }
    let (taken, settled) = relay::<u64, L, _>(rt, alloc, room, items.as_slice())?;
    Ok(taken.as_slice() == items.as_slice() && settled.left == 0)
}

pub fn cross_threads<R: Threads + Wait + Sync>(rt: &R, alloc: Global) -> Result<bool> {
    let narrow = crosses::<RingLane<u64>, R>(rt, alloc, 1)?;
    let wide = crosses::<RingLane<u64>, R>(rt, alloc, 256)?;
    Ok(crosses::<RowLane<u64>, R>(rt, alloc, CROSSING as usize)? && narrow && wide)
}

pub fn fault_texts(alloc: Global) -> Result<bool> {
    let full = PutFault::Full {
        item: 5u8,
        waiting: 3,
    };
    let full = format!(in alloc; "{full}")?;
    let memory = format!(in alloc; "{}", PutFault::OutOfMemory(6u8))?;
    let not_taken = format!(in alloc; "{}", PutFault::NotTaken(7u8))?;
    Ok(
        full.as_str() == "the queue is full: 3 items wait"
            && memory.as_str() == "out of memory for an item"
            && not_taken.as_str() == "the place of the item was taken",
    )
}
