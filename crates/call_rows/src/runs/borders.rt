//! A lane whose reader meets the border of its two rings, wherever the writer went over it.

ghost use Rattle.std.specs.Prelude.{◌≡◌};
ghost use Rattle.lane.specs.RingLane.{in_name, out_name};

use anyhow::Result;
use lane::{End, Lane, PutFault, RingLane, RingLaneIn, RingLaneOut, poll_copy};
use std::alloc::Global;

type Numbers = RingLane<u64>;

/// The room of an inbound lane.
const ROOM: u64 = 65_536;

/// More items than a first ring has places for.
const SOME: u64 = 40;

/// Puts the numbers from `first` on, before `end`, and says whether each was put.
fn puts(tx: &mut RingLaneIn<u64>, first: u64, end: u64) -> bool
    ensures { in_name tx.new ≡ in_name tx.old }
{
    let mut are_put = true;
    for number in first..end {
        are_put &= Numbers::put(tx, number).is_ok();
    }
    are_put
}

/// Gets the numbers from `first` on, before `end`, and says whether each came in its turn.
fn gets(rx: &mut RingLaneOut<u64>, first: u64, end: u64) -> bool
    ensures { out_name rx.new ≡ out_name rx.old }
{
    let mut are_got = true;
    for number in first..end {
        are_got &= poll_copy::<u64, Numbers>(rx) == Some(number);
    }
    are_got
}

/// All that there is room for is put before any is got. Then it is full, and the last item still
/// has its place.
pub fn wait_all(alloc: Global) -> Result<bool> {
    let (mut tx, mut rx) = Numbers::open(alloc, ROOM as usize)?;
    let are_put = puts(&mut tx, 0, ROOM);
    let is_full = Numbers::check_room(&mut tx) == Err(ROOM)
        && matches!(
            Numbers::put(&mut tx, 7),
            Err(PutFault::Full {
                item: 7,
                waiting: ROOM
            })
        );
    let shut = Numbers::last(tx, ROOM);
    let are_got = gets(&mut rx, 0, ROOM + 1);
    let is_over = poll_copy::<u64, Numbers>(&mut rx).is_none();
    let settled = Numbers::settle(End::Shut(shut), rx);
    let is_settled = settled.put == ROOM + 1 && settled.got == ROOM + 1 && settled.left == 0;
    Ok(are_put && is_full && are_got && is_over && is_settled)
}

/// Each item is got as soon as it was put, so none goes over a border.
pub fn come_one_by_one(alloc: Global) -> Result<bool> {
    let (mut tx, mut rx) = Numbers::open(alloc, ROOM as usize)?;
    let mut holds = true;
    for number in 0..ROOM {
        holds &= puts(&mut tx, number, number + 1) && gets(&mut rx, number, number + 1);
    }
    let settled = Numbers::settle(End::Open(tx), rx);
    Ok(holds && settled.put == ROOM && settled.got == ROOM && settled.left == 0)
}

/// The reader is always a number of items after the writer, from where it has got `start` items.
fn is_followed(alloc: Global, start: u8, lag: u8) -> Result<bool> {
    let (start, lag) = (u64::from(start), u64::from(lag));
    let (mut tx, mut rx) = Numbers::open(alloc, ROOM as usize)?;
    let mut holds = puts(&mut tx, 0, start) && gets(&mut rx, 0, start);
    holds &= puts(&mut tx, start, start + lag);
    for number in start..start + SOME {
        holds &= gets(&mut rx, number, number + 1);
        holds &= puts(&mut tx, number + lag, number + lag + 1);
    }
    let settled = Numbers::settle(End::Open(tx), rx);
    Ok(holds && settled.got == start + SOME && settled.left == lag)
}

/// From each place of the first ring, with one item to get and with more than the ring has places
/// for.
pub fn follow(alloc: Global) -> Result<bool> {
    let mut holds = true;
    for start in 0..17 {
        for lag in 1..20 {
            holds &= is_followed(alloc, start, lag)?;
        }
    }
    Ok(holds)
}

/// Gets what a meeting promises, until it promises nothing, and says how many items came.
fn gets_what_is_there(tx: &mut RingLaneIn<u64>, rx: &mut RingLaneOut<u64>, first: u64) -> u64
    requires { in_name tx.old ≡ out_name rx.old }
    ensures { in_name tx.new ≡ out_name rx.new }
{
    let mut next = first;
    for _ in 0..SOME {
        let there = Numbers::meet(tx, rx);
        if !gets(rx, next, next.saturating_add(there)) {
            return 0;
        }
        next = next.saturating_add(there);
    }
    next.saturating_sub(first)
}

/// Where the ends meet, `got` items were got, and `left` more are there.
fn is_met(alloc: Global, got: u8, left: u8) -> Result<bool> {
    let (got, left) = (u64::from(got), u64::from(left));
    let (mut tx, mut rx) = Numbers::open(alloc, ROOM as usize)?;
    let begun = puts(&mut tx, 0, got + left) && gets(&mut rx, 0, got);
    let there = gets_what_is_there(&mut tx, &mut rx, got);
    let more = puts(&mut tx, got + left, got + left + 3);
    let shut = Numbers::last(tx, 7);
    let settled = Numbers::settle(End::Shut(shut), rx);
    Ok(begun && there == left && more && settled.put == got + left + 4 && settled.left == 4)
}

pub fn meet(alloc: Global) -> Result<bool> {
    let mut holds = true;
    for got in 0..20 {
        for left in 0..40 {
            holds &= is_met(alloc, got, left)?;
        }
    }
    Ok(holds)
}
