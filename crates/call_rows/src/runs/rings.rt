//! Rings have room again once items are got.

use anyhow::Result;
use lane::{Lane, PutFault, Ring, RingLane, poll_copy};
use std::alloc::Global;

type Numbers = RingLane<u64>;

/// That `put` looks again at what was taken is said by no clause.
pub fn has_room_again(alloc: Global) -> Result<bool> {
    let (mut tx, mut rx) = Numbers::open(alloc, 2)?;
    let mut holds = Numbers::put(&mut tx, 0).is_ok() && Numbers::put(&mut tx, 1).is_ok();
    for round in 0..1_000u64 {
        holds &= Numbers::check_room(&mut tx) == Err(2);
        holds &= Numbers::put(&mut tx, 7).is_err();
        holds &= poll_copy::<u64, Numbers>(&mut rx) == Some(round);
        holds &= Numbers::check_room(&mut tx) == Ok(());
        holds &= Numbers::put(&mut tx, round + 2).is_ok();
    }
    Ok(holds)
}

pub fn meeting_keeps(alloc: Global) -> Result<bool> {
    let (mut tx, mut rx) = Numbers::open(alloc, 2)?;
    let are_put = Numbers::put(&mut tx, 1).is_ok() && Numbers::put(&mut tx, 2).is_ok();
    let first = Numbers::poll(&mut rx).copied();
    let left = Numbers::meet(&mut tx, &mut rx);
    let polled = Numbers::polled(&mut rx).copied();
    let second = Numbers::poll(&mut rx).copied();
    Ok(are_put && left == 1 && first == Some(1) && polled == Some(1) && second == Some(2))
}

pub fn moves(alloc: Global) -> Result<bool> {
    let one = String::from_str(alloc, "one")?;
    let two = String::from_str(alloc, "two")?;
    let three = String::from_str(alloc, "three")?;
    let (mut tx, mut rx) = Ring::open(alloc, 1)?;
    let is_put = tx.put(one).is_ok();
    let is_refused = matches!(tx.put(two), Err(PutFault::Full { waiting: 1, .. }));
    let is_taken = rx.take().is_some();
    let is_put_again = tx.put(three).is_ok();
    Ok(is_put && is_refused && is_taken && is_put_again && Ring::meet(&mut tx, &mut rx) == 1)
}
