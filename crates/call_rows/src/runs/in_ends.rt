//! The two ends of the in side, over a ring, and over a row of cells.
ghost use Rattle.std.specs.Prelude.{◌≡◌, OnOk};

use account::{OutItem, RequestEnd, Shut};
use anyhow::Result;
use bytes::Bytes;
use callbox::{Feeder, InAccount, InPiece, Taken, Taker, open_call, settle_in};
use lane::{End, Lane, RingLane, RowLane};
use lpm::LpmFault;
use std::alloc::Global;

/// Takes, and takes once more where memory ran out: what was polled is there then.
fn take_patiently<L: Lane<Item = InPiece>>(taker: &mut Taker<L>) -> Taken
    ensures { L.out_name taker.new.rx ≡ L.out_name taker.old.rx }
{
    match taker.take() {
        Taken::Fault(LpmFault::OutOfMemory) => taker.take(),
        taken => taken,
    }
}

/// Feeds a piece, and answers whether it is taken.
fn feeds<L: Lane<Item = InPiece>>(
    alloc: Global,
    feeder: &mut Feeder<L>,
    piece: &[u8],
) -> Result<bool>
    ensures { OnOk result (L.in_name feeder.new.tx ≡ L.in_name feeder.old.tx) }
{
    Ok(feeder.feed(Bytes::copy_from_slice(alloc, piece)?).is_ok())
}

/// Whether the next message has this many bytes, and this much credit returns with it.
fn takes<L: Lane<Item = InPiece>>(taker: &mut Taker<L>, len: usize, credit: u32) -> bool
    ensures { L.out_name taker.new.rx ≡ L.out_name taker.old.rx }
{
    match take_patiently(taker) {
        Taken::Message(message) => message.len() == len && taker.credit() == credit,
        _ => false,
    }
}

pub fn keep_what_was_polled(alloc: Global) -> Result<bool> {
    let (mut feeder, mut taker, _, _) = open_call::<RingLane<InPiece>, RingLane<OutItem>>(
        alloc, 1, 3, 0,
    )?;
    // A message's first bytes; its last one, with an empty message and the first bytes of another;
    // and that one's last.
    let are_fed = feeds(alloc, &mut feeder, &[0, 0, 0])?
        && feeds(alloc, &mut feeder, &[0, 1, 0x41, 0, 0, 0, 0, 0])?
        && feeds(alloc, &mut feeder, &[0, 0, 0, 0, 0])?;
    let is_first = takes(&mut taker, 1, 11);
    // The second message came whole with the first, so no other piece is polled for it.
    let is_second = takes(&mut taker, 0, 0);
    let is_third = takes(&mut taker, 0, 5);
    let shut = feeder.end();
    let is_end = matches!(take_patiently(&mut taker), Taken::End);
    let wanted = InAccount {
        fed: 16,
        shut: Some(Shut::End),
        taken: 3,
        told: Some(RequestEnd::End),
    };
    let is_settled = settle_in(End::Shut(shut), taker) == wanted;
    Ok(are_fed && is_first && is_second && is_third && is_end && is_settled)
}

/// A message in two pieces, and a piece of the next, which isn't polled for it: the bytes of two
/// return.
fn credits_what_was_polled<L: Lane<Item = InPiece>>(alloc: Global) -> Result<bool> {
    let (mut feeder, mut taker, _, _) = open_call::<L, RingLane<OutItem>>(alloc, 1, 3, 0)?;
    let are_fed = feeds(alloc, &mut feeder, &[0, 0, 0])?
        && feeds(alloc, &mut feeder, &[0, 1, 0x41])?
        && feeds(alloc, &mut feeder, &[0])?;
    Ok(are_fed && takes(&mut taker, 1, 6))
}

pub fn credit_what_was_polled(alloc: Global) -> Result<bool> {
    let of_rings = credits_what_was_polled::<RingLane<InPiece>>(alloc)?;
    Ok(credits_what_was_polled::<RowLane<InPiece>>(alloc)? && of_rings)
}
