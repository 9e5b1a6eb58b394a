//! A lane over a ring, and over a second, larger one once more items wait than the first has places
//! for.
//!
//! The writer keeps one place of the first ring free, for the last item or for the way on, which is
//! the reading end of the second ring. So `last` always finds a place, and the reader needs no
//! memory.
//!
//! An item has to be moved out of the ring before its place is free, and `poll` answers a reference
//! to it. So the item stays in the reading end (`polled`) until the next poll that finds one.
//!
//! `meet` isn't in the trait, since a `RowLane` can't answer it.
ghost use Rattle.std.specs.Prelude.{◌≡◌, ◌+◌, ◌<◌, ◌≤◌, ◌^◌, ◌++◌, min, true, length};
ghost use Rattle.std.specs.Coded.{Coded-set, coded_option};
ghost use Rattle.rtrb.specs.Ring.{sent, known_free, producer_capacity, received};
ghost use Rattle.lane.specs.Lawful.{count_of, last_of};
ghost use Rattle.lane.specs.RingEnds.{RingName_set};
ghost use Rattle.lane.specs.Steps.{pieces, link, closed};
ghost use Rattle.lane.specs.Linked.{of_second, count_second, count_or, kept, Linked, Linked-prop};
ghost use Rattle.lane.specs.Firsts.{seen_first};
ghost use Rattle.lane.specs.Second.{
  in_name as second_in_name,
  out_name as second_out_name,
  shut_name as second_shut_name,
  put_in as second_put_in,
  put_shut as second_put_shut,
  seen_taken as second_seen_taken,
  seen_shut as second_seen_shut,
  got as second_got,
  room_of as second_room_of,
};

mod meeting;
mod reading;
mod second;
mod settling;
mod step;
mod writing;

use crate::fault::PutFault;
use crate::lane::{End, Lane, Settled};
use meeting::{meet_at_border, meet_before, meet_on};
use rtrb::{Consumer, Producer, RingBuffer};
use second::{SecondIn, SecondOut, SecondShut};
use settling::settle_rings;
use std::alloc::{AllocError, Global};
use std::marker::PhantomData;
use step::RingStep;

/// How many places a first ring has at most. So a lane with room for 16 items has no second ring.
const FIRST_PLACES: usize = 17;

/// The writing end of a `RingLane`.
#[derive(Drop)]
pub struct RingLaneIn<T> {
    first: Producer<RingStep<T>>,
    // The second ring, once the writer went on to it.
    second: Option<SecondIn<T>>,
    room: usize,
    // How many items went through the first ring.
    count: u64,
    alloc: Global,
    ghost fits: { room + 1 < 2 ^ 64 },
    ghost places: { producer_capacity first ≡ min (room + 1) 17 },
    ghost filled: { producer_capacity first ≤ length (sent first) + known_free first },
    ghost one_free: { kept second ≤ known_free first },
    ghost counted: { count ≡ count_of (pieces (sent first)) },
    ghost closed: { closed (sent first) ≡ true },
    ghost linked: { Linked second_in_name (λ fresh. second_out_name fresh.out.value)
        (link (sent first)) second } by { Linked-prop second_in_name
            (λ fresh. second_out_name fresh.out.value) RingName_set (link (sent first)) second },
    ghost same_room: { count_or (λ tx. second_room_of (second_in_name tx)) room second ≡ room },
    ghost bound: { length (pieces (sent first)) + length (of_second second_put_in second)
        ≤ seen_first first + count_second second_seen_taken second + room },
}

/// What is left of the writing end after `last`.
#[derive(Drop)]
pub struct RingLaneShut<T> {
    first: Producer<RingStep<T>>,
    second: Option<SecondShut<T>>,
    room: usize,
    count: u64,
    ghost fits: { room + 1 < 2 ^ 64 },
    ghost filled: { producer_capacity first ≤ length (sent first) + known_free first },
    ghost counted: { count ≡ count_of (pieces (sent first)) },
    ghost closed: { closed (sent first) ≡ true },
    ghost linked: { Linked second_shut_name (λ fresh. second_out_name fresh.out.value)
        (link (sent first)) second } by { Linked-prop second_shut_name
            (λ fresh. second_out_name fresh.out.value) RingName_set (link (sent first)) second },
    ghost bound: { length (pieces (sent first)) + length (of_second second_put_shut second)
        ≤ seen_first first + count_second second_seen_shut second + room + 1 },
}

/// The reading end of a `RingLane`.
#[derive(Drop)]
pub struct RingLaneOut<T> {
    first: Consumer<RingStep<T>>,
    // The second ring, once the way on was taken.
    second: Option<SecondOut<T>>,
    room: usize,
    // How many items came through the first ring.
    count: u64,
    // The last item that was got, which the caller may still look at.
    polled: Option<T>,
    ghost counted: { count ≡ count_of (pieces (received first)) },
    ghost linked: { Linked second_out_name (λ fresh. second_out_name fresh.out.value)
        (link (received first)) second } by { Linked-prop second_out_name
            (λ fresh. second_out_name fresh.out.value) RingName_set
            (link (received first)) second },
    ghost kept: { polled
        ≡ last_of (pieces (received first) ++ of_second second_got second) } by { Coded-set
            (coded_option T.code) polled
            (last_of (pieces (received first) ++ of_second second_got second)) },
}

/// A lane over a ring of 17 places, or of `room + 1` if that is less; and over a ring of `room + 1`
/// places once 16 items wait in the first and there is room for more.
///
/// `put` takes memory only for the second ring, once, and never where the room is 16 or less. It
/// has room again as items are got.
pub struct RingLane<T> {
    marker: PhantomData<T>,
}

impl<T: Send + Sync + Drop> Lane for RingLane<T> {
    ghost use Rattle.std.specs.Prelude.{[], ◌∷◌};
    ghost use Rattle.lane.specs.End.{of_end, has_last};
    ghost use Rattle.lane.specs.Lawful.{IsLawful};
    ghost use Rattle.lane.specs.RingLane.{
      LaneName,
      LaneName_set,
      room_of,
      in_name,
      shut_name,
      out_name,
      put_in,
      put_shut,
      seen_taken,
      got,
      ahead,
    };

    type Item = T;

    type In = RingLaneIn<T>;

    type Out = RingLaneOut<T>;

    type Shut = RingLaneShut<T>;

    ghost Name = { LaneName };

    ghost name_set = { LaneName_set };

    ghost in_name = { in_name };

    ghost out_name = { out_name };

    ghost shut_name = { shut_name };

    ghost room_of = { room_of };

    ghost put_in = { put_in };

    ghost put_shut = { put_shut };

    ghost was_placed = { λ _. true };

    ghost seen_taken = { seen_taken };

    ghost got = { got };

    ghost ahead = { ahead };

    ghost WantsMemory = { λ room. 16 < room };

    ghost MayMiss = { ⊥ };

    fn open(alloc: Global, room: usize) -> Result<(RingLaneIn<T>, RingLaneOut<T>), AllocError> {
        let slots = room.checked_add(1).ok_or(AllocError)?;
        slots.checked_add(1).ok_or(AllocError)?;
        let (producer, consumer) = RingBuffer::new(alloc, slots.min(FIRST_PLACES))?;
        let tx = RingLaneIn {
            first: producer,
            second: None,
            room,
            count: 0,
            alloc,
        };
        let rx = RingLaneOut {
            first: consumer,
            second: None,
            room,
            count: 0,
            polled: None,
        };
        Ok((tx, rx))
    }

    fn check_room(tx: &mut RingLaneIn<T>) -> Result<(), u64> {
        if tx.second.is_some() {
            tx.look_on()
        } else {
            tx.look()
        }
    }

    fn put(tx: &mut RingLaneIn<T>, item: T) -> Result<(), PutFault<T>> {
        if tx.second.is_some() {
            tx.put_on(item)
        } else {
            tx.put_first(item)
        }
    }

    fn last(tx: RingLaneIn<T>, item: T) -> RingLaneShut<T> {
        let RingLaneIn {
            mut first,
            second,
            room,
            count,
            alloc: _,
        } = tx;
        match second {
            Some(second) => {
                return RingLaneShut {
                    first,
                    second: Some(second.last(item)),
                    room,
                    count,
                };
            }
            None => {}
        }
        first.push_reserved(RingStep::Piece(item));
        RingLaneShut {
            first,
            second: None,
            room,
            count: count.saturating_add(1),
        }
    }

    fn placed(_shut: &RingLaneShut<T>) -> bool {
        true
    }

    fn poll(rx: &mut RingLaneOut<T>) -> Option<&T> {
        if rx.get() { rx.polled.as_ref() } else { None }
    }

    fn polled(rx: &mut RingLaneOut<T>) -> Option<&T> {
        rx.polled.as_ref()
    }

    fn settle(end: End<RingLaneIn<T>, RingLaneShut<T>>, rx: RingLaneOut<T>) -> Settled
        requires { of_end in_name shut_name end ≡ out_name rx }
        ensures put { result.put ≡ count_of (of_end put_in put_shut end) }
        ensures got { result.got ≡ count_of (got rx) }
        ensures left { length (of_end put_in put_shut end) ≡ length (got rx) + result.left }
        ensures lawful { IsLawful (room_of (out_name rx)) (has_last (λ _. true) end)
            (of_end put_in put_shut end) (got rx) }
    {
        let RingLaneOut {
            first: reading,
            second: out,
            count: got,
            ..
        } = rx;
        match end {
            End::Open(tx) => {
                let RingLaneIn {
                    first,
                    second,
                    count: put,
                    ..
                } = tx;
                let second = match second {
                    Some(second) => Some(End::Open(second)),
                    None => None,
                };
                settle_rings::<T>(first, second, reading, out).beside(put, got)
            }
            End::Shut(shut) => {
                let RingLaneShut {
                    first,
                    second,
                    count: put,
                    ..
                } = shut;
                let second = match second {
                    Some(second) => Some(End::Shut(second)),
                    None => None,
                };
                settle_rings::<T>(first, second, reading, out).beside(put, got)
            }
        }
    }
}

impl<T: Drop> RingLane<T> {
    ghost use mathlib.Core.List.{IsPrefix};
    ghost use Rattle.lane.specs.RingLane.{in_name, out_name, put_in, seen_taken, got, ahead};

    /// How many items `poll` gives for sure from now on. What was got and then these items begin
    /// what was put. At 0 all was got.
    pub fn meet(tx: &mut RingLaneIn<T>, rx: &mut RingLaneOut<T>) -> u64
        requires { in_name tx.old ≡ out_name rx.old }
        ensures writer { (in_name tx.new ≡ in_name tx.old) × (put_in tx.new ≡ put_in tx.old) }
        ensures reader { (out_name rx.new ≡ out_name rx.old) × (got rx.new ≡ got rx.old) }
        ensures begins { IsPrefix (got rx.new ++ ahead rx.new) (put_in tx.new) }
        ensures count { result ≡ length (ahead rx.new) }
        ensures all { result ≡ 0 → got rx.new ≡ put_in tx.new }
        ensures seen { length (got rx.new) ≤ seen_taken tx.new }
    {
        if rx.second.is_some() {
            return meet_on(tx, rx);
        }
        if tx.second.is_some() {
            return meet_at_border(tx, rx);
        }
        meet_before(tx, rx)
    }
}
