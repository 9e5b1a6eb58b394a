//! The second ring of a `RingLane`, with room for all items of its queue and the last one.
ghost use Rattle.std.specs.Prelude.{◌≡◌, ◌+◌, ◌<◌, ◌≤◌, true, false, length};
ghost use Rattle.rtrb.specs.Ring.{sent, known_free, producer_capacity, received};
ghost use mathlib.Core.List.{IsPrefix};
ghost use Rattle.lane.specs.Lawful.{count_of};
ghost use Rattle.lane.specs.RingEnds.{producer_name, consumer_name};

use crate::lane::{End, Settled};
use rtrb::{Consumer, Producer, RingBuffer};
use std::alloc::{AllocError, Global};

/// The writing end. One free place is kept for the last item.
#[derive(Drop)]
pub(crate) struct SecondIn<T> {
    producer: Producer<T>,
    // How many items were put here.
    count: u64,
    ghost one_free: { 0 < known_free producer },
    ghost filled: { producer_capacity producer ≤ length (sent producer) + known_free producer },
    ghost counted: { count ≡ count_of (sent producer) },
}

/// What is left of the writing end after `last`.
#[derive(Drop)]
pub(crate) struct SecondShut<T> {
    producer: Producer<T>,
    count: u64,
    ghost some: { 0 < producer_capacity producer },
    ghost filled: { producer_capacity producer ≤ length (sent producer) + known_free producer },
    ghost counted: { count ≡ count_of (sent producer) },
}

/// The reading end.
#[derive(Drop)]
pub(crate) struct SecondOut<T> {
    consumer: Consumer<T>,
    count: u64,
    ghost counted: { count ≡ count_of (received consumer) },
}

/// A ring of `room + 1` places.
pub(crate) struct Second;

impl Second {
    ghost use Rattle.std.specs.Prelude.{[], ◌++◌, IfOk};
    ghost use Rattle.lane.specs.End.{of_end};
    ghost use Rattle.lane.specs.Second.{
      room_of,
      in_name,
      shut_name,
      out_name,
      put_in,
      put_shut,
      seen_taken,
      seen_shut,
      got,
      ahead,
    };

    /// An empty ring with room for `room` items and a last one.
    pub(crate) fn open<T: Drop>(
        alloc: Global,
        room: usize,
    ) -> Result<(SecondIn<T>, SecondOut<T>), AllocError>
        ensures name { IfOk result (λ r. in_name r.0 ≡ out_name r.1) }
        ensures room { IfOk result (λ r. room_of (in_name r.0) ≡ room) }
        ensures empty { IfOk result (λ r. (put_in r.0 ≡ []) × (got r.1 ≡ [])) }
        ensures seen { IfOk result (λ r. seen_taken r.0 ≡ 0) }
    {
        let slots = room.checked_add(1).ok_or(AllocError)?;
        let (producer, consumer) = RingBuffer::new(alloc, slots)?;
        Ok((
            SecondIn { producer, count: 0 },
            SecondOut { consumer, count: 0 },
        ))
    }

    /// How many items are still to get. What was got and then these items, which `poll` gives from
    /// now on, are what was put.
    pub(crate) fn meet<T>(tx: &mut SecondIn<T>, rx: &mut SecondOut<T>) -> u64
        requires { in_name tx.old ≡ out_name rx.old }
        ensures writer { (in_name tx.new ≡ in_name tx.old) × (put_in tx.new ≡ put_in tx.old) }
        ensures reader { (out_name rx.new ≡ out_name rx.old) × (got rx.new ≡ got rx.old) }
        ensures all { got rx.new ++ ahead rx.new ≡ put_in tx.new }
        ensures count { result ≡ length (ahead rx.new) }
        ensures seen { length (got rx.new) ≤ seen_taken tx.new }
        ensures rises { seen_taken tx.old ≤ seen_taken tx.new }
    {
        tx.producer.slots_beside(&mut rx.consumer);
        rx.consumer.slots_beside(&mut tx.producer) as u64
    }

    /// Brings the two ends together.
    pub(crate) fn settle<T: Drop>(end: End<SecondIn<T>, SecondShut<T>>, rx: SecondOut<T>) -> Settled
        requires { of_end in_name shut_name end ≡ out_name rx }
        ensures put { result.put ≡ count_of (of_end put_in put_shut end) }
        ensures got { result.got ≡ count_of (got rx) }
        ensures left { length (of_end put_in put_shut end) ≡ length (got rx) + result.left }
        ensures begins { IsPrefix (got rx) (of_end put_in put_shut end) }
        ensures seen { of_end seen_taken seen_shut end ≤ length (got rx) }
    {
        let SecondOut {
            consumer,
            count: got,
        } = rx;
        match end {
            End::Open(tx) => {
                let put = tx.count;
                let left = compare(tx.producer, consumer);
                Settled { put, got, left }
            }
            End::Shut(shut) => {
                let put = shut.count;
                let left = compare(shut.producer, consumer);
                Settled { put, got, left }
            }
        }
    }
}

impl<T: Drop> SecondIn<T> {
    ghost use Rattle.std.specs.Prelude.{[], ◌∷◌, ◌++◌};
    ghost use Rattle.lane.specs.Second.{
      room_of,
      in_name,
      shut_name,
      put_in,
      put_shut,
      seen_taken,
      seen_shut,
    };

    /// Looks how many of the items that were put this end hasn't seen taken.
    pub(crate) fn waiting(&mut self) -> u64
        ensures name { in_name self.new ≡ in_name self.old }
        ensures unchanged { put_in self.new ≡ put_in self.old }
        ensures seen { seen_taken self.old ≤ seen_taken self.new }
        ensures count { result + seen_taken self.new ≡ length (put_in self.new) }
        ensures within { result ≤ room_of (in_name self.new) }
    {
        (self.producer.capacity() - self.producer.slots()) as u64
    }

    /// Whether an item fits beside the last one.
    pub(crate) fn has_room(&mut self) -> bool
        ensures name { in_name self.new ≡ in_name self.old }
        ensures unchanged { put_in self.new ≡ put_in self.old }
        ensures seen { seen_taken self.old ≤ seen_taken self.new }
        ensures free { result ≡ true → 1 < known_free self.new.producer }
        ensures full { result ≡ false
            → room_of (in_name self.new) + seen_taken self.new ≡ length (put_in self.new) }
    {
        self.producer.cached_slots() >= 2 || self.producer.slots() >= 2
    }

    /// Puts an item that isn't the last.
    pub(crate) fn place(&mut self, item: T)
        requires { 1 < known_free self.old.producer }
        ensures name { in_name self.new ≡ in_name self.old }
        ensures seen { seen_taken self.new ≡ seen_taken self.old }
        ensures put { put_in self.new ≡ put_in self.old ++ item ∷ [] }
    {
        let SecondIn { producer, count } = self;
        producer.push_reserved(item);
        *count = count.saturating_add(1);
    }

    /// Puts the last item.
    pub(crate) fn last(self, item: T) -> SecondShut<T>
        ensures name { shut_name result ≡ in_name self }
        ensures seen { seen_shut result ≡ seen_taken self }
        ensures put { put_shut result ≡ put_in self ++ item ∷ [] }
    {
        let SecondIn {
            mut producer,
            count,
        } = self;
        producer.push_reserved(item);
        SecondShut {
            producer,
            count: count.saturating_add(1),
        }
    }
}

impl<T: Drop> SecondOut<T> {
    ghost use Rattle.std.specs.Prelude.{[], ◌∷◌, ◌++◌, MatchOption};
    ghost use Rattle.lane.specs.Second.{out_name, got, ahead};

    /// The next item of what was put, or nothing.
    pub(crate) fn poll(&mut self) -> Option<T>
        ensures name { out_name self.new ≡ out_name self.old }
        ensures got { MatchOption result
            (got self.new ≡ got self.old)
            (λ x. got self.new ≡ got self.old ++ x ∷ []) }
        ensures ahead { MatchOption result
            ((ahead self.old ≡ []) × (ahead self.new ≡ []))
            (λ x. 0 < length (ahead self.old) → ahead self.old ≡ x ∷ ahead self.new) }
    {
        if self.consumer.cached_slots() == 0 && self.consumer.slots() == 0 {
            return None;
        }
        let item = self.consumer.pop_known();
        self.count = self.count.saturating_add(1);
        Some(item)
    }
}

/// How many items were not popped. What was popped begins what was pushed.
fn compare<T: Drop>(mut producer: Producer<T>, mut consumer: Consumer<T>) -> u64
    requires { producer_name producer ≡ consumer_name consumer }
    ensures begins { IsPrefix (received consumer) (sent producer) }
    ensures left { length (sent producer) ≡ length (received consumer) + result }
    ensures within { length (sent producer) + known_free producer
        ≤ length (received consumer) + producer_capacity producer }
{
    producer.slots_beside(&mut consumer);
    consumer.slots_beside(&mut producer) as u64
}
