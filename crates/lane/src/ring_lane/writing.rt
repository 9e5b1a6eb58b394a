//! How the writing end of a `RingLane` puts an item.
ghost use Rattle.std.specs.Prelude.{
  ◌≡◌,
  ◌+◌,
  ◌<◌,
  ◌≤◌,
  [],
  ◌∷◌,
  ◌++◌,
  true,
  false,
  length,
  None,
  Some,
  is_some,
  OnOk,
  OnErr,
  IfErr,
};
ghost use Rattle.rtrb.specs.Ring.{sent, known_free};
ghost use Rattle.lane.specs.RingEnds.{producer_name};
ghost use Rattle.lane.specs.PutFault.{item_of, MayRefuse};
ghost use Rattle.lane.specs.Steps.{pieces};
ghost use Rattle.lane.specs.Linked.{of_second, count_second};
ghost use Rattle.lane.specs.Firsts.{seen_first};
ghost use Rattle.lane.specs.RingLane.{in_name, put_in, seen_taken};
ghost use Rattle.lane.specs.Second.{
  in_name as second_in_name,
  out_name as second_out_name,
  put_in as second_put_in,
  seen_taken as second_seen_taken,
  room_of as second_room_of,
};

use super::RingLaneIn;
use super::second::{Second, SecondIn};
use super::step::{FreshRing, RingStep};
use crate::fault::PutFault;
use std::alloc::AllocError;

impl<T: Drop> RingLaneIn<T> {
    /// Looks how many items of the first ring this end hasn't seen taken.
    fn unseen(&mut self) -> u64
        ensures name { in_name self.new ≡ in_name self.old }
        ensures second { self.new.second ≡ self.old.second }
        ensures sent { sent self.new.first ≡ sent self.old.first }
        ensures seen { seen_first self.old.first ≤ seen_first self.new.first }
        ensures count { result + seen_first self.new.first ≡ length (pieces (sent self.new.first)) }
    {
        let capacity = self.first.capacity();
        if self.first.cached_slots() == capacity {
            return 0;
        }
        let waiting = (capacity - self.first.slots()) as u64;
        if self.second.is_some() {
            waiting.saturating_sub(1)
        } else {
            waiting
        }
    }

    /// Whether the first ring has room for an item beside the last one.
    fn has_room(&mut self) -> bool
        ensures name { in_name self.new ≡ in_name self.old }
        ensures second { self.new.second ≡ self.old.second }
        ensures sent { sent self.new.first ≡ sent self.old.first }
        ensures seen { seen_first self.old.first ≤ seen_first self.new.first }
        ensures free { result ≡ true → 1 < known_free self.new.first }
        ensures full { result ≡ false → known_free self.new.first ≤ 1 }
    {
        self.first.cached_slots() >= 2 || self.first.slots() >= 2
    }

    /// Whether there is room, where there is no second ring; `Err` has how many items wait.
    pub(super) fn look(&mut self) -> Result<(), u64>
        requires first { self.old.second ≡ None }
        ensures name { in_name self.new ≡ in_name self.old }
        ensures second { self.new.second ≡ None }
        ensures sent { sent self.new.first ≡ sent self.old.first }
        ensures seen { seen_taken self.old ≤ seen_taken self.new }
        ensures room { OnOk result
            (length (put_in self.new) < self.new.room + seen_taken self.new) }
        ensures full { IfErr result
            (λ waiting. (waiting + seen_taken self.new ≡ length (put_in self.new))
            × (self.new.room ≤ waiting)) }
    {
        if self.has_room() {
            return Ok(());
        }
        self.check_waiting()
    }

    /// Whether there is room, where the first ring has none and there is no second one; `Err` has
    /// how many items wait.
    fn check_waiting(&self) -> Result<(), u64>
        requires first { self.now.second ≡ None }
        requires full { known_free self.now.first ≤ 1 }
        ensures room { OnOk result
            (length (put_in self.now) < self.now.room + seen_taken self.now) }
        ensures wants { OnOk result (16 < self.now.room) }
        ensures full { IfErr result
            (λ waiting. (waiting + seen_taken self.now ≡ length (put_in self.now))
            × (self.now.room ≤ waiting)) }
    {
        let waiting = self.first.capacity() - 1;
        if waiting >= self.room {
            return Err(waiting as u64);
        }
        Ok(())
    }

    /// Whether there is room, where there is a second ring; `Err` has how many items wait.
    pub(super) fn look_on(&mut self) -> Result<(), u64>
        requires second { is_some self.old.second ≡ true }
        ensures name { in_name self.new ≡ in_name self.old }
        ensures second { is_some self.new.second ≡ true }
        ensures unchanged { put_in self.new ≡ put_in self.old }
        ensures seen { seen_taken self.old ≤ seen_taken self.new }
        ensures room { OnOk result
            (length (put_in self.new) < self.new.room + seen_taken self.new) }
        ensures full { IfErr result
            (λ waiting. (waiting + seen_taken self.new ≡ length (put_in self.new))
            × (self.new.room ≤ waiting)) }
    {
        let before = self.unseen();
        let room = self.room as u64;
        let Some(second) = &mut self.second else {
            return Ok(());
        };
        if before == 0 {
            return if second.has_room() { Ok(()) } else { Err(room) };
        }
        let waiting = before + second.waiting();
        if waiting >= room {
            Err(waiting)
        } else {
            Ok(())
        }
    }

    /// Puts an item where there is no second ring.
    pub(super) fn put_first(&mut self, item: T) -> Result<(), PutFault<T>>
        requires { self.old.second ≡ None }
        ensures name { in_name self.new ≡ in_name self.old }
        ensures seen { seen_taken self.old ≤ seen_taken self.new }
        ensures ok { OnOk result (put_in self.new ≡ put_in self.old ++ item ∷ []) }
        ensures unchanged { OnErr result (put_in self.new ≡ put_in self.old) }
        ensures handed_back { IfErr result (λ e. item_of e ≡ item) }
        ensures fault { IfErr result
            (MayRefuse (λ room. 16 < room) ⊥ self.old.room
            (length (put_in self.old)) (seen_taken self.new)) }
    {
        if self.has_room() {
            self.place(item);
            return Ok(());
        }
        if let Err(waiting) = self.check_waiting() {
            return Err(PutFault::Full { item, waiting });
        }
        self.grow(item)
    }

    /// Puts an item into the first ring.
    fn place(&mut self, item: T)
        requires first { self.old.second ≡ None }
        requires free { 1 < known_free self.old.first }
        ensures name { in_name self.new ≡ in_name self.old }
        ensures second { self.new.second ≡ None }
        ensures seen { seen_first self.old.first ≤ seen_first self.new.first }
        ensures sent { pieces (sent self.new.first) ≡ pieces (sent self.old.first) ++ item ∷ [] }
    {
        let RingLaneIn { first, count, .. } = self;
        first.push_reserved(RingStep::Piece(item));
        *count = count.saturating_add(1);
    }

    /// Puts an item into the second ring.
    pub(super) fn put_on(&mut self, item: T) -> Result<(), PutFault<T>>
        requires { is_some self.old.second ≡ true }
        ensures name { in_name self.new ≡ in_name self.old }
        ensures seen { seen_taken self.old ≤ seen_taken self.new }
        ensures ok { OnOk result (put_in self.new ≡ put_in self.old ++ item ∷ []) }
        ensures unchanged { OnErr result (put_in self.new ≡ put_in self.old) }
        ensures handed_back { IfErr result (λ e. item_of e ≡ item) }
        ensures fault { IfErr result
            (MayRefuse (λ room. 16 < room) ⊥ self.old.room
            (length (put_in self.old)) (seen_taken self.new)) }
    {
        if let Err(waiting) = self.look_on() {
            return Err(PutFault::Full { item, waiting });
        }
        if let Some(second) = &mut self.second {
            second.place(item);
        }
        Ok(())
    }

    /// Makes the second ring, puts an item into it, and hands its reading end over.
    fn grow(&mut self, item: T) -> Result<(), PutFault<T>>
        requires first { self.old.second ≡ None }
        requires room { length (put_in self.old) < self.old.room + seen_taken self.old }
        requires wants { 16 < self.old.room }
        ensures name { in_name self.new ≡ in_name self.old }
        ensures seen { seen_taken self.old ≤ seen_taken self.new }
        ensures ok { OnOk result (put_in self.new ≡ put_in self.old ++ item ∷ []) }
        ensures unchanged { OnErr result (put_in self.new ≡ put_in self.old) }
        ensures handed_back { IfErr result (λ e. item_of e ≡ item) }
        ensures fault { IfErr result
            (MayRefuse (λ room. 16 < room) ⊥ self.old.room
            (length (put_in self.old)) (seen_taken self.new)) }
    {
        let (mut tx, out) = match Second::open::<T>(self.alloc, self.room) {
            Ok(ends) => ends,
            Err(_) => return Err(PutFault::OutOfMemory(item)),
        };
        let mut out = match Box::new(self.alloc, out) {
            Ok(out) => out,
            Err(_) => return Err(PutFault::OutOfMemory(item)),
        };
        tx.place(item);
        let _one = Second::meet(&mut tx, &mut out);
        self.hand_over(tx, FreshRing { out });
        Ok(())
    }

    /// Goes on to the second ring.
    fn hand_over(&mut self, tx: SecondIn<T>, fresh: FreshRing<T>)
        requires first { self.old.second ≡ None }
        requires name { second_in_name tx ≡ second_out_name fresh.out.value }
        requires same_room { second_room_of (second_in_name tx) ≡ self.old.room }
        requires bound { length (pieces (sent self.old.first)) + length (second_put_in tx)
            ≤ seen_first self.old.first + second_seen_taken tx + self.old.room }
        ensures name { in_name self.new ≡ in_name self.old }
        ensures pieces { pieces (sent self.new.first) ≡ pieces (sent self.old.first) }
        ensures seen { seen_first self.old.first ≤ seen_first self.new.first }
        ensures second { self.new.second ≡ Some tx }
    {
        let RingLaneIn { first, second, .. } = self;
        first.push_reserved(RingStep::Next(fresh));
        *second = Some(tx);
    }
}
