//! A ring without a last item.
ghost use Rattle.std.specs.Prelude.{◌≡◌, ◌+◌, ◌≤◌, length};
ghost use Rattle.rtrb.specs.Ring.{sent, known_free, producer_capacity};

use crate::fault::PutFault;
use rtrb::{Consumer, Producer, RingBuffer};
use std::alloc::{AllocError, Global};

/// The putting end of a ring.
#[derive(Drop)]
pub struct RingIn<T> {
    producer: Producer<T>,
    ghost filled: { producer_capacity producer ≤ length (sent producer) + known_free producer },
}

/// The taking end of a ring.
#[derive(Drop)]
pub struct RingOut<T> {
    consumer: Consumer<T>,
}

/// A queue from one writer to one reader for items that the reader keeps.
///
/// It differs from a `Lane` in two ways: `take` moves the item out, and there is no last item.
pub struct Ring;

impl Ring {
    ghost use Rattle.std.specs.Prelude.{[], ◌++◌, IfOk};
    ghost use Rattle.lane.specs.RingEnds.{slots_of};
    ghost use Rattle.lane.specs.Ring.{in_name, out_name, put_in, seen_taken, taken, ahead};

    /// Makes an empty ring.
    pub fn open<T: Drop>(alloc: Global, slots: usize) -> Result<(RingIn<T>, RingOut<T>), AllocError>
        ensures name { IfOk result (λ r. in_name r.0 ≡ out_name r.1) }
        ensures slots { IfOk result (λ r. slots_of (in_name r.0) ≡ slots) }
        ensures empty { IfOk result (λ r. (put_in r.0 ≡ []) × (taken r.1 ≡ [])) }
        ensures seen { IfOk result (λ r. seen_taken r.0 ≡ 0) }
    {
        let (producer, consumer) = RingBuffer::new(alloc, slots)?;
        Ok((RingIn { producer }, RingOut { consumer }))
    }

    /// How many items are still to take. What was taken and then these items, which `take` gives
    /// from now on, are what was put.
    pub fn meet<T>(tx: &mut RingIn<T>, rx: &mut RingOut<T>) -> u64
        requires { in_name tx.old ≡ out_name rx.old }
        ensures writer { (in_name tx.new ≡ in_name tx.old) × (put_in tx.new ≡ put_in tx.old) }
        ensures reader { (out_name rx.new ≡ out_name rx.old) × (taken rx.new ≡ taken rx.old) }
        ensures all { taken rx.new ++ ahead rx.new ≡ put_in tx.new }
        ensures count { result ≡ length (ahead rx.new) }
        ensures seen { length (taken rx.new) ≤ seen_taken tx.new }
    {
        tx.producer.slots_beside(&mut rx.consumer);
        rx.consumer.slots_beside(&mut tx.producer) as u64
    }
}

impl<T> RingIn<T> {
    ghost use Rattle.std.specs.Prelude.{[], ◌∷◌, ◌++◌, true, false, IsOk, OnOk, OnErr, IfErr};
    ghost use Rattle.lane.specs.RingEnds.{slots_of};
    ghost use Rattle.lane.specs.PutFault.{item_of, IsFull};
    ghost use Rattle.lane.specs.Ring.{HasRoom, in_name, put_in, seen_taken};

    /// Whether a slot is free. Where one is, the next `put` puts its item.
    pub fn has_room(&mut self) -> bool
        ensures name { in_name self.new ≡ in_name self.old }
        ensures put { put_in self.new ≡ put_in self.old }
        ensures seen { seen_taken self.old ≤ seen_taken self.new }
        ensures free { result ≡ true → HasRoom self.new }
        ensures full { result ≡ false → length (put_in self.new)
            ≡ seen_taken self.new + slots_of (in_name self.new) }
    {
        !self.producer.is_full()
    }

    /// Puts the item after all others, or hands it back. It takes no memory.
    pub fn put(&mut self, item: T) -> Result<(), PutFault<T>>
        ensures name { in_name self.new ≡ in_name self.old }
        ensures seen { seen_taken self.old ≤ seen_taken self.new }
        ensures ok { OnOk result (put_in self.new ≡ put_in self.old ++ item ∷ []) }
        ensures unchanged { OnErr result (put_in self.new ≡ put_in self.old) }
        ensures handed_back { IfErr result (λ e. item_of e ≡ item) }
        ensures full { IfErr result
            (IsFull (slots_of (in_name self.old)) (length (put_in self.old))
            (seen_taken self.new)) }
        ensures succeeds { HasRoom self.old → IsOk result }
    {
        if self.producer.is_full() {
            let waiting = self.producer.capacity() as u64;
            return Err(PutFault::Full { item, waiting });
        }
        self.producer.push_reserved(item);
        Ok(())
    }
}

impl<T> RingOut<T> {
    ghost use Rattle.std.specs.Prelude.{[], ◌∷◌, ◌++◌, ◌<◌, MatchOption};
    ghost use Rattle.lane.specs.Ring.{out_name, taken, ahead};

    /// The next item of what was put, or nothing. It takes no memory.
    pub fn take(&mut self) -> Option<T>
        ensures name { out_name self.new ≡ out_name self.old }
        ensures taken { MatchOption result
            (taken self.new ≡ taken self.old)
            (λ x. taken self.new ≡ taken self.old ++ x ∷ []) }
        ensures ahead { MatchOption result
            ((ahead self.old ≡ []) × (ahead self.new ≡ []))
            (λ x. 0 < length (ahead self.old) → ahead self.old ≡ x ∷ ahead self.new) }
    {
        if self.consumer.cached_slots() == 0 && self.consumer.slots() == 0 {
            return None;
        }
        Some(self.consumer.pop_known())
    }
}
