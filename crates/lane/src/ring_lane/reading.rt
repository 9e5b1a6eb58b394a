//! How the reading end of a `RingLane` gets an item.
ghost use Rattle.std.specs.Prelude.{
  ◌≡◌,
  ◌<◌,
  [],
  ◌∷◌,
  ◌++◌,
  true,
  false,
  length,
  None,
  is_some,
  MatchOption,
};
ghost use Rattle.rtrb.specs.Ring.{received, known_items};
ghost use Rattle.lane.specs.Steps.{link};
ghost use Rattle.lane.specs.RingLane.{out_name, got, ahead};

use super::RingLaneOut;
use super::step::{FreshRing, RingStep};

impl<T: Drop> RingLaneOut<T> {
    /// Gets the next item, or says that none was found.
    pub(super) fn get(&mut self) -> bool
        ensures name { out_name self.new ≡ out_name self.old }
        ensures found { result ≡ true → MatchOption self.new.polled ⊥ (λ item.
            (got self.new ≡ got self.old ++ item ∷ [])
            × (0 < length (ahead self.old) → ahead self.old ≡ item ∷ ahead self.new)) }
        ensures none { result ≡ false
            → (got self.new ≡ got self.old) × (ahead self.old ≡ []) × (ahead self.new ≡ []) }
    {
        if self.second.is_some() {
            return self.get_on();
        }
        if !self.has_step() {
            return false;
        }
        self.take();
        true
    }

    /// Gets the next item of the second ring.
    fn get_on(&mut self) -> bool
        requires { is_some self.old.second ≡ true }
        ensures name { out_name self.new ≡ out_name self.old }
        ensures found { result ≡ true → MatchOption self.new.polled ⊥ (λ item.
            (got self.new ≡ got self.old ++ item ∷ [])
            × (0 < length (ahead self.old) → ahead self.old ≡ item ∷ ahead self.new)) }
        ensures none { result ≡ false
            → (got self.new ≡ got self.old) × (ahead self.old ≡ []) × (ahead self.new ≡ []) }
    {
        let Some(second) = &mut self.second else {
            return false;
        };
        let Some(item) = second.poll() else {
            return false;
        };
        self.polled = Some(item);
        true
    }

    /// Whether the first ring holds something.
    fn has_step(&mut self) -> bool
        requires { self.old.second ≡ None }
        ensures name { out_name self.new ≡ out_name self.old }
        ensures second { self.new.second ≡ None }
        ensures got { got self.new ≡ got self.old }
        ensures known { result ≡ true → 0 < length (known_items self.new.first) }
        ensures ahead { 0 < length (ahead self.old) → ahead self.new ≡ ahead self.old }
        ensures none { result ≡ false → (ahead self.old ≡ []) × (ahead self.new ≡ []) }
    {
        self.first.cached_slots() > 0 || self.first.slots() > 0
    }

    /// Takes what the first ring holds next. Where it is the way on, goes on.
    fn take(&mut self)
        requires first { self.old.second ≡ None }
        requires known { 0 < length (known_items self.old.first) }
        ensures name { out_name self.new ≡ out_name self.old }
        ensures item { MatchOption self.new.polled ⊥ (λ item.
            (got self.new ≡ got self.old ++ item ∷ [])
            × (0 < length (ahead self.old) → ahead self.old ≡ item ∷ ahead self.new)) }
    {
        let RingLaneOut {
            first,
            second,
            count,
            polled,
            ..
        } = self;
        match first.pop_known() {
            RingStep::Piece(item) => {
                *count = count.saturating_add(1);
                *polled = Some(item);
            }
            RingStep::Next(fresh) => {
                let FreshRing { out } = fresh;
                let mut out = Box::into_inner(out);
                match out.poll() {
                    Some(item) => {
                        *second = Some(out);
                        *polled = Some(item);
                    }
                    None => unreachable!(),
                }
            }
        }
    }

    /// Goes on to the second ring, where the way on is all that the first one holds.
    pub(super) fn go_on(&mut self)
        requires first { self.old.second ≡ None }
        requires known { length (known_items self.old.first) ≡ 1 }
        requires way { link (received self.old.first ++ known_items self.old.first) ≡ None → ⊥ }
        ensures name { out_name self.new ≡ out_name self.old }
        ensures second { is_some self.new.second ≡ true }
        ensures got { got self.new ≡ got self.old }
    {
        let RingLaneOut { first, second, .. } = self;
        match first.pop_known() {
            RingStep::Piece(_) => unreachable!(),
            RingStep::Next(fresh) => {
                let FreshRing { out } = fresh;
                *second = Some(Box::into_inner(out));
            }
        }
    }
}
