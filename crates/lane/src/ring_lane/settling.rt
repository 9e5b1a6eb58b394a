//! The ends of a `RingLane`, brought together.
ghost use Rattle.std.specs.Prelude.{◌≡◌, ◌+◌, ◌<◌, ◌≤◌, ◌^◌, ◌++◌, min, true, None, length};
ghost use Rattle.std.specs.Option.{option_map};
ghost use Rattle.rtrb.specs.Ring.{sent, known_free, producer_capacity, received, known_items};
ghost use mathlib.Core.List.{IsPrefix};
ghost use Rattle.lane.specs.End.{of_end};
ghost use Rattle.lane.specs.Lawful.{count_of};
ghost use Rattle.lane.specs.RingEnds.{producer_name, consumer_name, popped_count};
ghost use Rattle.lane.specs.Steps.{pieces, link, closed, after};
ghost use Rattle.lane.specs.Linked.{of_second, count_second, Linked};
ghost use Rattle.lane.specs.Firsts.{seen_first};
ghost use Rattle.lane.specs.Second.{
  in_name as second_in_name,
  out_name as second_out_name,
  shut_name as second_shut_name,
  put_in as second_put_in,
  put_shut as second_put_shut,
  seen_taken as second_seen_taken,
  seen_shut as second_seen_shut,
  got as second_got,
};

use super::second::{Second, SecondIn, SecondOut, SecondShut};
use super::step::{FreshRing, RingStep};
use crate::lane::{End, Settled};
use rtrb::{Consumer, Producer};

impl Settled {
    /// The counts of both rings: these are the second ring's, but for `left`, which is of both.
    pub(super) fn beside(self, put: u64, got: u64) -> Settled
        ensures put { result.put ≡ min (put + self.put) 18446744073709551615 }
        ensures got { result.got ≡ min (got + self.got) 18446744073709551615 }
        ensures left { result.left ≡ self.left }
    {
        Settled {
            put: put.saturating_add(self.put),
            got: got.saturating_add(self.got),
            left: self.left,
        }
    }
}

/// Takes all that is known to be in the ring, and answers the way on.
fn drain<T: Drop>(first: Consumer<RingStep<T>>, known: usize) -> Option<SecondOut<T>>
    requires known { known ≡ length (known_items first) }
    requires none { link (received first) ≡ None }
    ensures { result
        ≡ option_map (λ fresh. fresh.out.value) (link (received first ++ known_items first)) }
{
    let mut first = first;
    let mut found = None;
    for _ in 0..known {
        found = way_on::<T>(first.pop_known(), found);
    }
    found
}

/// The way on, as far as it was found.
fn way_on<T: Drop>(step: RingStep<T>, found: Option<SecondOut<T>>) -> Option<SecondOut<T>>
    ensures { result ≡ after (λ fresh. fresh.out.value) step found }
{
    match step {
        RingStep::Piece(_) => found,
        RingStep::Next(fresh) => {
            let FreshRing { out } = fresh;
            Some(Box::into_inner(out))
        }
    }
}

/// How many items were not popped. What was popped and then these items is what was pushed.
pub(super) fn meet_first<S>(first: &mut Producer<S>, reading: &mut Consumer<S>) -> usize
    requires name { producer_name first.old ≡ consumer_name reading.old }
    requires filled { producer_capacity first.old ≤ length (sent first.old) + known_free first.old }
    ensures writer { producer_name first.new ≡ producer_name first.old }
    ensures reader { consumer_name reading.new ≡ consumer_name reading.old }
    ensures sent { sent first.new ≡ sent first.old }
    ensures free { known_free first.old ≤ known_free first.new }
    ensures received { received reading.new ≡ received reading.old }
    ensures joined { received reading.old ++ known_items reading.new ≡ sent first.old }
    ensures known { result ≡ length (known_items reading.new) }
    ensures popped { popped_count first.old ≤ length (received reading.old) }
    ensures seen { length (received reading.old) ≤ popped_count first.new }
{
    first.slots_beside(reading);
    reading.slots_beside(first)
}

/// Brings all ends together. It counts what was put into the second ring, what was got from it, and
/// what is left in both rings.
pub(super) fn settle_rings<T: Drop>(
    mut first: Producer<RingStep<T>>,
    second: Option<End<SecondIn<T>, SecondShut<T>>>,
    mut reading: Consumer<RingStep<T>>,
    out: Option<SecondOut<T>>,
) -> Settled
    requires name { producer_name first ≡ consumer_name reading }
    requires filled { producer_capacity first ≤ length (sent first) + known_free first }
    requires closed { closed (sent first) ≡ true }
    requires written { Linked (of_end second_in_name second_shut_name)
        (λ fresh. second_out_name fresh.out.value) (link (sent first)) second }
    requires read { Linked second_out_name (λ fresh. second_out_name fresh.out.value)
        (link (received reading)) out }
    requires bound { length (pieces (sent first))
        + length (of_second (of_end second_put_in second_put_shut) second)
        < seen_first first
        + count_second (of_end second_seen_taken second_seen_shut) second + 2 ^ 64 }
    ensures put { result.put ≡ count_of (of_second (of_end second_put_in second_put_shut) second) }
    ensures got { result.got ≡ count_of (of_second second_got out) }
    ensures left { length (pieces (sent first))
        + length (of_second (of_end second_put_in second_put_shut) second)
        ≡ length (pieces (received reading)) + length (of_second second_got out) + result.left }
    ensures begins { IsPrefix (pieces (received reading) ++ of_second second_got out)
        (pieces (sent first) ++ of_second (of_end second_put_in second_put_shut) second) }
    ensures seen { seen_first first
        + count_second (of_end second_seen_taken second_seen_shut) second
        ≤ length (pieces (received reading)) + length (of_second second_got out) }
{
    let known = meet_first(&mut first, &mut reading);
    match second {
        None => Settled {
            put: 0,
            got: 0,
            left: known as u64,
        },
        Some(second) => match out {
            Some(out) => Second::settle::<T>(second, out),
            None => match drain::<T>(reading, known) {
                Some(out) => {
                    let rest = Second::settle::<T>(second, out);
                    Settled {
                        put: rest.put,
                        got: rest.got,
                        left: (known as u64 - 1) + rest.left,
                    }
                }
                None => unreachable!(),
            },
        },
    }
}
