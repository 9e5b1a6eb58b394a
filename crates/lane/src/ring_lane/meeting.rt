//! A meeting of the two ends of a `RingLane`, which go on after it.
//!
//! If the way on waits after other items, the reading end of the second ring is in the first ring
//! and can't be reached: so the meeting says nothing of the items in the second.
ghost use Rattle.std.specs.Prelude.{◌≡◌, ◌≤◌, ◌++◌, true, length, None, is_some};
ghost use mathlib.Core.List.{IsPrefix};
ghost use Rattle.rtrb.specs.Ring.{sent, received};
ghost use Rattle.lane.specs.RingLane.{in_name, out_name, put_in, seen_taken, got, ahead};

use super::second::Second;
use super::settling::meet_first;
use super::{RingLaneIn, RingLaneOut};

/// There is no second ring.
pub(super) fn meet_before<T: Drop>(tx: &mut RingLaneIn<T>, rx: &mut RingLaneOut<T>) -> u64
    requires name { in_name tx.old ≡ out_name rx.old }
    requires writer { tx.old.second ≡ None }
    requires reader { rx.old.second ≡ None }
    ensures writer { (in_name tx.new ≡ in_name tx.old) × (put_in tx.new ≡ put_in tx.old) }
    ensures reader { (out_name rx.new ≡ out_name rx.old) × (got rx.new ≡ got rx.old) }
    ensures all { got rx.new ++ ahead rx.new ≡ put_in tx.new }
    ensures count { result ≡ length (ahead rx.new) }
    ensures seen { length (got rx.new) ≤ seen_taken tx.new }
{
    meet_first(&mut tx.first, &mut rx.first) as u64
}

/// The reader is at the first ring, and the writer at the second.
pub(super) fn meet_at_border<T: Drop>(tx: &mut RingLaneIn<T>, rx: &mut RingLaneOut<T>) -> u64
    requires name { in_name tx.old ≡ out_name rx.old }
    requires writer { is_some tx.old.second ≡ true }
    requires reader { rx.old.second ≡ None }
    ensures writer { (in_name tx.new ≡ in_name tx.old) × (put_in tx.new ≡ put_in tx.old) }
    ensures reader { (out_name rx.new ≡ out_name rx.old) × (got rx.new ≡ got rx.old) }
    ensures begins { IsPrefix (got rx.new ++ ahead rx.new) (put_in tx.new) }
    ensures count { result ≡ length (ahead rx.new) }
    ensures all { result ≡ 0 → got rx.new ≡ put_in tx.new }
    ensures seen { length (got rx.new) ≤ seen_taken tx.new }
{
    let known = meet_first(&mut tx.first, &mut rx.first);
    if known > 1 {
        return known as u64 - 1;
    }
    rx.go_on();
    meet_on(tx, rx)
}

/// Both are at the second ring.
pub(super) fn meet_on<T: Drop>(tx: &mut RingLaneIn<T>, rx: &mut RingLaneOut<T>) -> u64
    requires name { in_name tx.old ≡ out_name rx.old }
    requires reader { is_some rx.old.second ≡ true }
    ensures writer { (in_name tx.new ≡ in_name tx.old) × (put_in tx.new ≡ put_in tx.old) }
    ensures reader { (out_name rx.new ≡ out_name rx.old) × (got rx.new ≡ got rx.old) }
    ensures all { got rx.new ++ ahead rx.new ≡ put_in tx.new }
    ensures count { result ≡ length (ahead rx.new) }
    ensures seen { length (got rx.new) ≤ seen_taken tx.new }
{
    meet_first(&mut tx.first, &mut rx.first);
    let Some(second) = &mut tx.second else {
        unreachable!()
    };
    let Some(out) = &mut rx.second else {
        unreachable!()
    };
    Second::meet(second, out)
}
