//! Items that one thread puts and another takes.
ghost use Rattle.std.specs.Prelude.{
  ◌≡◌,
  false,
  List,
  ◌+◌,
  ◌<◌,
  ◌≤◌,
  [],
  ◌∷◌,
  ◌++◌,
  length,
  take,
  vec_len,
  vec_capacity,
  IfOk,
  IfSome,
  OnOk,
  OnErr,
  MatchOption,
};
ghost use mathlib.Core.List.{IsPrefix};
ghost use Rattle.lane.specs.Lawful.{IsLawful, count_of};

use crate::fault::PutFault;
use crate::lane::{End, Lane, Settled};
use std::alloc::{AllocError, Global};
use std::sync::Wait;
use std::sync::atomic::{AtomicBool, Ordering};
use std::thread;
use std::thread::Threads;

/// A copy of the next item, or nothing.
pub fn poll_copy<T: Copy + Send + Sync + Drop, L: Lane<Item = T>>(rx: &mut L::Out) -> Option<T>
    ensures name { L.out_name rx.new ≡ L.out_name rx.old }
    ensures got { MatchOption result
        (L.got rx.new ≡ L.got rx.old)
        (λ x. L.got rx.new ≡ L.got rx.old ++ x ∷ []) }
    ensures ahead { MatchOption result
        ((L.ahead rx.old ≡ []) × (L.ahead rx.new ≡ []))
        (λ x. 0 < length (L.ahead rx.old) → L.ahead rx.old ≡ x ∷ L.ahead rx.new) }
{
    L::poll(rx).copied()
}

/// Puts the item as soon as the queue isn't full.
pub fn put_waiting<T: Send + Sync + Drop, L: Lane<Item = T>, R: Wait>(
    rt: &R,
    tx: &mut L::In,
    item: T,
) -> Result<(), PutFault<T>>
    ensures name { L.in_name tx.new ≡ L.in_name tx.old }
    ensures ok { OnOk result (L.put_in tx.new ≡ L.put_in tx.old ++ item ∷ []) }
    ensures unchanged { OnErr result (L.put_in tx.new ≡ L.put_in tx.old) }
{
    let mut item = item;
    for _ in rt.forever() {
        match L::put(tx, item) {
            Ok(()) => return Ok(()),
            Err(PutFault::Full { item: back, .. }) => item = back,
            Err(fault) => return Err(fault),
        }
        thread::yield_now();
    }
    unreachable!()
}

/// Puts the items in order until one is refused, and answers how many it put.
fn put_all<T: Copy + Send + Sync + Drop, L: Lane<Item = T>, R: Wait>(
    rt: &R,
    tx: L::In,
    items: &[T],
    stopped: &AtomicBool,
) -> (L::In, usize)
    requires { L.put_in tx ≡ [] }
    ensures name { L.in_name result.0 ≡ L.in_name tx }
    ensures put { L.put_in result.0 ≡ take result.1 items.now }
{
    let mut tx = tx;
    let mut count = 0;
    for item in items {
        if put_waiting::<T, L, R>(rt, &mut tx, *item).is_err() {
            break;
        }
        count += 1;
    }
    stopped.store(true, Ordering::SeqCst);
    (tx, count)
}

/// Takes `count` items, or fewer where the writer stopped before.
fn take_all<T: Copy + Send + Sync + Drop, L: Lane<Item = T>, R: Wait>(
    rt: &R,
    rx: L::Out,
    taken: Vec<T>,
    count: usize,
    stopped: &AtomicBool,
) -> (L::Out, Vec<T>)
    requires empty { (L.got rx ≡ []) × (taken.items ≡ []) }
    requires kept { count ≤ vec_capacity taken }
    ensures name { L.out_name result.0 ≡ L.out_name rx }
    ensures got { L.got result.0 ≡ result.1.items }
{
    let mut rx = rx;
    let mut taken = taken;
    for _ in rt.forever() {
        let no_more = stopped.load(Ordering::SeqCst);
        if taken.len() >= count {
            break;
        }
        match poll_copy::<T, L>(&mut rx) {
            Some(item) => taken.push_reserved(item),
            None => {
                if no_more {
                    break;
                }
                thread::yield_now();
            }
        }
    }
    (rx, taken)
}

/// Sends the items through a queue of this room from one thread to another, and answers what the
/// other took.
///
/// It waits forever if the queue stays full, as a `RowLane` with room for fewer items does.
pub fn relay<T: Copy + Send + Sync + Drop, L: Lane<Item = T> + Send, R: Threads + Wait + Sync>(
    rt: &R,
    alloc: Global,
    room: usize,
    items: &[T],
) -> Result<(Vec<T>, Settled), AllocError>
    ensures begins { IfOk result (λ r. IsPrefix r.0.items items.now) }
    ensures lawful { IfOk result (λ r. (put : List T) ×
        IsPrefix put items.now × IsLawful room false put r.0.items × (r.1.put ≡ count_of put)) }
    ensures got { IfOk result (λ r. r.1.got ≡ count_of r.0.items) }
{
    let (tx, rx) = L::open(alloc, room)?;
    let taken = Vec::with_capacity(alloc, items.len())?;
    let count = items.len();
    let stopped = AtomicBool::new(false);
    let ((tx, _put), (rx, taken)) = thread::join(
        rt,
        || -> (L::In, usize)
            requires { L.put_in tx ≡ [] }
            ensures name { L.in_name result.0 ≡ L.in_name tx }
            ensures put { L.put_in result.0 ≡ take result.1 items.entry.now }
        { put_all::<T, L, R>(rt, tx, items, &stopped) },
        || -> (L::Out, Vec<T>)
            requires empty { (L.got rx ≡ []) × (taken.items ≡ []) }
            requires kept { count ≤ vec_capacity taken }
            ensures name { L.out_name result.0 ≡ L.out_name rx }
            ensures got { L.got result.0 ≡ result.1.items }
        { take_all::<T, L, R>(rt, rx, taken, count, &stopped) },
    );
    let settled = L::settle(End::Open(tx), rx);
    Ok((taken, settled))
}
