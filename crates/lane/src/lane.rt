//! The trait of a queue from one writer to one reader.
//!
//! Two ends are of one `open` where their names are equal, `in_name tx ≡ out_name rx`. Each
//! function keeps the name, and `settle` requires that they are equal. The room is a function of
//! the name, so every end knows it.
//!
//! In `Settled`, `put` and `got` stop at 2^64 - 1, so equal counts there don't say that all was
//! got. `left` is exact, and 0 only where all was got.
ghost use Rattle.std.specs.Prelude.{
  ◌≡◌,
  ℕ,
  ◌+◌,
  ◌≤◌,
  ◌<◌,
  List,
  [],
  ◌∷◌,
  ◌++◌,
  Bool,
  true,
  false,
  length,
  ⊤,
  Some,
  IfOk,
  OnOk,
  IfErr,
  OnErr,
  MatchOption,
  MatchBool,
};
ghost use Rattle.std.specs.Borrow.{sem};
ghost use denote.Follow.{follows_so};
ghost use mathlib.Core.Option.{none};
ghost use mathlib.Core.List.{IsPrefix};
ghost use Rattle.lane.specs.End.{of_end, has_last};
ghost use Rattle.lane.specs.Lawful.{IsLawful, count_of, last_of};
ghost use Rattle.lane.specs.PutFault.{item_of, MayRefuse};

use crate::fault::PutFault;
use std::alloc::{AllocError, Global};

/// The writing end as it is when a queue is settled.
#[derive(Drop)]
pub enum End<I, S> {
    /// More items could have been put.
    Open(I),
    /// `last` was called.
    Shut(S),
}

/// What the two ends of a queue did.
#[derive(Clone, Copy, Debug, PartialEq, Eq)]
pub struct Settled {
    /// How many items were put. A number over the greatest `u64` counts as that.
    pub put: u64,
    /// How many items were got. A number over the greatest `u64` counts as that.
    pub got: u64,
    /// How many of the items that were put were not got. It is exact: they are at most `room` and a
    /// last one.
    pub left: u64,
}

/// A queue from one writer to one reader.
///
/// Its two ends may go to threads of their own. Each end knows only what it did itself, until
/// `settle` brings the ends together. No function waits for the other end.
pub trait Lane {
    type Item: Send + Sync + Drop;

    /// The writing end.
    type In: Send + Drop;

    /// The reading end.
    type Out: Send + Drop;

    /// What is left of the writing end after `last`.
    type Shut: Send + Drop;

    /// Which `open` an end is of.
    ghost Name: { Type 0 };

    /// Names are a set. A struct needs that which has two ends of one `open` and says so in a ghost
    /// field.
    ghost name_set: { (a b : Name) → IsProp (a ≡ b) };

    ghost in_name: { Self.In → Name };

    ghost out_name: { Self.Out → Name };

    ghost shut_name: { Self.Shut → Name };

    /// How many items there is room for, beside the one of `last`.
    ghost room_of: { Name → ℕ };

    /// What was put, oldest first.
    ghost put_in: { Self.In → List Self.Item };

    ghost put_shut: { Self.Shut → List Self.Item };

    /// Whether `last` put its item.
    ghost was_placed: { Self.Shut → Bool };

    /// How many items the writing end has seen taken.
    ghost seen_taken: { Self.In → ℕ };

    /// What was got, oldest first.
    ghost got: { Self.Out → List Self.Item };

    /// What the next polls are sure to give.
    ghost ahead: { Self.Out → List Self.Item };

    /// Whether `put` of a queue with this room may want memory.
    ghost WantsMemory: { ℕ → Type 0 };

    /// Whether an item's place may be taken already.
    ghost MayMiss: { Type 0 };

    /// Makes an empty queue with room for `room` items and one last item.
    fn open(alloc: Global, room: usize) -> Result<(Self::In, Self::Out), AllocError>
        ensures name { IfOk result (λ r. in_name r.0 ≡ out_name r.1) }
        ensures room { IfOk result (λ r. room_of (in_name r.0) ≡ room) }
        ensures empty { IfOk result (λ r. (put_in r.0 ≡ []) × (got r.1 ≡ [])) }
        ensures seen { IfOk result (λ r. seen_taken r.0 ≡ 0) };

    /// Whether there is room for an item beside the last one; `Err` has how many of the items that
    /// were put this end hadn't seen taken when it looked. After `Ok` the next `put` isn't `Full`.
    /// It takes no memory.
    fn check_room(tx: &mut Self::In) -> Result<(), u64>
        ensures name { in_name tx.new ≡ in_name tx.old }
        ensures seen { seen_taken tx.old ≤ seen_taken tx.new }
        ensures unchanged { put_in tx.new ≡ put_in tx.old }
        ensures room { OnOk result
            (length (put_in tx.new) < room_of (in_name tx.new) + seen_taken tx.new) }
        ensures full { IfErr result
            (λ waiting. (waiting + seen_taken tx.new ≡ length (put_in tx.new))
            × (room_of (in_name tx.new) ≤ waiting)) };

    /// Puts the item after all others, or hands it back and changes nothing. It answers `Full` only
    /// where `room` items or more were put and not seen taken. A ring with room for 16 or fewer
    /// never lacks memory.
    fn put(tx: &mut Self::In, item: Self::Item) -> Result<(), PutFault<Self::Item>>
        ensures name { in_name tx.new ≡ in_name tx.old }
        ensures seen { seen_taken tx.old ≤ seen_taken tx.new }
        ensures ok { OnOk result (put_in tx.new ≡ put_in tx.old ++ item ∷ []) }
        ensures unchanged { OnErr result (put_in tx.new ≡ put_in tx.old) }
        ensures handed_back { IfErr result (λ e. item_of e ≡ item) }
        ensures fault { IfErr result
            (MayRefuse WantsMemory MayMiss (room_of (in_name tx.old))
            (length (put_in tx.old)) (seen_taken tx.new)) };

    /// Puts the item after all others, if `placed` says so after it. It takes no memory.
    fn last(tx: Self::In, item: Self::Item) -> Self::Shut
        ensures name { shut_name result ≡ in_name tx }
        ensures put { MatchBool (was_placed result)
            (put_shut result ≡ put_in tx ++ item ∷ [])
            (put_shut result ≡ put_in tx) };

    /// Whether `last` put its item.
    fn placed(shut: &Self::Shut) -> bool
        ensures { result ≡ was_placed shut.now };

    /// The next item of what was put, or nothing. It takes no memory.
    fn poll(rx: &mut Self::Out) -> Option<&Self::Item>
        // Once the item is looked at, the end is some `n` for which this holds.
        ensures* after { sem 𝓛
            (follows_so Self.Out.row Self.Out.row rx.entry.ghost_name none (λ _ _. ⊤)
            (λ n. (out_name n ≡ out_name rx.old) × MatchOption result
            ((got n ≡ got rx.old) × (ahead rx.old ≡ []) × (ahead n ≡ []))
            (λ r. (got n ≡ got rx.old ++ r.now ∷ [])
            × (0 < length (ahead rx.old) → ahead rx.old ≡ r.now ∷ ahead n)))) };

    /// The last item that was got, for a caller who couldn't make use of it. It takes no memory.
    fn polled(rx: &mut Self::Out) -> Option<&Self::Item>
        ensures* after { sem 𝓛
            (follows_so Self.Out.row Self.Out.row rx.entry.ghost_name none (λ _ _. ⊤)
            (λ n. (out_name n ≡ out_name rx.old) × (got n ≡ got rx.old) × (ahead n ≡ ahead rx.old)
            × MatchOption result (got rx.old ≡ []) (λ r. last_of (got rx.old) ≡ Some r.now))) };

    /// Brings the two ends of one `open` together. What was got is a prefix of what was put: all of
    /// it but at most `room` items and the last one.
    fn settle(end: End<Self::In, Self::Shut>, rx: Self::Out) -> Settled
        requires { of_end in_name shut_name end ≡ out_name rx }
        ensures put { result.put ≡ count_of (of_end put_in put_shut end) }
        ensures got { result.got ≡ count_of (got rx) }
        ensures left { length (of_end put_in put_shut end) ≡ length (got rx) + result.left }
        ensures lawful { IsLawful (room_of (out_name rx)) (has_last was_placed end)
            (of_end put_in put_shut end) (got rx) };
}
