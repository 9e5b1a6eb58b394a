//! What goes through the first ring of a `RingLane`.
ghost use Rattle.std.specs.Prelude.{◌≡◌, ◌≤◌, length};
ghost use Rattle.lane.specs.Second.{ahead, got};

use super::second::SecondOut;

/// An item, or the way on.
#[derive(Drop)]
pub(crate) enum RingStep<T> {
    Piece(T),
    /// The writer went on to the second ring. Nothing comes after it.
    Next(FreshRing<T>),
}

/// The reading end of a second ring from which nothing was got, and whose next item is there. It is
/// boxed, so that a place of the first ring stays small.
#[derive(Drop)]
pub(crate) struct FreshRing<T> {
    pub(crate) out: Box<SecondOut<T>>,
    ghost fresh: { length (got out.value) ≤ 0 },
    ghost one: { length (ahead out.value) ≡ 1 },
}
