//! A call that is to be answered.

ghost use Rattle.std.specs.Prelude.{◌≡◌};

use account::OutItem;
use callbox::{Giver, InPiece, Taker};
use callhead::CallHead;
use connbook::CallKey;
use h2frame::StreamId;
use lane::RingLane;

/// The lane of what a client sends on a call.
pub type InLane = RingLane<InPiece>;

/// The lane of a call's response.
pub type OutLane = RingLane<OutItem>;

/// A call of a method, as its client asked for it.
#[derive(Drop)]
pub struct Request {
    pub id: StreamId,
    /// The index of its method.
    pub index: usize,
    pub head: CallHead,
    /// When it was opened, in nanoseconds of the connection.
    pub opened: u64,
}

/// A call that a worker is to answer, with its two ends of the call's lanes, and the call's key of
/// the credit book.
#[derive(Drop)]
pub struct Work {
    pub request: Request,
    pub taker: Taker<InLane>,
    pub giver: Giver<OutLane>,
    pub key: CallKey,
    pub ghost own: { key.id ≡ request.id },
}
