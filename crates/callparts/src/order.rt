//! The orders of a connection's reading side to its writing side, and what comes back.

ghost use Rattle.std.specs.Prelude.{◌≡◌, [], Some, IsSome, option_map};
ghost use Rattle.lane.specs.RingLane.{got, out_name};
ghost use Rattle.callparts.specs.Numbers.{IsOfLane, IsOfLane-prop, out_lane_at};

use crate::line::Line;
use crate::register::{CallNumber, Naming};
use crate::work::OutLane;
use callbox::Sender;
use outwriter::WriterOrder;
use std::sync::Arc;

/// How many senders may wait for the reading side to take them back: 64, the most calls that may be
/// live. Without a place a sender stays with the writing side until there is one.
pub const HOME: usize = 64;

/// The sending end of a call, which goes to the writing side and back in one box.
#[derive(Drop)]
pub struct SendingEnd<J: Naming> {
    /// The number of the call.
    pub number: CallNumber<J>,
    /// None while the writer's core has it.
    pub sender: Option<Sender<OutLane>>,
    pub ghost out_lane: { IsOfLane (out_lane_at number.seen.log number.value)
        (option_map (λ s. out_name s.rx) sender) } by { IsOfLane-prop
            (out_lane_at number.seen.log number.value) (option_map (λ s. out_name s.rx) sender) },
}

/// A call that begins. Its sender has got nothing.
#[derive(Drop)]
pub struct OpeningCall<J: Naming> {
    pub sending: Box<SendingEnd<J>>,
    /// The line that wakes its worker.
    pub line: Arc<Line>,
    pub ghost fresh: { option_map (λ s. got s.rx) sending.value.sender ≡ Some [] },
}

/// A call that the writing side hands back, with its sender.
#[derive(Drop)]
pub struct ReturningCall<J: Naming> {
    pub sending: Box<SendingEnd<J>>,
    pub ghost there: { IsSome sending.value.sender },
}

/// An order to the writing side.
pub type Order<J> = WriterOrder<OpeningCall<J>>;
