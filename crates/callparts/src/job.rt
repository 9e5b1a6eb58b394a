//! What a worker is handed, and hands back.

ghost use Rattle.std.specs.Prelude.{◌≡◌, Some, slice_get};
ghost use Rattle.lane.specs.RingLane.{out_name, shut_name};
ghost use Rattle.callparts.specs.Numbers.{OptionalName_set, in_lane_at, out_lane_at, request_at};

use crate::call_account::Traffic;
use crate::register::{CallNumber, Naming};
use crate::work::{InLane, OutLane, Work};
use callbox::{GivenShut, Taker};

/// A call that a worker is to answer, and the call's number.
#[derive(Drop)]
pub struct Job<J: Naming> {
    pub work: Work,
    pub number: CallNumber<J>,
    pub ghost stands: { slice_get number.seen.log number.value ≡ Some work },
}

/// What a worker is to do next: to answer a call, or to end, since no more come.
pub type Task<J> = Option<Job<J>>;

/// What a worker hands back of a call that is over: the ends of the call of this number.
#[derive(Drop)]
pub struct FinishedJob<J: Naming> {
    pub number: CallNumber<J>,
    pub taker: Taker<InLane>,
    pub given: GivenShut<OutLane>,
    /// The status of its trailers. None where it was left without them.
    pub status: Option<u32>,
    pub traffic: Traffic,
    pub ghost in_lane: { in_lane_at number.seen.log number.value
        ≡ Some (out_name taker.rx) } by { OptionalName_set (in_lane_at number.seen.log number.value)
            (Some (out_name taker.rx)) },
    pub ghost out_lane: { out_lane_at number.seen.log number.value
        ≡ Some (shut_name given.shut) } by { OptionalName_set
            (out_lane_at number.seen.log number.value) (Some (shut_name given.shut)) },
}
