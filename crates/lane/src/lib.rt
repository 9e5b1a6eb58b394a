//! Queues with one writing and one reading end, each of which may go to a thread of its own.
//!
//! In every schedule what the reading end got is a prefix of what the writing end put. Neither end
//! can say so alone: each knows what it did itself. `settle` or `meet` compares the two, once both
//! are in one place again. No function of an end waits, so none can take a lock; a thread that has
//! to wait does so at a `Bell`.
//!
//! Read `specs/Lawful.antt` first, which says what a queue may do, and then
//! - `lane`: the trait `Lane`, a queue with room for a number of items and for one last item;
//! - `fault`: why an item is handed back;
//! - `ring_lane`: the lane over a ring, which takes memory as it fills;
//! - `row_lane`: a second lane, over cells that are set once, for tests of what is generic over
//!   lanes;
//! - `ring`: a ring of slots whose items move out to the reader, without a last item;
//! - `bell`: waiting for what another thread does;
//! - `uses::two_threads`: any lane between two threads.
#![tactic(auto)]

mod bell;
mod fault;
mod lane;
mod ring;
mod ring_lane;
mod row_lane;
pub mod uses;

pub use bell::Bell;
pub use fault::PutFault;
pub use lane::{End, Lane, Settled};
pub use ring::{Ring, RingIn, RingOut};
pub use ring_lane::{RingLane, RingLaneIn, RingLaneOut, RingLaneShut};
pub use row_lane::{RowLane, RowLaneIn, RowLaneOut, RowLaneShut};
pub use uses::two_threads::{poll_copy, put_waiting, relay};
