//! The four ends of a call, which any threads may hold: a `Feeder` that is fed what comes in, a
//! `Taker` that takes its messages, a `Giver` that gives the response, and a `Sender` that sends
//! it.
//!
//! Each end does its part of the call's account (the crate `account`), over a lane. `settle_in` and
//! `settle_out` bring two of them together: in every schedule what they did is a lawful account,
//! the one that the serial core makes of their events.
//!
//! Read the crate `account` first; then `specs/InSides.antt` with `piece`, `feeder`, `taker` and
//! `in_side`; `specs/OutSides.antt` with `giver`, `sender` and `out_side`; and `call` last.
#![tactic(auto)]

pub mod call;
pub mod feeder;
pub mod giver;
pub mod in_side;
pub mod out_side;
pub mod piece;
pub mod sender;
pub mod taker;

pub use call::open_call;
pub use feeder::{FedShut, FeedFault, Feeder};
pub use giver::{FramedFault, GiveFault, GivenShut, Giver};
pub use in_side::{InAccount, settle_in};
pub use out_side::{OutAccount, settle_out};
pub use piece::InPiece;
pub use sender::Sender;
pub use taker::{Taken, Taker};
