//! What the reading side of a connection decides, without threads. It hears the events of the
//! connection, each with what the connection's lock answered to it. It decides what each call is
//! fed, how its half is shut, and what the writing side is ordered to do.
//!
//! A call begins here, where its lanes and their four ends are made, and is settled here, once all
//! four are back.
//!
//! The contracts speak of lists of steps. `specs/Steps.antt` says what they feed a call's half and
//! how they close it, `specs/Orders.antt` exactly which orders they lead to, and
//! `specs/Reports.antt` what the account of a call rests on.
//!
//! - `feeder_half`: the half of a call that its client sends; `call`: one call; `calls`: all of
//!   them.
//! - `worker_pool`: the workers, each by a ring of tasks and a ring of finished calls.
//! - `reading`: what is decided of each event, with `reading::streams` for streams that begin,
//!   `reading::data` for what comes on them, and `reading::past_calls` for calls that are over.
//! - `decision`: the form of a decision; `laws`: what follows from the definitions.
#![tactic(auto)]

pub mod call;
pub mod calls;
pub mod decision;
pub mod feeder_half;
pub mod laws;
pub mod reading;
pub mod worker_pool;

pub use decision::{Decision, HalfToShut};
pub use feeder_half::FeederHalf;
pub use reading::Reading;
pub use worker_pool::WorkerHandle;
