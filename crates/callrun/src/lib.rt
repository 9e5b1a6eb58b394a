//! One call, from its head to its trailers: it takes messages, hands them to the call's method, and
//! gives the replies.
//!
//! A [`CallRun`] is a state machine without threads: a server's worker calls [`CallRun::turn`]
//! until it answers `Over`. Each turn looks at the deadline. Then it either gives one item of the
//! response, or takes once and hands what it took to the method.
//!
//! Promised, over every list of turns: the items that were given are an outcome of what the method
//! answers to the messages that were taken (`specs/Outcomes.antt`). The replies come in order, and
//! trailers once and last. Each cause for which the server ends a call by itself was there (gRPC
//! over HTTP/2, "Responses"; the texts of such statuses are our own).
//!
//! Read `cause` and `ending` first: how a call ends. Then `specs/Responses.antt` and
//! `specs/Outcomes.antt`; `framed`, `waiting`, `handling` and `response`, the parts; `call_run`,
//! the whole; and `uses::call_list`, calls one after another.
#![tactic(auto)]

mod call;
pub mod call_run;
pub mod cause;
mod ending;
mod framed;
mod giving;
mod handling;
mod response;
mod shutting;
pub mod uses;
mod waiting;

pub use call::Turn;
pub use call_run::CallRun;
pub use cause::Cause;
pub use uses::call_list::{EndedCall, OpenedCall, Pace, Why, run_call, run_list};
