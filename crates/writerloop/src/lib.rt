//! The writing side of a connection, without threads, locks or waits. It takes the orders of the
//! side that reads, writes frames, hands each call's sender back, and answers how the connection
//! ended.
//!
//! A `Writing` has the ring of orders, the calls that it sends, and a `Frames`: the core that says
//! which frame is next, one buffer and the device. Its owner looks for orders and takes them
//! (`look`, `take_next`), grants credit, fills the buffer, hands senders back, and flushes the
//! buffer. Each step answers what the owner is to do: which bells to ring, which calls to cut,
//! whether to stop the connection.
//!
//! - `inbox`: the writing side's end of the ring of orders; `sends`: the calls that are sent;
//!   `opening`: how a call begins.
//! - `frames`: core, buffer and device, with `standing`, `order_outcome` and `fill_end` for its
//!   answers.
//! - `writing`: the machine, with `writing::orders` for how it takes orders, `writing::left_calls`
//!   for calls that were left, `writing::warning` for the end while calls go on, and
//!   `writing::in_book` for what it does in the credit book.
//! - `steps`: what a step answers; `ended`: streams that it has ended; `senders`: what is handed
//!   back at the end; `writer_ending`: how the writing side ends by itself.
//!
//! `specs/Orders.antt` says when a run of the core obeys orders, `specs/Spelled.antt` and
//! `specs/Wrote.antt` what of its frames was written, and `specs/Sent.antt` where each call's
//! sender is. `specs/Written.antt` puts them together: each step keeps what it says.
#![tactic(auto)]

mod ended;
mod fill_end;
mod frames;
pub mod inbox;
mod opening;
mod order_outcome;
mod senders;
mod sends;
mod standing;
pub mod steps;
mod writer_ending;
pub mod writing;

pub use ended::{EndedStream, MarkedEnds};
pub use fill_end::FillEnd;
pub use frames::Frames;
pub use inbox::Inbox;
pub use order_outcome::OrderOutcome;
pub use senders::{Senders, WriterResult};
pub use standing::Standing;
pub use steps::{AfterWrite, OrderStep, WaitingOrder};
pub use writer_ending::WriterEnding;
pub use writing::Writing;
