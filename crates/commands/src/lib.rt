//! The commands `serve`, `self`, `drain`, `body` and `parts`.
//!
//! - `run_body` prints the messages of one call, and `run_parts` what the server writes on a
//!   connection (`body`, `parts`). Their input is hexadecimal text. The program hands them its
//!   standard input and output.
//! - `run_self` runs test cases against a server of its own (`server`).
//! - `run_drain` drains a server of its own while a client has a call (`drain`).
//! - `serve` serves connections to a port (`server`): `listening` is the port, `port` has the
//!   threads, `stream` a connection, `stopping` how it stops, `room` how many are served at a time,
//!   `log`, `waiting` and `times` the log, `reporting` and `served` the report, `witness` what sees
//!   connections. Those that try a server are in the crate `trials`.
//!
//! Below them:
//!
//! - `text`: hexadecimal text into bytes.
//! - `report`: the lines for messages, the end and faults.
//! - `memory` and `streams`: a connection over memory, and what was written on it, stream by
//!   stream.
//! - `frames`: the frames of bytes that pass.
#![tactic(auto)]

mod body;
mod drain;
mod frames;
mod listening;
mod log;
mod memory;
mod parts;
mod port;
mod report;
mod reporting;
mod room;
mod served;
mod server;
mod stopping;
mod stream;
mod streams;
mod text;
mod times;
mod waiting;
mod witness;

pub use body::{RunFault, run_body};
pub use drain::run_drain;
pub use listening::listen;
pub use parts::run_parts;
pub use server::{run_self, serve};
