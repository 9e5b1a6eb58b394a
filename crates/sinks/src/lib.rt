//! Writes the results of a run to standard output and to files while it goes on, and counts on a
//! terminal.
//!
//! - `sinks`: all of them, from the first case to the last.
//! - `files`: what is written and read whole; `saved`: the bytes of a case that failed.
//! - `progress`: the line that counts.
//! - `fault`: why results were not written.
#![tactic(auto)]

mod fault;
mod files;
mod progress;
mod saved;
mod sinks;

pub use fault::SinkFault;
pub use files::write_whole;
pub use sinks::{Form, Run, Sinks};
