//! The state of each stream that a client opens, as far as its frames decide it (RFC 9113, section
//! 5.1).
//!
//! `Halves` has the receiving half of each stream: it judges the client's frames by what came
//! before them. It reads no frames: `h2frame` has read them. The program `wire_rows` has worked
//! histories, with the answers that RFC 9113 demands.
#![tactic(auto)]

pub mod halves;

pub use halves::{FrameAction, HalfState, Halves};
