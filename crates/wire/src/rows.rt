//! The cases, as text: `step` and `reaction` have the words.
//!
//! A case is its title; its level, and the sentence of the standard by which it has it; its steps;
//! and a line of `want` for each way to pass. A blank line ends it. Where the standard allows
//! several reactions, all of them stand there.
//!
//! RFC 9113 allows more than its sentences on errors say. A generic error, PROTOCOL_ERROR or
//! INTERNAL_ERROR, stands for any other (section 5.4). An endpoint may end the connection in place
//! of a stream, and without GOAWAY (section 5.4.1). A server may answer a malformed request before
//! it resets the stream (section 8.1.1).

pub mod blocks;
pub mod calls;
pub mod conn;
pub mod control;
pub mod heads;
pub mod hpack;
pub mod lengths;
pub mod malformed;
pub mod messages;
pub mod metadata;
pub mod start;
pub mod states;
pub mod windows;
