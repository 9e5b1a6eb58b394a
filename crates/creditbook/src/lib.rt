//! Counts the bytes of DATA that came, were returned, and were announced to the peer, on the
//! connection and on each live call (RFC 9113, sections 5.2 and 6.9).
//!
//! It reads and writes no frames: the numbers come from frames that `h2frame` has read. The program
//! `wire_rows` has worked histories, with the answers that RFC 9113 demands.
#![tactic(auto)]

pub mod book;

pub use book::{Book, BookFault, Marks};

/// How many bytes of DATA a book counts on a connection.
pub const MAX_RECEIVED: u64 = 0x4000_0000_0000_0000;
