//! Length-prefixed messages, as gRPC sends them in the DATA of a call.
//!
//! A message is one flag byte (0, as it isn't compressed), its length in four bytes, big-endian,
//! and that many bytes (gRPC over HTTP/2, PROTOCOL-HTTP2.md, "Length-Prefixed-Message").
//! `specs/Messages.antt` says which messages a list of bytes spells, and how far. `laws` says that
//! every list has one such reading. `Splitter` answers that reading, in whatever pieces the bytes
//! come. `write_message` spells one message, and `write_prefix` what comes before one.
//!
//! Read `fault`, `laws`, `write`, `front` (the message at the front of some bytes), then `joined`
//! (a message that is cut over pieces) and `splitter`, and `tail` (where bytes end) last.
#![tactic(auto)]

pub mod fault;
mod front;
mod joined;
pub mod laws;
pub mod splitter;
mod tail;
pub mod write;

pub use fault::LpmFault;
pub use front::{is_frame, is_frame_with};
pub use splitter::{Split, Splitter};
pub use write::{write_message, write_prefix};

/// The most bytes of a message that is read or written.
pub const MAX_MESSAGE_LEN: usize = 4_194_304;
