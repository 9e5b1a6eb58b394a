//! Turns the bytes of an HTTP/2 connection into events. RFC 9113, sections 3.4 to 6, says what the
//! bytes mean.
//!
//! Each part has a contract of its own: `preface` is the text with which a client begins,
//! `settings` the content of a SETTINGS frame, `judge` what a frame means after those before it,
//! `header_block` a header block over its frames, `block` what a whole block means, and `context`
//! what frames mean one after another. `event` has the events. Over these `in_core` is the reading
//! core: it is fed a connection's bytes in any pieces and answers their events. `uses::in_pieces`
//! reads a whole connection by it. `laws` has what follows from the definitions.
#![tactic(auto)]

pub mod block;
mod context;
mod event;
mod header_block;
mod in_core;
pub mod judge;
pub mod laws;
mod preface;
mod settings;
pub mod uses;

pub use event::{InEvent, PeerControl};
pub use header_block::{FragmentFault, HeaderBlock, MAX_BLOCK};
pub use in_core::InCore;
pub use preface::{BadPreface, Preface};
pub use settings::{Parameter, SettingsFault, read_settings};
