//! Reads and writes HTTP/2 frames (RFC 9113, sections 4 and 6).
//!
//! `FrameReader` reads frames from the bytes after a connection's preface, in whatever pieces they
//! come, and `write_frame` writes one. The meaning of bytes is defined apart from both:
//! `specs/Spelling.antt` says how a frame is spelled, `specs/Faults.antt` which frames are faulty,
//! and `specs/FrameList.antt` what the frame list of bytes is: the joined spellings of frames, then
//! an unfinished rest or a fault. Bytes have one frame list and no other (`laws`). Each answer of
//! the reader is the next entry of the list of all that was fed, however it was cut, and a frame
//! that was written is read back.
//!
//! Read `kind`, `flags`, `frame` and `fault` first, the types; then `reader` and `writer`, and
//! `span`, which says where a frame's content is. `error_code` and `setting` name numbers that
//! contents carry, which this crate doesn't read; `settings` has the settings of a peer, for the
//! side that reads them and the side that applies them. The program `wire_rows` has worked rows of
//! bytes and their frames.
#![tactic(auto)]

mod error_code;
mod fault;
mod flags;
mod frame;
mod kind;
mod laws;
mod reader;
mod room;
mod setting;
mod settings;
mod small;
mod span;
mod writer;

pub use error_code::ErrorCode;
pub use fault::FrameFault;
pub use flags::Flags;
pub use frame::{Frame, FrameHead, MAX_PAYLOAD, StreamId, increment, ping_bytes};
pub use kind::FrameKind;
pub use laws::{goes_on, joins, one_reading};
pub use reader::FrameReader;
pub use setting::SettingId;
pub use settings::{PeerSetting, PeerSettings};
pub use small::SmallContents;
pub use writer::{head_text, write_frame};
