//! Captures: files of packets as libpcap writes them, which Wireshark and tshark open.
//!
//! What a connection's sides sent is written as the segments of TCP that would have carried it,
//! over IPv4 or IPv6, and read back. The format is said apart from both: `specs/Format.antt` has a
//! file, its records, packets and segments by the places of their fields, `specs/Checksum.antt` the
//! checksums, `specs/Conversations.antt` the segments of a connection. What is written has that
//! format, and what has it is read as its packets and no others.
//!
//! Read `packet` for the types, `conversation` for the calls that write, `reading` for those that
//! read; `fields` and `checksum` for numbers in bytes, `writing` for a record, `laws` for what is
//! read of what was written.
#![tactic(auto)]

mod checksum;
mod conversation;
mod fields;
mod laws;
mod packet;
mod reading;
mod writing;

pub use conversation::{Conversation, Side, side_of};
pub use laws::{is_capture, joins, one_capture};
pub use packet::{Hosts, Packet, Path, SegmentFlags, SegmentHead, Time};
pub use reading::{CaptureFault, read};
pub use writing::{MOST_PAYLOAD, file_head};
