//! The rules of a connection that a client sees a server break.

use crate::credit::WindowViolation;
use crate::field_rules::FieldViolation;
use crate::frame_rules::FrameViolation;
use crate::pings::PingViolation;
use crate::response::StreamViolation;
use crate::settings::SettingViolation;
use figures::{ErrorName, FrameName, byte_count};
use h2frame::{FrameHead, StreamId};
use hpack_codec::HpackFault;
use std::fmt;

/// A rule of HTTP/2, or of gRPC over HTTP/2, that the server broke; or the error with which it
/// ended the connection.
#[derive(Drop)]
pub enum Violation {
    Frame(FrameViolation),
    Stream(StreamViolation),
    Window(WindowViolation),
    Setting(SettingViolation),
    Ping(PingViolation),
    Block(BlockViolation),
    /// The fields of this stream.
    Field(StreamId, FieldViolation),
    /// Another frame than SETTINGS came first, or SETTINGS with ACK.
    FirstFrame {
        head: FrameHead,
        is_ack: bool,
    },
    /// The client's SETTINGS weren't acknowledged in the whole time of the case, though a PING
    /// after them was.
    SettingsUnacknowledged,
    PushPromise(StreamId),
    /// GOAWAY with an error, and the text that it carries.
    GoAway {
        code: u32,
        last: StreamId,
        text: String,
    },
    /// A later GOAWAY names a greater stream as the last.
    GoAwayRises {
        before: StreamId,
        last: StreamId,
    },
}

/// A rule on header blocks that the server broke (RFC 9113, section 4.3; RFC 7541).
#[derive(Clone, Copy)]
pub enum BlockViolation {
    /// CONTINUATION where no header block is unfinished.
    Lone(FrameHead),
    /// Another frame inside the header block of this stream.
    Interrupted(StreamId, FrameHead),
    /// The block of this stream, by its length, isn't HPACK.
    Hpack {
        stream: StreamId,
        length: usize,
        fault: HpackFault,
    },
}

impl fmt::Display for Violation {
    fn fmt<W: fmt::Write>(&self, f: &mut fmt::Formatter<W>) -> fmt::Result {
        match self {
            Violation::Frame(violation) => write!(f, "{violation}"),
            Violation::Stream(violation) => write!(f, "{violation}"),
            Violation::Window(violation) => write!(f, "{violation}"),
            Violation::Setting(violation) => write!(f, "{violation}"),
            Violation::Ping(violation) => write!(f, "{violation}"),
            Violation::Block(violation) => write!(f, "{violation}"),
            Violation::Field(stream, violation) => write!(f, "stream {stream}: {violation}"),
            Violation::FirstFrame { head, is_ack } => {
                let frame = FrameName(*head);
                let with = if *is_ack { " with ACK" } else { "" };
                write!(
                    f,
                    "{frame}{with} came first, wanted SETTINGS (RFC 9113, 3.4)"
                )
            }
            Violation::SettingsUnacknowledged => {
                write!(
                    f,
                    "SETTINGS were not acknowledged in the whole time, and a PING after them was (RFC 9113, 6.5.3)"
                )
            }
            Violation::PushPromise(stream) => {
                write!(
                    f,
                    "PUSH_PROMISE on stream {stream}, wanted none, since pushes are off (RFC 9113, 6.6)"
                )
            }
            Violation::GoAway { code, last, text } => {
                let error = ErrorName(*code);
                write!(
                    f,
                    "GOAWAY {code} ({error}) with the last stream {last}: {text:?}"
                )
            }
            Violation::GoAwayRises { before, last } => {
                write!(
                    f,
                    "GOAWAY with the last stream {last}, wanted at most {before} (RFC 9113, 6.8)"
                )
            }
        }
    }
}

impl fmt::Display for BlockViolation {
    fn fmt<W: fmt::Write>(&self, f: &mut fmt::Formatter<W>) -> fmt::Result {
        match *self {
            BlockViolation::Lone(head) => {
                let frame = FrameName(head);
                write!(f, "{frame} came outside a header block (RFC 9113, 6.10)")
            }
            BlockViolation::Interrupted(stream, head) => {
                let frame = FrameName(head);
                write!(
                    f,
                    "{frame} came inside the header block of stream {stream} (RFC 9113, 4.3)"
                )
            }
            BlockViolation::Hpack {
                stream,
                length,
                fault,
            } => {
                let (length, section) = (byte_count(length), section_of(fault));
                write!(
                    f,
                    "the header block of stream {stream}, of {length}: {fault} ({section})"
                )
            }
        }
    }
}

/// Where the standard has the rule.
fn section_of(fault: HpackFault) -> &'static str {
    match fault {
        HpackFault::Index => "RFC 7541, 2.3.3",
        HpackFault::Huffman => "RFC 7541, 5.2",
        HpackFault::SizeUpdate => "RFC 7541, 4.2 and 6.3",
        HpackFault::Truncated => "RFC 7541, 6",
        HpackFault::Integer | HpackFault::TooLarge | HpackFault::OutOfMemory | HpackFault::Dead =>
            "RFC 9113, 4.3",
    }
}
