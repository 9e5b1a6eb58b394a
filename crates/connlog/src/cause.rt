//! Why the server ended a stream or the connection, or answered a call with an error: each rule of
//! HTTP/2 and of gRPC over HTTP/2 that a client can break, with what it sent, and what else ends
//! them.

use crate::fields::FieldFault;
use crate::malformed::MalformedMessage;
use crate::messages::{CutMessage, PrefixFault};
use crate::place::BlockPlace;
use figures::{
    ByteCount, FrameName, GroupedNumber, KindName, byte_count, section_of, wanted_length,
};
use h2frame::{FrameFault, FrameHead, StreamId};
use hpack_codec::HpackFault;
use std::fmt;

/// A cause.
#[derive(Drop)]
pub enum Cause {
    Frame(FrameCause),
    Block(BlockCause),
    Stream(StreamCause),
    Window(WindowCause),
    /// The fields of a request, or its trailers.
    Fields(FieldFault),
    Head(HeadCause),
    Call(CallCause),
    Server(ServerCause),
}

/// A rule on frames, whatever stood before them on their stream.
#[derive(Clone, Copy)]
pub enum FrameCause {
    /// The bytes depart from the preface with this one.
    Preface { at: usize, byte: u8 },
    /// A frame other than SETTINGS came first.
    First(FrameHead),
    /// The frame can't be read. The number is its bytes of padding.
    Fault(FrameHead, FrameFault, u8),
    /// A parameter of SETTINGS has a value that it may not have.
    Setting { id: u16, value: u32 },
    PushPromise(StreamId),
}

/// A rule on header blocks.
#[derive(Clone, Copy)]
pub enum BlockCause {
    /// CONTINUATION where no block is unfinished.
    Lone(StreamId),
    /// Another frame inside the block of this stream.
    Interrupted(StreamId, FrameHead),
    /// The frames of a block have too many bytes, by their number.
    TooLong(StreamId, usize),
    /// A block isn't HPACK, or its fields are too large.
    Hpack {
        stream: StreamId,
        length: usize,
        fault: HpackFault,
        place: Option<BlockPlace>,
    },
}

/// A rule on the frames of one stream.
#[derive(Clone, Copy)]
pub enum StreamCause {
    /// A stream that a client may not begin.
    Even(FrameHead),
    /// The stream wasn't begun.
    Idle(FrameHead),
    /// The stream wasn't begun before a greater one.
    Skipped(FrameHead, StreamId),
    /// The client had ended its half.
    BehindEnd(FrameHead),
    /// A second header block without END_STREAM.
    OpenTrailers,
    /// WINDOW_UPDATE without an increment.
    ZeroIncrement,
}

/// A rule on windows.
#[derive(Clone, Copy)]
pub enum WindowCause {
    /// DATA on a stream, and how many bytes may be sent on it.
    Stream(FrameHead, i64),
    /// DATA, and how many bytes may be sent on the connection.
    Connection(FrameHead, i64),
    /// Credit on a window of this size; stream 0 is the connection.
    Credit {
        stream: StreamId,
        increment: u32,
        window: i64,
    },
    /// SETTINGS with this initial size, where the window of a stream is of this.
    Initial {
        size: u32,
        grown: i64,
    },
}

/// Why a stream that was begun is refused.
#[derive(Drop)]
pub enum HeadCause {
    /// `:method` has this value.
    Method(String),
    ContentType(Option<String>),
    Timeout(String),
    /// No method has this path.
    Path(String),
}

/// Why a call ends with an error.
#[derive(Drop)]
pub enum CallCause {
    /// Its stream ended inside a message.
    Cut(CutMessage),
    /// A prefix has a fault; and `grpc-encoding`.
    Prefix(PrefixFault, Option<String>),
    /// This many messages came, where one was wanted.
    Count(u64),
    /// `grpc-timeout` has this value.
    Deadline(String),
    /// A request isn't of its type.
    Malformed(MalformedMessage),
}

/// What the server ends streams for by its own bounds.
#[derive(Clone, Copy)]
pub enum ServerCause {
    /// It stops while calls go on.
    Drain,
    /// As many calls are live as may be.
    LiveCalls,
    /// All streams were begun that a connection may have.
    AllStreams,
    /// DATA for which the call has no room, or which it takes no more.
    NoRoom,
    /// The client sends nothing more.
    InputEnded,
    /// There was no memory for its answer, or its answer waited while its worker was wanted.
    Left,
}

impl fmt::Display for Cause {
    fn fmt<W: fmt::Write>(&self, f: &mut fmt::Formatter<W>) -> fmt::Result {
        match self {
            Cause::Frame(cause) => write!(f, "{cause}"),
            Cause::Block(cause) => write!(f, "{cause}"),
            Cause::Stream(cause) => write!(f, "{cause}"),
            Cause::Window(cause) => write!(f, "{cause}"),
            Cause::Fields(fault) => write!(f, "{fault}"),
            Cause::Head(cause) => write!(f, "{cause}"),
            Cause::Call(cause) => write!(f, "{cause}"),
            Cause::Server(cause) => write!(f, "{cause}"),
        }
    }
}

impl fmt::Display for FrameCause {
    fn fmt<W: fmt::Write>(&self, f: &mut fmt::Formatter<W>) -> fmt::Result {
        match *self {
            FrameCause::Preface { at, byte } => write!(
                f,
                "byte {at} is {byte:02x}, wanted the preface (RFC 9113, 3.4)"
            ),
            FrameCause::First(head) => {
                let frame = FrameName(head);
                write!(f, "{frame} came first, wanted SETTINGS (RFC 9113, 3.4)")
            }
            FrameCause::Fault(head, fault, padding) => write_fault(f, head, fault, padding),
            FrameCause::Setting { id, value } => {
                let (value, wanted) = (GroupedNumber(u64::from(value)), wanted_value(id));
                write!(
                    f,
                    "setting {id} is {value}, wanted {wanted} (RFC 9113, 6.5.2)"
                )
            }
            FrameCause::PushPromise(stream) => write!(
                f,
                "PUSH_PROMISE on stream {stream}, which no client may send (RFC 9113, 8.4)"
            ),
        }
    }
}

/// What is wrong with a frame by itself.
fn write_fault<W: fmt::Write>(
    f: &mut fmt::Formatter<W>,
    head: FrameHead,
    fault: FrameFault,
    padding: u8,
) -> fmt::Result {
    let (frame, kind, stream) = (FrameName(head), KindName(head.kind), head.stream);
    let (length, section) = (ByteCount(u64::from(head.length)), section_of(head.kind));
    match fault {
        FrameFault::TooLong => { write!(f, "{frame} of {length}, at most 16,384 (RFC 9113, 4.2)") }
        FrameFault::WrongStream => {
            let wanted = if stream == 0 {
                "one of a stream"
            } else {
                "stream 0"
            };
            write!(
                f,
                "{kind} on stream {stream}, wanted {wanted} (RFC 9113, {section})"
            )
        }
        FrameFault::BadLength => {
            let wanted = wanted_length(&head);
            write!(
                f,
                "{frame} of {length}, wanted {wanted} (RFC 9113, {section})"
            )
        }
        FrameFault::BadPadding => write!(
            f,
            "{frame} of {length}, {padding} of them padding (RFC 9113, {section})"
        ),
        FrameFault::ZeroIncrement(_) => { write!(f, "{frame} of 0, wanted more (RFC 9113, 6.9)") }
        FrameFault::OutOfMemory => write!(f, "out of memory"),
    }
}

/// Which values the parameter may have.
fn wanted_value(id: u16) -> &'static str {
    match id {
        2 => "0 or 1",
        4 => "at most 2,147,483,647",
        _ => "16,384 to 16,777,215",
    }
}

impl fmt::Display for BlockCause {
    fn fmt<W: fmt::Write>(&self, f: &mut fmt::Formatter<W>) -> fmt::Result {
        match *self {
            BlockCause::Lone(stream) => write!(
                f,
                "CONTINUATION on stream {stream} outside a header block (RFC 9113, 6.10)"
            ),
            BlockCause::Interrupted(stream, head) => {
                let frame = FrameName(head);
                write!(
                    f,
                    "{frame} inside the header block of stream {stream} (RFC 9113, 4.3)"
                )
            }
            BlockCause::TooLong(stream, length) => {
                let length = byte_count(length);
                write!(
                    f,
                    "stream {stream}: a header block of {length}, at most 65,536"
                )
            }
            BlockCause::Hpack {
                stream,
                length,
                fault,
                place,
            } => {
                write!(f, "stream {stream}, ")?;
                write_place(f, length, place)?;
                write_hpack(f, fault, place)
            }
        }
    }
}

/// Where in a block of this length it is.
fn write_place<W: fmt::Write>(
    f: &mut fmt::Formatter<W>,
    length: usize,
    place: Option<BlockPlace>,
) -> fmt::Result {
    match place {
        Some(BlockPlace { at, byte, .. }) => write!(f, "byte {at} of the block ({byte:02x}): "),
        None => {
            let length = byte_count(length);
            write!(f, "a block of {length}: ")
        }
    }
}

/// Which rule of HPACK a block breaks, with the number at that place.
fn write_hpack<W: fmt::Write>(
    f: &mut fmt::Formatter<W>,
    fault: HpackFault,
    place: Option<BlockPlace>,
) -> fmt::Result {
    let number = match place {
        Some(place) => GroupedNumber(place.number),
        None => GroupedNumber(0),
    };
    match fault {
        HpackFault::Index => write!(f, "index {number} (RFC 7541, 6.1)"),
        HpackFault::Integer => write!(
            f,
            "an integer over 4,294,967,295, or of over six bytes (RFC 7541, 5.1)"
        ),
        HpackFault::Huffman => write!(f, "a text that is no Huffman text (RFC 7541, 5.2)"),
        HpackFault::SizeUpdate => write!(
            f,
            "a table of {number}, at most 4,096, and before the first field (RFC 7541, 4.2, 6.3)"
        ),
        HpackFault::Truncated => write!(f, "the block ends inside a field (RFC 7541, 6)"),
        HpackFault::TooLarge => write!(f, "fields of over 65,536 bytes"),
        HpackFault::OutOfMemory | HpackFault::Dead => write!(f, "out of memory"),
    }
}

impl fmt::Display for StreamCause {
    fn fmt<W: fmt::Write>(&self, f: &mut fmt::Formatter<W>) -> fmt::Result {
        match *self {
            StreamCause::Even(head) => {
                let frame = FrameName(head);
                write!(f, "{frame}, wanted an odd one (RFC 9113, 5.1.1)")
            }
            StreamCause::Idle(head) => {
                let frame = FrameName(head);
                write!(f, "{frame}, which is idle (RFC 9113, 5.1)")
            }
            StreamCause::Skipped(head, greatest) => {
                let frame = FrameName(head);
                write!(
                    f,
                    "{frame}, which is closed, since stream {greatest} was begun (RFC 9113, 5.1.1)"
                )
            }
            StreamCause::BehindEnd(head) => {
                let kind = KindName(head.kind);
                write!(f, "{kind} after END_STREAM (RFC 9113, 5.1)")
            }
            StreamCause::OpenTrailers => {
                write!(f, "HEADERS again, without END_STREAM (RFC 9113, 8.1)")
            }
            StreamCause::ZeroIncrement => {
                write!(f, "WINDOW_UPDATE of 0, wanted more (RFC 9113, 6.9)")
            }
        }
    }
}

impl fmt::Display for WindowCause {
    fn fmt<W: fmt::Write>(&self, f: &mut fmt::Formatter<W>) -> fmt::Result {
        match *self {
            WindowCause::Stream(head, left) => {
                let (length, left) = (ByteCount(u64::from(head.length)), SignedNumber(left));
                write!(
                    f,
                    "DATA of {length}, window of the stream {left} (RFC 9113, 6.9.1)"
                )
            }
            WindowCause::Connection(head, left) => {
                let (frame, length) = (FrameName(head), ByteCount(u64::from(head.length)));
                let left = SignedNumber(left);
                write!(
                    f,
                    "{frame} of {length}, window of the connection {left} (RFC 9113, 6.9.1)"
                )
            }
            WindowCause::Credit {
                stream,
                increment,
                window,
            } => {
                let (increment, window) = (
                    GroupedNumber(u64::from(increment)),
                    SignedNumber(window),
                );
                let of = if stream == 0 { "connection" } else { "stream" };
                write!(
                    f,
                    "WINDOW_UPDATE of {increment}, window of the {of} {window} (RFC 9113, 6.9.1)"
                )
            }
            WindowCause::Initial { size, grown } => {
                let (size, grown) = (GroupedNumber(u64::from(size)), SignedNumber(grown));
                write!(
                    f,
                    "setting 4 is {size}, which takes a window to {grown} (RFC 9113, 6.9.2)"
                )
            }
        }
    }
}

/// A number with its sign, grouped.
#[derive(Clone, Copy)]
struct SignedNumber(i64);

impl fmt::Display for SignedNumber {
    fn fmt<W: fmt::Write>(&self, f: &mut fmt::Formatter<W>) -> fmt::Result {
        let size = GroupedNumber(self.0.unsigned_abs());
        let sign = if self.0 < 0 { "-" } else { "" };
        write!(f, "{sign}{size}")
    }
}

impl fmt::Display for HeadCause {
    fn fmt<W: fmt::Write>(&self, f: &mut fmt::Formatter<W>) -> fmt::Result {
        let requests = "(gRPC over HTTP/2, Requests)";
        match self {
            HeadCause::Method(value) => {
                write!(f, ":method is \"{value}\", wanted \"POST\" {requests}")
            }
            HeadCause::ContentType(Some(value)) => write!(
                f,
                "content-type is \"{value}\", wanted \"application/grpc\" at its front {requests}"
            ),
            HeadCause::ContentType(None) => {
                write!(f, "no content-type, wanted \"application/grpc\" {requests}")
            }
            HeadCause::Timeout(value) => write!(
                f,
                "grpc-timeout is \"{value}\", wanted 1 to 8 digits and a unit {requests}"
            ),
            HeadCause::Path(value) => write!(f, ":path is \"{value}\""),
        }
    }
}

impl fmt::Display for CallCause {
    fn fmt<W: fmt::Write>(&self, f: &mut fmt::Formatter<W>) -> fmt::Result {
        let rule = "(gRPC over HTTP/2, Length-Prefixed-Message)";
        match self {
            CallCause::Cut(CutMessage::InPrefix(came)) => {
                write!(
                    f,
                    "the stream ended after {came} of 5 bytes of a prefix {rule}"
                )
            }
            CallCause::Cut(CutMessage::InMessage { said, came }) => {
                let (said, came) = (ByteCount(u64::from(*said)), GroupedNumber(u64::from(*came)));
                write!(
                    f,
                    "prefix says {said}, the stream ended after {came} {rule}"
                )
            }
            CallCause::Prefix(PrefixFault::Compressed, Some(encoding)) => {
                write!(
                    f,
                    "a message is compressed, grpc-encoding is \"{encoding}\""
                )
            }
            CallCause::Prefix(PrefixFault::Compressed, None) => {
                write!(f, "a message is compressed, and no grpc-encoding {rule}")
            }
            CallCause::Prefix(PrefixFault::Flag(flag), _) => {
                write!(
                    f,
                    "the flag of a prefix is {flag:02x}, wanted 00 or 01 {rule}"
                )
            }
            CallCause::Prefix(PrefixFault::TooLong(said), _) => {
                let said = ByteCount(u64::from(*said));
                write!(f, "prefix says {said}, at most 4,194,304")
            }
            CallCause::Count(count) => {
                let count = GroupedNumber(*count);
                write!(f, "{count} messages came, wanted 1")
            }
            CallCause::Malformed(malformed) => write!(f, "{malformed}"),
            CallCause::Deadline(timeout) => write!(f, "grpc-timeout is \"{timeout}\""),
        }
    }
}

impl fmt::Display for ServerCause {
    fn fmt<W: fmt::Write>(&self, f: &mut fmt::Formatter<W>) -> fmt::Result {
        let text = match *self {
            ServerCause::Drain => "the server stops (RFC 9113, 6.8)",
            ServerCause::LiveCalls => "64 calls are live, which is the most (RFC 9113, 5.1.2)",
            ServerCause::AllStreams =>
                "it is the 4,096th stream, which is the last (RFC 9113, 6.8)",
            ServerCause::NoRoom => "DATA that the call has no room for, or takes no more",
            ServerCause::InputEnded => "the input ended before the client's half",
            ServerCause::Left => "the call was left",
        };
        write!(f, "{text}")
    }
}
