//! The events of a connection.
//!
//! `PeerControl` has what the peer says to the side that writes, but no ends of calls.

use bytes::Bytes;
use callhead::{CallHead, HeadFault};
use h2frame::{ErrorCode, PeerSettings, StreamId};
use reasons::Reason;

/// What the peer says to the side that writes.
#[derive(Debug, Drop)]
pub enum PeerControl {
    /// SETTINGS, which are to be acknowledged.
    Settings(PeerSettings),
    /// PING with these eight bytes, which are to be sent back.
    Ping([u8; 8]),
    /// The peer lets this many more bytes be sent on a stream, or on the connection where it is 0.
    Window(StreamId, u32),
}

/// What is read of a connection.
#[derive(Debug, Drop)]
pub enum InEvent {
    /// A call begins.
    Open(StreamId, CallHead),
    /// A stream begins without the head of a call. One with a malformed head is reset at once.
    BadHead(StreamId, HeadFault),
    /// A piece of a stream's data, and how many bytes flow control counts for it, padding among
    /// them.
    Data(StreamId, Bytes, u32),
    /// Bytes that flow control counts on the connection alone.
    Loose(u32),
    /// The client's half of a stream has ended.
    End(StreamId),
    /// The client reset a stream.
    Reset(StreamId, ErrorCode),
    /// A stream is to be reset with this error, and counts as reset from here on.
    StreamError(StreamId, ErrorCode),
    Control(PeerControl),
    /// The peer opens no more streams.
    PeerGoaway,
    /// The connection is to be ended, for this reason. It is the last event.
    Fatal(Reason),
}
