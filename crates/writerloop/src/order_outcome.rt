//! What became of an order.

use h2frame::StreamId;
use outwriter::WriterOrder;

/// What became of an order that a writer was given. `S` is the sender of a call.
#[derive(Drop)]
pub enum OrderOutcome<S> {
    /// It was taken.
    Done,
    /// It was taken, and would make a window larger than 2^31 - 1 bytes. The writer ended the
    /// stream by RST_STREAM, or at 0 the connection by GOAWAY, with FLOW_CONTROL_ERROR (RFC 9113,
    /// sections 6.9.1 and 6.9.2).
    Ended(StreamId),
    /// It was taken, and would make a window larger than 2^31 - 1 bytes, but there was no memory
    /// for RST_STREAM or GOAWAY: the writer stops.
    Unanswered(StreamId),
    /// Out of memory: it comes back, and nothing changes.
    HandedBack(WriterOrder<S>),
}
