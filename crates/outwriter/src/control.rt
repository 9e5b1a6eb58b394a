//! The controls of a writer's core, and why it refuses one (RFC 9113, sections 5.4 and 6).

use h2frame::{ErrorCode, PeerSettings, StreamId};
use lists::{Field, Sequence};
use reasons::Reason;
use std::fmt;

/// What the peer says to the core, or its own side. `S` is the sender of a call.
#[derive(Drop)]
pub enum WriterOrder<S> {
    /// The peer's SETTINGS, which the core applies and then acknowledges (section 6.5.3).
    Settings(PeerSettings),
    /// A PING of the peer, whose eight bytes the core sends back (section 6.7).
    Ping([u8; 8]),
    /// A PING of the server's own with these eight bytes, which the peer sends back (section 6.7).
    Probe([u8; 8]),
    /// The peer credits this many bytes to a stream, or to the connection where it is 0 (section
    /// 6.9).
    Window(StreamId, u32),
    /// A call begins, whose items are written on its stream. On 0, or on a number over 2^31 - 1,
    /// nothing is written, here and for the next two.
    Open(StreamId, S),
    /// One header block answers a stream and ends it (section 8.1).
    Refuse(StreamId, Sequence<Field>),
    /// A stream ends by an error, which RST_STREAM gives the peer if it is to be written (section
    /// 6.4).
    Reset {
        id: StreamId,
        code: ErrorCode,
        written: bool,
    },
    /// The connection ends, and GOAWAY says why. `last`, below 2^31, is the greatest stream that
    /// was looked at. If the code of the reason isn't 0, GOAWAY is the last frame (section 6.8).
    Goaway {
        last: StreamId,
        reason: Reason,
    },
    /// No more comes from the peer, so no more credit either.
    InputEnded,
    /// No more controls come: once nothing can be written, it is over.
    Close,
}

/// Why the core refuses.
#[derive(Drop)]
pub enum OutFault<S> {
    /// Out of memory. A control that wasn't taken comes back; without one the core is dead.
    OutOfMemory(Option<WriterOrder<S>>),
    /// A window would be larger than 2^31 - 1 bytes: the stream's, or at 0 the connection's, or by
    /// SETTINGS some stream's. No window changes; the control counts as taken.
    PeerWindow(StreamId),
}

impl<S> OutFault<S> {
    ghost use Rattle.std.specs.Prelude.{◌≡◌};
    ghost use Rattle.outwriter.specs.Steps.{fault_code};

    /// The fault's number.
    pub fn code(&self) -> u32
        ensures { result ≡ fault_code self.now }
    {
        match self {
            OutFault::OutOfMemory(_) => 1,
            OutFault::PeerWindow(_) => 2,
        }
    }
}

impl<S> fmt::Debug for OutFault<S> {
    fn fmt<W: fmt::Write>(&self, f: &mut fmt::Formatter<W>) -> fmt::Result {
        match self {
            OutFault::OutOfMemory(_) => f.write_str("OutOfMemory"),
            OutFault::PeerWindow(id) => write!(f, "PeerWindow({id})"),
        }
    }
}
