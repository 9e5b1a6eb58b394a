//! Streams that the writing side has ended, as values that only it makes.

ghost use Rattle.std.specs.Prelude.{◌≡◌};

use h2frame::StreamId;
use std::snapshot::Snapshot;

/// A stream that the writer has ended by itself: its call is to be cut.
#[derive(Clone, Copy, PartialEq, Eq, Debug)]
pub struct EndedStream {
    pub(crate) id: StreamId,
}

impl EndedStream {
    /// The stream.
    pub fn id(self) -> StreamId
        ensures { result ≡ self.id }
    {
        self.id
    }
}

/// The streams whose END_STREAM is in the buffer: the local ends of their calls are marked in the
/// book, so that the buffer may be written.
#[derive(Drop)]
pub struct MarkedEnds {
    pub(crate) streams: Snapshot<Vec<StreamId>>,
}
