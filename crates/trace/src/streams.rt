//! What is known of the streams of a connection.

use crate::messages::Messages;
use crate::sides::Sides;
use crate::windows::WindowShift;
use h2frame::StreamId;
use indexmap::IndexMap;
use std::alloc::{AllocError, Global};

/// What is known of what one side sends on a stream.
#[derive(Clone, Copy)]
pub struct StreamHalf {
    pub messages: Messages,
    /// Its window.
    pub moved: WindowShift,
    pub has_end: bool,
}

/// A stream, by its two sides.
pub type Stream = Sides<StreamHalf>;

/// The streams that neither side reset, and not both have ended.
#[derive(Drop)]
pub struct Streams {
    known: IndexMap<StreamId, Stream>,
}

/// Nothing was sent on it.
const NEW_HALF: StreamHalf = StreamHalf {
    messages: Messages::NONE,
    moved: WindowShift::NONE,
    has_end: false,
};

const NEW_STREAM: Stream = Sides {
    client: NEW_HALF,
    server: NEW_HALF,
};

impl Streams {
    /// There are none. It takes no memory yet.
    pub fn new(alloc: Global) -> Streams {
        Streams {
            known: IndexMap::new(alloc),
        }
    }

    pub fn find(&self, id: StreamId) -> Option<Stream> {
        self.known.get(&id).copied()
    }

    /// A stream that is known, or a new one.
    pub fn get(&self, id: StreamId) -> Stream {
        self.find(id).unwrap_or(NEW_STREAM)
    }

    /// Keeps what is known of a stream, while a side may send on it.
    pub fn keep(&mut self, id: StreamId, stream: Stream) -> Result<(), AllocError> {
        if stream.client.has_end && stream.server.has_end {
            self.forget(id);
            return Ok(());
        }
        let _before = self.known.insert(id, stream)?;
        Ok(())
    }

    /// A side reset the stream.
    pub fn forget(&mut self, id: StreamId) {
        let _stream = self.known.swap_remove(&id);
    }
}
