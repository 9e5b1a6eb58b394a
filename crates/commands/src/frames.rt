//! The frames of bytes that pass.

use h2frame::{Frame, FrameReader};
use std::alloc::{AllocError, Global};

/// Reads the frames of bytes that pass.
#[derive(Drop)]
pub(crate) struct PassingFrames {
    alloc: Global,
    reader: FrameReader,
}

impl PassingFrames {
    pub(crate) fn new(alloc: Global) -> PassingFrames {
        PassingFrames {
            alloc,
            reader: FrameReader::new(alloc),
        }
    }

    /// The frames that these bytes complete. After bytes that are no frames there are none.
    pub(crate) fn completed_by(&mut self, bytes: &[u8]) -> Result<Vec<Frame>, AllocError> {
        let mut frames = Vec::new(self.alloc);
        if self.reader.feed(bytes).is_err() {
            return Ok(frames);
        }
        for _ in 0..u64::MAX {
            match self.reader.next() {
                Some(Ok(frame)) => frames.push(frame)?,
                Some(Err(_)) | None => return Ok(frames),
            }
        }
        Ok(frames)
    }
}
