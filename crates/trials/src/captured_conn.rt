//! A connection whose bytes are kept, for the report of a case that failed.

ghost use Rattle.std.specs.Prelude.{◌≡◌};

use std::alloc::{AllocError, Global};
use std::io;
use std::io::{Read, Write};

/// The most bytes that are kept of each direction.
const MOST: usize = 1_048_576;

/// A connection, and the first of the bytes that were sent and read.
#[derive(Drop)]
pub(crate) struct CapturedConn<S> {
    pub(crate) stream: S,
    pub(crate) bytes: Bytes,
}

/// The first of the bytes of a connection, and how many there were.
#[derive(Drop)]
pub(crate) struct Bytes {
    pub(crate) sent: Vec<u8>,
    pub(crate) read: Vec<u8>,
    pub(crate) sent_count: u64,
    pub(crate) read_count: u64,
}

impl<S> CapturedConn<S> {
    /// A connection that was just made.
    pub(crate) fn new(alloc: Global, stream: S) -> CapturedConn<S> {
        CapturedConn {
            stream,
            bytes: Bytes {
                sent: Vec::new(alloc),
                read: Vec::new(alloc),
                sent_count: 0,
                read_count: 0,
            },
        }
    }
}

/// Keeps bytes, as far as there is room.
fn keep(kept: &mut Vec<u8>, bytes: &[u8]) -> Result<(), AllocError> {
    let room = MOST.saturating_sub(kept.len());
    let front = bytes.get(..room).unwrap_or(bytes);
    kept.extend_from_slice(front)
}

impl<S: Read> Read for CapturedConn<S> {
    fn read(&mut self, buf: &mut [u8]) -> io::Result<usize> {
        let count = self.stream.read(buf)?;
        let came = buf.get(..count).unwrap_or(b"".as_slice());
        keep(&mut self.bytes.read, came)?;
        self.bytes.read_count = self.bytes.read_count.saturating_add(count as u64);
        Ok(count)
    }
}

impl<S: Write> Write for CapturedConn<S> {
    fn write(&mut self, buf: &[u8]) -> io::Result<usize> {
        let count = self.stream.write(buf)?;
        let gone = buf.get(..count).unwrap_or(buf);
        keep(&mut self.bytes.sent, gone)?;
        self.bytes.sent_count = self.bytes.sent_count.saturating_add(count as u64);
        Ok(count)
    }

    fn flush(&mut self) -> io::Result<()> {
        self.stream.flush()
    }
}
