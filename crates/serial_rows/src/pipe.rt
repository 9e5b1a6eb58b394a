//! What a connection is written to.

use anyhow::Result;
use std::alloc::Global;
use std::io;
use std::io::Write;

/// How many bytes most runs write at most.
const WRITTEN: usize = 65_536;

/// Keeps what is written, at most a number of bytes for each call, and fails from one of the calls
/// on.
#[derive(Drop)]
pub struct Pipe {
    pub bytes: Vec<u8>,
    /// How many bytes a call takes at most.
    most: usize,
    /// How many calls go well, where one fails.
    fails_at: Option<u64>,
    /// How many calls there were.
    pub calls: u64,
}

impl Pipe {
    pub fn new(alloc: Global, most: usize, fails_at: Option<u64>) -> Result<Pipe> {
        Ok(Pipe {
            bytes: Vec::with_capacity(alloc, WRITTEN)?,
            most,
            fails_at,
            calls: 0,
        })
    }
}

impl Write for Pipe {
    fn write(&mut self, buf: &[u8]) -> io::Result<usize> {
        if let Some(at) = self.fails_at {
            if self.calls >= at {
                return Err(io::Error::from(io::ErrorKind::Other));
            }
        }
        self.calls = self.calls.saturating_add(1);
        let count = buf.len().min(self.most);
        self.bytes.extend_from_slice(&buf[..count])?;
        Ok(count)
    }

    fn flush(&mut self) -> io::Result<()> {
        Ok(())
    }
}
