//! Devices over memory that fail from a call on, and move little at a time.
ghost use Rattle.std.specs.Prelude.{◌≤◌, ◌<◌, None, IfOk};

use connection::Drainer;
use device::{ConnRead, ConnWrite, DeviceFault};
use std::sync::Wait;
use std::sync::ledger::Ledger;

/// What the calls of a device do.
#[derive(Clone, Copy)]
pub struct Limits {
    /// How many calls go well. Each after them fails.
    pub good: u64,
    /// How many bytes a call moves at most. It moves one where this is 0.
    pub most: usize,
}

impl Limits {
    /// Counts a call: how many of these bytes it moves at most.
    fn count(&mut self, bytes: usize) -> Result<usize, DeviceFault>
        ensures fits { IfOk result (λ most. most ≤ bytes) }
        ensures some { IfOk result (λ most. 0 < bytes → 0 < most) }
    {
        self.good = self.good.checked_sub(1).ok_or(DeviceFault)?;
        Ok(bytes.min(self.most.max(1)))
    }
}

/// Bytes that are read.
#[derive(Drop)]
pub struct Source {
    pub bytes: Vec<u8>,
    /// How many of them were read.
    pub at: usize,
    /// No read goes across this place among them.
    pub cut: usize,
    pub limits: Limits,
    pub has_failed: bool,
}

impl ConnRead for Source {
    ghost remaining = { λ _. None };

    ghost failed = { λ source. source.has_failed };

    fn read(&mut self, buf: &mut [u8]) -> Result<usize, DeviceFault> {
        let end = if self.at < self.cut {
            self.cut.min(self.bytes.len())
        } else {
            self.bytes.len()
        };
        let rest = self.bytes.get(self.at..end).unwrap_or(&[]);
        let Ok(most) = self.limits.count(buf.len()) else {
            self.has_failed = true;
            return Err(DeviceFault);
        };
        let count = most.min(rest.len());
        buf[..count].copy_from_slice(&rest[..count]);
        self.at = self.at.saturating_add(count);
        Ok(count)
    }
}

/// A source. After some of its reads its connection is drained, before what they brought is
/// answered.
#[derive(Drop)]
pub struct DrainedSource<A: Ledger, B: Ledger, C: Ledger, R: Drop> {
    pub rt: R,
    pub source: Source,
    pub drainer: Drainer<A, B, C>,
    /// After how many more reads, if it is.
    pub left: Option<u64>,
}

impl<A: Ledger, B: Ledger, C: Ledger, R: Wait + Drop> ConnRead for DrainedSource<A, B, C, R> {
    ghost remaining = { λ _. None };

    ghost failed = { λ drained. drained.source.has_failed };

    fn read(&mut self, buf: &mut [u8]) -> Result<usize, DeviceFault> {
        let result = self.source.read(buf);
        self.left = self.left.and_then(|left| left.checked_sub(1));
        if self.left == Some(0) {
            self.drainer.drain(&self.rt);
        }
        result
    }
}

/// Bytes that were written.
#[derive(Drop)]
pub struct Sink {
    pub bytes: Vec<u8>,
    pub limits: Limits,
    pub has_failed: bool,
}

impl ConnWrite for Sink {
    ghost contents = { λ _. None };

    ghost failed = { λ sink. sink.has_failed };

    fn write(&mut self, buf: &[u8]) -> Result<usize, DeviceFault> {
        let Ok(count) = self.limits.count(buf.len()) else {
            self.has_failed = true;
            return Err(DeviceFault);
        };
        if self.bytes.extend_from_slice(&buf[..count]).is_err() {
            self.has_failed = true;
            return Err(DeviceFault);
        }
        Ok(count)
    }
}
