//! A connection's bytes in memory: those of its client, and those that the server writes.
//!
//! A client that keeps to its windows waits for a WINDOW_UPDATE before it sends more DATA. So DATA
//! are held back here until the server has written the credit that they need.

use crate::frames::PassingFrames;
use h2frame::{Frame, FrameKind, StreamId};
use std::alloc::{AllocError, Global};
use std::io::{Read, Write};
use std::sync::{Arc, Mutex, Wait};
use std::time::{Clock, Duration, Instant};
use std::{io, thread};

/// What a client sends before its first frame (RFC 9113, section 3.4).
const PREFACE: &[u8] = b"PRI * HTTP/2.0\r\n\r\nSM\r\n\r\n";

/// How many bytes of DATA a client may send before any WINDOW_UPDATE (RFC 9113, section 6.9.2).
const WINDOW: u64 = 65_535;

/// How many bytes of a frame come before its payload (RFC 9113, section 4.1).
const HEAD_LEN: usize = 9;

/// The type of DATA (RFC 9113, section 6.1).
const DATA: u8 = 0;

/// How long DATA are held back at most, in milliseconds.
/// If their client exceeded a window, they get no credit.
const PATIENCE: u64 = 3_000;

/// How long it is between two looks for credit, in milliseconds.
const STEP: u64 = 1;

/// What a server wrote.
#[derive(Drop)]
pub struct Memory {
    written: Mutex<WrittenOutput>,
}

#[derive(Drop)]
struct WrittenOutput {
    bytes: Vec<u8>,
    frames: PassingFrames,
    /// What its WINDOW_UPDATEs add, on the connection (stream 0) and on each stream.
    credits: Vec<Amount>,
}

/// Bytes of DATA on a stream.
#[derive(Clone, Copy, Debug)]
struct Amount {
    stream: StreamId,
    bytes: u64,
}

/// The head of a frame, as far as it matters here.
#[derive(Clone, Copy, Debug)]
struct Head {
    is_data: bool,
    stream: StreamId,
    length: u32,
}

impl Memory {
    /// Nothing yet.
    pub fn new(alloc: Global) -> Result<Arc<Memory>, AllocError> {
        let memory = Memory {
            written: Mutex::new(WrittenOutput {
                bytes: Vec::new(alloc),
                frames: PassingFrames::new(alloc),
                credits: Vec::new(alloc),
            }),
        };
        Ok(Arc::new(alloc, memory)?)
    }

    /// A copy of all that was written.
    pub fn written(&self, rt: &impl Wait, alloc: Global) -> Result<Vec<u8>, AllocError> {
        let mut bytes = Vec::new(alloc);
        let written = self.written.lock(rt);
        bytes.extend_from_slice(written.bytes.as_slice())?;
        Ok(bytes)
    }

    /// Whether what was written allows the client all these bytes of DATA on their stream.
    fn allows(&self, rt: &impl Wait, amount: Amount) -> bool {
        let written = self.written.lock(rt);
        let credit = of_stream(written.credits.as_slice(), amount.stream);
        amount.bytes <= credit.saturating_add(WINDOW)
    }

    fn write(&self, rt: &impl Wait, bytes: &[u8]) -> Result<(), AllocError> {
        let mut written = self.written.lock(rt);
        written.look(bytes)?;
        written.bytes.extend_from_slice(bytes)
    }
}

impl WrittenOutput {
    /// Looks at what is written.
    fn look(&mut self, bytes: &[u8]) -> Result<(), AllocError> {
        let frames = self.frames.completed_by(bytes)?;
        for frame in frames.as_slice() {
            self.see(frame)?;
        }
        Ok(())
    }

    fn see(&mut self, frame: &Frame) -> Result<(), AllocError> {
        match frame.head.kind {
            FrameKind::WindowUpdate => {
                let bytes = increment_of(frame.content.as_slice());
                let stream = frame.head.stream;
                add(&mut self.credits, Amount { stream, bytes })
            }
            _ => Ok(()),
        }
    }
}

/// What a WINDOW_UPDATE of this content adds (RFC 9113, section 6.9).
fn increment_of(content: &[u8]) -> u64 {
    match content {
        [a, b, c, d, ..] => u64::from(u32::from_be_bytes([*a, *b, *c, *d]) & 0x7fff_ffff),
        _ => 0,
    }
}

/// How many bytes amounts have of a stream.
fn of_stream(amounts: &[Amount], stream: StreamId) -> u64 {
    for amount in amounts {
        if amount.stream == stream {
            return amount.bytes;
        }
    }
    0
}

/// Adds bytes to those of their stream.
fn add(amounts: &mut Vec<Amount>, more: Amount) -> Result<(), AllocError> {
    let Amount { stream, bytes } = more;
    let place = amounts.iter().position(|amount| amount.stream == stream);
    let mut before = 0;
    if let Some(place) = place {
        if place < amounts.len() {
            before = amounts.swap_remove(place).bytes;
        }
    }
    let bytes = bytes.saturating_add(before);
    amounts.push(Amount { stream, bytes })?;
    Ok(())
}

/// The head of the frame that begins here (RFC 9113, section 4.1).
fn head_of(bytes: &[u8]) -> Option<Head> {
    match bytes {
        [a, b, c, kind, _, d, e, f, g, ..] => Some(Head {
            is_data: *kind == DATA,
            stream: u32::from_be_bytes([*d, *e, *f, *g]) & 0x7fff_ffff,
            length: u32::from_be_bytes([0, *a, *b, *c]),
        }),
        _ => None,
    }
}

/// The bytes of a client, which are read from their beginning to their end.
#[derive(Drop)]
pub struct MemoryInput<R> {
    rt: R,
    memory: Arc<Memory>,
    bytes: Vec<u8>,
    /// How many of them were read.
    at: usize,
    /// How many of them may be read: the others begin with DATA that have no credit yet.
    free: usize,
    /// The DATA among those, on the connection (stream 0) and on each stream.
    sent: Vec<Amount>,
}

impl<R: Wait + Clock> MemoryInput<R> {
    /// The bytes of a client to which this server answers.
    pub fn new(rt: R, alloc: Global, bytes: Vec<u8>, memory: Arc<Memory>) -> MemoryInput<R> {
        // (what doesn't begin so has no frames)
        let free = if bytes.as_slice().starts_with(PREFACE) {
            PREFACE.len()
        } else {
            bytes.len()
        };
        MemoryInput {
            rt,
            memory,
            bytes,
            at: 0,
            free,
            sent: Vec::new(alloc),
        }
    }

    /// Frees at least this many of the next bytes, unless DATA without credit come first. If
    /// nothing is free, it waits for their credit.
    fn release(&mut self, wanted: usize) {
        for _ in 0..u64::MAX {
            let free = self.free.saturating_sub(self.at);
            if free >= wanted {
                return;
            }
            let Some(head) = self.next_head() else {
                self.free = self.bytes.len();
                return;
            };
            if head.is_data {
                let limit = if free > 0 { 0 } else { PATIENCE };
                if !self.gets_credit(head, limit) {
                    if free == 0 {
                        self.free = self.bytes.len();
                    }
                    return;
                }
                if self.count(head).is_err() {
                    self.free = self.bytes.len();
                    return;
                }
            }
            let end = self.free.saturating_add(HEAD_LEN);
            self.free = end.saturating_add(head.length as usize);
        }
    }

    /// The head of the frame that the bytes begin with that aren't free, if it is whole.
    fn next_head(&self) -> Option<Head> {
        head_of(self.bytes.get(self.free..)?)
    }

    /// Whether these DATA have credit on the connection and on their stream, now or within some
    /// milliseconds.
    fn gets_credit(&self, head: Head, limit: u64) -> bool {
        let begun = Instant::now(&self.rt).ok();
        for _ in 0..u64::MAX {
            if self.has_credit(0, head.length) && self.has_credit(head.stream, head.length) {
                return true;
            }
            if has_passed(&self.rt, begun, limit) {
                return false;
            }
            let _ = thread::sleep(&self.rt, Duration::from_millis(STEP));
        }
        false
    }

    /// Whether these bytes of DATA, added to those before, have credit on this stream.
    fn has_credit(&self, stream: StreamId, more: u32) -> bool {
        let before = of_stream(self.sent.as_slice(), stream);
        let bytes = before.saturating_add(u64::from(more));
        self.memory.allows(&self.rt, Amount { stream, bytes })
    }

    /// Counts DATA that are set free.
    fn count(&mut self, head: Head) -> Result<(), AllocError> {
        let bytes = u64::from(head.length);
        let stream = head.stream;
        add(&mut self.sent, Amount { stream: 0, bytes })?;
        add(&mut self.sent, Amount { stream, bytes })
    }
}

/// Whether these milliseconds have gone by. If no clock can be read, they have.
fn has_passed(rt: &impl Clock, begun: Option<Instant>, limit: u64) -> bool {
    match begun {
        Some(begun) => match begun.elapsed(rt) {
            Ok(elapsed) => elapsed >= Duration::from_millis(limit),
            Err(_) => true,
        },
        None => true,
    }
}

impl<R: Wait + Clock> Read for MemoryInput<R> {
    fn read(&mut self, buf: &mut [u8]) -> io::Result<usize> {
        self.release(buf.len());
        let rest = self.bytes.get(self.at..).unwrap_or(&[]);
        let free = self.free.saturating_sub(self.at);
        let rest = rest.get(..free).unwrap_or(rest);
        let count = rest.len().min(buf.len());
        buf[..count].copy_from_slice(&rest[..count]);
        self.at = self.at.saturating_add(count);
        Ok(count)
    }
}

/// What a server writes into memory.
#[derive(Drop)]
pub struct MemoryOutput<R> {
    pub rt: R,
    pub memory: Arc<Memory>,
}

impl<R: Wait> Write for MemoryOutput<R> {
    fn write(&mut self, buf: &[u8]) -> io::Result<usize> {
        self.memory.write(&self.rt, buf)?;
        Ok(buf.len())
    }

    fn flush(&mut self) -> io::Result<()> {
        Ok(())
    }
}
