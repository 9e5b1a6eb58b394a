//! Reading frames from pieces of one size.

use crate::sizes::number;
use anyhow::Result;
use bytes::Bytes;
use h2frame::{Flags, Frame, FrameKind, FrameReader, write_frame};
use std::alloc::Global;
use std::rt::Clock;
use std::time::Instant;

/// Payloads of a connection that carries large messages and small ones, and the bytes of their
/// frames.
const PAYLOADS: [usize; 4] = [16_384, 5, 16_384, 1_000];

const ROUND: usize = 33_809;

fn write_data(zeros: &Bytes, len: usize, bytes: &mut Vec<u8>) -> Result<()> {
    let content = zeros.slice(0..len.min(zeros.len()))?;
    if content.len() <= 16_384 {
        let frame = Frame::new(FrameKind::Data, Flags::NONE, 1, content);
        write_frame(&frame, bytes)?;
    }
    Ok(())
}

/// A DATA frame of each payload.
fn round(alloc: Global) -> Result<Vec<u8>> {
    let zeros = vec![in alloc; 0u8; 16_384]?;
    let zeros = Bytes::copy_from_slice(alloc, zeros.as_slice())?;
    let mut bytes = Vec::new(alloc);
    for len in PAYLOADS {
        write_data(&zeros, len, &mut bytes)?;
    }
    Ok(bytes)
}

/// What was read: frames, and the bytes of their contents.
#[derive(Clone, Copy)]
struct Count {
    frames: u64,
    contents: u64,
}

fn drain(reader: &mut FrameReader, count: &mut Count) -> Result<()> {
    for _ in 0..u64::MAX {
        let Some(answer) = reader.next() else {
            break;
        };
        let frame = answer?;
        count.frames = count.frames.wrapping_add(1);
        count.contents = count.contents.wrapping_add(frame.content.len() as u64);
    }
    Ok(())
}

/// Reads these bytes again and again, in pieces of a size. A socket's buffer too is used again, so
/// what is measured isn't where the bytes come from.
fn read(alloc: Global, bytes: &[u8], rounds: usize, piece: usize) -> Result<Count> {
    let mut reader = FrameReader::new(alloc);
    let mut count = Count {
        frames: 0,
        contents: 0,
    };
    for _ in 0..rounds {
        read_once(&mut reader, bytes, piece, &mut count)?;
    }
    Ok(count)
}

fn read_once(
    reader: &mut FrameReader,
    bytes: &[u8],
    piece: usize,
    count: &mut Count,
) -> Result<()> {
    for part in bytes.chunks(piece.max(1)) {
        reader.feed(part)?;
        drain(reader, count)?;
    }
    Ok(())
}

/// `h2frame-feed PIECE TOTAL`: prints the bytes fed, the frames read, the bytes of their contents
/// and the nanoseconds.
pub fn timed(rt: &(impl Clock + AllocGlobal + Print), sizes: &[String]) -> Result<()> {
    let alloc = rt.alloc();
    let bytes = round(alloc)?;
    let piece = number(sizes, 0)?;
    let rounds = number(sizes, 1)?.div_ceil(ROUND);
    let start = Instant::now(rt)?;
    let count = read(alloc, bytes.as_slice(), rounds, piece)?;
    let nanos = start.elapsed(rt)?.as_nanos();
    let fed = rounds.saturating_mul(bytes.len());
    let frames = count.frames;
    let contents = count.contents;
    println!(rt; "{fed} {frames} {contents} {nanos}")?;
    Ok(())
}

pub fn small(rt: &(impl AllocGlobal + Print)) -> Result<()> {
    let alloc = rt.alloc();
    let bytes = round(alloc)?;
    let fed = bytes.len();
    let count = read(alloc, bytes.as_slice(), 1, 7)?;
    let frames = count.frames;
    let contents = count.contents;
    println!(rt; "h2frame-feed: {fed} bytes, {frames} frames, {contents} bytes of content")?;
    Ok(())
}
