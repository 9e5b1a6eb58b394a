//! Each type of frame with payloads of the least and the greatest length: `kinds.rows` for those
//! that are read, and written again, and `refused.rows` for those that aren't written. In
//! `lengths.rows` each length is read.

use anyhow::{Context, Result, bail, ensure};
use bytes::Bytes;
use h2frame::{Flags, Frame, FrameFault, FrameHead, FrameKind, FrameReader, write_frame};
use rows::number;
use std::alloc::Global;

/// The most bytes that stand before a content: the padding's length, and five of priority.
const MOST_BEFORE: usize = 6;

/// The sizes of the pieces that a frame is read in.
const SIZES: [usize; 7] = [1, 2, 3, 9, 10, 1_000, 20_000];

/// The bytes after which a frame is written.
const KEPT: &[u8] = b"kept";

/// The head of which a row says the type's code, the flags, the stream and the length.
fn head_of(words: &[&str]) -> Result<FrameHead> {
    let [code, flags, stream, length, _] = words else {
        bail!("the row hasn't five words");
    };
    Ok(FrameHead {
        kind: FrameKind::from_code(code.parse::<u8>()?),
        flags: Flags {
            bits: u8::from_str_radix(flags, 16)?,
        },
        stream: number(stream)?,
        length: number(length)?,
    })
}

/// A payload's first byte, which a row's last word says, and then bytes that are their place,
/// modulo 251.
fn payload_of(alloc: Global, words: &[&str], len: u32) -> Result<Vec<u8>> {
    let first = words.last().context("no words")?.parse::<u8>()?;
    let mut payload = Vec::new(alloc);
    for place in 0..len {
        payload.push(if place == 0 {
            first
        } else {
            (place % 251) as u8
        })?;
    }
    Ok(payload)
}

/// The bytes of a frame, by RFC 9113, section 4.1.
fn spelled(alloc: Global, head: &FrameHead, payload: &[u8]) -> Result<Vec<u8>> {
    let [_, a, b, c] = head.length.to_be_bytes();
    let mut bytes = Vec::from_slice(alloc, &[a, b, c, head.kind.code(), head.flags.bits])?;
    bytes.extend_from_slice(&head.stream.to_be_bytes())?;
    bytes.extend_from_slice(payload)?;
    Ok(bytes)
}

/// The frame that is read of bytes in pieces of a size, which has to come with the last piece and
/// not before.
fn next_frame(reader: &mut FrameReader, bytes: &[u8], size: usize) -> Result<Frame> {
    for piece in bytes.chunks(size.max(1)) {
        ensure!(reader.next().is_none(), "there is an answer too early");
        reader.feed(piece)?;
    }
    Ok(reader.next().context("there is no frame")??)
}

/// The one frame that is read of bytes in pieces of a size, whose head has to be this one.
fn read_in_pieces(alloc: Global, bytes: &[u8], size: usize, head: &FrameHead) -> Result<Frame> {
    let mut reader = FrameReader::new(alloc);
    let frame = next_frame(&mut reader, bytes, size)?;
    ensure!(reader.next().is_none(), "there is a second answer");
    ensure!(frame.head == *head, "another head");
    Ok(frame)
}

/// Which bytes of the payload the content is: from where, and to where.
fn push_place(answer: &mut String, payload: &[u8], content: &[u8]) -> Result<()> {
    if content.is_empty() {
        answer.push_str(" no bytes")?;
        return Ok(());
    }
    for start in 0..=MOST_BEFORE {
        if payload.get(start..).unwrap_or(&[]).starts_with(content) {
            let end = start.saturating_add(content.len());
            write!(answer, " {start}..{end}")?;
            return Ok(());
        }
    }
    bail!("the content is no part of the payload")
}

/// Writes the frame whose payload is all content.
fn write(
    alloc: Global,
    head: &FrameHead,
    content: &[u8],
    out: &mut Vec<u8>,
) -> Result<Option<FrameFault>> {
    let content = Bytes::copy_from_slice(alloc, content)?;
    ensure!(content.len() < 0x0100_0000, "the content is too long");
    ensure!(head.stream < 0x8000_0000, "the stream has 32 bits");
    let kind = FrameKind::from_code(head.kind.code());
    let frame = Frame::new(kind, head.flags, head.stream, content);
    if frame.head.is_padded() || frame.head.has_priority() {
        bail!("no frame with padding or priority is written");
    }
    Ok(write_frame(&frame, out).err())
}

/// Writes the frame after what stands there, which stays: as these bytes, or nothing, for a fault.
fn write_behind(
    alloc: Global,
    head: &FrameHead,
    content: &[u8],
    bytes: &[u8],
) -> Result<Option<FrameFault>> {
    let mut out = Vec::from_slice(alloc, KEPT)?;
    let fault = write(alloc, head, content, &mut out)?;
    let wanted: &[u8] = if fault.is_some() { &[] } else { bytes };
    let written = out.as_slice().strip_prefix(KEPT);
    ensure!(written == Some(wanted), "other bytes were written");
    Ok(fault)
}

/// Reads the frame in pieces of several sizes, which has to be this one.
fn try_sizes(alloc: Global, bytes: &[u8], whole: &Frame) -> Result<()> {
    for size in SIZES {
        let frame = read_in_pieces(alloc, bytes, size, &whole.head)?;
        ensure!(frame == *whole, "another frame in pieces of {size} bytes");
    }
    Ok(())
}

/// A frame, and its type with the place of its content, in whatever pieces it comes. A frame
/// without padding and priority is also written, and has to give these bytes.
pub fn kinds(alloc: Global, words: &[&str], answer: &mut String) -> Result<()> {
    let head = head_of(words)?;
    let payload = payload_of(alloc, words, head.length)?;
    let bytes = spelled(alloc, &head, payload.as_slice())?;
    push_kind(alloc, &head, payload.as_slice(), bytes.as_slice(), answer)
}

fn push_kind(
    alloc: Global,
    head: &FrameHead,
    payload: &[u8],
    bytes: &[u8],
    answer: &mut String,
) -> Result<()> {
    let whole = read_in_pieces(alloc, bytes, bytes.len(), head)?;
    try_sizes(alloc, bytes, &whole)?;
    write!(answer, "{:?}", head.kind)?;
    push_place(answer, payload, whole.content.as_slice())?;
    if !head.is_padded() && !head.has_priority() {
        match write_behind(alloc, head, payload, bytes)? {
            Some(fault) => return Err(fault.into()),
            None => answer.push_str(", written")?,
        }
    }
    Ok(())
}

/// Reads the frame of this payload whole, which has to be all of its content.
fn try_length(alloc: Global, head: &FrameHead, payload: &[u8]) -> Result<()> {
    let bytes = spelled(alloc, head, payload)?;
    let frame = read_in_pieces(alloc, bytes.as_slice(), bytes.len(), head)?;
    ensure!(frame.content.as_slice() == payload, "another content");
    Ok(())
}

/// A frame, and the lengths of payload with which one like it is read: each up to its own.
pub fn lengths(alloc: Global, words: &[&str], answer: &mut String) -> Result<()> {
    let mut head = head_of(words)?;
    let greatest = head.length;
    let payload = payload_of(alloc, words, greatest)?;
    for length in 0..=greatest {
        head.length = length;
        let front = payload.as_slice().get(..length as usize).unwrap_or(&[]);
        try_length(alloc, &head, front)?;
    }
    write!(answer, "0..={greatest}")?;
    Ok(())
}

/// A frame of zeros, and the fault for which it isn't written.
pub fn refused(alloc: Global, words: &[&str], answer: &mut String) -> Result<()> {
    let head = head_of(words)?;
    let zeros = vec![in alloc; 0u8; head.length as usize]?;
    match write_behind(alloc, &head, zeros.as_slice(), &[])? {
        Some(fault) => write!(answer, "{fault:?}")?,
        None => answer.push_str("written")?,
    }
    Ok(())
}
