//! The frames of bytes: `frames.rows`, and `faults.rows` for when a fault stands.

use anyhow::{Result, ensure};
use h2frame::{Frame, FrameFault, FrameReader};
use rows::bytes_of;
use std::alloc::Global;

/// Of bytes that have no frame and no fault.
const NOTHING: &str = "nothing";

/// Adds what a reader answers: a frame's type, flags, stream, payload's length and content, or a
/// fault.
fn push_answer(alloc: Global, text: &mut String, answer: &Result<Frame, FrameFault>) -> Result<()> {
    if !text.is_empty() {
        text.push_str("; ")?;
    }
    match answer {
        Ok(frame) => {
            let head = frame.head;
            let (kind, flags, stream, length) = (
                head.kind,
                head.flags.bits,
                head.stream,
                head.length,
            );
            write!(text, "{kind:?} {flags:02x} {stream} {length} ")?;
            if frame.content.is_empty() {
                text.push('-')?;
            }
            text.push_str(hex::encode(alloc, frame.content.as_slice())?.as_str())?;
        }
        Err(fault) => write!(text, "{fault:?}")?,
    }
    Ok(())
}

/// Feeds a piece, and adds what is answered to it, up to the last fault, after which a reader reads
/// no more.
fn take(
    alloc: Global,
    reader: &mut FrameReader,
    piece: &[u8],
    text: &mut String,
) -> Result<Option<FrameFault>> {
    reader.feed(piece)?;
    for _ in 0..u64::MAX {
        let Some(answer) = reader.next() else {
            break;
        };
        push_answer(alloc, text, &answer)?;
        match answer {
            Ok(_) => {}
            // This one uses up its frame.
            Err(FrameFault::ZeroIncrement(stream)) if stream != 0 => {}
            Err(fault) => return Ok(Some(fault)),
        }
    }
    Ok(None)
}

/// Takes the next piece. After the last fault none is taken, and that fault is answered again.
fn take_next(
    alloc: Global,
    reader: &mut FrameReader,
    last: Option<FrameFault>,
    piece: &[u8],
    text: &mut String,
) -> Result<Option<FrameFault>> {
    let Some(fault) = last else {
        return take(alloc, reader, piece, text);
    };
    ensure!(
        reader.feed(piece) == Err(fault),
        "a piece behind {fault:?} isn't refused"
    );
    let is_repeated = match reader.next() {
        Some(Err(other)) => other == fault,
        _ => false,
    };
    ensure!(is_repeated, "{fault:?} isn't repeated");
    Ok(last)
}

/// What is answered to bytes that come in two parts, the first of them in pieces of a size, and
/// then to no bytes.
fn answers(alloc: Global, bytes: &[u8], cut: usize, size: usize) -> Result<String> {
    let mut reader = FrameReader::new(alloc);
    let mut text = String::new(alloc);
    let (first, second) = bytes.split_at(cut.min(bytes.len()));
    let mut last = None;
    for piece in first.chunks(size.max(1)) {
        last = take_next(alloc, &mut reader, last, piece, &mut text)?;
    }
    last = take_next(alloc, &mut reader, last, second, &mut text)?;
    let _last = take_next(alloc, &mut reader, last, &[], &mut text)?;
    if text.is_empty() {
        text.push_str(NOTHING)?;
    }
    Ok(text)
}

/// Whether that is answered to the bytes in such parts and pieces.
fn is_answered(alloc: Global, bytes: &[u8], cut: usize, size: usize, wanted: &str) -> Result<bool> {
    Ok(answers(alloc, bytes, cut, size)?.as_str() == wanted)
}

/// Bytes, and their frames and faults, which have to be equal for every two parts and for pieces of
/// every size.
pub fn whole(alloc: Global, given: &str, answer: &mut String) -> Result<()> {
    let bytes = bytes_of(alloc, given)?;
    let (bytes, len) = (bytes.as_slice(), bytes.len());
    answer.push_str(answers(alloc, bytes, len, len)?.as_str())?;
    for size in 1..len {
        let is_same = is_answered(alloc, bytes, size, len, answer.as_str())?
            && is_answered(alloc, bytes, len, size, answer.as_str())?;
        ensure!(
            is_same,
            "another answer in two parts at {size}, or in pieces of that"
        );
    }
    Ok(())
}

/// Adds what is answered to these bytes, a byte at a time, if the answer doesn't end with it.
fn add_news(alloc: Global, bytes: &[u8], answer: &mut String) -> Result<()> {
    let len = bytes.len();
    let answered = answers(alloc, bytes, len, 1)?;
    let answered = answered.as_str();
    if answered == NOTHING || answer.as_str().ends_with(answered) {
        return Ok(());
    }
    let behind = if answer.is_empty() { "" } else { ", then " };
    write!(answer, "{behind}{len} {answered}")?;
    Ok(())
}

/// Bytes, and how many of them must be there until a fault is answered, and which. They come a byte
/// at a time.
pub fn first_bytes(alloc: Global, given: &str, answer: &mut String) -> Result<()> {
    let bytes = bytes_of(alloc, given)?;
    for len in 0..=bytes.len() {
        add_news(alloc, bytes.as_slice().get(..len).unwrap_or(&[]), answer)?;
    }
    Ok(())
}
