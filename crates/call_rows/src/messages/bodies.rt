//! Rows of `lpm`: the bytes of a call, and the messages that they spell however they are cut.

use super::rows::Subject;
use super::words::{all_bytes, joined_bytes, push_bytes};
use anyhow::{Result, bail, ensure};
use bytes::Bytes;
use lpm::{LpmFault, Split, Splitter, is_frame, write_message};
use std::alloc::Global;

/// How the pieces are handed over.
#[derive(Clone, Copy, Debug, PartialEq, Eq)]
enum Push {
    Copied,
    Shared,
    /// One so and the next so.
    Mixed,
}

const PUSHES: [Push; 3] = [Push::Copied, Push::Shared, Push::Mixed];

/// The lengths of the pieces, each of which a body is cut into.
const CUTS: [usize; 7] = [1, 2, 3, 4, 5, 6, 100];

fn splitter_of(alloc: Global, bytes: &[u8], cut: usize, push: Push) -> Result<Splitter> {
    let mut splitter = Splitter::new(alloc);
    let mut shares = push == Push::Shared;
    for piece in bytes.chunks(cut.max(1)) {
        if shares {
            splitter.push_shared(Bytes::copy_from_slice(alloc, piece)?)?;
        } else {
            splitter.push(piece)?;
        }
        if push == Push::Mixed {
            shares = !shares;
        }
    }
    Ok(splitter)
}

/// The messages that are whole by now, and why none follows them.
fn drain(alloc: Global, splitter: &mut Splitter) -> Result<(Vec<Bytes>, Option<LpmFault>)> {
    let mut messages = Vec::new(alloc);
    for _ in 0..u64::MAX {
        match splitter.next() {
            Split::Message(message) => messages.push(message)?,
            Split::More => return Ok((messages, None)),
            Split::Fault(LpmFault::OutOfMemory) => bail!("out of memory"),
            Split::Fault(fault) => return Ok((messages, Some(fault))),
        }
    }
    Ok((messages, None))
}

/// Whether the messages with their prefixes, joined, are what the bytes begin with.
fn are_spelled(alloc: Global, messages: &[Bytes], bytes: &[u8]) -> Result<bool> {
    let mut out = Vec::new(alloc);
    for message in messages {
        write_message(message.as_slice(), &mut out)?;
    }
    Ok(bytes.starts_with(out.as_slice()))
}

/// How bytes end after their whole messages.
fn end_text(alloc: Global, fault: Option<LpmFault>, end: Result<(), LpmFault>) -> Result<String> {
    Ok(match (fault, end) {
        (None, Ok(())) => String::from_str(alloc, "end")?,
        (None, Err(fault)) | (Some(fault), Ok(())) => format!(in alloc; "{fault:?}")?,
        (Some(fault), Err(end)) => format!(in alloc; "{fault:?} and {end:?}")?,
    })
}

/// The messages of a body and how it ends, for one way of handing it over. The end is judged alike
/// before and after the messages are answered, and the answer after them comes again.
fn body_text(alloc: Global, bytes: &[u8], cut: usize, push: Push) -> Result<String> {
    let mut splitter = splitter_of(alloc, bytes, cut, push)?;
    let end = splitter.end();
    let (messages, fault) = drain(alloc, &mut splitter)?;
    ensure!(splitter.end() == end, "the end is judged anew");
    let (more, again) = drain(alloc, &mut splitter)?;
    ensure!(more.is_empty() && again == fault, "not answered again");
    ensure!(
        are_spelled(alloc, messages.as_slice(), bytes)?,
        "the messages are spelled otherwise"
    );
    let mut text = String::new(alloc);
    for message in &messages {
        push_bytes(&mut text, message.as_slice())?;
        text.push_str("; ")?;
    }
    text.push_str(end_text(alloc, fault, end)?.as_str())?;
    Ok(text)
}

/// The bytes of a call.
#[derive(Drop)]
pub struct Bodies;

impl Subject for Bodies {
    fn answer(&self, alloc: Global, given: &str) -> Result<String> {
        let bytes = joined_bytes(alloc, given)?;
        let bytes = bytes.as_slice();
        let text = body_text(alloc, bytes, 1, Push::Copied)?;
        for cut in CUTS {
            for push in PUSHES {
                let other = body_text(alloc, bytes, cut, push)?;
                ensure!(
                    other.as_str() == text.as_str(),
                    "by {cut} {push:?}: {other}"
                );
            }
        }
        Ok(text)
    }
}

/// How many messages are whole with this piece.
fn more_messages(alloc: Global, splitter: &mut Splitter, piece: &[u8]) -> Result<usize> {
    splitter.push(piece)?;
    let (messages, _fault) = drain(alloc, splitter)?;
    Ok(messages.len())
}

/// The pieces of a body: how many messages each makes whole.
#[derive(Drop)]
pub struct Pieces;

impl Subject for Pieces {
    fn answer(&self, alloc: Global, given: &str) -> Result<String> {
        let pieces = all_bytes(alloc, given)?;
        let mut splitter = Splitter::new(alloc);
        let mut text = String::new(alloc);
        for piece in &pieces {
            let count = more_messages(alloc, &mut splitter, piece.as_slice())?;
            write!(text, "{count} ")?;
        }
        Ok(text)
    }
}

/// Bytes: whether they are one message with its prefix.
#[derive(Drop)]
pub struct Frames;

impl Subject for Frames {
    fn answer(&self, alloc: Global, given: &str) -> Result<String> {
        let bytes = joined_bytes(alloc, given)?;
        let answer = if is_frame(bytes.as_slice()) {
            "one message"
        } else {
            "no message"
        };
        Ok(String::from_str(alloc, answer)?)
    }
}
