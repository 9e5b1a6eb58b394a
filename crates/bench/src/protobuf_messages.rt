//! Reading and writing messages: one large body, and a list of many small messages.

use crate::sizes::number;
use anyhow::Result;
use std::alloc::{AllocError, Global};
use std::rt::Clock;
use std::time::Instant;
use testproto::{Message, Payload, StreamingOutputCallRequest};

/// A payload whose body, of this many zeros, has a length of four bytes.
fn body(alloc: Global, len: usize) -> Result<Vec<u8>, AllocError> {
    let mut bytes = Vec::new(alloc);
    bytes.push(0x12)?;
    bytes.push((len % 128) as u8 | 0x80)?;
    bytes.push((len / 128 % 128) as u8 | 0x80)?;
    bytes.push((len / 16384 % 128) as u8 | 0x80)?;
    bytes.push((len / 2097152 % 128) as u8)?;
    for _ in 0..len {
        bytes.push(0)?;
    }
    Ok(bytes)
}

/// A request of this many responses, of eight bytes each.
fn parameters(alloc: Global, count: usize) -> Result<Vec<u8>, AllocError> {
    let mut bytes = Vec::new(alloc);
    for _ in 0..count {
        bytes.extend_from_slice(b"\x12\x06\x08\x01\x10\x02\x1a\x00")?;
    }
    Ok(bytes)
}

/// Prints how many bytes are written of the message that these are, and the nanoseconds of reading
/// and of writing.
fn timed<'a, M: Message<'a>, R: Clock + AllocGlobal + Print>(
    rt: &R,
    bytes: &'a [u8],
) -> Result<()> {
    let start = Instant::now(rt)?;
    let message = M::decode(rt.alloc(), bytes)?;
    let reading = start.elapsed(rt)?.as_nanos();
    let start = Instant::now(rt)?;
    let written = message.encode(rt.alloc())?;
    let writing = start.elapsed(rt)?.as_nanos();
    println!(rt; "{} {reading} {writing}", written.len())?;
    Ok(())
}

/// `testproto-body LENGTH`: one body of this many bytes.
pub fn one_body<R: Clock + AllocGlobal + Print>(rt: &R, sizes: &[String]) -> Result<()> {
    let bytes = body(rt.alloc(), number(sizes, 0)?)?;
    timed::<Payload, R>(rt, &bytes)
}

/// `testproto-many COUNT`: this many messages in one.
pub fn many<R: Clock + AllocGlobal + Print>(rt: &R, sizes: &[String]) -> Result<()> {
    let bytes = parameters(rt.alloc(), number(sizes, 0)?)?;
    timed::<StreamingOutputCallRequest, R>(rt, &bytes)
}

/// How many bytes are written of the message that these are.
fn written<'a, M: Message<'a>>(alloc: Global, bytes: &'a [u8]) -> Result<usize> {
    let message = M::decode(alloc, bytes)?;
    Ok(message.encode(alloc)?.len())
}

fn small_body(alloc: Global) -> Result<usize> {
    written::<Payload>(alloc, &body(alloc, 300)?)
}

fn small_request(alloc: Global) -> Result<usize> {
    written::<StreamingOutputCallRequest>(alloc, &parameters(alloc, 100)?)
}

pub fn small(rt: &(impl AllocGlobal + Print)) -> Result<()> {
    let body = small_body(rt.alloc())?;
    println!(rt; "testproto-body: {body} bytes")?;
    let request = small_request(rt.alloc())?;
    println!(rt; "testproto-many: {request} bytes")?;
    Ok(())
}
