//! One large reply and one large request of a method.

use crate::sizes::{number, number32};
use anyhow::Result;
use handlers::{Method, Reply, StreamingInputCall};
use lpm::write_message;
use std::alloc::{AllocError, Global};
use std::rt::Clock;
use std::time::Instant;

/// The bytes of a reply's prefix: its flag and its length in four bytes.
const PREFIX: usize = 5;

/// The frame of a reply, made of its bytes: they are written, and copied after the prefix.
fn copied(alloc: Global, reply: &Reply) -> Result<Vec<u8>> {
    let message = reply.bytes(alloc)?;
    let mut framed = Vec::new(alloc);
    write_message(&message, &mut framed)?;
    Ok(framed)
}

/// The frame of a reply, made in place: the prefix, and then the reply's bytes.
fn in_place(alloc: Global, reply: &Reply) -> Result<Vec<u8>, AllocError> {
    let len = reply.len();
    let mut framed = Vec::with_capacity(alloc, len.saturating_add(PREFIX))?;
    framed.push(0)?;
    framed.push((len >> 24 & 0xff) as u8)?;
    framed.push((len >> 16 & 0xff) as u8)?;
    framed.push((len >> 8 & 0xff) as u8)?;
    framed.push((len & 0xff) as u8)?;
    reply.write(&mut framed)?;
    Ok(framed)
}

/// `handlers-reply LENGTH`: the frame of a reply of LENGTH zeros, copied and in place.
pub fn reply<R: Clock + AllocGlobal + Print>(rt: &R, sizes: &[String]) -> Result<()> {
    let reply = Reply::Zeros(number32(sizes, 0)?);
    let (first, copying) = copied_timed(rt, &reply)?;
    let (second, filling) = in_place_timed(rt, &reply)?;
    println!(rt; "{first} {second} {copying} {filling}")?;
    Ok(())
}

/// How many bytes the copied frame of a reply has, and the nanoseconds.
fn copied_timed<R: Clock + AllocGlobal>(rt: &R, reply: &Reply) -> Result<(usize, u128)> {
    let start = Instant::now(rt)?;
    let framed = copied(rt.alloc(), reply)?;
    Ok((framed.len(), start.elapsed(rt)?.as_nanos()))
}

/// The nanoseconds of the frame that is made in place.
fn in_place_timed<R: Clock + AllocGlobal>(rt: &R, reply: &Reply) -> Result<(usize, u128)> {
    let start = Instant::now(rt)?;
    let framed = in_place(rt.alloc(), reply)?;
    Ok((framed.len(), start.elapsed(rt)?.as_nanos()))
}

/// A request whose body, of `len` zeros, is the one field of its payload; both have a length of
/// four bytes.
fn request(alloc: Global, len: usize) -> Result<Vec<u8>, AllocError> {
    let mut bytes = Vec::with_capacity(alloc, len.saturating_add(10))?;
    push_tag(&mut bytes, 0x0a, len.saturating_add(5))?;
    push_tag(&mut bytes, 0x12, len)?;
    for _ in 0..len {
        bytes.push(0)?;
    }
    Ok(bytes)
}

/// A tag and a length of four bytes.
fn push_tag(bytes: &mut Vec<u8>, tag: u8, len: usize) -> Result<(), AllocError> {
    bytes.push(tag)?;
    bytes.push((len % 128) as u8 | 0x80)?;
    bytes.push((len / 128 % 128) as u8 | 0x80)?;
    bytes.push((len / 16384 % 128) as u8 | 0x80)?;
    bytes.push((len / 2097152 % 128) as u8)?;
    Ok(())
}

/// `handlers-request LENGTH`: StreamingInputCall takes a request whose body has LENGTH bytes.
pub fn one_request<R: Clock + AllocGlobal + Print>(rt: &R, sizes: &[String]) -> Result<()> {
    let bytes = request(rt.alloc(), number(sizes, 0)?)?;
    let (replies, taking) = taken_timed(rt, bytes.as_slice())?;
    println!(rt; "{} {replies} {taking}", bytes.len())?;
    Ok(())
}

/// 1 where a reply comes of a request and 0 where none does, and the nanoseconds.
fn taken_timed<R: Clock + AllocGlobal>(rt: &R, request: &[u8]) -> Result<(usize, u128)> {
    let mut state = StreamingInputCall.first();
    let start = Instant::now(rt)?;
    let step = StreamingInputCall.message(rt.alloc(), &mut state, request)?;
    let count = usize::from(!step.replies.is_empty());
    Ok((count, start.elapsed(rt)?.as_nanos()))
}

/// How many bytes the frame of a small reply has, copied and in place.
fn small_reply(alloc: Global) -> Result<(usize, usize)> {
    let reply = Reply::Zeros(300);
    let first = copied(alloc, &reply)?.len();
    Ok((first, in_place(alloc, &reply)?.len()))
}

/// How many bytes a small request has, which is taken.
fn small_request(alloc: Global) -> Result<usize> {
    let bytes = request(alloc, 300)?;
    let mut state = StreamingInputCall.first();
    StreamingInputCall.message(alloc, &mut state, &bytes)?;
    Ok(bytes.len())
}

pub fn small(rt: &(impl AllocGlobal + Print)) -> Result<()> {
    let (first, second) = small_reply(rt.alloc())?;
    println!(rt; "handlers-reply: {first} and {second} bytes")?;
    let request = small_request(rt.alloc())?;
    println!(rt; "handlers-request: {request} bytes")?;
    Ok(())
}
