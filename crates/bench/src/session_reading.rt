//! Reading connections: one with much DATA, and many with small calls.

use crate::sizes::{number, number16};
use anyhow::Result;
use session::{InCore, InEvent};
use std::alloc::{AllocError, Global};
use std::rt::Clock;
use std::time::Instant;

/// The bytes of each piece, as a socket's buffer gives them.
const PIECE: usize = 16_384;

const PREFACE: &[u8] = b"PRI * HTTP/2.0\r\n\r\nSM\r\n\r\n";

/// SETTINGS without a parameter.
const SETTINGS: [u8; 9] = [0, 0, 0, 4, 0, 0, 0, 0, 0];

/// The header block of EmptyCall: 71 bytes.
const CALL: &[u8] =
    b"\x83\x86\x04\x23/grpc.testing.TestService/EmptyCall\x00\x02te\x08trailers\x0f\x10\x10application/grpc";

/// The heads of frames, without their streams: HEADERS with that block, DATA of an empty message
/// with END_STREAM, and DATA of the greatest payload.
const HEADERS: [u8; 5] = [0, 0, 71, 1, 4];

const LAST_DATA: [u8; 5] = [0, 0, 5, 0, 1];

const LONG_DATA: [u8; 5] = [0, 0x40, 0, 0, 0];

/// How many frames of long DATA are made; they are fed again and again.
const ROUND: usize = 64;

/// What the events were: how many, and the bytes of their data.
#[derive(Clone, Copy)]
struct Count {
    events: u64,
    contents: u64,
}

const NOTHING: Count = Count {
    events: 0,
    contents: 0,
};

/// Feeds bytes in pieces, and counts their events.
fn feed(core: &mut InCore, bytes: &[u8], count: &mut Count) -> Result<(), AllocError> {
    for piece in bytes.chunks(PIECE) {
        for event in core.feed(piece)?.as_slice() {
            count.events = count.events.wrapping_add(1);
            if let InEvent::Data(_, content, _) = event {
                count.contents = count.contents.wrapping_add(content.len() as u64);
            }
        }
    }
    Ok(())
}

fn greeting(alloc: Global) -> Result<Vec<u8>, AllocError> {
    let mut bytes = Vec::from_slice(alloc, PREFACE)?;
    bytes.extend_from_slice(&SETTINGS)?;
    Ok(bytes)
}

/// HEADERS that open a stream for EmptyCall.
fn add_headers(bytes: &mut Vec<u8>, stream: u32) -> Result<(), AllocError> {
    bytes.extend_from_slice(&HEADERS)?;
    bytes.extend_from_slice(&stream.to_be_bytes())?;
    bytes.extend_from_slice(CALL)
}

/// A number of frames with 16,384 bytes of DATA on stream 1.
fn long_data(alloc: Global, frames: usize) -> Result<Vec<u8>, AllocError> {
    let payload = [7u8; 16_384];
    let mut bytes = Vec::new(alloc);
    for _ in 0..frames {
        bytes.extend_from_slice(&LONG_DATA)?;
        bytes.extend_from_slice(&1u32.to_be_bytes())?;
        bytes.extend_from_slice(&payload)?;
    }
    Ok(bytes)
}

/// A connection with `calls` calls of an empty message, one after another.
fn small_calls(alloc: Global, calls: u16) -> Result<Vec<u8>, AllocError> {
    let mut bytes = greeting(alloc)?;
    for index in 0..calls {
        let stream = 2 * u32::from(index) + 1;
        add_headers(&mut bytes, stream)?;
        bytes.extend_from_slice(&LAST_DATA)?;
        bytes.extend_from_slice(&stream.to_be_bytes())?;
        bytes.extend_from_slice(&[0u8; 5])?;
    }
    Ok(bytes)
}

/// A connection up to the HEADERS of stream 1.
fn opening(alloc: Global) -> Result<Vec<u8>, AllocError> {
    let mut bytes = greeting(alloc)?;
    add_headers(&mut bytes, 1)?;
    Ok(bytes)
}

/// Reads a connection with one stream, on which frames of DATA come so often.
fn read_data(alloc: Global, frames: &[u8], rounds: usize) -> Result<Count, AllocError> {
    let opening = opening(alloc)?;
    let mut core = InCore::new(alloc);
    feed_often(&mut core, opening.as_slice(), frames, rounds)
}

/// Feeds an opening, and frames so often.
fn feed_often(
    core: &mut InCore,
    opening: &[u8],
    frames: &[u8],
    rounds: usize,
) -> Result<Count, AllocError> {
    let mut count = NOTHING;
    feed(core, opening, &mut count)?;
    for _ in 0..rounds {
        feed(core, frames, &mut count)?;
    }
    Ok(count)
}

/// Reads a connection so often, each time from its beginning.
fn read_calls(alloc: Global, connection: &[u8], times: usize) -> Result<Count, AllocError> {
    let mut count = NOTHING;
    for _ in 0..times {
        let mut core = InCore::new(alloc);
        feed(&mut core, connection, &mut count)?;
    }
    Ok(count)
}

/// `session-data MEBIBYTES`: prints the events, the bytes of data and the nanoseconds of MEBIBYTES
/// of DATA.
pub fn data(rt: &(impl Clock + AllocGlobal + Print), sizes: &[String]) -> Result<()> {
    let alloc = rt.alloc();
    let mebibytes = number(sizes, 0)?;
    let frames = long_data(alloc, ROUND)?;
    let start = Instant::now(rt)?;
    let count = read_data(alloc, &frames, mebibytes)?;
    let nanos = start.elapsed(rt)?.as_nanos();
    let events = count.events;
    let contents = count.contents;
    println!(rt; "{events} {contents} {nanos}")?;
    Ok(())
}

/// `session-calls TIMES CALLS`: prints the events, the bytes of data and the nanoseconds of TIMES
/// connections with CALLS calls each.
pub fn calls(rt: &(impl Clock + AllocGlobal + Print), sizes: &[String]) -> Result<()> {
    let alloc = rt.alloc();
    let times = number(sizes, 0)?;
    let connection = small_calls(alloc, number16(sizes, 1)?)?;
    let start = Instant::now(rt)?;
    let count = read_calls(alloc, &connection, times)?;
    let nanos = start.elapsed(rt)?.as_nanos();
    let events = count.events;
    let contents = count.contents;
    println!(rt; "{events} {contents} {nanos}")?;
    Ok(())
}

fn small_data(alloc: Global) -> Result<Count, AllocError> {
    read_data(alloc, &long_data(alloc, 2)?, 3)
}

fn ten_calls(alloc: Global) -> Result<Count, AllocError> {
    read_calls(alloc, &small_calls(alloc, 10)?, 2)
}

pub fn small(rt: &(impl AllocGlobal + Print)) -> Result<()> {
    let Count { events, contents } = small_data(rt.alloc())?;
    println!(rt; "session-data: {events} events, {contents} bytes of data")?;
    let Count { events, contents } = ten_calls(rt.alloc())?;
    println!(rt; "session-calls: {events} events, {contents} bytes of data")?;
    Ok(())
}
