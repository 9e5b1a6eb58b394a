//! `interop parts`: a connection served over memory, from text to the frames that were written.
//!
//! The whole report is made before any of it is written, so out of memory prints nothing.

use crate::body::RunFault;
use crate::memory::{Memory, MemoryInput, MemoryOutput};
use crate::streams::Streams;
use crate::text::bytes_of;
use capture::Side;
use connection::{Ending, Gate, ServedConn, serve_undrained};
use device::{ConnRead, ConnWrite, StdDevice, read_all, write_all};
use h2frame::FrameReader;
use handlers::Methods;
use std::alloc::{AllocError, Global};
use std::str;
use std::sync::{Arc, Wait};
use std::thread::Threads;
use std::time::Clock;
use trace::{InputFault, SentBytes, sent_of};

/// Reads a connection's bytes as hexadecimal text, or as what `serve --record` writes, to the end
/// of the input, and serves them. Then it writes what the server wrote, stream by stream, and how
/// the connection ended. Its calls go on when the gate lets them.
pub fn run_parts<R, G, I, O>(
    rt: R,
    alloc: Global,
    methods: Arc<Methods>,
    gate: Arc<G>,
    input: &mut I,
    output: &mut O,
) -> Result<(), RunFault>
where
    G: Gate + Send + Sync + Drop + 'static,
    I: ConnRead,
    O: ConnWrite,
    R: Threads + Wait + Clock + Copy + Send + Sync + Drop + 'static,
{
    let text = read_all(alloc, input)?;
    let bytes = client_bytes(alloc, text)?;
    let memory = Memory::new(alloc)?;
    let client = MemoryInput::new(rt, alloc, bytes, Arc::try_clone(&memory)?);
    let mut input = StdDevice::new(client);
    let server = StdDevice::new(MemoryOutput {
        rt,
        memory: Arc::try_clone(&memory)?,
    });
    let ServedConn { report: served, .. } = serve_undrained(
        rt, alloc, &mut input, server, methods, gate,
    );
    let written = memory.written(&rt, alloc)?;
    let report = report(alloc, written.as_slice(), served.ending)?;
    write_all(output, report.as_bytes())?;
    Ok(())
}

/// The bytes that a client sent: hexadecimal text has them alone; where lines name their sides,
/// those of the client do.
fn client_bytes(alloc: Global, text: Vec<u8>) -> Result<Vec<u8>, RunFault> {
    if !names_sides(text.as_slice()) {
        return Ok(bytes_of(alloc, text)?);
    }
    match sent_of(alloc, text.as_slice()) {
        Ok(pieces) => Ok(joined(alloc, pieces.as_slice())?),
        Err(InputFault::OutOfMemory) => Err(RunFault::OutOfMemory),
        Err(_) => Err(RunFault::NotHex),
    }
}

/// Whether a text names a side of a connection, which digits alone don't.
fn names_sides(text: &[u8]) -> bool {
    match str::from_utf8(text) {
        Ok(text) => text.contains("client") || text.contains("server"),
        Err(_) => false,
    }
}

/// What the client sent, one after another.
fn joined(alloc: Global, pieces: &[SentBytes]) -> Result<Vec<u8>, AllocError> {
    let mut bytes = Vec::new(alloc);
    for piece in pieces {
        if piece.side == Side::Client {
            bytes.extend_from_slice(piece.bytes.as_slice())?;
        }
    }
    Ok(bytes)
}

/// The report on a connection on which this was written.
fn report(alloc: Global, written: &[u8], ending: Ending) -> Result<String, RunFault> {
    let mut reader = FrameReader::new(alloc);
    if reader.feed(written).is_err() {
        return Err(RunFault::OutOfMemory);
    }
    let mut streams = Streams::new(alloc);
    for _ in 0..u64::MAX {
        match reader.next() {
            Some(Ok(frame)) => streams.tell(&frame)?,
            Some(Err(_)) => return Err(RunFault::OutOfMemory),
            None => break,
        }
    }
    let mut text = streams.into_text()?;
    writeln!(text, "ending {}", ending.code())?;
    Ok(text)
}
