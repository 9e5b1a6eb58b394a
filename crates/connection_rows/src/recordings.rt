//! The frames and the events of recorded connections, as `data/recordings/` has them from the
//! preface on. A frame has its type, flags, stream and payload's length, with the block of HEADERS
//! and the payload of frames other than HEADERS and DATA; an event has a line. Each connection is
//! read whole and in small pieces, with equal results.

use crate::reading::events::{push_bytes, push_event};
use crate::reading::feeding::events_in_pieces;
use anyhow::{Context, Result, ensure};
use h2frame::{Frame, FrameKind};
use session::InEvent;
use std::alloc::{AllocError, Global};
use std::fs;
use std::rt::Files;

mod frames;

/// The bytes of a connection before its frames (RFC 9113, section 3.4).
const PREFACE_LEN: usize = 24;

/// The sizes of the pieces that a connection is read in.
const SIZES: [usize; 5] = [1, 2, 9, 1000, 16_384];

const CONNECTIONS: [&str; 26] = [
    "c_core-cancel_after_begin",
    "c_core-cancel_after_first_response",
    "c_core-client_streaming",
    "c_core-empty_stream",
    "c_core-empty_unary",
    "c_core-half_duplex",
    "c_core-ping_pong",
    "c_core-server_streaming",
    "c_core-special_status_message",
    "c_core-status_code_and_message",
    "c_core-timeout_on_sleeping_server",
    "c_core-unimplemented_method",
    "c_core-unimplemented_service",
    "go-cancel_after_begin",
    "go-cancel_after_first_response",
    "go-client_streaming",
    "go-empty_stream",
    "go-empty_unary",
    "go-half_duplex",
    "go-ping_pong",
    "go-server_streaming",
    "go-special_status_message",
    "go-status_code_and_message",
    "go-timeout_on_sleeping_server",
    "go-unimplemented_method",
    "go-unimplemented_service",
];

fn name_of(kind: FrameKind) -> &'static str {
    match kind {
        FrameKind::Data => "DATA",
        FrameKind::Headers => "HEADERS",
        FrameKind::Priority => "PRIORITY",
        FrameKind::RstStream => "RSTSTREAM",
        FrameKind::Settings => "SETTINGS",
        FrameKind::PushPromise => "PUSHPROMISE",
        FrameKind::Ping => "PING",
        FrameKind::GoAway => "GOAWAY",
        FrameKind::WindowUpdate => "WINDOWUPDATE",
        FrameKind::Continuation => "CONTINUATION",
        FrameKind::Unknown(_) => "UNKNOWN",
    }
}

fn push_frame(text: &mut String, frame: &Frame) -> Result<(), AllocError> {
    let head = &frame.head;
    let name = name_of(head.kind);
    let flags = head.flags.bits;
    let stream = head.stream;
    let length = head.length;
    write!(
        text,
        "{name} flags={flags:02x} stream={stream} length={length}"
    )?;
    match head.kind {
        FrameKind::Data => {}
        FrameKind::Headers => {
            text.push_str("\n  block ")?;
            push_bytes(text, frame.content.as_slice())?;
        }
        _ => {
            text.push_str(" payload=")?;
            push_bytes(text, frame.content.as_slice())?;
        }
    }
    text.push('\n')
}

fn sum_of(bytes: &[u8]) -> u64 {
    bytes
        .iter()
        .fold(0_u64, |sum, byte| sum.wrapping_add(u64::from(*byte)))
}

/// An event on a line. Of DATA the number of its bytes, their sum, and what flow control counts.
fn push_line(text: &mut String, event: &InEvent) -> Result<(), AllocError> {
    text.push_str("event")?;
    match event {
        InEvent::Data(id, piece, counted) => {
            let len = piece.len();
            let sum = sum_of(piece.as_slice());
            write!(text, " Data({id}, {len} bytes of sum {sum}, {counted})")?;
        }
        other => push_event(text, other)?,
    }
    text.push('\n')
}

/// The lines of the frames that come in pieces of a size.
fn push_frames(alloc: Global, text: &mut String, bytes: &[u8], size: usize) -> Result<()> {
    let mut pieces = Vec::new(alloc);
    for piece in bytes.chunks(size.max(1)) {
        pieces.push(Vec::from_slice(alloc, piece)?)?;
    }
    for frame in frames::read(alloc, pieces.as_slice())?.as_slice() {
        push_frame(text, frame)?;
    }
    Ok(())
}

/// The lines of a connection's frames and events, where its bytes come in pieces of a size.
fn lines_of(alloc: Global, bytes: &[u8], size: usize) -> Result<String> {
    let mut text = String::new(alloc);
    let frames = bytes.get(PREFACE_LEN..).context("the preface is cut")?;
    push_frames(alloc, &mut text, frames, size)?;
    for event in events_in_pieces(alloc, bytes, size)?.as_slice() {
        push_line(&mut text, event)?;
    }
    Ok(text)
}

/// The bytes of a recorded connection.
fn bytes_of(rt: &(impl Files + AllocGlobal), name: &str) -> Result<Vec<u8>> {
    let path = format!(in rt.alloc(); "recordings/{name}.hex")?;
    let digits = fs::read_to_string(rt, path.as_str())?;
    hex::decode(rt.alloc(), digits.trim()).context("the file's hexadecimal digits")
}

/// The lines of a connection, which have to be equal for pieces of each size.
fn lines_in_any_pieces(alloc: Global, name: &str, bytes: &[u8]) -> Result<String> {
    let lines = lines_of(alloc, bytes, bytes.len())?;
    for size in SIZES {
        let text = lines_of(alloc, bytes, size)?;
        ensure!(text == lines, "{name} in pieces of {size}");
    }
    Ok(lines)
}

/// Prints the lines of each recorded connection.
pub fn print(rt: &(impl Files + Print + AllocGlobal)) -> Result<()> {
    for name in CONNECTIONS {
        let bytes = bytes_of(rt, name)?;
        let lines = lines_in_any_pieces(rt.alloc(), name, bytes.as_slice())?;
        print!(rt; "{name}\n{lines}")?;
    }
    Ok(())
}
