//! What a file has of a connection: a capture, hexadecimal digits, or the bytes that one side sent.

ghost use Rattle.std.specs.Prelude.{◌≡◌};
ghost use Rattle.trace.specs.declared.input.InputFault.TheVariants.{OutOfMemory};

use crate::sides::Sides;
use bytes::Bytes;
use capture::{CaptureFault, Packet, Side, Time, read, side_of};
use hex::FromHexError;
use std::alloc::{AllocError, AllocFailed, Global};
use std::str;
use thiserror::Error;

/// The beginning of a client's bytes (RFC 9113, section 3.4).
const PREFACE: &[u8] = b"PRI * HTTP/2.0\r\n\r\nSM\r\n\r\n";

/// The beginnings of files of packets: one that `capture` reads, one with the other order of bytes,
/// those in nanoseconds, and pcapng's.
const PCAP: &[u8] = b"\xd4\xc3\xb2\xa1";

const PCAP_SWAPPED: &[u8] = b"\xa1\xb2\xc3\xd4";

const PCAP_NANOS: &[u8] = b"\x4d\x3c\xb2\xa1";

const PCAPNG: &[u8] = b"\x0a\x0d\x0d\x0a";

const SECOND: u64 = 1_000_000;

/// The flags of a segment that take a number each.
const SYN: u8 = 0x02;

const FIN: u8 = 0x01;

/// What a side of a connection sends at a time.
#[derive(Debug, Drop, PartialEq, Eq)]
pub struct SentBytes {
    /// How many microseconds the connection has gone on.
    pub time: u64,
    pub side: Side,
    pub bytes: Bytes,
}

/// Why a file has no connection that can be shown.
#[derive(Clone, Copy, Debug, PartialEq, Eq, Error)]
pub enum InputFault {
    #[error("{0}")]
    Capture(CaptureFault),
    #[error("packet {0} is of another connection than the first one")]
    OtherConnection(usize),
    #[error("packet {0} doesn't go on where its side's last one ended")]
    Gap(usize),
    #[error("neither a capture, nor frames, nor pairs of hexadecimal digits")]
    NotHex,
    #[error("line {0} isn't `client` or `server`, a time in microseconds before it or not, and pairs of hexadecimal digits")]
    Line(usize),
    #[error("out of memory")]
    OutOfMemory,
}

impl From<AllocError> for InputFault {
    ghost from_gives = { λ _ fault. fault ≡ OutOfMemory };

    fn from(_: AllocError) -> InputFault {
        InputFault::OutOfMemory
    }
}

impl<T: Drop> From<AllocFailed<T>> for InputFault {
    ghost from_gives = { λ _ fault. fault ≡ OutOfMemory };

    fn from(_e: AllocFailed<T>) -> InputFault {
        InputFault::OutOfMemory
    }
}

/// What the sides of a connection sent, in order, by a file of one of these forms:
///
/// - a capture, as the crate `capture` reads it, of one connection: its client sent the first
///   packet;
/// - lines `client DIGITS` and `server DIGITS`, with a time in microseconds before the side or not;
/// - hexadecimal digits alone, or the bytes themselves, of one side: of the client if they begin
///   with its preface.
pub fn sent_of(alloc: Global, file: &[u8]) -> Result<Vec<SentBytes>, InputFault> {
    if is_capture(file) {
        return match read(alloc, file) {
            Ok(packets) => of_packets(alloc, packets),
            Err(CaptureFault::OutOfMemory) => Err(InputFault::OutOfMemory),
            Err(fault) => Err(InputFault::Capture(fault)),
        };
    }
    match text_of(file) {
        Some(text) if has_sides(text) => of_lines(alloc, text),
        Some(text) => of_digits(alloc, text),
        None => of_side(alloc, file),
    }
}

fn is_capture(file: &[u8]) -> bool {
    file.starts_with(PCAP)
        || file.starts_with(PCAP_SWAPPED)
        || file.starts_with(PCAP_NANOS)
        || file.starts_with(PCAPNG)
}

/// The file as a text, if it is one. Frames aren't: their heads have bytes that no text has.
fn text_of(file: &[u8]) -> Option<&str> {
    if file.starts_with(PREFACE) || !file.iter().all(|byte| is_printed(*byte)) {
        return None;
    }
    str::from_utf8(file).ok()
}

fn is_printed(byte: u8) -> bool {
    matches!(byte, b'\t' | b'\n' | b'\r' | b' '..=b'~')
}

// ---- one side

/// The bytes of one side.
fn of_side(alloc: Global, bytes: &[u8]) -> Result<Vec<SentBytes>, InputFault> {
    let side = if bytes.starts_with(PREFACE) {
        Side::Client
    } else {
        Side::Server
    };
    let mut sent = Vec::new(alloc);
    sent.push(SentBytes {
        time: 0,
        side,
        bytes: Bytes::copy_from_slice(alloc, bytes)?,
    })?;
    Ok(sent)
}

fn of_digits(alloc: Global, text: &str) -> Result<Vec<SentBytes>, InputFault> {
    let mut digits = Vec::new(alloc);
    for word in text.split_whitespace() {
        digits.extend_from_slice(word.as_bytes())?;
    }
    match bytes_of(alloc, digits.as_slice())? {
        Some(bytes) => of_side(alloc, bytes.as_slice()),
        None => Err(InputFault::NotHex),
    }
}

/// The bytes that pairs of hexadecimal digits spell, if they are such.
fn bytes_of(alloc: Global, digits: &[u8]) -> Result<Option<Vec<u8>>, AllocError> {
    match hex::decode(alloc, digits) {
        Ok(bytes) => Ok(Some(bytes)),
        Err(FromHexError::OutOfMemory) => Err(AllocError),
        Err(_) => Ok(None),
    }
}

// ---- lines of both sides

fn has_sides(text: &str) -> bool {
    text.contains("client") || text.contains("server")
}

fn of_lines(alloc: Global, text: &str) -> Result<Vec<SentBytes>, InputFault> {
    let mut sent = Vec::new(alloc);
    let mut time = 0;
    for (place, line) in text.lines().enumerate() {
        if line.trim().is_empty() {
            continue;
        }
        let Some(piece) = of_line(alloc, time, line)? else {
            return Err(InputFault::Line(place.saturating_add(1)));
        };
        time = piece.time;
        sent.push(piece)?;
    }
    Ok(sent)
}

/// What a line says, at this time if it has none.
fn of_line(alloc: Global, time: u64, line: &str) -> Result<Option<SentBytes>, AllocError> {
    let (mut told, mut side) = (None, None);
    let mut digits = Vec::new(alloc);
    for word in line.split_whitespace() {
        if side.is_some() {
            digits.extend_from_slice(word.as_bytes())?;
            continue;
        }
        side = side_named(word);
        if side.is_none() {
            let Some(number) = time_named(word, told) else {
                return Ok(None);
            };
            told = Some(number);
        }
    }
    let Some(side) = side else {
        return Ok(None);
    };
    let Some(bytes) = bytes_of(alloc, digits.as_slice())? else {
        return Ok(None);
    };
    Ok(Some(SentBytes {
        time: told.unwrap_or(time),
        side,
        bytes: Bytes::copy_from_slice(alloc, bytes.as_slice())?,
    }))
}

/// The time that a word is, if none came before it.
fn time_named(word: &str, before: Option<u64>) -> Option<u64> {
    match before {
        Some(_) => None,
        None => word.parse::<u64>().ok(),
    }
}

fn side_named(word: &str) -> Option<Side> {
    match word {
        "client" => Some(Side::Client),
        "server" => Some(Side::Server),
        _ => None,
    }
}

// ---- captures

/// What the segments of a connection carry.
fn of_packets(alloc: Global, packets: Vec<Packet>) -> Result<Vec<SentBytes>, InputFault> {
    let mut sent = Vec::new(alloc);
    let Some(first) = packets.first() else {
        return Ok(sent);
    };
    let (path, began) = (first.head.path, micros_of(first.time));
    let mut numbers = Sides {
        client: None,
        server: None,
    };
    for (place, packet) in packets.into_iter().enumerate() {
        let number = place.saturating_add(1);
        let Some(side) = side_of(&path, &packet) else {
            return Err(InputFault::OtherConnection(number));
        };
        let wanted = numbers.of(side).unwrap_or(packet.head.sequence);
        if wanted != packet.head.sequence {
            return Err(InputFault::Gap(number));
        }
        numbers.set(side, Some(number_after(&packet)));
        let Packet { time, payload, .. } = packet;
        if !payload.is_empty() {
            sent.push(SentBytes {
                time: micros_of(time).saturating_sub(began),
                side,
                bytes: payload,
            })?;
        }
    }
    Ok(sent)
}

/// The number that the side sends next after a segment.
fn number_after(packet: &Packet) -> u32 {
    let (sequence, flags) = (packet.head.sequence, packet.head.flags.bits);
    let length = u32::try_from(packet.payload.len()).unwrap_or(0);
    let of_syn = u32::from(flags & SYN != 0);
    let of_fin = u32::from(flags & FIN != 0);
    sequence
        .wrapping_add(length)
        .wrapping_add(of_syn)
        .wrapping_add(of_fin)
}

fn micros_of(time: Time) -> u64 {
    u64::from(time.seconds) * SECOND + u64::from(time.micros)
}
