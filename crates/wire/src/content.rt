//! What frames carry, as the rows spell it.
//!
//! Words with blanks between them, each of which adds bytes. A N is an amount (`server_settings`):
//! a number, or one that is taken from what the server announced, as `frame+1`.
//!
//! - `0801`: these bytes, in hexadecimal; `00*N`: N times.
//! - `te=trailers`: a field of a header block, without indexing and with its name spelled out (RFC
//!   7541, section 6.2.2); `%0a` in it is that byte.
//! - `str:trailers`: a string of a header block, its length first (section 5.2).
//! - `call:EmptyCall`: the fields that open a call of this method of the test service.
//!   `path:EmptyCall`: its `:path` alone.
//! - `pad:N`: a field without indexing that is N bytes long in all, at least 300.
//! - `size:N`: a change of the table's size to N (RFC 7541, section 6.3).
//!
//! A word that begins with `!` is a fault: where the case is first tried without its fault
//! (`control`, in `step`) it is left out. A word that begins with `~` is only there, in place of a
//! fault. So `call:EmptyCall !X=a`, and `!te=gzip ~te=trailers`.

ghost use Rattle.std.specs.Prelude.{◌<◌, IfSome};

use crate::fault::WireFault;
use crate::server_settings::ServerSettings;
use std::alloc::Global;

/// For what the lines of a case are read.
#[derive(Clone, Copy)]
pub struct Reading {
    pub announced: ServerSettings,
    /// Whether without the fault.
    pub is_control: bool,
}

/// SETTINGS of a server that announced each, by which rows can be read before there is a server.
pub const SAMPLE: ServerSettings = ServerSettings {
    table: 4_096,
    streams: Some(100),
    window: 65_535,
    frame: 16_384,
    list: Some(65_536),
};

impl Reading {
    /// A line, or a word, as it is in this try, without its mark; `None` if this try doesn't have
    /// it.
    pub fn unmarked<'a>(&self, text: &'a str) -> Option<&'a str> {
        if let Some(fault) = text.strip_prefix('!') {
            return (!self.is_control).then_some(fault);
        }
        match text.strip_prefix('~') {
            Some(sound) => self.is_control.then_some(sound),
            None => Some(text),
        }
    }
}

/// The most bytes that a word stands for.
const MOST: u64 = 16_777_216;

/// A literal without indexing whose name is spelled out (RFC 7541, section 6.2.2).
const LITERAL: u8 = 0;

/// A length has no more groups of seven bits than this.
const MOST_SEPTETS: u32 = 10;

/// The first bits of a change of the table's size, and the bits of its number in the first byte
/// (RFC 7541, section 6.3).
const SIZE_CHANGE: u8 = 0x20;

const SIZE_MASK: u8 = 0x1f;

/// The bits of a string's length in the first byte (RFC 7541, section 5.2).
const LENGTH_MASK: u8 = 0x7f;

/// The least length of `pad`.
const LEAST_PAD: u64 = 300;

/// The bytes that a content's words spell.
pub fn read_content(alloc: Global, text: &str, reading: &Reading) -> Result<Vec<u8>, WireFault> {
    let mut bytes = Vec::new(alloc);
    for word in text.split_whitespace() {
        if let Some(word) = reading.unmarked(word) {
            push_word(alloc, &mut bytes, word, &reading.announced)?;
        }
    }
    Ok(bytes)
}

fn push_word(
    alloc: Global,
    bytes: &mut Vec<u8>,
    word: &str,
    announced: &ServerSettings,
) -> Result<(), WireFault> {
    if let Some(amount) = word.strip_prefix("size:") {
        return push_size(bytes, announced.amount(amount)?);
    }
    if let Some(amount) = word.strip_prefix("pad:") {
        return push_pad(alloc, bytes, announced.amount(amount)?);
    }
    if let Some(method) = word.strip_prefix("call:") {
        return push_call(alloc, bytes, method);
    }
    if let Some(method) = word.strip_prefix("path:") {
        return push_path(alloc, bytes, method);
    }
    if let Some(text) = word.strip_prefix("str:") {
        return push_string(alloc, bytes, text);
    }
    if let Some((name, value)) = word.split_once('=') {
        return push_field(alloc, bytes, name, value);
    }
    if let Some((piece, times)) = word.split_once('*') {
        return push_repeated(alloc, bytes, piece, announced.amount(times)?);
    }
    push_repeated(alloc, bytes, word, 1)
}

/// Adds bytes in hexadecimal, as often as the word says.
fn push_repeated(
    alloc: Global,
    bytes: &mut Vec<u8>,
    digits: &str,
    times: u64,
) -> Result<(), WireFault> {
    let Ok(piece) = hex::decode(alloc, digits) else {
        return Err(WireFault::BadRow);
    };
    if times > MOST {
        return Err(WireFault::BadRow);
    }
    for _ in 0..times {
        bytes.extend_from_slice(piece.as_slice())?;
    }
    Ok(())
}

/// Adds the `:path` of a method of the test service.
fn push_path(alloc: Global, bytes: &mut Vec<u8>, method: &str) -> Result<(), WireFault> {
    let path = format!(in alloc; "/grpc.testing.TestService/{method}")?;
    push_field(alloc, bytes, ":path", path.as_str())
}

/// Adds the fields that open a call of a method.
fn push_call(alloc: Global, bytes: &mut Vec<u8>, method: &str) -> Result<(), WireFault> {
    push_field(alloc, bytes, ":method", "POST")?;
    push_field(alloc, bytes, ":scheme", "http")?;
    push_path(alloc, bytes, method)?;
    push_field(alloc, bytes, ":authority", "localhost")?;
    push_field(alloc, bytes, "te", "trailers")?;
    push_field(alloc, bytes, "content-type", "application/grpc")
}

fn push_field(
    alloc: Global,
    bytes: &mut Vec<u8>,
    name: &str,
    value: &str,
) -> Result<(), WireFault> {
    bytes.push(LITERAL)?;
    push_string(alloc, bytes, name)?;
    push_string(alloc, bytes, value)
}

/// Adds a text that isn't written by Huffman's code (RFC 7541, section 5.2).
fn push_string(alloc: Global, bytes: &mut Vec<u8>, text: &str) -> Result<(), WireFault> {
    let mut plain = Vec::new(alloc);
    push_unescaped(&mut plain, text)?;
    push_length(bytes, plain.len() as u64)?;
    bytes.extend_from_slice(plain.as_slice())?;
    Ok(())
}

/// Adds a field without indexing that has this many bytes in all. Its name has one byte, or two if
/// otherwise no value would have the right length: the length of a value may take one more byte.
fn push_pad(alloc: Global, bytes: &mut Vec<u8>, length: u64) -> Result<(), WireFault> {
    if length < LEAST_PAD || length > MOST {
        return Err(WireFault::BadRow);
    }
    for name in ["x", "xx"] {
        // A byte for the literal, one for the length of the name, and the name.
        let rest = length.saturating_sub(2).saturating_sub(name.len() as u64);
        for octets in 1..=5u64 {
            let value = rest.saturating_sub(octets);
            if octets_of(value) == octets {
                bytes.push(LITERAL)?;
                push_string(alloc, bytes, name)?;
                push_length(bytes, value)?;
                return push_repeated(alloc, bytes, "61", value);
            }
        }
    }
    Err(WireFault::BadRow)
}

/// How many bytes a length below 2^28 takes (RFC 7541, section 5.1).
fn octets_of(length: u64) -> u64 {
    match length {
        0..=126 => 1,
        127..=254 => 2,
        255..=16_510 => 3,
        16_511..=2_097_278 => 4,
        _ => 5,
    }
}

/// Adds a change of the table's size (RFC 7541, section 6.3).
pub fn push_size(bytes: &mut Vec<u8>, size: u64) -> Result<(), WireFault> {
    push_integer(bytes, SIZE_CHANGE, SIZE_MASK, size)
}

/// Adds a length with a prefix of seven bits (RFC 7541, section 5.1).
fn push_length(bytes: &mut Vec<u8>, length: u64) -> Result<(), WireFault> {
    push_integer(bytes, 0, LENGTH_MASK, length)
}

/// Adds an integer whose prefix has these bits, after the first bits of its byte (RFC 7541, section
/// 5.1).
fn push_integer(bytes: &mut Vec<u8>, first: u8, mask: u8, value: u64) -> Result<(), WireFault> {
    if value < u64::from(mask) {
        bytes.push(first | value as u8)?;
        return Ok(());
    }
    bytes.push(first | mask)?;
    let mut rest = value - u64::from(mask);
    for _ in 0..MOST_SEPTETS {
        if rest < 128 {
            bytes.push(rest as u8)?;
            return Ok(());
        }
        bytes.push((rest % 128) as u8 | 0x80)?;
        rest /= 128;
    }
    Err(WireFault::BadRow)
}

/// Adds the bytes of a text in which `%` and two digits stand for a byte.
fn push_unescaped(bytes: &mut Vec<u8>, text: &str) -> Result<(), WireFault> {
    let mut rest = text.as_bytes();
    for _ in 0..u64::MAX {
        if rest.is_empty() {
            break;
        }
        let (byte, behind) = first_byte(rest).ok_or(WireFault::BadRow)?;
        bytes.push(byte)?;
        rest = behind;
    }
    Ok(())
}

/// The byte that a text begins with, or that `%` and two digits spell there, and what follows.
fn first_byte(text: &[u8]) -> Option<(u8, &[u8])> {
    let (first, behind) = text.split_first()?;
    if *first != b'%' {
        return Some((*first, behind));
    }
    let (high, behind) = behind.split_first()?;
    let (low, behind) = behind.split_first()?;
    Some((digit(*high)? * 16 + digit(*low)?, behind))
}

/// The value of a hexadecimal digit.
fn digit(byte: u8) -> Option<u8>
    ensures { IfSome result (λ value. value < 16) }
{
    match byte {
        b'0'..=b'9' => Some(byte - b'0'),
        b'a'..=b'f' => Some(byte - b'a' + 10),
        b'A'..=b'F' => Some(byte - b'A' + 10),
        _ => None,
    }
}
