//! Frames of any kind, lawful or not (RFC 9113, section 4.1).

ghost use Rattle.std.specs.Prelude.{◌≡◌, ◌++◌, OnOk};
ghost use Rattle.wire.specs.Frames.{frame_text};

use crate::fault::WireFault;

/// The text with which a client begins (RFC 9113, section 3.4).
pub const PREFACE: &[u8] = b"PRI * HTTP/2.0\r\n\r\nSM\r\n\r\n";

pub const DATA: u8 = 0;

pub const HEADERS: u8 = 1;

pub const RST_STREAM: u8 = 3;

pub const SETTINGS: u8 = 4;

pub const PUSH_PROMISE: u8 = 5;

pub const PING: u8 = 6;

pub const CONTINUATION: u8 = 9;

/// SETTINGS and PING: an acknowledgement.
pub const ACK: u8 = 0x01;

pub const END_STREAM: u8 = 0x01;

pub const END_HEADERS: u8 = 0x04;

pub const PADDED: u8 = 0x08;

/// HEADERS: five bytes of priority stand before the block.
pub const PRIORITY: u8 = 0x20;

/// A payload's length has three bytes.
const MOST: usize = 0xff_ffff;

/// The number of a type, by its name in the rows or by itself.
pub fn kind_named(word: &str) -> Option<u8> {
    match word {
        "data" => Some(DATA),
        "headers" => Some(HEADERS),
        "priority" => Some(2),
        "reset" => Some(RST_STREAM),
        "settings" => Some(SETTINGS),
        "push" => Some(PUSH_PROMISE),
        "ping" => Some(PING),
        "goaway" => Some(7),
        "window" => Some(8),
        "continuation" => Some(CONTINUATION),
        _ => word.strip_prefix("type")?.parse::<u8>().ok(),
    }
}

/// Adds a frame; its length is that of its payload, and all else is as it is given.
pub fn push_frame(
    bytes: &mut Vec<u8>,
    kind: u8,
    flags: u8,
    stream: u32,
    payload: &[u8],
) -> Result<(), WireFault>
    ensures { OnOk result
        (bytes.new.items ≡ bytes.old.items ++ frame_text kind flags stream payload.now) }
{
    let length = payload.len();
    if length > MOST {
        return Err(WireFault::BadRow);
    }
    let [_, a, b, c] = (length as u32).to_be_bytes();
    let [s, t, u, v] = stream.to_be_bytes();
    bytes.extend_from_slice(&[a, b, c, kind, flags, s, t, u, v])?;
    bytes.extend_from_slice(payload)?;
    Ok(())
}
