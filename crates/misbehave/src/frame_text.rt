//! Frames and header blocks as they are written. A frame may be one that no reader takes.

ghost use Rattle.std.specs.Prelude.{◌≡◌, ◌<◌, ◌^◌, ◌++◌, ◌∷◌, [], length, OnOk};
ghost use Rattle.std.specs.Int.{bytes_high_first};
ghost use Rattle.misbehave.specs.Written.{head_text, field_text, frame_text};

use crate::step::Pair;
use h2frame::StreamId;
use std::alloc::{AllocError, Global};

/// The codes of the types of frames that are written (RFC 9113, section 6).
pub const DATA: u8 = 0;

pub const HEADERS: u8 = 1;

pub const RST_STREAM: u8 = 3;

pub const SETTINGS: u8 = 4;

pub const PING: u8 = 6;

pub const GOAWAY: u8 = 7;

pub const WINDOW_UPDATE: u8 = 8;

pub const CONTINUATION: u8 = 9;

/// Flags of frames.
pub const NO_FLAGS: u8 = 0;

pub const ACK: u8 = 1;

pub const END_STREAM: u8 = 1;

pub const END_HEADERS: u8 = 4;

pub const PADDED: u8 = 8;

/// Appends the head of a frame (RFC 9113, section 4.1).
pub fn push_frame_head(
    out: &mut Vec<u8>,
    kind: u8,
    flags: u8,
    stream: StreamId,
    len: u32,
) -> Result<(), AllocError>
    requires { len < 2 ^ 24 }
    ensures { OnOk result (out.new.items ≡ out.old.items ++ head_text kind flags stream len) }
{
    let [_, a, b, c] = len.to_be_bytes();
    let [s, t, u, v] = stream.to_be_bytes();
    out.extend_from_slice(&[a, b, c, kind, flags, s, t, u, v])
}

/// Appends a frame.
pub fn push_frame(
    out: &mut Vec<u8>,
    kind: u8,
    flags: u8,
    stream: StreamId,
    content: &[u8],
) -> Result<(), AllocError>
    requires { length content.now < 2 ^ 24 }
    ensures { OnOk result (out.new.items ≡ out.old.items
        ++ frame_text kind flags stream content.now) }
{
    push_frame_head(out, kind, flags, stream, content.len() as u32)?;
    out.extend_from_slice(content)
}

/// Appends a field as a literal that becomes no entry, whose name is spelled out (RFC 7541, section
/// 6.2.2). It has to be short.
fn push_field(out: &mut Vec<u8>, name: &[u8], value: &[u8]) -> Result<(), AllocError>
    requires name { length name.now < 127 }
    requires value { length value.now < 127 }
    ensures { OnOk result (out.new.items ≡ out.old.items ++ field_text name.now value.now) }
{
    out.extend_from_slice(&[0, name.len() as u8])?;
    out.extend_from_slice(name)?;
    out.push(value.len() as u8)?;
    out.extend_from_slice(value)
}

/// The header block of these fields. One of 127 bytes or more in name or value is left out.
pub fn block_of(alloc: Global, fields: &[Pair]) -> Result<Vec<u8>, AllocError> {
    let mut block = Vec::new(alloc);
    for (name, value) in fields {
        if name.len() < 127 && value.len() < 127 {
            push_field(&mut block, name.as_bytes(), value.as_bytes())?;
        }
    }
    Ok(block)
}
