//! The message at the front of some bytes.
//!
//! `is_frame` and `is_frame_with` are public: a caller who gets one message with its length prefix
//! needs the test.

ghost use Rattle.std.specs.Prelude.{◌≡◌, ◌↔◌, ◌++◌, take, replicate, IsTrue};
ghost use Rattle.lpm.specs.Messages.{AreBytes, IsFrame};
ghost use Rattle.lpm.specs.Reading.{is_frame};
ghost use Rattle.lpm.specs.Fronts.{extent_of, IsExtent};

use crate::{LpmFault, MAX_MESSAGE_LEN};

/// The bytes before a message: its flag, and four of its length.
pub(crate) const PREFIX_LEN: usize = 5;

/// The flag of a message that isn't compressed.
pub(crate) const UNCOMPRESSED: u8 = 0;

/// The flag of a message that is compressed.
const COMPRESSED: u8 = 1;

/// Whether these bytes are one message with its prefix, and nothing else. It takes constant time.
pub fn is_frame(bytes: &[u8]) -> bool
    ensures frame { IsTrue result ↔ IsFrame bytes.now }
    ensures computed { result ≡ is_frame bytes.now }
{
    is_frame_with(bytes, 0)
}

/// Whether these bytes with `zeros` zero bytes after them are one message with its prefix, and
/// nothing else.
///
/// The prefix may be in the zeros, wholly or in part. The test takes constant time.
pub fn is_frame_with(front: &[u8], zeros: u32) -> bool
    ensures frame { IsTrue result ↔ IsFrame (front.now ++ replicate zeros 0) }
    ensures computed { result ≡ is_frame (front.now ++ replicate zeros 0) }
{
    let len = front.len() + zeros as usize;
    let prefix = padded(front);
    match frame_len(&prefix[..len.min(PREFIX_LEN)]) {
        Ok(total) => total == len,
        Err(_fault) => false,
    }
}

/// The first five of these bytes, with zeros for those that are missing.
fn padded(front: &[u8]) -> [u8; PREFIX_LEN]
    ensures { result ≡ take 5 (front.now ++ replicate 5 0) }
{
    let known = front.len().min(PREFIX_LEN);
    let mut prefix = [0; PREFIX_LEN];
    prefix[..known].copy_from_slice(&front[..known]);
    prefix
}

/// How many bytes the message at the front has with its prefix. Until its length is there, these
/// are the bytes of the prefix alone.
pub(crate) fn frame_len(front: &[u8]) -> Result<usize, LpmFault>
    ensures extent { result ≡ extent_of front.now }
    ensures means { IsExtent front.now result }
    ensures bytes { AreBytes front.now }
{
    if front.is_empty() {
        return Ok(PREFIX_LEN);
    }
    match front[0] {
        UNCOMPRESSED => {}
        COMPRESSED => return Err(LpmFault::Compressed),
        _ => return Err(LpmFault::BadFlag),
    }
    if front.len() < PREFIX_LEN {
        return Ok(PREFIX_LEN);
    }
    let len = u32::from_be_bytes([front[1], front[2], front[3], front[4]]) as usize;
    if len > MAX_MESSAGE_LEN {
        return Err(LpmFault::TooLong);
    }
    Ok(PREFIX_LEN + len)
}
