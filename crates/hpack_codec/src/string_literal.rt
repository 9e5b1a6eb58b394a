//! String literals (RFC 7541, section 5.2).
ghost use Rattle.std.specs.Prelude.{◌≡◌, ◌<◌, ◌^◌, length, IfOk, IfErr, OnOk};
ghost use Rattle.hpack_codec.specs.Reading.{OrMemory, TakesString, Appends};
ghost use Rattle.hpack_codec.specs.Faults.{IsStringFault};
ghost use Rattle.hpack_codec.specs.StringLiteral.{IsString};

use crate::fault::HpackFault;
use crate::huffman;
use crate::huffman_writing::{push_text, text_len};
use crate::integer::{integer, push_integer};
use lists::Octets;
use std::alloc::{AllocError, Global};

/// The bit of the first byte that says that a text is Huffman's.
const HUFFMAN: u8 = 0x80;

/// The bits above the prefix where the text isn't Huffman's.
const PLAIN: u8 = 0;

/// The prefix of a text's length.
const LEN_PREFIX: u32 = 7;

/// The string at the front, and the bytes after it.
pub fn string(alloc: Global, bytes: &[u8]) -> Result<(Octets, &[u8]), HpackFault>
    ensures ok { IfOk result (λ taken. TakesString bytes.now taken.0 taken.1.now) }
    ensures err { IfErr result (λ fault. OrMemory fault (IsStringFault fault bytes.now)) }
{
    let [first, ..] = bytes else {
        return Err(HpackFault::Truncated);
    };
    let is_huffman = *first >= HUFFMAN;
    let (len, rest) = integer(LEN_PREFIX, bytes)?;
    let len = len as usize;
    if rest.len() < len {
        return Err(HpackFault::Truncated);
    }
    let (content, rest) = rest.split_at(len);
    let octets = if is_huffman {
        huffman::decode(alloc, content)?
    } else {
        Vec::from_slice(alloc, content)?
    };
    Ok((Octets::from(octets), rest))
}

/// Writes octets at the end: as their Huffman text if that is shorter, or else as they are.
pub fn push_string(out: &mut Vec<u8>, octets: &[u8]) -> Result<(), AllocError>
    requires { length octets.now < 2 ^ 32 }
    ensures { OnOk result (Appends out.old.items out.new.items (λ text. IsString text octets.now)) }
{
    let len = text_len(octets);
    if len < octets.len() {
        push_integer(out, HUFFMAN, LEN_PREFIX, len as u32)?;
        return push_text(out, octets);
    }
    push_integer(out, PLAIN, LEN_PREFIX, octets.len() as u32)?;
    out.extend_from_slice(octets)
}
