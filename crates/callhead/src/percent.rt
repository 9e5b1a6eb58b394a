//! The text of a status, in `grpc-message` (gRPC over HTTP/2, "Percent-Encoded").
//!
//! A text is written as a `String`, whose bytes go into a field without memory
//! (`String::into_bytes`, `Octets::from`).

ghost use Rattle.std.specs.Prelude.{◌≡◌, IfOk, string_bytes};
ghost use Rattle.callhead.specs.StatusTexts.{percent_text, text_of};

use percent_encoding::{AsciiSet, CONTROLS, ascii_set, percent_decode, utf8_percent_encode};
use std::alloc::{AllocError, Global};

/// The ASCII bytes that are escaped.
const ESCAPED: AsciiSet = ascii_set!(CONTROLS.add(b'%'));

/// The value of `grpc-message` for a text: bytes 20 to 24 and 26 to 7E (hexadecimal) stand for
/// themselves, each other byte of its UTF-8 is `%` and two upper-case digits.
pub fn percent_text(alloc: Global, text: &str) -> Result<String, AllocError>
    ensures text { IfOk result (λ written. string_bytes written ≡ percent_text text.now) }
    ensures again { IfOk result (λ written. text_of (string_bytes written) ≡ text.now) }
{
    let mut written = String::new(alloc);
    utf8_percent_encode(text, ESCAPED).append_to(&mut written)?;
    Ok(written)
}

/// The text that a value of `grpc-message` stands for. A `%` without two hexadecimal digits stands
/// for itself, and bytes that are not UTF-8 are replaced by U+FFFD.
pub fn read_percent_text(alloc: Global, value: &[u8]) -> Result<String, AllocError>
    ensures { IfOk result (λ text. string_bytes text ≡ text_of value.now) }
{
    let mut bytes = Vec::new(alloc);
    percent_decode(value).append_to(&mut bytes)?;
    String::from_utf8_lossy(alloc, bytes.as_slice())
}
