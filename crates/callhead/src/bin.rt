//! Binary metadata, in fields whose name ends in `-bin` (gRPC over HTTP/2, "Custom-Metadata"; RFC
//! 4648, section 4).
//!
//! `read_bin_values` answers an Option, since a field that carries no values isn't a fault: it is
//! only not echoed.

ghost use Rattle.std.specs.Prelude.{
  ◌≡◌,
  ℕ,
  ◌+◌,
  ◌^◌,
  ◌<◌,
  ◌==◌,
  ◌↔◌,
  List,
  [],
  ◌∷◌,
  ◌++◌,
  take,
  drop,
  length,
  position,
  Some,
  IsTrue,
  IfOk,
  IfSome,
  IfNone,
  string_bytes,
};
ghost use Rattle.base64.specs.GeneralPurpose.{encode_of, IsStrict};
ghost use Rattle.callhead.specs.BinValues.{unpadded, AreBytes, IsBinValues};
ghost use Rattle.callhead.specs.Parts.{IsWithout, IsPadded, ReadsPart};

use crate::Values;
use base64::DecodeAllocError;
use base64::engine::general_purpose::{GeneralPurpose, STANDARD, STANDARD_NO_PAD};
use lists::Octets;
use std::alloc::{AllocError, Global};

/// The value of a `-bin` field that carries these bytes: base64 without padding.
pub fn bin_value(alloc: Global, value: &[u8]) -> Result<String, AllocError>
    ensures text { IfOk result (λ text. string_bytes text ≡ unpadded value.now) }
    ensures again { IfOk result (λ text. IsBinValues (string_bytes text) (value.now ∷ [])) }
{
    STANDARD_NO_PAD.encode(alloc, value)
}

/// The values that a `-bin` field carries: base64, padded or not, with commas between several. An
/// empty part is the empty value. There is no answer if a part isn't base64, has only some of its
/// padding, or has bits left over that aren't 0.
pub fn read_bin_values(alloc: Global, text: &[u8]) -> Result<Option<Values>, AllocError>
    ensures { (values : List (List ℕ))
        → IfOk result (λ found. (found ≡ Some values) ↔ IsBinValues text.now values) }
{
    let mut values = Vec::new(alloc);
    let mut rest = text;
    while let Some(comma) = first_comma(rest) {
        let Some(value) = read_part(alloc, &rest[..comma])? else {
            return Ok(None);
        };
        values.push(value)?;
        rest = &rest[comma + 1..];
    }
    let Some(value) = read_part(alloc, rest)? else {
        return Ok(None);
    };
    values.push(value)?;
    Ok(Some(Values::from(values)))
}

/// The place of the first comma.
fn first_comma(text: &[u8]) -> Option<usize>
    ensures none { IfNone result (IsWithout 0x2C text.now) }
    ensures without { IfSome result (λ at. IsWithout 0x2C (take at text.now)) }
    ensures there { IfSome result
        (λ at. text.now ≡ take at text.now ++ 0x2C ∷ drop (at + 1) text.now) }
    ensures within { IfSome result (λ at. at < length text.now) }
    ensures fits { IfSome result (λ at. at + 1 < 2 ^ 64) }
{
    // A text's length is a `usize`: `fits` rests on that.
    let _len = text.len();
    position_of_comma(text)
}

fn position_of_comma(text: &[u8]) -> Option<usize>
    ensures { result ≡ position (λ byte. byte == 0x2C) text.now }
{
    text.iter().position(|byte| *byte == b',')
}

/// The value of one part: base64 with all the padding that is due, or with none.
fn read_part(alloc: Global, part: &[u8]) -> Result<Option<Octets>, AllocError>
    ensures { IfOk result (λ found. ReadsPart part.now found) }
{
    if is_padded(part) {
        decode(alloc, &STANDARD, part)
    } else {
        decode(alloc, &STANDARD_NO_PAD, part)
    }
}

/// Whether a part ends with `=`.
fn is_padded(part: &[u8]) -> bool
    ensures { IsTrue result ↔ IsPadded part.now }
{
    match part.split_last() {
        Some((last, _)) => *last == b'=',
        None => false,
    }
}

/// The bytes to which an engine decodes a part.
fn decode(alloc: Global, engine: &GeneralPurpose, part: &[u8]) -> Result<Option<Octets>, AllocError>
    requires strict { IsStrict engine.now }
    ensures none { IfOk result
        (λ found. IfNone found
        ((value : List ℕ) → AreBytes value → part.now ≡ encode_of engine.now value → ⊥)) }
    ensures some { IfOk result
        (λ found. IfSome found
        (λ value. AreBytes value × (part.now ≡ encode_of engine.now value))) }
{
    match engine.decode(alloc, part) {
        Ok(bytes) => Ok(Some(Octets::from(bytes))),
        Err(DecodeAllocError::DecodeError(_)) => Ok(None),
        Err(DecodeAllocError::OutOfMemory) => Err(AllocError),
    }
}
