//! The status that ends a call, by its trailers (gRPC over HTTP/2, "Responses").

ghost use Rattle.std.specs.Prelude.{◌≡◌, ◌↔◌, ℕ, List, Some, IfOk, IfNone, IfSome, string_bytes};
ghost use Rattle.callhead.specs.Statuses.{IsStatusCode, TellsStatus};

use crate::fields::first_value;
use crate::percent::read_percent_text;
use lists::Field;
use std::alloc::{AllocError, Global};

/// The greatest number of a status: UNAUTHENTICATED.
const MAX_CODE: u32 = 16;

/// The status in fields: its number and its text. There is none if the first `grpc-status` is
/// missing or isn't a decimal number of 0 to 16. A missing text counts as empty.
pub fn read_status(alloc: Global, fields: &[Field]) -> Result<Option<(u32, String)>, AllocError>
    ensures some { IfOk result
        (λ found. IfSome found
        (λ status. TellsStatus fields.now status.0 (string_bytes status.1))) }
    ensures none { IfOk result
        (λ found. IfNone found
        ((code : ℕ) (text : List ℕ) → TellsStatus fields.now code text → ⊥)) }
{
    let Some(number) = first_value(fields, b"grpc-status") else {
        return Ok(None);
    };
    let Some(code) = read_code(number) else {
        return Ok(None);
    };
    let text = match first_value(fields, b"grpc-message") {
        Some(value) => read_percent_text(alloc, value)?,
        None => String::new(alloc),
    };
    Ok(Some((code, text)))
}

/// The number of a status.
fn read_code(text: &[u8]) -> Option<u32>
    ensures { (code : ℕ) → (result ≡ Some code) ↔ IsStatusCode text.now code }
{
    if text.is_empty() {
        return None;
    }
    let mut code = 0;
    for digit in text {
        code = code * 10 + char::from(*digit).to_digit(10)?;
        if code > MAX_CODE {
            return None;
        }
    }
    Some(code)
}
