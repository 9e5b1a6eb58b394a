//! The fields that answer a call (gRPC over HTTP/2, "Responses").

ghost use Rattle.std.specs.Prelude.{
  ◌≡◌,
  ◌++◌,
  [],
  ◌∷◌,
  Some,
  None,
  MatchOption,
  IfOk,
  OnOk,
  codes,
  decimal,
};
ghost use Rattle.callhead.specs.StatusFields.{
  response_fields,
  status_fields,
  message_fields,
  trailers_only,
  unknown_method,
  refusal_of,
  status_alone,
};

use crate::bin::bin_value;
use crate::fault::HeadFault;
use crate::fields::{field, push_copied, push_known};
use crate::names::{CONTENT_TYPE, ECHO_INITIAL, ECHO_TRAILING, GRPC_TYPE};
use crate::percent::percent_text;
use crate::texts::Texts;
use crate::values::Values;
use grpc_status::StatusCode;
use lists::{Field, Octets};
use std::alloc::{AllocError, Global};

/// The fields that begin the response to a call, with one for each echo.
pub fn response_fields(alloc: Global, echo_initial: &Texts) -> Result<Vec<Field>, AllocError>
    ensures { IfOk result (λ fields. fields.items ≡ response_fields echo_initial.now) }
{
    let mut fields = opening_fields(alloc)?;
    for echo in echo_initial.as_slice() {
        push_copied(alloc, &mut fields, ECHO_INITIAL, echo.as_bytes())?;
    }
    Ok(fields)
}

/// The fields that end the response to a call: the status's number, its text unless that is empty,
/// and one for each echo.
pub fn status_fields(
    alloc: Global,
    code: u32,
    text: &str,
    echo_trailing: &Values,
) -> Result<Vec<Field>, AllocError>
    ensures { IfOk result (λ fields. fields.items ≡ status_fields code text.now echo_trailing.now) }
{
    let mut fields = Vec::new(alloc);
    push_status(alloc, &mut fields, code, text)?;
    for echo in echo_trailing.as_slice() {
        let value = bin_value(alloc, echo.as_slice())?;
        fields.push(field(ECHO_TRAILING, Octets::from(value.into_bytes())))?;
    }
    Ok(fields)
}

/// The fields of a Trailers-Only response, which begins and ends in one block: those with which
/// each response begins, the status's number, and its text unless that is empty.
pub fn trailers_only(alloc: Global, code: u32, text: &str) -> Result<Vec<Field>, AllocError>
    ensures { IfOk result (λ fields. fields.items ≡ trailers_only code text.now) }
{
    let mut block = opening_fields(alloc)?;
    push_status(alloc, &mut block, code, text)?;
    Ok(block)
}

/// The fields of the block that answers a call whose path names no method: UNIMPLEMENTED (12),
/// `unknown method`.
pub fn unknown_method(alloc: Global) -> Result<Vec<Field>, AllocError>
    ensures { IfOk result (λ fields. fields.items ≡ unknown_method) }
{
    trailers_only(alloc, StatusCode::Unimplemented.number(), "unknown method")
}

impl HeadFault {
    /// The fields of the block that answers fields which aren't the head of a call. A malformed
    /// request has no such block (its stream is reset), and want of memory isn't the client's
    /// fault.
    pub fn refusal(self, alloc: Global) -> Result<Option<Vec<Field>>, AllocError>
        ensures { IfOk result
            (λ found. MatchOption found (refusal_of self ≡ None)
            (λ fields. refusal_of self ≡ Some fields.items)) }
    {
        match self {
            HeadFault::Malformed | HeadFault::OutOfMemory => Ok(None),
            HeadFault::NotPost => Ok(Some(status_alone(alloc, b"405")?)),
            HeadFault::NotGrpc => Ok(Some(status_alone(alloc, b"415")?)),
            HeadFault::BadTimeout => {
                let code = StatusCode::Internal.number();
                Ok(Some(trailers_only(alloc, code, "bad timeout")?))
            }
        }
    }
}

/// A response of HTTP alone.
fn status_alone(alloc: Global, status: &'static [u8]) -> Result<Vec<Field>, AllocError>
    ensures { IfOk result (λ fields. fields.items ≡ status_alone status.now) }
{
    let mut fields = Vec::new(alloc);
    push_known(&mut fields, b":status", status)?;
    Ok(fields)
}

/// The fields with which each response of gRPC begins.
fn opening_fields(alloc: Global) -> Result<Vec<Field>, AllocError>
    ensures { IfOk result (λ fields. fields.items ≡ response_fields []) }
{
    let mut fields = status_alone(alloc, b"200")?;
    push_known(&mut fields, CONTENT_TYPE, GRPC_TYPE)?;
    Ok(fields)
}

/// Appends the status's number and its text.
fn push_status(
    alloc: Global,
    fields: &mut Vec<Field>,
    code: u32,
    text: &str,
) -> Result<(), AllocError>
    ensures { OnOk result (fields.new.items ≡ fields.old.items ++ status_fields code text.now []) }
{
    let number = number_text(alloc, code)?;
    fields.push(field(b"grpc-status", number))?;
    push_message(alloc, fields, text)?;
    Ok(())
}

/// The text of a status's number. For OK it takes no memory.
fn number_text(alloc: Global, code: u32) -> Result<Octets, AllocError>
    ensures { IfOk result (λ text. text ≡ decimal code) }
{
    if code == StatusCode::Ok.number() {
        return Ok(Octets::fixed(b"0"));
    }
    Ok(Octets::from(code.to_string(alloc)?.into_bytes()))
}

/// Appends the status's text, unless that is empty.
fn push_message(alloc: Global, fields: &mut Vec<Field>, text: &str) -> Result<(), AllocError>
    ensures { OnOk result (fields.new.items ≡ fields.old.items ++ message_fields text.now) }
{
    if !text.is_empty() {
        let value = percent_text(alloc, text)?;
        fields.push(field(b"grpc-message", Octets::from(value.into_bytes())))?;
    }
    Ok(())
}
