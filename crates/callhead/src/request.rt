//! The fields that open a call, for a client (gRPC over HTTP/2, "Requests").

ghost use Rattle.std.specs.Prelude.{
  ◌≡◌,
  codes,
  ◌++◌,
  ◌∷◌,
  [],
  map,
  option_copied,
  All,
  IfOk,
  IsTrue,
  OnOk,
};
ghost use Rattle.callhead.specs.declared.head.CallHead.{CallHead};
ghost use Rattle.callhead.specs.Fields.{field_of};
ghost use Rattle.callhead.specs.BinValues.{unpadded, AreBytes};
ghost use Rattle.callhead.specs.Heads.{IsHead};
ghost use Rattle.callhead.specs.RequestFields.{
  IsPathText,
  is_text_value,
  IsTimeoutText,
  timeout_fields,
  opening_fields,
  request_fields,
  AsksFor,
};

use crate::bin::bin_value;
use crate::fields::{field, push_copied, push_known};
use crate::names::{CONTENT_TYPE, ECHO_INITIAL, ECHO_TRAILING, GRPC_TYPE};
use lists::{Field, Octets};
use std::alloc::{AllocError, Global};

/// The fields of a request: `:method`, `:scheme`, `:path`, `:authority`, `te` and `content-type`;
/// then the timeout, a field for each value that is to come back in the head of the response, and
/// one for each that is to come back in the trailers.
pub fn request_fields(
    alloc: Global,
    path: &str,
    timeout: Option<&str>,
    initial: &[&str],
    trailing: &[&[u8]],
) -> Result<Vec<Field>, AllocError>
    requires path { IsPathText path.now }
    requires timeout { IsTimeoutText (option_copied timeout) }
    requires initial { All (λ value. IsTrue (is_text_value value.now)) initial.now }
    ensures fields { IfOk result
        (λ fields. fields.items
        ≡ request_fields path.now (option_copied timeout.entry)
        (map (λ value. value.now) initial.now) (map (λ value. value.now) trailing.now)) }
    ensures head { (head : CallHead)
        → AsksFor path.now (option_copied timeout.entry) (map (λ value. value.now) initial.now)
        (map (λ value. value.now) trailing.now) head
        → IfOk result (λ fields. IsHead fields.items head) }
{
    let mut fields = opening_fields(alloc, path)?;
    push_timeout(alloc, &mut fields, timeout)?;
    push_initial(alloc, &mut fields, initial)?;
    push_trailing(alloc, &mut fields, trailing)?;
    Ok(fields)
}

/// The fields that each request has.
fn opening_fields(alloc: Global, path: &str) -> Result<Vec<Field>, AllocError>
    ensures { IfOk result (λ fields. fields.items ≡ opening_fields path.now) }
{
    let mut fields = Vec::new(alloc);
    push_known(&mut fields, b":method", b"POST")?;
    push_known(&mut fields, b":scheme", b"http")?;
    push_copied(alloc, &mut fields, b":path", path.as_bytes())?;
    push_known(&mut fields, b":authority", b"localhost")?;
    push_known(&mut fields, b"te", b"trailers")?;
    push_known(&mut fields, CONTENT_TYPE, GRPC_TYPE)?;
    Ok(fields)
}

fn push_timeout(
    alloc: Global,
    fields: &mut Vec<Field>,
    timeout: Option<&str>,
) -> Result<(), AllocError>
    ensures { OnOk result
        (fields.new.items ≡ fields.old.items ++ timeout_fields (option_copied timeout.entry)) }
{
    if let Some(text) = timeout {
        push_copied(alloc, fields, b"grpc-timeout", text.as_bytes())?;
    }
    Ok(())
}

fn push_initial(alloc: Global, fields: &mut Vec<Field>, values: &[&str]) -> Result<(), AllocError>
    ensures { OnOk result
        (fields.new.items ≡ fields.old.items
        ++ map (field_of (codes "x-grpc-test-echo-initial"))
        (map (λ value. value.now) values.now)) }
{
    for value in values {
        push_copied(alloc, fields, ECHO_INITIAL, value.as_bytes())?;
    }
    Ok(())
}

fn push_trailing(alloc: Global, fields: &mut Vec<Field>, values: &[&[u8]]) -> Result<(), AllocError>
    ensures fields { OnOk result
        (fields.new.items ≡ fields.old.items
        ++ map (λ value. field_of (codes "x-grpc-test-echo-trailing-bin") (unpadded value))
        (map (λ value. value.now) values.now)) }
    ensures bytes { OnOk result (All (λ value. AreBytes value.now) values.now) }
{
    for value in values {
        let text = bin_value(alloc, value)?;
        fields.push(field(ECHO_TRAILING, Octets::from(text.into_bytes())))?;
    }
    Ok(())
}
