//! The head of a call (gRPC over HTTP/2, "Requests").
//!
//! `read` looks for faults before it takes memory, so it answers a fault whether or not there is
//! memory.
//!
//! `initial_echoes` makes texts by std's lossy reading, which doesn't change bytes 20 to 7E.

ghost use Rattle.std.specs.Prelude.{
  ◌≡◌,
  ◌⊎◌,
  ◌↔◌,
  ℕ,
  List,
  Option,
  Ok,
  Err,
  Some,
  IfOk,
  IfErr,
  IfSome,
  IsTrue,
  codes,
};
ghost use Rattle.callhead.specs.declared.head.CallHead.{CallHead};
ghost use Rattle.callhead.specs.declared.fault.HeadFault.{HeadFault};
ghost use Rattle.callhead.specs.declared.fault.HeadFault.TheVariants.{OutOfMemory};
ghost use Rattle.callhead.specs.Fields.{first_of};
ghost use Rattle.callhead.specs.Heads.{
  IsPost,
  IsGrpc,
  HasTimeout,
  encoding_of,
  is_printable,
  initial_echoes,
  AreEchoesOf,
  AreTrailingEchoes,
  IsHead,
  IsFirstFault,
};
ghost use Rattle.callhead.specs.Requests.{IsRequest};

use crate::bin::read_bin_values;
use crate::fault::HeadFault;
use crate::fields::{first_octets, first_value, is_named};
use crate::malformed::is_malformed;
use crate::names::{CONTENT_TYPE, ECHO_INITIAL, ECHO_TRAILING, GRPC_TYPE};
use crate::texts::Texts;
use crate::timeout::read_timeout;
use crate::values::Values;
use lists::{Field, Octets};
use std::alloc::{AllocError, Global};

/// How the messages of a call may be compressed, as its head says.
#[derive(Clone, Copy, Debug, PartialEq, Eq)]
pub enum Encoding {
    /// Not at all.
    Identity,
    /// In some other way.
    Other,
}

/// What the head of a call says.
#[derive(Debug, Drop)]
pub struct CallHead {
    /// The path of the method, as bytes.
    pub path: Octets,
    /// The timeout, in nanoseconds.
    pub timeout: Option<u128>,
    pub encoding: Encoding,
    /// What goes back in the head of the response.
    pub echo_initial: Texts,
    /// What goes back in the trailers.
    pub echo_trailing: Values,
}

impl CallHead {
    /// The head of a call exactly where the fields are one, memory aside; else the fault with the
    /// least number of those that stand. Only a head takes memory.
    pub fn read(alloc: Global, fields: &[Field]) -> Result<CallHead, HeadFault>
        ensures ok { IfOk result (λ head. IsHead fields.now head) }
        ensures only { (head : CallHead) → IsHead fields.now head → (result ≡ Ok head)
            ⊎ (result ≡ Err OutOfMemory) }
        ensures err { IfErr result
            (λ fault. IsFirstFault fields.now fault ⊎ (fault ≡ OutOfMemory)) }
        ensures first { (fault : HeadFault) → IsFirstFault fields.now fault → result ≡ Err fault }
    {
        let timeout = lawful_timeout(fields)?;
        let Some(path) = first_octets(fields, b":path") else {
            return Err(HeadFault::Malformed);
        };
        Ok(CallHead {
            path: path.copy()?,
            timeout,
            encoding: encoding_of(fields),
            echo_initial: initial_echoes(alloc, fields)?,
            echo_trailing: trailing_echoes(alloc, fields)?,
        })
    }
}

/// The timeout, if the fields have no fault.
fn lawful_timeout(fields: &[Field]) -> Result<Option<u128>, HeadFault>
    ensures ok { IfOk result (λ timeout. IsRequest fields.now timeout) }
    ensures err { IfErr result (λ fault. IsFirstFault fields.now fault) }
{
    if is_malformed(fields) {
        return Err(HeadFault::Malformed);
    }
    if !is_post(fields) {
        return Err(HeadFault::NotPost);
    }
    if !is_grpc(fields) {
        return Err(HeadFault::NotGrpc);
    }
    let Some(timeout) = timeout_of(fields) else {
        return Err(HeadFault::BadTimeout);
    };
    Ok(timeout)
}

fn is_post(fields: &[Field]) -> bool
    ensures { IsTrue result ↔ IsPost fields.now }
{
    match first_value(fields, b":method") {
        Some(method) => method == b"POST".as_slice(),
        None => false,
    }
}

/// Whether the first content type begins as those of gRPC do.
fn is_grpc(fields: &[Field]) -> bool
    ensures { IsTrue result ↔ IsGrpc fields.now }
{
    match first_value(fields, CONTENT_TYPE) {
        Some(content_type) => content_type.starts_with(GRPC_TYPE),
        None => false,
    }
}

/// The timeout, or that there is none. No answer if it is malformed.
fn timeout_of(fields: &[Field]) -> Option<Option<u128>>
    ensures found { IfSome result (λ timeout. HasTimeout fields.now timeout) }
    ensures only { (timeout : Option ℕ) → HasTimeout fields.now timeout → result ≡ Some timeout }
{
    match first_value(fields, b"grpc-timeout") {
        Some(text) => Some(Some(read_timeout(text)?)),
        None => Some(None),
    }
}

fn encoding_of(fields: &[Field]) -> Encoding
    ensures { result ≡ encoding_of (first_of (codes "grpc-encoding") fields.now) }
{
    match first_value(fields, b"grpc-encoding") {
        Some(name) if name != b"identity".as_slice() => Encoding::Other,
        _ => Encoding::Identity,
    }
}

fn initial_echoes(alloc: Global, fields: &[Field]) -> Result<Texts, AllocError>
    ensures { IfOk result (λ echoes. echoes ≡ initial_echoes fields.now) }
{
    let mut echoes = Vec::new(alloc);
    for field in fields {
        let value = field.value.as_slice();
        if is_named(field, ECHO_INITIAL) && is_printable(value) {
            // Such bytes are ASCII, so none is replaced.
            echoes.push(String::from_utf8_lossy(alloc, value)?)?;
        }
    }
    Ok(Texts::from(echoes))
}

/// Whether all bytes are 20 to 7E.
fn is_printable(value: &[u8]) -> bool
    ensures { result ≡ is_printable value.now }
{
    value.iter().all(|byte| b' ' <= *byte && *byte <= b'~')
}

fn trailing_echoes(alloc: Global, fields: &[Field]) -> Result<Values, AllocError>
    ensures { (values : List (List ℕ))
        → IfOk result (λ echoes. (echoes ≡ values) ↔ AreTrailingEchoes fields.now values) }
{
    let mut echoes = Vec::new(alloc);
    for field in fields {
        if is_named(field, ECHO_TRAILING) {
            let mut values = echoes_of(alloc, field.value.as_slice())?;
            echoes.append(&mut values)?;
        }
    }
    Ok(Values::from(echoes))
}

/// The values that go back for one field: those that it carries, if any.
fn echoes_of(alloc: Global, text: &[u8]) -> Result<Vec<Octets>, AllocError>
    ensures { (values : List (List ℕ))
        → IfOk result (λ echoes. (echoes.items ≡ values) ↔ AreEchoesOf text.now values) }
{
    match read_bin_values(alloc, text)? {
        Some(values) => Ok(values.into_vec()),
        None => Ok(Vec::new(alloc)),
    }
}
