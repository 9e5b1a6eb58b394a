//! The messages that are sent. All bodies are zero bytes, but for that of cacheable_unary.

use crate::fault::Fault;
use crate::mismatch::WantedStatus;
use std::alloc::{AllocError, Global};
use testproto::{
    ByteList, EchoStatus, Message, ParameterList, Payload, ResponseParameters, SimpleRequest,
    StreamingInputCallRequest, StreamingOutputCallRequest, Text,
};

/// A status that the server is asked to end a call with.
#[derive(Clone, Copy, Debug)]
pub struct AskedStatus {
    pub code: i32,
    pub text: &'static str,
}

impl AskedStatus {
    /// The status with which the call has to end: a code below 0 means none.
    pub fn wanted(self) -> WantedStatus {
        WantedStatus {
            code: self.code.unsigned_abs(),
            text: Some(self.text),
        }
    }
}

/// `len` zero bytes.
fn zeros(alloc: Global, len: usize) -> Result<Vec<u8>, AllocError> {
    vec![in alloc; 0; len]
}

/// A payload with this body, and none for no bytes: so real clients write it.
fn payload(body: &[u8]) -> Option<Payload<'_>> {
    if body.is_empty() {
        return None;
    }
    Some(Payload {
        kind: 0,
        body: ByteList::from_slice(body),
    })
}

fn echo_status(status: Option<AskedStatus>) -> Option<EchoStatus<'static>> {
    let status = status?;
    Some(EchoStatus {
        code: status.code,
        message: Text::from_text(status.text),
    })
}

/// A request for one response of this size.
pub fn simple_request(
    alloc: Global,
    response_size: i32,
    body_len: usize,
    status: Option<AskedStatus>,
) -> Result<Vec<u8>, Fault> {
    let body = zeros(alloc, body_len)?;
    simple_request_of(alloc, response_size, body.as_slice(), status)
}

/// A request for one payload, with this body.
pub fn simple_request_of(
    alloc: Global,
    response_size: i32,
    body: &[u8],
    status: Option<AskedStatus>,
) -> Result<Vec<u8>, Fault> {
    let request = SimpleRequest {
        response_type: 0,
        response_size,
        payload: payload(body),
        fill_username: false,
        fill_oauth_scope: false,
        response_compressed: None,
        response_status: echo_status(status),
        expect_compressed: None,
    };
    let Ok(bytes) = request.encode(alloc) else {
        return Err(Fault::OutOfMemory);
    };
    Ok(bytes)
}

/// A request for a response of each of these sizes.
pub fn output_request(
    alloc: Global,
    sizes: &[i32],
    body_len: usize,
    status: Option<AskedStatus>,
) -> Result<Vec<u8>, Fault> {
    let mut response_parameters = ParameterList::new(alloc);
    for size in sizes {
        response_parameters.push(ResponseParameters {
            size: *size,
            interval_us: 0,
            compressed: None,
        })?;
    }
    let body = zeros(alloc, body_len)?;
    let request = StreamingOutputCallRequest {
        response_type: 0,
        response_parameters,
        payload: payload(&body),
        response_status: echo_status(status),
    };
    let Ok(bytes) = request.encode(alloc) else {
        return Err(Fault::OutOfMemory);
    };
    Ok(bytes)
}

/// A part of what is summed up.
pub fn input_request(alloc: Global, body_len: usize) -> Result<Vec<u8>, Fault> {
    let body = zeros(alloc, body_len)?;
    let request = StreamingInputCallRequest {
        payload: payload(&body),
        expect_compressed: None,
    };
    let Ok(bytes) = request.encode(alloc) else {
        return Err(Fault::OutOfMemory);
    };
    Ok(bytes)
}
