//! A test message that is written is read again.

ghost use Rattle.std.specs.Prelude.{◌≡◌, MatchResult};
ghost use Rattle.testproto.specs.declared.fault.ProtoFault.TheVariants.{OutOfMemory};
ghost use Rattle.testproto.specs.Values.{IsValueOf};

use anyhow::Result;
use std::alloc::{AllocError, Global};
use testproto::{
    BoolValue, EchoStatus, Message, ParameterList, ProtoFault, ResponseParameters,
    StreamingOutputCallRequest, Text,
};

/// Reading what was written of a message gives the message, which is proved of every message.
fn again<'a, M: Message<'a>>(alloc: Global, message: &M, written: &'a [u8]) -> Result<M, ProtoFault>
    requires { IsValueOf M.accepts M.is_value written.now message.now }
    ensures { MatchResult result (λ read. read ≡ message.now) (λ fault. fault ≡ OutOfMemory) }
{
    let _written = message;
    M::decode(alloc, written)
}

/// A request for one response, with a status.
fn request(alloc: Global) -> Result<StreamingOutputCallRequest<'static>, AllocError> {
    let mut response_parameters = ParameterList::new(alloc);
    response_parameters.push(ResponseParameters {
        size: -1,
        interval_us: 2,
        compressed: Some(BoolValue { value: true }),
    })?;
    Ok(StreamingOutputCallRequest {
        response_type: 1,
        response_parameters,
        payload: None,
        response_status: Some(EchoStatus {
            code: -2147483648,
            message: Text::from_text("x\u{263a}"),
        }),
    })
}

/// Whether a request has the response and the status of that one.
fn is_request(read: &StreamingOutputCallRequest<'_>) -> bool {
    let is_status = match &read.response_status {
        Some(status) => status.code == -2147483648 && status.message.as_str() == "x\u{263a}",
        None => false,
    };
    is_status && read.response_parameters.as_slice().len() == 1
}

pub fn is_read_again(alloc: Global) -> Result<bool> {
    let written = request(alloc)?;
    let bytes = written.encode(alloc)?;
    let read = again(alloc, &written, &bytes)?;
    Ok(is_request(&read))
}
