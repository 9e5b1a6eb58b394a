//! How one request is read and judged.

ghost use Rattle.std.specs.Prelude.{
  ◌≡◌,
  ◌∷◌,
  [],
  map,
  true,
  false,
  IfOk,
  MatchOption,
  MatchResult,
  Ok,
  Err,
};
ghost use Rattle.handlers.specs.declared.reply.Reply.TheVariants.{Empty as EmptyReply, Zeros};
ghost use Rattle.handlers.specs.Requests.{
  IsRead,
  EmptyVerdict,
  SimpleVerdict,
  asked_status,
  is_true,
  is_size,
  zeros,
  zeros_of,
  all_sizes,
  known_code,
  judge_simple,
  judge_output,
  OutputVerdict,
  judge_input,
  InputVerdict,
  body_length,
};

use crate::fault::MethodFault;
use crate::replies::Replies;
use crate::reply::Reply;
use crate::status::{Refusal, Status, StatusText};
use grpc_status::StatusCode;
use std::alloc::Global;
use testproto::{
    BoolValue, EchoStatus, Empty, Message, Payload, ProtoFault, ResponseParameters, SimpleRequest,
    StreamingInputCallRequest, StreamingOutputCallRequest,
};

/// The length of the longest payload that is answered.
const MAX_SIZE: i32 = 4_000_000;

/// The message that the bytes are, or none where they are no message.
pub(crate) fn read<'a, M: Message<'a>>(
    alloc: Global,
    bytes: &'a [u8],
) -> Result<Option<M>, MethodFault>
    ensures { IfOk result (λ read. IsRead M.accepts M.is_value bytes.now read) }
{
    match M::decode(alloc, bytes) {
        Ok(message) => Ok(Some(message)),
        Err(fault) => match fault {
            ProtoFault::OutOfMemory => Err(MethodFault::OutOfMemory),
            ProtoFault::Wire(_) => Ok(None),
            ProtoFault::NotUtf8 => Ok(None),
        },
    }
}

/// The verdict on a message without fields: nothing, or the status that ends the call.
pub(crate) fn judge_empty(alloc: Global, bytes: &[u8]) -> Result<Result<(), Status>, MethodFault>
    ensures { IfOk result
        (λ verdict. MatchResult verdict (λ _. EmptyVerdict bytes.now (Ok (EmptyReply ∷ [])))
        (λ status. EmptyVerdict bytes.now (Err status))) }
{
    match read::<Empty>(alloc, bytes)? {
        Some(_) => Ok(Ok(())),
        None => Ok(Err(Refusal::MalformedMessage.status())),
    }
}

/// The verdict on a request for one payload: its length, or the status that ends the call.
pub(crate) fn judge_unary(alloc: Global, bytes: &[u8]) -> Result<Result<u32, Status>, MethodFault>
    ensures { IfOk result
        (λ verdict. MatchResult verdict (λ size. SimpleVerdict bytes.now (Ok (Zeros size ∷ [])))
        (λ status. SimpleVerdict bytes.now (Err status))) }
{
    match read::<SimpleRequest>(alloc, bytes)? {
        Some(request) => unary_verdict(alloc, &request),
        None => Ok(Err(Refusal::MalformedMessage.status())),
    }
}

/// What a request for one payload asks for, by the causes in order.
fn unary_verdict(alloc: Global, request: &SimpleRequest) -> Result<Result<u32, Status>, MethodFault>
    ensures { IfOk result
        (λ verdict. MatchResult verdict (λ size. judge_simple request.now ≡ Ok (Zeros size ∷ []))
        (λ status. judge_simple request.now ≡ Err status)) }
{
    if is_true(&request.expect_compressed) {
        return Ok(Err(Refusal::NotCompressed.status()));
    }
    if let Some(status) = asked_status(alloc, &request.response_status)? {
        return Ok(Err(status));
    }
    if request.response_type != 0 {
        return Ok(Err(Refusal::BadResponseType.status()));
    }
    match size_of(request.response_size) {
        Some(size) => Ok(Ok(size)),
        None => Ok(Err(Refusal::BadResponseSize.status())),
    }
}

/// Whether a flag is there and true.
fn is_true(flag: &Option<BoolValue>) -> bool
    ensures { result ≡ is_true flag.now }
{
    match flag {
        Some(flag) => flag.value,
        None => false,
    }
}

/// The status that a request asks for, unless its code is 0.
fn asked_status(alloc: Global, echo: &Option<EchoStatus>) -> Result<Option<Status>, MethodFault>
    ensures { IfOk result (λ status. status ≡ asked_status echo.now) }
{
    match echo {
        Some(echo) => {
            if echo.code == 0 {
                Ok(None)
            } else {
                Ok(Some(Status {
                    code: known_code(echo.code),
                    text: StatusText::copied(alloc, echo.message.as_str())?,
                }))
            }
        }
        None => Ok(None),
    }
}

/// The code with this number; where none has it, UNKNOWN.
fn known_code(number: i32) -> StatusCode
    ensures { result ≡ known_code number }
{
    match u32::try_from(number) {
        Ok(number) => StatusCode::from_number(number).unwrap_or(StatusCode::Unknown),
        Err(_) => StatusCode::Unknown,
    }
}

/// The length that is asked for, if it is answered.
fn size_of(size: i32) -> Option<u32>
    ensures out_of_range { MatchOption result (is_size size ≡ false)
        (λ length. is_size size ≡ true) }
    ensures size { MatchOption result (is_size size ≡ false) (λ length. zeros size ≡ Zeros length) }
{
    if 0 <= size && size <= MAX_SIZE {
        Some(size as u32)
    } else {
        None
    }
}

/// The verdict on a request for several payloads: the replies, or the status that ends the call.
pub(crate) fn judge_output_call(
    alloc: Global,
    bytes: &[u8],
) -> Result<Result<Replies, Status>, MethodFault>
    ensures { IfOk result
        (λ verdict. MatchResult verdict (λ replies. OutputVerdict bytes.now (Ok replies))
        (λ status. OutputVerdict bytes.now (Err status))) }
{
    match read::<StreamingOutputCallRequest>(alloc, bytes)? {
        Some(request) => output_verdict(alloc, &request),
        None => Ok(Err(Refusal::MalformedMessage.status())),
    }
}

/// What a request for several payloads asks for, by the causes in order.
fn output_verdict(
    alloc: Global,
    request: &StreamingOutputCallRequest,
) -> Result<Result<Replies, Status>, MethodFault>
    ensures { IfOk result
        (λ verdict. MatchResult verdict (λ replies. judge_output request.now ≡ Ok replies)
        (λ status. judge_output request.now ≡ Err status)) }
{
    if let Some(status) = asked_status(alloc, &request.response_status)? {
        return Ok(Err(status));
    }
    if request.response_type != 0 {
        return Ok(Err(Refusal::BadResponseType.status()));
    }
    match replies_to(alloc, request.response_parameters.as_slice())? {
        Some(replies) => Ok(Ok(replies)),
        None => Ok(Err(Refusal::BadResponseSize.status())),
    }
}

/// A reply for each of the parameters, or nothing if one asks for a length that isn't answered.
fn replies_to(
    alloc: Global,
    parameters: &[ResponseParameters],
) -> Result<Option<Replies>, MethodFault>
    ensures out_of_range { IfOk result
        (λ found. MatchOption found (all_sizes parameters.now ≡ false)
        (λ replies. all_sizes parameters.now ≡ true)) }
    ensures replies { IfOk result
        (λ found. MatchOption found (all_sizes parameters.now ≡ false)
        (λ replies. replies ≡ map zeros_of parameters.now)) }
{
    let mut replies = Replies::new(alloc);
    for asked in parameters {
        match size_of(asked.size) {
            Some(size) => replies.push(Reply::Zeros(size))?,
            None => return Ok(None),
        }
    }
    Ok(Some(replies))
}

/// The verdict on a request whose body counts: its length, or the status that ends the call.
pub(crate) fn judge_input_call(
    alloc: Global,
    bytes: &[u8],
) -> Result<Result<usize, Status>, MethodFault>
    ensures { IfOk result
        (λ verdict. MatchResult verdict (λ length. InputVerdict bytes.now (Ok length))
        (λ status. InputVerdict bytes.now (Err status))) }
{
    match read::<StreamingInputCallRequest>(alloc, bytes)? {
        Some(request) => Ok(input_verdict(&request)),
        None => Ok(Err(Refusal::MalformedMessage.status())),
    }
}

/// What a request whose body counts adds.
fn input_verdict(request: &StreamingInputCallRequest) -> Result<usize, Status>
    ensures { MatchResult result (λ length. judge_input request.now ≡ Ok length)
        (λ status. judge_input request.now ≡ Err status) }
{
    if is_true(&request.expect_compressed) {
        return Err(Refusal::NotCompressed.status());
    }
    Ok(body_length(&request.payload))
}

/// The length of a body, which is 0 where there is no payload.
fn body_length(payload: &Option<Payload>) -> usize
    ensures { result ≡ body_length payload.now }
{
    match payload {
        Some(payload) => payload.body.as_slice().len(),
        None => 0,
    }
}
