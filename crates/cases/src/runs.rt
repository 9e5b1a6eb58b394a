//! The cases (gRPC, "Interoperability Test Case Descriptions").

ghost use Rattle.std.specs.Prelude.{◌≡◌, ◌<◌, ◌^◌, Err, IsErrAnd};
ghost use Rattle.cases.specs.Names.{IsNoName};
ghost use Rattle.cases.specs.declared.fault.CaseFault.TheVariants.{UnknownCase};

use crate::call::Call;
use crate::case::Case;
use crate::connection::{CANCEL, Connection};
use crate::credit::Windows;
use crate::expect::{
    expect_bodies, expect_body, expect_count, expect_echoes, expect_empty, expect_response,
    expect_status, expect_sum,
};
use crate::failure::Failure;
use crate::fault::Fault;
use crate::line::Line;
use crate::method::{HeadExtra, Method};
use crate::mismatch::{ReplyFault, WantedStatus};
use crate::request::{
    AskedStatus, input_request, output_request, simple_request, simple_request_of,
};
use bytes::Bytes;
use h2frame::StreamId;
use std::alloc::Global;

/// The streams of a case's calls.
const FIRST: StreamId = 1;

const SECOND: StreamId = 3;

/// The lengths of large_unary.
const LARGE_BODY: usize = 271_828;

const LARGE_SIZE: i32 = 314_159;

const LARGE_REPLY: usize = 314_159;

/// The statuses that calls end with (gRPC, "Status codes and their use in gRPC").
const OK: WantedStatus = WantedStatus {
    code: 0,
    text: None,
};

const DEADLINE_EXCEEDED: WantedStatus = WantedStatus {
    code: 4,
    text: None,
};

const UNIMPLEMENTED: WantedStatus = WantedStatus {
    code: 12,
    text: None,
};

const PLAIN: AskedStatus = AskedStatus {
    code: 2,
    text: "test status message",
};

const SPECIAL: AskedStatus = AskedStatus {
    code: 2,
    text: "\t\ntest with whitespace\r\nand Unicode BMP \u{263a} and non-BMP \u{1f608}\t\n",
};

/// How many milliseconds a server has for ending a call whose deadline is over.
const GRACE: u64 = 1_000;

/// Runs the case with this name over a connection on which nothing was said. It ends once the
/// device's time is over, if not before.
pub fn run_case<S: Line + Drop>(
    alloc: Global,
    name: &str,
    device: S,
    windows: Windows,
) -> Result<(), Failure>
    ensures unknown { IsNoName name.now
        → IsErrAnd result (λ failure. failure.fault ≡ UnknownCase) }
{
    match try_named(alloc, name, device, windows) {
        Ok(()) => Ok(()),
        Err(fault) => Err(Failure::of(alloc, &fault)),
    }
}

/// Runs the case with this name, if there is one.
fn try_named<S: Line + Drop>(
    alloc: Global,
    name: &str,
    device: S,
    windows: Windows,
) -> Result<(), Fault>
    ensures unknown { IsNoName name.now → result ≡ Err Fault.UnknownCase }
{
    let Some(case) = Case::named(name) else {
        return Err(Fault::UnknownCase);
    };
    let mut connection = Connection::new(alloc, device, windows);
    let answer = run(&mut connection, case);
    explain(&mut connection, answer)
}

/// What a run came to: where a write failed, what the server said before goes first.
pub fn explain<S: Line>(
    connection: &mut Connection<S>,
    answer: Result<(), Fault>,
) -> Result<(), Fault> {
    match answer {
        Err(Fault::Silence(silence)) if silence.is_unwritten() => {
            Err(connection.cause_of(silence))
        }
        answer => answer,
    }
}

/// Runs a case, and reads on for a short while after it.
fn run<S: Line>(connection: &mut Connection<S>, case: Case) -> Result<(), Fault> {
    connection.greet()?;
    run_calls(connection, case)?;
    connection.finish()
}

fn run_calls<S: Line>(connection: &mut Connection<S>, case: Case) -> Result<(), Fault> {
    match case {
        Case::EmptyUnary => empty_unary(connection),
        Case::LargeUnary => large_unary(connection),
        Case::ClientStreaming => client_streaming(connection),
        Case::ServerStreaming => server_streaming(connection),
        Case::PingPong => ping_pong(connection),
        Case::EmptyStream => empty_stream(connection),
        Case::CustomMetadata => custom_metadata(connection),
        Case::StatusCodeAndMessage => status_code_and_message(connection),
        Case::SpecialStatusMessage => ask_status(connection, FIRST, SPECIAL),
        Case::UnimplementedMethod => unimplemented(connection, Method::UnimplementedCall),
        Case::UnimplementedService => unimplemented(connection, Method::UnimplementedService),
        Case::CancelAfterBegin => cancel_after_begin(connection),
        Case::CancelAfterFirstResponse => cancel_after_first_response(connection),
        Case::TimeoutOnSleepingServer => timeout_on_sleeping_server(connection),
        Case::CacheableUnary => cacheable_unary(connection),
    }
}

/// A call with one message, and what it is answered.
fn ask<S: Line>(
    connection: &mut Connection<S>,
    method: Method,
    request: &[u8],
) -> Result<(Call, Vec<Bytes>), Fault> {
    let mut call = Call::begin(connection, FIRST, method, HeadExtra::Nothing)?;
    call.send(connection, request, true)?;
    let replies = call.replies(connection)?;
    Ok((call, replies))
}

fn empty_unary<S: Line>(connection: &mut Connection<S>) -> Result<(), Fault> {
    let alloc = connection.alloc;
    let (call, replies) = ask(connection, Method::EmptyCall, &[])?;
    expect_status(alloc, &call, OK)?;
    expect_empty(replies.as_slice())
}

fn large_unary<S: Line>(connection: &mut Connection<S>) -> Result<(), Fault> {
    let alloc = connection.alloc;
    let request = simple_request(alloc, LARGE_SIZE, LARGE_BODY, None)?;
    let (call, replies) = ask(connection, Method::UnaryCall, request.as_slice())?;
    expect_status(alloc, &call, OK)?;
    expect_bodies(alloc, replies.as_slice(), &[LARGE_REPLY])
}

fn client_streaming<S: Line>(connection: &mut Connection<S>) -> Result<(), Fault> {
    let alloc = connection.alloc;
    let mut call = Call::begin(
        connection,
        FIRST,
        Method::StreamingInputCall,
        HeadExtra::Nothing,
    )?;
    for body_len in [27_182_usize, 8, 1_828, 45_904] {
        let request = input_request(alloc, body_len)?;
        call.send(connection, request.as_slice(), false)?;
    }
    call.half_close(connection)?;
    let replies = call.replies(connection)?;
    expect_status(alloc, &call, OK)?;
    expect_sum(alloc, replies.as_slice(), 74_922)
}

fn server_streaming<S: Line>(connection: &mut Connection<S>) -> Result<(), Fault> {
    let alloc = connection.alloc;
    let request = output_request(alloc, &[31_415, 9, 2_653, 58_979], 0, None)?;
    let (call, replies) = ask(connection, Method::StreamingOutputCall, request.as_slice())?;
    expect_status(alloc, &call, OK)?;
    expect_bodies(alloc, replies.as_slice(), &[31_415, 9, 2_653, 58_979])
}

/// Sends a request for one reply of this size, and reads the reply.
fn exchange<S: Line>(
    connection: &mut Connection<S>,
    call: &mut Call,
    size: i32,
    reply_len: usize,
    body_len: usize,
) -> Result<(), Fault> {
    let alloc = connection.alloc;
    let request = output_request(alloc, &[size], body_len, None)?;
    call.send(connection, request.as_slice(), false)?;
    let Some(reply) = call.reply(connection)? else {
        return Err(Fault::Reply(ReplyFault::Ended {
            reply: call.count.saturating_add(1),
        }));
    };
    expect_body(alloc, call.count, &reply, reply_len)
}

/// Half-closes, and expects no further reply.
fn finish<S: Line>(connection: &mut Connection<S>, call: &mut Call) -> Result<(), Fault> {
    let alloc = connection.alloc;
    call.half_close(connection)?;
    let replies = call.replies(connection)?;
    expect_status(alloc, call, OK)?;
    expect_count(replies.as_slice(), 0)
}

fn ping_pong<S: Line>(connection: &mut Connection<S>) -> Result<(), Fault> {
    let mut call = Call::begin(
        connection,
        FIRST,
        Method::FullDuplexCall,
        HeadExtra::Nothing,
    )?;
    exchange(connection, &mut call, 31_415, 31_415, 27_182)?;
    exchange(connection, &mut call, 9, 9, 8)?;
    exchange(connection, &mut call, 2_653, 2_653, 1_828)?;
    exchange(connection, &mut call, 58_979, 58_979, 45_904)?;
    finish(connection, &mut call)
}

fn empty_stream<S: Line>(connection: &mut Connection<S>) -> Result<(), Fault> {
    let mut call = Call::begin(
        connection,
        FIRST,
        Method::FullDuplexCall,
        HeadExtra::Nothing,
    )?;
    finish(connection, &mut call)
}

fn custom_metadata<S: Line>(connection: &mut Connection<S>) -> Result<(), Fault> {
    let alloc = connection.alloc;
    let mut unary = Call::begin(connection, FIRST, Method::UnaryCall, HeadExtra::Echoes)?;
    let request = simple_request(alloc, LARGE_SIZE, LARGE_BODY, None)?;
    unary.send(connection, request.as_slice(), true)?;
    let replies = unary.replies(connection)?;
    expect_status(alloc, &unary, OK)?;
    expect_bodies(alloc, replies.as_slice(), &[LARGE_REPLY])?;
    expect_echoes(alloc, &unary)?;
    duplex_metadata(connection)
}

/// The second call of custom_metadata.
fn duplex_metadata<S: Line>(connection: &mut Connection<S>) -> Result<(), Fault> {
    let alloc = connection.alloc;
    let mut call = Call::begin(
        connection,
        SECOND,
        Method::FullDuplexCall,
        HeadExtra::Echoes,
    )?;
    exchange(connection, &mut call, LARGE_SIZE, LARGE_REPLY, LARGE_BODY)?;
    finish(connection, &mut call)?;
    expect_echoes(alloc, &call)
}

/// UnaryCall ends with the status that it was asked for.
fn ask_status<S: Line>(
    connection: &mut Connection<S>,
    stream: StreamId,
    status: AskedStatus,
) -> Result<(), Fault>
    requires some { 0 < stream }
    requires within { stream < 2 ^ 31 }
{
    let alloc = connection.alloc;
    let mut call = Call::begin(connection, stream, Method::UnaryCall, HeadExtra::Nothing)?;
    let request = simple_request(alloc, 0, 0, Some(status))?;
    call.send(connection, request.as_slice(), true)?;
    let _replies = call.replies(connection)?;
    expect_status(alloc, &call, status.wanted())
}

fn status_code_and_message<S: Line>(connection: &mut Connection<S>) -> Result<(), Fault> {
    ask_status(connection, FIRST, PLAIN)?;
    let alloc = connection.alloc;
    let mut call = Call::begin(
        connection,
        SECOND,
        Method::FullDuplexCall,
        HeadExtra::Nothing,
    )?;
    let request = output_request(alloc, &[], 0, Some(PLAIN))?;
    call.send(connection, request.as_slice(), true)?;
    let _replies = call.replies(connection)?;
    expect_status(alloc, &call, PLAIN.wanted())
}

fn unimplemented<S: Line>(connection: &mut Connection<S>, method: Method) -> Result<(), Fault> {
    let alloc = connection.alloc;
    let (call, _replies) = ask(connection, method, &[])?;
    expect_status(alloc, &call, UNIMPLEMENTED)
}

/// The client's own status of what it cancelled is CANCELLED: what is to be seen is that the server
/// goes on.
fn cancel_after_begin<S: Line>(connection: &mut Connection<S>) -> Result<(), Fault> {
    let call = Call::begin(
        connection,
        FIRST,
        Method::StreamingInputCall,
        HeadExtra::Nothing,
    )?;
    call.cancel(connection)
}

fn cancel_after_first_response<S: Line>(connection: &mut Connection<S>) -> Result<(), Fault> {
    let mut call = Call::begin(
        connection,
        FIRST,
        Method::FullDuplexCall,
        HeadExtra::Nothing,
    )?;
    exchange(connection, &mut call, 31_415, 31_415, 27_182)?;
    call.cancel(connection)
}

/// A server may end such a call by a status or by cancelling it, and either means that its time is
/// over. No sentence has it end the call at all: a client's own clock does. So a call that the
/// server lets stand is left, as a client leaves it.
fn timeout_on_sleeping_server<S: Line>(connection: &mut Connection<S>) -> Result<(), Fault> {
    let alloc = connection.alloc;
    let mut call = Call::begin(
        connection,
        FIRST,
        Method::FullDuplexCall,
        HeadExtra::OneMillisecond,
    )?;
    let request = output_request(alloc, &[], 27_182, None)?;
    call.send(connection, request.as_slice(), false)?;
    if !call.ends_within(connection, GRACE)? {
        return call.cancel(connection);
    }
    let replies = call.replies(connection)?;
    expect_count(replies.as_slice(), 0)?;
    if call.reset == Some(CANCEL) {
        return Ok(());
    }
    expect_status(alloc, &call, DEADLINE_EXCEEDED)?;
    call.leave(connection)
}

/// Two calls with one request, which has only the time, in nanoseconds. That both bodies are equal
/// is up to a proxy that caches (gRPC's clients send GET for it), not to a server.
fn cacheable_unary<S: Line>(connection: &mut Connection<S>) -> Result<(), Fault> {
    let alloc = connection.alloc;
    let now = connection.timestamp();
    let body = format!(in alloc; "{now}")?;
    let request = simple_request_of(alloc, 0, body.as_bytes(), None)?;
    for stream in [FIRST, SECOND] {
        let mut call = Call::begin(
            connection,
            stream,
            Method::CacheableUnaryCall,
            HeadExtra::UserAddress,
        )?;
        call.send(connection, request.as_slice(), true)?;
        let replies = call.replies(connection)?;
        expect_status(alloc, &call, OK)?;
        expect_response(alloc, replies.as_slice())?;
    }
    Ok(())
}
