//! What `interop serve --report` prints: a line for each call once it was settled, and at last one
//! for its connection.

ghost use Rattle.std.specs.Prelude.{◌≡◌, ◌-◌, false, true, min};

use crate::log::ended_of;
use crate::stopping::Connection;
use crate::stream::EndedConn;
use account::{RequestEnd, Shut};
use connection::CallAccount;
use connlog::json;
use handlers::Methods;
use std::alloc::{AllocError, Global};
use std::net::SocketAddr;

/// The line of a connection of this peer that ended in this way. Its bytes are in the file, if
/// there is one.
pub fn connection_line(
    alloc: Global,
    peer: SocketAddr,
    ended: &EndedConn,
    file: &Option<String>,
) -> Result<String, AllocError> {
    let mut text = String::new(alloc);
    let how = ended_of(ended.ending).text();
    let count = ended.calls;
    write!(text, "connection {peer} {how} calls {count}")?;
    if let Some(file) = file {
        write!(text, " record {file}")?;
    }
    text.push('\n')?;
    Ok(text)
}

/// The line of a call on a connection of this peer: its stream and method, what it was fed, the
/// messages and bytes that came in and went out, how many items were given and sent, and how it
/// ended.
pub fn call_line(
    alloc: Global,
    peer: SocketAddr,
    methods: &Methods,
    call: &CallAccount,
) -> Result<String, AllocError> {
    let mut text = String::new(alloc);
    let (id, path) = (call.id, path_of(methods, call));
    write!(text, "call {peer} {id:>10} {path:<46} ")?;
    tell_half(&mut text, call)?;
    tell_traffic(&mut text, call)?;
    tell_sent(&mut text, call)?;
    match (call.input.told, call.status) {
        (Some(RequestEnd::Reset(code)), _) => writeln!(text, "reset {code}")?,
        (_, Some(status)) => writeln!(text, "status {status}")?,
        (_, None) => writeln!(text, "left")?,
    }
    Ok(text)
}

/// Writes how many bytes of its DATA the call was fed, and how its client's half was shut.
fn tell_half(text: &mut String, call: &CallAccount) -> Result<(), AllocError> {
    let fed = call.input.fed;
    match call.input.shut {
        Some(Shut::End) => write!(text, "fed {fed:>12} end "),
        Some(Shut::Reset(code)) => write!(text, "fed {fed:>12} reset {code} "),
        None => write!(text, "fed {fed:>12} open "),
    }
}

/// Writes the messages and bytes that came in and went out.
fn tell_traffic(text: &mut String, call: &CallAccount) -> Result<(), AllocError> {
    let (messages, bytes) = (call.input.taken, call.traffic.bytes);
    let (replies, reply_bytes) = (call.traffic.replies, call.traffic.reply_bytes);
    write!(
        text,
        "in {messages:>8} {bytes:>12} out {replies:>8} {reply_bytes:>12} "
    )
}

/// Writes how many items the call was given, how many of them were sent, and how far its trailers
/// came.
fn tell_sent(text: &mut String, call: &CallAccount) -> Result<(), AllocError> {
    let (given, sent) = items_of(call);
    let trailers = trailers_of(call);
    write!(
        text,
        "given {given:>8} sent {sent:>8} trailers {trailers:<5} "
    )
}

/// The report of a connection as a JSON object. Its time is a JSON value.
pub fn connection_object(
    alloc: Global,
    time: &str,
    connection: Connection,
    ended: &EndedConn,
    file: &Option<String>,
) -> Result<String, AllocError> {
    let Connection { number, peer } = connection;
    let mut text = String::new(alloc);
    json::begin(&mut text, time)?;
    json::number(&mut text, "conn", number)?;
    json::string(alloc, &mut text, "event", "connection")?;
    let peer = format!(in alloc; "{peer}")?;
    json::string(alloc, &mut text, "peer", peer.as_str())?;
    json::string(alloc, &mut text, "how", ended_of(ended.ending).text())?;
    json::number(&mut text, "calls", ended.calls as u64)?;
    if let Some(file) = file {
        json::string(alloc, &mut text, "record", file.as_str())?;
    }
    json::end(&mut text)?;
    Ok(text)
}

/// The report of a call on the connection of this number as a JSON object.
pub fn call_object(
    alloc: Global,
    time: &str,
    number: u64,
    methods: &Methods,
    call: &CallAccount,
) -> Result<String, AllocError> {
    let mut text = String::new(alloc);
    json::begin(&mut text, time)?;
    json::number(&mut text, "conn", number)?;
    json::number(&mut text, "stream", u64::from(call.id))?;
    json::string(alloc, &mut text, "event", "report")?;
    let path = path_of(methods, call);
    let name = match path.rsplit_once('/') {
        Some((_, name)) => name,
        None => path,
    };
    json::string(alloc, &mut text, "method", name)?;
    write_half(alloc, &mut text, call)?;
    write_traffic(alloc, &mut text, call)?;
    match (call.input.told, call.status) {
        (Some(RequestEnd::Reset(code)), _) => json::number(&mut text, "code", u64::from(code))?,
        (_, Some(status)) => json::number(&mut text, "status", u64::from(status))?,
        (_, None) => json::flag(&mut text, "left", true)?,
    }
    json::end(&mut text)?;
    Ok(text)
}

/// The members for what the call was fed, and how its client's half was shut.
fn write_half(alloc: Global, text: &mut String, call: &CallAccount) -> Result<(), AllocError> {
    json::number(text, "fed", call.input.fed)?;
    match call.input.shut {
        Some(Shut::End) => json::string(alloc, text, "half", "end"),
        Some(Shut::Reset(code)) => {
            json::string(alloc, text, "half", "reset")?;
            json::number(text, "half_code", u64::from(code))
        }
        None => json::string(alloc, text, "half", "open"),
    }
}

/// The members for what came in and went out.
fn write_traffic(alloc: Global, text: &mut String, call: &CallAccount) -> Result<(), AllocError> {
    let (given, sent) = items_of(call);
    json::number(text, "in", call.input.taken)?;
    json::number(text, "in_bytes", call.traffic.bytes)?;
    json::number(text, "out", call.traffic.replies)?;
    json::number(text, "out_bytes", call.traffic.reply_bytes)?;
    json::number(text, "given", given)?;
    json::number(text, "sent", sent)?;
    json::string(alloc, text, "trailers", trailers_of(call))
}

/// The path of the method that was called.
fn path_of<'m>(methods: &'m Methods, call: &CallAccount) -> &'m str {
    match methods.get(call.method) {
        Some(method) => method.path(),
        None => "-",
    }
}

/// How many items the call was given, and how many of them were sent. Without trailers the last
/// item is that the call was left, which doesn't count.
fn items_of(call: &CallAccount) -> (u64, u64)
    ensures all { call.now.output.trailers_given ≡ true
        → result ≡ (call.now.output.given, call.now.output.sent) }
    ensures given { call.now.output.trailers_given ≡ false
        → result.0 ≡ call.now.output.given - 1 }
    ensures sent { call.now.output.trailers_given ≡ false
        → result.1 ≡ min call.now.output.sent (call.now.output.given - 1) }
{
    let (given, sent) = (call.output.given, call.output.sent);
    if call.output.trailers_given {
        return (given, sent);
    }
    let given = given.saturating_sub(1);
    (given, sent.min(given))
}

/// How far the trailers of a call came.
fn trailers_of(call: &CallAccount) -> &'static str {
    match (call.output.trailers_given, call.output.trailers_sent) {
        (_, true) => "sent",
        (true, false) => "given",
        (false, false) => "none",
    }
}
