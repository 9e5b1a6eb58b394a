//! The lines of a log: what each says, as text and as JSON.

use crate::call::MethodName;
use crate::cause::Cause;
use crate::json;
use crate::messages::Messages;
use figures::{ByteCount, ErrorName, GroupedNumber};
use h2frame::StreamId;
use std::alloc::{AllocError, Global};
use std::fmt;

/// A line: what happened on a connection, and why.
#[derive(Drop)]
pub struct Line {
    /// 0 is the connection itself.
    pub stream: StreamId,
    pub event: Event,
    pub why: Option<Cause>,
}

/// What happened.
#[derive(Drop)]
pub enum Event {
    /// The connection of this peer was taken.
    Begun(String),
    /// A call of this method begins.
    Opened(MethodName),
    /// A call of this method has ended with this status.
    Answered(MethodName, Status, Traffic),
    /// A stream that is no call was answered.
    Refused(Status),
    /// The client reset the call, with this error.
    Cancelled(MethodName, u32, Traffic),
    /// The server reset the stream, with this error.
    Reset(u32),
    /// The server ended the connection, with this error and this last stream.
    GoAway(u32, StreamId),
    /// The client begins no more calls: the error, the last stream and the debug data of its
    /// GOAWAY.
    ClientGoAway {
        code: u32,
        last: StreamId,
        debug: String,
    },
    /// Nothing came on the call, and nothing was sent on it, for this many seconds.
    Waits(MethodName, u64, CallWait),
    /// The deadline of the call has passed while its replies wait for a window.
    Overdue(MethodName, CallWait),
    /// The connection ended before the call.
    Left(MethodName, Traffic),
    /// The connection has ended in this way, with this many calls. It was followed to its end, or
    /// memory ran out before.
    Ended {
        how: ConnEnding,
        calls: u64,
        is_followed: bool,
    },
}

/// How a connection ended.
#[derive(Clone, Copy, Debug, PartialEq, Eq)]
pub enum ConnEnding {
    Input,
    PeerGoaway,
    ProtocolError,
    ReadFailed,
    WriteFailed,
    OutOfMemory,
    Drained,
}

/// What a stream was answered with.
#[derive(Drop)]
pub enum Status {
    /// A status of gRPC and its text.
    Grpc(u32, String),
    /// A status of HTTP alone.
    Http(u32),
}

/// The messages of a call, both ways.
#[derive(Clone, Copy)]
pub struct Traffic {
    pub requests: Messages,
    pub replies: Messages,
}

/// What a call waits for.
#[derive(Clone, Copy, Debug, PartialEq, Eq)]
pub enum CallWait {
    /// The client's end of the stream, and how many messages came.
    End(u64),
    /// Credit on the stream, whose window is this.
    Stream(i64),
    /// Credit on the connection, whose window is this.
    Connection(i64),
    /// Its method.
    Method,
}

impl CallWait {
    /// Whether it is credit.
    pub fn is_window(self) -> bool {
        matches!(self, CallWait::Stream(_) | CallWait::Connection(_))
    }
}

impl ConnEnding {
    pub fn text(self) -> &'static str {
        match self {
            ConnEnding::Input => "input-ended",
            ConnEnding::PeerGoaway => "goaway",
            ConnEnding::ProtocolError => "protocol-error",
            ConnEnding::ReadFailed => "read-failed",
            ConnEnding::WriteFailed => "write-failed",
            ConnEnding::OutOfMemory => "out-of-memory",
            ConnEnding::Drained => "drained",
        }
    }
}

impl Status {
    /// The text of a status of gRPC.
    pub fn text(&self) -> &str {
        match self {
            Status::Grpc(_, text) => text.as_str(),
            Status::Http(_) => "",
        }
    }
}

impl fmt::Display for Status {
    fn fmt<W: fmt::Write>(&self, f: &mut fmt::Formatter<W>) -> fmt::Result {
        match self {
            Status::Grpc(code, text) if text.is_empty() => write!(f, "status {code}"),
            Status::Grpc(code, text) => write!(f, "status {code} {text:?}"),
            Status::Http(status) => write!(f, "HTTP status {status}"),
        }
    }
}

impl fmt::Display for Traffic {
    fn fmt<W: fmt::Write>(&self, f: &mut fmt::Formatter<W>) -> fmt::Result {
        let (came, took) = (
            GroupedNumber(self.requests.count),
            ByteCount(self.requests.bytes),
        );
        let (went, gave) = (
            GroupedNumber(self.replies.count),
            ByteCount(self.replies.content()),
        );
        write!(f, "in {came} of {took}, out {went} of {gave}")
    }
}

impl fmt::Display for CallWait {
    fn fmt<W: fmt::Write>(&self, f: &mut fmt::Formatter<W>) -> fmt::Result {
        match *self {
            CallWait::End(count) => write!(f, "no END_STREAM, messages so far {count}"),
            CallWait::Stream(window) => write!(f, "window of the stream {window}"),
            CallWait::Connection(window) => write!(f, "window of the connection {window}"),
            CallWait::Method => write!(f, "its method"),
        }
    }
}

impl Line {
    /// Writes it as a line of text, after its time if that is given.
    pub fn write_text(
        &self,
        text: &mut String,
        connection: u64,
        time: Option<&str>,
    ) -> Result<(), AllocError> {
        if let Some(time) = time {
            write!(text, "{time} ")?;
        }
        write!(text, "conn {connection} ")?;
        write_event(text, self.stream, &self.event)?;
        if let Some(cause) = &self.why {
            write!(text, ": {cause}")?;
        }
        writeln!(text)
    }

    /// Writes it as a line with one object of JSON. Its time is a JSON value.
    pub fn write_json(
        &self,
        alloc: Global,
        text: &mut String,
        connection: u64,
        time: &str,
    ) -> Result<(), AllocError> {
        json::begin(text, time)?;
        json::number(text, "conn", connection)?;
        if self.stream != 0 {
            json::number(text, "stream", u64::from(self.stream))?;
        }
        write_members(alloc, text, &self.event)?;
        if let Some(cause) = &self.why {
            let why = format!(in alloc; "{cause}")?;
            json::string(alloc, text, "why", why.as_str())?;
        }
        json::end(text)
    }
}

/// What a line says of an event.
fn write_event(text: &mut String, stream: StreamId, event: &Event) -> Result<(), AllocError> {
    match event {
        Event::Begun(peer) => write!(text, "from {peer}"),
        Event::Opened(method) => {
            let method = method.text();
            write!(text, "call {stream} {method} begins")
        }
        Event::Answered(method, status, traffic) => {
            let method = method.text();
            write!(text, "call {stream} {method} {status}, {traffic}")
        }
        Event::Refused(status) => write!(text, "stream {stream} refused, {status}"),
        Event::Cancelled(method, code, traffic) => {
            let (method, error) = (method.text(), ErrorName(*code));
            write!(
                text,
                "call {stream} {method} reset by the client, {code} {error}, {traffic}"
            )
        }
        Event::Reset(code) => {
            let error = ErrorName(*code);
            write!(text, "stream {stream} reset by the server, {code} {error}")
        }
        Event::GoAway(code, last) => {
            let error = ErrorName(*code);
            write!(text, "GOAWAY {code} {error}")?;
            // (a drain sends two, which differ by that)
            if *code == 0 {
                write!(text, ", last stream {last}")?;
            }
            Ok(())
        }
        Event::ClientGoAway { code, last, debug } => {
            let error = ErrorName(*code);
            write!(
                text,
                "GOAWAY of the client, {code} {error}, last stream {last}, debug data \"{debug}\""
            )
        }
        Event::Overdue(method, waiting) => {
            let method = method.text();
            write!(
                text,
                "call {stream} {method}: its deadline has passed, and its replies wait: {waiting}"
            )
        }
        Event::Waits(method, seconds, waiting) => {
            let method = method.text();
            write!(text, "call {stream} {method} waits {seconds} s: {waiting}")
        }
        Event::Left(method, traffic) => {
            let method = method.text();
            write!(text, "call {stream} {method} left, {traffic}")
        }
        Event::Ended {
            how,
            calls,
            is_followed,
        } => write_end(text, *how, *calls, *is_followed),
    }
}

fn write_end(
    text: &mut String,
    how: ConnEnding,
    calls: u64,
    is_followed: bool,
) -> Result<(), AllocError> {
    let how = how.text();
    let lost = if is_followed {
        ""
    } else {
        ", not followed for want of memory"
    };
    write!(text, "ended, {how}, calls {calls}{lost}")
}

/// The members of an object that tell an event.
fn write_members(alloc: Global, text: &mut String, event: &Event) -> Result<(), AllocError> {
    json::string(alloc, text, "event", name_of(event))?;
    match event {
        Event::Begun(peer) => json::string(alloc, text, "peer", peer.as_str()),
        Event::Opened(method) => write_method(alloc, text, *method),
        Event::Answered(method, status, traffic) => {
            write_method(alloc, text, *method)?;
            write_status(alloc, text, status)?;
            write_traffic(text, traffic)
        }
        Event::Refused(status) => write_status(alloc, text, status),
        Event::Cancelled(method, code, traffic) => {
            json::string(alloc, text, "by", "client")?;
            write_method(alloc, text, *method)?;
            json::number(text, "code", u64::from(*code))?;
            write_traffic(text, traffic)
        }
        Event::Reset(code) => {
            json::string(alloc, text, "by", "server")?;
            json::number(text, "code", u64::from(*code))
        }
        Event::GoAway(code, last) => {
            json::string(alloc, text, "by", "server")?;
            json::number(text, "code", u64::from(*code))?;
            json::number(text, "last", u64::from(*last))
        }
        Event::ClientGoAway { code, last, debug } => {
            json::string(alloc, text, "by", "client")?;
            json::number(text, "code", u64::from(*code))?;
            json::number(text, "last", u64::from(*last))?;
            json::string(alloc, text, "debug", debug.as_str())
        }
        Event::Waits(method, seconds, waiting) => {
            write_method(alloc, text, *method)?;
            json::number(text, "seconds", *seconds)?;
            write_waiting(alloc, text, *waiting)
        }
        Event::Overdue(method, waiting) => {
            write_method(alloc, text, *method)?;
            write_waiting(alloc, text, *waiting)
        }
        Event::Left(method, traffic) => {
            write_method(alloc, text, *method)?;
            write_traffic(text, traffic)
        }
        Event::Ended {
            how,
            calls,
            is_followed,
        } => {
            json::string(alloc, text, "how", how.text())?;
            json::number(text, "calls", *calls)?;
            json::flag(text, "followed", *is_followed)
        }
    }
}

/// The name of an event in an object.
fn name_of(event: &Event) -> &'static str {
    match event {
        Event::Begun(_) => "begun",
        Event::Opened(_) => "opened",
        Event::Answered(..) => "call",
        Event::Refused(_) => "refused",
        Event::Cancelled(..) | Event::Reset(_) => "reset",
        Event::GoAway(..) | Event::ClientGoAway { .. } => "goaway",
        Event::Waits(..) => "waits",
        Event::Overdue(..) => "overdue",
        Event::Left(..) => "left",
        Event::Ended { .. } => "ended",
    }
}

fn write_waiting(alloc: Global, text: &mut String, waiting: CallWait) -> Result<(), AllocError> {
    let waiting = format!(in alloc; "{waiting}")?;
    json::string(alloc, text, "for", waiting.as_str())
}

fn write_method(alloc: Global, text: &mut String, method: MethodName) -> Result<(), AllocError> {
    json::string(alloc, text, "method", method.text())
}

fn write_status(alloc: Global, text: &mut String, status: &Status) -> Result<(), AllocError> {
    match status {
        Status::Grpc(code, message) => {
            json::number(text, "status", u64::from(*code))?;
            json::string(alloc, text, "message", message.as_str())
        }
        Status::Http(status) => json::number(text, "http", u64::from(*status)),
    }
}

fn write_traffic(text: &mut String, traffic: &Traffic) -> Result<(), AllocError> {
    let Traffic { requests, replies } = traffic;
    json::number(text, "in", requests.count)?;
    json::number(text, "in_bytes", requests.bytes)?;
    json::number(text, "out", replies.count)?;
    json::number(text, "out_bytes", replies.content())
}
