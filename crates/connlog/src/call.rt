//! What is known of a call that goes on.

ghost use Rattle.std.specs.Prelude.{◌≡◌, take, drop, codes, IfSome};
ghost use Rattle.connlog.specs.Methods.{name_of};

use crate::cause::{CallCause, Cause, HeadCause};
use crate::malformed::{MalformedMessage, fault_of_request};
use crate::messages::Messages;
use crate::text::escaped;
use callhead::{first_value, read_timeout};
use lists::Field;
use std::alloc::{AllocError, Global};

/// The beginning of the methods' paths.
const SERVICE: &[u8] = b"/grpc.testing.TestService/";

/// How much memory for requests is kept between two of them, in bytes.
const MOST_SPARE: usize = 4_096;

/// The nanoseconds of a second.
const SECOND: u128 = 1_000_000_000;

/// A method of the test service.
#[derive(Clone, Copy, Debug, PartialEq, Eq)]
pub enum MethodName {
    EmptyCall,
    UnaryCall,
    CacheableUnaryCall,
    StreamingOutputCall,
    StreamingInputCall,
    FullDuplexCall,
    HalfDuplexCall,
}

impl MethodName {
    pub const ALL: [MethodName; 7] = [
        MethodName::EmptyCall,
        MethodName::UnaryCall,
        MethodName::CacheableUnaryCall,
        MethodName::StreamingOutputCall,
        MethodName::StreamingInputCall,
        MethodName::FullDuplexCall,
        MethodName::HalfDuplexCall,
    ];

    pub fn text(self) -> &'static str
        ensures { result.now ≡ name_of self }
    {
        match self {
            MethodName::EmptyCall => "EmptyCall",
            MethodName::UnaryCall => "UnaryCall",
            MethodName::CacheableUnaryCall => "CacheableUnaryCall",
            MethodName::StreamingOutputCall => "StreamingOutputCall",
            MethodName::StreamingInputCall => "StreamingInputCall",
            MethodName::FullDuplexCall => "FullDuplexCall",
            MethodName::HalfDuplexCall => "HalfDuplexCall",
        }
    }

    /// The method of a path.
    fn of(path: &[u8]) -> Option<MethodName>
        ensures service { IfSome result
            (λ _. take 26 path.now ≡ codes "/grpc.testing.TestService/") }
        ensures name { IfSome result (λ method. drop 26 path.now ≡ name_of method) }
    {
        let (service, name) = path.split_at_checked(SERVICE.len())?;
        if service != SERVICE {
            return None;
        }
        MethodName::named(name)
    }

    /// The method of this name.
    fn named(name: &[u8]) -> Option<MethodName>
        ensures { IfSome result (λ method. name.now ≡ name_of method) }
    {
        for method in MethodName::ALL {
            if method.text().as_bytes() == name {
                return Some(method);
            }
        }
        None
    }
}

/// A stream that the client began.
#[derive(Drop)]
pub struct Call {
    /// Its method, if it is a call of one.
    pub method: Option<MethodName>,
    /// Why it is refused, if it is.
    pub refusal: Option<HeadCause>,
    pub requests: Messages,
    pub replies: Messages,
    /// Whether the client ended its half, and whether the server ended its own.
    pub has_end: bool,
    pub is_answered: bool,
    /// How many bytes of DATA the client may send.
    pub came: i64,
    /// The credit that it gave the server on the stream, less the DATA that came back.
    pub credit: i64,
    /// At which tick something was last sent on it, by either side.
    pub heard: u64,
    encoding: Option<String>,
    timeout: Option<String>,
    /// How many seconds after its begin the call ends, if it does, rounded up; until a line says
    /// that they have passed.
    pub deadline: Option<u64>,
    /// At which tick it began.
    begun: u64,
    /// What came of a request that isn't whole.
    kept: Vec<u8>,
    /// What is wrong with the first request that is malformed.
    malformed: Option<MalformedMessage>,
}

impl Call {
    /// The call that the fields which open a stream begin, if they are a request. They are judged
    /// in the server's order.
    pub fn begin(alloc: Global, fields: &[Field], now: u64) -> Result<Call, AllocError> {
        let path = first_value(fields, b":path").unwrap_or(b"".as_slice());
        let method = MethodName::of(path);
        let refusal = match head_fault(alloc, fields)? {
            None if method.is_none() => Some(HeadCause::Path(escaped(alloc, path)?)),
            fault => fault,
        };
        let method = if refusal.is_some() { None } else { method };
        Ok(Call {
            refusal,
            encoding: value_of(alloc, fields, b"grpc-encoding")?,
            timeout: value_of(alloc, fields, b"grpc-timeout")?,
            deadline: deadline_of(fields),
            ..Call::new(alloc, method, now)
        })
    }

    /// The call that a head begins which says no more than its method.
    pub fn plain(alloc: Global, method: MethodName, now: u64) -> Call {
        Call::new(alloc, Some(method), now)
    }

    /// The method, if the head said no more.
    pub fn plain_method(&self) -> Option<MethodName> {
        if self.encoding.is_some() || self.timeout.is_some() {
            return None;
        }
        self.method
    }

    fn new(alloc: Global, method: Option<MethodName>, now: u64) -> Call {
        Call {
            method,
            refusal: None,
            requests: Messages::NONE,
            replies: Messages::NONE,
            has_end: false,
            is_answered: false,
            came: 65_535,
            credit: 0,
            heard: now,
            encoding: None,
            timeout: None,
            deadline: None,
            begun: now,
            kept: Vec::new(alloc),
            malformed: None,
        }
    }

    /// The client sends these bytes of DATA. Each request is looked at once it is whole.
    pub fn request(&mut self, alloc: Global, bytes: &[u8]) -> Result<(), AllocError> {
        let mut rest = bytes;
        for _ in 0..bytes.len() {
            let count = self.requests.count;
            let (content, behind) = self.requests.step(rest);
            if self.malformed.is_none() {
                self.kept.extend_from_slice(content)?;
            }
            if self.requests.count > count {
                self.look(alloc)?;
            }
            if behind.is_empty() {
                return Ok(());
            }
            rest = behind;
        }
        Ok(())
    }

    /// Looks at a request that is whole, unless one before it was malformed.
    fn look(&mut self, alloc: Global) -> Result<(), AllocError> {
        if let (Some(method), None) = (self.method, self.malformed) {
            let count = self.requests.count;
            self.malformed = fault_of_request(alloc, method, count, self.kept.as_slice())?;
        }
        if self.kept.capacity() > MOST_SPARE {
            self.kept = Vec::new(alloc);
        } else {
            self.kept.clear();
        }
        Ok(())
    }

    /// Whether its deadline has passed by this tick, so that a line is due. It answers so once.
    pub fn has_passed(&mut self, now: u64) -> bool {
        let Some(deadline) = self.deadline else {
            return false;
        };
        let has_passed = now > self.begun.saturating_add(deadline);
        if has_passed {
            self.deadline = None;
        }
        has_passed
    }

    /// Why it ends, by its status's text. It answers this once.
    pub fn why(&mut self, text: &str) -> Option<Cause> {
        if let Some(refusal) = self.refusal.take() {
            return Some(Cause::Head(refusal));
        }
        let cause = match text {
            "deadline exceeded" => CallCause::Deadline(self.timeout.take()?),
            "message cut at end" => CallCause::Cut(self.requests.cut()?),
            "wrong number of messages" => CallCause::Count(self.requests.count),
            "malformed message" => CallCause::Malformed(self.malformed?),
            "bad flag"
            | "compressed without encoding"
            | "unsupported encoding"
            | "message too long" => {
                CallCause::Prefix(self.requests.fault?, self.encoding.take())
            }
            _ => return None,
        };
        Some(Cause::Call(cause))
    }
}

/// Why the fields of a request are not the head of a call (gRPC over HTTP/2, "Requests").
fn head_fault(alloc: Global, fields: &[Field]) -> Result<Option<HeadCause>, AllocError> {
    let method = first_value(fields, b":method").unwrap_or(b"".as_slice());
    if method != b"POST".as_slice() {
        return Ok(Some(HeadCause::Method(escaped(alloc, method)?)));
    }
    let content_type = first_value(fields, b"content-type");
    let is_grpc = match content_type {
        Some(value) => value.starts_with(b"application/grpc"),
        None => false,
    };
    if !is_grpc {
        return Ok(Some(HeadCause::ContentType(value_of(alloc, fields, b"content-type")?)));
    }
    match first_value(fields, b"grpc-timeout") {
        Some(text) if read_timeout(text).is_none() => {
            Ok(Some(HeadCause::Timeout(escaped(alloc, text)?)))
        }
        _ => Ok(None),
    }
}

/// The front of the value of the first field with this name.
fn value_of(alloc: Global, fields: &[Field], name: &[u8]) -> Result<Option<String>, AllocError> {
    match first_value(fields, name) {
        Some(value) => Ok(Some(escaped(alloc, value)?)),
        None => Ok(None),
    }
}

/// How many seconds the call may take, rounded up, if it says so.
fn deadline_of(fields: &[Field]) -> Option<u64> {
    let nanoseconds = read_timeout(first_value(fields, b"grpc-timeout")?)?;
    u64::try_from(nanoseconds / SECOND).ok()?.checked_add(1)
}
