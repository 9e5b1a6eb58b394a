//! Why the bytes of a request aren't a message of its type (Protocol Buffers, the encoding guide).

use crate::call::MethodName;
use pbwire::{FieldValue, Fields, WireFault};
use std::alloc::{AllocError, Global};
use std::{fmt, str};

/// What is wrong with a message, and where.
#[derive(Clone, Copy, Debug, PartialEq, Eq)]
pub struct MalformedMessage {
    /// Which message of the call it is, from 1 on.
    pub message: u64,
    /// The field of an embedded message in which it is; 0 is the message itself.
    pub inside: u32,
    /// How many whole fields come before it there.
    pub before: u32,
    pub fault: MessageFault,
}

#[derive(Clone, Copy, Debug, PartialEq, Eq)]
pub enum MessageFault {
    Wire(WireFault),
    /// The string in this field isn't UTF-8.
    Text(u32),
}

/// What a type of messages, or of a field that has bytes, says of its fields.
#[derive(Clone, Copy, Debug, PartialEq, Eq)]
enum Kind {
    /// No field has anything in it that could be wrong.
    Plain,
    SimpleRequest,
    StreamingInputCallRequest,
    StreamingOutputCallRequest,
    ResponseParameters,
    EchoStatus,
    /// It is a string.
    Text,
    /// It is bytes, or unknown.
    Bytes,
}

impl Kind {
    /// What the field of this number is, if it has bytes.
    fn of_field(self, number: u32) -> Kind {
        match (self, number) {
            (Kind::SimpleRequest, 3 | 6 | 8) => Kind::Plain,
            (Kind::SimpleRequest, 7) => Kind::EchoStatus,
            (Kind::StreamingInputCallRequest, 1 | 2) => Kind::Plain,
            (Kind::StreamingOutputCallRequest, 2) => Kind::ResponseParameters,
            (Kind::StreamingOutputCallRequest, 3) => Kind::Plain,
            (Kind::StreamingOutputCallRequest, 7) => Kind::EchoStatus,
            (Kind::ResponseParameters, 3) => Kind::Plain,
            (Kind::EchoStatus, 2) => Kind::Text,
            _ => Kind::Bytes,
        }
    }

    /// The requests of a method.
    fn of_request(method: MethodName) -> Kind {
        match method {
            MethodName::EmptyCall => Kind::Plain,
            MethodName::UnaryCall | MethodName::CacheableUnaryCall => Kind::SimpleRequest,
            MethodName::StreamingInputCall => Kind::StreamingInputCallRequest,
            MethodName::StreamingOutputCall
            | MethodName::FullDuplexCall
            | MethodName::HalfDuplexCall => Kind::StreamingOutputCallRequest,
        }
    }
}

/// Bytes that are to be looked at: what they are, and the field in which they are.
#[derive(Clone, Copy)]
struct Task<'a> {
    kind: Kind,
    bytes: &'a [u8],
    inside: u32,
}

/// What is wrong with the request of this number, if anything is.
pub fn fault_of_request(
    alloc: Global,
    method: MethodName,
    message: u64,
    bytes: &[u8],
) -> Result<Option<MalformedMessage>, AllocError> {
    let mut tasks = Vec::new(alloc);
    tasks.push(Task {
        kind: Kind::of_request(method),
        bytes,
        inside: 0,
    })?;
    for _ in 0..=bytes.len() {
        let Some(task) = tasks.pop() else {
            return Ok(None);
        };
        let found = look(&mut tasks, task)?;
        if let Some((before, fault)) = found {
            return Ok(Some(MalformedMessage {
                message,
                inside: task.inside,
                before,
                fault,
            }));
        }
    }
    Ok(None)
}

/// Looks at the fields of a message: what is wrong with them, after how many. What is in them is
/// left to be looked at.
fn look<'a>(
    tasks: &mut Vec<Task<'a>>,
    task: Task<'a>,
) -> Result<Option<(u32, MessageFault)>, AllocError> {
    let mut fields = Fields::new(task.bytes);
    let mut before = 0u32;
    for _ in 0..=task.bytes.len() {
        let item = match fields.next() {
            None => return Ok(None),
            Some(Err(fault)) => return Ok(Some((before, MessageFault::Wire(fault)))),
            Some(Ok(item)) => item,
        };
        if let FieldValue::Bytes(bytes) = item.value {
            let kind = task.kind.of_field(item.number);
            match kind {
                Kind::Bytes => {}
                Kind::Text => {
                    if str::from_utf8(bytes).is_err() {
                        return Ok(Some((before, MessageFault::Text(item.number))));
                    }
                }
                _ => tasks.push(Task {
                    kind,
                    bytes,
                    inside: item.number,
                })?,
            }
        }
        before = before.saturating_add(1);
    }
    Ok(None)
}

impl fmt::Display for MalformedMessage {
    fn fmt<W: fmt::Write>(&self, f: &mut fmt::Formatter<W>) -> fmt::Result {
        let MalformedMessage {
            message,
            inside,
            before,
            fault,
        } = *self;
        write!(f, "message {message}")?;
        if inside > 0 {
            write!(f, ", in its field {inside}")?;
        }
        let fields = if before == 1 { "field" } else { "fields" };
        write!(f, ", after {before} whole {fields}: ")?;
        match fault {
            MessageFault::Wire(fault) => write!(f, "{fault}")?,
            MessageFault::Text(number) => write!(f, "the string of field {number} is no UTF-8")?,
        }
        write!(f, " (Protocol Buffers, Encoding)")
    }
}
