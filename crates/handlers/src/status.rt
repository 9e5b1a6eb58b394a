//! The statuses that a method gives.
//!
//! A text of our own is a constant, and takes no memory. A text that a request asks for is copied
//! out of it.

ghost use Rattle.std.specs.Prelude.{◌≡◌, [], IfOk, IsUtf8};
ghost use Rattle.handlers.specs.Statuses.{status_of, ok_status};

use grpc_status::StatusCode;
use std::alloc::{AllocError, Global};
use std::borrow::CowStr;
use std::marker::Model;

/// How a call ended: the code, and its text.
#[derive(Debug, Drop)]
pub struct Status {
    pub code: StatusCode,
    pub text: StatusText,
}

/// The text of a status. In a contract it is its bytes, which are UTF-8.
#[derive(Debug, Drop)]
pub struct StatusText {
    text: CowStr<'static, Global>,
}

impl Model for StatusText {
    ghost use Rattle.std.specs.Prelude.{List, ℕ};
    ghost use Rattle.std.specs.Cow.{cow_str_bytes};

    ghost Value = { List ℕ };

    ghost view = { λ text. cow_str_bytes text.text };
}

impl StatusText {
    /// A text of the program's own. It takes no memory.
    pub fn fixed(text: &'static str) -> StatusText
        ensures { result ≡ text.now }
    {
        StatusText {
            text: CowStr::Borrowed(text),
        }
    }

    /// A copy of this text.
    pub fn copied(alloc: Global, text: &str) -> Result<StatusText, AllocError>
        ensures { IfOk result (λ copy. copy ≡ text.now) }
    {
        let text = String::from_str(alloc, text)?;
        Ok(StatusText {
            text: CowStr::Owned(text),
        })
    }

    pub fn as_str(&self) -> &str
        ensures text { result.now ≡ self.now }
        ensures utf8 { IsUtf8 self.now }
    {
        self.text.as_str()
    }
}

/// Why a method ends a call with a status of its own.
#[derive(Clone, Copy, Debug, PartialEq, Eq)]
pub enum Refusal {
    /// The bytes are no message of the method's type.
    MalformedMessage,
    /// A message that was to be compressed wasn't.
    NotCompressed,
    /// A payload of another type than zero bytes is asked for.
    BadResponseType,
    /// A payload of a length that isn't answered is asked for.
    BadResponseSize,
    /// The sum of the lengths is too large for the field that it goes into.
    SumOutOfRange,
    /// None or several messages came, where the method takes one.
    WrongNumber,
}

impl Refusal {
    /// The status that the call ends with. It takes no memory.
    pub fn status(self) -> Status
        ensures { result ≡ status_of self }
    {
        let (code, text) = match self {
            Refusal::MalformedMessage => (StatusCode::Internal, "malformed message"),
            Refusal::NotCompressed => (StatusCode::InvalidArgument, "message is not compressed"),
            Refusal::BadResponseType => (StatusCode::InvalidArgument, "bad response type"),
            Refusal::BadResponseSize => (StatusCode::InvalidArgument, "bad response size"),
            Refusal::SumOutOfRange => (StatusCode::OutOfRange, "sum out of range"),
            Refusal::WrongNumber => (StatusCode::Internal, "wrong number of messages"),
        };
        Status {
            code,
            text: StatusText::fixed(text),
        }
    }
}

impl Status {
    /// The status of a call that went well: OK, without a text. It takes no memory.
    pub fn ok() -> Status
        ensures { result ≡ ok_status }
    {
        Status {
            code: StatusCode::Ok,
            text: StatusText::fixed(""),
        }
    }
}
