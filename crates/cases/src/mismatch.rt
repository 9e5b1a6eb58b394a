//! How what came of a call differs from what was wanted.

use crate::method::INITIAL_VALUE;
use figures::{ErrorName, GroupedNumber, byte_count};
use lpm::LpmFault;
use std::fmt;
use testproto::ProtoFault;

/// A status that a call has to end with. No text is wanted where none is given.
#[derive(Clone, Copy)]
pub struct WantedStatus {
    pub code: u32,
    pub text: Option<&'static str>,
}

/// Why the status of a call is not the one that was wanted.
#[derive(Drop)]
pub enum StatusFault {
    /// RST_STREAM with this code ended the call.
    Reset(u32, WantedStatus),
    /// The stream ended without trailers.
    NoTrailers(WantedStatus),
    /// The trailers have no `grpc-status`.
    NoStatus(WantedStatus),
    /// `grpc-status` has this value.
    NotStatus(String, WantedStatus),
    /// Another status, with this text.
    Other(u32, String, WantedStatus),
}

/// Why the replies of a call are not those that were wanted.
#[derive(Drop)]
pub enum ReplyFault {
    /// Too few or too many replies came.
    Count {
        came: usize,
        wanted: usize,
    },
    /// The call ended before this reply.
    Ended {
        reply: usize,
    },
    /// More replies came than any case asks for.
    TooMany {
        most: usize,
    },
    /// The body of a reply has another length.
    Length {
        reply: usize,
        came: usize,
        wanted: usize,
    },
    /// A byte of the body isn't 0.
    Byte {
        reply: usize,
        at: usize,
        byte: u8,
    },
    /// A reply has bytes, and is to be empty.
    NotEmpty {
        came: usize,
    },
    Sum {
        came: i32,
        wanted: i32,
    },
    /// The bytes of a reply are no message of its type.
    NoMessage {
        reply: usize,
        length: usize,
        fault: ProtoFault,
    },
    /// The flag of a reply's prefix isn't 0.
    Flag {
        reply: usize,
        flag: u8,
    },
    /// The length in a reply's prefix is over the greatest.
    TooLong {
        reply: usize,
    },
    /// The stream ended inside a reply, after some of its bytes.
    Cut {
        reply: usize,
        came: usize,
    },
}

/// Which value of the two that were to be echoed didn't come back.
#[derive(Drop)]
pub enum EchoFault {
    /// The response's head has no such field, or one with this value.
    Initial(Option<String>),
    /// The trailers have no such field, or one with this value.
    Trailing(Option<String>),
}

impl ReplyFault {
    /// What is wrong with the prefix of a reply, or with where its stream ended; none for want of
    /// memory. `flag` is the prefix's first byte, and `came` is how many bytes of the reply came.
    pub fn of(fault: LpmFault, reply: usize, flag: u8, came: usize) -> Option<ReplyFault> {
        match fault {
            LpmFault::Compressed | LpmFault::BadFlag => Some(ReplyFault::Flag { reply, flag }),
            LpmFault::TooLong => Some(ReplyFault::TooLong { reply }),
            LpmFault::CutAtEnd => Some(ReplyFault::Cut { reply, came }),
            LpmFault::OutOfMemory => None,
        }
    }
}

impl fmt::Display for WantedStatus {
    fn fmt<W: fmt::Write>(&self, f: &mut fmt::Formatter<W>) -> fmt::Result {
        let code = self.code;
        match self.text {
            Some(text) => write!(f, "status {code} {text:?}"),
            None => write!(f, "status {code}"),
        }
    }
}

impl fmt::Display for StatusFault {
    fn fmt<W: fmt::Write>(&self, f: &mut fmt::Formatter<W>) -> fmt::Result {
        match self {
            StatusFault::Reset(code, wanted) => {
                let error = ErrorName(*code);
                write!(f, "RST_STREAM {code} ({error}), wanted {wanted}")
            }
            StatusFault::NoTrailers(wanted) => {
                write!(f, "the stream ended without trailers, wanted {wanted}")
            }
            StatusFault::NoStatus(wanted) => {
                write!(f, "trailers without grpc-status, wanted {wanted}")
            }
            StatusFault::NotStatus(value, wanted) => {
                write!(f, "grpc-status is {value:?}, wanted {wanted}")
            }
            StatusFault::Other(code, text, wanted) => {
                write!(f, "status {code} {text:?}, wanted {wanted}")
            }
        }
    }
}

impl fmt::Display for ReplyFault {
    fn fmt<W: fmt::Write>(&self, f: &mut fmt::Formatter<W>) -> fmt::Result {
        match *self {
            ReplyFault::Count { came, wanted } => {
                let replies = if came == 1 { "reply" } else { "replies" };
                write!(f, "{came} {replies} came, wanted {wanted}")
            }
            ReplyFault::Ended { reply } => { write!(f, "the call ended, wanted reply {reply}") }
            ReplyFault::TooMany { most } => write!(f, "over {most} replies came"),
            ReplyFault::Length {
                reply,
                came,
                wanted,
            } => {
                let (came, wanted) = (byte_count(came), GroupedNumber(wanted as u64));
                write!(f, "reply {reply}: a body of {came}, wanted {wanted}")
            }
            ReplyFault::Byte { reply, at, byte } => {
                let at = GroupedNumber(at as u64);
                write!(
                    f,
                    "reply {reply}: byte {at} of the body is {byte:02x}, wanted 00"
                )
            }
            ReplyFault::NotEmpty { came } => {
                let came = byte_count(came);
                write!(f, "reply 1 has {came}, wanted none")
            }
            ReplyFault::Sum { came, wanted } => {
                let sign = if came < 0 { "-" } else { "" };
                let came = GroupedNumber(u64::from(came.unsigned_abs()));
                let wanted = GroupedNumber(u64::from(wanted.unsigned_abs()));
                write!(f, "the sum is {sign}{came}, wanted {wanted}")
            }
            ReplyFault::NoMessage {
                reply,
                length,
                fault,
            } => {
                let length = byte_count(length);
                write!(f, "reply {reply}: no message in {length}: {fault}")
            }
            ReplyFault::Flag { reply, flag } => write!(
                f,
                "reply {reply}: its flag is {flag:02x}, wanted 00 (gRPC over HTTP/2, Length-Prefixed-Message)"
            ),
            ReplyFault::TooLong { reply } => {
                write!(f, "reply {reply}: its prefix says over 4,194,304 bytes")
            }
            ReplyFault::Cut { reply, came } => {
                let came = GroupedNumber(came as u64);
                write!(
                    f,
                    "reply {reply}: the stream ended after {came} of its bytes, prefix included (gRPC over HTTP/2, Length-Prefixed-Message)"
                )
            }
        }
    }
}

impl fmt::Display for EchoFault {
    fn fmt<W: fmt::Write>(&self, f: &mut fmt::Formatter<W>) -> fmt::Result {
        match self {
            EchoFault::Initial(None) => {
                write!(
                    f,
                    "no x-grpc-test-echo-initial in the head of the response, wanted {INITIAL_VALUE:?}"
                )
            }
            EchoFault::Initial(Some(value)) => {
                write!(
                    f,
                    "x-grpc-test-echo-initial is {value:?}, wanted {INITIAL_VALUE:?}"
                )
            }
            EchoFault::Trailing(None) => {
                write!(
                    f,
                    "no x-grpc-test-echo-trailing-bin in the trailers, wanted \"q6ur\""
                )
            }
            EchoFault::Trailing(Some(value)) => {
                write!(
                    f,
                    "x-grpc-test-echo-trailing-bin is {value:?}, wanted \"q6ur\""
                )
            }
        }
    }
}
