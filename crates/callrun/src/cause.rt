//! Why the server itself ends a call.

ghost use Rattle.std.specs.Prelude.{◌≡◌};
ghost use Rattle.callrun.specs.Statuses.{status_of, cause_of};

use callhead::Encoding;
use grpc_status::StatusCode;
use lpm::LpmFault;

/// Why a call ends with a status that its method didn't give.
#[derive(Clone, Copy, Debug, PartialEq, Eq)]
pub enum Cause {
    /// The call was reset, or the connection's input ended before it did.
    Cancelled,
    /// The time that the client gave it has passed.
    DeadlineExceeded,
    /// A message is longer than the server takes.
    MessageTooLong,
    /// Memory was wanting.
    OutOfMemory,
    /// A message is compressed, by an encoding that the server doesn't have.
    UnsupportedEncoding,
    /// A message is compressed, and no encoding was named.
    CompressedWithoutEncoding,
    /// The first byte of a message is neither 0 nor 1.
    BadFlag,
    /// The client's half ended inside a message.
    CutAtEnd,
}

impl Cause {
    /// The code of the status.
    pub fn code(self) -> StatusCode
        ensures { result ≡ (status_of self).code }
    {
        match self {
            Cause::Cancelled => StatusCode::Cancelled,
            Cause::DeadlineExceeded => StatusCode::DeadlineExceeded,
            Cause::MessageTooLong | Cause::OutOfMemory => StatusCode::ResourceExhausted,
            Cause::UnsupportedEncoding => StatusCode::Unimplemented,
            Cause::CompressedWithoutEncoding | Cause::BadFlag | Cause::CutAtEnd => {
                StatusCode::Internal
            }
        }
    }

    /// The text of the status.
    pub fn text(self) -> &'static str
        ensures { result.now ≡ (status_of self).text }
    {
        match self {
            Cause::Cancelled => "cancelled",
            Cause::DeadlineExceeded => "deadline exceeded",
            Cause::MessageTooLong => "message too long",
            Cause::OutOfMemory => "out of memory",
            Cause::UnsupportedEncoding => "unsupported encoding",
            Cause::CompressedWithoutEncoding => "compressed without encoding",
            Cause::BadFlag => "bad flag",
            Cause::CutAtEnd => "message cut at end",
        }
    }

    /// Why a call with this encoding ends at this fault.
    pub fn of_fault(fault: LpmFault, encoding: Encoding) -> Cause
        ensures { result ≡ cause_of fault encoding }
    {
        match fault {
            LpmFault::Compressed => match encoding {
                Encoding::Other => Cause::UnsupportedEncoding,
                Encoding::Identity => Cause::CompressedWithoutEncoding,
            },
            LpmFault::BadFlag => Cause::BadFlag,
            LpmFault::TooLong => Cause::MessageTooLong,
            LpmFault::CutAtEnd => Cause::CutAtEnd,
            LpmFault::OutOfMemory => Cause::OutOfMemory,
        }
    }
}
