//! What is wrong with a frame.

ghost use Rattle.std.specs.Prelude.{◌≡◌};
ghost use Rattle.h2frame.specs.declared.fault.FrameFault.TheVariants.{OutOfMemory};
ghost use Rattle.h2frame.specs.Faults.{fault_code, fault_error};

use crate::{ErrorCode, StreamId};
use std::alloc::{AllocError, AllocFailed};
use thiserror::Error;

#[derive(Clone, Copy, Debug, PartialEq, Eq, Error)]
pub enum FrameFault {
    /// The payload is over 16,384 bytes: FRAME_SIZE_ERROR.
    #[error("the frame is over 16384 bytes")]
    TooLong,
    /// The payload's length isn't one that the frame's type may have: FRAME_SIZE_ERROR.
    #[error("the frame has a bad length")]
    BadLength,
    /// The padding is longer than the rest of the payload: PROTOCOL_ERROR.
    #[error("the padding is longer than the frame")]
    BadPadding,
    /// A frame of the connection on a stream, or one of a stream on the connection: PROTOCOL_ERROR.
    #[error("the frame is on the wrong stream")]
    WrongStream,
    /// WINDOW_UPDATE without an increment: PROTOCOL_ERROR, of the stream alone if that isn't 0.
    #[error("the window update has no increment")]
    ZeroIncrement(StreamId),
    #[error("out of memory")]
    OutOfMemory,
}

impl FrameFault {
    /// A number for each fault, whichever stream it is on.
    pub fn code(self) -> u32
        ensures { result ≡ fault_code self }
    {
        match self {
            FrameFault::TooLong => 1,
            FrameFault::BadLength => 2,
            FrameFault::BadPadding => 3,
            FrameFault::WrongStream => 4,
            FrameFault::ZeroIncrement(_) => 5,
            FrameFault::OutOfMemory => 6,
        }
    }

    /// The error code for the peer: of the connection, or of the stream where `ZeroIncrement` names
    /// one.
    pub fn error_code(self) -> ErrorCode
        ensures { result ≡ fault_error self }
    {
        match self {
            FrameFault::TooLong | FrameFault::BadLength => ErrorCode::FrameSizeError,
            FrameFault::BadPadding | FrameFault::WrongStream | FrameFault::ZeroIncrement(_) => {
                ErrorCode::ProtocolError
            }
            FrameFault::OutOfMemory => ErrorCode::InternalError,
        }
    }
}

impl From<AllocError> for FrameFault {
    ghost from_gives = { λ _ fault. fault ≡ OutOfMemory };

    fn from(_e: AllocError) -> FrameFault {
        FrameFault::OutOfMemory
    }
}

impl<T: Drop> From<AllocFailed<T>> for FrameFault {
    ghost from_gives = { λ _ fault. fault ≡ OutOfMemory };

    fn from(_e: AllocFailed<T>) -> FrameFault {
        FrameFault::OutOfMemory
    }
}
