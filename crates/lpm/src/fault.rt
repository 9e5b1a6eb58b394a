//! What can be wrong with length-prefixed messages.

ghost use Rattle.std.specs.Prelude.{◌≡◌};
ghost use Rattle.lpm.specs.Faults.{code_of};
ghost use Rattle.lpm.specs.declared.fault.LpmFault.TheVariants.{OutOfMemory};

use std::alloc::{AllocError, AllocFailed};
use thiserror::Error;

/// Why bytes are not read as a message, or a message is not written.
#[derive(Clone, Copy, Debug, PartialEq, Eq, Error)]
pub enum LpmFault {
    /// The flag byte is 1: the message is compressed, which is not supported.
    #[error("the message is compressed")]
    Compressed,
    /// The flag byte is neither 0 nor 1.
    #[error("the flag of the message is neither 0 nor 1")]
    BadFlag,
    /// The message is longer than `MAX_MESSAGE_LEN` bytes.
    #[error("the message is longer than 4194304 bytes")]
    TooLong,
    /// The bytes end inside a message.
    #[error("the bytes end inside a message")]
    CutAtEnd,
    /// There is no memory.
    #[error("out of memory")]
    OutOfMemory,
}

impl LpmFault {
    /// The fault's number, by which programs print it.
    pub fn code(self) -> u32
        ensures { result ≡ code_of self }
    {
        match self {
            LpmFault::Compressed => 1,
            LpmFault::BadFlag => 2,
            LpmFault::TooLong => 3,
            LpmFault::CutAtEnd => 4,
            LpmFault::OutOfMemory => 5,
        }
    }
}

impl From<AllocError> for LpmFault {
    ghost from_gives = { λ _ fault. fault ≡ OutOfMemory };

    fn from(_e: AllocError) -> LpmFault {
        LpmFault::OutOfMemory
    }
}

impl<T: Drop> From<AllocFailed<T>> for LpmFault {
    ghost from_gives = { λ _ fault. fault ≡ OutOfMemory };

    fn from(_e: AllocFailed<T>) -> LpmFault {
        LpmFault::OutOfMemory
    }
}
