//! Why a credit book isn't changed.

ghost use Rattle.std.specs.Prelude.{◌≡◌};
ghost use Rattle.creditbook.specs.declared.book.fault.BookFault.TheVariants.{OutOfMemory};
ghost use Rattle.creditbook.specs.Books.{code_of};

use std::alloc::AllocFailed;
use thiserror::Error;

/// Why the book isn't changed.
#[derive(Clone, Copy, Debug, PartialEq, Eq, Error)]
pub enum BookFault {
    /// 64 calls are live.
    #[error("64 calls are live")]
    TooMany,
    /// No more calls are admitted.
    #[error("no more calls are admitted")]
    Draining,
    /// More bytes came than the call's window allowed.
    #[error("more bytes came than the call's window allows")]
    CallWindow,
    /// More bytes came than the connection's window allowed, or than can be counted.
    #[error("more bytes came than the connection's window allows")]
    ConnectionWindow,
    /// More bytes are returned than came.
    #[error("more bytes are returned than came")]
    Overgiven,
    /// The call isn't live.
    #[error("the call isn't live")]
    Unknown,
    /// There is no memory.
    #[error("out of memory")]
    OutOfMemory,
}

impl BookFault {
    /// The fault's number, by which programs print it.
    pub fn code(self) -> u32
        ensures { result ≡ code_of self }
    {
        match self {
            BookFault::TooMany => 1,
            BookFault::Draining => 2,
            BookFault::CallWindow => 3,
            BookFault::ConnectionWindow => 4,
            BookFault::Overgiven => 5,
            BookFault::Unknown => 6,
            BookFault::OutOfMemory => 7,
        }
    }
}

impl<T: Drop> From<AllocFailed<T>> for BookFault {
    ghost from_gives = { λ _ fault. fault ≡ OutOfMemory };

    fn from(_e: AllocFailed<T>) -> BookFault {
        BookFault::OutOfMemory
    }
}
