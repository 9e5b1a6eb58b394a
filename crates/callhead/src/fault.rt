//! Why fields are not the head of a call.

ghost use Rattle.std.specs.Prelude.{◌≡◌};
ghost use Rattle.callhead.specs.Faults.{code_of};
ghost use Rattle.callhead.specs.declared.fault.HeadFault.TheVariants.{OutOfMemory};

use std::alloc::{AllocError, AllocFailed};
use thiserror::Error;

/// Why fields are not read as the head of a call. They are tested in this order.
#[derive(Clone, Copy, Debug, PartialEq, Eq, Error)]
pub enum HeadFault {
    /// The fields aren't a request's (RFC 9113, sections 8.2 and 8.3).
    #[error("the request is malformed")]
    Malformed,
    /// The method is not POST.
    #[error("the method is not POST")]
    NotPost,
    /// There is no content type, or it doesn't begin with `application/grpc`.
    #[error("the content type is not application/grpc")]
    NotGrpc,
    /// The first `grpc-timeout` isn't a timeout.
    #[error("the timeout is malformed")]
    BadTimeout,
    /// There is no memory.
    #[error("out of memory")]
    OutOfMemory,
}

impl HeadFault {
    /// The fault's number, by which programs print it.
    pub fn code(self) -> u32
        ensures { result ≡ code_of self }
    {
        match self {
            HeadFault::Malformed => 1,
            HeadFault::NotPost => 2,
            HeadFault::NotGrpc => 3,
            HeadFault::BadTimeout => 4,
            HeadFault::OutOfMemory => 5,
        }
    }
}

impl From<AllocError> for HeadFault {
    ghost from_gives = { λ _ fault. fault ≡ OutOfMemory };

    fn from(_e: AllocError) -> HeadFault {
        HeadFault::OutOfMemory
    }
}

impl<T: Drop> From<AllocFailed<T>> for HeadFault {
    ghost from_gives = { λ _ fault. fault ≡ OutOfMemory };

    fn from(_e: AllocFailed<T>) -> HeadFault {
        HeadFault::OutOfMemory
    }
}
