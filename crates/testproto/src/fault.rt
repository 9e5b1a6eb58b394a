//! Why a message could not be read or written.

ghost use Rattle.std.specs.Prelude.{◌≡◌};
ghost use Rattle.testproto.specs.Code.{code_of};
ghost use Rattle.testproto.specs.declared.fault.ProtoFault.TheVariants.{OutOfMemory};

use pbwire::WireFault;
use std::alloc::{AllocError, AllocFailed};
use thiserror::Error;

/// Why bytes are no message, or a message could not be written.
#[derive(Clone, Copy, Debug, PartialEq, Eq, Error)]
pub enum ProtoFault {
    /// The bytes are no fields, here or in an embedded message.
    #[error("{0}")]
    Wire(WireFault),
    /// A string is not UTF-8.
    #[error("a string is not UTF-8")]
    NotUtf8,
    /// Memory ran out.
    #[error("out of memory")]
    OutOfMemory,
}

impl ProtoFault {
    /// The number of the fault, 1 to 3.
    pub fn code(self) -> u32
        ensures { result ≡ code_of self }
    {
        match self {
            ProtoFault::Wire(_) => 1,
            ProtoFault::NotUtf8 => 2,
            ProtoFault::OutOfMemory => 3,
        }
    }
}

impl From<AllocError> for ProtoFault {
    ghost from_gives = { λ _ fault. fault ≡ OutOfMemory };

    fn from(_error: AllocError) -> ProtoFault {
        ProtoFault::OutOfMemory
    }
}

impl<T: Drop> From<AllocFailed<T>> for ProtoFault {
    ghost from_gives = { λ _ fault. fault ≡ OutOfMemory };

    fn from(_error: AllocFailed<T>) -> ProtoFault {
        ProtoFault::OutOfMemory
    }
}
