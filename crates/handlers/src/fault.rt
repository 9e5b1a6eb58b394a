//! Why a method couldn't answer.

ghost use Rattle.std.specs.Prelude.{◌≡◌};
ghost use Rattle.handlers.specs.declared.fault.MethodFault.TheVariants.{OutOfMemory};

use std::alloc::{AllocError, AllocFailed};
use thiserror::Error;

/// Why a method couldn't answer.
#[derive(Clone, Copy, Debug, PartialEq, Eq, Error)]
pub enum MethodFault {
    /// Memory ran out.
    #[error("out of memory")]
    OutOfMemory,
}

impl MethodFault {
    /// The number of the fault.
    pub fn code(self) -> u32
        ensures { result ≡ 1 }
    {
        match self {
            MethodFault::OutOfMemory => 1,
        }
    }
}

impl From<AllocError> for MethodFault {
    fn from(_error: AllocError) -> MethodFault {
        MethodFault::OutOfMemory
    }
}

impl<T: Drop> From<AllocFailed<T>> for MethodFault {
    fn from(_error: AllocFailed<T>) -> MethodFault {
        MethodFault::OutOfMemory
    }
}
