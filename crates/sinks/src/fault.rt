//! Why results were not written.

ghost use Rattle.std.specs.Prelude.{◌≡◌};
ghost use Rattle.sinks.specs.declared.fault.SinkFault.TheVariants.{OutOfMemory, WriteFailed};

use device::DeviceFault;
use std::alloc::{AllocError, AllocFailed};

/// Why results were not written.
#[derive(Clone, Copy, Debug, PartialEq, Eq)]
pub enum SinkFault {
    /// Standard output or a file could not be written.
    WriteFailed,
    /// The file of known failures could not be read.
    ReadFailed,
    /// A line of the file of known failures means nothing.
    BadKnown,
    /// No memory was to be had.
    OutOfMemory,
}

impl From<AllocError> for SinkFault {
    ghost from_gives = { λ _ given. given ≡ OutOfMemory };

    fn from(_error: AllocError) -> SinkFault {
        SinkFault::OutOfMemory
    }
}

impl<T: Drop> From<AllocFailed<T>> for SinkFault {
    ghost from_gives = { λ _ given. given ≡ OutOfMemory };

    fn from(_error: AllocFailed<T>) -> SinkFault {
        SinkFault::OutOfMemory
    }
}

impl From<DeviceFault> for SinkFault {
    ghost from_gives = { λ _ given. given ≡ WriteFailed };

    fn from(_fault: DeviceFault) -> SinkFault {
        SinkFault::WriteFailed
    }
}
