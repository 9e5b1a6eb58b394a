//! Why cases were not run to their end.

ghost use Rattle.std.specs.Prelude.{◌≡◌};
ghost use Rattle.wire.specs.declared.fault.WireFault.TheVariants.{OutOfMemory, WriteFailed};

use device::DeviceFault;
use std::alloc::{AllocError, AllocFailed};

/// Why cases were not run to their end.
#[derive(Drop)]
pub enum WireFault {
    /// There is no connection to the server, for this reason.
    NoConnection(String),
    /// A row of the tables can't be read: a fault of this program.
    BadRow,
    /// A line could not be written.
    WriteFailed,
    /// The clock could not be read.
    ClockFailed,
    /// No memory was to be had.
    OutOfMemory,
}

impl From<AllocError> for WireFault {
    ghost from_gives = { λ _ given. given ≡ OutOfMemory };

    fn from(_error: AllocError) -> WireFault {
        WireFault::OutOfMemory
    }
}

impl<T: Drop> From<AllocFailed<T>> for WireFault {
    ghost from_gives = { λ _ given. given ≡ OutOfMemory };

    fn from(_error: AllocFailed<T>) -> WireFault {
        WireFault::OutOfMemory
    }
}

impl From<DeviceFault> for WireFault {
    ghost from_gives = { λ _ given. given ≡ WriteFailed };

    fn from(_fault: DeviceFault) -> WireFault {
        WireFault::WriteFailed
    }
}
