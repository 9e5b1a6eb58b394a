//! Why nothing is written.

ghost use Rattle.std.specs.Prelude.{◌≡◌};
ghost use Rattle.recorder.specs.declared.fault.RecorderFault.TheVariants.{OutOfMemory};

use std::alloc::{AllocError, AllocFailed};

/// Why nothing is written.
#[derive(Clone, Copy, Debug, PartialEq, Eq)]
pub enum RecorderFault {
    /// A file or a folder can't be made; standard error says which, and why.
    NotMade,
    /// No memory was to be had.
    OutOfMemory,
}

impl From<AllocError> for RecorderFault {
    ghost from_gives = { λ _ given. given ≡ OutOfMemory };

    fn from(_error: AllocError) -> RecorderFault {
        RecorderFault::OutOfMemory
    }
}

impl<T: Drop> From<AllocFailed<T>> for RecorderFault {
    ghost from_gives = { λ _ given. given ≡ OutOfMemory };

    fn from(_error: AllocFailed<T>) -> RecorderFault {
        RecorderFault::OutOfMemory
    }
}
