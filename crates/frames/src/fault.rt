//! Why no frames are printed.

ghost use Rattle.std.specs.Prelude.{◌≡◌};
ghost use Rattle.frames.specs.declared.fault.FramesFault.TheVariants.{OutOfMemory, WriteFailed};

use capture::CaptureFault;
use device::{DeviceFault, ReadFault};
use std::alloc::{AllocError, AllocFailed};
use trace::InputFault;

/// Why no frames are printed, or no more.
#[derive(Clone, Copy, Debug, PartialEq, Eq)]
pub enum FramesFault {
    /// What was read has no frames.
    BadInput(InputFault),
    /// One of two files has both sides.
    BothSides,
    /// Which of two files has the client's bytes isn't known.
    SameSide,
    /// Standard input, or a file, can't be read.
    ReadFailed,
    /// A line can't be written.
    WriteFailed,
    /// No memory was to be had.
    OutOfMemory,
}

impl From<AllocError> for FramesFault {
    ghost from_gives = { λ _ given. given ≡ OutOfMemory };

    fn from(_error: AllocError) -> FramesFault {
        FramesFault::OutOfMemory
    }
}

impl<T: Drop> From<AllocFailed<T>> for FramesFault {
    ghost from_gives = { λ _ given. given ≡ OutOfMemory };

    fn from(_error: AllocFailed<T>) -> FramesFault {
        FramesFault::OutOfMemory
    }
}

impl From<DeviceFault> for FramesFault {
    ghost from_gives = { λ _ given. given ≡ WriteFailed };

    fn from(_fault: DeviceFault) -> FramesFault {
        FramesFault::WriteFailed
    }
}

impl From<ReadFault> for FramesFault {
    fn from(fault: ReadFault) -> FramesFault {
        match fault {
            ReadFault::Device => FramesFault::ReadFailed,
            ReadFault::OutOfMemory => FramesFault::OutOfMemory,
        }
    }
}

impl From<InputFault> for FramesFault {
    fn from(fault: InputFault) -> FramesFault {
        match fault {
            InputFault::OutOfMemory => FramesFault::OutOfMemory,
            other => FramesFault::BadInput(other),
        }
    }
}

impl From<CaptureFault> for FramesFault {
    fn from(fault: CaptureFault) -> FramesFault {
        match fault {
            CaptureFault::OutOfMemory => FramesFault::OutOfMemory,
            other => FramesFault::BadInput(InputFault::Capture(other)),
        }
    }
}
