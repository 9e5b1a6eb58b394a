//! What becomes of DATA that came, and why a call isn't admitted.

ghost use Rattle.std.specs.Prelude.{◌≡◌};
ghost use Rattle.connbook.specs.declared.answers.AdmitFault.TheVariants.{OutOfMemory};

use std::alloc::AllocFailed;
use thiserror::Error;

/// What becomes of DATA that came.
#[derive(Clone, Copy, Debug, PartialEq, Eq)]
pub enum Receipt {
    /// They are to be fed to their call. Their padding is returned.
    Feed,
    /// No call takes them. They are returned.
    Discard,
    /// They are past the call's window, an error of its stream (RFC 9113, section 6.9.1). They are
    /// returned.
    CallWindow,
    /// They are past the connection's window, or more than can be counted, an error of the
    /// connection. They count nowhere.
    Overrun,
}

/// Why a call isn't admitted.
#[derive(Clone, Copy, Debug, PartialEq, Eq, Error)]
pub enum AdmitFault {
    /// The id isn't odd, or isn't above that of the call that was admitted last.
    #[error("the id isn't that of a new call")]
    NotNew,
    /// No more calls are admitted.
    #[error("no more calls are admitted")]
    Draining,
    /// 64 calls are live.
    #[error("64 calls are live")]
    TooMany,
    /// There is no memory.
    #[error("out of memory")]
    OutOfMemory,
}
