//! Why a misbehaviour is played no further on a connection.

use crate::breach::{
    BAD_LENGTH, BAD_PADDING, Breach, CUT_BLOCK, FRAME_TOO_LONG, SETTING_VALUE, UNREADABLE_BLOCK,
    WINDOW_TOO_LARGE, WRONG_STREAM, ZERO_INCREMENT,
};
use crate::lack::{ClientLack, LONG_FIELDS, LONG_INTEGER};
use h2frame::FrameFault;
use hpack_codec::HpackFault;
use sendwindows::WindowFault;
use session::{BadPreface, FragmentFault, SettingsFault};
use std::alloc::{AllocError, AllocFailed};

/// Why a misbehaviour is played no further.
#[derive(Clone, Copy)]
pub enum Halt {
    /// The client did what no client may do.
    Broke(Breach),
    /// The client doesn't do what the case needs.
    Lacks(ClientLack),
    /// What came isn't HTTP/2.
    Stranger,
    /// No memory was to be had.
    OutOfMemory,
}

impl From<AllocError> for Halt {
    fn from(_error: AllocError) -> Halt {
        Halt::OutOfMemory
    }
}

impl<T: Drop> From<AllocFailed<T>> for Halt {
    fn from(_error: AllocFailed<T>) -> Halt {
        Halt::OutOfMemory
    }
}

impl From<BadPreface> for Halt {
    fn from(_fault: BadPreface) -> Halt {
        Halt::Stranger
    }
}

impl From<FrameFault> for Halt {
    fn from(fault: FrameFault) -> Halt {
        match fault {
            FrameFault::TooLong => Halt::Broke(FRAME_TOO_LONG),
            FrameFault::BadLength => Halt::Broke(BAD_LENGTH),
            FrameFault::BadPadding => Halt::Broke(BAD_PADDING),
            FrameFault::WrongStream => Halt::Broke(WRONG_STREAM),
            FrameFault::ZeroIncrement(_) => Halt::Broke(ZERO_INCREMENT),
            FrameFault::OutOfMemory => Halt::OutOfMemory,
        }
    }
}

/// A block that is longer than this server takes breaks no rule.
impl From<FragmentFault> for Halt {
    fn from(fault: FragmentFault) -> Halt {
        match fault {
            FragmentFault::Interrupted => Halt::Broke(CUT_BLOCK),
            FragmentFault::TooLong => Halt::Lacks(ClientLack::Seen(LONG_FIELDS)),
            FragmentFault::OutOfMemory => Halt::OutOfMemory,
        }
    }
}

/// Each reader of integers has a limit of its own (RFC 7541, section 5.1), so one past this
/// server's breaks no rule.
impl From<HpackFault> for Halt {
    fn from(fault: HpackFault) -> Halt {
        match fault {
            HpackFault::OutOfMemory => Halt::OutOfMemory,
            HpackFault::TooLarge => Halt::Lacks(ClientLack::Seen(LONG_FIELDS)),
            HpackFault::Integer => Halt::Lacks(ClientLack::Seen(LONG_INTEGER)),
            _ => Halt::Broke(UNREADABLE_BLOCK),
        }
    }
}

impl From<SettingsFault> for Halt {
    fn from(fault: SettingsFault) -> Halt {
        match fault {
            SettingsFault::OutOfMemory => Halt::OutOfMemory,
            SettingsFault::Refused(_) => Halt::Broke(SETTING_VALUE),
        }
    }
}

impl From<WindowFault> for Halt {
    fn from(fault: WindowFault) -> Halt {
        match fault {
            WindowFault::OutOfMemory => Halt::OutOfMemory,
            _ => Halt::Broke(WINDOW_TOO_LARGE),
        }
    }
}
