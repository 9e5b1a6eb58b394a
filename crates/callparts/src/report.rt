//! How a connection ended, and what became of its calls.

ghost use Rattle.std.specs.Prelude.{◌≡◌};
ghost use Rattle.callparts.specs.Endings.{ending_number};

use crate::accounts::Accounts;
use h2frame::ErrorCode;

/// What became of a connection.
#[derive(Drop)]
pub struct ConnReport {
    /// An account for each call that was admitted, in the order of their streams.
    pub calls: Accounts,
    pub ending: Ending,
}

/// How a connection ended. Where several are true, it is the first of `OutOfMemory`, `WriteFailed`,
/// `ProtocolError`, `ReadFailed` and `Drained`, and else how the input ended.
#[derive(Clone, Copy, Debug, PartialEq, Eq)]
pub enum Ending {
    /// The peer sends nothing more.
    InputEnded,
    /// The peer sends nothing more, after a GOAWAY of its own.
    PeerGoaway,
    /// The connection was ended with this error (RFC 9113, section 5.4.1).
    ProtocolError(ErrorCode),
    ReadFailed,
    WriteFailed,
    OutOfMemory,
    /// The server ended it while its calls went on, and the calls are over (RFC 9113, section 6.8).
    Drained,
}

impl Ending {
    /// The ending's number.
    pub fn code(self) -> u32
        ensures { result ≡ ending_number self }
    {
        match self {
            Ending::InputEnded => 1,
            Ending::PeerGoaway => 2,
            Ending::ProtocolError(_) => 3,
            Ending::ReadFailed => 4,
            Ending::WriteFailed => 5,
            Ending::OutOfMemory => 6,
            Ending::Drained => 7,
        }
    }
}
