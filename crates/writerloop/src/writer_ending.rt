//! How a writer ends by itself.

ghost use Rattle.std.specs.Prelude.{◌≡◌};
ghost use Rattle.writerloop.specs.Endings.{ending_of};

use callparts::Ending;
use h2frame::ErrorCode;

/// How a writer ends, where it doesn't end since all was written.
#[derive(Clone, Copy, PartialEq, Eq, Debug)]
pub enum WriterEnding {
    /// There was no memory for an order, for the answer to one, or for a frame.
    OutOfMemory,
    /// A write failed.
    WriteFailed,
    /// It ended the connection with this error (RFC 9113, section 5.4.1).
    ProtocolError(ErrorCode),
}

impl WriterEnding {
    /// How the connection ends by it.
    pub fn ending(self) -> Ending
        ensures { result ≡ ending_of self }
    {
        match self {
            WriterEnding::OutOfMemory => Ending::OutOfMemory,
            WriterEnding::WriteFailed => Ending::WriteFailed,
            WriterEnding::ProtocolError(code) => Ending::ProtocolError(code),
        }
    }
}
