//! What can be wrong with the bytes of a message.

ghost use Rattle.std.specs.Prelude.{◌≡◌};
ghost use Rattle.pbwire.specs.Code.{code_of};

use thiserror::Error;

/// Why bytes could not be read as fields, or a field could not be written.
#[derive(Clone, Copy, Debug, PartialEq, Eq, Error)]
pub enum WireFault {
    /// The bytes end inside a varint or a content.
    #[error("the message is cut off")]
    Truncated,
    /// No varint ends within ten bytes.
    #[error("a varint has more than ten bytes")]
    VarintTooLong,
    /// A tag of 2^32 or more, with field number 0, or with wire type 6 or 7.
    #[error("a tag is malformed")]
    BadTag,
    /// A tag that starts or ends a group; groups are not supported.
    #[error("groups are not supported")]
    Group,
    /// Memory ran out. Only the writers answer it.
    #[error("out of memory")]
    OutOfMemory,
}

impl WireFault {
    /// The number of the fault, 1 to 5.
    pub fn code(self) -> u32
        ensures { result ≡ code_of self }
    {
        match self {
            WireFault::Truncated => 1,
            WireFault::VarintTooLong => 2,
            WireFault::BadTag => 3,
            WireFault::Group => 4,
            WireFault::OutOfMemory => 5,
        }
    }
}
