//! Why a header block can't be read or written.
ghost use Rattle.std.specs.Prelude.{◌≡◌};
ghost use Rattle.hpack_codec.specs.FaultCode.{code_of_fault};
ghost use Rattle.hpack_codec.specs.declared.fault.HpackFault.TheVariants.{OutOfMemory};

use std::alloc::{AllocError, AllocFailed};
use thiserror::Error;

/// The first fault of a block from the left. After any of them the codec is dead.
#[derive(Clone, Copy, Debug, PartialEq, Eq, Error)]
pub enum HpackFault {
    /// An integer is over 4,294,967,295 or has more than six bytes.
    #[error("an integer is too large")]
    Integer,
    /// An index is 0 or past both tables.
    #[error("an index names no entry")]
    Index,
    /// A text isn't codes of bytes and then fewer than eight ones.
    #[error("a text is no Huffman text")]
    Huffman,
    /// A change of the table's size is over 4,096 or comes after a field.
    #[error("a size update is too large or too late")]
    SizeUpdate,
    /// The block ends inside a representation.
    #[error("the block is cut off")]
    Truncated,
    #[error("out of memory")]
    OutOfMemory,
    /// A fault came before.
    #[error("an earlier block had a fault")]
    Dead,
    /// Fields are larger than 65,536 together, or a text to write is over 4,294,967,295 bytes.
    #[error("the fields are too large")]
    TooLarge,
}

impl HpackFault {
    /// The number of the fault, 1 to 8 in the order of the variants.
    pub fn code(self) -> u8
        ensures { result ≡ code_of_fault self }
    {
        match self {
            HpackFault::Integer => 1,
            HpackFault::Index => 2,
            HpackFault::Huffman => 3,
            HpackFault::SizeUpdate => 4,
            HpackFault::Truncated => 5,
            HpackFault::OutOfMemory => 6,
            HpackFault::Dead => 7,
            HpackFault::TooLarge => 8,
        }
    }
}

impl From<AllocError> for HpackFault {
    ghost from_gives = { λ _ e. e ≡ OutOfMemory };

    fn from(_e: AllocError) -> HpackFault {
        HpackFault::OutOfMemory
    }
}

impl<T: Drop> From<AllocFailed<T>> for HpackFault {
    ghost from_gives = { λ _ e. e ≡ OutOfMemory };

    fn from(_e: AllocFailed<T>) -> HpackFault {
        HpackFault::OutOfMemory
    }
}
