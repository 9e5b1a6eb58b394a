//! The flags of a frame.

ghost use Rattle.std.specs.Prelude.{◌≡◌, bit_or};
ghost use Rattle.h2frame.specs.Flags.{has};

/// The eight flags of a frame, also those without a meaning (RFC 9113, section 4.1).
#[derive(Clone, Copy, Debug, PartialEq, Eq)]
pub struct Flags {
    /// The byte in the frame's head.
    pub bits: u8,
}

impl Flags {
    /// No flag is set.
    pub const NONE: Flags = Flags { bits: 0 };
    /// SETTINGS and PING: an acknowledgement.
    pub const ACK: Flags = Flags { bits: 0x01 };
    /// DATA and HEADERS: the last of this side's stream.
    pub const END_STREAM: Flags = Flags { bits: 0x01 };
    /// HEADERS and CONTINUATION: the last of its header block.
    pub const END_HEADERS: Flags = Flags { bits: 0x04 };
    /// DATA and HEADERS: the payload is padded.
    pub const PADDED: Flags = Flags { bits: 0x08 };
    /// HEADERS: the payload has five bytes of priority.
    pub const PRIORITY: Flags = Flags { bits: 0x20 };

    /// Whether all of the other's flags are set.
    pub fn contains(self, other: Flags) -> bool
        ensures { result ≡ has other.bits self }
    {
        self.bits & other.bits == other.bits
    }

    /// These flags and the other's.
    pub fn with(self, other: Flags) -> Flags
        ensures { result.bits ≡ bit_or self.bits other.bits }
    {
        Flags {
            bits: self.bits | other.bits,
        }
    }
}
