//! What a frame may be by itself (RFC 9113, sections 4.1, 4.2 and 6).

ghost use Rattle.std.specs.Prelude.{◌≢◌, None};
ghost use Rattle.h2frame.specs.declared.fault.FrameFault.TheVariants.{OutOfMemory};

use figures::{ByteCount, FrameName, KindName, section_of, wanted_length};
use h2frame::{FrameFault, FrameHead, StreamId};
use std::fmt;

/// A rule on one frame that the server broke.
#[derive(Clone, Copy)]
pub enum FrameViolation {
    /// The payload is over SETTINGS_MAX_FRAME_SIZE, which the client leaves at 16,384 bytes.
    TooLong(FrameHead),
    /// A frame of the connection on a stream, or one of a stream on the connection.
    WrongStream(FrameHead),
    /// The payload's length isn't one that the frame's type may have.
    BadLength(FrameHead),
    /// The padding has more bytes than the rest of the payload.
    BadPadding(FrameHead, u8),
    /// A byte of the padding is this one.
    PaddingNotZero(FrameHead, u8),
    /// WINDOW_UPDATE without an increment.
    ZeroIncrement(StreamId),
}

impl FrameViolation {
    /// The rule that a frame with this head breaks, where the frame reader finds this fault in it.
    /// `padding` is what the frame says of its padding.
    pub fn of(fault: FrameFault, head: FrameHead, padding: u8) -> Option<FrameViolation>
        ensures { fault ≢ OutOfMemory → result ≢ None }
    {
        match fault {
            FrameFault::TooLong => Some(FrameViolation::TooLong(head)),
            FrameFault::BadLength => Some(FrameViolation::BadLength(head)),
            FrameFault::BadPadding => Some(FrameViolation::BadPadding(head, padding)),
            FrameFault::WrongStream => Some(FrameViolation::WrongStream(head)),
            FrameFault::ZeroIncrement(stream) => Some(FrameViolation::ZeroIncrement(stream)),
            FrameFault::OutOfMemory => None,
        }
    }
}

impl fmt::Display for FrameViolation {
    fn fmt<W: fmt::Write>(&self, f: &mut fmt::Formatter<W>) -> fmt::Result {
        match *self {
            FrameViolation::TooLong(head) => {
                let (frame, length) = (FrameName(head), ByteCount(u64::from(head.length)));
                write!(f, "{frame} of {length}, at most 16,384 (RFC 9113, 4.2)")
            }
            FrameViolation::WrongStream(head) => {
                let (kind, section) = (KindName(head.kind), section_of(head.kind));
                let wanted = if head.stream == 0 {
                    "one of a stream"
                } else {
                    "stream 0"
                };
                let stream = head.stream;
                write!(
                    f,
                    "{kind} on stream {stream}, wanted {wanted} (RFC 9113, {section})"
                )
            }
            FrameViolation::BadLength(head) => {
                let (frame, length) = (FrameName(head), ByteCount(u64::from(head.length)));
                let (wanted, section) = (wanted_length(&head), section_of(head.kind));
                write!(
                    f,
                    "{frame} of {length}, wanted {wanted} (RFC 9113, {section})"
                )
            }
            FrameViolation::BadPadding(head, padding) => {
                let (frame, length) = (FrameName(head), ByteCount(u64::from(head.length)));
                let section = section_of(head.kind);
                write!(
                    f,
                    "{frame} of {length}, {padding} of them padding (RFC 9113, {section})"
                )
            }
            FrameViolation::PaddingNotZero(head, byte) => {
                let (frame, section) = (FrameName(head), section_of(head.kind));
                write!(
                    f,
                    "{frame}: a byte of its padding is {byte:02x}, wanted 00 (RFC 9113, {section})"
                )
            }
            FrameViolation::ZeroIncrement(stream) => {
                write!(
                    f,
                    "WINDOW_UPDATE of 0 on stream {stream}, wanted more (RFC 9113, 6.9)"
                )
            }
        }
    }
}
