//! A frame, and what its head says by itself.

ghost use Rattle.std.specs.Prelude.{◌≡◌, ◌<◌, ◌≤◌, ◌^◌, length, IfNone};
ghost use Rattle.h2frame.specs.Flags.{is_padded, has_priority};
ghost use Rattle.h2frame.specs.Faults.{
  may_be_on,
  may_have_length,
  overhead,
  head_fault,
  frame_fault,
  increment_of,
  lacks_increment,
};

use crate::{Flags, FrameFault, FrameKind};
use bytes::Bytes;

/// The longest payload that is read or written: SETTINGS_MAX_FRAME_SIZE as RFC 9113, section 6.5.2,
/// has it at first.
pub const MAX_PAYLOAD: u32 = 16_384;

/// The number of a stream, below 2^31, or 0 for the connection as a whole (RFC 9113, section
/// 5.1.1).
pub type StreamId = u32;

/// The head of a frame (RFC 9113, section 4.1).
#[derive(Clone, Copy, Debug, PartialEq, Eq)]
pub struct FrameHead {
    pub kind: FrameKind,
    pub flags: Flags,
    pub stream: StreamId,
    /// The bytes of the whole payload, padding included: what flow control counts of DATA.
    pub length: u32,
}

/// A frame, without what only pads it or is ignored.
#[derive(Debug, Drop, PartialEq, Eq)]
pub struct Frame {
    pub head: FrameHead,
    /// The payload without padding, and without the priority of HEADERS.
    pub content: Bytes,
}

impl FrameHead {
    /// Whether the payload begins with the length of its padding, which DATA and HEADERS alone may
    /// have.
    pub fn is_padded(&self) -> bool
        ensures { result ≡ is_padded self.now }
    {
        match self.kind {
            FrameKind::Data | FrameKind::Headers => self.flags.contains(Flags::PADDED),
            _ => false,
        }
    }

    /// Whether five bytes of priority come before the content, which HEADERS alone may have.
    pub fn has_priority(&self) -> bool
        ensures { result ≡ has_priority self.now }
    {
        match self.kind {
            FrameKind::Headers => self.flags.contains(Flags::PRIORITY),
            _ => false,
        }
    }

    /// The bytes of the payload before its content.
    pub(crate) fn overhead(&self) -> u32
        ensures value { result ≡ overhead self.now }
        ensures few { result ≤ 6 }
    {
        u32::from(self.is_padded()) + if self.has_priority() { 5 } else { 0 }
    }

    fn may_be_on_its_stream(&self) -> bool
        ensures { result ≡ may_be_on self.now.kind self.now.stream }
    {
        match self.kind {
            FrameKind::Data
            | FrameKind::Headers
            | FrameKind::Priority
            | FrameKind::RstStream
            | FrameKind::Continuation => self.stream != 0,
            FrameKind::Settings | FrameKind::Ping | FrameKind::GoAway => { self.stream == 0 }
            FrameKind::PushPromise | FrameKind::WindowUpdate | FrameKind::Unknown(_) => true,
        }
    }

    fn may_have_its_length(&self) -> bool
        ensures { result ≡ may_have_length self.now.kind self.now }
    {
        match self.kind {
            FrameKind::Data | FrameKind::Headers => self.overhead() <= self.length,
            FrameKind::Priority => self.length == 5,
            FrameKind::RstStream | FrameKind::WindowUpdate => self.length == 4,
            FrameKind::Settings => {
                if self.flags.contains(Flags::ACK) {
                    self.length == 0
                } else {
                    self.length % 6 == 0
                }
            }
            FrameKind::Ping => self.length == 8,
            FrameKind::GoAway => self.length >= 8,
            FrameKind::PushPromise | FrameKind::Continuation | FrameKind::Unknown(_) => true,
        }
    }

    /// The first fault that the head shows by itself.
    pub fn fault(&self) -> Option<FrameFault>
        ensures fault { result ≡ head_fault self.now }
        ensures short { IfNone result (self.now.length ≤ 16384) }
        ensures room { IfNone result (overhead self.now ≤ self.now.length) }
        ensures credit { IfNone result
            (self.now.kind ≡ FrameKind.WindowUpdate → self.now.length ≡ 4) }
    {
        if self.length > MAX_PAYLOAD {
            return Some(FrameFault::TooLong);
        }
        if !self.may_be_on_its_stream() {
            return Some(FrameFault::WrongStream);
        }
        if !self.may_have_its_length() {
            return Some(FrameFault::BadLength);
        }
        None
    }
}

impl Frame {
    /// The frame of a content, without padding or priority.
    pub fn new(kind: FrameKind, flags: Flags, stream: StreamId, content: Bytes) -> Frame
        requires { length content < 2 ^ 32 }
        ensures kind { result.head.kind ≡ kind }
        ensures flags { result.head.flags ≡ flags }
        ensures stream { result.head.stream ≡ stream }
        ensures length { result.head.length ≡ length content }
        ensures content { result.content ≡ content }
    {
        let length = content.len() as u32;
        Frame {
            head: FrameHead {
                kind,
                flags,
                stream,
                length,
            },
            content,
        }
    }

    /// The first fault that a reader of the frame finds, where it isn't padded.
    pub fn fault(&self) -> Option<FrameFault>
        requires { self.now.head.length ≡ length self.now.content }
        ensures fault { result ≡ frame_fault self.now }
        ensures short { IfNone result (self.now.head.length ≤ 16384) }
    {
        if let Some(fault) = self.head.fault() {
            return Some(fault);
        }
        if lacks_increment(self.head.kind, self.content.as_slice()) {
            return Some(FrameFault::ZeroIncrement(self.head.stream));
        }
        None
    }
}

/// The increment of a WINDOW_UPDATE's content, whose first bit is ignored (RFC 9113, section 6.9).
pub fn increment(content: &[u8]) -> u32
    requires { length content.now ≡ 4 }
    ensures value { result ≡ increment_of content.now }
    ensures small { result < 2 ^ 31 }
{
    u32::from_be_bytes([content[0], content[1], content[2], content[3]]) & 0x7fff_ffff
}

/// The eight bytes of a PING's content, which the answer repeats (RFC 9113, section 6.7).
pub fn ping_bytes(content: &[u8]) -> [u8; 8]
    requires { length content.now ≡ 8 }
    ensures { result ≡ content.now }
{
    [
        content[0], content[1], content[2], content[3], content[4], content[5], content[6],
        content[7],
    ]
}

/// Whether it is a WINDOW_UPDATE of no increment.
pub(crate) fn lacks_increment(kind: FrameKind, content: &[u8]) -> bool
    requires { kind ≡ FrameKind.WindowUpdate → length content.now ≡ 4 }
    ensures { result ≡ lacks_increment kind content.now }
{
    match kind {
        FrameKind::WindowUpdate => increment(content) == 0,
        _ => false,
    }
}
