//! A frame that is to be written.

ghost use Rattle.std.specs.Prelude.{◌≡◌, ◌<◌, ◌≤◌, ◌+◌, ◌^◌, ◌++◌, length};
ghost use Rattle.h2frame.specs.Spelling.{IsWritable, spelled};

use bytes::Bytes;
use h2frame::{Flags, FrameHead, FrameKind, StreamId, head_text};
use std::marker::Model;
use zeros::{ZeroBuffer, ZeroTail};

/// A frame that is to be written. In a contract it is the frame that a reader of its bytes gets.
#[derive(Debug, Drop)]
pub struct OutFrame {
    head: FrameHead,
    /// The payload. The payload of DATA may end with zeros that take no memory.
    content: ZeroTail,
}

impl Model for OutFrame {
    ghost use Rattle.h2frame.specs.declared.frame.Frame.{Frame};

    ghost Value = { Frame };

    ghost view = { λ f. record { head = f.head; content = f.content } };
}

impl OutFrame {
    /// The frame of this content, without padding or priority.
    pub(crate) fn new(
        kind: FrameKind,
        flags: Flags,
        stream: StreamId,
        content: ZeroTail,
    ) -> OutFrame
        requires { length content < 2 ^ 32 }
        ensures kind { result.head.kind ≡ kind }
        ensures flags { result.head.flags ≡ flags }
        ensures stream { result.head.stream ≡ stream }
        ensures length { result.head.length ≡ length content }
        ensures content { result.content ≡ content }
    {
        let length = content.len() as u32;
        OutFrame {
            head: FrameHead {
                kind,
                flags,
                stream,
                length,
            },
            content,
        }
    }

    pub fn head(&self) -> FrameHead
        ensures { result ≡ self.now.head }
    {
        self.head
    }

    /// Appends the bytes of the frame (RFC 9113, section 4.1), for which there is room.
    pub fn append_to(&self, out: &mut ZeroBuffer)
        requires writable { IsWritable self.now }
        requires room { 9 + length self.now.content ≤ out.old.spare }
        ensures { out.new.items ≡ out.old.items ++ spelled self.now }
    {
        let (front, zeros) = self.content.parts();
        out.append(&head_text(&self.head));
        out.append(front);
        out.append_zeros(zeros as usize);
    }
}
