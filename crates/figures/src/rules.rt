//! What RFC 9113 wants of a frame by itself (section 6).

use h2frame::{Flags, FrameHead, FrameKind};

/// The section of RFC 9113 on frames of this type.
pub fn section_of(kind: FrameKind) -> &'static str {
    match kind {
        FrameKind::Data => "6.1",
        FrameKind::Headers => "6.2",
        FrameKind::Priority => "6.3",
        FrameKind::RstStream => "6.4",
        FrameKind::Settings => "6.5",
        FrameKind::PushPromise => "6.6",
        FrameKind::Ping => "6.7",
        FrameKind::GoAway => "6.8",
        FrameKind::WindowUpdate => "6.9",
        FrameKind::Continuation => "6.10",
        FrameKind::Unknown(_) => "5.5",
    }
}

/// How many bytes the payload of such a frame has to have.
pub fn wanted_length(head: &FrameHead) -> &'static str {
    match head.kind {
        FrameKind::Data => "1 at least, where it is padded",
        FrameKind::Headers => "room for its padding and priority",
        FrameKind::Priority => "5",
        FrameKind::RstStream | FrameKind::WindowUpdate => "4",
        FrameKind::Settings if head.flags.contains(Flags::ACK) => "0, with ACK",
        FrameKind::Settings => "a multiple of 6",
        FrameKind::Ping => "8",
        FrameKind::GoAway => "8 at least",
        FrameKind::PushPromise | FrameKind::Continuation | FrameKind::Unknown(_) => "another",
    }
}
