//! The names of frames and of error codes.

ghost use Rattle.std.specs.Prelude.{◌≡◌, option_copied};
ghost use Rattle.figures.specs.ErrorNames.{name_of};

use h2frame::{FrameHead, FrameKind};
use std::fmt;

/// The error codes' names, by their numbers (RFC 9113, section 7).
const ERRORS: [&str; 14] = [
    "NO_ERROR",
    "PROTOCOL_ERROR",
    "INTERNAL_ERROR",
    "FLOW_CONTROL_ERROR",
    "SETTINGS_TIMEOUT",
    "STREAM_CLOSED",
    "FRAME_SIZE_ERROR",
    "REFUSED_STREAM",
    "CANCEL",
    "COMPRESSION_ERROR",
    "CONNECT_ERROR",
    "ENHANCE_YOUR_CALM",
    "INADEQUATE_SECURITY",
    "HTTP_1_1_REQUIRED",
];

/// The name of a frame's type (RFC 9113, section 6).
#[derive(Clone, Copy)]
pub struct KindName(pub FrameKind);

impl fmt::Display for KindName {
    fn fmt<W: fmt::Write>(&self, f: &mut fmt::Formatter<W>) -> fmt::Result {
        let name = match self.0 {
            FrameKind::Data => "DATA",
            FrameKind::Headers => "HEADERS",
            FrameKind::Priority => "PRIORITY",
            FrameKind::RstStream => "RST_STREAM",
            FrameKind::Settings => "SETTINGS",
            FrameKind::PushPromise => "PUSH_PROMISE",
            FrameKind::Ping => "PING",
            FrameKind::GoAway => "GOAWAY",
            FrameKind::WindowUpdate => "WINDOW_UPDATE",
            FrameKind::Continuation => "CONTINUATION",
            FrameKind::Unknown(code) => return write!(f, "a frame of type {code}"),
        };
        write!(f, "{name}")
    }
}

/// A frame by its type and its stream, and by its type alone where it is one of the connection.
#[derive(Clone, Copy)]
pub struct FrameName(pub FrameHead);

impl fmt::Display for FrameName {
    fn fmt<W: fmt::Write>(&self, f: &mut fmt::Formatter<W>) -> fmt::Result {
        let (kind, stream) = (KindName(self.0.kind), self.0.stream);
        if stream == 0 {
            write!(f, "{kind}")
        } else {
            write!(f, "{kind} on stream {stream}")
        }
    }
}

/// The name of an error code as RST_STREAM and GOAWAY carry it, and `unknown` where it has none.
#[derive(Clone, Copy)]
pub struct ErrorName(pub u32);

impl fmt::Display for ErrorName {
    fn fmt<W: fmt::Write>(&self, f: &mut fmt::Formatter<W>) -> fmt::Result {
        let name = error_name(self.0).unwrap_or("unknown");
        write!(f, "{name}")
    }
}

/// The name of an error code, if it has one: RFC 9113 names those below 14.
pub fn error_name(code: u32) -> Option<&'static str>
    ensures { option_copied result ≡ name_of code }
{
    ERRORS.get(code as usize).copied()
}
