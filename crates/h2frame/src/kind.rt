//! The types of frames.

ghost use Rattle.std.specs.Prelude.{◌≡◌};
ghost use Rattle.h2frame.specs.Kind.{kind_of, code_of};

/// The type of a frame (RFC 9113, section 6).
#[derive(Clone, Copy, Debug, PartialEq, Eq)]
pub enum FrameKind {
    /// Bytes of a message (section 6.1).
    Data,
    /// The first fragment of a header block (section 6.2).
    Headers,
    /// Deprecated priority of a stream (section 6.3).
    Priority,
    /// The end of a stream by an error (section 6.4).
    RstStream,
    /// Parameters of the connection (section 6.5).
    Settings,
    /// A promised stream (section 6.6).
    PushPromise,
    /// A measured round trip (section 6.7).
    Ping,
    /// The end of the connection (section 6.8).
    GoAway,
    /// Credit of flow control (section 6.9).
    WindowUpdate,
    /// A further fragment of a header block (section 6.10).
    Continuation,
    /// A type that the standard does not define (section 5.5), by its code, which is 10 or more.
    Unknown(u8),
}

impl FrameKind {
    /// The type of a code, which every code has.
    pub fn from_code(code: u8) -> FrameKind
        ensures value { result ≡ kind_of code }
        ensures back { code_of result ≡ code }
    {
        match code {
            0 => FrameKind::Data,
            1 => FrameKind::Headers,
            2 => FrameKind::Priority,
            3 => FrameKind::RstStream,
            4 => FrameKind::Settings,
            5 => FrameKind::PushPromise,
            6 => FrameKind::Ping,
            7 => FrameKind::GoAway,
            8 => FrameKind::WindowUpdate,
            9 => FrameKind::Continuation,
            _ => FrameKind::Unknown(code),
        }
    }

    /// The code in the frame's head.
    pub fn code(self) -> u8
        ensures { result ≡ code_of self }
    {
        match self {
            FrameKind::Data => 0,
            FrameKind::Headers => 1,
            FrameKind::Priority => 2,
            FrameKind::RstStream => 3,
            FrameKind::Settings => 4,
            FrameKind::PushPromise => 5,
            FrameKind::Ping => 6,
            FrameKind::GoAway => 7,
            FrameKind::WindowUpdate => 8,
            FrameKind::Continuation => 9,
            FrameKind::Unknown(code) => code,
        }
    }
}
