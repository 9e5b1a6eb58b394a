//! Why nothing more comes, and what was waited for.

use crate::input::Progress;
use figures::{ByteCount, FrameName, GroupedNumber};
use h2frame::{FrameHead, StreamId};
use std::fmt;

/// How a connection fell silent.
#[derive(Clone, Copy, PartialEq, Eq)]
pub enum Silence {
    /// Nothing came any more until the case's time was over, and the connection stands.
    Stalled,
    /// The server was still sending when the case's time was over.
    Endless,
    /// The server took no more of what is written until the case's time was over.
    Untaken,
    /// The server ended the connection.
    Closed,
    /// The connection broke.
    Broken,
    /// A write failed.
    Unwritten,
}

/// What was waited for.
#[derive(Clone, Copy)]
pub enum WaitGoal {
    /// Room for a message's bytes: how many of them were sent.
    Window { sent: usize, of: usize },
    /// SETTINGS, which a server sends first.
    Settings,
    /// The fields that begin a response.
    Head(StreamId),
    /// The final head, where informational ones came.
    FinalHead(StreamId),
    /// What follows this many bytes of a response's DATA.
    Trailers(StreamId, u64),
    /// The rest of a header block.
    Block(StreamId),
    /// The acknowledgement of PING.
    Ping,
}

/// Why nothing more came.
#[derive(Clone, Copy)]
pub struct SilenceFault {
    pub how: Silence,
    pub awaited: WaitGoal,
    /// How far the next frame had come.
    pub progress: Progress,
    /// How many milliseconds the case had gone on.
    pub spent: u64,
    /// How many frames had come, and what the last of them was.
    pub frames: u64,
    pub last: Option<FrameHead>,
    /// The last stream of a GOAWAY without an error, if one came.
    pub goaway: Option<StreamId>,
}

impl SilenceFault {
    /// Whether it was a write that failed.
    pub fn is_unwritten(&self) -> bool {
        matches!(self.how, Silence::Unwritten | Silence::Untaken)
    }

    /// Whether the case's time was over.
    pub fn is_late(&self) -> bool {
        matches!(
            self.how,
            Silence::Stalled | Silence::Endless | Silence::Untaken
        )
    }

    /// Whether the connection is over, and between two frames. A server may end it so once all is
    /// said (RFC 9113, section 9.1).
    pub fn is_end(&self) -> bool {
        matches!(
            self.how,
            Silence::Closed | Silence::Broken | Silence::Unwritten
        ) && self.progress.came == 0
    }
}

impl SilenceFault {
    /// Writes what came last.
    fn tell_last<W: fmt::Write>(&self, f: &mut fmt::Formatter<W>) -> fmt::Result {
        let Some(head) = self.last else {
            return Ok(());
        };
        let (frames, last) = (GroupedNumber(self.frames), FrameName(head));
        if self.frames == 1 {
            write!(f, "; one frame came, {last}")
        } else {
            write!(f, "; {frames} frames came, the last {last}")
        }
    }
}

/// Milliseconds, as seconds with a digit after the point.
#[derive(Clone, Copy)]
struct Seconds(u64);

impl fmt::Display for Seconds {
    fn fmt<W: fmt::Write>(&self, f: &mut fmt::Formatter<W>) -> fmt::Result {
        let (seconds, tenths) = (self.0 / 1000, self.0 % 1000 / 100);
        write!(f, "{seconds}.{tenths} s")
    }
}

impl fmt::Display for Silence {
    fn fmt<W: fmt::Write>(&self, f: &mut fmt::Formatter<W>) -> fmt::Result {
        match self {
            Silence::Stalled => write!(f, "stalled"),
            Silence::Endless => write!(f, "not ended"),
            Silence::Untaken => write!(f, "the server stopped reading"),
            Silence::Closed => write!(f, "the server closed the connection"),
            Silence::Broken => write!(f, "the connection broke"),
            Silence::Unwritten => write!(f, "a write failed"),
        }
    }
}

impl fmt::Display for WaitGoal {
    fn fmt<W: fmt::Write>(&self, f: &mut fmt::Formatter<W>) -> fmt::Result {
        match *self {
            WaitGoal::Window { sent, of } => {
                let (sent, of) = (GroupedNumber(sent as u64), ByteCount(of as u64));
                write!(f, "sent {sent} of {of}, send window 0")
            }
            WaitGoal::Settings => write!(f, "no SETTINGS came (RFC 9113, 3.4)"),
            WaitGoal::Head(stream) => write!(f, "no HEADERS came on stream {stream}"),
            WaitGoal::FinalHead(stream) => {
                write!(f, "informational HEADERS alone came on stream {stream}")
            }
            WaitGoal::Trailers(stream, bytes) => {
                let bytes = ByteCount(bytes);
                write!(
                    f,
                    "{bytes} of DATA came on stream {stream}, and no trailers"
                )
            }
            WaitGoal::Block(stream) => {
                write!(
                    f,
                    "the header block on stream {stream} goes on, and no CONTINUATION ended it"
                )
            }
            WaitGoal::Ping => write!(f, "PING was not acknowledged (RFC 9113, 6.7)"),
        }
    }
}

impl fmt::Display for Progress {
    fn fmt<W: fmt::Write>(&self, f: &mut fmt::Formatter<W>) -> fmt::Result {
        let came = self.came;
        match self.head {
            Some(head) => {
                let (frame, length) = (FrameName(head), ByteCount(u64::from(head.length)));
                let came = GroupedNumber(came.saturating_sub(9) as u64);
                write!(f, "{came} of {length} of {frame}")
            }
            None => write!(f, "{came} of 9 bytes of a frame's head"),
        }
    }
}

impl fmt::Display for SilenceFault {
    fn fmt<W: fmt::Write>(&self, f: &mut fmt::Formatter<W>) -> fmt::Result {
        let (how, awaited, progress) = (self.how, self.awaited, self.progress);
        match how {
            Silence::Endless | Silence::Untaken => {
                let spent = Seconds(self.spent);
                write!(f, "{how} after {spent}: {awaited}")?;
                self.tell_last(f)?;
            }
            _ => write!(f, "{how}: {awaited}")?,
        }
        if progress.came > 0 {
            write!(f, "; {progress} came")?;
        }
        match self.goaway {
            Some(last) => write!(
                f,
                "; GOAWAY 0 (NO_ERROR) with the last stream {last} came before"
            ),
            None => Ok(()),
        }
    }
}
