//! What the bytes of one side of a connection are cut into.

use bytes::Bytes;
use h2frame::FrameHead;

/// Where a side's bytes are.
#[derive(Clone, Copy, Debug, PartialEq, Eq)]
pub enum SideStage {
    /// A client's, which begin with the preface (RFC 9113, section 3.4).
    BeforePreface,
    /// Frames follow one another.
    InFrames,
}

/// A piece of a side's bytes. Each byte is in one.
#[derive(Debug, Drop, PartialEq, Eq)]
pub enum Item {
    /// The preface of a client's connection.
    Preface,
    /// A frame and its whole payload, with padding and priority, whatever faults it has (section
    /// 4.1).
    Frame(FrameHead, Bytes),
    /// The last bytes of a side, which are no whole preface or frame.
    Rest(Bytes),
}
