//! Why a writer's buffer isn't filled further.

/// Why a buffer isn't filled further.
#[derive(Clone, Copy, PartialEq, Eq, Debug)]
pub enum FillEnd {
    /// There may be no room for a further frame.
    Full,
    /// No frame can be written now.
    Idle,
    /// No frame can be written any more.
    Over,
    /// The writer makes no more frames: out of memory, or a write failed.
    Stopped,
}
