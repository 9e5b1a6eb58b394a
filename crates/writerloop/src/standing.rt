//! How a writer stands.

/// How a writer stands. It never comes back to `Going`.
#[derive(Clone, Copy, PartialEq, Eq, Debug)]
pub enum Standing {
    /// It makes frames and writes them.
    Going,
    /// It had no memory for a frame or for an order of its own, and makes no more frames. Those in
    /// the buffer are written still.
    OutOfMemory,
    /// A write failed. It writes nothing more.
    Broken,
}
