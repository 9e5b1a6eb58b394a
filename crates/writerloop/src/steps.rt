//! What the steps of the writing side answer: what its owner is to do.

use crate::ended::EndedStream;

/// Which order waits to be taken.
#[derive(Clone, Copy, PartialEq, Eq, Debug)]
pub enum WaitingOrder {
    /// None.
    Nothing,
    /// One that may make a window of the peer's overflow, so that the writer may end the
    /// connection. Whoever takes it gives the greatest stream that was admitted.
    Window,
    /// A GOAWAY. If this side ends the connection while calls go on, the owner warns the peer first
    /// (`warn`).
    Goaway,
    /// Another.
    Other,
}

/// What became of the next order.
#[derive(Clone, Copy, PartialEq, Eq, Debug)]
pub enum OrderStep {
    /// There is none.
    Nothing,
    /// It can't be passed over yet: the ring of senders has no place for its sender.
    Early,
    /// It was taken; or passed over, because one before it was lost.
    One,
    /// It was taken, and the writer ended this stream: its call is to be cut (`cut`), and then its
    /// worker is to be woken (`wake`).
    Ends(EndedStream),
    /// It was taken, and the writer ended the connection, which is to be stopped.
    Stops,
    /// The order, or the writer's answer to it, was lost for want of memory: the writer is to give
    /// up (`give_up`), and the connection is to be stopped.
    Lost,
}

/// What comes once the buffer was filled and written.
#[derive(Clone, Copy, PartialEq, Eq, Debug)]
pub enum AfterWrite {
    /// More may be written at once.
    None,
    /// Nothing can be written now: what waits for a window that won't open is to be cut
    /// (`cut_stuck`), and the owner waits.
    Idle,
    /// Nothing is written any more, and orders may still come: the connection is to be stopped, and
    /// the owner waits.
    Stopped,
    /// Nothing is written any more, and no more orders come: the connection is to be stopped, and
    /// has ended.
    StoppedOver,
    /// All is written, and nothing more comes.
    Over,
}
