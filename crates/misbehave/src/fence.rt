//! When a client counts as having read what was sent.

/// How far that is known. A client that answers a PING has read what was before it; but what it had
/// made ready to send before it read may come after the answer, since PINGs are answered first (RFC
/// 9113, section 6.7). So another PING is sent a while later.
#[derive(Clone, Copy)]
pub enum Fence {
    /// No PING was sent.
    Open,
    /// The PING of this number was sent.
    First(u64),
    /// It was answered at this millisecond of the case.
    Answered(u64),
    /// The second PING was sent, of this number.
    Second(u64),
    /// Both were answered.
    Past,
}

/// How many milliseconds are between the first answer and the second PING.
pub const SETTLING: u64 = 200;

/// How long the fence waits if a client has to reject what was sent before.
pub const REJECTION: u64 = 1_000;
