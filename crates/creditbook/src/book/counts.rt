//! The bytes of DATA that a credit book counts.
//!
//! `Counts` and `Call` are public with public fields, since clauses name them; no function hands
//! one out.

ghost use Rattle.std.specs.Prelude.{◌≡◌, ◌+◌, ◌-◌, ◌<◌, ◌≤◌, ◌^◌, min};

use crate::MAX_RECEIVED;
use limits::INITIAL_WINDOW;

/// Bytes of DATA on the connection or on one call.
#[derive(Clone, Copy)]
pub struct Counts {
    /// How many came, padding counted (RFC 9113, section 6.9.1).
    pub received: u64,
    /// How many of those were taken, or never will be.
    pub returned: u64,
    /// How many of those WINDOW_UPDATE announced to the peer.
    pub announced: u64,
}

/// Counts of no bytes.
pub(super) const NO_BYTES: Counts = Counts {
    received: 0,
    returned: 0,
    announced: 0,
};

impl Counts {
    ghost use Rattle.creditbook.specs.Books.{IsCounted, with_received, unreturned, unannounced};

    /// How many more bytes the peer may send.
    pub(super) fn window(self) -> u64
        requires counted { IsCounted self }
        requires bounded { self.received ≤ MAX_RECEIVED }
        ensures { result ≡ INITIAL_WINDOW + self.announced - self.received }
    {
        u64::from(INITIAL_WINDOW) + self.announced - self.received
    }

    /// How many more bytes may come on the connection: no more than the peer may send, nor than can
    /// be counted.
    pub(super) fn room(self) -> u64
        requires counted { IsCounted self }
        requires bounded { self.received ≤ MAX_RECEIVED }
        ensures { result ≡ min (INITIAL_WINDOW + self.announced) MAX_RECEIVED - self.received }
    {
        self.window().min(MAX_RECEIVED - self.received)
    }

    /// What came and wasn't returned yet.
    pub(super) fn unreturned(self) -> u64
        requires { self.returned ≤ self.received }
        ensures { result ≡ unreturned self }
    {
        self.received - self.returned
    }

    /// What was returned and wasn't announced yet.
    pub(super) fn unannounced(self) -> u32
        requires { IsCounted self }
        ensures { result ≡ unannounced self }
    {
        (self.returned - self.announced) as u32
    }

    /// The counts when more bytes came, which are returned at once or not.
    pub(super) fn with_received(self, more: u64, at_once: bool) -> Counts
        requires returned { self.returned ≤ self.received }
        requires fits { self.received + more < 2 ^ 64 }
        ensures { result ≡ with_received self more at_once }
    {
        Counts {
            received: self.received + more,
            returned: if at_once {
                self.returned + more
            } else {
                self.returned
            },
            announced: self.announced,
        }
    }
}
