//! What became of a call.

ghost use Rattle.std.specs.Prelude.{◌≡◌};
ghost use Rattle.callparts.specs.Accounts.{unserved};

use callbox::{InAccount, OutAccount};
use h2frame::StreamId;

/// Counts of a call's bytes and messages. No contract speaks of those of a call that a worker
/// served. A number over the greatest `u64` counts as that.
#[derive(Clone, Copy, Debug, PartialEq, Eq)]
pub struct Traffic {
    /// How many bytes of its DATA came for its messages.
    pub bytes: u64,
    /// How many replies it was given.
    pub replies: u64,
    /// How many bytes the replies had, without their prefixes.
    pub reply_bytes: u64,
}

impl Traffic {
    /// None.
    pub fn none() -> Traffic
        ensures { result ≡ record { bytes = 0; replies = 0; reply_bytes = 0 } }
    {
        Traffic {
            bytes: 0,
            replies: 0,
            reply_bytes: 0,
        }
    }
}

/// What became of a call.
#[derive(Clone, Copy, Debug, PartialEq, Eq)]
pub struct CallAccount {
    /// Its stream.
    pub id: StreamId,
    /// The index of its method.
    pub method: usize,
    pub input: InAccount,
    pub output: OutAccount,
    /// The status of its trailers. None where it was left without them.
    pub status: Option<u32>,
    pub traffic: Traffic,
}

impl CallAccount {
    /// The account of a call that was fed nothing and given nothing.
    pub fn unserved(id: StreamId, method: usize) -> CallAccount
        ensures { result ≡ unserved id method }
    {
        CallAccount {
            id,
            method,
            input: InAccount {
                fed: 0,
                shut: None,
                taken: 0,
                told: None,
            },
            output: OutAccount {
                given: 0,
                sent: 0,
                trailers_given: false,
                trailers_sent: false,
            },
            status: None,
            traffic: Traffic::none(),
        }
    }
}
