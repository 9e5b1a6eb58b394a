//! What a client did, as far as the wire shows it.

use crate::breach::Breach;
use crate::lack::ClientLack;

/// NO_ERROR, REFUSED_STREAM, CANCEL and ENHANCE_YOUR_CALM: with these a peer gives up for a reason
/// of its own, and doesn't say that the other one erred (RFC 9113, section 7).
const OWN_REASONS: &[u32] = &[0, 7, 8, 11];

/// NO_ERROR and CANCEL: what a program that has enough says, too.
const ENOUGH: &[u32] = &[0, 8];

/// How a client ended a call, by RST_STREAM, or the connection, by GOAWAY.
#[derive(Clone, Copy)]
pub struct Ending {
    /// The error code that it gave.
    pub code: u32,
    /// Whether it is the connection that it ended.
    pub is_goaway: bool,
    /// Whether the server had not yet said all of the call.
    pub is_early: bool,
    /// Whether the client had answered a PING that was sent after what the server does wrong.
    pub is_after_reading: bool,
    /// Whether it was seen before that the client had read what was wrong, and went on.
    pub is_late: bool,
}

impl Ending {
    /// Whether it may be for a reason of the client's own.
    pub fn is_own_reason(&self) -> bool {
        OWN_REASONS.contains(&self.code)
    }

    /// Whether it answers what the server did, and can't be that the program has enough.
    pub fn is_answer(&self) -> bool {
        !self.is_after_reading || !ENOUGH.contains(&self.code)
    }
}

/// What a client did on the connection that the steps are about, and beside it.
#[derive(Clone, Copy)]
pub struct Deeds {
    /// What it did that no client may do.
    pub breach: Option<Breach>,
    /// What it still owes after a long time: the answer of a PING, or an acknowledgement.
    pub overdue: Option<Breach>,
    /// What it doesn't do though the case needs it.
    pub lack: Option<ClientLack>,
    /// Whether all that the server does wrong was sent.
    pub is_shown: bool,
    /// Whether the server has said all of the call, or of all, where the steps are about all.
    pub is_over: bool,
    /// Whether the server waits for the client, which answers PINGs, and has done nothing of the
    /// call for a long time.
    pub is_stalled: bool,
    /// How it reset the call that the steps are about.
    pub reset: Option<Ending>,
    /// How it ended the connection by GOAWAY.
    pub goaway: Option<Ending>,
    /// Whether it ended the connection.
    pub has_left: bool,
    /// Whether it answered the first PING after what the server does wrong.
    pub has_read: bool,
    /// Whether it answered both PINGs after what the server does wrong, or after the last step.
    pub has_gone_on: bool,
    /// How many calls it made on the connection.
    pub calls: usize,
    /// How many calls it made on others.
    pub calls_elsewhere: usize,
    /// Whether it made a call while another was open, once the server's SETTINGS held.
    pub has_overlap: bool,
    /// What the step waits for that isn't done.
    pub awaited: &'static str,
}

impl Deeds {
    /// Nothing.
    pub const NONE: Deeds = Deeds {
        breach: None,
        overdue: None,
        lack: None,
        is_shown: false,
        is_over: false,
        is_stalled: false,
        reset: None,
        goaway: None,
        has_left: false,
        has_read: false,
        has_gone_on: false,
        calls: 0,
        calls_elsewhere: 0,
        has_overlap: false,
        awaited: "",
    };
}
