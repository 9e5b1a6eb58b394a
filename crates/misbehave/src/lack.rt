//! What a client didn't do that a case needs, and what it has to do.

use crate::deeds::Ending;

/// What a client lacks, so that nothing can be said of it.
#[derive(Clone, Copy)]
pub enum ClientLack {
    /// What was seen of it, and what it has to do.
    Seen(Shortfall),
    /// It gave the call up for a reason of its own.
    GaveUp(Ending),
    /// It gave the call up by an error, as it may.
    Declined(Ending),
    /// The server waited in vain for this.
    Awaited(&'static str),
}

/// What was seen of a client, and what it has to do.
#[derive(Clone, Copy)]
pub struct Shortfall {
    pub seen: &'static str,
    pub todo: &'static str,
}

pub const NO_CONNECTION: Shortfall = Shortfall {
    seen: "no connection came",
    todo: "connect to this port before time is over (--timeout S)",
};

pub const STRANGER: Shortfall = Shortfall {
    seen: "what came doesn't begin with HTTP/2's preface",
    todo: "speak HTTP/2 in cleartext with prior knowledge (RFC 9113, 3.3 and 3.4), and no TLS",
};

pub const NO_CALL: Shortfall = Shortfall {
    seen: "no call came",
    todo: "make a call",
};

pub const LONG_FIELDS: Shortfall = Shortfall {
    seen: "a header block is over 65,536 bytes, which this server doesn't read",
    todo: "send less metadata",
};

pub const LONG_INTEGER: Shortfall = Shortfall {
    seen: "a header block has an integer of over six bytes, or over 4,294,967,295, which this \
        server doesn't read",
    todo: "write it shorter (RFC 7541, 5.1)",
};

pub const SHORT_REQUEST: Shortfall = Shortfall {
    seen: "the request fitted the window",
    todo: "send a longer one, as large_unary does (271,828 bytes)",
};

pub const SHORT_REPLY: Shortfall = Shortfall {
    seen: "the request asks for a reply of less than a window",
    todo: "ask for a longer one, as large_unary does (response_size 314159)",
};

pub const LONGEST_FRAMES: Shortfall = Shortfall {
    seen: "no frame is too long for the client, by its SETTINGS_MAX_FRAME_SIZE",
    todo: "announce a lower one",
};

pub const WIDE_WINDOWS: Shortfall = Shortfall {
    seen: "the client's windows are over 15 MB, more than this server sends at once",
    todo: "announce narrower ones",
};

pub const NO_ENTRIES: Shortfall = Shortfall {
    seen: "its header blocks add no entry to the dynamic table, so that none has to go",
    todo: "nothing, unless its encoder can index",
};

pub const LEFT_EARLY: Shortfall = Shortfall {
    seen: "it ended the connection before the call had ended",
    todo: "wait for the call's end before the channel is closed",
};

pub const LEFT_UNREAD: Shortfall = Shortfall {
    seen: "it ended the connection before it was seen that it had read all",
    todo: "close the channel a second after the call's end",
};

pub const LEFT_UNCLEAR: Shortfall = Shortfall {
    seen: "it ended the connection after it had read that, maybe since it had what it wanted",
    todo: "close the channel six seconds after the call's end",
};

pub const TIME_OVER: Shortfall = Shortfall {
    seen: "time was over before it was seen that it had read all",
    todo: "give it more time (--timeout S)",
};

pub const NO_CALL_ELSEWHERE: Shortfall = Shortfall {
    seen: "no call came after the GOAWAY on another connection",
    todo: "make one more call on the same channel, a second after the first has ended",
};

pub const ONE_AT_A_TIME: Shortfall = Shortfall {
    seen: "no two of its calls were open at once, though they might have been in the end",
    todo: "make ten calls at once after the first",
};

pub const NO_SIGN: Shortfall = Shortfall {
    seen: "nothing shows that it noticed the end of the connection",
    todo: "close the channel once the call has failed",
};
