//! The state of one stream (RFC 9113, section 5.1), and what changes it.

ghost use Rattle.std.specs.Prelude.{◌≡◌, Option, None, Some, true, false, not};
ghost use Rattle.outwriter.specs.States.{amount_of, can_write};

/// How the end of a stream was written.
#[derive(Clone, Copy)]
pub(crate) enum Over {
    EndStream,
    RstStream,
}

/// The state of a stream. `over` is how its end was written, if it was.
#[derive(Clone, Copy)]
pub(crate) enum StreamState {
    /// It is no call's, and wasn't reset.
    NoCall { over: Option<Over> },
    /// It is a call's, and wasn't reset. `owed` bytes are to be credited to the peer.
    Call { owed: u32, over: Option<Over> },
    /// It was reset. No credit is owed on it.
    Reset { is_call: bool, over: Option<Over> },
}

/// What changes the state of a stream.
#[derive(Clone, Copy)]
pub(crate) enum Change {
    /// A call begins on it.
    Open,
    /// It is heard of.
    Hear,
    /// It is reset.
    Reset,
    /// Its end is written.
    End(Over),
}

impl StreamState {
    ghost use Rattle.outwriter.specs.States.{IsAfter, end_of, is_paid, is_of_call, is_reset_state};

    fn is_call(&self) -> bool
        ensures { result ≡ is_of_call self.now }
    {
        match self {
            StreamState::NoCall { .. } => false,
            StreamState::Call { .. } => true,
            StreamState::Reset { is_call, .. } => *is_call,
        }
    }

    /// Whether credit may be owed on it.
    pub(crate) fn is_paid(&self) -> bool
        ensures { result ≡ is_paid self.now }
    {
        match self {
            StreamState::Call { .. } => true,
            StreamState::NoCall { .. } => false,
            StreamState::Reset { .. } => false,
        }
    }

    pub(crate) fn is_reset(&self) -> bool
        ensures { result ≡ is_reset_state self.now }
    {
        match self {
            StreamState::Reset { .. } => true,
            StreamState::NoCall { .. } => false,
            StreamState::Call { .. } => false,
        }
    }

    /// Whether it has neither ended nor been reset.
    pub(crate) fn can_write(&self) -> bool
        ensures { result ≡ can_write self.now }
    {
        self.over().is_none() && !self.is_reset()
    }

    /// How its end was written, if it was.
    pub(crate) fn over(&self) -> Option<Over>
        ensures { result ≡ end_of self.now }
    {
        match self {
            StreamState::NoCall { over } => *over,
            StreamState::Call { over, .. } => *over,
            StreamState::Reset { over, .. } => *over,
        }
    }

    /// The state after a change.
    pub(crate) fn after(self, change: Change) -> StreamState
        ensures { IsAfter change self result }
    {
        match change {
            Change::Open => self.opened(),
            Change::Hear => self,
            Change::Reset => self.reset(),
            Change::End(by) => self.ended(by),
        }
    }

    /// The state after an Open. A call's state stays.
    fn opened(self) -> StreamState
        ensures end { end_of result ≡ end_of self }
        ensures amount { amount_of result ≡ amount_of self }
        ensures call { is_of_call result ≡ true }
        ensures paid { is_paid result ≡ not (is_reset_state self) }
        ensures reset { is_reset_state result ≡ is_reset_state self }
    {
        match self {
            StreamState::NoCall { over } => StreamState::Call { owed: 0, over },
            StreamState::Call { owed, over } => StreamState::Call { owed, over },
            StreamState::Reset { over, .. } => StreamState::Reset {
                is_call: true,
                over,
            },
        }
    }

    /// The state after a Reset.
    fn reset(self) -> StreamState
        ensures end { end_of result ≡ end_of self }
        ensures amount { amount_of result ≡ 0 }
        ensures call { is_of_call result ≡ is_of_call self }
        ensures paid { is_paid result ≡ false }
        ensures reset { is_reset_state result ≡ true }
    {
        StreamState::Reset {
            is_call: self.is_call(),
            over: self.over(),
        }
    }

    /// The state after its end.
    fn ended(self, by: Over) -> StreamState
        ensures end { end_of result ≡ Some by }
        ensures amount { amount_of result ≡ amount_of self }
        ensures call { is_of_call result ≡ is_of_call self }
        ensures paid { is_paid result ≡ is_paid self }
        ensures reset { is_reset_state result ≡ is_reset_state self }
    {
        let over = Some(by);
        match self {
            StreamState::NoCall { .. } => StreamState::NoCall { over },
            StreamState::Call { owed, .. } => StreamState::Call { owed, over },
            StreamState::Reset { is_call, .. } => StreamState::Reset { is_call, over },
        }
    }
}
