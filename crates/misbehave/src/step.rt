//! The steps of a misbehaviour. Each is about the call that was waited for last, on the connection
//! of that call.

/// The name and the value of a header field.
pub type Pair = (&'static str, &'static str);

/// The number and the value of a parameter of SETTINGS (RFC 9113, section 6.5.2).
pub type Setting = (u16, u32);

/// Which bytes of a call's right reply are sent, and how. A reply is the length-prefixed message
/// that the request asks for.
#[derive(Clone, Copy)]
pub enum Part {
    /// The first half.
    Half,
    /// What wasn't sent yet.
    Rest,
    /// What wasn't sent yet, with a PING before each frame.
    Pinged,
    /// The first thousand bytes: a DATA frame each, whose bytes are written one at a time.
    Bytewise,
    /// All of it, in frames whose padding is 1 MiB together.
    Padded,
    /// All of it, in frames of five bytes.
    Fives,
    /// All of it, in frames of five bytes and 255 bytes of padding.
    PaddedFives,
}

impl Part {
    /// Whether its frames are not as most servers send them.
    pub fn is_odd(self) -> bool {
        !matches!(self, Part::Half | Part::Rest)
    }
}

/// Which stream a GOAWAY names as the last.
#[derive(Clone, Copy)]
pub enum LastStream {
    /// The call's: later ones are not answered.
    ThisCall,
    /// None: no call is answered.
    None,
}

/// A step. A pause is in milliseconds.
#[derive(Clone, Copy)]
pub enum PlayStep {
    /// Waits for the head of the next call.
    AwaitCall,
    /// Waits for a call that is made after the last SETTINGS were acknowledged. Its header block
    /// has to begin with the change of the table's size to 0.
    AwaitUpdatedCall,
    /// Waits until the call's request is whole.
    AwaitRequest,
    /// Waits until this many bytes of DATA came of the call, which has to be as long.
    AwaitBytes(usize),
    /// Waits until all SETTINGS that were sent are acknowledged.
    AwaitAcks,
    /// Waits until all PINGs that were sent are answered.
    AwaitPongs,
    /// Waits until the client has read what was sent, which is the misbehaviour.
    AwaitReading,
    /// Waits until the client, which has to reject that, has done so, or went on for a second.
    AwaitRejection,
    /// Waits until this many calls were answered, each after a pause.
    AnswerSlowly(usize),
    /// Answers no call until two are open at once, or one was long alone.
    AwaitTwoCalls,
    /// Waits for this many milliseconds.
    Pause(u64),
    /// The call's request has to go on still.
    Unfinished,
    /// Sends SETTINGS.
    Settings(&'static [Setting]),
    /// Sends credit for this many bytes of the call.
    Credit(u32),
    /// From here on the bytes of all calls are given back as they come.
    GiveBack,
    /// Sends PING.
    Ping,
    /// Sends GOAWAY with NO_ERROR.
    GoAway(LastStream),
    /// Sends RST_STREAM with this code.
    Reset(u32),
    /// Sends a header block.
    Head(&'static [Pair]),
    /// Sends a header block with END_STREAM.
    Trailers(&'static [Pair]),
    /// Sends a header block in HEADERS and twenty CONTINUATIONs.
    Continued(&'static [Pair]),
    /// Sends a part of the right reply, as the client's windows let it through.
    Reply(Part),
    /// Sends these bytes as DATA.
    Data(&'static [u8]),
    /// Sends a frame of the call's stream with this type, these flags and this payload.
    Frame(u8, u8, &'static [u8]),
    /// Sends a DATA frame that is one byte longer than the client allows.
    TooLong,
    /// Sends more DATA at once than the client's windows let through.
    PastWindow,
    /// Sends half of a DATA frame.
    HalfFrame,
    /// Ends the server's side of the connection.
    Close,
}

impl PlayStep {
    /// What the step sends, in a word, or nothing where it waits.
    pub fn word(&self) -> &'static str {
        match self {
            PlayStep::Settings(_) => "SETTINGS",
            PlayStep::Credit(_) => "WINDOW_UPDATE",
            PlayStep::Ping => "PING",
            PlayStep::GoAway(_) => "GOAWAY",
            PlayStep::Reset(_) => "RST_STREAM",
            PlayStep::Head(_) => "HEADERS",
            PlayStep::Trailers(_) => "HEADERS with END_STREAM",
            PlayStep::Continued(_) => "HEADERS and 20 CONTINUATIONs",
            PlayStep::Reply(_) | PlayStep::Data(_) | PlayStep::PastWindow => "DATA",
            PlayStep::Frame(_, _, _) => "a frame",
            PlayStep::TooLong => "too long a frame",
            PlayStep::HalfFrame => "half of a DATA frame",
            PlayStep::Close => "the end of the connection",
            PlayStep::AnswerSlowly(_) => "replies",
            _ => "",
        }
    }

    /// What of the client the step waits for.
    pub fn awaited(&self) -> &'static str {
        match self {
            PlayStep::AwaitCall => "a call",
            PlayStep::AwaitUpdatedCall => "a second call, made once the first had ended",
            PlayStep::AwaitRequest | PlayStep::AwaitBytes(_) => "the rest of its request",
            PlayStep::AwaitAcks => "its acknowledgement of SETTINGS",
            PlayStep::AwaitPongs | PlayStep::AwaitReading | PlayStep::AwaitRejection =>
                "its answer of a PING",
            PlayStep::AnswerSlowly(_) => "a second call",
            PlayStep::AwaitTwoCalls => "two calls at once",
            PlayStep::Reply(_) => "its credit for the rest of the reply",
            _ => "its next frame",
        }
    }
}
