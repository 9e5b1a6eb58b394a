//! A misbehaviour: what the server does, and what a right client does then.

use crate::sentences::Sentence;
use crate::step::{PlayStep, Setting};

/// Which calls the client is to make.
#[derive(Clone, Copy)]
pub enum Calls {
    One,
    /// Two, one after another.
    Two,
    /// One, and then ten at once.
    Eleven,
}

impl Calls {
    /// What the client is to do, as text.
    pub fn text(self) -> &'static str {
        match self {
            Calls::One => "call UnaryCall as large_unary does, wait for its end, and close the \
                channel a second later",
            Calls::Two => "call UnaryCall as large_unary does, wait for its end, a second later \
                call it once more on the same channel, wait for its end, and close the channel",
            Calls::Eleven => "call UnaryCall as large_unary does, wait for its end, call it ten \
                times at once on the same channel, wait for their ends, and close the channel",
        }
    }
}

/// What a client may not do of the call that the steps are about, or has to do, and the sentence
/// that says so.
#[derive(Clone, Copy)]
pub enum Duty {
    /// No sentence says more than those that bind each client.
    Free,
    /// It may not give the call up by an error before its response has ended, nor leave it undone.
    Completes(Sentence),
    /// It may give the call up, but where it doesn't, it may not leave it undone.
    Proceeds(Sentence),
    /// It may do either: then nothing is seen of it.
    Tries,
    /// It has to end the stream, or the connection. The standard names the error of this code.
    EndsStream(u32, Sentence),
    /// It has to end the connection. The standard names the error of this code.
    EndsConnection(u32, Sentence),
}

/// What has to be seen of a client before anything can be said of it.
#[derive(Clone, Copy)]
pub enum Need {
    Nothing,
    /// That it read the response.
    Reading,
    /// A call on another connection.
    CallElsewhere,
    /// A call while another was open.
    CallsAtOnce,
    /// That it noticed the end of the connection.
    Sign,
}

/// A misbehaviour of the server.
#[derive(Clone, Copy)]
pub struct Misbehaviour {
    pub name: &'static str,
    /// What the server does.
    pub does: &'static str,
    /// Which calls the client is to make.
    pub calls: Calls,
    /// What a right client does then, and which section says so.
    pub wants: &'static str,
    /// The parameters of the SETTINGS with which the connection begins.
    pub opening: &'static [Setting],
    /// Whether the client's SETTINGS are acknowledged.
    pub acknowledges: bool,
    /// Whether a call's bytes are given back as they come, before a step says so.
    pub gives_back: bool,
    pub steps: &'static [PlayStep],
    pub duty: Duty,
    pub need: Need,
}

/// A misbehaviour whose connection begins as a right one does, and which does nothing yet.
pub const PLAIN: Misbehaviour = Misbehaviour {
    name: "",
    does: "",
    calls: Calls::One,
    wants: "",
    opening: &[],
    acknowledges: true,
    gives_back: true,
    steps: &[],
    duty: Duty::Free,
    need: Need::Reading,
};
