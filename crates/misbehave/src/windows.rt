//! Misbehaviours in windows. The client's request has to be longer than a window, as that of
//! large_unary is.

use crate::misbehaviour::{Duty, Misbehaviour, PLAIN};
use crate::responses::{HEAD, OK};
use crate::sentences::Sentence;
use crate::step::{Part, PlayStep};

/// SETTINGS_INITIAL_WINDOW_SIZE as RFC 9113, section 6.5.2, has it at first.
const USUAL: &[(u16, u32)] = &[(4, 65_535)];

const WAITS: &str =
    "it sends no more DATA than the window lets through, and the call goes well once it opens \
        (RFC 9113, 6.9.1 and 6.9.2)";

pub static WINDOWS: [Misbehaviour; 4] = [
    Misbehaviour {
        name: "data_past_window",
        does: "sends more DATA at once than the client's windows let through",
        wants: "it takes them, or resets the call, or ends the connection (RFC 9113, 6.9 and 5.4)",
        steps: &[
            PlayStep::AwaitCall,
            PlayStep::AwaitRequest,
            PlayStep::Head(HEAD),
            PlayStep::PastWindow,
            PlayStep::Trailers(OK),
        ],
        ..PLAIN
    },
    Misbehaviour {
        name: "window_1",
        does: "gives calls a window of 1 byte at first, then 1 byte more three times, and then \
            the usual one",
        wants: WAITS,
        opening: &[(4, 1)],
        gives_back: false,
        duty: Duty::Proceeds(Sentence::WindowChange),
        steps: &[
            PlayStep::AwaitCall,
            PlayStep::AwaitAcks,
            PlayStep::AwaitReading,
            PlayStep::Pause(200),
            PlayStep::Credit(1),
            PlayStep::Pause(100),
            PlayStep::Credit(1),
            PlayStep::Pause(100),
            PlayStep::Credit(1),
            PlayStep::Pause(100),
            PlayStep::Unfinished,
            PlayStep::Settings(USUAL),
            PlayStep::GiveBack,
            PlayStep::AwaitRequest,
            PlayStep::Head(HEAD),
            PlayStep::Reply(Part::Rest),
            PlayStep::Trailers(OK),
        ],
        ..PLAIN
    },
    Misbehaviour {
        name: "window_0",
        does: "gives calls a window of 0 bytes at first, later 1,000 bytes, and then the usual one",
        wants: WAITS,
        opening: &[(4, 0)],
        gives_back: false,
        duty: Duty::Proceeds(Sentence::WindowChange),
        steps: &[
            PlayStep::AwaitCall,
            PlayStep::AwaitAcks,
            PlayStep::AwaitReading,
            PlayStep::Pause(300),
            PlayStep::Credit(1_000),
            PlayStep::Pause(100),
            PlayStep::Unfinished,
            PlayStep::Settings(USUAL),
            PlayStep::GiveBack,
            PlayStep::AwaitRequest,
            PlayStep::Head(HEAD),
            PlayStep::Reply(Part::Rest),
            PlayStep::Trailers(OK),
        ],
        ..PLAIN
    },
    Misbehaviour {
        name: "window_below_zero",
        does: "sets the initial window to 0 once 65,535 bytes came, then gives 60,000 bytes, \
            10,000 more, and the usual window again",
        wants: "it sends nothing while its window is below zero, and the call goes well once it \
            opens (RFC 9113, 6.9.2)",
        gives_back: false,
        duty: Duty::Proceeds(Sentence::WindowChange),
        steps: &[
            PlayStep::AwaitCall,
            PlayStep::AwaitBytes(65_535),
            PlayStep::Settings(&[(4, 0)]),
            PlayStep::AwaitAcks,
            PlayStep::AwaitReading,
            PlayStep::Credit(60_000),
            PlayStep::Pause(200),
            PlayStep::Credit(10_000),
            PlayStep::Pause(200),
            PlayStep::Unfinished,
            PlayStep::Settings(USUAL),
            PlayStep::GiveBack,
            PlayStep::AwaitRequest,
            PlayStep::Head(HEAD),
            PlayStep::Reply(Part::Rest),
            PlayStep::Trailers(OK),
        ],
        ..PLAIN
    },
];
