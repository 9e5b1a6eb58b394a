//! The misbehaviours of gRPC's own tests of clients, by their names and rules (gRPC, "Negative
//! HTTP/2 Interop Test Case Descriptions").

use crate::misbehaviour::{Calls, Duty, Misbehaviour, Need, PLAIN};
use crate::responses::{HEAD, OK};
use crate::sentences::Sentence;
use crate::step::{LastStream, Part, PlayStep};

const RESET: &str =
    "the call fails; it sends nothing more on its stream, no RST_STREAM either (RFC 9113, 5.4.2 \
        and 6.4)";

pub static OFFICIAL: [Misbehaviour; 8] = [
    Misbehaviour {
        name: "goaway",
        does: "answers the first call well, after a GOAWAY that names it as the last",
        calls: Calls::Two,
        wants: "both calls go well, and the second comes on a new connection (RFC 9113, 6.8)",
        steps: &[
            PlayStep::AwaitCall,
            PlayStep::AwaitRequest,
            PlayStep::GoAway(LastStream::ThisCall),
            PlayStep::AwaitReading,
            PlayStep::Head(HEAD),
            PlayStep::Reply(Part::Rest),
            PlayStep::Trailers(OK),
        ],
        duty: Duty::Completes(Sentence::BothCallsGoWell),
        need: Need::CallElsewhere,
        ..PLAIN
    },
    Misbehaviour {
        name: "rst_after_header",
        does: "resets the call with NO_ERROR after its head",
        wants: RESET,
        steps: &[
            PlayStep::AwaitCall,
            PlayStep::AwaitRequest,
            PlayStep::Head(HEAD),
            PlayStep::Reset(0),
        ],
        ..PLAIN
    },
    Misbehaviour {
        name: "rst_during_data",
        does: "resets the call with NO_ERROR after half of its reply",
        wants: RESET,
        steps: &[
            PlayStep::AwaitCall,
            PlayStep::AwaitRequest,
            PlayStep::Head(HEAD),
            PlayStep::Reply(Part::Half),
            PlayStep::Reset(0),
        ],
        ..PLAIN
    },
    Misbehaviour {
        name: "rst_after_data",
        does: "resets the call with NO_ERROR after its whole reply, in place of the trailers",
        wants: RESET,
        steps: &[
            PlayStep::AwaitCall,
            PlayStep::AwaitRequest,
            PlayStep::Head(HEAD),
            PlayStep::Reply(Part::Rest),
            PlayStep::Reset(0),
        ],
        ..PLAIN
    },
    Misbehaviour {
        name: "ping",
        does: "sends PINGs between all frames of a good reply",
        wants: "it answers each PING with its bytes, and the call goes well (RFC 9113, 6.7)",
        steps: &[
            PlayStep::Ping,
            PlayStep::AwaitCall,
            PlayStep::Ping,
            PlayStep::AwaitRequest,
            PlayStep::Ping,
            PlayStep::Head(HEAD),
            PlayStep::Reply(Part::Pinged),
            PlayStep::AwaitReading,
            PlayStep::Trailers(OK),
            PlayStep::Ping,
            PlayStep::AwaitPongs,
        ],
        duty: Duty::Completes(Sentence::PingedCallGoesWell),
        ..PLAIN
    },
    Misbehaviour {
        name: "max_streams",
        does: "allows one call at a time until two were answered, each after a while, and then a \
            hundred",
        calls: Calls::Eleven,
        wants: "it never has two calls open on a connection while one is allowed, and all go well \
            (RFC 9113, 5.1.2)",
        opening: &[(3, 1)],
        steps: &[
            PlayStep::AnswerSlowly(2),
            PlayStep::Settings(&[(3, 100)]),
            PlayStep::AwaitAcks,
            PlayStep::AwaitTwoCalls,
        ],
        duty: Duty::Completes(Sentence::AllCallsGoWell),
        need: Need::CallsAtOnce,
        ..PLAIN
    },
    Misbehaviour {
        name: "data_frame_padding",
        does: "answers well, in DATA frames of five bytes and 255 bytes of padding",
        wants: "it gives credit for the padding too, and the call goes well (RFC 9113, 6.1 and \
            6.9.1)",
        steps: &[
            PlayStep::AwaitCall,
            PlayStep::AwaitRequest,
            PlayStep::Head(HEAD),
            PlayStep::Reply(Part::PaddedFives),
            PlayStep::AwaitReading,
            PlayStep::Trailers(OK),
        ],
        duty: Duty::Completes(Sentence::PaddedCallGoesWell),
        ..PLAIN
    },
    Misbehaviour {
        name: "no_df_padding_sanity_test",
        does: "answers well, in DATA frames of five bytes, without padding",
        wants: "the call goes well",
        steps: &[
            PlayStep::AwaitCall,
            PlayStep::AwaitRequest,
            PlayStep::Head(HEAD),
            PlayStep::Reply(Part::Fives),
            PlayStep::AwaitReading,
            PlayStep::Trailers(OK),
        ],
        duty: Duty::Completes(Sentence::SmallFramesGoWell),
        ..PLAIN
    },
];
