//! Misbehaviours in frames: what they hold, how long they are, and where they stand.

use crate::misbehaviour::{Calls, Duty, Misbehaviour, Need, PLAIN};
use crate::responses::{HEAD, OK};
use crate::sentences::Sentence;
use crate::step::{LastStream, Part, PlayStep};

pub static FRAMING: [Misbehaviour; 9] = [
    Misbehaviour {
        name: "data_after_trailers",
        does: "sends DATA on the call's stream after the trailers of a good reply",
        wants: "it passes over them, or resets the stream or ends the connection with \
            STREAM_CLOSED (RFC 9113, 5.1 and 6.1)",
        steps: &[
            PlayStep::AwaitCall,
            PlayStep::AwaitRequest,
            PlayStep::Head(HEAD),
            PlayStep::Reply(Part::Rest),
            PlayStep::Trailers(OK),
            PlayStep::Frame(0, 0, b"late"),
        ],
        ..PLAIN
    },
    Misbehaviour {
        name: "hpack_index_0",
        does: "answers with a header block of the index 0",
        wants: "it ends the connection (RFC 7541, 6.1; RFC 9113, 4.3 and 5.4)",
        steps: &[
            PlayStep::AwaitCall,
            PlayStep::AwaitRequest,
            PlayStep::Frame(1, 4, b"\x88\x80"),
        ],
        duty: Duty::EndsConnection(9, Sentence::Decoding),
        need: Need::Nothing,
        ..PLAIN
    },
    Misbehaviour {
        name: "block_cut_by_data",
        does: "sends DATA inside the header block of the head",
        wants: "it ends the connection (RFC 9113, 6.2 and 5.4)",
        steps: &[
            PlayStep::AwaitCall,
            PlayStep::AwaitRequest,
            PlayStep::Frame(1, 0, b"\x88"),
            PlayStep::Frame(0, 0, b"\x00\x00\x00\x00\x00"),
        ],
        duty: Duty::EndsConnection(1, Sentence::CutBlock),
        need: Need::Nothing,
        ..PLAIN
    },
    Misbehaviour {
        name: "frame_too_long",
        does: "sends a DATA frame of one byte more than SETTINGS_MAX_FRAME_SIZE allows, 16,385 \
            where the client said none",
        wants: "it resets the call, or ends the connection (RFC 9113, 4.2 and 5.4)",
        steps: &[
            PlayStep::AwaitCall,
            PlayStep::AwaitRequest,
            PlayStep::Head(HEAD),
            PlayStep::TooLong,
            PlayStep::AwaitRejection,
            PlayStep::Trailers(OK),
        ],
        duty: Duty::EndsStream(6, Sentence::FrameSize),
        need: Need::Nothing,
        ..PLAIN
    },
    Misbehaviour {
        name: "byte_by_byte",
        does: "answers well, the reply's first 1,000 bytes in DATA frames of a byte that are \
            written byte by byte",
        wants: "the call goes well (gRPC over HTTP/2, \"Data Frames\"), or it is given up (RFC \
            9113, 10.5)",
        steps: &[
            PlayStep::AwaitCall,
            PlayStep::AwaitRequest,
            PlayStep::Head(HEAD),
            PlayStep::Reply(Part::Bytewise),
            PlayStep::AwaitReading,
            PlayStep::Reply(Part::Rest),
            PlayStep::Trailers(OK),
        ],
        duty: Duty::Tries,
        ..PLAIN
    },
    Misbehaviour {
        name: "padding_1_mib",
        does: "answers well, in DATA frames with 1 MiB of padding",
        wants: "it gives credit for the padding too, and the call goes well (RFC 9113, 6.1 and \
            6.9.1), or it is given up",
        steps: &[
            PlayStep::AwaitCall,
            PlayStep::AwaitRequest,
            PlayStep::Head(HEAD),
            PlayStep::Reply(Part::Padded),
            PlayStep::AwaitReading,
            PlayStep::Trailers(OK),
        ],
        duty: Duty::Tries,
        ..PLAIN
    },
    Misbehaviour {
        name: "table_size_0",
        does: "sets SETTINGS_HEADER_TABLE_SIZE to 0 in the middle of the first call",
        calls: Calls::Two,
        wants: "the header block of its next call begins with a change of the table's size to 0 \
            (RFC 7541, 4.2; RFC 9113, 4.3.1)",
        steps: &[
            PlayStep::AwaitCall,
            PlayStep::AwaitRequest,
            PlayStep::Head(HEAD),
            PlayStep::Settings(&[(1, 0)]),
            PlayStep::AwaitAcks,
            PlayStep::Reply(Part::Rest),
            PlayStep::Trailers(OK),
            PlayStep::AwaitUpdatedCall,
        ],
        ..PLAIN
    },
    Misbehaviour {
        name: "settings_unacknowledged",
        does: "answers well, and never acknowledges the client's SETTINGS",
        wants: "the call goes well; in the end it may close the connection with SETTINGS_TIMEOUT \
            (RFC 9113, 6.5.3)",
        acknowledges: false,
        steps: &[
            PlayStep::AwaitCall,
            PlayStep::AwaitRequest,
            PlayStep::Head(HEAD),
            PlayStep::Reply(Part::Rest),
            PlayStep::Trailers(OK),
        ],
        ..PLAIN
    },
    Misbehaviour {
        name: "goaway_last_0",
        does: "sends GOAWAY with NO_ERROR and the last stream 0 while a call waits for its answer",
        calls: Calls::Two,
        wants: "it opens no further stream there; the call fails with UNAVAILABLE, or is made \
            again on a new connection, and so is the next (RFC 9113, 6.8)",
        steps: &[
            PlayStep::AwaitCall,
            PlayStep::AwaitRequest,
            PlayStep::GoAway(LastStream::None),
        ],
        need: Need::CallElsewhere,
        ..PLAIN
    },
];
