//! The sentences that misbehaviours rest on, as the standards have them.

use crate::rule::Rule;

/// A sentence that says what a client has to do of a misbehaviour.
#[derive(Clone, Copy)]
pub enum Sentence {
    /// Of goaway: both calls go well.
    BothCallsGoWell,
    /// Of ping: the call goes well.
    PingedCallGoesWell,
    /// Of max_streams: all calls go well.
    AllCallsGoWell,
    /// Of data_frame_padding: padded frames are received.
    PaddedCallGoesWell,
    /// Of no_df_padding_sanity_test: small frames are received.
    SmallFramesGoWell,
    /// Interim heads are read.
    InterimHeads,
    /// Trailers without END_STREAM are malformed.
    UnendedTrailers,
    /// A name in upper case is malformed.
    UpperCase,
    /// Too long a frame is an error.
    FrameSize,
    /// A header block that can't be read is an error of the connection.
    Decoding,
    /// Another frame inside a header block is an error of the connection.
    CutBlock,
    /// A change of the initial window changes all windows.
    WindowChange,
}

impl Sentence {
    /// Where it stands, and its words.
    pub fn rule(self) -> Rule {
        match self {
            Sentence::BothCallsGoWell => BOTH_CALLS_GO_WELL,
            Sentence::PingedCallGoesWell => PINGED_CALL_GOES_WELL,
            Sentence::AllCallsGoWell => ALL_CALLS_GO_WELL,
            Sentence::PaddedCallGoesWell => PADDED_CALL_GOES_WELL,
            Sentence::SmallFramesGoWell => SMALL_FRAMES_GO_WELL,
            Sentence::InterimHeads => INTERIM_HEADS,
            Sentence::UnendedTrailers => UNENDED_TRAILERS,
            Sentence::UpperCase => UPPER_CASE,
            Sentence::FrameSize => FRAME_SIZE,
            Sentence::Decoding => DECODING,
            Sentence::CutBlock => CUT_BLOCK,
            Sentence::WindowChange => WINDOW_CHANGE,
        }
    }
}

const RFC_9113: &str = "RFC 9113";

/// gRPC's document of its own tests of clients.
const GRPC_TESTS: &str = "gRPC, \"Negative HTTP/2 Interop Test Case Descriptions\"";

const BOTH_CALLS_GO_WELL: Rule = Rule {
    standard: GRPC_TESTS,
    section: "goaway",
    sentence: "Client asserts: Both calls are successful.",
};

const PINGED_CALL_GOES_WELL: Rule = Rule {
    standard: GRPC_TESTS,
    section: "ping",
    sentence: "Client asserts: call was successful.",
};

const ALL_CALLS_GO_WELL: Rule = Rule {
    standard: GRPC_TESTS,
    section: "max_streams",
    sentence: "Client Asserts: All UnaryCalls were successful, and had the correct type and \
        payload size.",
};

const PADDED_CALL_GOES_WELL: Rule = Rule {
    standard: GRPC_TESTS,
    section: "data_frame_padding (RFC 9113 has no sentence for it)",
    sentence: "This test verifies that the client can correctly receive padded http2 data frames.",
};

const SMALL_FRAMES_GO_WELL: Rule = Rule {
    standard: GRPC_TESTS,
    section: "no_df_padding_sanity_test",
    sentence: "This test verifies that the client can correctly receive a series of small data \
        frames.",
};

const INTERIM_HEADS: Rule = Rule {
    standard: "RFC 9110",
    section: "15.2",
    sentence: "A client MUST be able to parse one or more 1xx responses received prior to a final \
        response, even if the client does not expect one.",
};

const UNENDED_TRAILERS: Rule = Rule {
    standard: RFC_9113,
    section: "8.1 and 8.1.1",
    sentence: "An endpoint that receives a HEADERS frame without the END_STREAM flag set [..] \
        after receiving a final (non-informational) status code MUST treat the corresponding \
        request or response as malformed (Section 8.1.1).\"; \"Malformed requests or responses \
        that are detected MUST be treated as a stream error (Section 5.4.2) of type \
        PROTOCOL_ERROR.",
};

const UPPER_CASE: Rule = Rule {
    standard: RFC_9113,
    section: "8.2.1 and 8.1.1",
    sentence: "Implementations MUST perform the following minimal validation of field names and \
        values: [..] A field name MUST NOT contain characters in the ranges 0x00-0x20, 0x41-0x5a, \
        or 0x7f-0xff (all ranges inclusive).\"; \"A request or response that contains a field that \
        violates any of these conditions MUST be treated as malformed (Section 8.1.1).\"; \
        \"Malformed requests or responses that are detected MUST be treated as a stream error \
        (Section 5.4.2) of type PROTOCOL_ERROR.",
};

const FRAME_SIZE: Rule = Rule {
    standard: RFC_9113,
    section: "4.2",
    sentence: "An endpoint MUST send an error code of FRAME_SIZE_ERROR if a frame exceeds the size \
        defined in SETTINGS_MAX_FRAME_SIZE, exceeds any limit defined for the frame type, or is \
        too small to contain mandatory frame data.",
};

const DECODING: Rule = Rule {
    standard: "RFC 7541, 6.1, and RFC 9113",
    section: "4.3",
    sentence: "The index value of 0 is not used. It MUST be treated as a decoding error if found \
        in an indexed header field representation.\"; \"A decoding error in a field block MUST be \
        treated as a connection error (Section 5.4.1) of type COMPRESSION_ERROR.",
};

const CUT_BLOCK: Rule = Rule {
    standard: RFC_9113,
    section: "6.2",
    sentence: "A HEADERS frame without the END_HEADERS flag set MUST be followed by a CONTINUATION \
        frame for the same stream. A receiver MUST treat the receipt of any other type of frame or \
        a frame on a different stream as a connection error (Section 5.4.1) of type \
        PROTOCOL_ERROR.",
};

const WINDOW_CHANGE: Rule = Rule {
    standard: RFC_9113,
    section: "6.9.1 and 6.9.2",
    sentence: "A sender that receives a WINDOW_UPDATE frame updates the corresponding window by \
        the amount specified in the frame.\"; \"When the value of SETTINGS_INITIAL_WINDOW_SIZE \
        changes, a receiver MUST adjust the size of all stream flow-control windows that it \
        maintains by the difference between the new value and the old value.",
};
