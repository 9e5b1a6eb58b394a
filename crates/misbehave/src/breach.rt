//! What no client may do, whatever the server does, each with the sentence that forbids it.

use crate::rule::Rule;

/// What a client did that none may.
#[derive(Clone, Copy)]
pub struct Breach {
    /// What it did, as `it sent DATA past a window`.
    pub deed: &'static str,
    pub rule: Rule,
}

const RFC_9113: &str = "RFC 9113";

/// A frame over the least SETTINGS_MAX_FRAME_SIZE, which this server leaves as it is.
pub const FRAME_TOO_LONG: Breach = Breach {
    deed: "it sent a frame of over 16,384 bytes",
    rule: Rule {
        standard: RFC_9113,
        section: "4.1",
        sentence: "Values greater than 2^14 (16,384) MUST NOT be sent unless the receiver has set \
            a larger value for SETTINGS_MAX_FRAME_SIZE.",
    },
};

/// A frame whose length its type doesn't have.
pub const BAD_LENGTH: Breach = Breach {
    deed: "it sent a frame of a length that its type doesn't have",
    rule: Rule {
        standard: RFC_9113,
        section: "4.2 and 6.5",
        sentence: "An endpoint MUST send an error code of FRAME_SIZE_ERROR if a frame exceeds the \
            size defined in SETTINGS_MAX_FRAME_SIZE, exceeds any limit defined for the frame type, \
            or is too small to contain mandatory frame data.\"; \"A SETTINGS frame with a length \
            other than a multiple of 6 octets MUST be treated as a connection error (Section \
            5.4.1) of type FRAME_SIZE_ERROR.",
    },
};

/// Padding that doesn't fit its frame.
pub const BAD_PADDING: Breach = Breach {
    deed: "it sent a frame with more padding than fits it",
    rule: Rule {
        standard: RFC_9113,
        section: "6.1 and 6.2",
        sentence: "If the length of the padding is the length of the frame payload or greater, the \
            recipient MUST treat this as a connection error (Section 5.4.1) of type \
            PROTOCOL_ERROR.",
    },
};

/// A frame of the connection on a stream, or one of a stream on the connection.
pub const WRONG_STREAM: Breach = Breach {
    deed: "it sent a frame of the connection on a stream, or one of a stream on the stream 0",
    rule: Rule {
        standard: RFC_9113,
        section: "4.1, 6.5, 6.7 and 6.8",
        sentence: "The value 0x00 is reserved for frames that are associated with the connection \
            as a whole as opposed to an individual stream.\"; \"The stream identifier for a \
            SETTINGS frame MUST be zero (0x00).\"; \"If a PING frame is received with a Stream \
            Identifier field value other than 0x00, the recipient MUST respond with a connection \
            error (Section 5.4.1) of type PROTOCOL_ERROR.\"; \"An endpoint MUST treat a GOAWAY \
            frame with a stream identifier other than 0x00 as a connection error (Section 5.4.1) \
            of type PROTOCOL_ERROR.",
    },
};

/// WINDOW_UPDATE without an increment.
pub const ZERO_INCREMENT: Breach = Breach {
    deed: "it sent WINDOW_UPDATE with an increment of 0",
    rule: Rule {
        standard: RFC_9113,
        section: "6.9",
        sentence: "The legal range for the increment to the flow-control window is 1 to 2^31-1 \
            (2,147,483,647) octets.\"; \"A receiver MUST treat the receipt of a WINDOW_UPDATE \
            frame with a flow-control window increment of 0 as a stream error (Section 5.4.2) of \
            type PROTOCOL_ERROR [..].",
    },
};

/// A client pushes.
pub const PUSHED: Breach = Breach {
    deed: "it sent PUSH_PROMISE",
    rule: Rule {
        standard: RFC_9113,
        section: "8.4",
        sentence: "A client cannot push. Thus, servers MUST treat the receipt of a PUSH_PROMISE \
            frame as a connection error (Section 5.4.1) of type PROTOCOL_ERROR.",
    },
};

/// CONTINUATION with no block to go on.
pub const LOST_CONTINUATION: Breach = Breach {
    deed: "it sent CONTINUATION with no header block before it",
    rule: Rule {
        standard: RFC_9113,
        section: "6.10",
        sentence: "A CONTINUATION frame MUST be preceded by a HEADERS, PUSH_PROMISE or \
            CONTINUATION frame without the END_HEADERS flag set.",
    },
};

/// Another frame inside a header block.
pub const CUT_BLOCK: Breach = Breach {
    deed: "it sent another frame inside a header block",
    rule: Rule {
        standard: RFC_9113,
        section: "4.3",
        sentence: "Field blocks MUST be transmitted as a contiguous sequence of frames, with no \
            interleaved frames of any other type or from any other stream.",
    },
};

/// A header block that can't be read.
pub const UNREADABLE_BLOCK: Breach = Breach {
    deed: "it sent a header block that can't be read",
    rule: Rule {
        standard: RFC_9113,
        section: "4.3",
        sentence: "A decoding error in a field block MUST be treated as a connection error \
            (Section 5.4.1) of type COMPRESSION_ERROR.",
    },
};

/// SETTINGS cut inside a parameter.
pub const SETTINGS_LENGTH: Breach = Breach {
    deed: "it sent SETTINGS that end inside a parameter",
    rule: Rule {
        standard: RFC_9113,
        section: "6.5",
        sentence: "A SETTINGS frame with a length other than a multiple of 6 octets MUST be \
            treated as a connection error (Section 5.4.1) of type FRAME_SIZE_ERROR.",
    },
};

/// A parameter with a value that it may not have.
pub const SETTING_VALUE: Breach = Breach {
    deed: "it sent SETTINGS with a value that the parameter may not have",
    rule: Rule {
        standard: RFC_9113,
        section: "6.5.2",
        sentence: "Any value other than 0 or 1 [of SETTINGS_ENABLE_PUSH] MUST be treated as a \
            connection error (Section 5.4.1) of type PROTOCOL_ERROR.\"; \"Values [of \
            SETTINGS_INITIAL_WINDOW_SIZE] above the maximum flow-control window size of 2^31-1 \
            MUST be treated as a connection error (Section 5.4.1) of type FLOW_CONTROL_ERROR.\"; \
            \"Values outside this range [2^14 to 2^24-1, of SETTINGS_MAX_FRAME_SIZE] MUST be \
            treated as a connection error (Section 5.4.1) of type PROTOCOL_ERROR.",
    },
};

/// Credit past the largest window.
pub const WINDOW_TOO_LARGE: Breach = Breach {
    deed: "it gave credit up to a window of over 2,147,483,647 bytes",
    rule: Rule {
        standard: RFC_9113,
        section: "6.9.1 and 6.9.2",
        sentence: "If a sender receives a WINDOW_UPDATE that causes a flow-control window to \
            exceed this maximum [of 2^31-1 octets], it MUST terminate either the stream or the \
            connection, as appropriate.\"; \"An endpoint MUST treat a change to \
            SETTINGS_INITIAL_WINDOW_SIZE that causes any flow-control window to exceed the maximum \
            size as a connection error (Section 5.4.1) of type FLOW_CONTROL_ERROR.",
    },
};

/// A stream that no client opens.
pub const EVEN_STREAM: Breach = Breach {
    deed: "it opened a stream of an even number, or the stream 0",
    rule: Rule {
        standard: RFC_9113,
        section: "5.1.1",
        sentence: "Streams initiated by a client MUST use odd-numbered stream identifiers [..].",
    },
};

/// A stream below one that was opened.
pub const OLD_STREAM: Breach = Breach {
    deed: "it opened a stream of a lower number than one before",
    rule: Rule {
        standard: RFC_9113,
        section: "5.1.1",
        sentence: "The identifier of a newly established stream MUST be numerically greater than \
            all streams that the initiating endpoint has opened or reserved.",
    },
};

/// DATA on a stream that wasn't opened.
pub const IDLE_STREAM: Breach = Breach {
    deed: "it sent DATA on a stream that it hadn't opened",
    rule: Rule {
        standard: RFC_9113,
        section: "5.1",
        sentence: "Receiving any frame other than HEADERS or PRIORITY on a stream in this state \
            [idle] MUST be treated as a connection error (Section 5.4.1) of type \
            PROTOCOL_ERROR.\"; \"An endpoint MUST NOT send frames other than PRIORITY on a closed \
            stream.",
    },
};

/// DATA past a window.
pub const PAST_WINDOW: Breach = Breach {
    deed: "it sent DATA past a window",
    rule: Rule {
        standard: RFC_9113,
        section: "6.9.1",
        sentence: "The sender MUST NOT send a flow-controlled frame with a length that exceeds \
            the space available in either of the flow-control windows advertised by the receiver.",
    },
};

/// A call more than are allowed at once.
pub const TOO_MANY_CALLS: Breach = Breach {
    deed: "it had more calls open than SETTINGS_MAX_CONCURRENT_STREAMS allows",
    rule: Rule {
        standard: RFC_9113,
        section: "5.1.2",
        sentence: "Endpoints MUST NOT exceed the limit set by their peer.",
    },
};

/// A call on a connection after a GOAWAY that was read.
pub const CALL_AFTER_GOAWAY: Breach = Breach {
    deed: "it opened a stream after a GOAWAY that it had read",
    rule: Rule {
        standard: RFC_9113,
        section: "6.8",
        sentence: "Receivers of a GOAWAY frame MUST NOT open additional streams on the \
            connection, although a new connection can be established for new streams.",
    },
};

/// A frame on a stream after a RST_STREAM that was read.
pub const FRAME_AFTER_RESET: Breach = Breach {
    deed: "it sent a frame on a stream after a RST_STREAM that it had read",
    rule: Rule {
        standard: RFC_9113,
        section: "6.4",
        sentence: "After receiving a RST_STREAM on a stream, the receiver MUST NOT send additional \
            frames for that stream, except for PRIORITY.",
    },
};

/// A header block without the change of the table's size.
pub const NO_SIZE_UPDATE: Breach = Breach {
    deed: "a header block didn't begin with the change of the table's size",
    rule: Rule {
        standard: RFC_9113,
        section: "4.3.1",
        sentence: "Once an endpoint acknowledges a change to SETTINGS_HEADER_TABLE_SIZE that \
            reduces the maximum below the current size of the dynamic table, its HPACK encoder \
            MUST start the next field block with a Dynamic Table Size Update instruction that sets \
            the dynamic table to a size that is less than or equal to the reduced maximum [..].",
    },
};

/// SETTINGS that weren't acknowledged.
pub const NO_ACK: Breach = Breach {
    deed: "it didn't acknowledge SETTINGS within 10 seconds",
    rule: Rule {
        standard: RFC_9113,
        section: "6.5.3",
        sentence: "Once all values have been processed, the recipient MUST immediately emit a \
            SETTINGS frame with the ACK flag set.",
    },
};

/// A PING that wasn't answered.
pub const NO_PONG: Breach = Breach {
    deed: "it didn't answer a PING within 10 seconds",
    rule: Rule {
        standard: RFC_9113,
        section: "6.7",
        sentence: "Receivers of a PING frame that does not include an ACK flag MUST send a PING \
            frame with the ACK flag set in response, with an identical frame payload.",
    },
};

/// A PING that was answered with other bytes.
pub const OTHER_PONG: Breach = Breach {
    deed: "it answered a PING with other bytes than the PING's",
    rule: Rule {
        standard: RFC_9113,
        section: "6.7",
        sentence: "Receivers of a PING frame that does not include an ACK flag MUST send a PING \
            frame with the ACK flag set in response, with an identical frame payload.",
    },
};
