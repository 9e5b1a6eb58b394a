//! Misbehaviours in what a call is answered: its head, its messages and its trailers.

use crate::misbehaviour::{Duty, Misbehaviour, Need, PLAIN};
use crate::sentences::Sentence;
use crate::step::{Pair, Part, PlayStep};

/// The head of a right response.
pub const HEAD: &[Pair] = &[(":status", "200"), ("content-type", "application/grpc")];

/// The trailers of a call that ended well.
pub const OK: &[Pair] = &[("grpc-status", "0")];

const CALL_FAILS: &str =
    "the call fails with a status that the client makes up (gRPC over HTTP/2, \"Responses\")";

const INTERNAL: &str =
    "the call fails; INTERNAL fits (gRPC over HTTP/2, \"Requests\": Length-Prefixed-Message)";

const HTTP_STATUS: &str =
    "the call fails with the status that the HTTP status means (404 UNIMPLEMENTED, 503 \
        UNAVAILABLE, 200 UNKNOWN; gRPC, \"HTTP to gRPC Status Code Mapping\")";

const GIVEN_STATUS: &str =
    "the call ends with the given grpc-status, whatever the HTTP status (gRPC, \"HTTP to gRPC \
        Status Code Mapping\")";

pub static RESPONSES: [Misbehaviour; 18] = [
    Misbehaviour {
        name: "no_grpc_status",
        does: "ends a good reply with trailers that have no grpc-status",
        wants: CALL_FAILS,
        steps: &[
            PlayStep::AwaitCall,
            PlayStep::AwaitRequest,
            PlayStep::Head(HEAD),
            PlayStep::Reply(Part::Rest),
            PlayStep::Trailers(&[("x-trailer", "1")]),
        ],
        ..PLAIN
    },
    Misbehaviour {
        name: "no_content_type",
        does: "answers well, but for a head without content-type",
        wants: "the call ends well, or fails (gRPC over HTTP/2, \"Responses\")",
        steps: &[
            PlayStep::AwaitCall,
            PlayStep::AwaitRequest,
            PlayStep::Head(&[(":status", "200")]),
            PlayStep::AwaitReading,
            PlayStep::Reply(Part::Rest),
            PlayStep::Trailers(OK),
        ],
        ..PLAIN
    },
    Misbehaviour {
        name: "http_404",
        does: "answers by :status 404 alone",
        wants: HTTP_STATUS,
        steps: &[
            PlayStep::AwaitCall,
            PlayStep::AwaitRequest,
            PlayStep::Trailers(&[(":status", "404"), ("content-type", "text/html")]),
        ],
        ..PLAIN
    },
    Misbehaviour {
        name: "http_404_with_grpc_status",
        does: "answers by :status 404 and grpc-status 5",
        wants: GIVEN_STATUS,
        steps: &[
            PlayStep::AwaitCall,
            PlayStep::AwaitRequest,
            PlayStep::Trailers(&[
                (":status", "404"),
                ("content-type", "application/grpc"),
                ("grpc-status", "5"),
            ]),
        ],
        ..PLAIN
    },
    Misbehaviour {
        name: "http_200",
        does: "answers by :status 200 alone",
        wants: HTTP_STATUS,
        steps: &[
            PlayStep::AwaitCall,
            PlayStep::AwaitRequest,
            PlayStep::Trailers(HEAD),
        ],
        ..PLAIN
    },
    Misbehaviour {
        name: "http_200_with_grpc_status",
        does: "answers by :status 200 and grpc-status 5, without a message",
        wants: GIVEN_STATUS,
        steps: &[
            PlayStep::AwaitCall,
            PlayStep::AwaitRequest,
            PlayStep::Trailers(&[
                (":status", "200"),
                ("content-type", "application/grpc"),
                ("grpc-status", "5"),
            ]),
        ],
        ..PLAIN
    },
    Misbehaviour {
        name: "http_503",
        does: "answers by :status 503 alone",
        wants: HTTP_STATUS,
        steps: &[
            PlayStep::AwaitCall,
            PlayStep::AwaitRequest,
            PlayStep::Trailers(&[(":status", "503"), ("content-type", "text/html")]),
        ],
        ..PLAIN
    },
    Misbehaviour {
        name: "http_503_with_grpc_status",
        does: "answers by :status 503 and grpc-status 5",
        wants: GIVEN_STATUS,
        steps: &[
            PlayStep::AwaitCall,
            PlayStep::AwaitRequest,
            PlayStep::Trailers(&[
                (":status", "503"),
                ("content-type", "application/grpc"),
                ("grpc-status", "5"),
            ]),
        ],
        ..PLAIN
    },
    Misbehaviour {
        name: "trailers_without_end_stream",
        does: "ends a good reply with trailers that lack END_STREAM, and with nothing after them",
        wants: "the response is malformed: it resets the call, or ends the connection (RFC 9113, \
            8.1, 8.1.1 and 5.4)",
        steps: &[
            PlayStep::AwaitCall,
            PlayStep::AwaitRequest,
            PlayStep::Head(HEAD),
            PlayStep::Reply(Part::Rest),
            PlayStep::Head(OK),
        ],
        duty: Duty::EndsStream(1, Sentence::UnendedTrailers),
        need: Need::Nothing,
        ..PLAIN
    },
    Misbehaviour {
        name: "upper_case_head",
        does: "answers well, but for a head with a name in upper case",
        wants: "the response is malformed: it resets the call, or ends the connection (RFC 9113, \
            8.2.1, 8.1.1 and 5.4)",
        steps: &[
            PlayStep::AwaitCall,
            PlayStep::AwaitRequest,
            PlayStep::Head(&[
                (":status", "200"),
                ("content-type", "application/grpc"),
                ("X-Upper", "1"),
            ]),
            PlayStep::AwaitRejection,
            PlayStep::Reply(Part::Rest),
            PlayStep::Trailers(OK),
        ],
        duty: Duty::EndsStream(1, Sentence::UpperCase),
        need: Need::Nothing,
        ..PLAIN
    },
    Misbehaviour {
        name: "flag_1_without_encoding",
        does: "answers with a message whose flag says that it is compressed, though no encoding \
            was said",
        wants: INTERNAL,
        steps: &[
            PlayStep::AwaitCall,
            PlayStep::AwaitRequest,
            PlayStep::Head(HEAD),
            PlayStep::Data(b"\x01\x00\x00\x00\x02\x0a\x00"),
            PlayStep::Trailers(OK),
        ],
        ..PLAIN
    },
    Misbehaviour {
        name: "flag_7",
        does: "answers with a message whose flag is 7",
        wants: INTERNAL,
        steps: &[
            PlayStep::AwaitCall,
            PlayStep::AwaitRequest,
            PlayStep::Head(HEAD),
            PlayStep::Data(b"\x07\x00\x00\x00\x02\x0a\x00"),
            PlayStep::Trailers(OK),
        ],
        ..PLAIN
    },
    Misbehaviour {
        name: "prefix_says_more",
        does: "answers with a message whose prefix says 100 bytes, and with two of them before \
            good trailers",
        wants: INTERNAL,
        steps: &[
            PlayStep::AwaitCall,
            PlayStep::AwaitRequest,
            PlayStep::Head(HEAD),
            PlayStep::Data(b"\x00\x00\x00\x00\x64\x0a\x00"),
            PlayStep::Trailers(OK),
        ],
        ..PLAIN
    },
    Misbehaviour {
        name: "prefix_says_less",
        does: "answers with a message whose prefix says two bytes, and with six bytes before good \
            trailers",
        wants: INTERNAL,
        steps: &[
            PlayStep::AwaitCall,
            PlayStep::AwaitRequest,
            PlayStep::Head(HEAD),
            PlayStep::Data(b"\x00\x00\x00\x00\x02\x0a\x00\x0a\x00\x0a\x00"),
            PlayStep::Trailers(OK),
        ],
        ..PLAIN
    },
    Misbehaviour {
        name: "percent_broken",
        does: "ends the call with status 2 and a grpc-message with broken escapes",
        wants: "the call ends with UNKNOWN and some text (gRPC over HTTP/2, \"Responses\")",
        steps: &[
            PlayStep::AwaitCall,
            PlayStep::AwaitRequest,
            PlayStep::Trailers(&[
                (":status", "200"),
                ("content-type", "application/grpc"),
                ("grpc-status", "2"),
                ("grpc-message", "100% of %zz %4"),
            ]),
        ],
        ..PLAIN
    },
    Misbehaviour {
        name: "bin_not_base64",
        does: "ends a good reply with trailers in which the value of x-test-bin is no base64",
        wants: "the call ends (gRPC over HTTP/2, \"Requests\": Binary-Header)",
        steps: &[
            PlayStep::AwaitCall,
            PlayStep::AwaitRequest,
            PlayStep::Head(HEAD),
            PlayStep::Reply(Part::Rest),
            PlayStep::Trailers(&[("grpc-status", "0"), ("x-test-bin", "!?*=not base64")]),
        ],
        ..PLAIN
    },
    Misbehaviour {
        name: "twenty_continuations",
        does: "answers well, with a head in HEADERS and twenty CONTINUATIONs",
        wants: "the call goes well (RFC 9113, 4.3 and 6.10), or it is given up (10.5.1)",
        steps: &[
            PlayStep::AwaitCall,
            PlayStep::AwaitRequest,
            PlayStep::Continued(HEAD),
            PlayStep::AwaitReading,
            PlayStep::Reply(Part::Rest),
            PlayStep::Trailers(OK),
        ],
        duty: Duty::Tries,
        ..PLAIN
    },
    Misbehaviour {
        name: "interim_heads",
        does: "answers well, after three heads of status 100 and 103",
        wants: "the call goes well (RFC 9113, 8.1; RFC 9110, 15.2)",
        steps: &[
            PlayStep::AwaitCall,
            PlayStep::AwaitRequest,
            PlayStep::Head(&[(":status", "100")]),
            PlayStep::Head(&[(":status", "103"), ("link", "</a>")]),
            PlayStep::Head(&[(":status", "103")]),
            PlayStep::AwaitReading,
            PlayStep::Head(HEAD),
            PlayStep::Reply(Part::Rest),
            PlayStep::Trailers(OK),
        ],
        duty: Duty::Completes(Sentence::InterimHeads),
        ..PLAIN
    },
];
