//! Connections that the server ends, at each point of a call.

use crate::misbehaviour::{Misbehaviour, Need, PLAIN};
use crate::responses::HEAD;
use crate::step::{Part, PlayStep};

const LEAVES: &str =
    "the call fails with UNAVAILABLE, or is made again elsewhere (gRPC over HTTP/2, \"Connection \
        failure\"; RFC 9113, 9.1)";

pub static CLOSING: [Misbehaviour; 6] = [
    Misbehaviour {
        name: "closed_before_the_call",
        does: "ends the connection after its SETTINGS, before a call comes",
        wants: LEAVES,
        steps: &[PlayStep::Close],
        need: Need::Sign,
        ..PLAIN
    },
    Misbehaviour {
        name: "closed_after_the_request_head",
        does: "ends the connection once a call's head came",
        wants: LEAVES,
        steps: &[PlayStep::AwaitCall, PlayStep::Close],
        need: Need::Sign,
        ..PLAIN
    },
    Misbehaviour {
        name: "closed_after_the_request",
        does: "ends the connection once a call's request came",
        wants: LEAVES,
        steps: &[PlayStep::AwaitCall, PlayStep::AwaitRequest, PlayStep::Close],
        need: Need::Sign,
        ..PLAIN
    },
    Misbehaviour {
        name: "closed_after_the_head",
        does: "ends the connection after the head of a reply",
        wants: LEAVES,
        steps: &[
            PlayStep::AwaitCall,
            PlayStep::AwaitRequest,
            PlayStep::Head(HEAD),
            PlayStep::Close,
        ],
        need: Need::Sign,
        ..PLAIN
    },
    Misbehaviour {
        name: "closed_in_a_frame",
        does: "ends the connection inside a DATA frame of a reply",
        wants: LEAVES,
        steps: &[
            PlayStep::AwaitCall,
            PlayStep::AwaitRequest,
            PlayStep::Head(HEAD),
            PlayStep::HalfFrame,
            PlayStep::Close,
        ],
        need: Need::Sign,
        ..PLAIN
    },
    Misbehaviour {
        name: "closed_before_the_trailers",
        does: "ends the connection after a whole reply, before its trailers",
        wants: LEAVES,
        steps: &[
            PlayStep::AwaitCall,
            PlayStep::AwaitRequest,
            PlayStep::Head(HEAD),
            PlayStep::Reply(Part::Rest),
            PlayStep::Close,
        ],
        need: Need::Sign,
        ..PLAIN
    },
];
