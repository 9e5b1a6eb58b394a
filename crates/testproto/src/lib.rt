//! The test messages of gRPC: `grpc.testing`'s messages.proto and empty.proto, read and written by
//! the Protocol Buffers encoding guide (<https://protobuf.dev/programming-guides/encoding/>),
//! sections "Last One Wins", "Optional and Repeated Fields" and "Submessages".
//!
//! Promised: [`Message::decode`] answers the value of the bytes exactly where they have one, memory
//! aside, and otherwise their leftmost fault; a fault in an embedded message counts at that
//! message's place. [`Message::encode`] gives the fields by ascending number without the defaults,
//! and what it gives is read back as the message.
//!
//! Read [`fault`], [`lists`] and [`messages`] first, the types; then [`message`], what every
//! message has; [`take`] and [`put`] have one function a kind of field, for reading and for
//! writing; [`schema`] says which field of each message is which. What is right is defined in
//! `specs/`: `Values` and `Messages` for what bytes mean, `Canonical` for what is written. `Laws`
//! and `Written` have the laws of each message, whose proofs stand on `Unique` and `Parts`, a lemma
//! for each kind of field.
#![tactic(auto)]

mod fault;
mod lists;
mod message;
mod messages;
mod put;
mod schema;
mod take;

pub use fault::ProtoFault;
pub use lists::{ByteList, Text};
pub use message::Message;
pub use messages::{
    BoolValue, EchoStatus, Empty, ParameterList, Payload, ResponseParameters, SimpleRequest,
    SimpleResponse, StreamingInputCallRequest, StreamingInputCallResponse,
    StreamingOutputCallRequest, StreamingOutputCallResponse,
};
