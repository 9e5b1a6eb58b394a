//! The seven methods of `grpc.testing.TestService`, as state machines without threads. They answer
//! as gRPC's interop-test-descriptions.md says.
//!
//! Promised: the replies and the status that a method's steps give, joined, are the answer of
//! `specs/Answers.antt` to the whole list of messages and whether they have ended ([`Method`], and
//! [`run`] for all steps of a call). There is only one answer. [`Reply::bytes`] is the canonical
//! spelling of the response message; [`Reply::write_front`] appends it without the zeros of its
//! payload, whose number is [`Reply::zeros`]. [`Methods::find`] answers the least index with a
//! path.
//!
//! Read [`status`], [`reply`], [`replies`], [`step`] and [`state`] first, the types; then
//! [`method`], the law, and [`uses::whole_call`], a whole call by it. Then the methods:
//! [`empty_call`] and [`unary_call`], [`streaming_output_call`], [`streaming_input_call`],
//! [`full_duplex_call`] and [`half_duplex_call`]; `judge` is how a request is read and judged,
//! `ending_steps` how a call ends. [`methods`] finds a method by its path.
#![tactic(auto)]

pub mod empty_call;
mod ending_steps;
pub mod fault;
pub mod full_duplex_call;
pub mod half_duplex_call;
mod judge;
pub mod method;
pub mod methods;
pub mod replies;
pub mod reply;
pub mod state;
pub mod status;
pub mod step;
pub mod streaming_input_call;
pub mod streaming_output_call;
pub mod unary_call;
pub mod uses;

pub use empty_call::EmptyCall;
pub use fault::MethodFault;
pub use full_duplex_call::FullDuplexCall;
pub use half_duplex_call::HalfDuplexCall;
pub use method::Method;
pub use methods::Methods;
pub use replies::Replies;
pub use reply::Reply;
pub use state::MethodState;
pub use status::{Refusal, Status, StatusText};
pub use step::MethodStep;
pub use streaming_input_call::StreamingInputCall;
pub use streaming_output_call::StreamingOutputCall;
pub use unary_call::{CacheableUnaryCall, UnaryCall};
pub use uses::whole_call::run;
