//! The heads, trailers, timeouts, status texts and binary metadata of calls. They are written as
//! gRPC has them in the fields of HTTP/2 (gRPC over HTTP/2, PROTOCOL-HTTP2.md; RFC 9113, sections
//! 8.2 and 8.3; RFC 4648, section 4).
//!
//! `CallHead::read` answers the head of a call if the fields are one (`specs/Heads.antt`), else the
//! first of their faults. `specs/MalformedHeads.antt` says which fields are malformed, and `laws`
//! that there is one such answer. `are_malformed_trailers` judges the trailers of a request. Each
//! cause has its own test (`has_bad_name` and others), for callers that judge a response or report
//! the cause. `response_fields`, `status_fields`, `trailers_only`, `unknown_method` and
//! `HeadFault::refusal` make the fields that answer a call (`specs/StatusFields.antt`).
//!
//! For a client `request_fields` makes the fields that open a call, which are the head that asks
//! for what it was given (`specs/RequestFields.antt`), and `read_status` reads the status in
//! trailers (`specs/Statuses.antt`).
//!
//! A call carries its timeout in `grpc-timeout`, the text of its status in `grpc-message`, and
//! bytes in fields whose name ends in `-bin`. `read_timeout` answers a timeout exactly where the
//! text is one (`specs/Timeouts.antt`); what `percent_text` and `bin_value` write is read back
//! unchanged (`specs/StatusTexts.antt`, `specs/BinValues.antt`); `read_bin_values` answers the one
//! list of values that there is.
//!
//! Read `fault`, `timeout`, `percent`, `values`, `texts` and `bin`; then `fields`, `malformed` and
//! `head`; then `response`, `request` and `status`.
#![tactic(auto)]

pub mod bin;
pub mod fault;
mod fields;
pub mod head;
pub mod laws;
mod malformed;
mod names;
pub mod percent;
pub mod request;
pub mod response;
pub mod status;
pub mod texts;
pub mod timeout;
pub mod values;

pub use bin::{bin_value, read_bin_values};
pub use fault::HeadFault;
pub use fields::{count_named, first_value, is_named};
pub use head::{CallHead, Encoding};
pub use malformed::{
    are_malformed_trailers, has_bad_name, has_bad_value, has_inner_colon, has_late_pseudo_header,
    is_blank, is_connection_specific, is_empty_path, is_forbidden_in_names, is_forbidden_in_values,
    is_other_te, is_pseudo_header, is_unknown,
};
pub use percent::{percent_text, read_percent_text};
pub use request::request_fields;
pub use response::{response_fields, status_fields, trailers_only, unknown_method};
pub use status::read_status;
pub use texts::Texts;
pub use timeout::read_timeout;
pub use values::Values;
