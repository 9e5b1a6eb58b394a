//! The names and values of fields that are both read and written.

/// The content type of a response, with which that of a call begins.
pub const GRPC_TYPE: &[u8] = b"application/grpc";

pub const CONTENT_TYPE: &[u8] = b"content-type";

/// Values of this field go back in the head of the response.
pub const ECHO_INITIAL: &[u8] = b"x-grpc-test-echo-initial";

/// Values of this field go back in the trailers.
pub const ECHO_TRAILING: &[u8] = b"x-grpc-test-echo-trailing-bin";
