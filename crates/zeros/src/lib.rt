//! Bytes whose trailing zeros take no memory, and a buffer that appends them.
//!
//! The payloads of this server are zeros. `zero_tail` has the bytes of a message: the first ones,
//! and how many zeros follow. `zero_buffer` has the bytes that are to be written to a connection:
//! all of its memory after its end that was used before is zeros, so that zeros are appended by
//! moving the end. A clause sees the list of the bytes alone.
//!
//! Read `zero_tail`, then `zero_buffer`.
#![tactic(auto)]

mod marks;
mod zero_buffer;
mod zero_tail;

pub use zero_buffer::ZeroBuffer;
pub use zero_tail::ZeroTail;
