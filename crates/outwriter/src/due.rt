//! The frames that controls ask for, in order.

use h2frame::{ErrorCode, StreamId};
use lists::{Field, Sequence};
use reasons::Reason;

/// A frame that is to be written before anything of the open calls.
#[derive(Drop)]
pub(crate) enum Due {
    SettingsAck,
    PingAck([u8; 8]),
    Ping([u8; 8]),
    Refuse(StreamId, Sequence<Field>),
    Reset(StreamId, ErrorCode),
    Goaway(StreamId, Reason),
}
