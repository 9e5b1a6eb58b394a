//! What happens to a call, and the account of it.

ghost use Rattle.std.specs.Prelude.{◌≡◌, IfOk};

use bytes::Bytes;
use lists::{Field, Octets, Sequence};
use lpm::LpmFault;
use std::alloc::AllocError;
use zeros::ZeroTail;

/// How the client's half of a call was shut.
#[derive(Clone, Copy, Debug, PartialEq, Eq)]
pub enum Shut {
    /// By its end: the client has sent all that it will.
    End,
    /// By a reset with this error code (RFC 9113, section 7).
    Reset(u32),
}

/// What a call's handler was told after the messages.
#[derive(Clone, Copy, Debug, PartialEq, Eq)]
pub enum RequestEnd {
    /// There are no more messages.
    End,
    /// The call was reset, with this error code.
    Reset(u32),
    /// What was fed can't go on as messages, or ended inside one.
    Fault(LpmFault),
}

/// What a call's handler answers with, an item at a time.
#[derive(Debug, Drop)]
pub enum OutItem {
    /// Response headers.
    Head(Sequence<Field>),
    /// One message with its prefix.
    Message(ZeroTail),
    /// The trailers, or the one block of a response without headers of its own.
    Trailers(Sequence<Field>),
    /// The call was left without trailers: nothing is sent for this item, and none follows it.
    Left,
}

impl OutItem {
    /// A copy of the item. The first bytes of a message are shared, and those of fields are copied.
    pub fn copy(&self) -> Result<OutItem, AllocError>
        ensures { IfOk result (λ copy. copy ≡ self.now) }
    {
        match self {
            OutItem::Head(fields) => Ok(OutItem::Head(fields.copy()?)),
            OutItem::Message(message) => Ok(OutItem::Message(message.clone()?)),
            OutItem::Trailers(fields) => Ok(OutItem::Trailers(fields.copy()?)),
            OutItem::Left => Ok(OutItem::Left),
        }
    }
}

/// What may happen to a call.
#[derive(Debug, Drop)]
pub enum CallEvent {
    /// A piece of the client's DATA came.
    Feed(Bytes),
    /// The client's half was shut.
    Shut(Shut),
    /// The handler took what there was to take.
    Take,
    /// The handler gave an item.
    Give(OutItem),
    /// An item was sent.
    Send,
}

/// The account of a call.
#[derive(Debug, Drop)]
pub struct Account {
    /// The bytes that were fed, joined.
    pub fed: Octets,
    /// How the client's half was shut, if it was.
    pub shut: Option<Shut>,
    /// The messages that were taken.
    pub taken: Sequence<Bytes>,
    /// What was told after them, if anything was.
    pub told: Option<RequestEnd>,
    /// The items that were given.
    pub given: Sequence<OutItem>,
    /// The items that were sent.
    pub sent: Sequence<OutItem>,
}
