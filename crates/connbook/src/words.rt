//! What the book said, as values that only the book makes.
//!
//! A core that decides by the book's answer (`readerloop`, `writerloop`, `callworker`) takes one of
//! these in place of a number or a `bool`. Their fields are private, so that whoever brings one has
//! asked the book.

ghost use Rattle.std.specs.Prelude.{◌≡◌, ◌<◌, ◌↔◌, IsSome};
ghost use Rattle.connbook.specs.declared.answers.AdmitFault.TheVariants as refused;

use crate::answers::{AdmitFault, Receipt};
use h2frame::StreamId;

/// DATA that the book has counted.
#[derive(Drop)]
pub struct CountedData {
    /// Their stream; 0 for bytes of no call.
    pub(crate) id: StreamId,
    /// How many bytes count for flow control (RFC 9113, section 6.9.1).
    pub(crate) flow: u32,
    /// How many of these are padding.
    pub(crate) padding: u32,
    pub(crate) receipt: Receipt,
}

impl CountedData {
    /// Their stream; 0 for bytes of no call.
    pub fn id(&self) -> StreamId
        ensures { result ≡ self.now.id }
    {
        self.id
    }

    /// What becomes of them.
    pub fn receipt(&self) -> Receipt
        ensures { result ≡ self.now.receipt }
    {
        self.receipt
    }

    /// Whether some of them were returned at once: their padding, or all where no call takes them.
    pub fn are_returned(&self) -> bool {
        self.padding > 0 || self.id == 0 || self.receipt == Receipt::Discard
    }
}

/// A call that the book didn't admit.
#[derive(Drop)]
pub struct RefusedCall {
    /// Its stream.
    pub(crate) id: StreamId,
    pub(crate) fault: AdmitFault,
}

impl RefusedCall {
    /// Its stream.
    pub fn id(&self) -> StreamId
        ensures { result ≡ self.now.id }
    {
        self.id
    }

    /// Why it wasn't admitted.
    pub fn fault(&self) -> AdmitFault
        ensures { result ≡ self.now.fault }
    {
        self.fault
    }

    /// The word that no more calls are admitted, where it wasn't admitted for that.
    pub fn closed(&self) -> Option<ClosedBook>
        ensures { IsSome result ↔ (self.now.fault ≡ refused.Draining) }
    {
        match self.fault {
            AdmitFault::Draining => Some(ClosedBook::new()),
            _ => None,
        }
    }
}

/// No more calls were admitted.
#[derive(Drop)]
pub struct ClosedBook {
    made_here: (),
}

impl ClosedBook {
    pub(crate) fn new() -> ClosedBook {
        ClosedBook { made_here: () }
    }
}

/// A call wasn't live.
#[derive(Drop)]
pub struct NotLive {
    /// Its stream.
    pub(crate) id: StreamId,
}

/// No call was live, and no more were admitted.
#[derive(Drop)]
pub struct DrainedBook {
    made_here: (),
}

impl DrainedBook {
    pub(crate) fn new() -> DrainedBook {
        DrainedBook { made_here: () }
    }
}

/// The greatest stream that was admitted, 0 for none: what a GOAWAY names (RFC 9113, section 6.8).
#[derive(Clone, Copy)]
pub struct LastAdmitted {
    pub(crate) id: StreamId,
}

impl LastAdmitted {
    /// The stream.
    pub fn id(self) -> StreamId
        ensures { result ≡ self.id }
    {
        self.id
    }
}

/// Credit that was due, and is announced now: what a WINDOW_UPDATE says (RFC 9113, section 6.9).
#[derive(Drop)]
pub struct DueCredit {
    /// Its stream; 0 for the connection.
    pub(crate) id: StreamId,
    /// How many bytes more may come.
    pub(crate) increment: u32,
    ghost some: { 0 < increment },
}

impl DueCredit {
    /// Its stream; 0 for the connection.
    pub fn id(&self) -> StreamId
        ensures { result ≡ self.now.id }
    {
        self.id
    }

    /// How many bytes more may come.
    pub fn increment(&self) -> u32
        ensures value { result ≡ self.now.increment }
        ensures some { 0 < result }
    {
        self.increment
    }
}

/// The book was stopped: no call is live any more.
#[derive(Drop)]
pub struct StoppedBook {
    made_here: (),
}

impl StoppedBook {
    pub(crate) fn new() -> StoppedBook {
        StoppedBook { made_here: () }
    }
}
