//! When a call may go on, and when a connection's last byte is written.

use callparts::CallAccount;
use connbook::StoppedBook;
use h2frame::StreamId;

/// Says when a call goes on, and hears when one was answered. A server's calls go on at once
/// (`OpenGate`); a test holds some back, and sees that others don't wait for them.
pub trait Gate {
    /// Whether the call of this stream goes on. A call's worker asks before each turn, in which it
    /// takes at most one message. After a no it waits a millisecond at most, and asks again while
    /// the call is live. After 10,000 of them it goes on without asking.
    fn may_go(&self, id: StreamId) -> bool;

    /// The last frame of this stream was written, of a call or of the refusal of one. The writing
    /// thread calls this.
    fn trailers_written(&self, id: StreamId);

    /// The writer has ended the connection and writes nothing more. The connection's input is to
    /// end now, so that it can be closed (RFC 9113, section 5.4.1). The writing thread calls this,
    /// maybe more than once, and only once the book was stopped.
    fn writing_ended(&self, stopped: &StoppedBook);

    /// A call was settled, with this account. The reading thread calls this after a read, before a
    /// call that begins, or at the end.
    fn settled(&self, _account: &CallAccount) {}
}

/// Each call goes on at once.
#[derive(Drop)]
pub struct OpenGate;

impl Gate for OpenGate {
    fn may_go(&self, _id: StreamId) -> bool {
        true
    }

    fn trailers_written(&self, _id: StreamId) {}

    fn writing_ended(&self, _stopped: &StoppedBook) {}
}
