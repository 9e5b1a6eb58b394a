//! A call: what came of it, and what it is answered.

ghost use Rattle.std.specs.Prelude.{◌≡◌, ◌<◌, ◌≤◌, ◌^◌};

use crate::deeds::Ending;
use crate::halt::Halt;
use h2frame::StreamId;
use lpm::write_message;
use std::alloc::{AllocError, Global};
use testproto::{ByteList, Message, Payload, SimpleRequest, SimpleResponse, Text};

/// The most bytes of payload that a reply has.
const MOST_BYTES: i32 = 4_000_000;

/// The most bytes of a request that are kept.
const MOST_KEPT: usize = 8_388_608;

/// A call.
#[derive(Drop)]
pub struct Call {
    pub stream: StreamId,
    /// The DATA that came.
    request: Vec<u8>,
    /// How many bytes of DATA came.
    pub came: usize,
    /// Whether the client says nothing more.
    pub is_whole: bool,
    /// How many bytes of DATA it may send still. It is below zero where a window has shrunk.
    pub window: i64,
    /// How many SETTINGS it had acknowledged when the call came.
    pub acks: u32,
    /// Whether its header block began with the change of the table's size to 0.
    pub is_updated: bool,
    /// How the client reset it.
    pub reset: Option<Ending>,
    /// Whether steps are about it.
    pub is_played: bool,
    /// Whether the server reset it, and whether the client has read that.
    pub is_reset: bool,
    pub is_reset_read: bool,
    /// Whether the server says nothing more.
    pub is_over: bool,
    /// At which millisecond of the case its request was whole.
    pub whole_at: Option<u64>,
    /// Whether its head was sent.
    pub has_head: bool,
    /// The right reply, once it was asked for, and how many of its bytes were sent.
    pub reply: Option<Vec<u8>>,
    pub sent: usize,
}

impl Call {
    /// A call whose head came, with a window of this size.
    pub fn new(alloc: Global, stream: StreamId, window: i64, acks: u32) -> Call
        ensures { result.stream ≡ stream }
    {
        Call {
            stream,
            request: Vec::new(alloc),
            came: 0,
            is_whole: false,
            window,
            acks,
            is_updated: false,
            reset: None,
            is_played: false,
            is_reset: false,
            is_reset_read: false,
            is_over: false,
            whole_at: None,
            has_head: false,
            reply: None,
            sent: 0,
        }
    }

    /// Whether neither side has ended it.
    pub fn is_open(&self) -> bool {
        self.reset.is_none() && !(self.is_over && (self.is_whole || self.is_reset))
    }

    /// Whether its request has been whole for this many milliseconds.
    pub fn has_been_whole(&self, now: u64, milliseconds: u64) -> bool {
        match self.whole_at {
            Some(at) => now.saturating_sub(at) >= milliseconds,
            None => false,
        }
    }

    /// Takes DATA.
    pub fn take(&mut self, bytes: &[u8]) -> Result<(), AllocError>
        ensures { self.new.window ≡ self.old.window }
    {
        self.came = self.came.saturating_add(bytes.len());
        if self.came <= MOST_KEPT {
            self.request.extend_from_slice(bytes)?;
        }
        Ok(())
    }

    /// Makes the right reply, where it isn't made yet.
    pub fn prepare(&mut self, alloc: Global) -> Result<(), Halt> {
        if self.reply.is_none() {
            let reply = reply_to(alloc, self.request.as_slice())?;
            self.reply = Some(reply);
        }
        Ok(())
    }

    /// How many bytes the right reply has, once it is made.
    pub fn reply_len(&self) -> usize {
        match &self.reply {
            Some(reply) => reply.len(),
            None => 0,
        }
    }

    /// What of the right reply wasn't sent.
    pub fn rest(&self) -> &[u8] {
        let Some(reply) = &self.reply else {
            return &[];
        };
        match reply.as_slice().get(self.sent..) {
            Some(rest) => rest,
            None => &[],
        }
    }
}

/// The length-prefixed reply of a request: with a payload of as many zero bytes as a SimpleRequest
/// asks for. Any other request has an empty reply.
pub fn reply_to(alloc: Global, request: &[u8]) -> Result<Vec<u8>, Halt> {
    let body = vec![in alloc; 0; asked_size(alloc, request)]?;
    let response = SimpleResponse {
        payload: payload_of(&body),
        username: Text::new(),
        oauth_scope: Text::new(),
    };
    let Ok(message) = response.encode(alloc) else {
        return Err(Halt::OutOfMemory);
    };
    let mut reply = Vec::new(alloc);
    match write_message(message.as_slice(), &mut reply) {
        Ok(()) => Ok(reply),
        Err(_) => Err(Halt::OutOfMemory),
    }
}

/// A payload with this body, and none for no bytes.
fn payload_of(body: &[u8]) -> Option<Payload<'_>> {
    if body.is_empty() {
        return None;
    }
    Some(Payload {
        kind: 0,
        body: ByteList::from_slice(body),
    })
}

/// How many bytes a length-prefixed request asks for.
fn asked_size(alloc: Global, request: &[u8]) -> usize
    ensures { result ≤ 4_000_000 }
{
    let Some(message) = request.get(5..) else {
        return 0;
    };
    match SimpleRequest::decode(alloc, message) {
        Ok(asked) => size_within(asked.response_size),
        Err(_) => 0,
    }
}

fn size_within(size: i32) -> usize
    ensures { result ≤ 4_000_000 }
{
    if size <= 0 {
        0
    } else if size > MOST_BYTES {
        MOST_BYTES as usize
    } else {
        size as usize
    }
}
