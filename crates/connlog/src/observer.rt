//! A connection that is looked at from its sides: the bytes that its client sends, and those that
//! its server does.

use crate::cause::{Cause, FrameCause};
use crate::conn_state::ConnState;
use crate::line::{ConnEnding, Event, Line};
use crate::walk::Walk;
use h2frame::ErrorCode;
use std::alloc::{AllocError, Global};
use std::mem;

/// What a client's bytes begin with (RFC 9113, section 3.4).
const PREFACE: &[u8] = b"PRI * HTTP/2.0\r\n\r\nSM\r\n\r\n";

/// Follows a connection, and reports what happens on it. If memory runs out, it stops following.
#[derive(Drop)]
pub struct Observer {
    client: Walk,
    server: Walk,
    /// How many bytes of the preface came.
    preface: usize,
    seen: ConnState,
    is_lost: bool,
}

impl Observer {
    /// Nothing was sent. It takes no memory yet.
    pub fn new(alloc: Global) -> Observer {
        Observer {
            client: Walk::new(alloc),
            server: Walk::new(alloc),
            preface: 0,
            seen: ConnState::new(alloc),
            is_lost: false,
        }
    }

    /// The connection of this peer was taken.
    pub fn begun(&mut self, peer: String) {
        let told = self.seen.tell(0, Event::Begun(peer), None);
        self.note(told);
    }

    /// The server read these bytes.
    pub fn read(&mut self, bytes: &[u8]) {
        if self.is_lost {
            return;
        }
        let read = self.client_bytes(bytes);
        self.note(read);
    }

    /// The server wrote these bytes.
    pub fn wrote(&mut self, bytes: &[u8]) {
        if self.is_lost {
            return;
        }
        let wrote = self.server_bytes(bytes);
        self.note(wrote);
    }

    /// A second has gone by.
    pub fn tick(&mut self) {
        let told = self.seen.tick();
        self.note(told);
    }

    /// The connection has ended.
    pub fn ended(&mut self, how: ConnEnding) {
        let is_followed = !self.is_lost;
        let told = self.seen.end(how, is_followed);
        self.note(told);
    }

    /// Whether there are lines to be taken.
    pub fn has_lines(&self) -> bool {
        !self.seen.lines.is_empty()
    }

    /// Takes the lines.
    pub fn take_lines(&mut self) -> Vec<Line> {
        mem::replace(&mut self.seen.lines, Vec::new(self.seen.alloc))
    }

    fn note(&mut self, done: Result<(), AllocError>) {
        if done.is_err() {
            self.is_lost = true;
        }
    }

    fn client_bytes(&mut self, bytes: &[u8]) -> Result<(), AllocError> {
        let mut rest = self.behind_preface(bytes)?;
        for _ in 0..bytes.len() {
            if rest.is_empty() || self.seen.is_over {
                return Ok(());
            }
            let (count, part) = self.client.step(rest)?;
            if let Some(part) = part {
                self.seen.client_sent(part)?;
            }
            rest = &rest[count..];
        }
        Ok(())
    }

    fn server_bytes(&mut self, bytes: &[u8]) -> Result<(), AllocError> {
        let mut rest = bytes;
        for _ in 0..bytes.len() {
            if rest.is_empty() {
                return Ok(());
            }
            let (count, part) = self.server.step(rest)?;
            if let Some(part) = part {
                self.seen.server_sent(part)?;
            }
            rest = &rest[count..];
        }
        Ok(())
    }

    /// What follows the preface.
    fn behind_preface<'a>(&mut self, bytes: &'a [u8]) -> Result<&'a [u8], AllocError> {
        let due = PREFACE.get(self.preface..).unwrap_or(b"".as_slice());
        if due.is_empty() {
            return Ok(bytes);
        }
        for (came, wanted) in bytes.iter().zip(due.iter()) {
            if came != wanted {
                let cause = FrameCause::Preface {
                    at: self.preface,
                    byte: *came,
                };
                self.seen
                    .fail(ErrorCode::ProtocolError, Cause::Frame(cause))?;
                return Ok(b"".as_slice());
            }
            self.preface = self.preface.saturating_add(1);
        }
        Ok(bytes.get(due.len()..).unwrap_or(b"".as_slice()))
    }
}
