//! The connection preface of a client (RFC 9113, section 3.4).

ghost use Rattle.std.specs.Prelude.{◌≡◌, ◌↔◌, [], IfOk, OnErr, IsTrue};
ghost use Rattle.session.specs.Prefaces.{preface, Departs, Brings};

use std::marker::Model;
use thiserror::Error;

/// The text with which a client's bytes begin.
const TEXT: &[u8] = b"PRI * HTTP/2.0\r\n\r\nSM\r\n\r\n";

/// The bytes are not those of a client that speaks HTTP/2.
#[derive(Clone, Copy, Debug, PartialEq, Eq, Error)]
#[error("the connection doesn't begin with the preface of HTTP/2")]
pub struct BadPreface;

/// Reads the preface, in whatever pieces it comes. A clause sees what is still due of it.
#[derive(Drop)]
pub struct Preface {
    due: &'static [u8],
}

impl Model for Preface {
    ghost use Rattle.std.specs.Prelude.{List, ℕ};

    ghost Value = { List ℕ };

    ghost view = { λ p. p.due.now };
}

impl Preface {
    /// All of it is due.
    pub fn new() -> Preface
        ensures { result ≡ preface }
    {
        Preface { due: TEXT }
    }

    /// Whether all of it came.
    pub fn is_whole(&self) -> bool
        ensures { IsTrue result ↔ (self.now ≡ []) }
    {
        self.due.is_empty()
    }

    /// Takes what is due off the front of a piece, and answers what follows it.
    pub fn take<'p>(&mut self, piece: &'p [u8]) -> Result<&'p [u8], BadPreface>
        ensures ok { IfOk result (λ rest. Brings self.old piece.now self.new rest.now) }

        // The fault comes at the first byte that differs.
        ensures err { OnErr result (Departs self.old piece.now) }
        ensures unchanged { OnErr result (self.new ≡ self.old) }
    {
        let len = self.due.len().min(piece.len());
        let (front, still) = self.due.split_at(len);
        let (came, rest) = piece.split_at(len);
        if came != front {
            return Err(BadPreface);
        }
        self.due = still;
        Ok(rest)
    }
}
