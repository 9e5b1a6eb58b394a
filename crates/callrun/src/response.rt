//! How far the response of a call has come.

ghost use Rattle.std.specs.Prelude.{◌≡◌, true};

use std::mem;

/// The giving end of a call.
#[derive(Drop)]
pub(crate) enum Response<G, S> {
    /// More may be given.
    Open(G),
    /// Nothing more is given, and no trailers were.
    Left(G),
    /// The trailers were given, with this status.
    Shut(S, u32),
    /// It is being moved.
    Gone,
}

impl<G: Drop, S: Drop> Response<G, S> {
    ghost use Rattle.callrun.specs.Sides.{left, is_open};

    /// Whether more may be given.
    pub(crate) fn is_open(&self) -> bool
        ensures { result ≡ is_open self.now }
    {
        matches!(self, Response::Open(_))
    }

    /// Nothing more is given.
    pub(crate) fn leave(&mut self)
        ensures { self.new ≡ left self.old }
    {
        *self = match mem::replace(self, Response::Gone) {
            Response::Open(giver) => Response::Left(giver),
            other => other,
        };
    }
}
