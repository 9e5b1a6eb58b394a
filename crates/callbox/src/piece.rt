//! What goes through the in side of a call.

ghost use Rattle.std.specs.Prelude.{◌≡◌, true};
ghost use Rattle.callbox.specs.InSides.{is_piece};
ghost use Rattle.callbox.specs.declared.piece.InPiece.TheVariants as in_piece;

use account::Shut;
use bytes::Bytes;

/// One item of the in side.
#[derive(Debug, Drop)]
pub enum InPiece {
    /// The next piece of the client's DATA.
    Bytes(Bytes),
    /// The client's half was shut. It is the last item.
    Shut(Shut),
}

impl InPiece {
    /// The bytes of a piece.
    pub(crate) fn into_bytes(self) -> Bytes
        requires { is_piece self ≡ true }
        ensures { self ≡ in_piece.Bytes result }
    {
        match self {
            InPiece::Bytes(bytes) => bytes,
            InPiece::Shut(_) => unreachable!(),
        }
    }
}
