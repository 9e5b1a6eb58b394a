//! The end of a call that is fed what comes in.

ghost use Rattle.std.specs.Prelude.{
  ◌≡◌,
  true,
  None,
  [],
  ◌∷◌,
  ◌++◌,
  length,
  IfErr,
  OnErr,
  OnOk,
  MatchBool,
};
ghost use Rattle.lane.specs.Lawful.{count_of};
ghost use Rattle.lane.specs.PutFault.{item_of, MayRefuse};
ghost use Rattle.callbox.specs.InSides.{bytes_of, ends_at_shut, shut_if, shut_of};
ghost use Rattle.callbox.specs.declared.piece.InPiece.TheVariants as in_piece;
ghost use Rattle.account.specs.declared.call.Shut.TheVariants as shut;

use crate::InPiece;
use account::Shut;
use bytes::Bytes;
use lane::{Lane, PutFault};

/// Why a piece was not fed: 1 Full, 3 OutOfMemory or 4 NotTaken. The piece comes back.
pub type FeedFault = PutFault<Bytes>;

/// Feeds the pieces of a call's DATA, and then shuts the half.
#[derive(Drop)]
pub struct Feeder<L: Lane<Item = InPiece>> {
    pub(crate) tx: L::In,
    /// How many bytes were fed, up to the greatest `u64`.
    pub(crate) fed: u64,
    ghost counted: { fed ≡ count_of (bytes_of (L.put_in tx)) },
    ghost unshut: { shut_of (L.put_in tx) ≡ None },
}

/// What is left of a `Feeder` once the half was shut.
#[derive(Drop)]
pub struct FedShut<L: Lane<Item = InPiece>> {
    pub(crate) shut: L::Shut,
    pub(crate) kind: Shut,
    pub(crate) fed: u64,
    ghost counted: { fed ≡ count_of (bytes_of (L.put_shut shut)) },
    ghost last: { ends_at_shut (L.put_shut shut) ≡ true },
    ghost put: { shut_of (L.put_shut shut) ≡ shut_if (L.was_placed shut) kind },
}

impl<L: Lane<Item = InPiece>> Feeder<L> {
    /// An end of this lane.
    pub(crate) fn new(tx: L::In) -> Feeder<L>
        requires { L.put_in tx ≡ [] }
        ensures { result.tx ≡ tx }
    {
        Feeder { tx, fed: 0 }
    }

    /// Feeds the next piece, or hands it back and changes nothing.
    pub fn feed(&mut self, piece: Bytes) -> Result<(), FeedFault>
        ensures name { L.in_name self.new.tx ≡ L.in_name self.old.tx }
        ensures ok { OnOk result (L.put_in self.new.tx
            ≡ L.put_in self.old.tx ++ in_piece.Bytes piece ∷ []) }
        ensures unchanged { OnErr result (L.put_in self.new.tx ≡ L.put_in self.old.tx) }
        ensures handed_back { IfErr result (λ e. item_of e ≡ piece) }
        ensures fault { IfErr result
            (MayRefuse L.WantsMemory L.MayMiss (L.room_of (L.in_name self.old.tx))
            (length (L.put_in self.old.tx)) (L.seen_taken self.new.tx)) }
    {
        let len = piece.len() as u64;
        match L::put(&mut self.tx, InPiece::Bytes(piece)) {
            Ok(()) => {
                self.fed = self.fed.saturating_add(len);
                Ok(())
            }
            Err(PutFault::Full { item, waiting }) => Err(PutFault::Full {
                item: item.into_bytes(),
                waiting,
            }),
            Err(PutFault::OutOfMemory(item)) => Err(PutFault::OutOfMemory(item.into_bytes())),
            Err(PutFault::NotTaken(item)) => Err(PutFault::NotTaken(item.into_bytes())),
        }
    }

    /// Ends the half: the client has sent all that it will.
    pub fn end(self) -> FedShut<L>
        ensures name { L.shut_name result.shut ≡ L.in_name self.tx }
        ensures kind { result.kind ≡ shut.End }
        ensures put { MatchBool (L.was_placed result.shut)
            (L.put_shut result.shut ≡ L.put_in self.tx ++ in_piece.Shut shut.End ∷ [])
            (L.put_shut result.shut ≡ L.put_in self.tx) }
    {
        self.shut(Shut::End)
    }

    /// Resets the half, with this error code.
    pub fn reset(self, code: u32) -> FedShut<L>
        ensures name { L.shut_name result.shut ≡ L.in_name self.tx }
        ensures kind { result.kind ≡ shut.Reset code }
        ensures put { MatchBool (L.was_placed result.shut)
            (L.put_shut result.shut ≡ L.put_in self.tx ++ in_piece.Shut (shut.Reset code) ∷ [])
            (L.put_shut result.shut ≡ L.put_in self.tx) }
    {
        self.shut(Shut::Reset(code))
    }

    /// Shuts the half in this way.
    pub(crate) fn shut(self, kind: Shut) -> FedShut<L>
        ensures name { L.shut_name result.shut ≡ L.in_name self.tx }
        ensures kind { result.kind ≡ kind }
        ensures put { MatchBool (L.was_placed result.shut)
            (L.put_shut result.shut ≡ L.put_in self.tx ++ in_piece.Shut kind ∷ [])
            (L.put_shut result.shut ≡ L.put_in self.tx) }
    {
        let Feeder { tx, fed } = self;
        let shut = L::last(tx, InPiece::Shut(kind));
        FedShut { shut, kind, fed }
    }
}
