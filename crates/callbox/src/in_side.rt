//! The ends of a call, brought together.

ghost use Rattle.std.specs.Prelude.{◌≡◌, ℕ, List, [], Some, None, IfOk};
ghost use Rattle.lane.specs.End.{of_end};
ghost use Rattle.callbox.specs.InSides.{TakesMessages, pieces_of};
ghost use Rattle.callbox.specs.InAccounts.{CountsIn};

use crate::{FedShut, Feeder, InPiece, Taker};
use account::{RequestEnd, Shut};
use lane::{End, Lane};
use std::alloc::{AllocError, Global};

/// The in side of a call's account, counted. A number over the greatest `u64` counts as that.
#[derive(Clone, Copy, Debug, PartialEq, Eq)]
pub struct InAccount {
    /// How many bytes were fed.
    pub fed: u64,
    /// How the half was shut, whether or not there was a place for that in the lane.
    pub shut: Option<Shut>,
    /// How many messages were taken.
    pub taken: u64,
    /// What was told after them.
    pub told: Option<RequestEnd>,
}

/// Brings the two ends of one call's in side together. What was taken of what was fed is a lawful
/// account (`account::IsLawful`), and the answer has its counts.
pub fn settle_in<L: Lane<Item = InPiece>>(
    end: End<Feeder<L>, FedShut<L>>,
    taker: Taker<L>,
) -> InAccount
    requires one_call { of_end (λ f. L.in_name f.tx) (λ s. L.shut_name s.shut) end
        ≡ L.out_name taker.rx }
    // For the messages that were taken.
    ensures account { (messages : List (List ℕ))
        → TakesMessages (L.got taker.rx) taker.progress messages
        → CountsIn (pieces_of (of_end (λ f. L.put_in f.tx) (λ s. L.put_shut s.shut) end))
        (of_end (λ _. None) (λ s. Some s.kind) end) messages taker.progress.told result }
{
    match end {
        End::Open(feeder) => settle_open(feeder, taker),
        End::Shut(shut) => settle_shut(shut, taker),
    }
}

fn settle_open<L: Lane<Item = InPiece>>(feeder: Feeder<L>, taker: Taker<L>) -> InAccount
    requires one_call { L.in_name feeder.tx ≡ L.out_name taker.rx }
    ensures account { (messages : List (List ℕ))
        → TakesMessages (L.got taker.rx) taker.progress messages
        → CountsIn (pieces_of (L.put_in feeder.tx)) None messages taker.progress.told result }
{
    let Taker { rx, progress } = taker;
    let Feeder { tx, fed } = feeder;
    L::settle(End::Open(tx), rx);
    InAccount {
        fed,
        shut: None,
        taken: progress.taken,
        told: progress.told,
    }
}

fn settle_shut<L: Lane<Item = InPiece>>(shut: FedShut<L>, taker: Taker<L>) -> InAccount
    requires one_call { L.shut_name shut.shut ≡ L.out_name taker.rx }
    ensures account { (messages : List (List ℕ))
        → TakesMessages (L.got taker.rx) taker.progress messages
        → CountsIn (pieces_of (L.put_shut shut.shut))
        (Some shut.kind) messages taker.progress.told result }
{
    let Taker { rx, progress } = taker;
    let FedShut { shut, kind, fed } = shut;
    L::settle(End::Shut(shut), rx);
    InAccount {
        fed,
        shut: Some(kind),
        taken: progress.taken,
        told: progress.told,
    }
}

/// The two ends of a call's in side, over one lane with this room.
pub(crate) fn open_in<L: Lane<Item = InPiece>>(
    alloc: Global,
    room: usize,
) -> Result<(Feeder<L>, Taker<L>), AllocError>
    ensures one_call { IfOk result (λ r. L.in_name r.0.tx ≡ L.out_name r.1.rx) }
    ensures room { IfOk result (λ r. L.room_of (L.in_name r.0.tx) ≡ room) }
    ensures unfed { IfOk result (λ r. L.put_in r.0.tx ≡ []) }
    ensures ungot { IfOk result (λ r. L.got r.1.rx ≡ []) }
    ensures took { IfOk result (λ r. TakesMessages (L.got r.1.rx) r.1.progress []) }
    ensures owed { IfOk result (λ r. r.1.progress.owed ≡ 0) }
    ensures told { IfOk result (λ r. r.1.progress.told ≡ None) }
{
    let (tx, rx) = L::open(alloc, room)?;
    Ok((Feeder::new(tx), Taker::new(alloc, rx)))
}
