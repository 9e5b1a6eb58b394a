//! The half of a call that its client sends, as the reading side has it.

ghost use Rattle.std.specs.Prelude.{
  ◌≡◌,
  ◌≢◌,
  ℕ,
  List,
  [],
  ◌∷◌,
  true,
  false,
  None,
  Some,
  IfErr,
  IsSome,
  OnOk,
  OnErr,
};
ghost use Rattle.lane.specs.RingLane.{in_name, put_in, put_shut, shut_name};
ghost use Rattle.callbox.specs.InSides.{pieces_of};
ghost use Rattle.readerloop.specs.Steps.{Misses, ShutAs, Step, closing_at, shut_in};

use account::Shut;
use bytes::Bytes;
use callbox::{FedShut, FeedFault, Feeder};
use callparts::InLane;
use lane::End;
use std::mem;

/// A half: the feeding end of a call's lane.
#[derive(Drop)]
pub enum FeederHalf {
    /// The client may send more.
    Open(Feeder<InLane>),
    /// It was ended or reset.
    Shut(FedShut<InLane>),
    /// A piece came that no call takes any more. What follows isn't fed, and how the half ends
    /// isn't known.
    Missed(Feeder<InLane>),
    /// It is being moved.
    Moving,
}

impl FeederHalf {
    ghost use Rattle.lane.specs.End.{of_end};
    ghost use Rattle.readerloop.specs.Halves.{IsHalf, MayRefuse, grown, is_closed, is_open, lane_of, shown};

    /// Whether the client may send more.
    pub fn is_open(&self) -> bool
        ensures { result ≡ is_open self.now }
    {
        matches!(self, FeederHalf::Open(_))
    }

    /// Whether it was shut, or a piece was missed.
    pub fn is_closed(&self) -> bool
        ensures { result ≡ is_closed self.now }
    {
        matches!(self, FeederHalf::Shut(_) | FeederHalf::Missed(_))
    }

    /// Feeds a piece to the call, where it has bytes and the half is open.
    pub fn feed(&mut self, piece: Bytes) -> Result<(), FeedFault>
        ensures lane { lane_of self.new ≡ lane_of self.old }
        ensures there { (shown self.new).there ≡ (shown self.old).there }
        ensures closing { (shown self.new).closing ≡ (shown self.old).closing }
        ensures taken { OnOk result ((shown self.old).there ≡ true → (shown self.new).items
            ≡ grown piece (shown self.old).closing (shown self.old).items) }
        ensures kept { OnErr result (shown self.new ≡ shown self.old) }
        ensures open { OnErr result (is_open self.old ≡ true) }
        ensures some { OnErr result (piece ≢ []) }
        ensures refused { IfErr result (λ fault. MayRefuse self.old fault) }
    {
        if piece.is_empty() {
            return Ok(());
        }
        match self {
            FeederHalf::Open(feeder) => feeder.feed(piece),
            FeederHalf::Shut(_) | FeederHalf::Missed(_) | FeederHalf::Moving => Ok(()),
        }
    }

    /// Shuts it in this way: the client has ended or reset it, or no more of it is taken. A half
    /// that was closed before stays as it is.
    pub fn shut(&mut self, kind: Shut)
        ensures lane { lane_of self.new ≡ lane_of self.old }
        ensures closed { is_open self.new ≡ false }
        ensures heard { (id : ℕ) (steps : List Step) (step : Step)
            → closing_at id step ≡ Some (ShutAs kind)
            → IsHalf id steps (shown self.old) → IsHalf id (step ∷ steps) (shown self.new) }
    {
        match mem::replace(self, FeederHalf::Moving) {
            FeederHalf::Open(feeder) => *self = FeederHalf::Shut(shut_feeder(feeder, kind)),
            other => *self = other,
        }
    }

    /// Lets it go, where it is open: a piece came that no call takes any more.
    pub fn miss(&mut self)
        ensures lane { lane_of self.new ≡ lane_of self.old }
        ensures heard { (id : ℕ) (steps : List Step) (step : Step)
            → closing_at id step ≡ Some Misses
            → IsHalf id steps (shown self.old) → IsHalf id (step ∷ steps) (shown self.new) }
    {
        match mem::replace(self, FeederHalf::Moving) {
            FeederHalf::Open(feeder) => *self = FeederHalf::Missed(feeder),
            other => *self = other,
        }
    }

    /// The feeding end, which is to be settled.
    pub(crate) fn into_end(self) -> End<Feeder<InLane>, FedShut<InLane>>
        requires there { IsSome (lane_of self) }
        ensures lane { lane_of self
            ≡ Some (of_end (λ f. in_name f.tx) (λ s. shut_name s.shut) result) }
        ensures items { (shown self).items
            ≡ of_end (λ f. put_in f.tx) (λ s. put_shut s.shut) result }
        ensures shut { shut_in (shown self).closing
            ≡ of_end (λ f. None) (λ s. Some s.kind) result }
    {
        match self {
            FeederHalf::Open(feeder) | FeederHalf::Missed(feeder) => End::Open(feeder),
            FeederHalf::Shut(shut) => End::Shut(shut),
            FeederHalf::Moving => unreachable!(),
        }
    }
}

/// What is left of the feeder.
fn shut_feeder(feeder: Feeder<InLane>, kind: Shut) -> FedShut<InLane>
    ensures kind { result.kind ≡ kind }
    ensures fed { pieces_of (put_shut result.shut) ≡ pieces_of (put_in feeder.tx) }
    ensures lane { shut_name result.shut ≡ in_name feeder.tx }
{
    match kind {
        Shut::End => feeder.end(),
        Shut::Reset(code) => feeder.reset(code),
    }
}
