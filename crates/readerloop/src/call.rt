//! A call, as the reading side has it.

ghost use Rattle.std.specs.Prelude.{
  ◌≡◌,
  ◌≢◌,
  ℕ,
  Bool,
  List,
  [],
  ◌∷◌,
  if◌then◌else◌,
  true,
  false,
  None,
  Some,
  IfErr,
  IsSome,
  OnErr,
  OnOk,
  nat_eq,
  option_map,
  unwrap_or,
};
ghost use Rattle.callbox.specs.OutSides.{has_trailers};
ghost use Rattle.connbook.specs.declared.answers.Receipt.TheVariants.{Feed};
ghost use Rattle.lane.specs.RingLane.{put_shut};
ghost use Rattle.session.specs.declared.event.InEvent.TheVariants as events;
ghost use Rattle.callparts.specs.Numbers.{OptionalName_set, in_lane_at};
ghost use Rattle.readerloop.specs.Halves.{MayRefuse, is_open, lane_of};
ghost use Rattle.readerloop.specs.Steps.{Misses, Received, ShutAs, Step, Told, closing_at};

use crate::feeder_half::FeederHalf;
use account::Shut;
use bytes::Bytes;
use callbox::{FeedFault, GivenShut, settle_in, settle_out};
use callparts::{
    Answering, CallAccount, CallNumber, FinishedJob, Naming, OutLane, ReturningCall, SendingEnd,
};
use h2frame::StreamId;
use lane::End;

/// A call whose lanes were opened, and that isn't settled.
#[derive(Drop)]
pub struct Call<J: Naming> {
    pub(crate) id: StreamId,
    /// The index of its method.
    pub(crate) method: usize,
    /// Its number among all whose lanes were opened.
    pub(crate) number: CallNumber<J>,
    /// The place of its account.
    pub(crate) place: usize,
    /// The number of the worker that answers it, until the worker has handed it back.
    pub(crate) worker_number: usize,
    pub(crate) half: FeederHalf,
    /// What its worker has handed back.
    pub(crate) finished: Option<FinishedJob<J>>,
    /// Its sender, once the writing side has handed it back.
    pub(crate) returning: Option<ReturningCall<J>>,
    /// Its half feeds the lane that it has in the register.
    ghost one_lane: { in_lane_at number.seen.log number.value
        ≡ lane_of half } by { OptionalName_set
            (in_lane_at number.seen.log number.value) (lane_of half) },
    /// What came back has its number.
    ghost one_finished: { unwrap_or (option_map (λ f. f.number.value) finished) number.value
        ≡ number.value },
    ghost one_returning: { unwrap_or (option_map (λ r. r.sending.value.number.value) returning)
        number.value ≡ number.value },
}

impl<J: Naming> Call<J> {
    ghost use Rattle.readerloop.specs.Awaited.{HasSameEnds, is_undone, is_unsent};
    ghost use Rattle.readerloop.specs.Calls.{
      HasAnswered,
      HasReturned,
      IsCall,
      Rises,
      SentItems,
      carried_in,
      is_over,
    };
    ghost use Rattle.readerloop.specs.Reports.{IsSettled};

    /// Whether this is its number.
    fn is_of(&self, number: &CallNumber<J>) -> bool
        ensures { result ≡ nat_eq self.now.number.value number.now.value }
    {
        self.number.is(number)
    }

    /// Whether this is its number, and its worker hasn't handed it back.
    pub(crate) fn is_undone(&self, number: &CallNumber<J>) -> bool
        ensures { result ≡ is_undone number.now.value self.now }
    {
        self.is_of(number) && self.finished.is_none()
    }

    /// Whether this is its number, and its sender isn't back.
    pub(crate) fn is_unsent(&self, number: &CallNumber<J>) -> bool
        ensures { result ≡ is_unsent number.now.value self.now }
    {
        self.is_of(number) && self.returning.is_none()
    }

    /// Whether all its ends are back: it is over.
    pub(crate) fn is_over(&self) -> bool
        ensures { result ≡ is_over self.now }
    {
        self.finished.is_some() && (self.returning.is_some() && self.half.is_closed())
    }

    /// The worker to wake where something comes for the call. None once the worker has handed it
    /// back.
    pub(crate) fn worker(&self) -> Option<usize> {
        match &self.finished {
            Some(_) => None,
            None => Some(self.worker_number),
        }
    }

    /// Feeds a piece to it, if more may be fed.
    pub(crate) fn feed<M: Answering>(&mut self, piece: Bytes) -> Result<(), FeedFault>
        ensures heard { OnOk result ((sent : List SentItems) (counted : ℕ)
            (told : List Step) → IsCall M.known M.names (carried_in sent) told self.old
            → IsCall M.known M.names (carried_in sent)
            (Told (events.Data self.old.id piece counted) (Received Feed) ∷ told) self.new) }
        ensures stays { OnErr result ((sent : List SentItems) (told : List Step)
            → IsCall M.known M.names (carried_in sent) told self.old
            → IsCall M.known M.names (carried_in sent) told self.new) }
        ensures due { OnErr result ((piece ≢ []) × (is_open self.old.half ≡ true)) }
        ensures refused { IfErr result (λ fault. MayRefuse self.old.half fault) }
        ensures id { self.new.id ≡ self.old.id }
        ensures place { self.new.place ≡ self.old.place }
        ensures ends { HasSameEnds self.old self.new }
    {
        self.half.feed(piece)
    }

    /// Shuts its half in this way. A half that was closed before stays as it is.
    pub(crate) fn shut<M: Answering>(&mut self, kind: Shut)
        ensures heard { (sent : List SentItems) (told : List Step) (step : Step)
            → Rises told step → closing_at self.old.id step ≡ Some (ShutAs kind)
            → IsCall M.known M.names (carried_in sent) told self.old
            → IsCall M.known M.names (carried_in sent) (step ∷ told) self.new }
        ensures id { self.new.id ≡ self.old.id }
        ensures place { self.new.place ≡ self.old.place }
        ensures closed { is_open self.new.half ≡ false }
        ensures ends { HasSameEnds self.old self.new }
    {
        self.half.shut(kind);
    }

    /// Misses a piece: lets its half go, if more may be fed to it.
    pub(crate) fn miss<M: Answering>(&mut self)
        ensures heard { (sent : List SentItems) (told : List Step) (step : Step)
            → Rises told step → closing_at self.old.id step ≡ Some Misses
            → IsCall M.known M.names (carried_in sent) told self.old
            → IsCall M.known M.names (carried_in sent) (step ∷ told) self.new }
        ensures id { self.new.id ≡ self.old.id }
        ensures place { self.new.place ≡ self.old.place }
        ensures ends { HasSameEnds self.old self.new }
    {
        self.half.miss();
    }

    /// Takes what its worker has handed back, if that has its number.
    pub(crate) fn finish<M: Answering>(&mut self, finished: FinishedJob<J>)
        ensures stays { (sent : List SentItems) (told : List Step)
            → HasAnswered M.known finished → IsCall M.known M.names (carried_in sent) told self.old
            → IsCall M.known M.names (carried_in sent) told self.new }
        ensures id { self.new.id ≡ self.old.id }
        ensures place { self.new.place ≡ self.old.place }
        ensures half { self.new.half ≡ self.old.half }
        ensures number { self.new.number ≡ self.old.number }
        ensures returning { self.new.returning ≡ self.old.returning }
        ensures back { self.old.number.value ≡ finished.number.value → IsSome self.new.finished }
    {
        if self.number.is(&finished.number) {
            self.finished = Some(finished);
        }
    }

    /// Takes what the writing side has handed back, if that has its number.
    pub(crate) fn take_back<M: Answering>(&mut self, returning: ReturningCall<J>)
        ensures stays { (sent : List SentItems) (told : List Step)
            → HasReturned (carried_in sent) returning.sending.value
            → IsCall M.known M.names (carried_in sent) told self.old
            → IsCall M.known M.names (carried_in sent) told self.new }
        ensures id { self.new.id ≡ self.old.id }
        ensures place { self.new.place ≡ self.old.place }
        ensures half { self.new.half ≡ self.old.half }
        ensures number { self.new.number ≡ self.old.number }
        ensures finished { self.new.finished ≡ self.old.finished }
        ensures back { self.old.number.value ≡ returning.sending.value.number.value
            → IsSome self.new.returning }
    {
        if self.number.is(&returning.sending.number) {
            self.returning = Some(returning);
        }
    }

    /// Brings its ends together, once it is over.
    pub(crate) fn settle<M: Answering>(self) -> CallAccount
        requires over { is_over self ≡ true }
        ensures id { result.id ≡ self.id }
        ensures settled { (sent : List SentItems) (told : List Step)
            → IsCall M.known M.names (carried_in sent) told self
            → IsSettled M.known M.names (carried_in sent) told result }
    {
        let Call {
            id,
            method,
            number,
            half,
            finished,
            returning,
            ..
        } = self;
        let Some(
            FinishedJob {
                number: worked,
                taker,
                given,
                status,
                traffic,
            },
        ) = finished
        else {
            unreachable!();
        };
        let Some(ReturningCall { sending }) = returning else {
            unreachable!();
        };
        let SendingEnd {
            number: sent,
            sender,
        } = Box::into_inner(sending);
        let Some(sender) = sender else {
            unreachable!();
        };
        let _one_worked = number.is(&worked);
        let _one_sent = number.is(&sent);
        let status = status_with(&given, status);
        let input = settle_in(half.into_end(), taker);
        let output = settle_out(End::Shut(given), sender);
        CallAccount {
            id,
            method,
            input,
            output,
            status,
            traffic,
        }
    }
}

/// The status of a call to which this was given: none without trailers.
fn status_with(given: &GivenShut<OutLane>, status: Option<u32>) -> Option<u32>
    ensures { result ≡ (if has_trailers (put_shut given.now.shut) then status else None) }
{
    if given.has_trailers() { status } else { None }
}
