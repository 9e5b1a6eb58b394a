//! What the reading side decides of DATA and of all else that comes on a stream.

ghost use Rattle.std.specs.Prelude.{◌≡◌, ◌-◌, ℕ, List, ◌∷◌, length};
ghost use Rattle.creditbook.specs.Books.{after_cut, after_end_remote};
ghost use Rattle.connbook.specs.declared.answers.Receipt.TheVariants.{Discard, Feed};
ghost use Rattle.session.specs.declared.event.InEvent.TheVariants as events;
ghost use Rattle.readerloop.specs.Calls.{SentItems, carried_in};
ghost use Rattle.readerloop.specs.Readings.{
  Awaits,
  DecidesOn,
  KeepsNext,
  MayMiss,
  Reads,
  ReadsOn,
  fate_of,
};
ghost use Rattle.readerloop.specs.Steps.{Plain, Received, Step, Told};

use super::Reading;
use crate::decision::{Decision, HalfToShut};
use account::Shut;
use bytes::Bytes;
use callbox::FeedFault;
use callparts::{Answering, Naming};
use connbook::{ConnBook, CountedData, Receipt};
use h2frame::{ErrorCode, StreamId};
use reasons::Reason;
use std::sync::ledger::Ledger;

impl<J: Naming, M: Answering> Reading<J, M> {
    /// DATA came on a stream, and the book has counted it.
    pub fn data(&mut self, piece: Bytes, counted: CountedData) -> Decision<J>
        requires padded { counted.padding ≡ counted.flow - length piece }
        ensures decides { DecidesOn M.known M.names
            (Told (events.Data counted.id piece counted.flow)
            (fate_of counted.receipt result.order result.ends)) result self.old self.new }
        ensures missed { (sent : List SentItems) (told : List Step)
            → Reads M.known M.names (carried_in sent) told self.old
            → MayMiss counted.id piece (fate_of counted.receipt result.order result.ends) told }
        ensures home { self.new.home ≡ self.old.home }
    {
        let id = counted.id();
        match counted.receipt() {
            Receipt::Feed => self.feed(id, piece),
            Receipt::Discard => self.miss(id, &piece),
            Receipt::CallWindow => {
                let code = ErrorCode::FlowControlError;
                Decision::reset(id, code, true)
            }
            Receipt::Overrun => {
                let kind = Shut::Reset(ErrorCode::FlowControlError.code());
                Decision {
                    to_shut: Some(HalfToShut { id, kind }),
                    ..self.fatal(Reason::Overrun)
                }
            }
        }
    }

    /// Feeds a piece to its call. If the call's lane refuses the piece the stream is reset; without
    /// memory for it the connection ends.
    fn feed(&mut self, id: StreamId, piece: Bytes) -> Decision<J>
        ensures decides { (counted : ℕ) → DecidesOn M.known M.names
            (Told (events.Data id piece counted) (fate_of Feed result.order result.ends))
            result self.old self.new }
        ensures missed { (sent : List SentItems) (told : List Step)
            → Reads M.known M.names (carried_in sent) told self.old
            → MayMiss id piece (fate_of Feed result.order result.ends) told }
        ensures home { self.new.home ≡ self.old.home }
    {
        match self.calls.feed::<M>(id, piece) {
            Ok(worker) => {
                self.workers.note(worker);
                Decision::nothing()
            }
            Err(fault) => self.refuse_piece(id, fault),
        }
    }

    /// A piece wasn't fed. If the call's lane refused it the stream is reset; if there was no
    /// memory for it the connection ends.
    fn refuse_piece(&self, id: StreamId, fault: FeedFault) -> Decision<J>
        ensures decides { (piece : List ℕ) (counted : ℕ) → DecidesOn M.known M.names
            (Told (events.Data id piece counted) (fate_of Feed result.order result.ends))
            result self.now self.now }
    {
        match fault {
            FeedFault::OutOfMemory(_) => {
                let kind = Shut::Reset(ErrorCode::InternalError.code());
                Decision {
                    to_shut: Some(HalfToShut { id, kind }),
                    ..self.run_out()
                }
            }
            FeedFault::Full { .. } | FeedFault::NotTaken(_) => {
                let code = ErrorCode::EnhanceYourCalm;
                Decision::reset(id, code, true)
            }
        }
    }

    /// A piece came that no call takes. Unless it is padding alone, its call misses it.
    fn miss(&mut self, id: StreamId, piece: &Bytes) -> Decision<J>
        ensures decides { (counted : ℕ) → DecidesOn M.known M.names
            (Told (events.Data id piece.now counted) (Received Discard)) result self.old self.new }
        ensures home { self.new.home ≡ self.old.home }
    {
        self.lose_piece(id, piece);
        Decision::nothing()
    }

    /// The call of this stream misses a piece, unless that has no bytes.
    fn lose_piece(&mut self, id: StreamId, piece: &Bytes)
        ensures reads { (counted : ℕ) → ReadsOn M.known M.names
            (Told (events.Data id piece.now counted) (Received Discard)) self.old self.new }
        ensures home { self.new.home ≡ self.old.home }
    {
        if piece.is_empty() {
            return;
        }
        self.calls.miss::<M>(id);
    }

    /// Bytes came that count on the connection alone, and the book has counted them.
    pub fn loose(&self, counted: CountedData) -> Decision<J>
        requires none { (counted.id ≡ 0) × (counted.padding ≡ 0) }
        ensures decides { DecidesOn M.known M.names
            (Told (events.Loose counted.flow) (Received counted.receipt))
            result self.now self.now }
    {
        match counted.receipt() {
            Receipt::Overrun => self.fatal(Reason::Overrun),
            _ => Decision::nothing(),
        }
    }

    /// The client has ended its half of a stream. The book marks that.
    pub fn end_half<A: Ledger, B: Ledger, C: Ledger>(
        &mut self,
        book: &mut ConnBook<A, B, C>,
        id: StreamId,
    )
        ensures reads { ReadsOn M.known M.names (Told (events.End id) Plain) self.old self.new }
        ensures home { self.new.home ≡ self.old.home }
        ensures book { book.new.book ≡ after_end_remote book.old.book id }
        ensures stopped { book.new.stopped ≡ book.old.stopped }
    {
        book.end_remote(id, &self.key);
        let worker = self.calls.shut::<M>(id, Shut::End);
        self.workers.note(worker);
    }

    /// The client has reset a stream.
    pub fn reset(&self, id: StreamId, code: ErrorCode) -> Decision<J>
        ensures decides { DecidesOn M.known M.names
            (Told (events.Reset id code) Plain) result self.now self.now }
    {
        Decision::reset(id, code, false)
    }

    /// The client has made an error on a stream (RFC 9113, section 5.4.2).
    pub fn fail(&self, id: StreamId, code: ErrorCode) -> Decision<J>
        ensures decides { DecidesOn M.known M.names
            (Told (events.StreamError id code) Plain) result self.now self.now }
    {
        Decision::reset(id, code, true)
    }

    /// Shuts the half of a call, as was decided, and cuts the call in the book.
    pub fn shut<A: Ledger, B: Ledger, C: Ledger>(
        &mut self,
        book: &mut ConnBook<A, B, C>,
        half: HalfToShut,
    )
        ensures heard { (sent : List SentItems) (told : List Step) (step : Step)
            → Awaits M.known M.names (carried_in sent) told step half self.old
            → Reads M.known M.names (carried_in sent) (step ∷ told) self.new }
        ensures next { KeepsNext self.old self.new }
        ensures draining { self.new.is_draining ≡ self.old.is_draining }
        ensures home { self.new.home ≡ self.old.home }
        ensures book { book.new.book ≡ after_cut book.old.book half.id }
        ensures stopped { book.new.stopped ≡ book.old.stopped }
    {
        let worker = self.calls.shut::<M>(half.id, half.kind);
        self.workers.note(worker);
        book.cut(half.id, &self.key);
    }
}
