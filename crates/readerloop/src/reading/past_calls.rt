//! What the reading side takes back and settles of calls that are over.

ghost use Rattle.std.specs.Prelude.{◌≡◌, List, length, None, Some, IfNone, IfSome, IsSomeAnd};
ghost use Rattle.lane.specs.Ring.{out_name as way_out};
ghost use Rattle.readerloop.specs.Calls.{HasReturned, SentItems, carried_in};
ghost use Rattle.readerloop.specs.Kept.{fed_at, unsettled};
ghost use Rattle.readerloop.specs.Readings.{
  CollectsTo,
  DecidesOn,
  HasCollected,
  KeepsNext,
  Reads,
  Stays,
};
ghost use Rattle.readerloop.specs.Reports.{IsSettled};
ghost use Rattle.readerloop.specs.Steps.{CutOff, Step};

use super::Reading;
use crate::decision::Decision;
use callparts::{Answering, CallAccount, HOME, Naming, ReturningCall};
use h2frame::ErrorCode;

impl<J: Naming, M: Answering> Reading<J, M> {
    /// Takes what the workers and the writing side have handed back.
    pub fn collect(&mut self)
        ensures stays { CollectsTo M.known M.names self.old self.new }
        ensures next { KeepsNext self.old self.new }
        ensures draining { self.new.is_draining ≡ self.old.is_draining }
        ensures name { way_out self.new.home ≡ way_out self.old.home }
    {
        self.collect_finished();
        self.collect_senders();
    }

    /// Takes the calls that the workers have handed back.
    fn collect_finished(&mut self)
        ensures { HasCollected M.known M.names self.old self.new }
    {
        'workers: for number in 0..self.workers.len() {
            self.collect_from(number);
        }
    }

    /// Takes the senders that the writing side has handed back.
    fn collect_senders(&mut self)
        ensures { HasCollected M.known M.names self.old self.new }
    {
        'senders: for _ in 0..HOME {
            if !self.collect_sender() {
                return;
            }
        }
    }

    /// Takes the call that the worker of this number has handed back, if it has.
    fn collect_from(&mut self, number: usize)
        ensures { HasCollected M.known M.names self.old self.new }
    {
        let Some(finished) = self.workers.finished(number) else {
            return;
        };
        self.calls.finish::<M>(finished);
    }

    /// Takes a sender that the writing side has handed back, and says whether there was one.
    fn collect_sender(&mut self) -> bool
        ensures { HasCollected M.known M.names self.old self.new }
    {
        let Some(returning) = self.home.take() else {
            return false;
        };
        self.calls.take_back::<M>(returning);
        true
    }

    /// Takes a sender that doesn't come back through the ring: its order wasn't put, or the writing
    /// side has ended.
    pub fn take_back(&mut self, returning: ReturningCall<J>)
        ensures stays { (sent : List SentItems) (told : List Step)
            → HasReturned (carried_in sent) returning.sending.value
            → Reads M.known M.names (carried_in sent) told self.old
            → Reads M.known M.names (carried_in sent) told self.new }
        ensures next { KeepsNext self.old self.new }
        ensures draining { self.new.is_draining ≡ self.old.is_draining }
        ensures home { self.new.home ≡ self.old.home }
    {
        self.calls.take_back::<M>(returning);
    }

    /// Settles a call that is over, if there is one. Its account is final: what was fed and how the
    /// half was shut is what was heard of it, and what was sent is what its sender got.
    pub fn settle_next(&mut self) -> Option<CallAccount>
        ensures settled { IfSome result (λ account. (sent : List SentItems)
            (told : List Step) → Reads M.known M.names (carried_in sent) told self.old
            → IsSettled M.known M.names (carried_in sent) told account) }
        ensures stays { Stays M.known M.names self.old self.new }
        ensures next { KeepsNext self.old self.new }
        ensures draining { self.new.is_draining ≡ self.old.is_draining }
        ensures home { self.new.home ≡ self.old.home }
    {
        self.calls.settle_next::<M>()
    }

    /// How many calls aren't settled.
    pub fn unsettled(&self) -> usize
        ensures { result ≡ length (unsettled self.now.calls) }
    {
        self.calls.len()
    }

    /// After the end of the input: cancels a call whose half the client neither ended nor reset.
    /// `place` is its place among those that aren't settled.
    pub fn cut_off(&self, place: usize) -> Option<Decision<J>>
        ensures decides { IfSome result (λ decided. IsSomeAnd decided.to_shut (λ cut.
            DecidesOn M.known M.names (CutOff cut.id) decided self.now self.now)) }
        ensures whose { IfSome result (λ decided. IsSomeAnd decided.to_shut
            (λ cut. fed_at place self.now.calls ≡ Some cut.id)) }
        ensures none { IfNone result (fed_at place self.now.calls ≡ None) }
    {
        let id = self.calls.fed(place)?;
        let code = ErrorCode::Cancel;
        Some(Decision::reset(id, code, true))
    }
}
