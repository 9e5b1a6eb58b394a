//! How the writing side resets calls that were left without trailers.

ghost use Rattle.std.specs.Prelude.{◌≡◌, false, IfSome};
ghost use Rattle.lane.specs.RingLane.{got};
ghost use Rattle.outwriter.specs.Cores.{calls};
ghost use Rattle.outwriter.specs.LeftCalls.{WasLeft};
ghost use Rattle.writerloop.specs.Written.{core_of, LeadsOn};

use super::Writing;
use crate::order_outcome::OrderOutcome;
use crate::steps::WaitingOrder;
use callparts::Naming;
use device::ConnWrite;
use h2frame::{ErrorCode, StreamId};
use outwriter::WriterOrder;

impl<J: Naming, W: ConnWrite + Drop> Writing<J, W> {
    /// Resets the streams of calls that were left without trailers, with INTERNAL_ERROR, so that
    /// their clients don't wait. It does so only while the peer's input goes on and no order waits,
    /// since the client may have reset the stream. The call's sender gave last that it was left, so
    /// all else that it gave is in frames. Answers whether a call was reset, so that the owner is
    /// to go on at once.
    pub fn reset_left(&mut self) -> bool
        // By the run, no call is reset whose sender gave last something else, such as trailers, or
        // gave nothing.
        ensures leads { LeadsOn W.contents W.failed self.old self.new }
    {
        let WaitingOrder::Nothing = self.look() else {
            return false;
        };
        if self.inbox.has_lost || self.input_ended {
            return false;
        }
        let mut goes_on = false;
        'calls: for place in 0..self.frames.core.calls() {
            if self.reset_left_at(place) {
                goes_on = true;
            }
        }
        goes_on
    }

    /// Resets the stream of the call whose sender is at this place, if the call was left. Answers
    /// whether it was, and there was memory for the reset.
    fn reset_left_at(&mut self, place: usize) -> bool
        requires kept { self.old.inbox.has_lost ≡ false }
        requires going { self.old.input_ended ≡ false }
        ensures leads { LeadsOn W.contents W.failed self.old self.new }
        ensures inbox { self.new.inbox ≡ self.old.inbox }
        ensures input { self.new.input_ended ≡ self.old.input_ended }
    {
        let Some(id) = self.left_at(place) else {
            return false;
        };
        if self.sends.is_through(id) {
            return false;
        }
        self.reset(id)
    }

    /// The stream of the call whose sender is at this place, if the sender gave last that the call
    /// was left.
    fn left_at(&mut self, place: usize) -> Option<StreamId>
        ensures left { IfSome result (λ id. WasLeft id (calls got (core_of self.new))) }
        ensures leads { LeadsOn W.contents W.failed self.old self.new }
        ensures inbox { self.new.inbox ≡ self.old.inbox }
        ensures input { self.new.input_ended ≡ self.old.input_ended }
    {
        self.frames.left_at(place)
    }

    /// Resets the stream of a call that was left. Answers whether there was memory for that.
    fn reset(&mut self, id: StreamId) -> bool
        requires kept { self.old.inbox.has_lost ≡ false }
        requires going { self.old.input_ended ≡ false }
        requires left { WasLeft id (calls got (core_of self.old)) }
        ensures leads { LeadsOn W.contents W.failed self.old self.new }
        ensures inbox { self.new.inbox ≡ self.old.inbox }
        ensures input { self.new.input_ended ≡ self.old.input_ended }
    {
        let code = ErrorCode::InternalError;
        let written = true;
        let taking = self.give(WriterOrder::Reset { id, code, written }, 0);
        let OrderOutcome::Done = taking else {
            return false;
        };
        self.sends.note_through(id);
        true
    }
}
