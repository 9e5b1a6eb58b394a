//! How the writing side ends calls in the credit book, and stops the book.

ghost use Rattle.std.specs.Prelude.{
  ◌≡◌,
  ◌↔◌,
  ℕ,
  true,
  false,
  IfNone,
  IfSome,
  IsTrue,
  OnSome,
  Some,
};
ghost use Rattle.creditbook.specs.Books.{after_cut};
ghost use Rattle.connbook.specs.Receipts.{after_stop};
ghost use Rattle.outwriter.specs.Cores.{open_stream};
ghost use Rattle.outwriter.specs.RunState.{is_held};
ghost use Rattle.sendwindows.specs.Windows.{room};
ghost use Rattle.writerloop.specs.Ended.{CutsStuck, GoesOn, HasStopped, after_local_ends};
ghost use Rattle.writerloop.specs.Written.{stream_at};

use super::Writing;
use crate::ended::{EndedStream, MarkedEnds};
use crate::standing::Standing;
use callparts::Naming;
use connbook::{ConnBook, StoppedBook};
use device::ConnWrite;
use h2frame::StreamId;
use std::snapshot::Snapshot;
use std::sync::ledger::Ledger;

impl<J: Naming, W: ConnWrite + Drop> Writing<J, W> {
    /// Marks the local end of each call whose END_STREAM is in the buffer: it takes no more DATA.
    /// From the next flush on the call may have left.
    pub fn mark_ends<A: Ledger, B: Ledger, C: Ledger>(
        &self,
        book: &mut ConnBook<A, B, C>,
    ) -> MarkedEnds
        ensures book { book.new.book
            ≡ after_local_ends book.old.book self.now.frames.ended.items }
        ensures stopped { book.new.stopped ≡ book.old.stopped }
        ensures marked { result.streams.value.items ≡ self.now.frames.ended.items }
    {
        for id in self.frames.ended.as_slice() {
            book.end_local(*id, &self.key);
        }
        MarkedEnds {
            streams: Snapshot::of(&self.frames.ended),
        }
    }

    /// Cuts the call of a stream that the writer has ended.
    pub fn cut<A: Ledger, B: Ledger, C: Ledger>(
        &self,
        book: &mut ConnBook<A, B, C>,
        ended: EndedStream,
    )
        ensures book { book.new.book ≡ after_cut book.old.book ended.id }
        ensures stopped { book.new.stopped ≡ book.old.stopped }
    {
        book.cut(ended.id(), &self.key);
    }

    /// Cuts the calls that wait for a window which won't open, since the input has ended, and wakes
    /// their workers.
    pub fn cut_stuck<A: Ledger, B: Ledger, C: Ledger>(&self, book: &mut ConnBook<A, B, C>)
        ensures book { CutsStuck self.now book.old.book book.new.book }
        ensures stopped { book.new.stopped ≡ book.old.stopped }
    {
        for place in 0..self.sends.len() {
            if let Some(id) = self.stuck(place) {
                self.cut_live(book, id);
            }
        }
    }

    /// Cuts a call and wakes its worker, if it is live.
    fn cut_live<A: Ledger, B: Ledger, C: Ledger>(&self, book: &mut ConnBook<A, B, C>, id: StreamId)
        ensures book { book.new.book ≡ after_cut book.old.book id }
        ensures stopped { book.new.stopped ≡ book.old.stopped }
    {
        if book.is_live(id) {
            book.cut(id, &self.key);
            self.wake(id);
        }
    }

    /// The stream of the call at this place that waits for a window which won't open, since the
    /// input has ended: the call is to be cut.
    fn stuck(&self, place: usize) -> Option<StreamId>
        ensures ended { IfSome result (λ id. self.now.input_ended ≡ true) }
        ensures held { IfSome result (λ id. is_held (open_stream self.now.frames.core id)
            (room self.now.frames.core.sending.outbound.states.windows id) ≡ true) }
        ensures whose { IfSome result (λ id. stream_at place self.now ≡ Some id) }
        // It is None only where the call doesn't wait for such a window.
        ensures none { IfNone result (self.now.input_ended ≡ true → (id : ℕ)
            → stream_at place self.now ≡ Some id
            → is_held (open_stream self.now.frames.core id)
            (room self.now.frames.core.sending.outbound.states.windows id) ≡ false) }
    {
        if !self.input_ended {
            return None;
        }
        let id = self.sends.stream_at(place)?;
        if self.frames.core.held(id) {
            Some(id)
        } else {
            None
        }
    }

    /// Stops the book where the writer has ended: no call is live any more. While the writer goes
    /// on it changes nothing.
    pub fn stop<A: Ledger, B: Ledger, C: Ledger>(
        &self,
        book: &mut ConnBook<A, B, C>,
    ) -> Option<StoppedBook>
        ensures over { OnSome result (HasStopped self.now) }
        ensures book { OnSome result (book.new.book ≡ after_stop book.old.book) }
        ensures stopped { OnSome result (book.new.stopped ≡ true) }
        ensures on { IfNone result (GoesOn self.now) }
        ensures unchanged { IfNone result (book.new ≡ book.old) }
    {
        if self.goes_on() {
            return None;
        }
        Some(book.stop(&self.key))
    }

    /// Whether it makes frames, has lost no order, and hasn't ended the connection.
    fn goes_on(&self) -> bool
        ensures { IsTrue result ↔ GoesOn self.now }
    {
        let is_going = self.frames.standing() == Standing::Going;
        is_going && !self.blames && !self.inbox.has_lost
    }
}
