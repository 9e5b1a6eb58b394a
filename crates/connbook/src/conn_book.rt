//! The value under the lock of a connection.

ghost use Rattle.std.specs.Prelude.{
  ◌≡◌,
  ◌≢◌,
  ℕ,
  ◌+◌,
  ◌<◌,
  ◌≤◌,
  true,
  false,
  length,
  slice_get,
  nat_eq,
  if◌then◌else◌,
  IfErr,
  IfSome,
  IsSome,
  IsTrue,
  ◌↔◌,
  OnOk,
  OnErr,
};
ghost use Rattle.std.specs.Map.{keys_of};
ghost use Rattle.creditbook.specs.Books.{
  new_book,
  call_at,
  Meets,
  GiveBackCause,
  after_give_back,
  after_cut,
  after_end_remote,
  after_end_local,
};
ghost use Rattle.connbook.specs.Receipts.{
  receipt_of,
  after_receipt,
  counted_of,
  Admits,
  after_admission,
  credit_of,
  is_credit_due,
  after_credit,
  after_stop,
};
ghost use Rattle.connbook.specs.Ledgers.{IsKept};
ghost use Rattle.connbook.specs.Words.{answer_in, increment_in};
ghost use Rattle.connbook.specs.declared.answers.Receipt.TheVariants as receipt;
ghost use Rattle.connbook.specs.declared.answers.AdmitFault.TheVariants as refused;

use crate::answers::{AdmitFault, Receipt};
use crate::keys::{BookKey, CallKey, DrainKey};
use crate::steps;
use crate::words::{
    ClosedBook, CountedData, DrainedBook, DueCredit, LastAdmitted, NotLive, RefusedCall,
    StoppedBook,
};
use creditbook::{Book, BookFault};
use h2frame::StreamId;
use std::alloc::Global;
use std::sync::ledger;
use std::sync::ledger::{Ledger, Share};

/// The credit book that the threads of a connection share.
///
/// The ledger `A` counts the bytes of DATA that came, `B` the calls that were admitted, and `C` the
/// bytes that were announced on the connection. The connection's reader holds the shares of the
/// first two, its writer that of the third.
///
/// What ends a call takes a key, and what decides something is answered by a word of the book.
///
/// `IsKept` holds whenever the lock is free.
#[derive(Drop)]
pub struct ConnBook<A: Ledger, B: Ledger, C: Ledger> {
    book: Book,
    received: ledger::Book<A>,
    admitted: ledger::Book<B>,
    announced: ledger::Book<C>,
    stopped: bool,
    ghost kept: { IsKept book stopped received.total admitted.total announced.total },
}

/// The book of a new connection, with its keys.
#[derive(Drop)]
pub struct OpenedBook<A: Ledger, B: Ledger, C: Ledger> {
    pub book: ConnBook<A, B, C>,
    /// The reading side's.
    pub reader_key: BookKey,
    /// The writing side's.
    pub writer_key: BookKey,
    pub drain_key: DrainKey,
}

impl<A: Ledger, B: Ledger, C: Ledger> ConnBook<A, B, C> {
    /// The book of a new connection, with no calls, over three new ledgers.
    pub fn new(
        alloc: Global,
        received: ledger::Book<A>,
        admitted: ledger::Book<B>,
        announced: ledger::Book<C>,
    ) -> OpenedBook<A, B, C>
        requires received { received.total ≡ 0 }
        requires admitted { admitted.total ≡ 0 }
        requires announced { announced.total ≡ 0 }
        ensures book { result.book.book ≡ new_book }
        ensures running { result.book.stopped ≡ false }
    {
        let book = ConnBook {
            book: Book::new(alloc),
            received,
            admitted,
            announced,
            stopped: false,
        };
        OpenedBook {
            book,
            reader_key: BookKey::new(),
            writer_key: BookKey::new(),
            drain_key: DrainKey::new(),
        }
    }

    /// Whether a call is live.
    pub fn is_live(&self, id: StreamId) -> bool
        ensures { IsTrue result ↔ IsSome (call_at self.now.book id) }
    {
        self.book.marks(id).is_some()
    }

    /// The book's word that the call of this key isn't live; None where it is.
    pub fn not_live(&self, call: &CallKey) -> Option<NotLive>
        ensures live { IsSome result ↔ (call_at self.now.book call.now.id ≡ None) }
        ensures whose { IfSome result (λ word. word.id ≡ call.now.id) }
    {
        if self.is_live(call.id) {
            return None;
        }
        Some(NotLive { id: call.id })
    }

    /// The book's word that no call is live and no more are admitted, so that none will be; None
    /// where that isn't so.
    pub fn drained(&self) -> Option<DrainedBook>
        ensures { IsSome result ↔ (self.now.book.closing ≡ true)
            × (slice_get (keys_of self.now.book.calls) 0 ≡ None) }
    {
        if !self.book.closing() || self.book.live_id(0).is_some() {
            return None;
        }
        Some(DrainedBook::new())
    }

    /// The id of a live call by its place among them, in the order of their admission.
    pub fn live_id(&self, place: usize) -> Option<StreamId>
        ensures { result ≡ slice_get (keys_of self.now.book.calls) place }
    {
        self.book.live_id(place)
    }

    /// Whether the writer has stopped: nothing is written any more, and no call is live.
    pub fn has_stopped(&self) -> bool
        ensures stopped { result ≡ self.now.stopped }
        ensures over { result ≡ true → length self.now.book.calls ≡ 0 }
    {
        self.stopped
    }

    /// The greatest id that was admitted, 0 for none: what a GOAWAY names (RFC 9113, section 6.8).
    /// Its contract also says what holds of each book.
    pub fn last(&self) -> LastAdmitted
        ensures last { result.id ≡ self.now.book.last }
        ensures kept { IsKept self.now.book self.now.stopped self.now.received.total
            self.now.admitted.total self.now.announced.total }
    {
        LastAdmitted {
            id: self.book.last(),
        }
    }

    /// Lets no more calls be admitted, for good.
    pub fn close(&mut self, _key: &DrainKey)
        ensures book { self.new.book ≡ record self.old.book { closing = true } }
        ensures stopped { self.new.stopped ≡ self.old.stopped }
    {
        self.book.close();
    }

    /// The book's word that no more calls are admitted; None where they are.
    pub fn closed(&self) -> Option<ClosedBook>
        ensures { IsSome result ↔ (self.now.book.closing ≡ true) }
    {
        if !self.book.closing() {
            return None;
        }
        Some(ClosedBook::new())
    }

    /// Admits a call, of which neither end is marked, and counts it in the share. Where the writer
    /// has stopped, it cuts the call at once. It answers `TooMany` only after 64 calls were
    /// admitted.
    ///
    /// It tests the id first, then whether calls are admitted, then how many are live.
    pub fn admit(&mut self, id: StreamId, mine: &mut Share<B>) -> Result<(), RefusedCall>
        requires whole { mine.old.parts ≡ B.parts }
        requires some { 0 < mine.old.parts }
        ensures whose { IfErr result (λ refused. refused.id ≡ id) }
        ensures cause { Admits self.old.book id (answer_in result) }
        ensures book { OnOk result
            (self.new.book ≡ after_admission self.old.stopped self.old.book id) }
        ensures unchanged { OnErr result (self.new.book ≡ self.old.book) }
        ensures counted { OnOk result (mine.new.amount ≡ mine.old.amount + 1) }
        ensures uncounted { OnErr result (mine.new.amount ≡ mine.old.amount) }
        ensures many { answer_in result ≡ Err refused.TooMany → 64 ≤ mine.old.amount }
        ensures stopped { self.new.stopped ≡ self.old.stopped }
        ensures parts { mine.new.parts ≡ mine.old.parts }
    {
        let ConnBook {
            book,
            received: _,
            admitted,
            announced: _,
            stopped,
        } = self;
        admitted.audit(mine);
        if let Err(fault) = steps::admit(book, id) {
            return Err(RefusedCall { id, fault });
        }
        admitted.add(mine, 1);
        if *stopped {
            steps::cut(book, id);
        }
        Ok(())
    }

    /// Counts `flow` bytes of DATA that came on a stream, `padding` of them no data (RFC 9113,
    /// section 6.9.1), and says what becomes of them. Bytes of no call have the id 0. Bytes past
    /// the connection's window count nowhere (`Overrun`); those past a call's window count on the
    /// connection alone. Either comes only once more than 65,535 bytes came on the connection,
    /// these among them.
    pub fn receive(
        &mut self,
        id: StreamId,
        flow: u32,
        padding: u32,
        mine: &mut Share<A>,
    ) -> CountedData
        requires whole { mine.old.parts ≡ A.parts }
        requires some { 0 < mine.old.parts }
        requires padding { padding ≤ flow }
        ensures whose { (result.id ≡ id) × (result.flow ≡ flow) × (result.padding ≡ padding) }
        ensures cause { result.receipt ≡ receipt_of self.old.book id flow }
        ensures book { self.new.book ≡ after_receipt self.old.book id flow padding result.receipt }
        ensures counted { mine.new.amount ≡ mine.old.amount + counted_of flow result.receipt }
        ensures over_call { result.receipt ≡ receipt.CallWindow → 65535 < mine.new.amount }
        ensures over { result.receipt ≡ receipt.Overrun → 65535 < mine.old.amount + flow }
        ensures stopped { self.new.stopped ≡ self.old.stopped }
        ensures parts { mine.new.parts ≡ mine.old.parts }
    {
        let receipt = self.count(id, flow, padding, mine);
        CountedData {
            id,
            flow,
            padding,
            receipt,
        }
    }

    /// Counts bytes of DATA, and says what becomes of them.
    fn count(&mut self, id: StreamId, flow: u32, padding: u32, mine: &mut Share<A>) -> Receipt
        requires whole { mine.old.parts ≡ A.parts }
        requires some { 0 < mine.old.parts }
        requires padding { padding ≤ flow }
        ensures cause { result ≡ receipt_of self.old.book id flow }
        ensures book { self.new.book ≡ after_receipt self.old.book id flow padding result }
        ensures counted { mine.new.amount ≡ mine.old.amount + counted_of flow result }
        ensures over_call { result ≡ receipt.CallWindow → 65535 < mine.new.amount }
        ensures over { result ≡ receipt.Overrun → 65535 < mine.old.amount + flow }
        ensures stopped { self.new.stopped ≡ self.old.stopped }
        ensures parts { mine.new.parts ≡ mine.old.parts }
    {
        let receipt = steps::judge(&self.book, id, flow);
        let ConnBook {
            book,
            received,
            admitted: _,
            announced: _,
            stopped: _,
        } = self;
        received.audit(mine);
        steps::count(book, id, flow, padding, receipt);
        if receipt != Receipt::Overrun {
            received.add(mine, u64::from(flow));
        }
        receipt
    }

    /// Counts bytes that were returned, for the call of this key and the connection.
    pub fn return_credit(&mut self, call: &CallKey, n: u32) -> Result<(), BookFault>
        ensures book { OnOk result
            (self.new.book ≡ after_give_back self.old.book call.now.id n) }
        ensures unchanged { OnErr result (self.new.book ≡ self.old.book) }
        ensures cause { Meets (GiveBackCause self.old.book call.now.id n) result }
        ensures stopped { self.new.stopped ≡ self.old.stopped }
    {
        self.book.give_back(call.id, n)
    }

    /// The call of this key was left without trailers: makes it no longer live, as `cut` does.
    pub fn leave(&mut self, call: &CallKey)
        ensures book { self.new.book ≡ after_cut self.old.book call.now.id }
        ensures stopped { self.new.stopped ≡ self.old.stopped }
    {
        steps::cut(&mut self.book, call.id);
    }

    /// Whether credit is due on the connection: at least as much was returned, and not announced
    /// yet, as the peer may still send.
    pub fn is_credit_due(&self) -> bool
        ensures { result ≡ is_credit_due self.now.book 0 }
    {
        self.book.window(0) <= self.book.due(0)
    }

    /// Announces all that was returned on an id, 0 for the connection, if credit is due: the new
    /// part is at least what the peer may still send. Answers that part; None where there is none.
    pub fn take_due_credit(&mut self, id: StreamId, mine: &mut Share<C>) -> Option<DueCredit>
        requires { 0 < mine.old.parts }
        ensures whose { IfSome result (λ credit. credit.id ≡ id) }
        ensures increment { increment_in result ≡ credit_of self.old.book id }
        ensures book { self.new.book ≡ after_credit self.old.book id }
        ensures counted { mine.new.amount
            ≡ mine.old.amount + (if nat_eq id 0 then increment_in result else 0) }
        ensures stopped { self.new.stopped ≡ self.old.stopped }
        ensures parts { mine.new.parts ≡ mine.old.parts }
    {
        let ConnBook {
            book,
            received: _,
            admitted: _,
            announced,
            stopped: _,
        } = self;
        let increment = steps::announce(book, id);
        if id == 0 {
            announced.add(mine, u64::from(increment));
        }
        if increment == 0 {
            return None;
        }
        Some(DueCredit { id, increment })
    }

    /// Marks the remote end of a call: no more DATA comes. With both ends marked it is no longer
    /// live. Nothing changes if it wasn't live.
    pub fn end_remote(&mut self, id: StreamId, _key: &BookKey)
        ensures book { self.new.book ≡ after_end_remote self.old.book id }
        ensures stopped { self.new.stopped ≡ self.old.stopped }
    {
        steps::end_remote(&mut self.book, id);
    }

    /// Marks the local end of a call: its DATA isn't taken any more. With both ends marked it is no
    /// longer live. Nothing changes if it wasn't live.
    pub fn end_local(&mut self, id: StreamId, _key: &BookKey)
        ensures book { self.new.book ≡ after_end_local self.old.book id }
        ensures stopped { self.new.stopped ≡ self.old.stopped }
    {
        steps::end_local(&mut self.book, id);
    }

    /// Makes a call no longer live, and returns the rest of its bytes on the connection. Nothing
    /// changes where it isn't live.
    pub fn cut(&mut self, id: StreamId, _key: &BookKey)
        ensures book { self.new.book ≡ after_cut self.old.book id }
        ensures stopped { self.new.stopped ≡ self.old.stopped }
    {
        steps::cut(&mut self.book, id);
    }

    /// Stops the book, as the writer stops: no call is live any more, nor is any that is admitted
    /// later. It takes a step for each live call, at most 64.
    pub fn stop(&mut self, _key: &BookKey) -> StoppedBook
        ensures book { self.new.book ≡ after_stop self.old.book }
        ensures stopped { self.new.stopped ≡ true }
    {
        let ConnBook {
            book,
            received: _,
            admitted: _,
            announced: _,
            stopped,
        } = self;
        steps::cut_all(book);
        *stopped = true;
        StoppedBook::new()
    }

    /// Changes nothing. Where reader and writer meet again, it shows that the shares are what the
    /// book has, and that no more was announced on the connection than came on it.
    pub fn audit(&mut self, came: &mut Share<A>, calls: &mut Share<B>, announced: &mut Share<C>)
        requires came { came.old.parts ≡ A.parts }
        requires calls { calls.old.parts ≡ B.parts }
        requires announced { announced.old.parts ≡ C.parts }
        ensures within { announced.new.amount ≤ came.new.amount }
        ensures came { (came.new.amount ≡ came.old.amount)
            × (self.new.book.connection.received ≡ came.new.amount) }
        ensures announced { (announced.new.amount ≡ announced.old.amount)
            × (self.new.book.connection.announced ≡ announced.new.amount) }
        ensures calls { (calls.new.amount ≡ calls.old.amount)
            × (length self.new.book.calls ≤ calls.new.amount) }
        ensures book { self.new.book ≡ self.old.book }
        ensures stopped { self.new.stopped ≡ self.old.stopped }
    {
        self.received.audit(came);
        self.admitted.audit(calls);
        self.announced.audit(announced);
    }
}
