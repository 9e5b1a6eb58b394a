//! The steps on the credit book alone. Each works whatever is live, and says how it changes the
//! numbers that ledgers count.

ghost use Rattle.std.specs.Prelude.{
  ◌≡◌,
  ◌+◌,
  ◌≤◌,
  length,
  nat_eq,
  if◌then◌else◌,
  IsSome,
  MatchOption,
  OnOk,
  OnErr,
};
ghost use Rattle.creditbook.specs.Books.{
  IsLawful,
  call_at,
  window_of,
  after_receive,
  after_give_back,
  after_admit,
  after_cut,
  after_end_remote,
  after_end_local,
};
ghost use Rattle.connbook.specs.Receipts.{
  receipt_of,
  after_receipt,
  after_loose,
  counted_of,
  Admits,
  admission_of,
  credit_of,
  after_credit,
  after_stop,
};
ghost use Rattle.connbook.specs.Ledgers.{IsQuiet};

use crate::answers::{AdmitFault, Receipt};
use creditbook::{Book, BookFault};
use h2frame::StreamId;

/// The receipt of `flow` bytes of DATA.
pub(crate) fn judge(book: &Book, id: StreamId, flow: u32) -> Receipt
    requires { IsLawful book.now }
    ensures { result ≡ receipt_of book.now id flow }
{
    if book.window(0) < flow {
        return Receipt::Overrun;
    }
    let Some(marks) = book.marks(id) else {
        return Receipt::Discard;
    };
    if book.window(id) < flow {
        return Receipt::CallWindow;
    }
    if marks.local {
        return Receipt::Discard;
    }
    Receipt::Feed
}

/// Counts DATA as their receipt says.
pub(crate) fn count(book: &mut Book, id: StreamId, flow: u32, padding: u32, receipt: Receipt)
    requires law { IsLawful book.old }
    requires receipt { receipt ≡ receipt_of book.old id flow }
    requires padding { padding ≤ flow }
    ensures value { book.new ≡ after_receipt book.old id flow padding receipt }
    ensures received { book.new.connection.received
        ≡ book.old.connection.received + counted_of flow receipt }
    ensures announced { book.new.connection.announced ≡ book.old.connection.announced }
    ensures live { length book.new.calls ≡ length book.old.calls }
    ensures law { IsLawful book.new }
{
    match receipt {
        Receipt::Overrun => {}
        Receipt::CallWindow => count_loose(book, flow),
        Receipt::Discard => {
            if book.marks(id).is_some() {
                count_live(book, id, flow);
            } else {
                count_loose(book, flow);
            }
        }
        Receipt::Feed => {
            count_live(book, id, flow);
            return_padding(book, id, padding);
        }
    }
}

/// Counts bytes on the connection alone, and returns them.
fn count_loose(book: &mut Book, n: u32)
    requires law { IsLawful book.old }
    requires fits { n ≤ window_of book.old 0 }
    ensures value { book.new ≡ after_loose book.old n }
    ensures law { IsLawful book.new }
{
    let _ = book.receive(0, n);
    let _ = book.give_back(0, n);
}

/// Counts bytes on a live call and the connection.
fn count_live(book: &mut Book, id: StreamId, n: u32)
    requires law { IsLawful book.old }
    requires live { IsSome (call_at book.old id) }
    requires fits { n ≤ window_of book.old 0 }
    requires fits_call { n ≤ window_of book.old id }
    ensures value { book.new ≡ after_receive book.old id n }
    ensures live { length book.new.calls ≡ length book.old.calls }
    ensures law { IsLawful book.new }
{
    let _ = book.receive(id, n);
}

/// Returns bytes of a live call that has at least as many to return.
fn return_padding(book: &mut Book, id: StreamId, n: u32)
    requires law { IsLawful book.old }
    requires live { MatchOption (call_at book.old id) ⊥
        (λ call. call.counts.returned + n ≤ call.counts.received) }
    ensures value { book.new ≡ after_give_back book.old id n }
    ensures live { length book.new.calls ≡ length book.old.calls }
    ensures law { IsLawful book.new }
{
    let _ = book.give_back(id, n);
}

/// Makes a call no longer live, if it is.
pub(crate) fn cut(book: &mut Book, id: StreamId)
    ensures value { book.new ≡ after_cut book.old id }
    ensures quiet { IsQuiet book.old book.new }
    ensures law { IsLawful book.new }
{
    let _ = book.cut(id);
}

/// Marks the remote end of a call, if it is live.
pub(crate) fn end_remote(book: &mut Book, id: StreamId)
    ensures value { book.new ≡ after_end_remote book.old id }
    ensures quiet { IsQuiet book.old book.new }
    ensures law { IsLawful book.new }
{
    let _ = book.end_remote(id);
}

/// Marks the local end of a call, if it is live.
pub(crate) fn end_local(book: &mut Book, id: StreamId)
    ensures value { book.new ≡ after_end_local book.old id }
    ensures quiet { IsQuiet book.old book.new }
    ensures law { IsLawful book.new }
{
    let _ = book.end_local(id);
}

/// Announces what was returned, if it is at least what the peer may still send.
pub(crate) fn announce(book: &mut Book, id: StreamId) -> u32
    requires { IsLawful book.old }
    ensures increment { result ≡ credit_of book.old id }
    ensures value { book.new ≡ after_credit book.old id }
    ensures announced { book.new.connection.announced
        ≡ book.old.connection.announced + (if nat_eq id 0 then result else 0) }
    ensures received { book.new.connection.received ≡ book.old.connection.received }
    ensures live { length book.new.calls ≡ length book.old.calls }
    ensures law { IsLawful book.new }
{
    if book.due(id) < book.window(id) {
        return 0;
    }
    book.announce(id)
}

/// Makes all calls no longer live.
pub(crate) fn cut_all(book: &mut Book)
    requires { IsLawful book.old }
    ensures value { book.new ≡ after_stop book.old }
    ensures law { IsLawful book.new }
{
    while let Some(id) = book.live_id(0) {
        cut(book, id);
    }
}

/// Admits a call, or says why not.
pub(crate) fn admit(book: &mut Book, id: StreamId) -> Result<(), AdmitFault>
    requires { IsLawful book.old }
    ensures cause { Admits book.old id result }
    ensures value { OnOk result (book.new ≡ after_admit book.old id) }
    ensures unchanged { OnErr result (book.new ≡ book.old) }
    ensures law { IsLawful book.new }
{
    if id % 2 == 0 || id <= book.last() {
        return Err(AdmitFault::NotNew);
    }
    admission_of(book.admit(id))
}

/// The book's answer to a new call, as its callers see it.
fn admission_of(answer: Result<(), BookFault>) -> Result<(), AdmitFault>
    ensures { result ≡ admission_of answer }
{
    match answer {
        Ok(()) => Ok(()),
        Err(BookFault::Draining) => Err(AdmitFault::Draining),
        Err(BookFault::TooMany) => Err(AdmitFault::TooMany),
        Err(_) => Err(AdmitFault::OutOfMemory),
    }
}
