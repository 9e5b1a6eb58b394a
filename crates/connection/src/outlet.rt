//! The writer's hold on the credit book.

ghost use Rattle.std.specs.Prelude.{◌≡◌, ◌<◌, ℕ};
ghost use Rattle.writerloop.specs.Written.{LeadsTo};

use callparts::Naming;
use callworker::SharedConn;
use connbook::{ClosedBook, ConnBook, LastAdmitted};
use device::ConnWrite;
use h2frame::StreamId;
use limits::MAX_LIVE;
use std::marker::Model;
use std::sync::ledger::{Ledger, Share};
use std::sync::{Arc, Wait};
use writerloop::Writing;

/// The credit book, and the share of the writer, which announces credit: all parts of its ledger.
/// Its value is how much was announced on the connection.
#[derive(Drop)]
pub(crate) struct Outlet<A: Ledger, B: Ledger, C: Ledger> {
    shared: Arc<SharedConn<A, B, C>>,
    announced: Share<C>,
}

impl<A: Ledger, B: Ledger, C: Ledger> Model for Outlet<A, B, C> {
    ghost Value = { ℕ };

    ghost view = { λ o. o.announced.amount };

    ghost invariant = { λ o. (o.announced.parts ≡ C.parts) × (0 < C.parts) };
}

impl<A: Ledger, B: Ledger, C: Ledger> Outlet<A, B, C> {
    pub(crate) fn new(shared: Arc<SharedConn<A, B, C>>, announced: Share<C>) -> Outlet<A, B, C>
        requires { (announced.parts ≡ C.parts) × (0 < C.parts) }
        ensures { result ≡ announced.amount }
    {
        Outlet { shared, announced }
    }

    /// The share in which announced credit counts.
    pub(crate) fn into_share(self) -> Share<C>
        ensures amount { result.amount ≡ self }
        ensures parts { result.parts ≡ C.parts }
    {
        let Outlet { announced, .. } = self;
        announced
    }

    /// What the threads of the connection share.
    pub(crate) fn shared(&self) -> &SharedConn<A, B, C> {
        &self.shared
    }

    /// The greatest stream that was admitted.
    pub(crate) fn last(&self, rt: &impl Wait) -> LastAdmitted {
        self.shared.book.lock(rt).last()
    }

    /// The book's word that no more calls are admitted; None where they are.
    pub(crate) fn closed(&self, rt: &impl Wait) -> Option<ClosedBook> {
        self.shared.book.lock(rt).closed()
    }

    /// Grants the peer all credit that is due, which the writer then owes. What is granted on the
    /// connection counts in the share. Answers the book's word, where no more calls are admitted.
    pub(crate) fn grant_due<J: Naming, W: ConnWrite + Drop>(
        &mut self,
        rt: &impl Wait,
        writing: &mut Writing<J, W>,
    ) -> Option<ClosedBook>
        ensures { LeadsTo W.contents W.failed self.old writing.old self.new writing.new }
    {
        let Outlet {
            shared,
            announced,
            ..
        } = self;
        let mut book = shared.book.lock(rt);
        'calls: for place in 0..MAX_LIVE {
            let Some(id) = book.live_id(place) else {
                break;
            };
            grant_due_on(&mut book, announced, writing, id);
        }
        grant_due_on(&mut book, announced, writing, 0);
        book.closed()
    }
}

/// Grants the peer the credit that is due on a stream, or on the connection where it is 0. On a
/// stream that the writer hasn't opened yet credit stays due, though the reader has admitted its
/// call and its worker has given bytes back: a grant there wouldn't count.
fn grant_due_on<A, B, C, J, W>(
    book: &mut ConnBook<A, B, C>,
    announced: &mut Share<C>,
    writing: &mut Writing<J, W>,
    id: StreamId,
)
where
    A: Ledger,
    B: Ledger,
    C: Ledger,
    J: Naming,
    W: ConnWrite + Drop,
    requires some { 0 < announced.old.parts }
    ensures parts { announced.new.parts ≡ announced.old.parts }
    ensures leads { LeadsTo W.contents W.failed announced.old.amount writing.old
        announced.new.amount writing.new }
{
    if !writing.takes_credit(id) {
        return;
    }
    if let Some(credit) = book.take_due_credit(id, announced) {
        writing.grant(credit);
    }
}
