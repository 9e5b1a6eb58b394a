//! The reader's hold on the credit book.

ghost use Rattle.std.specs.Prelude.{◌≡◌, ◌+◌, ◌<◌, ◌≤◌, true, IfErr, OnErr, OnOk};
ghost use Rattle.connection.specs.Limits.{MayRefuse, MayTurnAway, Tally, one_more};
ghost use Rattle.connbook.specs.Receipts.{counted_of};

use callworker::SharedConn;
use connbook::{CountedData, RefusedCall};
use h2frame::StreamId;
use std::marker::Model;
use std::sync::ledger::{Ledger, Share};
use std::sync::{Arc, Wait};

/// The credit book, and the shares of the reader, which counts what comes and admits calls. They
/// have all parts of their ledgers, so their amounts are what the book counts. Its value is the
/// tally of both.
#[derive(Drop)]
pub(crate) struct Intake<A: Ledger, B: Ledger, C: Ledger> {
    shared: Arc<SharedConn<A, B, C>>,
    came: Share<A>,
    calls: Share<B>,
}

impl<A: Ledger, B: Ledger, C: Ledger> Model for Intake<A, B, C> {
    ghost Value = { Tally };

    ghost view = { λ i. record { calls = i.calls.amount; came = i.came.amount } };

    ghost invariant = { λ i. (i.came.parts ≡ A.parts) × (0 < A.parts) × (i.calls.parts ≡ B.parts)
        × (0 < B.parts) };
}

impl<A: Ledger, B: Ledger, C: Ledger> Intake<A, B, C> {
    pub(crate) fn new(
        shared: Arc<SharedConn<A, B, C>>,
        came: Share<A>,
        calls: Share<B>,
    ) -> Intake<A, B, C>
        requires came { (came.parts ≡ A.parts) × (0 < A.parts) }
        requires calls { (calls.parts ≡ B.parts) × (0 < B.parts) }
        ensures came { result.came ≡ came.amount }
        ensures calls { result.calls ≡ calls.amount }
    {
        Intake {
            shared,
            came,
            calls,
        }
    }

    /// Admits a call.
    pub(crate) fn admit(&mut self, rt: &impl Wait, id: StreamId) -> Result<(), RefusedCall>
        ensures whose { IfErr result (λ refused. refused.id ≡ id) }
        ensures counted { OnOk result (self.new ≡ one_more self.old) }
        ensures uncounted { OnErr result (self.new ≡ self.old) }
        ensures justified { IfErr result
            (λ refused. MayTurnAway self.old.calls true refused.fault) }
    {
        let Intake { shared, calls, .. } = self;
        shared.book.lock(rt).admit(id, calls)
    }

    /// Counts `flow` bytes of DATA that came on a stream, `padding` of them no data.
    pub(crate) fn receive(
        &mut self,
        rt: &impl Wait,
        id: StreamId,
        flow: u32,
        padding: u32,
    ) -> CountedData
        requires padding { padding ≤ flow }
        ensures whose { (result.id ≡ id) × (result.flow ≡ flow) × (result.padding ≡ padding) }
        ensures calls { self.new.calls ≡ self.old.calls }
        ensures counted { self.new.came ≡ self.old.came + counted_of flow result.receipt }
        ensures justified { MayRefuse (self.old.came + flow) result.receipt }
    {
        let Intake { shared, came, .. } = self;
        shared.book.lock(rt).receive(id, flow, padding, came)
    }

    /// The reader meets the writer, which hands in its share: the writer announced no more on the
    /// connection than came.
    pub(crate) fn audit(self, rt: &impl Wait, announced: Share<C>)
        requires announced { announced.parts ≡ C.parts }
        ensures within { announced.amount ≤ self.came }
    {
        let mut announced = announced;
        let Intake {
            shared,
            mut came,
            mut calls,
        } = self;
        shared
            .book
            .lock(rt)
            .audit(&mut came, &mut calls, &mut announced);
    }
}
