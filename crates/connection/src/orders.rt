//! The reader's orders to the writer.

ghost use mathlib.Core.List.{IsPrefix};
ghost use Rattle.std.specs.Prelude.{◌≡◌, [], Some, IsSomeAnd};
ghost use Rattle.std.specs.Option.{IsSomeAnd-prop};
ghost use Rattle.lane.specs.Ring.{in_name};
ghost use Rattle.lane.specs.RingEnds.{RingName_set};

use callparts::{Naming, Order};
use callworker::SharedConn;
use lane::{Ring, RingIn, RingOut};
use outwriter::WriterOrder;
use std::alloc::{AllocError, Global};
use std::collections::VecDeque;
use std::marker::{Brand, PhantomData};
use std::sync::ledger::Ledger;
use std::sync::{Arc, Wait};
use std::time::Duration;

/// How many orders may wait for the writer.
pub(crate) const ORDERS: usize = 1024;

/// How long the reader waits for room before it looks again, in milliseconds.
pub(crate) const STEP: u64 = 1;

/// Names the ring through which a connection's orders go. Only clauses use it.
pub(crate) trait Route {
    ghost use Rattle.std.specs.Prelude.{Option};
    ghost use Rattle.lane.specs.RingEnds.{RingName};

    ghost ring: { Option RingName };
}

/// The caller who brings a `Brand` chooses the name.
impl Route for Brand {
    ghost use Rattle.std.specs.Prelude.{None};

    ghost ring = { None };
}

/// The reader's end of the ring of orders.
#[derive(Drop)]
pub(crate) struct Outbox<J: Naming, N: Route> {
    pub(crate) tx: RingIn<Order<J>>,
    route: PhantomData<N>,
    ghost one_ring: { IsSomeAnd N.ring (λ name. name ≡ in_name tx) } by { IsSomeAnd-prop N.ring
        (λ name. name ≡ in_name tx) (λ name. RingName_set name (in_name tx)) },
}

/// The orders of the reader.
#[derive(Drop)]
pub(crate) struct Orders<A: Ledger, B: Ledger, C: Ledger, J: Naming, N: Route> {
    pub(crate) outbox: Outbox<J, N>,
    pub(crate) shared: Arc<SharedConn<A, B, C>>,
    /// Whether there are orders, or credit that no call rings for, for which the writer wasn't rung
    /// yet.
    pub(crate) are_unrung: bool,
    /// Orders after those in the ring, which had no room for them when the writer had stopped. They
    /// are put before the last order.
    pub(crate) backlog: VecDeque<Order<J>>,
    /// Whether the writer was seen to have stopped.
    pub(crate) has_stopped: bool,
    /// Whether orders were dropped, because there was no memory for the backlog.
    pub(crate) has_dropped: bool,
    /// The dropped order that opens a call, with its sender. After it no call begins.
    pub(crate) unput: Option<Order<J>>,
}

impl<A: Ledger, B: Ledger, C: Ledger, J: Naming, N: Route> Orders<A, B, C, J, N> {
    ghost use Rattle.std.specs.Prelude.{◌∷◌, ◌++◌, true, false, None};
    ghost use Rattle.lane.specs.Ring.{HasRoom, out_name, put_in, taken};
    ghost use Rattle.outwriter.specs.declared.control.WriterOrder.TheVariants as orders;
    ghost use Rattle.connection.specs.Puts.{DropsNone, IsKept, IsSame, Puts, PutsAll, put_of};

    pub(crate) fn new(
        alloc: Global,
        tx: RingIn<Order<J>>,
        shared: Arc<SharedConn<A, B, C>>,
    ) -> Orders<A, B, C, J, N>
        requires route { N.ring ≡ Some (in_name tx) }
        ensures put { put_in tx ≡ [] → put_of result ≡ [] }
        ensures going { result.has_stopped ≡ false }
        ensures dropped { result.has_dropped ≡ false }
        ensures unput { result.unput ≡ None }
    {
        Orders {
            outbox: Outbox {
                tx,
                route: PhantomData,
            },
            shared,
            are_unrung: false,
            backlog: VecDeque::new(alloc),
            has_stopped: false,
            has_dropped: false,
            unput: None,
        }
    }

    /// Puts an order, and waits where there is no room. Once the writer has stopped it goes into
    /// the backlog, and so do all behind it; without memory for that it is dropped, and so are all
    /// behind it.
    pub(crate) fn put<R: Wait>(&mut self, rt: &R, order: Order<J>)
        ensures puts { Puts order self.old self.new }
        ensures stops { self.old.has_stopped ≡ true → self.new.has_stopped ≡ true }
    {
        if self.has_dropped {
            self.lay_aside(order);
            return;
        }
        if self.has_backlog() {
            self.defer(order);
            return;
        }
        self.put_in_ring(rt, order);
    }

    /// The same, where none was dropped or is in the backlog.
    fn put_in_ring<R: Wait>(&mut self, rt: &R, order: Order<J>)
        requires whole { self.old.has_dropped ≡ false }
        requires none_left { self.old.backlog.items ≡ [] }
        ensures puts { Puts order self.old self.new }
        ensures stops { self.old.has_stopped ≡ true → self.new.has_stopped ≡ true }
    {
        let mut order = order;
        self.are_unrung = true;
        'tries: for _ in rt.forever() {
            let mark = self.shared.reader.mark();
            let Err(fault) = self.outbox.tx.put(order) else {
                return;
            };
            order = fault.into_item();
            self.shared.writer.ring();
            if self.shared.has_stopped() {
                self.has_stopped = true;
                self.defer(order);
                return;
            }
            self.shared
                .reader
                .wait_past(rt, mark, Duration::from_millis(STEP));
        }
        unreachable!()
    }

    /// Puts the order, if there is one.
    pub(crate) fn put_some<R: Wait>(&mut self, rt: &R, order: Option<Order<J>>)
        ensures puts { PutsAll order self.old self.new }
        ensures stops { self.old.has_stopped ≡ true → self.new.has_stopped ≡ true }
    {
        if let Some(order) = order {
            self.put(rt, order);
        }
    }

    /// Whether orders are in the backlog.
    fn has_backlog(&self) -> bool
        ensures none { result ≡ false → self.now.backlog.items ≡ [] }
    {
        !self.backlog.is_empty()
    }

    /// An order goes into the backlog. Without memory for that it is dropped.
    fn defer(&mut self, order: Order<J>)
        requires whole { self.old.has_dropped ≡ false }
        ensures puts { Puts order self.old self.new }
        ensures stops { self.old.has_stopped ≡ true → self.new.has_stopped ≡ true }
    {
        match self.backlog.reserve(1) {
            Ok(()) => self.backlog.push_back_reserved(order),
            Err(AllocError) => self.lay_aside(order),
        }
    }

    /// An order is dropped. One that opens a call is laid aside, with its sender.
    fn lay_aside(&mut self, order: Order<J>)
        ensures put { put_of self.new ≡ put_of self.old }
        ensures stopped { self.new.has_stopped ≡ self.old.has_stopped }
        ensures dropped { self.new.has_dropped ≡ true }
        ensures kept { IsKept order self.old.unput self.new.unput }
    {
        self.has_dropped = true;
        if let WriterOrder::Open(..) = &order {
            self.unput = Some(order);
        }
    }

    /// Puts the last order, and waits where there is no room. A writer that has stopped still takes
    /// orders, and ends at this one.
    pub(crate) fn close<R: Wait>(&mut self, rt: &R)
        ensures put { put_of self.new ≡ put_of self.old ++ orders.Close ∷ [] }
        ensures none_left { self.new.backlog.items ≡ [] }
        ensures drops { DropsNone self.old self.new }
    {
        'tries: for _ in rt.forever() {
            let mark = self.shared.reader.mark();
            if self.try_close() {
                return;
            }
            self.shared
                .reader
                .wait_past(rt, mark, Duration::from_millis(STEP));
        }
        unreachable!()
    }

    /// Puts the backlog and the last order, as far as there is room, and rings the writer. Whether
    /// all are put.
    pub(crate) fn try_close(&mut self) -> bool
        ensures put { result ≡ true → put_of self.new ≡ put_of self.old ++ orders.Close ∷ [] }
        ensures none_left { result ≡ true → self.new.backlog.items ≡ [] }
        ensures full { result ≡ false → put_of self.new ≡ put_of self.old }
        ensures drops { DropsNone self.old self.new }
    {
        self.put_backlog();
        let is_put = self.put_last();
        self.shared.writer.ring();
        is_put
    }

    /// Puts the last order, where no backlog is left and there is room. Whether it did.
    fn put_last(&mut self) -> bool
        ensures put { result ≡ true → put_of self.new ≡ put_of self.old ++ orders.Close ∷ [] }
        ensures none_left { result ≡ true → self.new.backlog.items ≡ [] }
        ensures full { result ≡ false → put_of self.new ≡ put_of self.old }
        ensures drops { DropsNone self.old self.new }
    {
        if self.has_backlog() {
            return false;
        }
        match self.outbox.tx.put(WriterOrder::Close) {
            Ok(()) => true,
            Err(_full) => false,
        }
    }

    /// Puts what of the backlog there is room for, in order.
    fn put_backlog(&mut self)
        ensures put { put_of self.new ≡ put_of self.old }
        ensures drops { DropsNone self.old self.new }
    {
        'orders: for _ in 0..self.backlog.len() {
            if !self.outbox.tx.has_room() {
                return;
            }
            self.put_first();
        }
    }

    /// Puts the first order of the backlog; there is room for it.
    fn put_first(&mut self)
        requires room { HasRoom self.old.outbox.tx }
        ensures put { put_of self.new ≡ put_of self.old }
        ensures drops { DropsNone self.old self.new }
    {
        if let Some(order) = self.backlog.pop_front() {
            let _is_put = self.outbox.tx.put(order).is_ok();
        }
    }

    /// Rings the writer.
    pub(crate) fn wake_writer(&mut self)
        ensures same { IsSame self.old self.new }
    {
        self.are_unrung = false;
        self.shared.writer.ring();
    }

    /// Where the reader meets the writer: what the writer has taken begins what was put.
    pub(crate) fn meet(self, rx: RingOut<Order<J>>)
        requires route { N.ring ≡ Some (out_name rx) }
        requires none_left { self.backlog.items ≡ [] }
        ensures first { IsPrefix (taken rx) (put_of self) }
    {
        let Outbox { mut tx, .. } = self.outbox;
        let mut rx = rx;
        let _left = Ring::meet(&mut tx, &mut rx);
    }
}
