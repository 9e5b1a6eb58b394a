//! What the reading thread takes back of calls, and how it ends.

ghost use Rattle.std.specs.Prelude.{◌≡◌, ◌++◌, ◌∷◌, List, [], None, IfSome, true};
ghost use Rattle.lane.specs.Ring.{in_name, out_name};
ghost use Rattle.callparts.specs.Blocks.{items_of};
ghost use Rattle.readerloop.specs.Calls.{SentItems, carried_in};
ghost use Rattle.readerloop.specs.Kept.{unsettled};
ghost use Rattle.readerloop.specs.Readings.{KeepsNext, Reads};
ghost use Rattle.readerloop.specs.Steps.{Step};
ghost use Rattle.connection.specs.Heard.{Collects};
ghost use Rattle.outwriter.specs.declared.control.WriterOrder.TheVariants as orders;
ghost use Rattle.connection.specs.Puts.{DropsNone, put_of};
ghost use Rattle.connection.specs.Readers.{ActsAlone, Finishes, HasTakenBack};
ghost use Rattle.connection.specs.Rest.{CarriesOpen, CarriesRest};

use super::Reader;
use crate::orders::{Orders, Route, STEP};
use callparts::{Accounts, Answering, Naming, OpeningCall, ReturningCall};
use callworker::{Gate, Ways};
use lane::RingIn;
use outwriter::WriterOrder;
use std::sync::Wait;
use std::sync::ledger::Ledger;
use std::thread::Threads;
use std::time::{Clock, Duration};
use writerloop::Senders;

impl<A, B, C, J, M, N, R, G> Reader<A, B, C, J, M, N, R, G>
where
    A: Ledger + Send + Sync + 'static,
    B: Ledger + Send + Sync + 'static,
    C: Ledger + Send + Sync + 'static,
    J: Naming + Send + Sync + 'static,
    M: Answering + Send + Sync + 'static,
    N: Route,
    R: Threads + Wait + Clock + Copy + Send + Sync + Drop + 'static,
    G: Gate + Send + Sync + Drop + 'static,
{
    /// After the last event: ends all halves and workers, and lets the writer end.
    #[inline(never)]
    pub(crate) fn end(&mut self)
        ensures finishes { Finishes M.known M.names self.old self.new }
    {
        self.cut_all();
        let rt = self.rt;
        self.orders.put(&rt, WriterOrder::InputEnded);
        self.orders.wake_writer();
        self.reading.ring_noted();
        self.reading.end();
        self.join_all();
        self.close();
    }

    /// Waits for the ends of all workers.
    fn join_all(&mut self)
        ensures reading { self.new.reading
            ≡ record self.old.reading { workers = self.new.reading.workers } }
        ensures orders { self.new.orders ≡ self.old.orders }
    {
        let rt = self.rt;
        'hands: while let Some(hand) = self.hands.pop() {
            let Ways { tasks, done } = hand.join(&rt);
            let number = self.hands.len();
            self.reading.meet(number, tasks, done);
        }
    }

    /// Puts the last order, and waits where there is no room. Meanwhile it takes the senders that
    /// come back, since the writer may wait for a place for one.
    fn close(&mut self)
        ensures collects { Collects M.known M.names self.old.reading self.new.reading }
        ensures put { put_of self.new.orders ≡ put_of self.old.orders ++ orders.Close ∷ [] }
        ensures none_left { self.new.orders.backlog.items ≡ [] }
        ensures drops { DropsNone self.old.orders self.new.orders }
    {
        let rt = self.rt;
        'tries: for _ in rt.forever() {
            let mark = self.orders.shared.reader.mark();
            self.settle_all();
            if self.orders.try_close() {
                return;
            }
            self.orders
                .shared
                .reader
                .wait_past(&rt, mark, Duration::from_millis(STEP));
        }
        unreachable!()
    }

    /// Settles all calls once the writer has ended and handed these senders back. Answers the
    /// accounts of all, and the orders.
    #[inline(never)]
    pub(crate) fn meet(self, senders: Senders<J>) -> (Accounts, Orders<A, B, C, J, N>)
        requires way { out_name self.reading.home ≡ in_name senders.sends.home }
        ensures back { HasTakenBack M.known M.names senders
            (items_of result.0.full result.0.last) self }
        ensures orders { result.1 ≡ record self.orders { unput = None } }
    {
        let mut reader = self;
        reader.take_unput();
        let home = reader.take_rest(senders);
        reader.settle_rest();
        let Reader {
            orders,
            reading,
            ..
        } = reader;
        let mut reading = reading;
        reading.meet_home(home);
        (reading.into_accounts(), orders)
    }

    /// Takes the sender of a call back whose order wasn't put.
    fn take_unput(&mut self)
        ensures home { self.new.reading.home ≡ self.old.reading.home }
        ensures stays { (sent : List SentItems) (told : List Step)
            → IfSome self.old.orders.unput (CarriesOpen sent)
            → Reads M.known M.names (carried_in sent) told self.old.reading
            → Reads M.known M.names (carried_in sent) told self.new.reading }
        ensures orders { self.new.orders ≡ record self.old.orders { unput = None } }
    {
        if let Some(WriterOrder::Open(_, opening)) = self.orders.unput.take() {
            let OpeningCall { sending, .. } = opening;
            self.reading.take_back(ReturningCall { sending });
        }
    }

    /// Takes the senders back that the writer had at its end. Answers the writer's end of the ring
    /// of senders.
    fn take_rest(&mut self, rest: Senders<J>) -> RingIn<ReturningCall<J>>
        ensures way { result ≡ rest.sends.home }
        ensures home { self.new.reading.home ≡ self.old.reading.home }
        ensures stays { (sent : List SentItems) (told : List Step) → CarriesRest sent rest
            → Reads M.known M.names (carried_in sent) told self.old.reading
            → Reads M.known M.names (carried_in sent) told self.new.reading }
        ensures orders { self.new.orders ≡ self.old.orders }
    {
        let mut rest = rest;
        let rt = self.rt;
        'senders: for _ in rt.forever() {
            let Some(returning) = rest.next() else {
                return rest.into_home();
            };
            self.reading.take_back(returning);
        }
        unreachable!()
    }

    /// Settles all calls, once all their ends have come back.
    fn settle_rest(&mut self)
        ensures collects { Collects M.known M.names self.old.reading self.new.reading }
        ensures none { unsettled self.new.reading.calls ≡ [] }
        ensures orders { self.new.orders ≡ self.old.orders }
    {
        let rt = self.rt;
        'looks: for _ in rt.forever() {
            self.settle_all();
            if self.reading.unsettled() == 0 {
                return;
            }
        }
        unreachable!()
    }

    /// Takes what came back of calls since the last look, if workers or the writer rang, and
    /// settles the calls that are over.
    pub(super) fn collect(&mut self)
        ensures collects { Collects M.known M.names self.old.reading self.new.reading }
        ensures orders { self.new.orders ≡ self.old.orders }
    {
        let mark = self.orders.shared.reader.mark();
        if self.looked != Some(mark) && self.reading.unsettled() > 0 {
            self.looked = Some(mark);
            self.settle_all();
        }
    }

    /// Takes what came back of calls, and settles those that are over.
    // (kept out of its caller, whose frame is on the stack of each connection that lives)
    #[inline(never)]
    pub(super) fn settle_all(&mut self)
        ensures collects { Collects M.known M.names self.old.reading self.new.reading }
        ensures orders { self.new.orders ≡ self.old.orders }
        ensures next { KeepsNext self.old.reading self.new.reading }
        ensures draining { self.new.reading.is_draining ≡ self.old.reading.is_draining }
    {
        self.reading.collect();
        'calls: for _ in 0..self.reading.unsettled() {
            let Some(account) = self.reading.settle_next() else {
                return;
            };
            self.gate.settled(&account);
        }
    }

    /// After the last event: cuts the calls whose halves the client neither ended nor reset.
    fn cut_all(&mut self)
        ensures cuts { ActsAlone M.known M.names true self.old self.new }
    {
        'places: for place in 0..self.reading.unsettled() {
            self.cut_at(place);
        }
    }

    /// Cuts the call at this place, if its client neither ended nor reset its half.
    fn cut_at(&mut self, place: usize)
        ensures cuts { ActsAlone M.known M.names true self.old self.new }
    {
        if let Some(decided) = self.reading.cut_off(place) {
            self.act(decided);
        }
    }

    /// The connection ends: no call is live.
    pub(super) fn stop(&self) {
        let mut book = self.orders.shared.book.lock(&self.rt);
        let _stopped = self.reading.stop(&mut book);
    }
}
