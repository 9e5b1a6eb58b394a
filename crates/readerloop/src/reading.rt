//! What the reading side of a connection decides.
//!
//! `specs/Orders.antt` says which orders a step leads to, and `specs/Steps.antt` what a half is fed
//! and how it is closed. Each function here does what they say of one step, and no more.
//!
//! An order that resets a stream is to be put before its call sees the reset. So a decision names
//! the half that it shuts (`Decision::to_shut`), and `Reading::shut` shuts it once the order was
//! put.

ghost use Rattle.std.specs.Prelude.{◌≡◌, ◌⊎◌, List, [], true, None, Some};
ghost use mathlib.Core.List.{IsPrefix};
ghost use Rattle.lane.specs.Ring.{
  in_name as way_in,
  out_name as way_out,
  put_in as put_home,
  taken,
};
ghost use Rattle.callparts.specs.Blocks.{items_of};
ghost use Rattle.callparts.specs.declared.report.Ending.TheVariants as ending;
ghost use Rattle.reasons.specs.declared.Reason.TheVariants as reason;
ghost use Rattle.reasons.specs.Codes.{code_of};
ghost use Rattle.connbook.specs.Receipts.{after_stop};
ghost use Rattle.outwriter.specs.Steps.{order_of};
ghost use Rattle.outwriter.specs.declared.control.WriterOrder.TheVariants as orders;
ghost use Rattle.session.specs.declared.event.InEvent.TheVariants as events;
ghost use Rattle.readerloop.specs.Calls.{SentItems, carried_in};
ghost use Rattle.readerloop.specs.Kept.{unsettled};
ghost use Rattle.readerloop.specs.Orders.{news_of};
ghost use Rattle.readerloop.specs.Readings.{DecidesOn, Reads, ReadsOn};
ghost use Rattle.readerloop.specs.Reports.{AreAccounts};
ghost use Rattle.readerloop.specs.Steps.{
  Drains,
  Lacks,
  Plain,
  Step,
  Told,
  WasTold,
  is_draining,
  reported,
};

mod data;
mod past_calls;
mod streams;

use crate::calls::Calls;
use crate::decision::Decision;
use crate::worker_pool::WorkerPool;
use callparts::{
    Accounts, Answering, DoneIn, Ending, Front, Naming, Order, Register, ReturningCall, TasksOut,
};
use connbook::{BookKey, ClosedBook, ConnBook, StoppedBook};
use h2frame::{ErrorCode, StreamId};
use lane::{Ring, RingIn, RingOut};
use outwriter::WriterOrder;
use reasons::Reason;
use session::PeerControl;
use std::alloc::Global;
use std::sync::ledger::Ledger;

/// The reading side of a connection: its calls, its workers, and which streams were begun.
#[derive(Drop)]
pub struct Reading<J: Naming, M: Answering> {
    alloc: Global,
    /// By which it ends calls in the book.
    key: BookKey,
    pub(crate) calls: Calls<J>,
    pub(crate) workers: WorkerPool<J, M>,
    /// All calls whose lanes were opened, ever.
    register: Register<J>,
    front: Front<J>,
    /// The ring on which the senders come back.
    pub(crate) home: RingOut<ReturningCall<J>>,
    /// Whether no more calls are admitted.
    pub(crate) is_draining: bool,
    /// The last stream of a GOAWAY (RFC 9113, section 6.8): the greatest that was begun, or once
    /// the server drains the greatest whose call was admitted; 0 for none.
    pub(crate) last: StreamId,
    /// How many streams were begun, up to `limits::MAX_STREAMS`.
    pub(crate) begun: u32,
    /// Whether the peer opens no more streams.
    pub(crate) peer_goaway: bool,
}

impl<J: Naming, M: Answering> Reading<J, M> {
    /// The reading side of a new connection, with an empty register and the ring on which senders
    /// come back. It takes no memory.
    pub fn new(
        alloc: Global,
        key: BookKey,
        register: Register<J>,
        front: Front<J>,
        home: RingOut<ReturningCall<J>>,
    ) -> Reading<J, M>
        ensures reads { (sent : List SentItems)
            → Reads M.known M.names (carried_in sent) [] result }
        ensures home { result.home ≡ home }
        ensures none { unsettled result.calls ≡ [] }
    {
        Reading {
            alloc,
            key,
            calls: Calls::new::<M>(alloc),
            workers: WorkerPool::new(alloc),
            register,
            front,
            home,
            is_draining: false,
            last: 0,
            begun: 0,
            peer_goaway: false,
        }
    }

    // ---- what comes on the connection

    /// Passes on to the writing side what the peer says to it.
    pub fn pass_on(&self, news: PeerControl) -> Decision<J>
        ensures decides { DecidesOn M.known M.names
            (Told (events.Control news) Plain) result self.now self.now }
    {
        Decision::order(order_of_news(news))
    }

    /// The peer opens no more streams.
    pub fn hear_goaway(&mut self)
        ensures reads { ReadsOn M.known M.names
            (Told events.PeerGoaway Plain) self.old self.new }
        ensures home { self.new.home ≡ self.old.home }
    {
        self.peer_goaway = true;
    }

    /// The client has made an error that ends the connection (RFC 9113, section 5.4.1).
    pub fn fatal(&self, reason: Reason) -> Decision<J>
        ensures order { (result.goaway ≡ None)
            × (result.order ≡ Some (orders.Goaway self.now.last reason)) }
        ensures ends { (result.to_shut ≡ None)
            × (result.ends ≡ Some (ending.ProtocolError (code_of reason))) }
        ensures decides { DecidesOn M.known M.names
            (Told (events.Fatal reason) Plain) result self.now self.now }
    {
        Decision {
            ends: Some(Ending::ProtocolError(reason.code())),
            ..Decision::order(self.goaway(reason))
        }
    }

    /// There was no memory for what came: the connection ends, with INTERNAL_ERROR (RFC 9113,
    /// section 5.4.1).
    pub fn run_out(&self) -> Decision<J>
        ensures order { (result.goaway ≡ None)
            × (result.order ≡ Some (orders.Goaway self.now.last reason.Memory)) }
        ensures ends { (result.to_shut ≡ None) × (result.ends ≡ Some ending.OutOfMemory) }
        ensures decides { DecidesOn M.known M.names Lacks result self.now self.now }
    {
        Decision {
            ends: Some(Ending::OutOfMemory),
            ..Decision::order(self.goaway(Reason::Memory))
        }
    }

    /// The GOAWAY that ends the connection for this reason, or by which the peer learns that the
    /// server drains.
    fn goaway(&self, reason: Reason) -> Order<J>
        ensures order { result ≡ orders.Goaway self.now.last reason }
    {
        WriterOrder::Goaway {
            last: self.last,
            reason,
        }
    }

    // ---- the end while calls go on

    /// The server drains: no more calls are admitted, as the book says, and GOAWAY names the greatest
    /// stream whose call was (RFC 9113, section 6.8).
    pub fn drain(&mut self, _word: &ClosedBook) -> Decision<J>
        ensures decides { DecidesOn M.known M.names Drains result self.old self.new }
        ensures ends { result.ends ≡ None }
        ensures draining { self.new.is_draining ≡ true }
        ensures home { self.new.home ≡ self.old.home }
    {
        self.is_draining = true;
        self.last = self.calls.last;
        Decision::order(self.goaway(Reason::Code(ErrorCode::NoError)))
    }

    /// Whether the server drains.
    pub fn is_draining(&self) -> bool
        ensures value { result ≡ self.now.is_draining }
        ensures told { (sent : List SentItems) (told : List Step)
            → Reads M.known M.names (carried_in sent) told self.now → result ≡ is_draining told }
    {
        self.is_draining
    }

    // ---- the end

    /// How the connection ended: its input has, or the server drains and no call is live.
    pub fn ending(&self) -> Ending
        ensures input { (result ≡ ending.InputEnded)
            ⊎ ((result ≡ ending.PeerGoaway) ⊎ (result ≡ ending.Drained)) }
        ensures draining { self.now.is_draining ≡ true → result ≡ ending.Drained }
        ensures drained { result ≡ ending.Drained → (sent : List SentItems)
            (told : List Step) → Reads M.known M.names (carried_in sent) told self.now
            → is_draining told ≡ true }
        ensures goaway { result ≡ ending.PeerGoaway → (sent : List SentItems)
            (told : List Step) → Reads M.known M.names (carried_in sent) told self.now
            → WasTold events.PeerGoaway told }
    {
        if self.is_draining {
            Ending::Drained
        } else if self.peer_goaway {
            Ending::PeerGoaway
        } else {
            Ending::InputEnded
        }
    }

    /// The connection ends: in the book no call is live any more.
    pub fn stop<A: Ledger, B: Ledger, C: Ledger>(&self, book: &mut ConnBook<A, B, C>) -> StoppedBook
        ensures book { book.new.book ≡ after_stop book.old.book }
        ensures stopped { book.new.stopped ≡ true }
    {
        book.stop(&self.key)
    }

    /// Rings the bells of the workers for which something came.
    pub fn ring_noted(&mut self)
        ensures rest { self.new ≡ record self.old { workers = self.new.workers } }
    {
        self.workers.ring_noted();
    }

    /// No more calls come: each worker ends once it has handed back its call.
    pub fn end(&mut self)
        ensures rest { self.new ≡ record self.old { workers = self.new.workers } }
    {
        self.workers.end();
    }

    /// The worker of this number has ended, and hands back its ends of the rings.
    pub fn meet(&mut self, number: usize, tasks: TasksOut<J>, done: DoneIn<J, M>)
        ensures rest { self.new ≡ record self.old { workers = self.new.workers } }
    {
        self.workers.meet(number, tasks, done);
    }

    /// The writing side has ended, and hands back its end of the ring of senders: what was taken
    /// from the ring begins what was put.
    pub fn meet_home(&mut self, home: RingIn<ReturningCall<J>>)
        requires way { way_in home ≡ way_out self.old.home }
        ensures came { IsPrefix (taken self.old.home) (put_home home) }
        ensures rest { self.new ≡ record self.old { home = self.new.home } }
    {
        let mut home = home;
        Ring::meet(&mut home, &mut self.home);
    }

    /// The accounts of the calls: one for each that was admitted, and no other, in the order of
    /// their admission. It is so only once no call is left to settle.
    pub fn into_accounts(self) -> Accounts
        ensures accounts { (sent : List SentItems) (told : List Step)
            → Reads M.known M.names (carried_in sent) told self → unsettled self.calls ≡ []
            → AreAccounts M.known M.names (carried_in sent) told (reported told)
            (items_of result.full result.last) }
    {
        self.calls.into_accounts()
    }
}

/// What the peer says to the writing side, as an order.
fn order_of_news<J: Naming>(news: PeerControl) -> Order<J>
    ensures { order_of result ≡ news_of news }
{
    match news {
        PeerControl::Settings(settings) => WriterOrder::Settings(settings),
        PeerControl::Ping(bytes) => WriterOrder::Ping(bytes),
        PeerControl::Window(id, increment) => WriterOrder::Window(id, increment),
    }
}
