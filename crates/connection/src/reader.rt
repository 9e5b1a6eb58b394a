//! The reading thread of a connection. It reads, asks the lock, and does what the reading side
//! decides (the crate `readerloop`).

ghost use Rattle.std.specs.Prelude.{◌≡◌, ◌∷◌, ℕ, List, [], None, IfSome, IsSome, false, true};
ghost use Rattle.std.specs.Io.KnownBytes.{Consumes};
ghost use Rattle.lane.specs.Ring.{taken};
ghost use Rattle.handlers.specs.Listed.{listed};
ghost use Rattle.session.specs.declared.event.InEvent.TheVariants as events;
ghost use Rattle.readerloop.specs.Calls.{SentItems, carried_in};
ghost use Rattle.readerloop.specs.Readings.{KeepsNext, Reads, goaway_in, order_in};
ghost use Rattle.readerloop.specs.Steps.{Lacks, Step};
ghost use Rattle.connection.specs.Heard.{AreCarried, Grows};
ghost use Rattle.connection.specs.Methods.{AreKnownBy};
ghost use Rattle.connection.specs.Puts.{IsOwn, IsSame};
ghost use Rattle.connection.specs.Readers.{
  ActsAlone,
  Does,
  Follows,
  FollowsWith,
  HasFollowed,
  HasReadOut,
};

mod end;
mod streams;

use crate::intake::Intake;
use crate::orders::{Orders, Route};
use bytes::Bytes;
use callhead::HeadFault;
use callparts::{Answering, Ending, Front, Naming, Order, Register, ReturningCall};
use callworker::{Gate, WorkerThread};
use connbook::{BookKey, ClosedBook, DrainedBook};
use device::{ConnRead, ReadFault};
use h2frame::{ErrorCode, StreamId};
use handlers::{Method, Methods};
use lane::RingOut;
use outwriter::WriterOrder;
use readerloop::{Decision, Reading};
use reasons::Reason;
use session::{InCore, InEvent};
use std::alloc::Global;
use std::sync::ledger::Ledger;
use std::sync::{Arc, Wait};
use std::thread::Threads;
use std::time::{Clock, Instant};

/// For a read of this many bytes or more the writer isn't rung where all are DATA for calls: the
/// workers ring once they have taken them.
const LARGE_PIECE: usize = 8_192;

/// The GOAWAY that asks the client to open no streams after this one, if there is one.
fn goaway_of<J: Naming>(goaway: Option<StreamId>) -> Option<Order<J>>
    ensures order { order_in result ≡ goaway_in goaway }
    ensures own { IfSome result IsOwn }
{
    let last = goaway?;
    let reason = Reason::Code(ErrorCode::NoError);
    Some(WriterOrder::Goaway { last, reason })
}

/// What the reading thread of a connection has.
#[derive(Drop)]
pub(crate) struct Reader<
    A: Ledger,
    B: Ledger,
    C: Ledger,
    J: Naming,
    M: Answering,
    N: Route,
    R,
    G: Drop,
> {
    rt: R,
    alloc: Global,
    pub(crate) orders: Orders<A, B, C, J, N>,
    pub(crate) reading: Reading<J, M>,
    /// The threads of the workers.
    hands: Vec<WorkerThread<J, M>>,
    /// How the reader's bell stood when the reader last looked for what came back. None where a
    /// half was shut since.
    looked: Option<u64>,
    /// The book's word that no call is live, and that no more are admitted.
    drained_book: Option<DrainedBook>,
    gate: Arc<G>,
    /// When the connection began; nothing where the clock didn't tell.
    start: Option<Instant>,
}

impl<A, B, C, J, M, N, R, G> Reader<A, B, C, J, M, N, R, G>
where
    A: Ledger + Send + Sync + 'static,
    B: Ledger + Send + Sync + 'static,
    C: Ledger + Send + Sync + 'static,
    J: Naming + Send + Sync + 'static,
    M: Answering + Send + Sync + 'static,
    N: Route,
    R: Threads + Wait + Clock + Copy + Send + Sync + Drop + 'static,
    G: Gate + Send + Sync + Drop + 'static,
{
    pub(crate) fn new(
        rt: R,
        alloc: Global,
        orders: Orders<A, B, C, J, N>,
        key: BookKey,
        register: Register<J>,
        front: Front<J>,
        home: RingOut<ReturningCall<J>>,
        gate: Arc<G>,
        start: Option<Instant>,
    ) -> Reader<A, B, C, J, M, N, R, G>
        ensures reads { (sent : List SentItems)
            → Reads M.known M.names (carried_in sent) [] result.reading }
        ensures home { result.reading.home ≡ home }
        ensures orders { result.orders ≡ orders }
        ensures unasked { result.drained_book ≡ None }
    {
        Reader {
            rt,
            alloc,
            orders,
            reading: Reading::new(alloc, key, register, front, home),
            hands: Vec::new(alloc),
            looked: None,
            drained_book: None,
            gate,
            start,
        }
    }

    /// Reads to the end. Answers how the connection ended as far as the reader sees.
    #[inline(never)]
    pub(crate) fn read<I: ConnRead>(
        &mut self,
        intake: &mut Intake<A, B, C>,
        input: &mut I,
        methods: &Arc<Methods>,
    ) -> Ending
        requires methods { AreKnownBy ⟦<dyn Method as Method>⟧ (listed methods.now.value)
            M.known M.names }
        requires uncounted { (intake.old.calls ≡ 0) × (intake.old.came ≡ 0) }
        requires unasked { self.old.drained_book ≡ None }
        ensures grows { Grows self.old.reading self.new.reading }
        ensures read { (sent : List SentItems) → AreCarried sent (taken self.new.reading.home)
            → HasFollowed M.known M.names sent [] self.old
            → (came : List ℕ) × Consumes (I.remaining input.old) (I.remaining input.new) came
            × HasReadOut M.known M.names sent result came (I.remaining input.new)
            (I.failed input.new) intake.new self.new }
    {
        let mut core = InCore::new(self.alloc);
        let rt = self.rt;
        'pieces: for _ in rt.forever() {
            if self.orders.shared.has_stopped() {
                // (the writer says how the connection ended)
                self.orders.has_stopped = true;
                return self.reading.ending();
            }
            let (count, events) = match core.read_from(input) {
                Ok(given) => given,
                Err(ReadFault::Device) => return Ending::ReadFailed,
                Err(ReadFault::OutOfMemory) => {
                    self.lack();
                    self.stop();
                    return Ending::OutOfMemory;
                }
            };
            if count == 0 {
                self.heed_drain();
                return self.reading.ending();
            }
            self.collect();
            if let Some(ending) = self.take(intake, count, events, methods) {
                self.stop();
                return ending;
            }
            if self.heed_drain() {
                return self.reading.ending();
            }
        }
        unreachable!()
    }

    /// Looks whether the server drains, and if so orders the GOAWAY for it. Answers whether no call
    /// is live then, by the book's word: the connection ends.
    fn heed_drain(&mut self) -> bool
        ensures cuts { ActsAlone M.known M.names false self.old self.new }
        ensures draining { result ≡ true → self.new.reading.is_draining ≡ true }
        ensures word { result ≡ true → IsSome self.new.drained_book }
        ensures undrained { self.new.reading.is_draining ≡ false
            → self.new.drained_book ≡ self.old.drained_book }
    {
        let (closed, drained) = self.look();
        let Some(word) = closed else {
            return false;
        };
        self.drain(&word);
        self.drained_book = drained;
        self.drained_book.is_some()
    }

    /// The book's words that no more calls are admitted, and that none is live either.
    fn look(&self) -> (Option<ClosedBook>, Option<DrainedBook>) {
        let book = self.orders.shared.book.lock(&self.rt);
        (book.closed(), book.drained())
    }

    /// The server drains: orders the GOAWAY that names the last call which goes on, unless it was
    /// ordered.
    fn drain(&mut self, word: &ClosedBook)
        ensures cuts { ActsAlone M.known M.names false self.old self.new }
        ensures draining { self.new.reading.is_draining ≡ true }
    {
        if self.reading.is_draining() {
            return;
        }
        let decided = self.reading.drain(word);
        self.act(decided);
        self.orders.wake_writer();
    }

    /// There is no memory for what was read: the connection ends.
    fn lack(&mut self)
        ensures home { self.new.reading.home ≡ self.old.reading.home }
        ensures kept { (sent : List SentItems) (told : List Step)
            → HasFollowed M.known M.names sent told self.old
            → HasFollowed M.known M.names sent (Lacks ∷ told) self.new }
    {
        let decided = self.reading.run_out();
        self.act(decided);
    }

    /// Does what `count` bytes that came, with these events, lead to. Answers how the connection
    /// ends, if it does.
    fn take(
        &mut self,
        intake: &mut Intake<A, B, C>,
        count: usize,
        events: Vec<InEvent>,
        methods: &Arc<Methods>,
    ) -> Option<Ending>
        requires methods { AreKnownBy ⟦<dyn Method as Method>⟧ (listed methods.now.value)
            M.known M.names }
        ensures reads { FollowsWith M.known M.names intake.old intake.new events.items result
            self.old self.new }
    {
        let end = self.heed(intake, events, methods);
        if end.is_none() {
            self.wake_threads(count);
        }
        end
    }

    /// Rings for `count` bytes that came. It rings the writer where an order waits, where few bytes
    /// came, which may be returned at once, and where credit is due, since no worker rings for
    /// credit that the bytes themselves made due. The writer wakes while the calls are answered.
    fn wake_threads(&mut self, count: usize)
        ensures reading { self.new.reading
            ≡ record self.old.reading { workers = self.new.reading.workers } }
        ensures same { IsSame self.old.orders self.new.orders }
    {
        self.reading.ring_noted();
        if count < LARGE_PIECE || self.orders.are_unrung || self.is_credit_due() {
            self.orders.wake_writer();
        }
    }

    /// Whether credit is due on the connection.
    fn is_credit_due(&self) -> bool {
        self.orders.shared.book.lock(&self.rt).is_credit_due()
    }

    /// Does what events lead to, one after another. Answers how the connection ends, if it does.
    fn heed(
        &mut self,
        intake: &mut Intake<A, B, C>,
        events: Vec<InEvent>,
        methods: &Arc<Methods>,
    ) -> Option<Ending>
        requires methods { AreKnownBy ⟦<dyn Method as Method>⟧ (listed methods.now.value)
            M.known M.names }
        ensures reads { FollowsWith M.known M.names intake.old intake.new events.items result
            self.old self.new }
    {
        'events: for event in events {
            let end = self.follow(intake, event, methods);
            if end.is_some() {
                return end;
            }
        }
        None
    }

    /// Does what one event leads to. Answers how the connection ends, if it does.
    fn follow(
        &mut self,
        intake: &mut Intake<A, B, C>,
        event: InEvent,
        methods: &Arc<Methods>,
    ) -> Option<Ending>
        requires methods { AreKnownBy ⟦<dyn Method as Method>⟧ (listed methods.now.value)
            M.known M.names }
        ensures reads { FollowsWith M.known M.names intake.old intake.new (event ∷ []) result
            self.old self.new }
    {
        match event {
            InEvent::Open(id, head) => self.open(intake, id, head, methods),
            InEvent::BadHead(id, fault) => self.refuse(id, fault),
            InEvent::Data(id, bytes, flow) => self.data(intake, id, bytes, flow),
            InEvent::Loose(flow) => self.loose(intake, flow),
            InEvent::End(id) => self.end_half(id),
            InEvent::Reset(id, code) => self.reset(id, code),
            InEvent::StreamError(id, code) => self.fail(id, code),
            InEvent::Control(news) => self.pass_on(news),
            InEvent::PeerGoaway => self.hear_goaway(),
            InEvent::Fatal(reason) => self.fatal(reason),
        }
    }

    /// A stream begins without the head of a call.
    fn refuse(&mut self, id: StreamId, fault: HeadFault) -> Option<Ending>
        ensures reads { Follows M.known M.names (events.BadHead id fault ∷ []) result
            self.old self.new }
    {
        let decided = self.reading.refuse(id, fault);
        self.act(decided)
    }

    /// The client has reset a stream.
    fn reset(&mut self, id: StreamId, code: ErrorCode) -> Option<Ending>
        ensures reads { Follows M.known M.names (events.Reset id code ∷ []) result
            self.old self.new }
    {
        let decided = self.reading.reset(id, code);
        self.act(decided)
    }

    /// The client has made an error on a stream.
    fn fail(&mut self, id: StreamId, code: ErrorCode) -> Option<Ending>
        ensures reads { Follows M.known M.names (events.StreamError id code ∷ []) result
            self.old self.new }
    {
        let decided = self.reading.fail(id, code);
        self.act(decided)
    }

    /// Passes on to the writer what the peer says to it.
    fn pass_on(&mut self, news: session::PeerControl) -> Option<Ending>
        ensures reads { Follows M.known M.names (events.Control news ∷ []) result
            self.old self.new }
    {
        let decided = self.reading.pass_on(news);
        self.act(decided)
    }

    /// The client has made an error that ends the connection.
    fn fatal(&mut self, reason: Reason) -> Option<Ending>
        ensures reads { Follows M.known M.names (events.Fatal reason ∷ []) result
            self.old self.new }
    {
        let decided = self.reading.fatal(reason);
        self.act(decided)
    }

    /// The peer opens no more streams.
    fn hear_goaway(&mut self) -> Option<Ending>
        ensures reads { Follows M.known M.names (events.PeerGoaway ∷ []) result self.old self.new }
    {
        self.reading.hear_goaway();
        None
    }

    /// Does what was decided: puts the orders, then shuts the half that is to be shut. Answers how
    /// the connection ends, if it does.
    fn act(&mut self, decided: Decision<J>) -> Option<Ending>
        ensures acts { Does M.known M.names decided self.old self.new }
        ensures ends { result ≡ decided.ends }
        ensures draining { self.new.reading.is_draining ≡ self.old.reading.is_draining }
        ensures next { KeepsNext self.old.reading self.new.reading }
    {
        let Decision {
            goaway,
            order,
            to_shut,
            ends,
        } = decided;
        let rt = self.rt;
        self.orders.put_some(&rt, goaway_of(goaway));
        self.orders.put_some(&rt, order);
        if let Some(half) = to_shut {
            self.looked = None;
            let mut book = self.orders.shared.book.lock(&rt);
            self.reading.shut(&mut book, half);
        }
        ends
    }

    /// DATA came on a stream: `flow` bytes of it count for flow control.
    fn data(
        &mut self,
        intake: &mut Intake<A, B, C>,
        id: StreamId,
        bytes: Bytes,
        flow: u32,
    ) -> Option<Ending>
        ensures reads { FollowsWith M.known M.names intake.old intake.new
            (events.Data id bytes flow ∷ []) result self.old self.new }
    {
        let rt = self.rt;
        let padding = flow.saturating_sub(u32::try_from(bytes.len()).unwrap_or(u32::MAX));
        let counted = intake.receive(&rt, id, flow, padding);
        self.note_credit(counted.are_returned());
        let decided = self.reading.data(bytes, counted);
        self.act(decided)
    }

    /// Bytes came that count on the connection alone.
    fn loose(&mut self, intake: &mut Intake<A, B, C>, flow: u32) -> Option<Ending>
        ensures reads { FollowsWith M.known M.names intake.old intake.new
            (events.Loose flow ∷ []) result self.old self.new }
    {
        let counted = intake.receive(&self.rt, 0, flow, 0);
        self.note_credit(counted.are_returned());
        let decided = self.reading.loose(counted);
        self.act(decided)
    }

    /// Notes whether credit was returned that no call rings for.
    fn note_credit(&mut self, is_returned: bool)
        ensures reading { self.new.reading ≡ self.old.reading }
        ensures same { IsSame self.old.orders self.new.orders }
        ensures noted { is_returned ≡ true → self.new.orders.are_unrung ≡ true }
    {
        self.orders.are_unrung = self.orders.are_unrung || is_returned;
    }

    /// The client has ended its half of a stream.
    fn end_half(&mut self, id: StreamId) -> Option<Ending>
        ensures reads { Follows M.known M.names (events.End id ∷ []) result self.old self.new }
    {
        let rt = self.rt;
        self.looked = None;
        let mut book = self.orders.shared.book.lock(&rt);
        self.reading.end_half(&mut book, id);
        None
    }
}
