//! How the reading thread begins a stream: it has the lock admit a call, and a worker answer it.

ghost use Rattle.callhead.specs.declared.head.CallHead.{CallHead as Head};
ghost use Rattle.std.specs.Prelude.{◌≡◌, ◌∷◌, [], IfSome, true};
ghost use Rattle.callparts.specs.Workers.{IsWithin};
ghost use Rattle.handlers.specs.Listed.{listed};
ghost use Rattle.connbook.specs.declared.answers.AdmitFault.TheVariants as faults;
ghost use Rattle.session.specs.declared.event.InEvent.TheVariants as events;
ghost use Rattle.readerloop.specs.Readings.{IsNext, KeepsNext};
ghost use Rattle.readerloop.specs.WorkerHandles.{HasPlacesAt};
ghost use Rattle.connection.specs.Heard.{Collects};
ghost use Rattle.connection.specs.Limits.{MayTurnAway, Tally, one_more};
ghost use Rattle.connection.specs.Methods.{AreKnownBy, answers_of};
ghost use Rattle.connection.specs.Readers.{FollowsWith};

use super::Reader;
use crate::intake::Intake;
use crate::new_workers::open_worker;
use crate::orders::{Route, STEP};
use callhead::CallHead;
use callparts::{Answering, CallAccount, Ending, Naming, Request};
use callworker::{Gate, moment};
use connbook::{ClosedBook, RefusedCall};
use h2frame::StreamId;
use handlers::{Method, Methods};
use std::alloc::AllocError;
use std::sync::ledger::Ledger;
use std::sync::{Arc, Wait};
use std::thread::Threads;
use std::time::{Clock, Duration};

impl<A, B, C, J, M, N, R, G> Reader<A, B, C, J, M, N, R, G>
where
    A: Ledger + Send + Sync + 'static,
    B: Ledger + Send + Sync + 'static,
    C: Ledger + Send + Sync + 'static,
    J: Naming + Send + Sync + 'static,
    M: Answering + Send + Sync + 'static,
    N: Route,
    R: Threads + Wait + Clock + Copy + Send + Sync + Drop + 'static,
    G: Gate + Send + Sync + Drop + 'static,
{
    /// A stream begins with the head of a call. If its path names a method, the lock is to admit
    /// it.
    // (kept out of its caller, whose frame is on the stack of each connection that lives)
    #[inline(never)]
    pub(super) fn open(
        &mut self,
        intake: &mut Intake<A, B, C>,
        id: StreamId,
        head: CallHead,
        methods: &Arc<Methods>,
    ) -> Option<Ending>
        requires methods { AreKnownBy ⟦<dyn Method as Method>⟧ (listed methods.now.value)
            M.known M.names }
        ensures reads { FollowsWith M.known M.names intake.old intake.new
            (events.Open id head ∷ []) result self.old self.new }
    {
        let rt = self.rt;
        let index = methods.find(head.path.as_slice());
        let opened = match head.timeout {
            Some(_) => moment(&rt, self.start),
            None => 0,
        };
        match self.reading.open(id, head, index, opened) {
            Ok(request) => self.admit(intake, request, methods),
            Err(decided) => self.act(decided),
        }
    }

    /// Asks the lock to admit a call.
    fn admit(
        &mut self,
        intake: &mut Intake<A, B, C>,
        request: Request,
        methods: &Arc<Methods>,
    ) -> Option<Ending>
        requires known { IsWithin M.known
            (answers_of ⟦<dyn Method as Method>⟧ (listed methods.now.value)) }
        requires named { M.names request.head.path request.index }
        requires next { IsNext request.id self.old.reading }
        ensures reads { FollowsWith M.known M.names intake.old intake.new
            (events.Open request.id request.head ∷ []) result self.old self.new }
    {
        let rt = self.rt;
        match intake.admit(&rt, request.id) {
            Ok(()) => self.start(request, methods),
            Err(refused) => self.turn_away(&refused),
        }
    }

    /// A call isn't admitted. If that is because the server drains, GOAWAY is ordered first.
    fn turn_away(&mut self, refused: &RefusedCall) -> Option<Ending>
        ensures reads { (head : Head) (tally : Tally)
            → MayTurnAway tally.calls true refused.now.fault
            → FollowsWith M.known M.names tally tally (events.Open refused.now.id head ∷ [])
            result self.old self.new }
    {
        match refused.closed() {
            Some(word) => self.turn_away_drained(refused, &word),
            None => self.decline(refused),
        }
    }

    /// A call isn't admitted because the server drains. GOAWAY is ordered first.
    fn turn_away_drained(&mut self, refused: &RefusedCall, word: &ClosedBook) -> Option<Ending>
        requires drained { refused.now.fault ≡ faults.Draining }
        ensures reads { (head : Head) (tally : Tally)
            → FollowsWith M.known M.names tally tally (events.Open refused.now.id head ∷ [])
            result self.old self.new }
    {
        self.drain(word);
        self.decline(refused)
    }

    /// A call isn't admitted.
    fn decline(&mut self, refused: &RefusedCall) -> Option<Ending>
        ensures reads { (head : Head) (tally : Tally)
            → MayTurnAway tally.calls self.old.reading.is_draining refused.now.fault
            → FollowsWith M.known M.names tally tally (events.Open refused.now.id head ∷ [])
            result self.old self.new }
    {
        let decided = self.reading.turn_away(refused);
        self.act(decided)
    }

    /// Has a worker answer a call that was admitted: one that is free, or a new one. Where there
    /// are as many as calls may be live, one of them is at a call that is no longer live, and soon
    /// is free. Once the writer was seen to have stopped no call begins.
    fn start(&mut self, request: Request, methods: &Arc<Methods>) -> Option<Ending>
        requires known { IsWithin M.known
            (answers_of ⟦<dyn Method as Method>⟧ (listed methods.now.value)) }
        requires named { M.names request.head.path request.index }
        requires next { IsNext request.id self.old.reading }
        ensures reads { (tally : Tally) → FollowsWith M.known M.names tally (one_more tally)
            (events.Open request.id request.head ∷ []) result self.old self.new }
    {
        let rt = self.rt;
        let (id, method) = (request.id, request.index);
        if self.orders.has_stopped {
            return self.pass_over(id, method);
        }
        'looks: for _ in rt.forever() {
            let mark = self.orders.shared.reader.mark();
            if let Some(number) = self.find_free() {
                return self.engage(number, request);
            }
            if !self.reading.is_full() {
                if let Err(AllocError) = self.hire(methods) {
                    return self.lose(id, method);
                }
            } else if self.orders.shared.has_stopped() {
                self.orders.has_stopped = true;
                return self.pass_over(id, method);
            } else {
                self.wait(mark);
            }
        }
        unreachable!()
    }

    /// The number of a worker that is free, also of one that has just become so.
    fn find_free(&mut self) -> Option<usize>
        ensures collects { Collects M.known M.names self.old.reading self.new.reading }
        ensures orders { self.new.orders ≡ self.old.orders }
        ensures next { KeepsNext self.old.reading self.new.reading }
        ensures places { IfSome result (λ number. HasPlacesAt number self.new.reading.workers) }
    {
        let found = self.reading.free();
        if found.is_some() {
            return found;
        }
        self.settle_all();
        self.reading.free()
    }

    /// Waits until a worker may be free.
    fn wait(&mut self, mark: u64)
        ensures reading { self.new.reading
            ≡ record self.old.reading { workers = self.new.reading.workers } }
        ensures orders { self.new.orders ≡ self.old.orders }
    {
        self.reading.ring_noted();
        let shared = &self.orders.shared;
        shared.writer.ring();
        shared
            .reader
            .wait_past(&self.rt, mark, Duration::from_millis(STEP));
    }

    /// Hands a call to the worker of this number. Where there is no memory for its lanes the
    /// connection ends.
    fn engage(&mut self, number: usize, request: Request) -> Option<Ending>
        requires named { M.names request.head.path request.index }
        requires next { IsNext request.id self.old.reading }
        requires places { HasPlacesAt number self.old.reading.workers }
        ensures reads { (tally : Tally) → FollowsWith M.known M.names tally (one_more tally)
            (events.Open request.id request.head ∷ []) result self.old self.new }
    {
        let (id, method) = (request.id, request.index);
        match self.reading.engage(number, request) {
            Ok(decided) => self.act(decided),
            Err(AllocError) => self.lose(id, method),
        }
    }

    /// Starts one more worker.
    fn hire(&mut self, methods: &Arc<Methods>) -> Result<(), AllocError>
        requires known { IsWithin M.known
            (answers_of ⟦<dyn Method as Method>⟧ (listed methods.now.value)) }
        ensures reading { self.new.reading
            ≡ record self.old.reading { workers = self.new.reading.workers } }
        ensures orders { self.new.orders ≡ self.old.orders }
    {
        self.reading.reserve()?;
        self.hands.reserve(1)?;
        let (shared, gate) = (&self.orders.shared, &self.gate);
        let (handle, thread) = open_worker(self.rt, self.alloc, shared, gate, methods, self.start)?;
        self.hands.push_reserved(thread);
        self.reading.add(handle);
        Ok(())
    }

    /// A call of this method was admitted, and there is no memory or no thread for it: the
    /// connection ends.
    fn lose(&mut self, id: StreamId, method: usize) -> Option<Ending>
        requires next { IsNext id self.old.reading }
        ensures reads { (head : Head) (tally : Tally) → M.names head.path method
            → FollowsWith M.known M.names tally (one_more tally) (events.Open id head ∷ []) result
            self.old self.new }
    {
        self.gate.settled(&CallAccount::unserved(id, method));
        let decided = self.reading.lose(id, method);
        self.act(decided)
    }

    /// A call of this method was admitted, and the writer was seen to have stopped.
    fn pass_over(&mut self, id: StreamId, method: usize) -> Option<Ending>
        requires next { IsNext id self.old.reading }
        requires stopped { self.old.orders.has_stopped ≡ true }
        ensures reads { (head : Head) (tally : Tally) → M.names head.path method
            → FollowsWith M.known M.names tally (one_more tally) (events.Open id head ∷ []) result
            self.old self.new }
    {
        self.gate.settled(&CallAccount::unserved(id, method));
        let decided = self.reading.pass_over(id, method);
        self.act(decided)
    }
}
