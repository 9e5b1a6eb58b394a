//! The steps of the reader, as its thread takes them.

use crate::serial::{Order, Serial};
use crate::worker::{InTurns, open_ways};
use anyhow::{Result, bail};
use callhead::CallHead;
use callparts::{Line, OpeningCall, Request, ReturningCall};
use h2frame::{ErrorCode, StreamId};
use outwriter::WriterOrder;
use readerloop::{Decision, WorkerHandle};
use reasons::Reason;
use session::InEvent;
use std::alloc::AllocError;
use std::marker::Brand;
use std::sync::{Arc, Wait};
use std::time::Clock;

/// How many turns the writer has at most, until there is room for an order.
const TURNS: u32 = 4096;

impl<'a, R: Wait + Clock> Serial<'a, R> {
    /// Reads bytes: their events wait after the others.
    pub fn feed(&mut self, piece: &[u8]) -> Result<()> {
        let Ok(events) = self.core.feed(piece) else {
            let decided = self.reading.run_out();
            return self.act(decided);
        };
        for event in events {
            self.events.push_back(event)?;
        }
        Ok(())
    }

    /// Looks at the call that waits for a worker, or at the next event, if one waits.
    pub fn follow_next(&mut self) -> Result<()> {
        if let Some(request) = self.waiting.take() {
            return self.start(request);
        }
        match self.events.pop_front() {
            Some(event) => self.follow(event),
            None => Ok(()),
        }
    }

    /// What one event leads to.
    fn follow(&mut self, event: InEvent) -> Result<()> {
        let decided = match event {
            InEvent::Open(id, head) => return self.open(id, head),
            InEvent::BadHead(id, fault) => self.reading.refuse(id, fault),
            InEvent::Data(id, bytes, flow) => {
                let padding = flow.saturating_sub(u32::try_from(bytes.len())?);
                let mut book = self.shared.book.lock(self.rt);
                let counted = book.receive(id, flow, padding, &mut self.came);
                self.reading.data(bytes, counted)
            }
            InEvent::Loose(flow) => {
                let mut book = self.shared.book.lock(self.rt);
                let counted = book.receive(0, flow, 0, &mut self.came);
                self.reading.loose(counted)
            }
            InEvent::End(id) => {
                let mut book = self.shared.book.lock(self.rt);
                self.reading.end_half(&mut book, id);
                return Ok(());
            }
            InEvent::Reset(id, code) => self.reading.reset(id, code),
            InEvent::StreamError(id, code) => self.reading.fail(id, code),
            InEvent::Control(news) => self.reading.pass_on(news),
            InEvent::PeerGoaway => {
                self.reading.hear_goaway();
                return Ok(());
            }
            InEvent::Fatal(reason) => self.reading.fatal(reason),
        };
        self.act(decided)
    }

    /// A stream begins with the head of a call. A call of a method is to be admitted by the lock.
    fn open(&mut self, id: StreamId, head: CallHead) -> Result<()> {
        let index = self.methods.find(head.path.as_slice());
        let request = match self.reading.open(id, head, index, self.clock) {
            Ok(request) => request,
            Err(decided) => return self.act(decided),
        };
        let admitted = self.shared.book.lock(self.rt).admit(id, &mut self.admits);
        match admitted {
            Ok(()) => {
                self.admitted += 1;
                self.start(request)
            }
            Err(refused) => {
                let decided = self.reading.turn_away(&refused);
                self.act(decided)
            }
        }
    }

    /// Hands a call that was admitted to a worker: one that is free, or a new one. If there are 64
    /// workers, it waits.
    fn start(&mut self, request: Request) -> Result<()> {
        let (id, method) = (request.id, request.index);
        let mut number = self.reading.free();
        if number.is_none() {
            self.collect(false)?;
            number = self.reading.free();
        }
        if number.is_none() && self.reading.is_full() {
            if !self.shared.has_stopped() {
                self.waiting = Some(request);
                return Ok(());
            }
            self.unserved += 1;
            let decided = self.reading.pass_over(id, method);
            return self.act(decided);
        }
        if number.is_none() {
            number = self.hire().ok();
        }
        let engaged = match number {
            Some(number) => self.reading.engage(number, request),
            None => Err(AllocError),
        };
        let decided = match engaged {
            Ok(decided) => decided,
            Err(AllocError) => {
                self.unserved += 1;
                self.reading.lose(id, method)
            }
        };
        self.act(decided)
    }

    /// A new worker. Its number.
    fn hire(&mut self) -> Result<usize, AllocError> {
        self.reading.reserve()?;
        self.workers.reserve(1)?;
        let line = Arc::new(self.alloc, Line::new())?;
        let (tasks, done, ways) = open_ways(self.alloc)?;
        self.workers
            .push_reserved(InTurns::new(Arc::try_clone(&line)?, ways));
        Ok(self.reading.add(WorkerHandle::new(line, tasks, done)))
    }

    /// Takes what came back of calls, and settles those that are over. A look that was asked for is
    /// noted also where it settles none.
    pub fn collect(&mut self, is_asked: bool) -> Result<()> {
        let before = self.settled.len();
        self.reading.collect();
        while let Some(account) = self.reading.settle_next() {
            self.settled.push(account.id)?;
        }
        self.settled[before..].sort_unstable();
        if is_asked || self.settled.len() > before {
            self.settled.push(0)?;
        }
        Ok(())
    }

    /// Does what was decided: what is ordered first, then the half that is to be shut.
    fn act(&mut self, decided: Decision<Brand>) -> Result<()> {
        if let Some(last) = decided.goaway {
            let reason = Reason::Code(ErrorCode::NoError);
            self.put(WriterOrder::Goaway { last, reason })?;
        }
        if let Some(order) = decided.order {
            self.put(order)?;
        }
        if let Some(half) = decided.to_shut {
            let mut book = self.shared.book.lock(self.rt);
            self.reading.shut(&mut book, half);
        }
        if decided.ends.is_some() {
            self.ended = decided.ends;
            self.events.clear();
            let mut book = self.shared.book.lock(self.rt);
            let _stopped = self.reading.stop(&mut book);
        }
        Ok(())
    }

    /// Puts an order. While there is no room the writer has its turns. Once it has stopped, this
    /// order and all after it but the last are dropped, and the sender of a call that was to begin
    /// comes back.
    fn put(&mut self, order: Order) -> Result<()> {
        let (kind, mut order) = (kind_of(&order), order);
        let is_last = kind == "close";
        for _ in 0..TURNS {
            if is_last || !self.has_dropped {
                match self.orders.put(order) {
                    Ok(()) => {
                        self.kinds.push(kind)?;
                        return Ok(());
                    }
                    Err(fault) => order = fault.into_item(),
                }
            }
            if is_last {
                self.collect(false)?;
            } else if self.shared.has_stopped() {
                self.has_dropped = true;
                if let WriterOrder::Open(_, OpeningCall { sending, .. }) = order {
                    self.reading.take_back(ReturningCall { sending });
                }
                return Ok(());
            }
            self.round();
        }
        bail!("no room for an order")
    }

    /// No more comes: the calls that their clients neither ended nor reset are cut, and no more
    /// calls come.
    pub fn end_input(&mut self) -> Result<()> {
        for place in 0..self.reading.unsettled() {
            if let Some(decided) = self.reading.cut_off(place) {
                self.act(decided)?;
            }
        }
        self.put(WriterOrder::InputEnded)?;
        self.reading.end();
        self.has_ended = true;
        Ok(())
    }

    /// No call is answered any more.
    pub fn close(&mut self) -> Result<()> {
        self.put(WriterOrder::Close)
    }
}

/// The word for an order.
fn kind_of(order: &Order) -> &'static str {
    match order {
        WriterOrder::Settings(_) => "settings",
        WriterOrder::Ping(_) => "ping",
        WriterOrder::Probe(_) => "probe",
        WriterOrder::Window(_, _) => "window",
        WriterOrder::Open(_, _) => "open",
        WriterOrder::Refuse(_, _) => "refuse",
        WriterOrder::Reset { .. } => "reset",
        WriterOrder::Goaway { .. } => "goaway",
        WriterOrder::InputEnded => "end",
        WriterOrder::Close => "close",
    }
}
