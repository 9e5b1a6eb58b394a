//! The turns of the workers. A worker waits in none of them; else it does what the thread of
//! `callworker::Worker` does.

use crate::serial::Serial;
use anyhow::{Result, bail};
use callparts::{
    CallNumber, DoneOut, EachAnswered, EachFresh, FinishedJob, InLane, Job, Line, OutLane, PLACES,
    TasksIn, Traffic,
};
use callrun::{CallRun, Turn};
use callworker::{OpenGate, Ways, Worker};
use connbook::CallKey;
use h2frame::StreamId;
use handlers::Methods;
use lane::End;
use rtrb::RingBuffer;
use std::alloc::{AllocError, Global};
use std::marker::Brand;
use std::sync::{Arc, Wait};
use std::time::{Clock, Instant};

/// A worker that has turns.
#[derive(Drop)]
pub struct InTurns {
    line: Arc<Line>,
    ways: Ways<Brand, Brand>,
    call: Option<RunningCall>,
}

/// The rings by which a worker is handed its calls and hands them back: the reader's ends, and the
/// worker's.
pub fn open_ways(
    alloc: Global,
) -> Result<(TasksIn<Brand>, DoneOut<Brand, Brand>, Ways<Brand, Brand>), AllocError> {
    let (handing, tasks) = RingBuffer::with_protocol::<Global, EachFresh>(alloc, PLACES)?;
    let (done, taking) = RingBuffer::with_protocol::<Global, EachAnswered<Brand>>(alloc, PLACES)?;
    Ok((handing, taking, Ways { tasks, done }))
}

impl InTurns {
    pub fn new(line: Arc<Line>, ways: Ways<Brand, Brand>) -> InTurns {
        InTurns {
            line,
            ways,
            call: None,
        }
    }

    /// The next call that it was handed, if one is there.
    fn next(&mut self) -> Option<Job<Brand>> {
        match self.ways.tasks.pop() {
            Ok(task) => task,
            Err(_empty) => None,
        }
    }

    fn hand_back(&mut self, finished: FinishedJob<Brand>) -> Result<()> {
        if self.ways.done.push(finished).is_err() {
            bail!("no room for a call that is over");
        }
        Ok(())
    }

    pub fn into_ways(self) -> Ways<Brand, Brand> {
        self.ways
    }
}

/// A call that is being answered.
#[derive(Drop)]
struct RunningCall {
    key: CallKey,
    number: CallNumber<Brand>,
    run: CallRun<InLane, OutLane>,
    turns: u64,
    bytes: u64,
}

impl RunningCall {
    fn new(alloc: Global, methods: &Methods, job: Job<Brand>) -> RunningCall {
        let (work, number) = (job.work, job.number);
        let (request, taker, giver, key) = (work.request, work.taker, work.giver, work.key);
        let (index, head) = (request.index, request.head);
        RunningCall {
            key,
            number,
            run: CallRun::new(alloc, methods, index, head, taker, giver, request.opened),
            turns: 0,
            bytes: 0,
        }
    }

    /// A turn; one that finds no memory, not even for trailers that say so, leaves the call.
    fn turn(&mut self, methods: &Methods, clock: u64, lacks: Option<(StreamId, u64)>) -> Turn {
        if let Some((id, turns)) = lacks {
            if self.key.id() == id && self.turns >= turns {
                self.run.leave(methods);
                return Turn::Over;
            }
        }
        self.turns += 1;
        let now = if self.run.has_deadline() { clock } else { 0 };
        self.run.turn(methods, now)
    }

    /// What its worker hands back, and the key by which the call is left.
    fn into_finished(self) -> (FinishedJob<Brand>, CallKey) {
        let (number, run, bytes, key) = (self.number, self.run, self.bytes, self.key);
        let (replies, reply_bytes) = run.given();
        let (taker, end, status) = run.into_ends();
        let given = match end {
            End::Open(giver) => giver.leave(),
            End::Shut(shut) => shut,
        };
        let finished = FinishedJob {
            number,
            taker,
            given,
            status,
            traffic: Traffic {
                bytes,
                replies,
                reply_bytes,
            },
        };
        (finished, key)
    }
}

impl<'a, R: Wait + Clock> Serial<'a, R> {
    /// Gives the worker of this number a turn; whether it did something.
    pub fn turn_of(&mut self, number: usize) -> Result<bool> {
        let Some(worker) = self.workers.get_mut(number) else {
            return Ok(false);
        };
        if worker.call.is_none() {
            if let Some(job) = worker.next() {
                worker.call = Some(RunningCall::new(self.alloc, self.methods, job));
            }
        }
        let Some(mut call) = worker.call.take() else {
            return Ok(false);
        };
        self.turns += 1;
        let turn = call.turn(self.methods, self.clock, self.course.lacks);
        self.ran_out = self.ran_out || call.run.ran_out();
        if turn == Turn::Went {
            worker.call = Some(call);
            return Ok(true);
        }
        let credit = call.run.credit();
        call.bytes += u64::from(credit);
        let mut book = self.shared.book.lock(self.rt);
        if credit > 0 {
            // Where the call is no longer live, its bytes were returned already.
            let _ = book.return_credit(&call.key, credit);
        }
        if turn != Turn::Over {
            if book.not_live(&call.key).is_none() {
                worker.call = Some(call);
                return Ok(false);
            }
            while call.run.turn(self.methods, 0) == Turn::Went {}
            call.run.leave(self.methods);
        }
        let (finished, key) = call.into_finished();
        if finished.status.is_none() {
            book.leave(&key);
        }
        worker.hand_back(finished)?;
        Ok(true)
    }

    /// Has `callworker::Worker` answer the next call of the worker of this number, from its head to
    /// its trailers: all that comes on it is there, and there is room for all that it is answered
    /// with. Whether there was a call.
    pub fn work(&mut self, number: usize) -> Result<bool> {
        let Some(worker) = self.workers.get_mut(number) else {
            return Ok(false);
        };
        let Some(job) = worker.next() else {
            return Ok(false);
        };
        let (mut tasks, mut done, ways) = open_ways(self.alloc)?;
        let _ = tasks.push(Some(job));
        let _ = tasks.push(None);
        let threads = Worker {
            alloc: self.alloc,
            line: Arc::try_clone(&worker.line)?,
            shared: Arc::try_clone(&self.shared)?,
            gate: Arc::new(self.alloc, OpenGate)?,
            start: Some(Instant::now(self.rt)?),
        };
        let _ways = threads.work::<Brand, Brand, R>(self.rt, self.methods, ways);
        let Ok(finished) = done.pop() else {
            bail!("a call didn't come back");
        };
        worker.hand_back(finished)?;
        Ok(true)
    }
}
