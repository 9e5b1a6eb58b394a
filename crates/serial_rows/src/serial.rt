//! What a connection in one thread has: its reading side, its workers and its writing side, and
//! what each of the server's threads has beside these. Nothing is decided here.

use crate::pipe::Pipe;
use crate::runs::Course;
use crate::worker::InTurns;
use anyhow::Result;
use callparts::{Accounts, Ending, NewRegister, Request};
use connbook::{ConnBook, OpenedBook};
use device::StdDevice;
use h2frame::StreamId;
use handlers::Methods;
use lane::{Ring, RingIn};
use readerloop::Reading;
use session::{InCore, InEvent};
use std::alloc::Global;
use std::collections::VecDeque;
use std::marker::Brand;
use std::snapshot::Snapshot;
use std::sync::ledger::{Blank, Share};
use std::sync::{Arc, Wait};
use std::time::Clock;
use writerloop::{FillEnd, WriterEnding, Writing};

pub type SharedConn = callworker::SharedConn<Brand, Brand, Brand>;

pub type Order = callparts::Order<Brand>;

/// A connection in one thread.
#[derive(Drop)]
pub struct Serial<'a, R> {
    pub rt: &'a R,
    pub alloc: Global,
    pub methods: &'a Methods,
    pub course: Course<'a>,
    pub shared: Arc<SharedConn>,
    // ---- of the reader
    /// What is read, how many of these frames were, and whether no more come.
    pub frames: &'a [Vec<u8>],
    pub at: usize,
    pub has_ended: bool,
    pub came: Share<Brand>,
    pub admits: Share<Brand>,
    pub core: InCore,
    pub events: VecDeque<InEvent>,
    pub reading: Reading<Brand, Brand>,
    /// A call that was admitted, and waits for a worker.
    pub waiting: Option<Request>,
    /// How many calls were admitted, and how many of them no worker serves.
    pub admitted: usize,
    pub unserved: usize,
    /// The streams of the calls that were settled, rising in each look, and 0 after each look that
    /// was asked for or that settled one.
    pub settled: Vec<StreamId>,
    /// How the connection ended, if the reader ended it.
    pub ended: Option<Ending>,
    pub orders: RingIn<Order>,
    /// The kinds of the orders that were put.
    pub kinds: Vec<&'static str>,
    /// Whether orders were dropped, since the writer had stopped.
    pub has_dropped: bool,
    // ---- of the workers
    pub workers: Vec<InTurns>,
    /// What the server's clock shows.
    pub clock: u64,
    /// How many turns calls had.
    pub turns: u64,
    /// Whether a call ended for want of memory.
    pub ran_out: bool,
    // ---- of the writer
    pub told: Share<Brand>,
    pub writing: Writing<Brand, StdDevice<Pipe>>,
    /// What the buffer was filled with that wasn't written yet, and whether that was nothing.
    pub filled: Option<(FillEnd, bool)>,
    /// Whether nothing was to be written when it was looked at last.
    pub is_idle: bool,
    pub is_over: bool,
}

/// What came of a run.
#[derive(Drop)]
pub struct RunOutcome {
    pub written: Vec<u8>,
    pub ending: Ending,
    pub accounts: Accounts,
    pub settled: Vec<StreamId>,
    pub kinds: Vec<&'static str>,
    pub workers: usize,
    /// Whether each call that was admitted has one account, was settled once or not served, and
    /// each order was taken.
    pub is_accounted: bool,
    /// Whether there was no memory for the connection or for one of its calls.
    pub ran_out: bool,
    pub turns: u64,
    /// How many writes there were.
    pub writes: u64,
}

impl<'a, R: Wait + Clock> Serial<'a, R> {
    pub fn new(
        rt: &'a R,
        alloc: Global,
        methods: &'a Methods,
        frames: &'a [Vec<u8>],
        course: Course<'a>,
    ) -> Result<Serial<'a, R>> {
        let (received, came) = Blank::new(1).open::<Brand>();
        let (admitted, admits) = Blank::new(1).open::<Brand>();
        let (announced, told) = Blank::new(1).open::<Brand>();
        let OpenedBook {
            book,
            reader_key,
            writer_key,
            ..
        } = ConnBook::new(alloc, received, admitted, announced);
        let (orders, taking) = Ring::open(alloc, course.orders)?;
        let (going, home) = Ring::open(alloc, course.home)?;
        let (register, front) = NewRegister::new().named::<Brand>();
        let device = StdDevice::new(Pipe::new(alloc, course.most, course.fails_at)?);
        let was = Snapshot::of(&device);
        Ok(Serial {
            rt,
            alloc,
            methods,
            course,
            frames,
            at: 0,
            has_ended: false,
            shared: callworker::SharedConn::new(alloc, book)?,
            came,
            admits,
            core: InCore::new(alloc),
            events: VecDeque::new(alloc),
            reading: Reading::new(alloc, reader_key, register, front, home),
            waiting: None,
            admitted: 0,
            unserved: 0,
            settled: Vec::new(alloc),
            ended: None,
            orders,
            kinds: Vec::new(alloc),
            has_dropped: false,
            workers: Vec::new(alloc),
            clock: 0,
            turns: 0,
            ran_out: false,
            told,
            writing: Writing::new(alloc, writer_key, taking, going, device, &was),
            filled: None,
            is_idle: false,
            is_over: false,
        })
    }

    /// Whether the reader reads on: it ended nothing, and the writer hasn't stopped.
    pub fn reads_on(&self) -> bool {
        self.ended.is_none() && !self.shared.has_stopped()
    }

    /// Whether bytes can be read: nothing waits.
    pub fn is_reading(&self) -> bool {
        self.events.is_empty() && self.waiting.is_none() && self.reads_on()
    }

    /// Whether nothing waits, and the writer's last look found nothing to write, or it writes no
    /// more.
    pub fn is_idle(&self) -> bool {
        self.events.is_empty() && self.waiting.is_none() && (self.is_idle || self.is_over)
    }

    /// What came of it. What workers and writer had of calls comes back, and all are settled.
    pub fn into_ran(self) -> Result<RunOutcome> {
        let Serial {
            rt,
            shared,
            mut reading,
            mut writing,
            mut orders,
            mut settled,
            kinds,
            mut workers,
            ended,
            admitted,
            unserved,
            ran_out,
            turns,
            ..
        } = self;
        let marked = {
            let mut book = shared.book.lock(rt);
            writing.mark_ends(&mut book)
        };
        let _ = writing.flush(marked);
        let mut written = writing.into_end();
        let hired = workers.len();
        while let Some(worker) = workers.pop() {
            let ways = worker.into_ways();
            reading.meet(workers.len(), ways.tasks, ways.done);
        }
        while let Some(returning) = written.senders.next() {
            reading.take_back(returning);
        }
        for _ in 0..=reading.unsettled() {
            reading.collect();
            while let Some(account) = reading.settle_next() {
                settled.push(account.id)?;
            }
        }
        let ending = ending_of(ended.unwrap_or(reading.ending()), written.ending);
        let has_settled = reading.unsettled() == 0;
        let accounts = reading.into_accounts();
        let served = settled.iter().filter(|id| **id != 0).count();
        let has_all = accounts.len() == admitted && served + unserved == admitted;
        let has_taken = Ring::meet(&mut orders, &mut written.orders) == 0;
        let Pipe { bytes, calls, .. } = written.device.into_inner();
        Ok(RunOutcome {
            written: bytes,
            ending,
            is_accounted: has_settled && has_all && has_taken && are_rising(&accounts),
            accounts,
            settled,
            kinds,
            workers: hired,
            ran_out: ran_out || ending == Ending::OutOfMemory,
            turns,
            writes: calls,
        })
    }
}

/// Whether no two accounts are of one stream; they stand in order.
fn are_rising(accounts: &Accounts) -> bool {
    let mut last = 0;
    for place in 0..accounts.len() {
        match accounts.get(place) {
            Some(account) if account.id > last => last = account.id,
            _ => return false,
        }
    }
    true
}

/// How a connection ended, by what the reader and the writer see.
fn ending_of(read: Ending, written: Option<WriterEnding>) -> Ending {
    match (read, written) {
        (Ending::OutOfMemory, _) => Ending::OutOfMemory,
        (_, Some(end)) => end.ending(),
        (read, None) => read,
    }
}
