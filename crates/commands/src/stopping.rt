//! How a server stops while its connections live: each is drained (RFC 9113, section 6.8).
//!
//! A connection has a thread of its own that waits for that. A `Drainer` has the type of its
//! connection, so no list can hold drainers, but a list has the threads' signals. If a client falls
//! silent once its calls have ended, that thread ends the connection's input.

ghost use Rattle.std.specs.Prelude.{◌≡◌, ◌+◌, ◌≤◌, false, true, not, IfOk, OnOk, vec_len};

use crate::stream::Link;
use connection::Drainer;
use lane::Bell;
use std::alloc::{AllocError, Global};
use std::net::SocketAddr;
use std::sync::atomic::{AtomicBool, Ordering};
use std::sync::ledger::Ledger;
use std::sync::{Arc, Mutex, Wait};
use std::thread::{JoinHandle, Threads};
use std::time::{Clock, Duration, Instant};
use std::{mem, thread};

/// How long a thread sleeps at most before it looks again at what it waits for, in seconds.
pub const LOOK: u64 = 3600;

/// How long it is between two looks whether a connection that is drained has calls, in
/// milliseconds.
const STEP: u64 = 50;

/// At how many looks nothing was written before the connection ends. That long a client has to
/// acknowledge the warning that comes before the GOAWAY with its last call (RFC 9113, section 6.8).
const GRACE: u32 = 10;

/// A connection that was taken.
#[derive(Clone, Copy, Debug, PartialEq, Eq)]
pub struct Connection {
    /// From 1 on, in the order in which they are taken.
    pub number: u64,
    /// Its client.
    pub peer: SocketAddr,
}

/// A server that can stop.
#[derive(Drop)]
pub struct Stop {
    /// How many connections it takes before it stops by itself, if it does.
    pub connections: Option<u16>,
    /// How long the server waits for connections that are drained.
    patience: Duration,
    state: Mutex<State>,
    /// Rung when the server stops, when a connection was drained, and when one has ended.
    changed: Bell,
}

#[derive(Drop)]
struct State {
    is_stopping: bool,
    /// The connections that live.
    live: Vec<Connection>,
    /// The signals of those that weren't drained.
    signals: Vec<Arc<Signal>>,
}

/// Lets one thread go on that waits for it.
#[derive(Drop)]
struct Signal {
    is_given: AtomicBool,
    /// Whether the connection has ended.
    is_over: AtomicBool,
    bell: Bell,
}

/// A thread that stands by to drain a connection.
#[derive(Drop)]
pub struct Standby {
    signal: Arc<Signal>,
    thread: JoinHandle<()>,
}

impl Stop {
    /// A server that stops when it is told to, or once the last of `connections` has ended. It
    /// waits `patience` seconds for connections that it drains.
    pub fn new(alloc: Global, connections: Option<u16>, patience: u16) -> Stop {
        Stop {
            connections,
            patience: Duration::from_secs(u64::from(patience)),
            state: Mutex::new(State {
                is_stopping: false,
                live: Vec::new(alloc),
                signals: Vec::new(alloc),
            }),
            changed: Bell::new(),
        }
    }

    /// A connection has come. Answers whether it is served and waited for, which it isn't if the
    /// server stops already.
    pub fn take(&self, rt: &impl Wait, connection: Connection) -> Result<bool, AllocError> {
        self.state.lock(rt).take(connection)
    }

    /// A connection that was served has ended, and was reported on.
    pub fn let_go(&self, rt: &impl Wait, number: u64) {
        self.state.lock(rt).let_go(number);
        self.changed.ring();
    }

    /// The server stops: no more connections are taken, and all that live are drained. It returns
    /// once they are.
    pub fn begin(&self, rt: &impl Wait) {
        self.state.lock(rt).begin();
        self.changed.ring();
        for _ in rt.forever() {
            let mark = self.changed.mark();
            if self.state.lock(rt).signals.is_empty() {
                return;
            }
            self.changed.wait_past(rt, mark, Duration::from_secs(LOOK));
        }
    }

    /// Waits until the server has stopped: no connection lives for which it waits, or its patience
    /// has ended. Answers the connections that are left.
    pub fn wait(&self, rt: &(impl Wait + Clock), alloc: Global) -> Vec<Connection> {
        let mut began = None;
        for _ in rt.forever() {
            let mark = self.changed.mark();
            let (is_stopping, is_over) = self.state.lock(rt).look();
            if is_over {
                return Vec::new(alloc);
            }
            if is_stopping && began.is_none() {
                began = Instant::now(rt).ok();
            }
            let left = self.left(rt, began);
            if left == Duration::ZERO {
                return mem::replace(&mut self.state.lock(rt).live, Vec::new(alloc));
            }
            self.changed.wait_past(rt, mark, left);
        }
        unreachable!()
    }

    /// How long it still waits, if it stopped at that moment.
    fn left(&self, rt: &impl Clock, began: Option<Instant>) -> Duration {
        let Some(began) = began else {
            return Duration::from_secs(LOOK);
        };
        match began.elapsed(rt) {
            Ok(elapsed) => self.patience.saturating_sub(elapsed),
            Err(_) => Duration::from_secs(LOOK),
        }
    }

    /// Adds a signal, and gives it if the server stops already. Answers whether it does.
    fn add(&self, rt: &impl Wait, signal: Arc<Signal>) -> Result<bool, AllocError> {
        self.state.lock(rt).add(signal)
    }

    /// A signal was given and heeded.
    fn forget(&self, rt: &impl Wait) {
        self.state.lock(rt).forget();
        self.changed.ring();
    }
}

/// Starts a thread that drains a connection once the server stops. If it stops already, the
/// connection is drained before this returns.
pub fn stand_by<A, B, C, R>(
    rt: R,
    alloc: Global,
    stop: &Arc<Stop>,
    drainer: Drainer<A, B, C>,
    link: Arc<Link>,
) -> Result<Standby, AllocError>
where
    A: Ledger + Send + Sync + 'static,
    B: Ledger + Send + Sync + 'static,
    C: Ledger + Send + Sync + 'static,
    R: Threads + Wait + Copy + Send + Sync + Drop + 'static,
{
    let stop = Arc::try_clone(stop)?;
    let signal = Arc::new(alloc, Signal::new())?;
    let theirs = Arc::try_clone(&signal)?;
    if stop.add(&rt, Arc::try_clone(&signal)?)? {
        drainer.drain(&rt);
    }
    let standing = thread::spawn(&rt, move || {
        theirs.wait(&rt);
        drainer.drain(&rt);
        stop.forget(&rt);
        end_idle(&rt, &theirs, &drainer, &link);
    });
    match standing {
        Ok(thread) => Ok(Standby { signal, thread }),
        Err(refused) => {
            signal.end();
            let drain_here = refused.value;
            drain_here();
            Err(AllocError)
        }
    }
}

/// After a drain: ends the connection's input once no call is live and nothing was written for a
/// while, so that the client had time to read all, and to acknowledge the warning. A client that
/// says something may end the connection before.
fn end_idle<A, B, C>(rt: &impl Wait, signal: &Signal, drainer: &Drainer<A, B, C>, link: &Link)
where
    A: Ledger,
    B: Ledger,
    C: Ledger,
{
    let mut quiet = 0u32;
    let mut before = None;
    for _ in rt.forever() {
        let mark = signal.bell.mark();
        if signal.is_over() {
            return;
        }
        let writes = link.writes();
        let is_quiet = writes.is_some() && writes == before && drainer.is_idle(rt);
        quiet = if is_quiet { quiet.saturating_add(1) } else { 0 };
        if quiet >= GRACE {
            link.shut_reading();
            return;
        }
        before = writes;
        signal.bell.wait_past(rt, mark, Duration::from_millis(STEP));
    }
}

impl Standby {
    /// The connection has ended: the thread drains it, which changes nothing now, and ends.
    pub fn end(self, rt: &impl Threads) {
        let Standby { signal, thread } = self;
        signal.end();
        thread.join(rt);
    }
}

impl Signal {
    fn new() -> Signal {
        Signal {
            is_given: AtomicBool::new(false),
            is_over: AtomicBool::new(false),
            bell: Bell::new(),
        }
    }

    fn give(&self) {
        self.is_given.store(true, Ordering::SeqCst);
        self.bell.ring();
    }

    /// The connection has ended.
    fn end(&self) {
        self.is_over.store(true, Ordering::SeqCst);
        self.give();
    }

    fn is_over(&self) -> bool {
        self.is_over.load(Ordering::SeqCst)
    }

    fn is_given(&self) -> bool {
        self.is_given.load(Ordering::SeqCst)
    }

    /// Waits until it is given.
    fn wait(&self, rt: &impl Wait) {
        for _ in rt.forever() {
            let mark = self.bell.mark();
            if self.is_given() {
                return;
            }
            self.bell.wait_past(rt, mark, Duration::from_secs(LOOK));
        }
    }
}

impl State {
    fn take(&mut self, connection: Connection) -> Result<bool, AllocError>
        ensures taken { IfOk result (λ is_taken. is_taken ≡ not self.old.is_stopping) }
        ensures counted { IfOk result (λ is_taken. is_taken ≡ true
            → vec_len self.new.live ≡ vec_len self.old.live + 1) }
        ensures uncounted { IfOk result (λ is_taken. is_taken ≡ false
            → self.new.live ≡ self.old.live) }
        ensures same { self.new.is_stopping ≡ self.old.is_stopping }
    {
        if self.is_stopping {
            return Ok(false);
        }
        self.live.push(connection)?;
        Ok(true)
    }

    fn let_go(&mut self, number: u64)
        ensures fewer { vec_len self.new.live ≤ vec_len self.old.live }
        ensures same { self.new.is_stopping ≡ self.old.is_stopping }
    {
        let place = self.live.iter().position(|it| it.number == number);
        if let Some(place) = place {
            if place < self.live.len() {
                let _connection = self.live.swap_remove(place);
            }
        }
    }

    fn begin(&mut self)
        ensures stopping { self.new.is_stopping ≡ true }
        ensures live { self.new.live ≡ self.old.live }
    {
        self.is_stopping = true;
        for signal in &self.signals {
            signal.give();
        }
    }

    /// Whether the server stops, and whether no connection lives any more for which it waits.
    fn look(&self) -> (bool, bool)
        ensures stopping { result.0 ≡ self.now.is_stopping }
        ensures none { result.1 ≡ true → (self.now.is_stopping ≡ true)
            × (vec_len self.now.live ≡ 0) }
    {
        (self.is_stopping, self.is_stopping && self.live.is_empty())
    }

    fn add(&mut self, signal: Arc<Signal>) -> Result<bool, AllocError>
        ensures stopping { IfOk result (λ stops. stops ≡ self.old.is_stopping) }
        ensures added { OnOk result (vec_len self.new.signals ≡ vec_len self.old.signals + 1) }
        ensures live { self.new.live ≡ self.old.live }
    {
        if self.is_stopping {
            signal.give();
        }
        self.signals.push(signal)?;
        Ok(self.is_stopping)
    }

    /// Forgets one of the signals that were given: which of them makes no difference.
    fn forget(&mut self)
        ensures live { self.new.live ≡ self.old.live }
        ensures same { self.new.is_stopping ≡ self.old.is_stopping }
    {
        let place = self.signals.iter().position(|signal| signal.is_given());
        if let Some(place) = place {
            if place < self.signals.len() {
                let _signal = self.signals.swap_remove(place);
            }
        }
    }
}
