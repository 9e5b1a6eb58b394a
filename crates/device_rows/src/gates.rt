//! Gates that hold the first call of a connection back until its second was answered, or that have
//! the connection drained.

use connbook::StoppedBook;
use connection::Gate;
use h2frame::StreamId;
use lane::Bell;
use std::sync::Wait;
use std::sync::atomic::{AtomicBool, AtomicU32, Ordering};
use std::time::Duration;

/// How many times a call is held back at most, and how many turns a gate waits at most.
pub const MOST: u32 = 10_000;

/// The streams of the first call and the second.
const FIRST: StreamId = 1;

const SECOND: StreamId = 3;

/// Refuses the first call until the second was answered.
#[derive(Drop)]
pub struct RefuseGate {
    is_answered: AtomicBool,
    refusals: AtomicU32,
}

impl RefuseGate {
    pub fn new() -> RefuseGate {
        RefuseGate {
            is_answered: AtomicBool::new(false),
            refusals: AtomicU32::new(0),
        }
    }

    /// How many times it refused.
    pub fn refusals(&self) -> u32 {
        self.refusals.load(Ordering::SeqCst)
    }
}

impl Gate for RefuseGate {
    fn may_go(&self, id: StreamId) -> bool {
        if id != FIRST || self.is_answered.load(Ordering::SeqCst) {
            return true;
        }
        self.refusals.fetch_add(1, Ordering::SeqCst);
        false
    }

    fn trailers_written(&self, id: StreamId) {
        if id == SECOND {
            self.is_answered.store(true, Ordering::SeqCst);
        }
    }

    fn writing_ended(&self, _stopped: &StoppedBook) {}
}

/// Keeps the first call's worker until the second call was answered.
#[derive(Drop)]
pub struct KeepGate<R: Wait + Drop> {
    rt: R,
    is_answered: AtomicBool,
    /// Rung once it is.
    answered: Bell,
    turns: AtomicU32,
}

impl<R: Wait + Drop> KeepGate<R> {
    pub fn new(rt: R) -> KeepGate<R> {
        KeepGate {
            rt,
            is_answered: AtomicBool::new(false),
            answered: Bell::new(),
            turns: AtomicU32::new(0),
        }
    }

    /// How many turns it waited.
    pub fn turns(&self) -> u32 {
        self.turns.load(Ordering::SeqCst)
    }
}

impl<R: Wait + Drop> Gate for KeepGate<R> {
    fn may_go(&self, id: StreamId) -> bool {
        if id != FIRST {
            return true;
        }
        for _ in 0..MOST {
            let mark = self.answered.mark();
            if self.is_answered.load(Ordering::SeqCst) {
                return true;
            }
            self.turns.fetch_add(1, Ordering::SeqCst);
            self.answered
                .wait_past(&self.rt, mark, Duration::from_millis(1));
        }
        true
    }

    fn trailers_written(&self, id: StreamId) {
        if id == SECOND {
            self.is_answered.store(true, Ordering::SeqCst);
            self.answered.ring();
        }
    }

    fn writing_ended(&self, _stopped: &StoppedBook) {}
}

/// At one of its turns another thread drains the connection, and the turn waits for that.
#[derive(Drop)]
pub struct DrainGate<R: Wait + Drop> {
    rt: R,
    /// How many turns are before that one.
    at: u32,
    turns: AtomicU32,
    is_wanted: AtomicBool,
    is_drained: AtomicBool,
    /// Rung where a drain is wanted, and where it is done.
    bell: Bell,
}

impl<R: Wait + Drop> DrainGate<R> {
    pub fn new(rt: R, at: u32) -> DrainGate<R> {
        DrainGate {
            rt,
            at,
            turns: AtomicU32::new(0),
            is_wanted: AtomicBool::new(false),
            is_drained: AtomicBool::new(false),
            bell: Bell::new(),
        }
    }

    /// Whether that turn came.
    pub fn has_turned(&self) -> bool {
        self.turns.load(Ordering::SeqCst) > self.at
    }

    /// A drain is wanted.
    pub fn want(&self) {
        self.set(&self.is_wanted);
    }

    /// Waits until a drain is wanted.
    pub fn wait_for_wish(&self) {
        self.wait_for(&self.is_wanted);
    }

    /// The connection is drained.
    pub fn tell_drained(&self) {
        self.set(&self.is_drained);
    }

    fn wait_for(&self, is_set: &AtomicBool) {
        for _ in 0..MOST {
            let mark = self.bell.mark();
            if is_set.load(Ordering::SeqCst) {
                return;
            }
            self.bell
                .wait_past(&self.rt, mark, Duration::from_millis(1));
        }
    }

    fn set(&self, flag: &AtomicBool) {
        flag.store(true, Ordering::SeqCst);
        self.bell.ring();
    }
}

impl<R: Wait + Drop> Gate for DrainGate<R> {
    fn may_go(&self, _id: StreamId) -> bool {
        if self.turns.fetch_add(1, Ordering::SeqCst) == self.at {
            self.want();
            self.wait_for(&self.is_drained);
        }
        true
    }

    fn trailers_written(&self, _id: StreamId) {}

    fn writing_ended(&self, _stopped: &StoppedBook) {}
}
