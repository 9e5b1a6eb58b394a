//! How many connections are served at a time, if the system lacks threads or memory for all that
//! come.
//!
//! Threads that wait for further connections are given up then. After each second in which nothing
//! was lacking it tries one more connection.

ghost use Rattle.std.specs.Prelude.{◌≡◌, ◌≤◌, ◌<◌, ◌+◌, ◌-◌, ◌^◌, true, false, None, Some, IfSome};

use std::sync::{Mutex, Wait};
use std::time::{Clock, Duration, Instant};

/// How many threads take further connections once theirs have ended: the first that were started. A
/// client that makes a connection for each call needs two. Each has a heap, which keeps what its
/// largest connection took.
const STAYING: usize = 4;

/// From how many connections at a time on, as more and more are tried, there is no limit any more.
const MANY: usize = 1_024;

/// How long nothing must have been lacking before one more is tried, in milliseconds.
const STEP: u64 = 1_000;

/// The connections of a port.
#[derive(Drop)]
pub struct Room {
    crowd: Mutex<Crowd>,
}

#[derive(Drop)]
struct Crowd {
    /// How many connections live.
    live: usize,
    /// How many may, where there isn't room for any number.
    most: Option<usize>,
    /// When that was changed last.
    changed: Option<Instant>,
    /// How many threads stay once their first connection has ended.
    staying: usize,
}

impl Room {
    pub fn new() -> Room {
        Room {
            crowd: Mutex::new(Crowd {
                live: 0,
                most: None,
                changed: None,
                staying: 0,
            }),
        }
    }

    /// Whether there is room for one more connection.
    pub fn has_place(&self, rt: &(impl Wait + Clock)) -> bool {
        let mut crowd = self.crowd.lock(rt);
        if crowd.is_due(rt) {
            crowd.grow();
            crowd.changed = Instant::now(rt).ok();
        }
        crowd.has_place()
    }

    /// A connection begins.
    pub fn enter(&self, rt: &impl Wait) {
        self.crowd.lock(rt).enter();
    }

    /// A connection has ended, for want of threads or memory or not.
    pub fn leave(&self, rt: &(impl Wait + Clock), lacks: bool) {
        let mut crowd = self.crowd.lock(rt);
        if lacks {
            crowd.shrink();
            crowd.changed = Instant::now(rt).ok();
        }
        crowd.leave();
    }

    /// Whether a thread whose connection has ended stays, to take further ones.
    pub fn stay(&self, rt: &impl Wait) -> bool {
        self.crowd.lock(rt).stay()
    }

    /// Whether a thread that stayed is given up, since there are too few.
    pub fn gives_up(&self, rt: &impl Wait) -> bool {
        self.crowd.lock(rt).gives_up()
    }
}

impl Crowd {
    /// Whether nothing was lacking for long enough to try one more connection.
    fn is_due(&self, rt: &impl Clock) -> bool {
        if self.most.is_none() {
            return false;
        }
        match self.changed {
            Some(changed) => match changed.elapsed(rt) {
                Ok(elapsed) => elapsed >= Duration::from_millis(STEP),
                Err(_) => true,
            },
            None => true,
        }
    }

    fn has_place(&self) -> bool
        ensures any { self.now.most ≡ None → result ≡ true }
        ensures most { IfSome self.now.most (λ most. result ≡ true → self.now.live < most) }
    {
        match self.most {
            Some(most) => self.live < most,
            None => true,
        }
    }

    fn enter(&mut self)
        ensures counted { self.old.live < 2 ^ 64 - 1 → self.new.live ≡ self.old.live + 1 }
        ensures same { self.new.most ≡ self.old.most }
    {
        self.live = self.live.saturating_add(1);
    }

    fn leave(&mut self)
        ensures counted { 0 < self.old.live → self.new.live + 1 ≡ self.old.live }
        ensures same { self.new.most ≡ self.old.most }
    {
        self.live = self.live.saturating_sub(1);
    }

    /// Threads or memory were lacking for one of those that live: fewer may, but always one.
    fn shrink(&mut self)
        ensures fewer { IfSome self.new.most (λ most. (1 ≤ most)
            × (1 < self.old.live → most < self.old.live)) }
        ensures same { self.new.live ≡ self.old.live }
    {
        let fewer = self.live.saturating_sub(1);
        let most = match self.most {
            Some(most) => most.min(fewer),
            None => fewer,
        };
        self.most = Some(most.max(1));
    }

    /// One more may live, and any number once many may.
    fn grow(&mut self)
        ensures more { IfSome self.old.most (λ most. IfSome self.new.most (λ more.
            more ≡ most + 1)) }
        ensures same { self.new.live ≡ self.old.live }
    {
        self.most = match self.most {
            Some(most) if most < MANY => Some(most + 1),
            _ => None,
        };
    }

    /// Whether this thread stays: a number of threads does, as long as none is lacking.
    fn stay(&mut self) -> bool
        ensures one { result ≡ true → self.new.staying ≡ self.old.staying + 1 }
        ensures few { result ≡ true → self.new.staying ≤ 4 }
        ensures enough { result ≡ true → self.old.most ≡ None }
        ensures none { result ≡ false → self.new ≡ self.old }
    {
        if self.most.is_some() || self.staying >= STAYING {
            return false;
        }
        self.staying += 1;
        true
    }

    fn gives_up(&mut self) -> bool
        ensures enough { self.old.most ≡ None → result ≡ false }
        ensures none { result ≡ false → self.new ≡ self.old }
    {
        if self.most.is_none() {
            return false;
        }
        self.staying = self.staying.saturating_sub(1);
        true
    }
}
