//! When a connection began, by both clocks.

use capture::Time;
use std::fmt;
use std::time::{Clock, Instant, SystemTime, UNIX_EPOCH};

/// The microseconds of a second.
const SECOND: u64 = 1_000_000;

/// When a connection began.
#[derive(Clone, Copy, Drop)]
pub struct Start {
    /// Where no clock can be read, no time passes.
    instant: Option<Instant>,
    /// In microseconds since 1970.
    date: u64,
}

impl Start {
    /// Now.
    pub fn now(rt: &impl Clock) -> Start {
        Start {
            instant: Instant::now(rt).ok(),
            date: since_1970(rt).unwrap_or(0),
        }
    }

    /// How many microseconds have passed since.
    pub fn passed(&self, rt: &impl Clock) -> u64 {
        self.elapsed(rt).unwrap_or(0)
    }

    fn elapsed(&self, rt: &impl Clock) -> Option<u64> {
        let elapsed = self.instant?.elapsed(rt).ok()?;
        u64::try_from(elapsed.as_micros()).ok()
    }

    /// The time `passed` microseconds later, as captures have it.
    pub fn time(&self, passed: u64) -> Time {
        let date = self.date.saturating_add(passed);
        Time {
            seconds: u32::try_from(date / SECOND).unwrap_or(u32::MAX),
            micros: (date % SECOND) as u32,
        }
    }
}

fn since_1970(rt: &impl Clock) -> Option<u64> {
    let since = SystemTime::now(rt).ok()?.duration_since(UNIX_EPOCH).ok()?;
    u64::try_from(since.as_micros()).ok()
}

/// Microseconds, written in seconds with six digits after the point.
#[derive(Clone, Copy)]
pub struct Seconds(pub u64);

impl fmt::Display for Seconds {
    fn fmt<W: fmt::Write>(&self, f: &mut fmt::Formatter<W>) -> fmt::Result {
        let (whole, rest) = (self.0 / SECOND, self.0 % SECOND);
        write!(f, "{whole}.{rest:06}")
    }
}
