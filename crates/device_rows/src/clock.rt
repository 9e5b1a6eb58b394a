//! Clocks of a run.

use std::io;
use std::sync::Wait;
use std::thread::Threads;
use std::time::{Clock, Duration};

/// How a clock goes.
#[derive(Clone, Copy)]
pub enum Pace {
    /// As that of the system.
    Steady,
    Still,
    /// A second in each nanosecond.
    Leaping,
    /// It can't be read.
    Silent,
}

/// A runtime whose monotonic clock goes at a pace.
#[derive(Clone, Copy)]
pub struct TimedRuntime<R> {
    pub rt: R,
    pub pace: Pace,
}

impl<R: Wait> Wait for TimedRuntime<R> {}

impl<R: Threads> Threads for TimedRuntime<R> {}

impl<R: Clock> Clock for TimedRuntime<R> {
    fn monotonic(&self) -> io::Result<Duration> {
        let time = self.rt.monotonic()?;
        match self.pace {
            Pace::Steady => Ok(time),
            Pace::Still => Ok(Duration::ZERO),
            Pace::Leaping => Ok(Duration::from_secs(u64::try_from(time.as_nanos()).unwrap_or(
                u64::MAX,
            ))),
            Pace::Silent => Err(io::ErrorKind::Other.into()),
        }
    }

    fn since_1970(&self) -> io::Result<Duration> {
        self.rt.since_1970()
    }

    fn sleep(&self, duration: Duration) {
        self.rt.sleep(duration);
    }
}
