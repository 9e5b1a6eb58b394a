//! The line that counts while a run goes on. It stands on standard error, and only where that is a
//! terminal.

use std::time::{Clock, Instant};

/// What begins a line anew: to its first column, and nothing right of it (ECMA-48, CR and EL).
const BLANK: &str = "\r\u{1b}[K";

/// How far a run is.
#[derive(Clone, Copy)]
pub struct Progress {
    /// The command's name.
    word: &'static str,
    /// Whether it is shown.
    is_shown: bool,
    total: usize,
    done: usize,
    /// How many cases count as failed, and how many fail the run.
    failed: usize,
    failing: usize,
    begun: Option<Instant>,
}

impl Progress {
    /// The progress of a run that begins now, by its number of cases.
    pub fn begin(clock: &impl Clock, word: &'static str, total: usize, is_shown: bool) -> Progress {
        Progress {
            word,
            is_shown,
            total,
            done: 0,
            failed: 0,
            failing: 0,
            begun: Instant::now(clock).ok(),
        }
    }

    /// One more case has ended.
    pub fn count(&mut self, has_failed: bool, fails_the_run: bool) {
        self.done = self.done.saturating_add(1);
        if has_failed {
            self.failed = self.failed.saturating_add(1);
        }
        if fails_the_run {
            self.failing = self.failing.saturating_add(1);
        }
    }

    /// Whether a case fails the run.
    pub fn is_failing(&self) -> bool {
        self.failing > 0
    }

    /// Takes the line away for good.
    pub fn end(&mut self, rt: &impl Eprint) {
        self.hide(rt);
        self.is_shown = false;
    }

    /// Takes the line away, so that another can be printed.
    pub fn hide(&self, rt: &impl Eprint) {
        if self.is_shown {
            // A run goes on where its progress can't be shown.
            let _shown = eprint!(rt; "{BLANK}");
        }
    }

    /// Shows the line as it is now.
    pub fn show<R: Eprint + Clock>(&self, rt: &R) {
        if !self.is_shown {
            return;
        }
        let Progress {
            word,
            done,
            failed,
            ..
        } = *self;
        let left = self.total.saturating_sub(done);
        let seconds = self.milliseconds(rt) / 1_000;
        let _shown = eprint!(rt;
            "{BLANK}{word}: {done} done, {failed} failed, {left} left, {seconds} s"
        );
    }

    /// How many milliseconds the run has gone on.
    pub fn milliseconds(&self, clock: &impl Clock) -> u64 {
        match self.begun {
            Some(begun) => milliseconds_since(clock, begun),
            None => 0,
        }
    }
}

fn milliseconds_since(clock: &impl Clock, begun: Instant) -> u64 {
    match begun.elapsed(clock) {
        Ok(passed) => u64::try_from(passed.as_millis()).unwrap_or(u64::MAX),
        Err(_) => 0,
    }
}
