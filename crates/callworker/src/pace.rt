//! How long a call waits, and when the writer is rung for it.

use callrun::Turn;
use std::time::Duration;

/// How many seconds a worker sleeps at most before it looks again, if all that it waits for rings
/// its bell.
pub(crate) const IDLE: u64 = 3600;

/// How many milliseconds a worker waits at most before it looks again, if it waits for the writer
/// to get what was given.
pub(crate) const STEP: u64 = 1;

/// After how many turns of a call the writer is rung. A short call is over by then, and rings once.
const FEW_TURNS: u32 = 4;

/// How many times the gate may hold a call back.
const REFUSALS: u32 = 10_000;

/// How long a call waits, and when the writer is rung for it.
#[derive(Drop)]
pub(crate) struct Pace {
    /// How many turns it has gone on since it last had nothing to do.
    turns: u32,
    /// Whether the writer was rung for all that the call did.
    is_told: bool,
    /// How many bytes came on the call, up to the greatest `u64`.
    bytes: u64,
    /// How many more times the gate may hold it back.
    refusals: u32,
}

impl Pace {
    pub(crate) fn new() -> Pace {
        Pace {
            turns: 0,
            is_told: true,
            bytes: 0,
            refusals: REFUSALS,
        }
    }

    /// Counts bytes that came.
    pub(crate) fn came(&mut self, bytes: u32) {
        self.bytes = self.bytes.saturating_add(u64::from(bytes));
    }

    /// How many bytes came in all, up to the greatest `u64`.
    pub(crate) fn bytes(&self) -> u64 {
        self.bytes
    }

    /// How many more times the gate may hold the call back.
    pub(crate) fn refusals(&self) -> u32 {
        self.refusals
    }

    /// The gate held the call back.
    pub(crate) fn refused(&mut self) {
        self.refusals = self.refusals.saturating_sub(1);
    }

    /// Whether the writer was rung for all that the call did.
    pub(crate) fn is_told(&self) -> bool {
        self.is_told
    }

    /// A turn did something. Answers whether the writer is to be rung for it at once.
    pub(crate) fn went(&mut self) -> bool {
        self.turns = self.turns.saturating_add(1);
        self.is_told = self.turns > FEW_TURNS;
        self.is_told
    }

    /// The call has waited after such a turn.
    pub(crate) fn waited(&mut self, turn: Turn) {
        self.is_told = true;
        if turn != Turn::Full {
            self.turns = 0;
        }
    }
}

/// How long a call with this much time left sleeps at most: not past its deadline.
pub(crate) fn limit(time_left: Option<u128>) -> Duration {
    let left = u64::try_from(time_left.unwrap_or(u128::MAX)).unwrap_or(u64::MAX);
    Duration::from_secs(IDLE).min(Duration::from_nanos(left))
}
