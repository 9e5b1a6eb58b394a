//! The runs that standard input asks for.

use crate::clock::Pace;
use crate::devices::{Limits, Sink, Source};
use anyhow::{Context, Result, bail};
use std::alloc::Global;

/// How many bytes a run has room for that are written.
const ROOM: usize = 65_536;

/// The gate of a run's calls.
#[derive(Clone, Copy)]
pub enum Hold {
    /// All calls may go.
    Open,
    /// The first is refused until the second was answered.
    Refusing,
    /// The first one's worker is kept until the second was answered.
    Keeping,
    /// All may go. The connection is drained at a turn of the gate, in one run at each.
    Draining,
}

/// A run: what is read and written, how the clock goes, after how many reads the connection is
/// drained, if it is, and its gate.
#[derive(Drop)]
pub struct Plan {
    pub source: Source,
    pub sink: Sink,
    pub pace: Pace,
    pub drain: Option<u64>,
    pub hold: Hold,
}

impl Plan {
    /// Reads a line: hexadecimal digits, and then words, each of which may be missing:
    ///
    /// - `read-good=K`, `write-good=K`: K reads or writes go well, and each after them fails;
    /// - `read-most=N`, `write-most=N`: one moves at most N bytes;
    /// - `cut=N`: no read goes across the N-th byte;
    /// - `clock=still`, `clock=leaping`, `clock=silent`;
    /// - `drain=N`: the connection is drained behind so many reads, at 0 before it begins;
    /// - `gate=refusing`, `gate=keeping`, `gate=draining`.
    pub fn read(alloc: Global, line: &str) -> Result<Plan> {
        let (digits, words) = line.split_once(' ').context("no blank")?;
        let unlimited = Limits {
            good: u64::MAX,
            most: usize::MAX,
        };
        let mut plan = Plan {
            source: Source {
                bytes: hex::decode(alloc, digits)?,
                at: 0,
                cut: 0,
                limits: unlimited,
                has_failed: false,
            },
            sink: Sink {
                bytes: Vec::with_capacity(alloc, ROOM)?,
                limits: unlimited,
                has_failed: false,
            },
            pace: Pace::Steady,
            drain: None,
            hold: Hold::Open,
        };
        for word in words.split_whitespace() {
            plan.add(word)?;
        }
        Ok(plan)
    }

    fn add(&mut self, word: &str) -> Result<()> {
        let (name, value) = word.split_once('=').context("no value")?;
        match name {
            "read-good" => self.source.limits.good = value.parse::<u64>()?,
            "read-most" => self.source.limits.most = value.parse::<usize>()?,
            "write-good" => self.sink.limits.good = value.parse::<u64>()?,
            "write-most" => self.sink.limits.most = value.parse::<usize>()?,
            "cut" => self.source.cut = value.parse::<usize>()?,
            "clock" => self.pace = pace_of(value)?,
            "drain" => self.drain = Some(value.parse::<u64>()?),
            "gate" => self.hold = hold_of(value)?,
            _ => bail!("an unknown word"),
        }
        Ok(())
    }
}

fn pace_of(value: &str) -> Result<Pace> {
    match value {
        "still" => Ok(Pace::Still),
        "leaping" => Ok(Pace::Leaping),
        "silent" => Ok(Pace::Silent),
        _ => bail!("an unknown clock"),
    }
}

fn hold_of(value: &str) -> Result<Hold> {
    match value {
        "refusing" => Ok(Hold::Refusing),
        "keeping" => Ok(Hold::Keeping),
        "draining" => Ok(Hold::Draining),
        _ => bail!("an unknown gate"),
    }
}
