//! The lines of a log that wait to be printed.

ghost use Rattle.std.specs.Prelude.{◌≡◌, ◌≤◌, ◌⊎◌, [], IfSome, IfNone, OnOk, OnErr};
ghost use Rattle.commands.specs.Lines.{count_of, lines_of};

use crate::times::Moment;
use connlog::Line;
use std::alloc::{AllocError, Global};
use std::mem;

/// How many lines wait at most.
const MOST_LINES: usize = 16_384;

/// Lines of a connection, and when they came.
#[derive(Drop)]
pub struct Batch {
    pub connection: u64,
    pub moment: Moment,
    pub told: BatchContent,
}

/// What they are.
#[derive(Drop)]
pub enum BatchContent {
    Lines(Vec<Line>),
    /// One of the report, as it is printed.
    Report(String),
}

impl Batch {
    pub fn of_lines(connection: u64, moment: Moment, lines: Vec<Line>) -> Batch {
        Batch {
            connection,
            moment,
            told: BatchContent::Lines(lines),
        }
    }

    /// How many lines it has.
    pub fn lines(&self) -> usize
        ensures { result ≡ count_of self.now.told }
    {
        match &self.told {
            BatchContent::Lines(lines) => lines.len(),
            BatchContent::Report(_) => 1,
        }
    }
}

/// How many lines batches have.
pub fn count_lines(batches: &[Batch]) -> usize
    requires { lines_of batches.now ≤ 16384 }
    ensures { result ≡ lines_of batches.now }
{
    let mut count = 0;
    for batch in batches {
        count += batch.lines();
    }
    count
}

/// What is to be printed.
#[derive(Drop)]
pub struct WaitingOutput {
    batches: Vec<Batch>,
    /// How many lines they have.
    lines: usize,
    /// How many lines were dropped after them.
    dropped: usize,
    ghost counted: { lines ≡ lines_of batches.items },
    ghost few: { lines ≤ 16384 },
}

impl WaitingOutput {
    ghost use Rattle.commands.specs.Waiting.{Drops, Keeps};

    pub fn new(alloc: Global) -> WaitingOutput
        ensures { (result.batches.items ≡ []) × (result.dropped ≡ 0) }
    {
        WaitingOutput {
            batches: Vec::new(alloc),
            lines: 0,
            dropped: 0,
        }
    }

    /// Adds lines, or counts them as dropped.
    pub fn put(&mut self, batch: Batch)
        ensures { Keeps batch self.old self.new ⊎ Drops (count_of batch.told) self.old self.new }
    {
        let count = batch.lines();
        if self.add(batch).is_err() {
            self.lose(count);
        }
    }

    /// Counts lines as dropped.
    pub fn lose(&mut self, count: usize)
        ensures { Drops count self.old self.new }
    {
        self.dropped = self.dropped.saturating_add(count);
    }

    /// Adds lines, if there is room for them. After lines that were dropped there is none.
    fn add(&mut self, batch: Batch) -> Result<(), AllocError>
        ensures kept { OnOk result (Keeps batch self.old self.new) }
        ensures same { OnErr result ((self.new.batches.items ≡ self.old.batches.items)
            × (self.new.dropped ≡ self.old.dropped)) }
    {
        let lines = self.lines.saturating_add(batch.lines());
        if self.dropped > 0 || lines > MOST_LINES {
            return Err(AllocError);
        }
        self.batches.push(batch)?;
        self.lines = lines;
        Ok(())
    }

    /// Takes all lines, and how many were dropped after them. None if there is neither.
    pub fn take(&mut self, alloc: Global) -> Option<(Vec<Batch>, usize)>
        ensures taken { IfSome result (λ it. (it.0.items ≡ self.old.batches.items)
            × (it.1 ≡ self.old.dropped)) }
        ensures few { IfSome result (λ it. lines_of it.0.items ≤ 16384) }
        ensures empty { IfSome result (λ _. self.new.batches.items ≡ []) }
        ensures none { IfNone result ((lines_of self.old.batches.items ≡ 0)
            × (self.old.dropped ≡ 0)) }
        ensures told { self.new.dropped ≡ 0 }
    {
        if self.lines == 0 && self.dropped == 0 {
            return None;
        }
        let batches = mem::replace(&mut self.batches, Vec::new(alloc));
        let dropped = mem::replace(&mut self.dropped, 0);
        self.lines = 0;
        Some((batches, dropped))
    }
}
