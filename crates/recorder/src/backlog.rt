//! The lines that wait for standard error, which nobody may read.

ghost use Rattle.std.specs.Prelude.{
  ◌≡◌,
  ◌≤◌,
  ◌+◌,
  ◌^◌,
  ◌<◌,
  ◌++◌,
  ◌⊎◌,
  IfSome,
  OnOk,
  OnErr,
  string_bytes,
};

use lane::Bell;
use std::alloc::{AllocError, Global};
use std::sync::atomic::{AtomicBool, Ordering};
use std::sync::{Arc, Mutex, Wait};
use std::thread::Threads;
use std::time::Duration;
use std::{io, mem, thread};

/// How many bytes of lines wait at most.
const MOST_BYTES: usize = 64 << 20;

/// How long is waited for a ring before it is looked again, in seconds.
const LOOK: u64 = 60;

/// The lines that wait for standard error. A thread of their own prints them, so a reader that
/// pauses holds up no connection.
#[derive(Drop)]
pub struct Backlog {
    waiting: Mutex<WaitingLines>,
    /// Rung when lines were left, when no more will come, and when the thread is over.
    bell: Bell,
    is_closed: AtomicBool,
    is_over: AtomicBool,
    /// Whether a line couldn't be printed.
    has_failed: AtomicBool,
}

/// What is to be printed.
#[derive(Drop)]
struct WaitingLines {
    /// Whole lines.
    text: String,
    /// How many lines were dropped after them.
    dropped: usize,
}

impl Backlog {
    /// Nothing waits yet. A thread prints what comes, until the backlog is finished or a line can't
    /// be printed.
    pub fn begin<R>(rt: &R, alloc: Global) -> io::Result<Arc<Backlog>>
    where
        R: Threads + Wait + Eprint + Copy + Send + Sync + Drop + 'static,
    {
        let backlog = Arc::new(
            alloc,
            Backlog {
                waiting: Mutex::new(WaitingLines {
                    text: String::new(alloc),
                    dropped: 0,
                }),
                bell: Bell::new(),
                is_closed: AtomicBool::new(false),
                is_over: AtomicBool::new(false),
                has_failed: AtomicBool::new(false),
            },
        )?;
        let (shared, rt) = (Arc::try_clone(&backlog)?, *rt);
        let _printing = thread::spawn(&rt, move || shared.print_all(&rt, alloc))?;
        Ok(backlog)
    }

    /// Leaves whole lines to be printed. If too many wait, or there is no memory for them, they are
    /// counted.
    pub fn leave(&self, rt: &impl Wait, lines: &str) {
        if self.has_failed() {
            return;
        }
        self.waiting.lock(rt).put(lines);
        self.bell.ring();
    }

    /// Whether a line couldn't be printed.
    pub fn has_failed(&self) -> bool {
        self.has_failed.load(Ordering::SeqCst)
    }

    /// No more lines come. It returns once those that wait are printed, however long nobody reads
    /// them.
    pub fn finish(&self, rt: &impl Wait) {
        self.is_closed.store(true, Ordering::SeqCst);
        self.bell.ring();
        for _ in rt.forever() {
            let mark = self.bell.mark();
            if self.is_over.load(Ordering::SeqCst) {
                return;
            }
            self.bell.wait_past(rt, mark, Duration::from_secs(LOOK));
        }
        unreachable!()
    }

    /// Prints lines as they come.
    fn print_all<R: Wait + Eprint>(&self, rt: &R, alloc: Global) {
        if let Err(error) = self.print_until_closed(rt, alloc) {
            self.has_failed.store(true, Ordering::SeqCst);
            // If this can't be written either, the exit status reports it.
            let _said = eprintln!(rt; "interop: the trace can't be written: {error}");
        }
        self.is_over.store(true, Ordering::SeqCst);
        self.bell.ring();
    }

    fn print_until_closed<R: Wait + Eprint>(&self, rt: &R, alloc: Global) -> io::Result<()> {
        for _ in rt.forever() {
            let mark = self.bell.mark();
            let is_closed = self.is_closed.load(Ordering::SeqCst);
            let taken = self.waiting.lock(rt).take(alloc);
            match taken {
                Some(lines) => print_lines(rt, &lines)?,
                None if is_closed => return Ok(()),
                None => self.bell.wait_past(rt, mark, Duration::from_secs(LOOK)),
            }
        }
        unreachable!()
    }
}

/// Prints lines, and then how many were dropped.
fn print_lines(rt: &impl Eprint, lines: &WaitingLines) -> io::Result<()> {
    let text = lines.text.as_str();
    eprint!(rt; "{text}")?;
    let dropped = lines.dropped;
    if dropped > 0 {
        eprintln!(rt;
            "interop: {dropped} lines of the trace are left out, which nobody read in time"
        )?;
    }
    Ok(())
}

impl WaitingLines {
    /// Adds whole lines, or counts them.
    fn put(&mut self, lines: &str)
        // They are after those that wait, or none of them is.
        ensures whole { ((string_bytes self.new.text ≡ string_bytes self.old.text ++ lines.now)
            × (self.new.dropped ≡ self.old.dropped))
            ⊎ (string_bytes self.new.text ≡ string_bytes self.old.text) }
    {
        if self.add(lines).is_err() {
            let count = lines.lines().count();
            self.dropped = self.dropped.saturating_add(count);
        }
    }

    /// Adds whole lines, if there is room for them. After lines that were dropped there is none.
    fn add(&mut self, lines: &str) -> Result<(), AllocError>
        ensures added { OnOk result
            (string_bytes self.new.text ≡ string_bytes self.old.text ++ lines.now) }
        ensures unchanged { OnErr result
            (string_bytes self.new.text ≡ string_bytes self.old.text) }
        ensures dropped { self.new.dropped ≡ self.old.dropped }
    {
        if self.dropped > 0 || lines.len() > MOST_BYTES.saturating_sub(self.text.len()) {
            return Err(AllocError);
        }
        self.text.push_str(lines)
    }

    /// Takes all that waits, unless that is nothing.
    fn take(&mut self, alloc: Global) -> Option<WaitingLines>
        ensures taken { IfSome result (λ lines. lines ≡ self.old) }
    {
        if self.text.is_empty() && self.dropped == 0 {
            return None;
        }
        Some(mem::replace(
            self,
            WaitingLines {
                text: String::new(alloc),
                dropped: 0,
            },
        ))
    }
}
