//! The log of a server: what happens on its connections, a line each, as it happens.
//!
//! A thread that reads or writes a connection shows the bytes to its `Watch`, and leaves the
//! resulting lines here; one thread of the log's own prints them. So printing delays no connection:
//! if too many lines wait, further ones are counted but not kept.

ghost use Rattle.std.specs.Prelude.{◌≡◌, ◌≤◌, ℕ, List, ◌++◌, IfSome, OnOk, OnErr, string_bytes};
ghost use Rattle.commands.specs.Lines.{IsTextOf, TellsFirst, lines_of};

use crate::served::{call_line, call_object, connection_line, connection_object};
use crate::stopping::Connection;
use crate::stream;
use crate::times::{Moment, Times};
use crate::waiting::{Batch, BatchContent, WaitingOutput, count_lines};
use connection::{CallAccount, Ending};
use connlog::{ConnEnding, Line, Observer};
use handlers::Methods;
use lane::Bell;
use std::alloc::{AllocError, Global};
use std::io::ErrorKind;
use std::sync::atomic::{AtomicBool, Ordering};
use std::sync::{Arc, Mutex, Wait};
use std::time::{Clock, Duration, Instant};
use std::{io, thread};
use words::LogForm;

/// How often the log looks for calls that wait, in milliseconds.
const TICK: u64 = 1_000;

/// How long it pauses once it has printed, in milliseconds: so a busy server's lines are printed
/// many at a time.
const PAUSE: u64 = 10;

/// The log of a server.
#[derive(Drop)]
pub struct Log {
    times: Times,
    /// The connections that go on.
    watches: Mutex<Vec<Arc<Watch>>>,
    waiting: Mutex<WaitingOutput>,
    /// Rung when lines were left, and when no more will come.
    bell: Bell,
    is_closed: AtomicBool,
}

/// What the log knows of a connection.
#[derive(Drop)]
pub struct Watch {
    connection: u64,
    observer: Mutex<Observer>,
}

/// A connection and the log of its server.
#[derive(Drop)]
pub struct LoggedConn {
    log: Arc<Log>,
    watch: Arc<Watch>,
}

impl Log {
    pub fn new(alloc: Global, times: Times) -> Log {
        Log {
            times,
            watches: Mutex::new(Vec::new(alloc)),
            waiting: Mutex::new(WaitingOutput::new(alloc)),
            bell: Bell::new(),
            is_closed: AtomicBool::new(false),
        }
    }

    /// Leaves the report on a call that was settled to be printed.
    pub fn report_call<R: Wait + Clock>(
        &self,
        rt: &R,
        alloc: Global,
        connection: Connection,
        methods: &Methods,
        call: &CallAccount,
    ) {
        let moment = self.times.now(rt);
        let line = match self.times.form {
            LogForm::Text => call_line(alloc, connection.peer, methods, call),
            LogForm::Json => self.call_object(alloc, moment, connection, methods, call),
        };
        self.leave_report(rt, connection, moment, line);
    }

    /// Leaves the report on a connection to be printed, after its lines.
    pub fn report_end<R: Wait + Clock>(
        &self,
        rt: &R,
        alloc: Global,
        connection: Connection,
        ended: &stream::EndedConn,
        file: &Option<String>,
    ) {
        let moment = self.times.now(rt);
        let line = match self.times.form {
            LogForm::Text => connection_line(alloc, connection.peer, ended, file),
            LogForm::Json => self.connection_object(alloc, moment, connection, ended, file),
        };
        self.leave_report(rt, connection, moment, line);
    }

    /// Leaves a line of a report to be printed. Without memory for it it counts as dropped.
    fn leave_report(
        &self,
        rt: &impl Wait,
        connection: Connection,
        moment: Moment,
        line: Result<String, AllocError>,
    ) {
        match line {
            Ok(text) => self.leave(
                rt,
                Batch {
                    connection: connection.number,
                    moment,
                    told: BatchContent::Report(text),
                },
            ),
            Err(AllocError) => self.lose(rt, 1),
        }
    }

    /// Prints lines as they come, until the log is closed. It fails if one can't be written. That
    /// no one reads them any more isn't a failure.
    pub fn print_all<R: Print + Wait + Clock>(&self, rt: &R, alloc: Global) -> io::Result<()> {
        let mut ticked = Instant::now(rt).ok();
        for _ in rt.forever() {
            let mark = self.bell.mark();
            let is_closed = self.is_closed.load(Ordering::SeqCst);
            let has_printed = self.print_waiting(rt, alloc)?;
            if is_closed {
                return Ok(());
            }
            if has_ticked(rt, ticked) {
                ticked = Instant::now(rt).ok();
                self.tick(rt);
            } else if has_printed {
                let _ = thread::sleep(rt, Duration::from_millis(PAUSE));
            } else {
                self.bell.wait_past(rt, mark, Duration::from_millis(TICK));
            }
        }
        unreachable!()
    }

    /// No more lines will come: what waits is printed, and then no more.
    pub fn close(&self) {
        self.is_closed.store(true, Ordering::SeqCst);
        self.bell.ring();
    }

    /// Prints what waits, and answers whether that was anything.
    fn print_waiting<R: Print + Wait + Clock>(&self, rt: &R, alloc: Global) -> io::Result<bool> {
        let Some((batches, dropped)) = self.next(rt, alloc) else {
            return Ok(false);
        };
        let (text, lost) = self.text_of(alloc, batches.as_slice());
        unless_closed(rt.write_all(text.as_bytes()))?;
        let lost = lost.saturating_add(dropped);
        if lost > 0 {
            unless_closed(self.print_dropped(rt, alloc, lost))?;
        }
        Ok(true)
    }

    /// The text of batches, and how many of their lines are left out. If there is no memory for
    /// some, those after them are left out too, so that their number comes in their place.
    fn text_of(&self, alloc: Global, batches: &[Batch]) -> (String, usize)
        requires { lines_of batches.now ≤ 16384 }
        ensures { TellsFirst batches.now (string_bytes result.0) result.1 }
    {
        let (mut text, mut lines) = (String::new(alloc), String::new(alloc));
        let mut rest = batches;
        'batches: while let Some((batch, behind)) = rest.split_first() {
            match self.add_text(alloc, &mut text, &mut lines, batch) {
                Ok(()) => rest = behind,
                Err(AllocError) => return (text, count_lines(rest)),
            }
        }
        (text, 0)
    }

    /// Adds the text of a batch. Lines of the log are written to `lines` first, whose memory is
    /// used again.
    fn add_text(
        &self,
        alloc: Global,
        text: &mut String,
        lines: &mut String,
        batch: &Batch,
    ) -> Result<(), AllocError>
        ensures added { OnOk result ((more : List ℕ) × IsTextOf batch.now.told more
            × (string_bytes text.new ≡ string_bytes text.old ++ more)) }
        ensures same { OnErr result (string_bytes text.new ≡ string_bytes text.old) }
    {
        match &batch.told {
            BatchContent::Report(line) => text.push_str(line.as_str()),
            BatchContent::Lines(told) => {
                lines.clear();
                self.write_lines(alloc, lines, batch, told.as_slice())?;
                text.push_str(lines.as_str())
            }
        }
    }

    /// Writes lines of the log, which a batch has.
    fn write_lines(
        &self,
        alloc: Global,
        text: &mut String,
        batch: &Batch,
        lines: &[Line],
    ) -> Result<(), AllocError> {
        let Batch {
            connection,
            moment,
            ..
        } = *batch;
        let time = self.times.text(alloc, moment)?;
        let time = time.as_ref().map(|time| time.as_str());
        for line in lines {
            match self.times.form {
                LogForm::Text => line.write_text(text, connection, time)?,
                LogForm::Json => {
                    line.write_json(alloc, text, connection, time.unwrap_or("null"))?
                }
            }
        }
        Ok(())
    }

    /// Prints the line that says how many were dropped, even without memory: then an object is
    /// without its time.
    fn print_dropped<R: Print + Clock>(
        &self,
        rt: &R,
        alloc: Global,
        count: usize,
    ) -> io::Result<()> {
        match self.times.form {
            LogForm::Text => println!(rt; "dropped {count}"),
            LogForm::Json => {
                let time = self.times.text(alloc, self.times.now(rt)).unwrap_or(None);
                let time = time.as_ref().map_or("null", |time| time.as_str());
                println!(rt; "{{\"time\":{time},\"event\":\"dropped\",\"lines\":{count}}}")
            }
        }
    }

    /// The report on a call, as an object.
    fn call_object(
        &self,
        alloc: Global,
        moment: Moment,
        connection: Connection,
        methods: &Methods,
        call: &CallAccount,
    ) -> Result<String, AllocError> {
        let time = self.times.text(alloc, moment)?;
        let time = time.as_ref().map_or("null", |time| time.as_str());
        call_object(alloc, time, connection.number, methods, call)
    }

    /// The report on a connection, as an object.
    fn connection_object(
        &self,
        alloc: Global,
        moment: Moment,
        connection: Connection,
        ended: &stream::EndedConn,
        file: &Option<String>,
    ) -> Result<String, AllocError> {
        let time = self.times.text(alloc, moment)?;
        let time = time.as_ref().map_or("null", |time| time.as_str());
        connection_object(alloc, time, connection, ended, file)
    }

    /// Counts lines that are lost.
    fn lose(&self, rt: &impl Wait, lines: usize) {
        self.waiting.lock(rt).lose(lines);
        self.bell.ring();
    }

    /// Takes what waits, and how many lines were dropped after it, unless there is neither.
    fn next(&self, rt: &impl Wait, alloc: Global) -> Option<(Vec<Batch>, usize)>
        ensures { IfSome result (λ it. lines_of it.0.items ≤ 16384) }
    {
        let mut waiting = self.waiting.lock(rt);
        waiting.take(alloc)
    }

    /// Leaves lines to be printed.
    fn leave(&self, rt: &impl Wait, batch: Batch) {
        {
            let mut waiting = self.waiting.lock(rt);
            waiting.put(batch);
        }
        self.bell.ring();
    }

    /// A second has gone by.
    fn tick(&self, rt: &(impl Wait + Clock)) {
        let moment = self.times.now(rt);
        let watches = self.watches.lock(rt);
        for watch in watches.iter() {
            let lines = {
                let mut observer = watch.observer.lock(rt);
                observer.tick();
                lines_of(&mut observer)
            };
            if let Some(lines) = lines {
                self.leave(rt, Batch::of_lines(watch.connection, moment, lines));
            }
        }
    }

    /// Forgets a connection.
    fn forget(&self, rt: &impl Wait, connection: u64) {
        let mut watches = self.watches.lock(rt);
        let place = watches
            .iter()
            .position(|watch| watch.connection == connection);
        if let Some(place) = place {
            if place < watches.len() {
                let _watch = watches.swap_remove(place);
            }
        }
    }
}

/// The result, but that no one reads what is printed any more isn't a failure.
fn unless_closed(printed: io::Result<()>) -> io::Result<()> {
    match printed {
        Err(error) if error.kind() == ErrorKind::BrokenPipe => Ok(()),
        _ => printed,
    }
}

/// Whether it is time to look for calls that wait. If no clock can be read, it never is.
fn has_ticked(rt: &impl Clock, before: Option<Instant>) -> bool {
    match before {
        Some(before) => match before.elapsed(rt) {
            Ok(elapsed) => elapsed >= Duration::from_millis(TICK),
            Err(_) => false,
        },
        None => false,
    }
}

/// The lines that an observer has, if it has any.
fn lines_of(observer: &mut Observer) -> Option<Vec<Line>> {
    if observer.has_lines() {
        Some(observer.take_lines())
    } else {
        None
    }
}

impl LoggedConn {
    /// A connection begins.
    // (kept out of its caller, whose frame is on the stack of each connection that lives)
    #[inline(never)]
    pub fn begin(
        rt: &(impl Wait + Clock),
        alloc: Global,
        log: &Arc<Log>,
        connection: Connection,
    ) -> Result<LoggedConn, AllocError> {
        let Connection { number, peer } = connection;
        let mut observer = Observer::new(alloc);
        observer.begun(format!(in alloc; "{peer}")?);
        let watch = Arc::new(
            alloc,
            Watch {
                connection: number,
                observer: Mutex::new(observer),
            },
        )?;
        let logged = LoggedConn {
            log: Arc::try_clone(log)?,
            watch,
        };
        {
            let mut watches = log.watches.lock(rt);
            watches.push(Arc::try_clone(&logged.watch)?)?;
        }
        logged.read(rt, b"");
        Ok(logged)
    }

    /// A second handle of this connection.
    pub fn try_clone(&self) -> Result<LoggedConn, AllocError> {
        Ok(LoggedConn {
            log: Arc::try_clone(&self.log)?,
            watch: Arc::try_clone(&self.watch)?,
        })
    }

    /// These bytes were read of the connection.
    pub fn read(&self, rt: &(impl Wait + Clock), bytes: &[u8]) {
        let lines = {
            let mut observer = self.watch.observer.lock(rt);
            observer.read(bytes);
            lines_of(&mut observer)
        };
        self.leave(rt, lines);
    }

    /// These bytes were written to the connection.
    pub fn wrote(&self, rt: &(impl Wait + Clock), bytes: &[u8]) {
        let lines = {
            let mut observer = self.watch.observer.lock(rt);
            observer.wrote(bytes);
            lines_of(&mut observer)
        };
        self.leave(rt, lines);
    }

    /// The connection has ended.
    // (kept out of its caller, as `begin` is)
    #[inline(never)]
    pub fn end(&self, rt: &(impl Wait + Clock), how: ConnEnding) {
        self.log.forget(rt, self.watch.connection);
        let lines = {
            let mut observer = self.watch.observer.lock(rt);
            observer.ended(how);
            lines_of(&mut observer)
        };
        self.leave(rt, lines);
    }

    fn leave(&self, rt: &(impl Wait + Clock), lines: Option<Vec<Line>>) {
        if let Some(lines) = lines {
            let moment = self.log.times.now(rt);
            let batch = Batch::of_lines(self.watch.connection, moment, lines);
            self.log.leave(rt, batch);
        }
    }
}

/// How a connection ended, as the log says it.
pub fn ended_of(ending: Ending) -> ConnEnding {
    match ending {
        Ending::InputEnded => ConnEnding::Input,
        Ending::PeerGoaway => ConnEnding::PeerGoaway,
        Ending::ProtocolError(_) => ConnEnding::ProtocolError,
        Ending::ReadFailed => ConnEnding::ReadFailed,
        Ending::WriteFailed => ConnEnding::WriteFailed,
        Ending::OutOfMemory => ConnEnding::OutOfMemory,
        Ending::Drained => ConnEnding::Drained,
    }
}
