//! One connection to a port: its descriptor, and how it is served.

ghost use Rattle.std.specs.Prelude.{◌≡◌, ◌<◌};

use crate::log::LoggedConn;
use crate::reporting::Report;
use crate::stopping::{Stop, stand_by};
use connbook::StoppedBook;
use connection::{
    CallAccount, ConnReport, Drainer, Ending, Gate, ServedConn, serve_connection, serve_undrained,
};
use device::StdDevice;
use h2frame::StreamId;
use handlers::Methods;
use recorder::Eye;
use std::alloc::{AllocError, Global};
use std::io::{ErrorKind, Read, Write};
use std::marker::Brand;
use std::net::{Shutdown, TcpStream};
use std::sync::atomic::{AtomicBool, AtomicU64, Ordering};
use std::sync::ledger::{Blank, Ledger};
use std::sync::{Arc, Wait};
use std::thread::Threads;
use std::time::{Clock, Duration, Instant};
use std::{io, thread};
use tap::TappedDevice;

/// How long a connection that was drained is read on at most, so that its client reads what was
/// written, in milliseconds.
const PARTING: u64 = 1_000;

/// How long such a connection is read on at most if its client's end can't be seen, in
/// milliseconds.
const PARTING_BLIND: u64 = 200;

/// How long it is between two reads then.
const STEP: u64 = 20;

/// A connection to a port. Its reader and its writer share one descriptor.
#[derive(Drop)]
pub struct Link {
    stream: TcpStream,
    /// Whether its reading side was shut here.
    is_shut: AtomicBool,
    /// Whether a write goes on, and how many there were.
    is_writing: AtomicBool,
    writes: AtomicU64,
}

impl Link {
    fn new(stream: TcpStream) -> Link {
        Link {
            stream,
            is_shut: AtomicBool::new(false),
            is_writing: AtomicBool::new(false),
            writes: AtomicU64::new(0),
        }
    }

    /// How many writes there were, if none goes on.
    pub fn writes(&self) -> Option<u64> {
        if self.is_writing.load(Ordering::SeqCst) {
            None
        } else {
            Some(self.writes.load(Ordering::SeqCst))
        }
    }

    /// Shuts it down. If its peer has ended it, that is refused, and nothing is left to do.
    fn shut(&self) {
        let _ = self.stream.shutdown(Shutdown::Both);
    }

    /// Its reader sees the end of the input. Its writer goes on.
    pub fn shut_reading(&self) {
        self.is_shut.store(true, Ordering::SeqCst);
        let _ = self.stream.shutdown(Shutdown::Read);
    }

    /// All was written to a connection that was drained: its client sees that.
    pub fn finish(&self) {
        // (once both sides were shut, what comes is answered by a reset)
        if !self.is_shut.load(Ordering::SeqCst) {
            let _ = self.stream.shutdown(Shutdown::Write);
        }
    }

    /// Reads a connection that was drained on for a moment. Otherwise a client that still sends
    /// would get a TCP reset, which drops what it hasn't read.
    // (kept out of its caller, whose frame is on the stack of each connection that lives)
    #[inline(never)]
    pub fn part(&self, rt: &impl Clock) {
        let is_shut = self.is_shut.load(Ordering::SeqCst);
        let most = if is_shut { PARTING_BLIND } else { PARTING };
        let step = Duration::from_millis(STEP);
        if self.stream.set_read_timeout(Some(step)).is_err() {
            return;
        }
        let Ok(start) = Instant::now(rt) else {
            return;
        };
        let mut piece = [0u8; 2_048];
        for _ in 0..u64::MAX {
            let is_over = match start.elapsed(rt) {
                Ok(elapsed) => elapsed >= Duration::from_millis(most),
                Err(_) => true,
            };
            if is_over {
                return;
            }
            let mut stream = &self.stream;
            match stream.read(&mut piece) {
                Ok(0) if is_shut => {
                    let _ = thread::sleep(rt, step);
                }
                Ok(0) => return,
                Ok(_) => {}
                Err(error) if is_silence(&error) => {}
                Err(_) => return,
            }
        }
    }
}

/// Whether nothing came in time.
fn is_silence(error: &io::Error) -> bool {
    matches!(
        error.kind(),
        ErrorKind::WouldBlock | ErrorKind::TimedOut | ErrorKind::Interrupted
    )
}

/// The gate of a connection to a port: each call goes on at once, and is reported on once it was
/// settled, if that is wanted.
#[derive(Drop)]
struct Door<R, P> {
    rt: R,
    alloc: Global,
    link: Arc<Link>,
    reporting: Option<P>,
}

impl<R: Drop, P: Report> Door<R, P> {
    /// The gate of this connection, with the place for reports on its calls.
    fn open(
        rt: R,
        alloc: Global,
        link: &Arc<Link>,
        reporting: &Option<P>,
    ) -> Result<Arc<Door<R, P>>, AllocError> {
        let reporting = match reporting {
            Some(reporting) => Some(reporting.try_clone()?),
            None => None,
        };
        let link = Arc::try_clone(link)?;
        let door = Door {
            rt,
            alloc,
            link,
            reporting,
        };
        Ok(Arc::new(alloc, door)?)
    }
}

impl<R: Wait + Clock, P: Report> Gate for Door<R, P> {
    fn may_go(&self, _id: StreamId) -> bool {
        true
    }

    fn trailers_written(&self, _id: StreamId) {}

    fn writing_ended(&self, _stopped: &StoppedBook) {
        self.link.shut();
    }

    fn settled(&self, account: &CallAccount) {
        if let Some(reporting) = &self.reporting {
            reporting.call(&self.rt, self.alloc, account);
        }
    }
}

/// Reads a connection, and shows what it read to the log, if there is one.
#[derive(Drop)]
struct LinkInput<R> {
    rt: R,
    link: Arc<Link>,
    logged: Option<LoggedConn>,
}

impl<R: Wait + Clock> Read for LinkInput<R> {
    fn read(&mut self, buf: &mut [u8]) -> io::Result<usize> {
        let mut stream = &self.link.stream;
        let count = stream.read(buf)?;
        if let Some(logged) = &self.logged {
            logged.read(&self.rt, buf.get(..count).unwrap_or(b"".as_slice()));
        }
        Ok(count)
    }
}

/// Writes a connection, and shows what it wrote to the log, if there is one.
#[derive(Drop)]
struct LinkOutput<R> {
    rt: R,
    link: Arc<Link>,
    logged: Option<LoggedConn>,
}

impl<R: Wait + Clock> Write for LinkOutput<R> {
    fn write(&mut self, buf: &[u8]) -> io::Result<usize> {
        let mut stream = &self.link.stream;
        self.link.is_writing.store(true, Ordering::SeqCst);
        let written = stream.write(buf);
        self.link.writes.fetch_add(1, Ordering::SeqCst);
        self.link.is_writing.store(false, Ordering::SeqCst);
        let count = written?;
        if let Some(logged) = &self.logged {
            logged.wrote(&self.rt, buf.get(..count).unwrap_or(b"".as_slice()));
        }
        Ok(count)
    }

    fn flush(&mut self) -> io::Result<()> {
        Ok(())
    }
}

/// What became of a connection.
#[derive(Drop)]
pub struct EndedConn {
    pub ending: Ending,
    /// How many calls were admitted.
    pub calls: usize,
}

impl EndedConn {
    fn of(report: &ConnReport) -> EndedConn {
        EndedConn {
            ending: report.ending,
            calls: report.calls.len(),
        }
    }
}

/// What a connection is served over.
#[derive(Drop)]
struct Ends<R: Wait + Clock + Eprint + Drop, P> {
    input: TappedDevice<StdDevice<LinkInput<R>>, Eye<R>>,
    output: TappedDevice<StdDevice<LinkOutput<R>>, Eye<R>>,
    gate: Arc<Door<R, P>>,
}

/// Serves a connection to its end. It shows the connection to the log and the witness, reports on
/// its calls, and drains it if the server stops. If it was drained, it also answers its link, which
/// is to finish and to part. It fails if nothing was read.
pub fn serve_stream<R, P>(
    rt: R,
    alloc: Global,
    stream: TcpStream,
    methods: &Arc<Methods>,
    logged: &Option<LoggedConn>,
    eye: Option<Eye<R>>,
    reporting: &Option<P>,
    stop: &Option<Arc<Stop>>,
) -> io::Result<(EndedConn, Option<Arc<Link>>)>
where
    P: Report + Send + Sync + Drop + 'static,
    R: Eprint + Threads + Wait + Clock + Copy + Send + Sync + Drop + 'static,
{
    // So that a small frame leaves at once.
    stream.set_nodelay(true)?;
    let methods = Arc::try_clone(methods)?;
    let ends = ends_of(rt, alloc, stream, logged, eye, reporting)?;
    if let Some(stop) = stop {
        let blanks = (Blank::new(1), Blank::new(1), Blank::new(1));
        return serve_until::<Brand, Brand, Brand, R, P>(rt, alloc, blanks, ends, methods, stop);
    }
    let Ends {
        mut input,
        output,
        gate,
    } = ends;
    let ServedConn { report, .. } = serve_undrained(rt, alloc, &mut input, output, methods, gate);
    Ok((EndedConn::of(&report), None))
}

/// Serves a connection over these ledgers, until the server stops.
fn serve_until<A, B, C, R, P>(
    rt: R,
    alloc: Global,
    blanks: (Blank, Blank, Blank),
    ends: Ends<R, P>,
    methods: Arc<Methods>,
    stop: &Arc<Stop>,
) -> io::Result<(EndedConn, Option<Arc<Link>>)>
where
    A: Ledger + Send + Sync + 'static,
    B: Ledger + Send + Sync + 'static,
    C: Ledger + Send + Sync + 'static,
    R: Eprint + Threads + Wait + Clock + Copy + Send + Sync + Drop + 'static,
    P: Report + Send + Sync + Drop + 'static,
    requires received { (blanks.0.name ≡ A.name) × (blanks.0.parts ≡ A.parts) × (0 < A.parts) }
    requires admitted { (blanks.1.name ≡ B.name) × (blanks.1.parts ≡ B.parts) × (0 < B.parts) }
    requires announced { (blanks.2.name ≡ C.name) × (blanks.2.parts ≡ C.parts) × (0 < C.parts) }
{
    let (drainer, handle) = Drainer::<A, B, C>::new(alloc, blanks)?;
    let link = Arc::try_clone(&ends.gate.link)?;
    let standby = stand_by(rt, alloc, stop, drainer, Arc::try_clone(&link)?)?;
    let Ends {
        mut input,
        output,
        gate,
    } = ends;
    let ServedConn { report, .. } = serve_connection(
        rt, alloc, &mut input, output, methods, gate, handle,
    );
    standby.end(&rt);
    let drained = if report.ending == Ending::Drained {
        Some(link)
    } else {
        None
    };
    Ok((EndedConn::of(&report), drained))
}

/// The reader of a connection, its writer, and its gate.
fn ends_of<R, P>(
    rt: R,
    alloc: Global,
    stream: TcpStream,
    logged: &Option<LoggedConn>,
    eye: Option<Eye<R>>,
    reporting: &Option<P>,
) -> Result<Ends<R, P>, AllocError>
where
    P: Report,
    R: Wait + Clock + Eprint + Copy + Drop,
{
    let link = Arc::new(alloc, Link::new(stream))?;
    let output = StdDevice::new(LinkOutput {
        rt,
        link: Arc::try_clone(&link)?,
        logged: again(logged)?,
    });
    let second = match &eye {
        Some(eye) => Some(eye.try_clone()?),
        None => None,
    };
    let gate = Door::open(rt, alloc, &link, reporting)?;
    let input = StdDevice::new(LinkInput {
        rt,
        link,
        logged: again(logged)?,
    });
    Ok(Ends {
        input: TappedDevice::new(input, eye),
        output: TappedDevice::new(output, second),
        gate,
    })
}

/// A second handle of this connection.
fn again(logged: &Option<LoggedConn>) -> Result<Option<LoggedConn>, AllocError> {
    match logged {
        Some(logged) => Ok(Some(logged.try_clone()?)),
        None => Ok(None),
    }
}
