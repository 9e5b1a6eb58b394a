//! The command `drain`: a server is drained while a client has a call, in one process (RFC 9113,
//! section 6.8).
//!
//! The caller's thread is the client. Once it has read the first reply it stops the server, and
//! goes on after that. One thread drains the server's connection. Another takes that connection and
//! reads it; others write it and answer its call.

ghost use Rattle.std.specs.Prelude.{◌≡◌, ◌++◌, ℕ, List, Result, is_ok, IfOk, OnOk};
ghost use Rattle.std.specs.Io.KnownBytes.{Appends};
ghost use Rattle.cases.specs.declared.fault.CaseFault.{CaseFault as Fault};
ghost use Rattle.commands.specs.Drain.{drain_report, goaway_line, goaway_lines};
ghost use Rattle.commands.specs.Summing.{summed_drain};
ghost use Rattle.commands.specs.declared.drain.Goaway.{Goaway as GoawayOf};
ghost use Rattle.results.specs.declared.outcome.Outcome.{Outcome};
ghost use Rattle.trials.specs.Verdicts.{verdict_of};

use crate::frames::PassingFrames;
use crate::port::{Service, serve_apart};
use crate::stopping::Stop;
use crate::witness::Witnesses;
use cases::{CaseFault, Failure, Limit, ReportFault, TimedConn, Windows, print_line};
use device::{ConnWrite, write_all};
use h2frame::{Frame, FrameKind, StreamId};
use handlers::Methods;
use results::Suite;
use std::alloc::{AllocError, Global};
use std::fs::File;
use std::io;
use std::io::{Read, Write};
use std::net::{Net, TcpListener, TcpStream};
use std::rt::Files;
use std::sync::{Arc, Wait};
use std::thread::Threads;
use std::time::{Clock, Duration, Instant};
use trials::{PATIENCE, outcome_by, passed_since, print_summary, set_ticks};
use words::LOOPBACK;

/// What the client runs: one call, of four messages, each with its reply.
const CASE: &str = "ping_pong";

/// How many seconds the server waits for the connection that it drains.
const SECONDS: u16 = 10;

/// The stream of its call.
const CALL: StreamId = 1;

/// What a GOAWAY says.
#[derive(Clone, Copy, Debug, PartialEq, Eq)]
pub struct Goaway {
    pub last: StreamId,
    pub code: u32,
}

/// The client's connection. It looks at what is read: it keeps GOAWAYs, and the first reply stops
/// the server.
#[derive(Drop)]
struct WatchedClient<R> {
    rt: R,
    stream: TcpStream,
    stop: Arc<Stop>,
    frames: PassingFrames,
    goaways: Vec<Goaway>,
    has_stopped: bool,
}

/// Listens on a port, serves one connection to it, runs a case over that, and drains it after the
/// first reply. It prints the GOAWAYs that the client read, the case's line, and one that sums up,
/// and answers whether the case passed.
pub fn run_drain<R, W>(
    rt: R,
    methods: Arc<Methods>,
    listener: TcpListener,
    port: u16,
    output: &mut W,
) -> Result<bool, ReportFault>
where
    W: ConnWrite,
    R: Net<Stream = TcpStream, Listener = TcpListener> + Print + Eprint + AllocGlobal,
    R: Files<File = File> + Threads + Wait + Clock + Copy + Send + Sync + Drop + 'static,
    R::Dir: Send + Sync,
    ensures { IfOk result (λ passed. (goaways : List GoawayOf) × (answer : Result (Unit {0}) Fault)
        × (outcome : Outcome) × (milliseconds : ℕ)
        × (outcome.verdict ≡ verdict_of answer)
        × Appends (W.contents output.old) (W.contents output.new)
        (summed_drain goaways answer outcome milliseconds)
        × (passed ≡ is_ok answer)) }
{
    let alloc = rt.alloc();
    let stop = Arc::new(alloc, Stop::new(alloc, Some(1), SECONDS))?;
    let Ok(stream) = connect(&rt, port) else {
        return Err(ReportFault::OutOfMemory);
    };
    let service = Service {
        methods,
        witness: Arc::new(alloc, Witnesses::none())?,
        stop: Some(Arc::try_clone(&stop)?),
    };
    let serving = serve_apart(rt, alloc, listener, service)?;
    let begun = Instant::now(&rt);
    let (answer, goaways) = run_client(rt, alloc, stream, stop);
    serving.join(&rt);
    let milliseconds = passed_since(&rt, begun);
    print_summed(alloc, goaways.as_slice(), answer, milliseconds, output)?;
    Ok(answer.is_ok())
}

/// Runs the case over this connection, closes it, and answers what came of it, and the GOAWAYs that
/// were read.
fn run_client<R: Wait + Clock + Eprint + Copy + Drop>(
    rt: R,
    alloc: Global,
    stream: TcpStream,
    stop: Arc<Stop>,
) -> (Result<(), CaseFault>, Vec<Goaway>) {
    let mut watched = WatchedClient {
        rt,
        stream,
        stop,
        frames: PassingFrames::new(alloc),
        goaways: Vec::new(alloc),
        has_stopped: false,
    };
    let answer = watch(rt, alloc, &mut watched);
    let WatchedClient { rt, goaways, .. } = watched;
    let Err(failure) = answer else {
        return (Ok(()), goaways);
    };
    let Failure { fault, note } = failure;
    // The line that is printed reports the fault even if nothing can be written here.
    let _said = eprintln!(rt; "{CASE}: {note}");
    (Err(fault), goaways)
}

/// Runs the case over this connection.
fn watch<R: Wait + Clock + Copy + Drop>(
    rt: R,
    alloc: Global,
    watched: &mut WatchedClient<R>,
) -> Result<(), Failure> {
    let Ok(limit) = Limit::begin(&rt, Duration::from_secs(u64::from(PATIENCE))) else {
        return Err(Failure::unconnected(alloc, "the clock can't be read"));
    };
    cases::run_case(
        alloc,
        CASE,
        TimedConn::new(rt, watched, limit),
        Windows::Held,
    )
}

/// A connection to the port, whose reads and writes fail after a tick.
fn connect<R: Net<Stream = TcpStream>>(rt: &R, port: u16) -> io::Result<TcpStream> {
    let stream = TcpStream::connect(rt, (LOOPBACK, port))?;
    set_ticks(&stream)?;
    Ok(stream)
}

/// Prints a line of each GOAWAY, that of the case, and one that sums up.
fn print_summed<W: ConnWrite>(
    alloc: Global,
    goaways: &[Goaway],
    answer: Result<(), CaseFault>,
    milliseconds: u64,
    output: &mut W,
) -> Result<(), ReportFault>
    ensures { OnOk result ((outcome : Outcome) × (outcome.verdict ≡ verdict_of answer)
        × Appends (W.contents output.old) (W.contents output.new)
        (summed_drain goaways.now answer outcome milliseconds)) }
{
    print_drain(alloc, goaways, answer, output)?;
    let outcome = outcome_by(alloc, Suite::Drain, CASE, answer.err())?;
    print_summary(alloc, Suite::Drain, &[outcome], milliseconds, output)?;
    Ok(())
}

/// Prints a line of each GOAWAY, and that of the case.
fn print_drain<W: ConnWrite>(
    alloc: Global,
    goaways: &[Goaway],
    answer: Result<(), CaseFault>,
    output: &mut W,
) -> Result<(), ReportFault>
    ensures { OnOk result (Appends (W.contents output.old) (W.contents output.new)
        (drain_report goaways.now answer)) }
{
    let text = goaway_lines(alloc, goaways)?;
    write_all(output, text.as_slice())?;
    print_line(alloc, CASE, answer, output)
}

fn goaway_lines(alloc: Global, goaways: &[Goaway]) -> Result<Vec<u8>, AllocError>
    ensures { IfOk result (λ text. text.items ≡ goaway_lines goaways.now) }
{
    let mut text = Vec::new(alloc);
    for goaway in goaways {
        push_goaway(&mut text, *goaway)?;
    }
    Ok(text)
}

fn push_goaway(text: &mut Vec<u8>, goaway: Goaway) -> Result<(), AllocError>
    ensures { OnOk result (text.new.items ≡ text.old.items ++ goaway_line goaway) }
{
    let Goaway { last, code } = goaway;
    writeln!(text, "goaway {last} {code}").map_err(|_| AllocError)
}

impl<R: Wait> WatchedClient<R> {
    /// Looks at what was read. The case itself judges it.
    fn look(&mut self, bytes: &[u8]) -> Result<(), AllocError> {
        let frames = self.frames.completed_by(bytes)?;
        for frame in frames.as_slice() {
            self.see(frame)?;
        }
        Ok(())
    }

    fn see(&mut self, frame: &Frame) -> Result<(), AllocError> {
        match frame.head.kind {
            FrameKind::GoAway => self.goaways.push(goaway_of(frame.content.as_slice()))?,
            FrameKind::Data if frame.head.stream == CALL && !self.has_stopped => {
                self.has_stopped = true;
                self.stop.begin(&self.rt);
            }
            _ => {}
        }
        Ok(())
    }
}

/// What a GOAWAY of this content says (RFC 9113, section 6.8).
fn goaway_of(content: &[u8]) -> Goaway {
    match content {
        [a, b, c, d, e, f, g, h, ..] => Goaway {
            last: u32::from_be_bytes([*a, *b, *c, *d]) & 0x7fff_ffff,
            code: u32::from_be_bytes([*e, *f, *g, *h]),
        },
        _ => Goaway { last: 0, code: 0 },
    }
}

impl<R: Wait> Read for WatchedClient<R> {
    fn read(&mut self, buf: &mut [u8]) -> io::Result<usize> {
        let count = self.stream.read(buf)?;
        self.look(buf.get(..count).unwrap_or(b"".as_slice()))?;
        Ok(count)
    }
}

impl<R: Wait> Write for WatchedClient<R> {
    fn write(&mut self, buf: &[u8]) -> io::Result<usize> {
        self.stream.write(buf)
    }

    fn flush(&mut self) -> io::Result<()> {
        self.stream.flush()
    }
}
