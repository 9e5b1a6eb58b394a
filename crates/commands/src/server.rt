//! The commands `serve`, the interop test server, and `self`, the test cases against it in the same
//! process.

ghost use Rattle.std.specs.Prelude.{◌≡◌, ℕ, List, map, IfOk};
ghost use Rattle.std.specs.Io.KnownBytes.{Appends};
ghost use Rattle.cases.specs.Report.{all_cases, have_passed};
ghost use Rattle.cases.specs.declared.report.Outcome.{Outcome as CaseOutcome};
ghost use Rattle.commands.specs.Summing.{self_report};
ghost use Rattle.results.specs.declared.outcome.Outcome.{Outcome};
ghost use Rattle.trials.specs.Verdicts.{verdict_on};

use crate::listening::{listen, tell_ready};
use crate::log::Log;
use crate::port::{Service, serve_apart, serve_port};
use crate::stopping::{Connection, Stop};
use crate::times::Times;
use crate::witness::Witnesses;
use cases::{ReportFault, Windows, have_passed};
use connlog::json;
use device::{ConnRead, ConnWrite, StdDevice};
use handlers::Methods;
use recorder::Recorder;
use results::Suite;
use std::alloc::Global;
use std::fs::File;
use std::io::{ErrorKind, StdinLock};
use std::net::{Net, SocketAddr, TcpListener, TcpStream};
use std::rt::Files;
use std::sync::{Arc, Wait};
use std::thread::Threads;
use std::time::{Clock, Duration, Instant};
use std::{io, thread};
use trials::{
    PATIENCE, ServerPlace, Target, outcomes_of, passed_since, print_summary, run_all_cases,
};
use words::{LOOPBACK, LogForm, ServeWords};

/// How long standard input isn't read once it has said something, in milliseconds.
const PAUSE: u64 = 100;

/// Listens where the words say, prints where that is, and serves `grpc.testing.TestService`: on all
/// connections that come, by threads that take one after another, or on as many as the words say,
/// each in a thread of its own. It fails if the port can't be had, or if log or report can't be
/// written; a line on standard error says so. It returns once the server has stopped: after the
/// number of connections in the words, or once standard input has ended, if the words say so. It
/// answers whether no connection was left then; a line on standard error names each that was.
pub fn serve<R>(rt: R, methods: Arc<Methods>, words: ServeWords<'_>) -> io::Result<bool>
where
    R: Net<Stream = TcpStream, Listener = TcpListener> + Input<Reader = StdinLock<'static>>,
    R: Files<File = File> + Print + Eprint + AllocGlobal,
    R: Threads + Wait + Clock + Copy + Send + Sync + Drop + 'static,
    R::Dir: Send + Sync,
{
    let alloc = rt.alloc();
    let listener = listen(&rt, words.host, words.port)?;
    let address = listener.local_addr()?;
    let times = times_of(&rt, words);
    let recorder = recorder_of(&rt, alloc, words)?;
    let said = say_listening(&rt, alloc, address, times);
    if let Err(error) = &said {
        let _ = eprintln!(rt; "interop: standard output can't be written: {error}");
    }
    said?;
    tell_ready(&rt, alloc, address, words)?;
    let stop = stop_of(rt, alloc, words)?;
    let log = match times {
        Some(times) => Some(Arc::new(alloc, Log::new(alloc, times))?),
        None => None,
    };
    let witnesses = Witnesses {
        log: where_wanted(words.log.is_some(), &log)?,
        reports: where_wanted(words.has_report, &log)?,
        recorder: again(&recorder)?,
    };
    let service = Service {
        methods,
        witness: Arc::new(alloc, witnesses)?,
        stop,
    };
    let left = match log {
        Some(log) => serve_logged(rt, alloc, listener, service, log)?,
        None => serve_port(rt, alloc, listener, service)?,
    };
    end(&rt, &recorder, words.patience, left.as_slice())
}

/// How the lines of a log or a report say the time, where there is either.
fn times_of(rt: &impl Clock, words: ServeWords<'_>) -> Option<Times> {
    match words.log {
        Some(form) => Some(Times::begin(rt, form, words.time)),
        None if words.has_report => Some(Times::begin(rt, LogForm::Text, None)),
        None => None,
    }
}

/// A second handle of the log, if there is one and it is wanted.
fn where_wanted(is_wanted: bool, log: &Option<Arc<Log>>) -> io::Result<Option<Arc<Log>>> {
    match log {
        Some(log) if is_wanted => Ok(Some(Arc::try_clone(log)?)),
        _ => Ok(None),
    }
}

/// The recorder of what passes, if the words ask for one.
fn recorder_of<R>(rt: &R, alloc: Global, words: ServeWords<'_>) -> io::Result<Option<Arc<Recorder>>>
where
    R: Files<File = File> + Eprint,
    R: Threads + Wait + Copy + Send + Sync + Drop + 'static,
{
    match Recorder::open(rt, alloc, words.tracing, words.record) {
        Ok(recorder) => Ok(recorder),
        Err(_said) => Err(unwritten()),
    }
}

/// A second handle of the recorder.
fn again(recorder: &Option<Arc<Recorder>>) -> io::Result<Option<Arc<Recorder>>> {
    match recorder {
        Some(recorder) => Ok(Some(Arc::try_clone(recorder)?)),
        None => Ok(None),
    }
}

fn unwritten() -> io::Error {
    io::Error::new(ErrorKind::Other, "what passes can't be written")
}

/// The server has stopped. It fails if what passed couldn't be written.
fn end(
    rt: &(impl Wait + Eprint),
    recorder: &Option<Arc<Recorder>>,
    seconds: u16,
    left: &[Connection],
) -> io::Result<bool> {
    if let Some(recorder) = recorder {
        recorder.finish(rt);
    }
    let has_ended = name_left(rt, seconds, left);
    match recorder {
        Some(recorder) if recorder.has_failed() => Err(unwritten()),
        _ => Ok(has_ended),
    }
}

/// Says where the server listens.
fn say_listening(
    rt: &(impl Print + Clock),
    alloc: Global,
    address: SocketAddr,
    times: Option<Times>,
) -> io::Result<()> {
    match times {
        Some(times) if times.form == LogForm::Json => {
            let time = times.text(alloc, times.now(rt))?;
            let time = time.as_ref().map_or("null", |time| time.as_str());
            let mut text = String::new(alloc);
            json::begin(&mut text, time)?;
            json::string(alloc, &mut text, "event", "listening")?;
            let address = format!(in alloc; "{address}")?;
            json::string(alloc, &mut text, "address", address.as_str())?;
            json::end(&mut text)?;
            print!(rt; "{text}")
        }
        _ => println!(rt; "listening {address}"),
    }
}

/// Names the connections that are left once a server has waited this many seconds. Answers whether
/// there is none.
fn name_left(rt: &impl Eprint, seconds: u16, left: &[Connection]) -> bool {
    for connection in left {
        let Connection { number, peer } = *connection;
        let _ = eprintln!(rt;
            "interop: connection {number} from {peer} had not ended {seconds} s after the drain began"
        );
    }
    left.is_empty()
}

/// How a server of these words stops, if it does. One with a log or a report stops if that can't be
/// written.
fn stop_of<R>(rt: R, alloc: Global, words: ServeWords<'_>) -> io::Result<Option<Arc<Stop>>>
where
    R: Input<Reader = StdinLock<'static>>
        + Threads
        + Wait
        + Clock
        + Copy
        + Send
        + Sync
        + Drop
        + 'static,
{
    let is_told = words.log.is_some() || words.has_report;
    if words.connections.is_none() && !words.drains_on_eof && !is_told {
        return Ok(None);
    }
    let stop = Arc::new(alloc, Stop::new(alloc, words.connections, words.patience))?;
    if words.drains_on_eof {
        let shared = Arc::try_clone(&stop)?;
        let _reading = thread::spawn(&rt, move || {
            read_out(&rt);
            shared.begin(&rt);
        })?;
    }
    Ok(Some(stop))
}

/// Reads standard input to its end. One that can't be read has ended. One with content is read
/// slowly, since the content isn't used.
fn read_out<R: Input<Reader = StdinLock<'static>> + Clock>(rt: &R) {
    let mut input = StdDevice::new(rt.reader());
    let mut piece = [0u8; 65_536];
    for _ in 0..u64::MAX {
        match input.read(&mut piece) {
            Ok(0) | Err(_) => return,
            Ok(_) => {
                let _ = thread::sleep(rt, Duration::from_millis(PAUSE));
            }
        }
    }
}

/// Serves connections that come, while a thread of its own prints the lines of their log and their
/// report. If one can't be written, the server stops, and a line on standard error says which.
fn serve_logged<R>(
    rt: R,
    alloc: Global,
    listener: TcpListener,
    service: Service<Witnesses>,
    log: Arc<Log>,
) -> io::Result<Vec<Connection>>
where
    R: Files<File = File> + Print + Eprint + Threads + Wait + Clock,
    R: Copy + Send + Sync + Drop + 'static,
    R::Dir: Send + Sync,
{
    let shared = Arc::try_clone(&log)?;
    let what = if service.witness.log.is_some() {
        "log"
    } else {
        "report"
    };
    let stop = match &service.stop {
        Some(stop) => Some(Arc::try_clone(stop)?),
        None => None,
    };
    let printing = thread::spawn(&rt, move || -> io::Result<()> {
        let printed = shared.print_all(&rt, alloc);
        if let Err(error) = &printed {
            let _ = eprintln!(rt; "interop: the {what} can't be written: {error}");
            if let Some(stop) = stop {
                stop.begin(&rt);
            }
        }
        printed
    })?;
    let left = serve_port(rt, alloc, listener, service)?;
    log.close();
    printing.join(&rt)?;
    Ok(left)
}

/// Listens on a port and serves it in a thread of its own, runs the fourteen cases against it,
/// prints a line of each and one that sums up, and answers whether none failed. The server's thread
/// goes on until the program ends.
pub fn run_self<R, W>(
    rt: R,
    methods: Arc<Methods>,
    listener: TcpListener,
    port: u16,
    output: &mut W,
) -> Result<bool, ReportFault>
where
    W: ConnWrite,
    R: Net<Stream = TcpStream, Listener = TcpListener> + Print + Eprint + AllocGlobal,
    R: Files<File = File> + Threads + Wait + Clock + Copy + Send + Sync + Drop + 'static,
    R::Dir: Send + Sync,
    ensures { IfOk result (λ passed. (ended : List CaseOutcome) × (outcomes : List Outcome)
        × (milliseconds : ℕ)
        × (map (λ one. one.case) ended ≡ all_cases)
        × (map (λ outcome. outcome.verdict) outcomes ≡ map verdict_on ended)
        × Appends (W.contents output.old) (W.contents output.new)
        (self_report ended outcomes milliseconds)
        × (passed ≡ have_passed ended)) }
{
    let alloc = rt.alloc();
    let service = Service {
        methods,
        witness: Arc::new(alloc, Witnesses::none())?,
        stop: None,
    };
    let _serving = serve_apart(rt, alloc, listener, service)?;
    let target = Target {
        place: ServerPlace::new(LOOPBACK, port),
        patience: PATIENCE,
        windows: Windows::Held,
        recorder: &None,
    };
    let begun = Instant::now(&rt);
    let ended = run_all_cases(&rt, alloc, target, output)?;
    let outcomes = outcomes_of(alloc, Suite::SelfTest, ended.as_slice())?;
    let milliseconds = passed_since(&rt, begun);
    print_summary(
        alloc,
        Suite::SelfTest,
        outcomes.as_slice(),
        milliseconds,
        output,
    )?;
    Ok(have_passed(ended.as_slice()))
}
