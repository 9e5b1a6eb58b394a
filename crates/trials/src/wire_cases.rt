//! `interop wire`: wire cases against a server, several side by side.

use crate::connecting::{ServerPlace, connect};
use crate::desk::{Desk, NO_ANSWER, Round};
use crate::trial::{RunVerdict, TrialFault, choice_of, end_run, refuse_choice};
use cases::Limit;
use device::ConnWrite;
use lane::Bell;
use recorder::{Line, Recorder, look_at_server};
use results::{ChoiceFault, Entry, Suite, chosen};
use sinks::{Run, Sinks};
use std::alloc::Global;
use std::fs::File;
use std::net::{Net, TcpListener, TcpStream};
use std::rt::Files;
use std::sync::atomic::{AtomicBool, AtomicU64, Ordering};
use std::sync::{Arc, Mutex, Wait};
use std::thread;
use std::thread::Threads;
use std::time::{Clock, Duration, Instant};
use wire::{Case, CaseOutcome, Pace, Server, WireFault, every_case, list, run_case};
use words::{WireRun, WireWords};

/// The words that choose cases.
const KNOWN: &str = "all, a group (start, conn, hpack, stream, flow, control, grpc), or some of \
    wire --list, as grpc/4, grpc/4-6 or 'grpc/1*'";

/// How long a thread waits for others before it looks again by itself, in seconds.
const LOOK: u64 = 3_600;

/// Milliseconds in a second.
const SECOND: u64 = 1_000;

/// The server under test, and a clock.
#[derive(Drop)]
struct Target<R> {
    rt: R,
    host: String,
    port: u16,
    silence: Duration,
    /// How long a connection may take to be made.
    patience: Duration,
    begun: Instant,
    /// Where it is written what passes, if it is.
    recorder: Option<Arc<Recorder>>,
}

/// The server under test, for the tries of one case.
#[derive(Drop)]
struct TriedServer<'a, R> {
    target: &'a Target<R>,
    /// The case's name, where it is written what passes.
    name: String,
}

impl<R: Net<Stream = TcpStream> + Clock + AllocGlobal + Drop> Target<R> {
    fn stream(&self) -> Result<TcpStream, WireFault> {
        let limit = Limit::begin(&self.rt, self.patience).map_err(|_| WireFault::ClockFailed)?;
        let place = ServerPlace::new(self.host.as_str(), self.port);
        match connect(&self.rt, self.rt.alloc(), place, limit) {
            Ok(stream) => {
                // A connection on which no time can be set is broken, and a read reports that.
                let _set = stream.set_write_timeout(Some(self.silence));
                Ok(stream)
            }
            Err(failure) => Err(WireFault::NoConnection(failure.note)),
        }
    }

    /// Runs a case.
    fn run(&self, alloc: Global, case: Case, pace: Pace) -> Result<CaseOutcome, WireFault>
    where
        R: Wait + Eprint + Copy,
    {
        let name = match &self.recorder {
            Some(_) => case.name(alloc)?,
            None => String::new(alloc),
        };
        run_case(alloc, case, pace, &TriedServer { target: self, name })
    }
}

impl<'a, R> Server for TriedServer<'a, R>
where
    R: Net<Stream = TcpStream> + Wait + Clock + Eprint + AllocGlobal,
    R: Copy + Drop,
{
    type Line = Line<TcpStream, R>;

    fn connect(&self) -> Result<Line<TcpStream, R>, WireFault> {
        let TriedServer { target, name } = self;
        let stream = target.stream()?;
        Ok(look_at_server(target.rt, &target.recorder, stream, name.as_str()))
    }

    fn fault(&self, line: &Line<TcpStream, R>, text: &str) {
        if let Some(eye) = line.tap() {
            eye.fault(text);
        }
    }

    fn now(&self) -> Option<u64> {
        let passed = self.target.begun.elapsed(&self.target.rt).ok()?;
        u64::try_from(passed.as_millis()).ok()
    }
}

/// Cases that threads run, and what came of them.
#[derive(Drop)]
struct Board<R> {
    cases: Vec<Case>,
    target: Target<R>,
    pace: Pace,
    /// The place of the case that is run next.
    next: AtomicU64,
    /// Whether no more are run.
    is_over: AtomicBool,
    found: Mutex<CaseOutcomes>,
    /// Rung where something came of a case.
    bell: Bell,
}

/// What came of cases that run side by side.
#[derive(Drop)]
struct CaseOutcomes {
    /// By the places of the cases, until it is taken.
    answers: Vec<Option<Result<CaseOutcome, WireFault>>>,
}

/// Lists the wire cases, or runs those that the words choose, and reports each outcome. It answers
/// `Failed` if one failed the run, or the server answers no more. If `is_shown`, standard error is
/// a terminal, and shows how far the run is.
///
/// # Errors
///
/// It answers `BadKnown` if the file of known failures can't be read as one, and `Failed` if a line
/// or a file can't be written or read, or if there was no connection for a case: that one isn't
/// tested, and those after it aren't reported. Standard error says why.
pub fn run_wire<R, W>(
    rt: R,
    words: WireWords<'_>,
    is_shown: bool,
    output: &mut W,
) -> Result<RunVerdict, TrialFault>
where
    R: Net<Stream = TcpStream, Listener = TcpListener> + Files<File = File> + Eprint + AllocGlobal,
    R: Clock + Threads + Wait + Copy + Send + Sync + Drop + 'static,
    W: ConnWrite,
{
    let alloc = rt.alloc();
    let words = match words {
        WireWords::List => {
            list(alloc, output)?;
            return Ok(RunVerdict::Passed);
        }
        WireWords::Run(words) => words,
    };
    let cases = every_case(alloc)?;
    let names = names_of(alloc, cases.as_slice())?;
    let entries = entries_of(alloc, cases.as_slice(), names.as_slice())?;
    let choice = choice_of(words.names.as_slice(), &words.reporting);
    let places = match chosen(alloc, entries.as_slice(), choice) {
        Ok(places) => places,
        Err(ChoiceFault::NoCase(name)) => return Ok(refuse_name(&rt, name)),
        Err(fault) => return refuse_choice(&rt, fault),
    };
    let mut texts = Vec::new(alloc);
    for name in names.as_slice() {
        texts.push(name.as_str())?;
    }
    let run = Run {
        suite: Suite::Wire,
        reporting: &words.reporting,
        names: texts.as_slice(),
        chosen: places.len(),
        is_shown: is_shown && !words.tracing.is_shown(),
    };
    let recorder = Recorder::open(&rt, alloc, words.tracing, None)?;
    let plan = Plan {
        cases: cases.as_slice(),
        places: places.as_slice(),
        words: &words,
    };
    let verdict = run_recorded(rt, plan, run, &recorder, output);
    end_run(&rt, &recorder, verdict)
}

/// Which cases are run, and how.
#[derive(Clone, Copy)]
struct Plan<'a> {
    /// All that there are, and the places of those that are run.
    cases: &'a [Case],
    places: &'a [usize],
    words: &'a WireRun<'a>,
}

/// Runs cases while a recorder writes what passes, and reports each outcome.
fn run_recorded<R, W>(
    rt: R,
    plan: Plan<'_>,
    run: Run<'_, '_>,
    recorder: &Option<Arc<Recorder>>,
    output: &mut W,
) -> Result<RunVerdict, TrialFault>
where
    R: Net<Stream = TcpStream, Listener = TcpListener> + Files<File = File> + Eprint + AllocGlobal,
    R: Clock + Threads + Wait + Copy + Send + Sync + Drop + 'static,
    W: ConnWrite,
{
    let alloc = rt.alloc();
    let words = plan.words;
    let mut sinks = Sinks::open(rt, alloc, run)?;
    for _ in 0..words.reporting.repeat {
        let chosen = picked(alloc, plan.cases, plan.places)?;
        match run_round(rt, alloc, chosen, words, recorder, &mut sinks, output)? {
            Round::Done => {}
            Round::Enough => break,
            Round::Dead => {
                sinks.bail_out(NO_ANSWER, output)?;
                sinks.close(output)?;
                return Ok(RunVerdict::Failed);
            }
            Round::Lost(why) => return lose(&rt, why.as_str(), &mut sinks, output),
        }
    }
    Ok(RunVerdict::from(sinks.close(output)?))
}

/// Ends a run for which there is no connection to the server any more, and says why.
fn lose<R, W>(
    rt: &R,
    why: &str,
    sinks: &mut Sinks<'_, R>,
    output: &mut W,
) -> Result<RunVerdict, TrialFault>
where
    R: Files + Clock + Eprint + AllocGlobal + Drop,
    W: ConnWrite,
{
    sinks.bail_out(why, output)?;
    sinks.close(output)?;
    // The exit status reports it even if nothing can be written here.
    let _said = eprintln!(rt; "interop: {why}");
    Err(TrialFault::Failed)
}

/// Says that there is no case of this name, and which there are.
fn refuse_name(rt: &impl Eprint, name: &str) -> RunVerdict {
    // The exit status reports it even if nothing can be written here.
    let _said = eprintln!(rt; "interop: there is no wire case {name}: {KNOWN}");
    RunVerdict::UnknownCase
}

/// The names of cases.
fn names_of(alloc: Global, cases: &[Case]) -> Result<Vec<String>, TrialFault> {
    let mut names = Vec::new(alloc);
    for case in cases {
        names.push(case.name(alloc)?)?;
    }
    Ok(names)
}

/// What can be chosen: cases of these names.
fn entries_of<'a>(
    alloc: Global,
    cases: &[Case],
    names: &'a [String],
) -> Result<Vec<Entry<'a>>, TrialFault> {
    let mut entries = Vec::new(alloc);
    for (case, name) in cases.iter().zip(names) {
        entries.push(Entry {
            name: name.as_str(),
            level: Some(case.level),
            is_in_all: true,
        })?;
    }
    Ok(entries)
}

/// The cases at these places.
fn picked(alloc: Global, cases: &[Case], places: &[usize]) -> Result<Vec<Case>, TrialFault> {
    let mut picked = Vec::new(alloc);
    for place in places {
        if let Some(case) = cases.get(*place) {
            picked.push(*case)?;
        }
    }
    Ok(picked)
}

/// Runs cases, each once, and reports each outcome.
fn run_round<R, W>(
    rt: R,
    alloc: Global,
    cases: Vec<Case>,
    words: &WireRun<'_>,
    recorder: &Option<Arc<Recorder>>,
    sinks: &mut Sinks<'_, R>,
    output: &mut W,
) -> Result<Round, TrialFault>
where
    R: Net<Stream = TcpStream, Listener = TcpListener> + Files<File = File> + Eprint + AllocGlobal,
    R: Clock + Threads + Wait + Copy + Send + Sync + Drop + 'static,
    W: ConnWrite,
{
    let mut desk = Desk::new(alloc, cases.as_slice(), words.is_verbose)?;
    let board = Arc::new(alloc, board_of(rt, alloc, cases, words, recorder)?)?;
    let mut threads = Vec::new(alloc);
    for _ in board.cases.as_slice().iter().take(usize::from(words.jobs)) {
        let shared = Arc::try_clone(&board)?;
        let Ok(thread) = thread::spawn(&rt, move || shared.work(&rt, alloc)) else {
            break;
        };
        threads.push(thread)?;
    }
    if threads.is_empty() {
        return Err(TrialFault::OutOfMemory);
    }
    let told = board.tell_all(&rt, alloc, &mut desk, sinks, output);
    board.is_over.store(true, Ordering::SeqCst);
    for thread in threads {
        thread.join(&rt);
    }
    told?;
    Ok(desk.round())
}

/// These cases, none of them run.
fn board_of<R: Net<Stream = TcpStream> + Clock + AllocGlobal + Drop>(
    rt: R,
    alloc: Global,
    cases: Vec<Case>,
    words: &WireRun<'_>,
    recorder: &Option<Arc<Recorder>>,
) -> Result<Board<R>, TrialFault> {
    let silence = u64::from(words.silence);
    let begun = Instant::now(&rt).map_err(|_| TrialFault::Failed)?;
    let mut answers = Vec::new(alloc);
    for _ in cases.as_slice() {
        answers.push(None)?;
    }
    Ok(Board {
        cases,
        target: Target {
            rt,
            host: String::from_str(alloc, words.host)?,
            port: words.port,
            silence: Duration::from_millis(silence),
            patience: Duration::from_secs(u64::from(words.limit)),
            begun,
            recorder: match recorder {
                Some(recorder) => Some(Arc::try_clone(recorder)?),
                None => None,
            },
        },
        pace: Pace {
            silence,
            limit: u64::from(words.limit) * SECOND,
        },
        next: AtomicU64::new(0),
        is_over: AtomicBool::new(false),
        found: Mutex::new(CaseOutcomes { answers }),
        bell: Bell::new(),
    })
}

impl<R> Board<R>
where
    R: Net<Stream = TcpStream> + Wait + Clock + Eprint + AllocGlobal,
    R: Copy + Drop,
{
    /// Runs one case after another, each the next that no other thread has begun, but those that no
    /// other is to run beside.
    fn work(&self, rt: &impl Wait, alloc: Global) {
        for _ in self.cases.as_slice() {
            let place = self.next.fetch_add(1, Ordering::SeqCst) as usize;
            let Some(case) = self.cases.as_slice().get(place) else {
                return;
            };
            if self.is_over.load(Ordering::SeqCst) {
                return;
            }
            if !case.opens_many() {
                let answer = self.target.run(alloc, *case, self.pace);
                self.found.lock(rt).put(place, answer);
                self.bell.ring();
            }
        }
    }

    /// Takes what came of each case as it ends, and of those that no other runs beside, which are
    /// run last.
    fn tell_all<S, W>(
        &self,
        rt: &S,
        alloc: Global,
        desk: &mut Desk,
        sinks: &mut Sinks<'_, R>,
        output: &mut W,
    ) -> Result<(), TrialFault>
    where
        R: Files,
        S: Wait,
        W: ConnWrite,
    {
        for case in self.cases.as_slice() {
            if desk.is_over() {
                break;
            }
            if !case.opens_many() {
                let (place, answer) = self.wait_for_next(rt);
                desk.take(place, answer, sinks, output)?;
            }
        }
        for (place, case) in self.cases.as_slice().iter().enumerate() {
            if desk.is_over() {
                break;
            }
            if case.opens_many() {
                let answer = self.target.run(alloc, *case, self.pace);
                desk.take(place, answer, sinks, output)?;
            }
        }
        desk.tell_rest(self.cases.as_slice(), sinks, output)
    }

    /// What came of the next case that ends, and its place.
    fn wait_for_next(&self, rt: &impl Wait) -> (usize, Result<CaseOutcome, WireFault>) {
        for _ in rt.forever() {
            let mark = self.bell.mark();
            let taken = self.found.lock(rt).take();
            if let Some(found) = taken {
                return found;
            }
            self.bell.wait_past(rt, mark, Duration::from_secs(LOOK));
        }
        unreachable!()
    }
}

impl CaseOutcomes {
    /// Puts down what came of the case at a place.
    fn put(&mut self, place: usize, answer: Result<CaseOutcome, WireFault>) {
        if let Some(slot) = self.answers.as_mut_slice().get_mut(place) {
            *slot = Some(answer);
        }
    }

    /// The first place of which something came, and what.
    fn take(&mut self) -> Option<(usize, Result<CaseOutcome, WireFault>)> {
        let place = self.answers.iter().position(|slot| slot.is_some())?;
        let answer = self.answers.as_mut_slice().get_mut(place)?.take()?;
        Some((place, answer))
    }
}
