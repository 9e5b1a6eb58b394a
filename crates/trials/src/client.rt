//! The commands that run test cases: `case` against a server, and the client's part of `self`.

ghost use Rattle.std.specs.Prelude.{◌≡◌, List, codes, map, IfOk, OnOk, Err};
ghost use Rattle.std.specs.Io.KnownBytes.{Appends};
ghost use Rattle.cases.specs.Report.{all_cases, line_of, lines_of};
ghost use Rattle.cases.specs.declared.fault.CaseFault.TheVariants.{UnknownCase};

use crate::attempt::{Target, connect_and_run, fault_of, outcome_by, outcome_of, try_case};
use crate::connecting::{ServerPlace, connect};
use crate::load::load_case;
use crate::soak::run_soak;
use crate::tally::{Tally, push_tally};
use crate::trial::{RunVerdict, TrialFault, choice_of, end_run, refuse_choice};
use cases::{Case, CaseFault, Limit, ReportFault, Soak, Windows, print_line, push_line, run_all};
use device::{ConnWrite, write_all};
use recorder::Recorder;
use results::{ChoiceFault, Entry, Level, Outcome, Suite, chosen};
use sinks::{Form, Run, Sinks};
use std::alloc::Global;
use std::fs::File;
use std::io::Write;
use std::net::{Net, TcpListener, TcpStream};
use std::rt::Files;
use std::sync::{Arc, Wait};
use std::thread::Threads;
use std::time::{Clock, Duration};
use words::{CaseRun, CaseWords};

/// How many seconds a case may take, where nothing else is said.
pub const PATIENCE: u16 = 10;

impl<'a> Target<'a> {
    /// The one that words name, with windows held.
    fn of(words: &CaseRun<'a>, recorder: &'a Option<Arc<Recorder>>) -> Target<'a> {
        Target {
            place: ServerPlace::new(words.host, words.port),
            patience: words.patience,
            windows: Windows::Held,
            recorder,
        }
    }
}

/// Lists the names of cases, or runs those that the words choose, as often and as many at a time as
/// they say, and reports each outcome. If `is_shown`, standard error is a terminal, and shows how
/// far the run is.
pub fn run_case<R, W>(
    rt: R,
    words: CaseWords<'_>,
    is_shown: bool,
    output: &mut W,
) -> Result<RunVerdict, TrialFault>
where
    R: Net<Stream = TcpStream, Listener = TcpListener> + Files<File = File> + Eprint + AllocGlobal,
    R: Clock + Threads + Wait + Copy + Send + Sync + Drop + 'static,
    W: ConnWrite,
{
    let words = match words {
        CaseWords::List => {
            print_names(rt.alloc(), output)?;
            return Ok(RunVerdict::Passed);
        }
        CaseWords::Run(words) => words,
    };
    let choice = choice_of(words.names.as_slice(), &words.reporting);
    let alloc = rt.alloc();
    let entries = entries_of(alloc)?;
    match chosen(alloc, entries.as_slice(), choice) {
        Ok(places) => run_chosen(rt, places.as_slice(), &words, is_shown, output),
        Err(ChoiceFault::NoCase(name)) => {
            refuse_name(&rt, name);
            if is_named(name, &words) {
                print_unknown(alloc, name, output)?;
            }
            Ok(RunVerdict::UnknownCase)
        }
        Err(fault) => refuse_choice(&rt, fault),
    }
}

/// Prints the names that there are, one a line.
fn print_names<W: ConnWrite>(alloc: Global, output: &mut W) -> Result<(), TrialFault> {
    let mut text = Vec::new(alloc);
    for name in NAMES {
        if writeln!(text, "{name}").is_err() {
            return Err(TrialFault::OutOfMemory);
        }
    }
    write_all(output, text.as_slice())?;
    Ok(())
}

/// The names of cases and of soaks: first those that `all` means.
const NAMES: [&str; 17] = [
    "empty_unary",
    "large_unary",
    "client_streaming",
    "server_streaming",
    "ping_pong",
    "empty_stream",
    "custom_metadata",
    "status_code_and_message",
    "special_status_message",
    "unimplemented_method",
    "unimplemented_service",
    "cancel_after_begin",
    "cancel_after_first_response",
    "timeout_on_sleeping_server",
    "cacheable_unary",
    "rpc_soak",
    "channel_soak",
];

/// What can be chosen, in the order of the names.
fn entries_of(alloc: Global) -> Result<Vec<Entry<'static>>, TrialFault> {
    let mut entries = Vec::new(alloc);
    for (place, name) in NAMES.iter().enumerate() {
        entries.push(Entry {
            name,
            level: Some(Level::Must),
            is_in_all: place < Case::ALL.len(),
        })?;
    }
    Ok(entries)
}

/// Runs the cases at these places of the names, and reports each outcome.
fn run_chosen<R, W>(
    rt: R,
    places: &[usize],
    words: &CaseRun<'_>,
    is_shown: bool,
    output: &mut W,
) -> Result<RunVerdict, TrialFault>
where
    R: Net<Stream = TcpStream, Listener = TcpListener> + Files<File = File> + Eprint + AllocGlobal,
    R: Clock + Threads + Wait + Copy + Send + Sync + Drop + 'static,
    W: ConnWrite,
{
    let run = Run {
        suite: Suite::Case,
        reporting: &words.reporting,
        names: &NAMES,
        chosen: places.len(),
        is_shown: is_shown && !words.tracing.is_shown(),
    };
    let recorder = Recorder::open(&rt, rt.alloc(), words.tracing, None)?;
    let verdict = run_recorded(rt, places, words, run, &recorder, output);
    end_run(&rt, &recorder, verdict)
}

/// Runs the cases at these places of the names while a recorder writes what passes, and reports
/// each outcome.
fn run_recorded<R, W>(
    rt: R,
    places: &[usize],
    words: &CaseRun<'_>,
    run: Run<'_, '_>,
    recorder: &Option<Arc<Recorder>>,
    output: &mut W,
) -> Result<RunVerdict, TrialFault>
where
    R: Net<Stream = TcpStream, Listener = TcpListener> + Files<File = File> + Eprint + AllocGlobal,
    R: Clock + Threads + Wait + Copy + Send + Sync + Drop + 'static,
    W: ConnWrite,
{
    let mut sinks = Sinks::open(rt, rt.alloc(), run)?;
    'runs: for _ in 0..words.reporting.repeat {
        for place in places {
            let Some(name) = NAMES.get(*place) else {
                continue;
            };
            run_named(rt, name, words, recorder, &mut sinks, output)?;
            if sinks.is_over() {
                break 'runs;
            }
        }
    }
    Ok(RunVerdict::from(sinks.close(output)?))
}

/// Runs the case or the soak of this name, as the words say, and reports its outcome.
fn run_named<R, W>(
    rt: R,
    name: &str,
    words: &CaseRun<'_>,
    recorder: &Option<Arc<Recorder>>,
    sinks: &mut Sinks<'_, R>,
    output: &mut W,
) -> Result<(), TrialFault>
where
    R: Net<Stream = TcpStream, Listener = TcpListener> + Files<File = File> + Eprint + AllocGlobal,
    R: Clock + Threads + Wait + Copy + Send + Sync + Drop + 'static,
    W: ConnWrite,
{
    let alloc = rt.alloc();
    let mut lines = Vec::new(alloc);
    let outcome = match (Soak::named(name), Case::named(name)) {
        (Some(soak), _) => {
            sinks.hide();
            run_soak(rt, soak, words, recorder, &mut lines)?
        }
        (None, Some(case)) => match words.streams {
            Some(streams) => {
                sinks.hide();
                load_case(rt, case, words, streams, recorder, &mut lines)?
            }
            None if words.times > 1 => {
                run_often(&rt, alloc, name, words, recorder, sinks, &mut lines)?
            }
            None => run_once(&rt, alloc, name, words, recorder, sinks, &mut lines)?,
        },
        (None, None) => return Ok(()),
    };
    let is_lost = is_unconnected(&outcome) && !is_there(&rt, alloc, words);
    tell(sinks, outcome, is_lost, lines.as_slice(), output)
}

/// Whether a case may have had no connection to the server.
fn is_unconnected(outcome: &Outcome) -> bool {
    outcome.fault == Some(CaseFault::StreamFailed.code()) && outcome.sent_count.is_none()
}

/// Whether the server takes a connection.
fn is_there<R: Net + Clock>(rt: &R, alloc: Global, words: &CaseRun<'_>) -> bool {
    let whole = Duration::from_secs(u64::from(words.patience));
    match Limit::begin(rt, whole) {
        Ok(limit) => connect(rt, alloc, ServerPlace::new(words.host, words.port), limit).is_ok(),
        Err(_) => false,
    }
}

/// Reports the outcome of a case, in every place where results go. That the server is gone is no
/// known failure.
fn tell<R, W>(
    sinks: &mut Sinks<'_, R>,
    mut outcome: Outcome,
    is_lost: bool,
    lines: &[u8],
    output: &mut W,
) -> Result<(), TrialFault>
where
    R: Files + Clock + Eprint + AllocGlobal + Drop,
    W: ConnWrite,
{
    if is_lost {
        sinks.lost(&mut outcome, output)?;
    } else {
        sinks.ended(&mut outcome, output)?;
    }
    sinks.tell(outcome, lines, output)?;
    Ok(())
}

/// Runs a case once.
fn run_once<R>(
    rt: &R,
    alloc: Global,
    name: &str,
    words: &CaseRun<'_>,
    recorder: &Option<Arc<Recorder>>,
    sinks: &Sinks<'_, R>,
    lines: &mut Vec<u8>,
) -> Result<Outcome, TrialFault>
where
    R: Net + Files + Wait + Clock + Eprint + AllocGlobal + Copy + Drop,
{
    let attempt = connect_and_run(rt, name, Target::of(words, recorder));
    if let Some(failure) = &attempt.failure {
        sinks.note(name, failure.note.as_str());
    }
    let answer = match fault_of(&attempt.failure) {
        None => Ok(()),
        Some(fault) => Err(fault),
    };
    push_line(lines, name, answer)?;
    Ok(outcome_of(alloc, name, attempt)?)
}

/// Runs a case `times` times. Its outcome is that of the first run that failed, if one did.
fn run_often<R>(
    rt: &R,
    alloc: Global,
    name: &str,
    words: &CaseRun<'_>,
    recorder: &Option<Arc<Recorder>>,
    sinks: &Sinks<'_, R>,
    lines: &mut Vec<u8>,
) -> Result<Outcome, TrialFault>
where
    R: Net + Files + Wait + Clock + Eprint + AllocGlobal + Copy + Drop,
{
    let mut tally = Tally::new();
    let mut milliseconds = 0u64;
    let mut first: Option<Outcome> = None;
    for _ in 0..words.times {
        let attempt = connect_and_run(rt, name, Target::of(words, recorder));
        milliseconds = milliseconds.saturating_add(attempt.milliseconds);
        match &attempt.failure {
            None => tally.count(Ok(())),
            Some(failure) => {
                sinks.note(name, failure.note.as_str());
                tally.count(Err(failure.fault));
                if first.is_none() {
                    first = Some(outcome_of(alloc, name, attempt)?);
                }
            }
        }
    }
    push_tally(lines, name, tally, words.times)?;
    let mut outcome = match first {
        Some(outcome) => outcome,
        None => outcome_by(alloc, Suite::Case, name, None)?,
    };
    outcome.milliseconds = milliseconds;
    outcome.tries = u32::from(words.times);
    outcome.passed = u32::from(tally.passed);
    Ok(outcome)
}

/// Says that there is no case of this name, and which there are.
fn refuse_name(rt: &impl Eprint, name: &str) {
    // The exit status reports it even if nothing can be written here.
    let _said = eprint!(rt; "interop: there is no case {name}: all");
    for known in NAMES {
        let _said = eprint!(rt; ", {known}");
    }
    let _said = eprintln!(rt; "");
}

/// Prints the line of a case that there isn't.
fn print_unknown<W: ConnWrite>(alloc: Global, name: &str, output: &mut W) -> Result<(), ReportFault>
    ensures { OnOk result (Appends (W.contents output.old) (W.contents output.new)
        (line_of name.now (Err UnknownCase))) }
{
    print_line(alloc, name, Err(CaseFault::UnknownCase), output)
}

/// Whether the case has a line of its own: it is to be run, and standard output has text.
fn is_named(name: &str, words: &CaseRun<'_>) -> bool {
    Form::of(&words.reporting) == Form::Text && words.names.iter().any(|word| *word == name)
}

/// Runs the fourteen cases, prints a line of each, and answers what came of each.
pub fn run_all_cases<R, W>(
    rt: &R,
    alloc: Global,
    target: Target<'_>,
    output: &mut W,
) -> Result<Vec<cases::Outcome>, ReportFault>
where
    R: Net + Wait + Clock + Eprint + AllocGlobal + Copy + Drop,
    W: ConnWrite,
    ensures order { IfOk result
        (λ outcomes. map (λ outcome. outcome.case) outcomes.items ≡ all_cases) }
    ensures lines { IfOk result (λ outcomes.
        Appends (W.contents output.old) (W.contents output.new) (lines_of outcomes.items)) }
{
    run_all(alloc, |case| try_case(rt, case.name(), target), output)
}
