//! The command `misbehave`: a server that misbehaves, for authors of clients (the crate
//! `misbehave`).

use device::ConnWrite;
use misbehave::{Misbehaviour, PlayOutcome, PlayPlace, RunFault, Stage, list, misbehaviours};
use recorder::{Recorder, WatchedNet};
use results::{ChoiceFault, Entry, Level, Suite, chosen};
use sinks::{Run, Sinks, write_whole};
use std::alloc::{AllocError, Global};
use std::fs::File;
use std::net::Net;
use std::rt::Files;
use std::sync::Wait;
use std::thread::Threads;
use std::time::Clock;
use trials::{RunVerdict, TrialFault, choice_of, end_run, refuse_choice};
use words::{LOOPBACK, MisbehaveRun, MisbehaveWords};

/// Lists the misbehaviours, or runs those that the words choose, and reports each outcome. If
/// `is_shown`, standard error is a terminal, and shows how far the run is.
pub fn run_misbehave<R, W>(
    rt: R,
    words: MisbehaveWords<'_>,
    is_shown: bool,
    output: &mut W,
) -> Result<RunVerdict, TrialFault>
where
    R: Net + Files<File = File> + Eprint + AllocGlobal + Clock,
    R: Threads + Wait + Copy + Send + Sync + Drop + 'static,
    W: ConnWrite,
{
    let alloc = rt.alloc();
    let words = match words {
        MisbehaveWords::List { is_verbose } => {
            return match list(alloc, is_verbose, output) {
                Ok(()) => Ok(RunVerdict::Passed),
                Err(fault) => Err(told(&rt, LOOPBACK, fault)),
            };
        }
        MisbehaveWords::Play(words) => words,
    };
    let plays = misbehaviours(alloc)?;
    let entries = entries_of(alloc, plays.as_slice())?;
    let choice = choice_of(words.names.as_slice(), &words.reporting);
    let places = match chosen(alloc, entries.as_slice(), choice) {
        Ok(places) => places,
        Err(ChoiceFault::NoCase(name)) => return Ok(refuse_name(&rt, plays.as_slice(), name)),
        Err(fault) => return refuse_choice(&rt, fault),
    };
    let last = usize::from(words.port)
        .saturating_add(places.len())
        .saturating_sub(1);
    if last > usize::from(u16::MAX) {
        return Ok(refuse_port(&rt, &words, last));
    }
    let recorder = Recorder::open(&rt, alloc, words.tracing, None)?;
    let net = WatchedNet::new(rt, &recorder);
    let verdict = run_chosen(rt, net, alloc, places.as_slice(), &words, is_shown, output);
    end_run(&rt, &recorder, verdict)
}

/// Says that there is no misbehaviour of this name, and which there are.
fn refuse_name<R: Eprint>(rt: &R, plays: &[Misbehaviour], name: &str) -> RunVerdict {
    // The exit status reports it even if nothing can be written here.
    let _said = eprint!(rt; "interop: there is no misbehaviour {name}: all");
    for play in plays {
        let known = play.name;
        let _said = eprint!(rt; ", {known}");
    }
    let _said = eprintln!(rt; "");
    RunVerdict::UnknownCase
}

/// Says that the last of the ports isn't there.
fn refuse_port<R: Eprint>(rt: &R, words: &MisbehaveRun<'_>, last: usize) -> RunVerdict {
    let what = match words.names.as_slice() {
        [name] => *name,
        _ => "this",
    };
    // The exit status reports it even if nothing can be written here.
    let _said = eprintln!(rt; "interop: bad arguments");
    let _said = eprintln!(rt; "interop: {what} needs ports up to {last}, and the last is 65535");
    RunVerdict::UnknownCase
}

/// What can be chosen.
fn entries_of(alloc: Global, plays: &[Misbehaviour]) -> Result<Vec<Entry<'static>>, AllocError> {
    let mut entries = Vec::new(alloc);
    for play in plays {
        entries.push(Entry {
            name: play.name,
            level: Some(Level::Must),
            is_in_all: true,
        })?;
    }
    Ok(entries)
}

fn names_of(alloc: Global, plays: &[Misbehaviour]) -> Result<Vec<&'static str>, AllocError> {
    let mut names = Vec::new(alloc);
    for play in plays {
        names.push(play.name)?;
    }
    Ok(names)
}

/// The misbehaviours at these places.
fn picked(
    alloc: Global,
    plays: &[Misbehaviour],
    places: &[usize],
) -> Result<Vec<Misbehaviour>, AllocError> {
    let mut picked = Vec::new(alloc);
    for place in places {
        if let Some(play) = plays.get(*place) {
            picked.push(*play)?;
        }
    }
    Ok(picked)
}

/// Listens on a port of this network for each of the misbehaviours at these places, and runs them
/// one after another.
// (they are made here once more: a call that passes a network which borrows may pass no type with
// texts of the program's own)
fn run_chosen<R, N, W>(
    rt: R,
    net: N,
    alloc: Global,
    places: &[usize],
    words: &MisbehaveRun<'_>,
    is_shown: bool,
    output: &mut W,
) -> Result<RunVerdict, TrialFault>
where
    R: Files + Eprint + AllocGlobal + Clock + Copy + Drop,
    N: Net + Clock + Copy + Drop,
    W: ConnWrite,
{
    let every = misbehaviours(alloc)?;
    let names = names_of(alloc, every.as_slice())?;
    let plays = picked(alloc, every.as_slice(), places)?;
    let run = Run {
        suite: Suite::Misbehave,
        reporting: &words.reporting,
        names: names.as_slice(),
        chosen: places.len(),
        is_shown: is_shown && !words.tracing.is_shown(),
    };
    let mut sinks = Sinks::open(rt, alloc, run)?;
    let place = PlayPlace {
        host: words.host,
        port: words.port,
        seconds: words.seconds,
    };
    let mut stage = match Stage::open(net, alloc, plays, place) {
        Ok(stage) => stage,
        Err(fault) => return Err(told(&rt, words.host, fault)),
    };
    sinks.say(stage.greeting()?.as_str(), output)?;
    tell_ready(&rt, alloc, &stage, words)?;
    'runs: for _ in 0..words.reporting.repeat {
        for at in 0..places.len() {
            run_play(&mut stage, at, &mut sinks, output)?;
            if sinks.is_over() {
                break 'runs;
            }
        }
    }
    drop(stage);
    Ok(RunVerdict::from(sinks.close(output)?))
}

/// Writes the files that tell that the ports are listened on: the number of the first, and a line
/// with the name and the address of each.
fn tell_ready<R, N>(
    rt: &R,
    alloc: Global,
    stage: &Stage<N>,
    words: &MisbehaveRun<'_>,
) -> Result<(), TrialFault>
where
    R: Files + Eprint,
    N: Net + Clock + Copy + Drop,
{
    if let Some(file) = words.files.port {
        let mut text = String::new(alloc);
        if let Some(first) = stage.address(0) {
            let port = first.port();
            writeln!(text, "{port}")?;
        }
        write_whole(rt, alloc, file, text.as_str())?;
    }
    if let Some(file) = words.files.ready {
        let mut text = String::new(alloc);
        for (at, play) in stage.plays().iter().enumerate() {
            if let Some(address) = stage.address(at) {
                let name = play.name;
                writeln!(text, "{name} {address}")?;
            }
        }
        write_whole(rt, alloc, file, text.as_str())?;
    }
    Ok(())
}

/// Runs the misbehaviour at a place, and prints what the client is to do, and what came of it.
fn run_play<R, N, W>(
    stage: &mut Stage<N>,
    at: usize,
    sinks: &mut Sinks<'_, R>,
    output: &mut W,
) -> Result<(), TrialFault>
where
    R: Files + Eprint + AllocGlobal + Clock + Drop,
    N: Net + Clock + Copy + Drop,
    W: ConnWrite,
{
    sinks.say(stage.heading(at)?.as_str(), output)?;
    if let Some(PlayOutcome { mut outcome, text }) = stage.play(at)? {
        sinks.ended(&mut outcome, output)?;
        sinks.tell(outcome, text.as_bytes(), output)?;
    }
    Ok(())
}

/// Says on standard error why misbehaviours of a host were not run.
fn told<R: Eprint>(rt: &R, host: &str, fault: RunFault) -> TrialFault {
    match fault {
        RunFault::Port(port, error) => {
            // The exit status reports it even if nothing can be written here.
            let _said = if host == LOOPBACK {
                eprintln!(rt; "interop: port {port} can't be had: {error}")
            } else {
                eprintln!(rt; "interop: port {port} of {host} can't be had: {error}")
            };
            TrialFault::Failed
        }
        RunFault::WriteFailed => TrialFault::Failed,
        RunFault::OutOfMemory => TrialFault::OutOfMemory,
    }
}
