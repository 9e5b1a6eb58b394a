//! A run of a test case over a connection of its own, and what came of it.

ghost use Rattle.std.specs.Prelude.{◌≡◌, Err, IfOk, OnOk, map};
ghost use Rattle.std.specs.Io.KnownBytes.{Appends};
ghost use Rattle.cases.specs.Names.{IsNoName};
ghost use Rattle.cases.specs.declared.fault.CaseFault.TheVariants.{UnknownCase};
ghost use Rattle.trials.specs.Verdicts.{verdict_by, verdict_on};
ghost use Rattle.results.specs.Summaries.{summary_line, summary_of};

use crate::captured_conn::{Bytes, CapturedConn};
use crate::connecting::{ServerPlace, connect};
use cases::{Case, CaseFault, Failure, Limit, ReportFault, TimedConn, Windows};
use device::{ConnWrite, write_all};
use recorder::{Recorder, look_at_server};
use results::{Level, Outcome, Rule, Suite, Verdict, push_summary, summary_of};
use std::alloc::{AllocError, Global};
use std::io;
use std::net::Net;
use std::sync::{Arc, Wait};
use std::time::{Clock, Duration, Instant};

/// The server that cases are run against, and how.
#[derive(Clone, Copy)]
pub struct Target<'a> {
    pub place: ServerPlace<'a>,
    /// How many seconds a case may take; at least 1.
    pub patience: u16,
    pub windows: Windows,
    /// Where it is written what passes, if it is.
    pub recorder: &'a Option<Arc<Recorder>>,
}

/// What came of a run.
#[derive(Drop)]
pub(crate) struct Attempt {
    /// Why it failed, if it did.
    pub(crate) failure: Option<Failure>,
    /// The bytes of its connection, where there was one.
    pub(crate) bytes: Option<Bytes>,
    /// How long it took.
    pub(crate) milliseconds: u64,
}

/// Runs a case over a connection that it makes: the time for both is one.
pub(crate) fn connect_and_run<R>(rt: &R, name: &str, target: Target<'_>) -> Attempt
where
    R: Net + Wait + Clock + Eprint + AllocGlobal + Copy + Drop,
{
    let alloc = rt.alloc();
    let whole = Duration::from_secs(u64::from(target.patience));
    let Ok(limit) = Limit::begin(rt, whole) else {
        return unmade(Failure::unconnected(alloc, "the clock can't be read"), 0);
    };
    let stream = match connect(rt, alloc, target.place, limit) {
        Ok(stream) => stream,
        Err(failure) => return unmade(failure, milliseconds_of(limit.spent(rt))),
    };
    let line = look_at_server(*rt, target.recorder, stream, name);
    let mut kept = CapturedConn::new(alloc, line);
    let line = TimedConn::new(rt, &mut kept, limit);
    let failure = cases::run_case(alloc, name, line, target.windows).err();
    let CapturedConn { stream, bytes } = kept;
    if let (Some(eye), Some(failure)) = (stream.tap(), &failure) {
        eye.fault(failure.note.as_str());
    }
    Attempt {
        failure,
        bytes: Some(bytes),
        milliseconds: milliseconds_of(limit.spent(rt)),
    }
}

/// What came of a run that had no connection.
fn unmade(failure: Failure, milliseconds: u64) -> Attempt {
    Attempt {
        failure: Some(failure),
        bytes: None,
        milliseconds,
    }
}

pub(crate) fn milliseconds_of(time: Duration) -> u64 {
    u64::try_from(time.as_millis()).unwrap_or(u64::MAX)
}

/// Runs a case over a connection of its own. Where it fails, a line on standard error says why.
pub(crate) fn try_case<R>(rt: &R, name: &str, target: Target<'_>) -> Result<(), CaseFault>
where
    R: Net + Wait + Clock + Eprint + AllocGlobal + Copy + Drop,
    ensures unknown { IsNoName name.now → result ≡ Err UnknownCase }
{
    if Case::named(name).is_none() {
        return Err(CaseFault::UnknownCase);
    }
    let Attempt { failure, .. } = connect_and_run(rt, name, target);
    let Some(failure) = failure else {
        return Ok(());
    };
    // The line that is printed reports the fault even if nothing can be written here.
    let note = failure.note.as_str();
    let _said = eprintln!(rt; "{name}: {note}");
    Err(failure.fault)
}

/// What came of a case that was run once, by the model of results.
pub(crate) fn outcome_of(
    alloc: Global,
    name: &str,
    attempt: Attempt,
) -> Result<Outcome, AllocError> {
    let Attempt {
        failure,
        bytes,
        milliseconds,
    } = attempt;
    let mut outcome = outcome_by(alloc, Suite::Case, name, fault_of(&failure))?;
    outcome.milliseconds = milliseconds;
    if let Some(failure) = failure {
        explain(alloc, &mut outcome, &failure)?;
    }
    if let Some(bytes) = bytes {
        outcome.sent_count = Some(bytes.sent_count);
        outcome.read_count = Some(bytes.read_count);
        outcome.sent = Some(bytes.sent);
        outcome.read = Some(bytes.read);
    }
    Ok(outcome)
}

/// The fault of a failure, if there is one.
pub(crate) fn fault_of(failure: &Option<Failure>) -> Option<CaseFault> {
    match failure {
        Some(failure) => Some(failure.fault),
        None => None,
    }
}

/// What came of a case that failed with this fault, or passed.
pub fn outcome_by(
    alloc: Global,
    suite: Suite,
    name: &str,
    fault: Option<CaseFault>,
) -> Result<Outcome, AllocError>
    ensures { IfOk result (λ outcome. outcome.verdict ≡ verdict_by fault) }
{
    let verdict = match fault {
        None => Verdict::Ok,
        Some(_) => Verdict::Failed,
    };
    let mut outcome = Outcome::new(alloc, suite, name, verdict)?;
    outcome.level = Some(Level::Must);
    outcome.passed = u32::from(fault.is_none());
    outcome.fault = fault.map(|fault| fault.code());
    Ok(outcome)
}

/// How many milliseconds have passed since then: 0 where the clock couldn't be read.
pub fn passed_since(clock: &impl Clock, begun: io::Result<Instant>) -> u64 {
    match begun.and_then(|begun| begun.elapsed(clock)) {
        Ok(passed) => milliseconds_of(passed),
        Err(_) => 0,
    }
}

/// Prints the line that says how many cases ended in which way.
pub fn print_summary<W: ConnWrite>(
    alloc: Global,
    suite: Suite,
    outcomes: &[Outcome],
    milliseconds: u64,
    output: &mut W,
) -> Result<(), ReportFault>
    ensures { OnOk result (Appends (W.contents output.old) (W.contents output.new)
        (summary_line suite (summary_of outcomes.now) milliseconds)) }
{
    let mut line = String::new(alloc);
    push_summary(&mut line, suite, &summary_of(outcomes), milliseconds)?;
    write_all(output, line.as_bytes())?;
    Ok(())
}

/// What came of cases, by the model of results.
pub fn outcomes_of(
    alloc: Global,
    suite: Suite,
    ended: &[cases::Outcome],
) -> Result<Vec<Outcome>, AllocError>
    ensures { IfOk result (λ outcomes. map (λ outcome. outcome.verdict) outcomes.items
        ≡ map verdict_on ended.now) }
{
    let mut outcomes = Vec::new(alloc);
    for one in ended {
        outcomes.push(outcome_by(alloc, suite, one.case.name(), one.answer.err())?)?;
    }
    Ok(outcomes)
}

/// Adds what a failure says.
fn explain(alloc: Global, outcome: &mut Outcome, failure: &Failure) -> Result<(), AllocError> {
    let said = failure.said();
    if said.wanted.is_empty() {
        outcome.reason = Some(String::from_str(alloc, failure.note.as_str())?);
    } else {
        outcome.came = Some(String::from_str(alloc, said.came)?);
        outcome.wanted = Some(String::from_str(alloc, said.wanted)?);
    }
    if !said.rule.is_empty() {
        outcome.rule = Some(Rule {
            place: String::from_str(alloc, said.rule)?,
            sentence: None,
        });
    }
    Ok(())
}
