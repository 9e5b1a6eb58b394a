//! A case: first without its fault, if its lines say so, and then as it is. If that fails it is
//! tried twice more.

use crate::case::Case;
use crate::engine::{Try, TryOutcome, UnfitReason, try_case};
use crate::fault::WireFault;
use crate::outcome::{CaseOutcome, outcome_of};
use crate::report::{push_difference, push_frame_line, push_ways};
use crate::seen_frames::SeenFrame;
use crate::server::{Pace, Server};
use crate::step::{has_control, rounds_of};
use crate::talk::Talk;
use crate::verdict::verdict_of;
use results::{Level, Outcome, Verdict};
use std::alloc::{AllocError, Global};

/// How often a case is tried that fails: what is of this project's profile alone accuses nobody,
/// and is tried once.
fn tries_of(level: Level) -> usize {
    match level {
        Level::Must | Level::Should => 3,
        Level::Ours => 1,
    }
}

/// Runs a case, over connections of its own.
///
/// # Errors
///
/// `NoConnection` if there is none for one of its tries: then there is no verdict.
pub fn run_case<V: Server>(
    alloc: Global,
    case: Case,
    pace: Pace,
    server: &V,
) -> Result<CaseOutcome, WireFault> {
    let begun = server.now().ok_or(WireFault::ClockFailed)?;
    let mut outcome = match unfit_of_control(alloc, case, pace, server)? {
        Some(outcome) => outcome,
        None => find(alloc, case, pace, server, begun)?,
    };
    let is_alive = note_end(alloc, pace, server, begun, &mut outcome)?;
    Ok(CaseOutcome {
        case,
        outcome,
        is_alive,
    })
}

/// Notes how long a case took that began then, and answers whether the server still answers: that
/// is tried if the case failed.
fn note_end<V: Server>(
    alloc: Global,
    pace: Pace,
    server: &V,
    begun: u64,
    outcome: &mut Outcome,
) -> Result<bool, WireFault> {
    outcome.milliseconds = spent(server, begun)?;
    match outcome.verdict {
        Verdict::Failed => is_alive(alloc, pace, server),
        _ => Ok(true),
    }
}

/// How many milliseconds have passed since then.
fn spent<V: Server>(server: &V, begun: u64) -> Result<u64, WireFault> {
    let now = server.now().ok_or(WireFault::ClockFailed)?;
    Ok(now.saturating_sub(begun))
}

/// Tries a case without its fault, if its lines say so, and answers what came of it where that
/// fails already.
fn unfit_of_control<V: Server>(
    alloc: Global,
    case: Case,
    pace: Pace,
    server: &V,
) -> Result<Option<Outcome>, WireFault> {
    if !has_control(case.script) {
        return Ok(None);
    }
    let tried = try_case(alloc, case, pace, server, true)?;
    match tried.judgment {
        TryOutcome::Passed => Ok(None),
        TryOutcome::Unfit(unfit) => Ok(Some(unfit_outcome(alloc, case, unfit, tried)?)),
        TryOutcome::Failed => {
            let mut reason = String::from_str(alloc, "without its fault: ")?;
            push_difference(&mut reason, tried.lawful.as_slice(), &tried.seen)?;
            Ok(Some(not_applicable(alloc, case, reason, tried)?))
        }
    }
}

/// Tries a case: once where it passes, and as often as its level asks for where it fails, in the
/// time of the case, which began then. A further try that the end of that time cut short counts for
/// nothing.
fn find<V: Server>(
    alloc: Global,
    case: Case,
    pace: Pace,
    server: &V,
    begun: u64,
) -> Result<Outcome, WireFault> {
    let mut tries = Tries {
        count: 0,
        passed: 0,
        told: None,
    };
    try_case_often(alloc, case, pace, server, begun, &mut tries)?;
    let Tries {
        count,
        passed,
        told,
    } = tries;
    let Some(tried) = told else {
        return Err(WireFault::BadRow);
    };
    match tried.judgment {
        TryOutcome::Unfit(unfit) => unfit_outcome(alloc, case, unfit, tried),
        _ => tried_outcome(alloc, case, count, passed, tried),
    }
}

/// The tries of a case that count.
#[derive(Drop)]
struct Tries {
    count: usize,
    passed: usize,
    /// The one that is reported.
    told: Option<Try>,
}

impl Tries {
    /// Takes a further try, and answers whether it is the last.
    fn take(&mut self, tried: Try) -> bool {
        if matches!(tried.judgment, TryOutcome::Unfit(_)) {
            self.told = Some(tried);
            return true;
        }
        let has_passed = matches!(tried.judgment, TryOutcome::Passed);
        if self.count > 0 && tried.seen.endless && !has_passed {
            return true;
        }
        self.count = self.count.saturating_add(1);
        if has_passed {
            self.passed = self.passed.saturating_add(1);
        }
        let is_over = tried.seen.endless || has_passed && self.count == 1;
        if self.told.is_none() || !has_passed && !has_failed(&self.told) {
            self.told = Some(tried);
        }
        is_over
    }
}

fn try_case_often<V: Server>(
    alloc: Global,
    case: Case,
    pace: Pace,
    server: &V,
    begun: u64,
    tries: &mut Tries,
) -> Result<(), WireFault> {
    for _ in 0..tries_of(case.level) {
        let is_over = tries.take(try_rounds(alloc, case, pace, server, begun)?);
        if is_over || spent(server, begun)? >= pace.limit {
            break;
        }
    }
    Ok(())
}

/// A try of a case whose time began at that moment: over one connection, or over as many as its
/// lines say, up to the first over which it doesn't pass.
fn try_rounds<V: Server>(
    alloc: Global,
    case: Case,
    pace: Pace,
    server: &V,
    begun: u64,
) -> Result<Try, WireFault> {
    for _ in 1..rounds_of(case.script)? {
        let left = pace.after(spent(server, begun)?);
        let tried = try_case(alloc, case, left, server, false)?;
        if !matches!(tried.judgment, TryOutcome::Passed) {
            return Ok(tried);
        }
    }
    let left = pace.after(spent(server, begun)?);
    try_case(alloc, case, left, server, false)
}

/// Whether the try that is reported failed.
fn has_failed(first: &Option<Try>) -> bool {
    match first {
        Some(tried) => matches!(tried.judgment, TryOutcome::Failed),
        None => false,
    }
}

/// The outcome of tries, of which this one is reported.
fn tried_outcome(
    alloc: Global,
    case: Case,
    tries: usize,
    passed: usize,
    tried: Try,
) -> Result<Outcome, WireFault> {
    let mut outcome = outcome_of(alloc, &case, verdict_of(tries, passed))?;
    note_difference(alloc, &mut outcome, &tried)?;
    outcome.tries = count_of(tries);
    outcome.passed = count_of(passed);
    note_sent(&mut outcome, tried);
    Ok(outcome)
}

/// Notes what was wanted, what came, and which frames.
fn note_difference(alloc: Global, outcome: &mut Outcome, tried: &Try) -> Result<(), AllocError> {
    let mut wanted = String::new(alloc);
    push_ways(&mut wanted, tried.lawful.as_slice())?;
    outcome.wanted = Some(wanted);
    let mut came = String::new(alloc);
    tried.seen.describe(&mut came)?;
    outcome.came = Some(came);
    note_frames(alloc, outcome, tried)
}

/// How many tries there were.
fn count_of(tries: usize) -> u32 {
    u32::try_from(tries).unwrap_or(u32::MAX)
}

/// Notes which frames were read in a try.
fn note_frames(alloc: Global, outcome: &mut Outcome, tried: &Try) -> Result<(), AllocError> {
    outcome.frames = frames_of(alloc, tried.seen.frames.as_slice())?;
    Ok(())
}

/// Notes what was sent in a try.
fn note_sent(outcome: &mut Outcome, tried: Try) {
    outcome.sent_count = Some(tried.sent.len() as u64);
    outcome.sent = Some(tried.sent);
}

/// What came of a case that a server can't be tried by.
fn unfit_outcome(
    alloc: Global,
    case: Case,
    unfit: UnfitReason,
    tried: Try,
) -> Result<Outcome, WireFault> {
    let reason = match unfit {
        UnfitReason::Setting(need) => need.describe(alloc, &tried.seen.announced)?,
        UnfitReason::Window(count) => {
            format!(in alloc; "the server's windows have no room for {count} bytes of DATA")?
        }
    };
    not_applicable(alloc, case, reason, tried)
}

/// What came of a case that isn't applicable, for this reason.
fn not_applicable(
    alloc: Global,
    case: Case,
    reason: String,
    tried: Try,
) -> Result<Outcome, WireFault> {
    let mut outcome = outcome_of(alloc, &case, Verdict::NotApplicable)?;
    outcome.reason = Some(reason);
    note_frames(alloc, &mut outcome, &tried)?;
    note_sent(&mut outcome, tried);
    Ok(outcome)
}

/// The frames that were read, in words.
fn frames_of(alloc: Global, frames: &[SeenFrame]) -> Result<Vec<String>, AllocError> {
    let mut lines = Vec::new(alloc);
    for frame in frames {
        let mut line = String::new(alloc);
        push_frame_line(&mut line, frame)?;
        lines.push(line)?;
    }
    Ok(lines)
}

/// Whether the server greets a connection on which nothing else is said. A slow one has the whole
/// time of a connection for it.
fn is_alive<V: Server>(alloc: Global, pace: Pace, server: &V) -> Result<bool, WireFault> {
    match greets(alloc, pace, server) {
        Err(WireFault::NoConnection(_)) => Ok(false),
        answer => answer,
    }
}

fn greets<V: Server>(alloc: Global, pace: Pace, server: &V) -> Result<bool, WireFault> {
    let patient = Pace {
        silence: pace.limit,
        limit: pace.limit,
    };
    let mut talk = Talk::new(alloc, server, server.connect()?, patient)?;
    talk.greet()?;
    Ok(talk.seen.greeted)
}
