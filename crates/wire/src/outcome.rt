//! What came of a case.

use crate::case::Case;
use results::{Outcome, Rule, Suite, Verdict};
use std::alloc::{AllocError, Global};

/// A case that was run.
#[derive(Drop)]
pub struct CaseOutcome {
    pub case: Case,
    pub outcome: Outcome,
    /// Whether the server still answers. This is tried if the case failed.
    pub is_alive: bool,
}

/// What came of a case of which nothing is known but its verdict.
pub fn outcome_of(alloc: Global, case: &Case, verdict: Verdict) -> Result<Outcome, AllocError> {
    let name = case.name(alloc)?;
    let mut outcome = Outcome::new(alloc, Suite::Wire, name.as_str(), verdict)?;
    note_case(alloc, &mut outcome, case)?;
    Ok(outcome)
}

/// Notes what a case is about.
fn note_case(alloc: Global, outcome: &mut Outcome, case: &Case) -> Result<(), AllocError> {
    outcome.title = Some(String::from_str(alloc, case.title)?);
    outcome.level = Some(case.level);
    outcome.rule = Some(rule_of(alloc, case.section)?);
    Ok(())
}

/// What came of a case for which there was no connection, for this reason.
pub fn lost_outcome(alloc: Global, case: &Case, why: &str) -> Result<Outcome, AllocError> {
    let mut outcome = outcome_of(alloc, case, Verdict::NotTested)?;
    outcome.reason = Some(String::from_str(alloc, why)?);
    outcome.tries = 0;
    Ok(outcome)
}

/// What a case rests on: the standard and the section, and what its text has after a colon.
fn rule_of(alloc: Global, section: &str) -> Result<Rule, AllocError> {
    let (place, sentence) = match section.split_once(": ") {
        Some((place, sentence)) => (place, Some(String::from_str(alloc, sentence)?)),
        None => (section, None),
    };
    Ok(Rule {
        place: String::from_str(alloc, place)?,
        sentence,
    })
}
