//! The list of known failures after a run of some of the cases.
//!
//! It is made anew: each case that failed or is unsteady has one line, also one that was run
//! several times, and known failures that were not run stay after these. Reasons stay. It has no
//! comments: a caller that keeps those of the old list writes them before it.

ghost use Rattle.std.specs.Prelude.{◌≡◌, ◌||◌, ◌++◌, [], ◌∷◌, IfOk, OnOk, map, string_bytes};
ghost use Rattle.std.specs.List.{filter_map, flat_map, list_any};
ghost use Rattle.results.specs.KnownList.{entry, has_name};
ghost use Rattle.results.specs.Renewals.{
  HaveOwnNames,
  entry_after,
  failed_entries,
  failed_entry,
  is_of,
  is_ok_of,
  line_of,
  list_text,
  listing,
  reason_of,
  renewal,
  unrun_entry,
  with_entries,
  with_entry,
};

use crate::cause::cause_text;
use crate::known_failure::KnownFailure;
use crate::outcome::Outcome;
use crate::words::{Suite, Verdict};
use std::alloc::{AllocError, Global};

/// Whether a case may pass too, if it may fail by what was known and what came of it.
fn listing(outcome: &Outcome) -> Option<bool>
    ensures { result ≡ listing outcome.now.known outcome.now.suite outcome.now.verdict }
{
    if let Some(known) = &outcome.known {
        if known.is_unsteady {
            return Some(true);
        }
    }
    match (outcome.suite, outcome.verdict) {
        (_, Verdict::Failed) => Some(false),
        (_, Verdict::Unsteady) => Some(true),
        (Suite::Misbehave, Verdict::NotTested) => Some(false),
        _ => None,
    }
}

/// Why a case may fail: the reason of one that is known stays.
fn reason_of(alloc: Global, outcome: &Outcome) -> Result<String, AllocError>
    ensures { IfOk result (λ reason. string_bytes reason
        ≡ reason_of outcome.now outcome.now.known) }
{
    match &outcome.known {
        Some(known) => String::from_str(alloc, known.reason.as_str()),
        None => cause_text(alloc, outcome),
    }
}

/// Whether an outcome is one of the case with this name.
fn is_of(outcome: &Outcome, name: &str) -> bool
    ensures { result ≡ is_of name.now outcome.now }
{
    outcome.name.as_str() == name
}

/// Whether an outcome is one of the case with this name, and ok.
fn is_ok_of(outcome: &Outcome, name: &str) -> bool
    ensures { result ≡ is_ok_of name.now outcome.now }
{
    is_of(outcome, name) && outcome.verdict == Verdict::Ok
}

/// Whether the case with this name was run.
fn was_run(outcomes: &[Outcome], name: &str) -> bool
    ensures { result ≡ list_any (is_of name.now) outcomes.now }
{
    outcomes.iter().any(|outcome| is_of(outcome, name))
}

/// Whether the case with this name was ok in one of its runs.
fn was_ok(outcomes: &[Outcome], name: &str) -> bool
    ensures { result ≡ list_any (is_ok_of name.now) outcomes.now }
{
    outcomes.iter().any(|outcome| is_ok_of(outcome, name))
}

/// What the list says of the case of an outcome.
fn known_after(
    alloc: Global,
    outcomes: &[Outcome],
    outcome: &Outcome,
    is_unsteady: bool,
) -> Result<KnownFailure, AllocError>
    ensures { IfOk result (λ known. entry known
        ≡ entry_after outcomes.now outcome.now is_unsteady) }
{
    Ok(KnownFailure {
        name: String::from_str(alloc, outcome.name.as_str())?,
        reason: reason_of(alloc, outcome)?,
        is_unsteady: is_unsteady || was_ok(outcomes, outcome.name.as_str()),
    })
}

/// Whether the list has a line of this name.
fn is_listed(all: &[KnownFailure], name: &str) -> bool
    ensures { result ≡ list_any (has_name name.now) all.now }
{
    all.iter().any(|known| known.name.as_str() == name)
}

/// Adds a known failure, unless there is one of its name.
fn push_new(all: &mut Vec<KnownFailure>, next: KnownFailure) -> Result<(), AllocError>
    ensures { OnOk result (map entry all.new.items
        ≡ with_entry (map entry all.old.items) (entry next)) }
{
    if is_listed(all.as_slice(), next.name.as_str()) {
        return Ok(());
    }
    all.push(next)?;
    Ok(())
}

/// Adds the case of an outcome, where it belongs on the list.
fn push_failed(
    alloc: Global,
    all: &mut Vec<KnownFailure>,
    outcomes: &[Outcome],
    outcome: &Outcome,
) -> Result<(), AllocError>
    ensures { OnOk result (map entry all.new.items
        ≡ with_entries (map entry all.old.items)
        (filter_map (failed_entry outcomes.now) (outcome.now ∷ []))) }
{
    let Some(is_unsteady) = listing(outcome) else {
        return Ok(());
    };
    let next = known_after(alloc, outcomes, outcome, is_unsteady)?;
    push_new(all, next)
}

/// Adds a known failure, where its case was not run.
fn push_unrun(
    alloc: Global,
    all: &mut Vec<KnownFailure>,
    outcomes: &[Outcome],
    known: &KnownFailure,
) -> Result<(), AllocError>
    ensures { OnOk result (map entry all.new.items
        ≡ with_entries (map entry all.old.items)
        (filter_map (unrun_entry outcomes.now) (known.now ∷ []))) }
{
    if was_run(outcomes, known.name.as_str()) {
        return Ok(());
    }
    let next = known.copy(alloc)?;
    push_new(all, next)
}

/// The cases that were run and belong on the list.
fn failed(alloc: Global, outcomes: &[Outcome]) -> Result<Vec<KnownFailure>, AllocError>
    ensures { IfOk result (λ all. map entry all.items ≡ failed_entries outcomes.now) }
{
    let mut all = Vec::new(alloc);
    for outcome in outcomes {
        push_failed(alloc, &mut all, outcomes, outcome)?;
    }
    Ok(all)
}

/// Adds the known failures whose cases were not run.
fn push_others(
    alloc: Global,
    all: &mut Vec<KnownFailure>,
    known: &[KnownFailure],
    outcomes: &[Outcome],
) -> Result<(), AllocError>
    ensures { OnOk result (map entry all.new.items
        ≡ with_entries (map entry all.old.items)
        (filter_map (unrun_entry outcomes.now) known.now)) }
{
    for other in known {
        push_unrun(alloc, all, outcomes, other)?;
    }
    Ok(())
}

/// Adds the line of a known failure.
#[tactic(auto, unfolding(crate::specs::Renewals::line_of))]
fn push_line(text: &mut String, known: &KnownFailure) -> Result<(), AllocError>
    ensures { OnOk result (string_bytes text.new
        ≡ string_bytes text.old ++ line_of (entry known.now)) }
{
    let sometimes = if known.is_unsteady { "sometimes " } else { "" };
    text.push_str(known.name.as_str())?;
    text.push_str("  ")?;
    text.push_str(sometimes)?;
    text.push_str(known.reason.as_str())?;
    text.push_str("\n")
}

/// The lines of known failures.
fn lines_of(alloc: Global, all: &[KnownFailure]) -> Result<String, AllocError>
    ensures { IfOk result (λ text. string_bytes text
        ≡ flat_map (λ known. line_of (entry known)) all.now) }
{
    let mut text = String::new(alloc);
    for known in all {
        push_line(&mut text, known)?;
    }
    Ok(text)
}

/// The list after a run: the cases that failed or are unsteady, in their order, and then those that
/// were known and were not run.
pub fn renewed(
    alloc: Global,
    known: &[KnownFailure],
    outcomes: &[Outcome],
) -> Result<String, AllocError>
    ensures lines { IfOk result (λ text. string_bytes text
        ≡ list_text (renewal known.now outcomes.now)) }
    ensures once { IfOk result (λ _. HaveOwnNames (renewal known.now outcomes.now)) }
{
    let mut all = failed(alloc, outcomes)?;
    push_others(alloc, &mut all, known, outcomes)?;
    lines_of(alloc, all.as_slice())
}
