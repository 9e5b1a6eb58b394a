//! How many cases ended in which way.

ghost use Rattle.std.specs.Prelude.{◌≡◌, ◌++◌, OnOk, count_by, string_bytes};
ghost use Rattle.results.specs.Summaries.{
  CountsLevels,
  CountsOnce,
  counted,
  fails_at,
  first_counts,
  is_found,
  levels_of,
  levels_text,
  other_counts,
  stands,
  summary_line,
};
ghost use Rattle.results.specs.Summaries as whole;

use crate::outcome::Outcome;
use crate::standing::{Standing, failure_count};
use crate::words::{Level, Suite, Verdict};
use std::alloc::AllocError;

/// How many cases of a run ended in which way. Each case is counted in one of the fields but
/// `cases` and those of levels.
#[derive(Clone, Copy)]
pub struct Summary {
    pub cases: usize,
    pub ok: usize,
    /// Those that failed and aren't known to, of any level, and those of each level among them.
    pub failed: usize,
    pub failed_must: usize,
    pub failed_should: usize,
    pub failed_ours: usize,
    pub unsteady: usize,
    pub not_tested: usize,
    pub not_applicable: usize,
    /// Known failures, whatever their verdict.
    pub known: usize,
    /// Those that are on the list of known failures and no longer fail.
    pub mended: usize,
    /// How many of the cases fail the run.
    pub failing: usize,
}

/// How many outcomes have this verdict, where the list of known failures says nothing of them.
fn count_of(outcomes: &[Outcome], verdict: Verdict) -> usize
    ensures { result ≡ count_by (is_found verdict) outcomes.now }
{
    outcomes
        .iter()
        .filter(|outcome| outcome.standing() == Standing::AsFound && outcome.verdict == verdict)
        .count()
}

/// How many outcomes have this standing.
fn standing_count(outcomes: &[Outcome], standing: Standing) -> usize
    ensures { result ≡ count_by (stands standing) outcomes.now }
{
    outcomes
        .iter()
        .filter(|outcome| outcome.standing() == standing)
        .count()
}

/// How many outcomes of this level failed, and aren't known to.
fn failures(outcomes: &[Outcome], level: Level) -> usize
    ensures { result ≡ count_by (fails_at level) outcomes.now }
{
    outcomes
        .iter()
        .filter(|outcome| {
            outcome.standing() == Standing::AsFound
                && outcome.verdict == Verdict::Failed
                && outcome.level == Some(level)
        })
        .count()
}

/// The summary of a run.
pub fn summary_of(outcomes: &[Outcome]) -> Summary
    ensures exact { result ≡ whole.summary_of outcomes.now }
    ensures once { CountsOnce result }
    ensures levels { CountsLevels result }
{
    Summary {
        cases: outcomes.len(),
        ok: count_of(outcomes, Verdict::Ok),
        failed: count_of(outcomes, Verdict::Failed),
        failed_must: failures(outcomes, Level::Must),
        failed_should: failures(outcomes, Level::Should),
        failed_ours: failures(outcomes, Level::Ours),
        unsteady: count_of(outcomes, Verdict::Unsteady),
        not_tested: count_of(outcomes, Verdict::NotTested),
        not_applicable: count_of(outcomes, Verdict::NotApplicable),
        known: standing_count(outcomes, Standing::Known),
        mended: standing_count(outcomes, Standing::Mended),
        failing: failure_count(outcomes),
    }
}

/// Adds `, COUNT WHAT`, where the count isn't 0.
fn push_count(text: &mut String, count: usize, what: &str) -> Result<(), AllocError>
    ensures { OnOk result
        (string_bytes text.new ≡ string_bytes text.old ++ counted count what.now) }
{
    if count == 0 {
        return Ok(());
    }
    write!(text, ", {count} {what}")
}

/// Adds how many failed at which level, where one has a level.
fn push_levels(text: &mut String, summary: &Summary) -> Result<(), AllocError>
    ensures { OnOk result (string_bytes text.new
        ≡ string_bytes text.old ++ levels_text summary.now) }
{
    let Summary {
        failed_must,
        failed_should,
        failed_ours,
        ..
    } = *summary;
    if failed_must == 0 && failed_should == 0 && failed_ours == 0 {
        return Ok(());
    }
    write!(
        text,
        " ({failed_must} must, {failed_should} should, {failed_ours} ours)"
    )
}

/// Adds how many failed at which level, where the suite has cases of several.
fn push_levels_of(text: &mut String, suite: Suite, summary: &Summary) -> Result<(), AllocError>
    ensures { OnOk result (string_bytes text.new
        ≡ string_bytes text.old ++ levels_of suite summary.now) }
{
    match suite {
        Suite::Wire => push_levels(text, summary),
        _ => Ok(()),
    }
}

/// Adds how many cases there are, are ok, and failed.
fn push_first(text: &mut String, suite: Suite, summary: &Summary) -> Result<(), AllocError>
    ensures { OnOk result (string_bytes text.new
        ≡ string_bytes text.old ++ first_counts suite summary.now) }
{
    let name = suite.name();
    let Summary {
        cases,
        ok,
        failed,
        ..
    } = *summary;
    let noun = if cases == 1 { "case" } else { "cases" };
    write!(text, "{name}: {cases} {noun}, {ok} ok, {failed} failed")?;
    push_levels_of(text, suite, summary)
}

/// Adds how many cases are neither ok nor failed.
fn push_others(text: &mut String, summary: &Summary) -> Result<(), AllocError>
    ensures { OnOk result (string_bytes text.new
        ≡ string_bytes text.old ++ other_counts summary.now) }
{
    push_count(text, summary.unsteady, "unsteady")?;
    push_count(text, summary.not_tested, "not tested")?;
    push_count(text, summary.not_applicable, "not applicable")?;
    push_count(text, summary.known, "known to fail")?;
    push_count(text, summary.mended, "no longer failing")
}

/// Adds the last line of a run: `wire: 407 cases, 390 ok, 3 failed (1 must, 2 should, 0 ours), 1
/// unsteady, 13 not applicable in 12345 ms`. The numbers of ok and failed cases are always there,
/// the others if they aren't 0, and the levels if a case of `wire` failed.
pub fn push_summary(
    text: &mut String,
    suite: Suite,
    summary: &Summary,
    milliseconds: u64,
) -> Result<(), AllocError>
    ensures { OnOk result (string_bytes text.new
        ≡ string_bytes text.old ++ summary_line suite summary.now milliseconds) }
{
    push_first(text, suite, summary)?;
    push_others(text, summary)?;
    writeln!(text, " in {milliseconds} ms")
}
