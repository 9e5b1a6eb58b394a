//! What is said of an outcome beside a list of known failures, and whether it fails the run.

ghost use Rattle.std.specs.Prelude.{◌≡◌, count_by};
ghost use Rattle.std.specs.List.{list_any};
ghost use Rattle.results.specs.Standings.{fails_alone, fails_the_run, standing_of};

use crate::outcome::Outcome;
use crate::words::{Level, Suite, Verdict};

/// What is said of an outcome beside a list of known failures.
#[derive(Clone, Copy, Debug, PartialEq, Eq)]
pub enum Standing {
    /// The list says nothing of it: its verdict counts.
    AsFound,
    /// It is a known failure.
    Known,
    /// It is on the list and doesn't fail any more.
    Mended,
}

impl Outcome {
    /// What is said of it beside the list of known failures.
    pub fn standing(&self) -> Standing
        ensures { result ≡ standing_of self.now }
    {
        let Some(known) = &self.known else {
            return Standing::AsFound;
        };
        match self.verdict {
            Verdict::Failed | Verdict::Unsteady | Verdict::NotTested => Standing::Known,
            Verdict::Ok if known.is_unsteady => Standing::AsFound,
            Verdict::Ok => Standing::Mended,
            Verdict::NotApplicable => Standing::AsFound,
        }
    }

    /// Whether it would fail the run if no failure were known.
    pub fn fails_alone(&self) -> bool
        ensures { result ≡ fails_alone self.now }
    {
        match (self.suite, self.verdict) {
            (Suite::Wire, Verdict::Failed) => matches!(self.level, Some(Level::Must)),
            (_, Verdict::Failed | Verdict::NotTested) => true,
            _ => false,
        }
    }

    /// Whether it fails the run.
    pub fn fails_the_run(&self) -> bool
        ensures { result ≡ fails_the_run self.now }
    {
        match self.standing() {
            Standing::AsFound => self.fails_alone(),
            Standing::Known => false,
            Standing::Mended => true,
        }
    }
}

/// Whether an outcome fails the run.
pub fn fail_the_run(outcomes: &[Outcome]) -> bool
    ensures { result ≡ list_any fails_the_run outcomes.now }
{
    outcomes.iter().any(|outcome| outcome.fails_the_run())
}

/// How many outcomes fail the run.
pub(crate) fn failure_count(outcomes: &[Outcome]) -> usize
    ensures { result ≡ count_by fails_the_run outcomes.now }
{
    outcomes
        .iter()
        .filter(|outcome| outcome.fails_the_run())
        .count()
}
