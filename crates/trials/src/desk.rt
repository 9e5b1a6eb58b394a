//! Wire cases that have ended, in any order, and are reported in their own.

use crate::trial::TrialFault;
use device::ConnWrite;
use sinks::{Form, Sinks};
use std::alloc::Global;
use std::rt::Files;
use std::time::Clock;
use wire::{Case, CaseOutcome, WireFault, lost_outcome, lost_text, text_of};

/// Why nothing more is run of a server that a case has ended.
pub(crate) const NO_ANSWER: &str = "the server answers no more";

/// How a run of cases ended.
#[derive(Drop)]
pub(crate) enum Round {
    /// All were run.
    Done,
    /// One failed, and that is enough.
    Enough,
    /// The server answers no more.
    Dead,
    /// There was no connection for a case, for this reason.
    Lost(String),
}

/// A case that couldn't be tested.
#[derive(Drop)]
struct UntestedCase {
    place: usize,
    why: String,
}

/// The cases of a run that have ended, by their places, until they are reported in order.
#[derive(Drop)]
pub(crate) struct Desk {
    alloc: Global,
    waiting: Vec<Option<CaseOutcome>>,
    /// The place of the case that is reported next.
    next: usize,
    is_verbose: bool,
    /// Whether one failed and that is enough.
    is_enough: bool,
    /// Whether a case has ended the server, and whether it fails the run by itself.
    is_dead: bool,
    is_failed: bool,
    lost: Option<UntestedCase>,
}

impl Desk {
    /// One for these cases, none of which has ended.
    pub(crate) fn new(alloc: Global, cases: &[Case], is_verbose: bool) -> Result<Desk, TrialFault> {
        let mut waiting = Vec::new(alloc);
        for _ in cases {
            waiting.push(None)?;
        }
        Ok(Desk {
            alloc,
            waiting,
            next: 0,
            is_verbose,
            is_enough: false,
            is_dead: false,
            is_failed: false,
            lost: None,
        })
    }

    /// Whether no more cases are run.
    pub(crate) fn is_over(&self) -> bool {
        self.is_enough || self.is_dead || self.lost.is_some()
    }

    /// How the run ended.
    pub(crate) fn round(self) -> Round {
        let Desk {
            is_dead,
            is_enough,
            lost,
            ..
        } = self;
        if is_dead {
            return Round::Dead;
        }
        match lost {
            Some(lost) => Round::Lost(lost.why),
            None if is_enough => Round::Enough,
            None => Round::Done,
        }
    }

    /// Takes the outcome of the case at a place, and reports the cases whose turn it is.
    pub(crate) fn take<R, W>(
        &mut self,
        place: usize,
        answer: Result<CaseOutcome, WireFault>,
        sinks: &mut Sinks<'_, R>,
        output: &mut W,
    ) -> Result<(), TrialFault>
    where
        R: Files + Clock + Eprint + AllocGlobal + Drop,
        W: ConnWrite,
    {
        match answer {
            Ok(ended) => self.put(place, ended, sinks, output),
            Err(WireFault::NoConnection(why)) => {
                self.lost = Some(UntestedCase { place, why });
                Ok(())
            }
            Err(fault) => Err(TrialFault::from(fault)),
        }
    }

    /// Takes a case that was run, and reports the cases whose turn it is.
    fn put<R, W>(
        &mut self,
        place: usize,
        mut ended: CaseOutcome,
        sinks: &mut Sinks<'_, R>,
        output: &mut W,
    ) -> Result<(), TrialFault>
    where
        R: Files + Clock + Eprint + AllocGlobal + Drop,
        W: ConnWrite,
    {
        sinks.ended(&mut ended.outcome, output)?;
        self.is_enough = sinks.is_over();
        self.is_dead = !ended.is_alive;
        self.is_failed = ended.outcome.fails_the_run();
        if let Some(slot) = self.waiting.as_mut_slice().get_mut(place) {
            *slot = Some(ended);
        }
        for _ in self.next..self.waiting.len() {
            let Some(ended) = self.next_ended() else {
                break;
            };
            self.tell(ended, sinks, output)?;
        }
        Ok(())
    }

    /// The case whose turn it is, if it has ended.
    fn next_ended(&mut self) -> Option<CaseOutcome> {
        let ended = self.waiting.as_mut_slice().get_mut(self.next)?.take()?;
        self.next = self.next.saturating_add(1);
        Some(ended)
    }

    /// Reports the cases that have ended, though others before them have not, and one that couldn't
    /// be tested: if a case has ended the server, the first that wasn't run, or else the last,
    /// unless that one fails the run by itself.
    pub(crate) fn tell_rest<R, W>(
        &mut self,
        cases: &[Case],
        sinks: &mut Sinks<'_, R>,
        output: &mut W,
    ) -> Result<(), TrialFault>
    where
        R: Files + Clock + Eprint + AllocGlobal + Drop,
        W: ConnWrite,
    {
        let is_told = self.is_failed && self.next >= self.waiting.len();
        if self.is_dead && !is_told {
            let last = self.waiting.len().saturating_sub(1);
            let why = String::from_str(self.alloc, NO_ANSWER)?;
            self.lost = Some(UntestedCase {
                place: self.next.min(last),
                why,
            });
        }
        for _ in self.next..self.waiting.len() {
            match self.next_ended() {
                Some(ended) => self.tell(ended, sinks, output)?,
                None => self.next = self.next.saturating_add(1),
            }
        }
        self.tell_lost(cases, sinks, output)
    }

    /// Reports the outcome of a case.
    fn tell<R, W>(
        &self,
        ended: CaseOutcome,
        sinks: &mut Sinks<'_, R>,
        output: &mut W,
    ) -> Result<(), TrialFault>
    where
        R: Files + Clock + Eprint + AllocGlobal + Drop,
        W: ConnWrite,
    {
        let text = text_of(self.alloc, &ended, self.is_verbose)?;
        let CaseOutcome { outcome, .. } = ended;
        sinks.tell(outcome, text.as_bytes(), output)?;
        Ok(())
    }

    /// Reports a case that couldn't be tested. If none had a connection, only standard error has
    /// the text of that.
    fn tell_lost<R, W>(
        &self,
        cases: &[Case],
        sinks: &mut Sinks<'_, R>,
        output: &mut W,
    ) -> Result<(), TrialFault>
    where
        R: Files + Clock + Eprint + AllocGlobal + Drop,
        W: ConnWrite,
    {
        let Some(lost) = &self.lost else {
            return Ok(());
        };
        let Some(case) = cases.get(lost.place) else {
            return Ok(());
        };
        let mut outcome = lost_outcome(self.alloc, case, lost.why.as_str())?;
        let text = lost_text(self.alloc, &outcome)?;
        sinks.lost(&mut outcome, output)?;
        if sinks.form == Form::Text && sinks.outcomes.is_empty() {
            sinks.keep(outcome)?;
        } else {
            sinks.tell(outcome, text.as_bytes(), output)?;
        }
        Ok(())
    }
}
