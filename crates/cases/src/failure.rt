//! Why a run failed, in a form to print.

ghost use Rattle.std.specs.Prelude.{◌≡◌};
ghost use Rattle.cases.specs.Faults.{number_of};
ghost use Rattle.cases.specs.declared.fault.CaseFault.TheVariants.{StreamFailed};

use crate::fault::{CaseFault, Fault};
use std::alloc::Global;

/// Why a run failed.
#[derive(Drop)]
pub struct Failure {
    /// The fault, by which programs know it.
    pub fault: CaseFault,
    /// What came, what was wanted, and the section of the standard, in a line without its end. It
    /// is cut where there is no memory for it.
    pub note: String,
}

/// What a failure's note says.
#[derive(Clone, Copy)]
pub struct FailureNote<'a> {
    /// What came.
    pub came: &'a str,
    /// What was wanted, where it says that.
    pub wanted: &'a str,
    /// The sections of the standard, where it names some.
    pub rule: &'a str,
}

impl Failure {
    /// The parts of the note.
    pub fn said(&self) -> FailureNote<'_> {
        let (told, rule) = rule_of(self.note.as_str());
        let (came, wanted) = told.split_once(", wanted ").unwrap_or((told, ""));
        FailureNote { came, wanted, rule }
    }

    /// That there is no connection, for this reason.
    pub fn unconnected(alloc: Global, why: &str) -> Failure
        ensures { result.fault ≡ StreamFailed }
    {
        let mut note = String::new(alloc);
        let _written = write!(note, "{why}");
        Failure {
            fault: CaseFault::StreamFailed,
            note,
        }
    }

    pub fn of(alloc: Global, fault: &Fault) -> Failure
        ensures { result.fault ≡ number_of fault.now }
    {
        let mut note = String::new(alloc);
        // The number reports the fault even if there is no memory for its line.
        let _written = write!(note, "{fault}");
        Failure {
            fault: fault.case_fault(),
            note,
        }
    }
}

/// A note without the sections that it ends with in parentheses, and these.
fn rule_of(note: &str) -> (&str, &str) {
    let Some((told, sections)) = note.rsplit_once(" (") else {
        return (note, "");
    };
    match sections.strip_suffix(")") {
        Some(rule) if rule.starts_with("RFC ") || rule.starts_with("gRPC") => (told, rule),
        _ => (note, ""),
    }
}
