//! The results of test cases, and the forms in which a build reads them. It says what came of each
//! case, and which of them fail a run.
//!
//! - `outcome`, `words`: what came of a case, and the words for it.
//! - `standing`: what is said of an outcome beside a list of known failures, and whether it fails
//!   the run.
//! - `known_failure`: that list, as it is read from a file; `renewal`: the one after a run, as it
//!   is written to one.
//! - `pattern`, `choice`: which cases a command line chooses by their names.
//! - `summary`: how many cases ended in which way, and the line that says so.
//! - `cause`: why a case isn't ok, in one line, and in more.
//! - `json`, `junit`, `tap`: the forms (RFC 8259, JSON Lines; JUnit's XML; the Test Anything
//!   Protocol, version 14).
//! - `xml`: texts in XML.
#![tactic(auto)]

mod cause;
mod choice;
mod json;
mod junit;
mod known_failure;
mod outcome;
mod pattern;
mod renewal;
mod standing;
mod summary;
mod tap;
mod words;
mod xml;

pub use cause::{push_cause, push_details};
pub use choice::{Choice, ChoiceFault, Entry, chosen};
pub use json::{json_line, json_summary};
pub use junit::push_junit;
pub use known_failure::{KnownFailure, KnownFault, KnownReason, known_named, read_known, stray};
pub use outcome::{Outcome, Rule};
pub use pattern::is_match;
pub use renewal::renewed;
pub use standing::{Standing, fail_the_run};
pub use summary::{Summary, push_summary, summary_of};
pub use tap::{TAP_VERSION, push_plan, push_tap};
pub use words::{Level, Suite, Verdict};
