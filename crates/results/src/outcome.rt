//! What came of a case.

ghost use Rattle.std.specs.Prelude.{◌≡◌, ◌++◌, IfOk, OnOk, option_map, string_bytes};
ghost use Rattle.results.specs.Outcomes.{IsBare, title_note, titled};

use crate::known_failure::KnownFailure;
use crate::words::{Level, Suite, Verdict};
use std::alloc::{AllocError, Global};

/// A rule of a standard.
#[derive(Drop)]
pub struct Rule {
    /// The standard and the section, as `RFC 9113, 6.9.1`.
    pub place: String,
    /// The sentence that binds, where it is known.
    pub sentence: Option<String>,
}

/// What came of a case. What isn't known of it is `None`; a text is one line without its end.
#[derive(Drop)]
pub struct Outcome {
    pub suite: Suite,
    /// Its name, as a command line has it: `grpc/4`, `empty_unary`.
    pub name: String,
    /// What it is about.
    pub title: Option<String>,
    pub verdict: Verdict,
    pub level: Option<Level>,
    /// What it rests on.
    pub rule: Option<Rule>,
    /// What had to come, and what came.
    pub wanted: Option<String>,
    pub came: Option<String>,
    /// Why it isn't ok, where `wanted` and `came` don't say it.
    pub reason: Option<String>,
    /// The fault's number, for programs.
    pub fault: Option<u32>,
    /// How long it took.
    pub milliseconds: u64,
    /// How often it was tried, and how many of the tries passed.
    pub tries: u32,
    pub passed: u32,
    /// The bytes that were sent and read in the try that is reported.
    pub sent: Option<Vec<u8>>,
    pub read: Option<Vec<u8>>,
    /// How many bytes were sent and read.
    pub sent_count: Option<u64>,
    pub read_count: Option<u64>,
    /// The frames that were read, in words.
    pub frames: Vec<String>,
    /// Its line in the list of known failures, where it has one.
    pub known: Option<KnownFailure>,
}

impl Outcome {
    /// One of which nothing is known but its verdict.
    pub fn new(
        alloc: Global,
        suite: Suite,
        name: &str,
        verdict: Verdict,
    ) -> Result<Outcome, AllocError>
        ensures { IfOk result (IsBare suite name.now verdict) }
    {
        Ok(Outcome {
            suite,
            name: String::from_str(alloc, name)?,
            title: None,
            verdict,
            level: None,
            rule: None,
            wanted: None,
            came: None,
            reason: None,
            fault: None,
            milliseconds: 0,
            tries: 1,
            passed: 0,
            sent: None,
            read: None,
            sent_count: None,
            read_count: None,
            frames: Vec::new(alloc),
            known: None,
        })
    }
}

/// The text of a text that may be there.
pub(crate) fn shown(text: &Option<String>) -> Option<&str>
    ensures { option_map (λ shown. shown.now) result ≡ option_map string_bytes text.now }
{
    match text {
        Some(text) => Some(text.as_str()),
        None => None,
    }
}

/// Adds a space and a title, where there is one.
fn push_title(text: &mut String, title: &Option<String>) -> Result<(), AllocError>
    ensures { OnOk result (string_bytes text.new
        ≡ string_bytes text.old ++ title_note (option_map string_bytes title.now)) }
{
    match title {
        Some(title) => {
            text.push_str(" ")?;
            text.push_str(title.as_str())
        }
        None => Ok(()),
    }
}

/// The name of a case, and its title after it where it has one.
pub(crate) fn titled(alloc: Global, outcome: &Outcome) -> Result<String, AllocError>
    ensures { IfOk result (λ text. string_bytes text ≡ titled outcome.now) }
{
    let mut text = String::from_str(alloc, outcome.name.as_str())?;
    push_title(&mut text, &outcome.title)?;
    Ok(text)
}
