//! Outcomes as JUnit's XML, as Jenkins' plugin and GitLab read it: a suite with a case for each
//! outcome.
//!
//! A case has a `failure` exactly where it fails the run. One that isn't ok and doesn't fail it is
//! `skipped`.

ghost use Rattle.std.specs.Prelude.{◌≡◌, ◌++◌, IfOk, OnOk, count_by, string_bytes};
ghost use Rattle.std.specs.List.{flat_map};
ghost use Rattle.results.specs.Causes.{details_of};
ghost use Rattle.results.specs.Junit.{
  case_attributes,
  case_element,
  case_line,
  counts,
  document,
  failure,
  inside,
  is_skipped,
  is_told,
  known_message,
  level_note,
  message_of,
  plain_message,
  seconds,
  skipped,
  suite_element,
  suites_element,
  type_by,
};
ghost use Rattle.results.specs.Standings.{standing_of};
ghost use Rattle.results.specs.Xml.{attributes, xml_text};

use crate::cause::{cause_text, push_details};
use crate::outcome::{Outcome, titled};
use crate::standing::{Standing, failure_count};
use crate::words::{Level, Suite, Verdict};
use crate::xml::{escaped, push_attribute, push_declaration, push_end, push_number, push_open};
use std::alloc::{AllocError, Global};

/// A number of milliseconds as seconds with three places.
fn seconds(alloc: Global, milliseconds: u64) -> Result<String, AllocError>
    ensures { IfOk result (λ text. string_bytes text ≡ seconds milliseconds) }
{
    let whole = milliseconds / 1_000;
    let tenths = milliseconds / 100 % 10;
    let hundredths = milliseconds / 10 % 10;
    let thousandths = milliseconds % 10;
    format!(in alloc; "{whole}.{tenths}{hundredths}{thousandths}")
}

/// Whether an outcome is skipped: it isn't ok, and doesn't fail the run.
fn is_skipped(outcome: &Outcome) -> bool
    ensures { result ≡ is_skipped outcome.now }
{
    !outcome.fails_the_run() && outcome.verdict != Verdict::Ok
}

/// Whether an outcome isn't simply ok.
#[tactic(auto, unfolding(crate::specs::Junit::is_told))]
fn is_told(outcome: &Outcome) -> bool
    ensures { result ≡ is_told outcome.now }
{
    outcome.fails_the_run() || is_skipped(outcome)
}

/// How many outcomes are skipped.
fn skipped_count(outcomes: &[Outcome]) -> usize
    ensures { result ≡ count_by is_skipped outcomes.now }
{
    outcomes
        .iter()
        .filter(|outcome| is_skipped(outcome))
        .count()
}

/// Adds the attributes of a suite, or of all.
fn push_counts(
    alloc: Global,
    xml: &mut String,
    suite: Suite,
    outcomes: &[Outcome],
    milliseconds: u64,
) -> Result<(), AllocError>
    ensures { OnOk result (string_bytes xml.new
        ≡ string_bytes xml.old ++ attributes (counts suite outcomes.now milliseconds)) }
{
    let time = seconds(alloc, milliseconds)?;
    push_attribute(xml, "name", suite.name())?;
    push_number(xml, "tests", outcomes.len())?;
    push_number(xml, "failures", failure_count(outcomes))?;
    push_number(xml, "skipped", skipped_count(outcomes))?;
    push_attribute(xml, "errors", "0")?;
    push_attribute(xml, "time", time.as_str())
}

/// A level in parentheses, if there is one.
fn level_note(alloc: Global, level: Option<Level>) -> Result<String, AllocError>
    ensures { IfOk result (λ text. string_bytes text ≡ level_note level) }
{
    match level {
        Some(level) => {
            let word = level.name();
            format!(in alloc; " ({word})")
        }
        None => Ok(String::new(alloc)),
    }
}

/// The verdict on an outcome, its level and why it isn't ok, in one line.
fn plain_message(alloc: Global, outcome: &Outcome) -> Result<String, AllocError>
    ensures { IfOk result (λ message. string_bytes message ≡ plain_message outcome.now) }
{
    let verdict = outcome.verdict.name();
    let level = level_note(alloc, outcome.level)?;
    let cause = cause_text(alloc, outcome)?;
    format!(in alloc; "{verdict}{level}: {cause}")
}

/// What is said of an outcome on the list of known failures.
fn known_message(alloc: Global, outcome: &Outcome) -> Result<String, AllocError>
    ensures { IfOk result (λ message. string_bytes message
        ≡ known_message outcome.now.known outcome.now) }
{
    match &outcome.known {
        Some(known) => {
            let reason = known.reason.as_str();
            format!(in alloc; "known: {reason}")
        }
        None => plain_message(alloc, outcome),
    }
}

/// What is said of an outcome that isn't simply ok, in one line.
fn message_of(alloc: Global, outcome: &Outcome) -> Result<String, AllocError>
    ensures { IfOk result (λ message. string_bytes message ≡ message_of outcome.now) }
{
    match outcome.standing() {
        Standing::Mended => {
            String::from_str(
                alloc,
                "no longer fails: take it off the list of known failures",
            )
        }
        Standing::Known => known_message(alloc, outcome),
        Standing::AsFound => plain_message(alloc, outcome),
    }
}

/// The type of a failure: the verdict, or that it is mended.
fn failure_type(outcome: &Outcome) -> &'static str
    ensures { result.now ≡ type_by (standing_of outcome.now) outcome.now.verdict }
{
    match outcome.standing() {
        Standing::Mended => "no longer fails",
        _ => outcome.verdict.name(),
    }
}

/// What is known of an outcome, as XML has it.
fn details_text(alloc: Global, outcome: &Outcome) -> Result<String, AllocError>
    ensures { IfOk result (λ text. string_bytes text ≡ xml_text (details_of outcome.now)) }
{
    let mut details = String::new(alloc);
    push_details(&mut details, outcome)?;
    escaped(alloc, details.as_str())
}

/// What is said of an outcome, as XML has it.
fn message_text(alloc: Global, outcome: &Outcome) -> Result<String, AllocError>
    ensures { IfOk result (λ text. string_bytes text ≡ xml_text (message_of outcome.now)) }
{
    let message = message_of(alloc, outcome)?;
    escaped(alloc, message.as_str())
}

/// Adds the failure of an outcome that fails the run.
#[tactic(auto, unfolding(crate::specs::Junit::failure))]
fn push_failure(alloc: Global, xml: &mut String, outcome: &Outcome) -> Result<(), AllocError>
    ensures { OnOk result (string_bytes xml.new ≡ string_bytes xml.old ++ failure outcome.now) }
{
    let message = message_text(alloc, outcome)?;
    let details = details_text(alloc, outcome)?;
    push_open(xml, "failure")?;
    push_attribute(xml, "message", message.as_str())?;
    push_attribute(xml, "type", failure_type(outcome))?;
    xml.push_str(">")?;
    xml.push_str(details.as_str())?;
    push_end(xml, "failure")
}

/// Adds what is said of an outcome that is skipped.
#[tactic(auto, unfolding(crate::specs::Junit::skipped))]
fn push_skipped(alloc: Global, xml: &mut String, outcome: &Outcome) -> Result<(), AllocError>
    ensures { OnOk result (string_bytes xml.new ≡ string_bytes xml.old ++ skipped outcome.now) }
{
    let message = message_text(alloc, outcome)?;
    let details = details_text(alloc, outcome)?;
    push_open(xml, "skipped")?;
    push_attribute(xml, "message", message.as_str())?;
    xml.push_str("/>")?;
    push_open(xml, "system-out")?;
    xml.push_str(">")?;
    xml.push_str(details.as_str())?;
    push_end(xml, "system-out")
}

/// Adds what is inside of a case.
fn push_inside(alloc: Global, xml: &mut String, outcome: &Outcome) -> Result<(), AllocError>
    ensures { OnOk result (string_bytes xml.new ≡ string_bytes xml.old ++ inside outcome.now) }
{
    if outcome.fails_the_run() {
        push_failure(alloc, xml, outcome)
    } else {
        push_skipped(alloc, xml, outcome)
    }
}

/// Adds the attributes of a case.
fn push_attributes(alloc: Global, xml: &mut String, outcome: &Outcome) -> Result<(), AllocError>
    ensures { OnOk result (string_bytes xml.new
        ≡ string_bytes xml.old ++ attributes (case_attributes outcome.now)) }
{
    let titled = titled(alloc, outcome)?;
    let name = escaped(alloc, titled.as_str())?;
    let time = seconds(alloc, outcome.milliseconds)?;
    push_attribute(xml, "classname", outcome.suite.name())?;
    push_attribute(xml, "name", name.as_str())?;
    push_attribute(xml, "time", time.as_str())
}

/// Adds a case, without the end of its line.
fn push_case(alloc: Global, xml: &mut String, outcome: &Outcome) -> Result<(), AllocError>
    ensures { OnOk result (string_bytes xml.new
        ≡ string_bytes xml.old ++ case_element outcome.now) }
{
    push_open(xml, "testcase")?;
    push_attributes(alloc, xml, outcome)?;
    if is_told(outcome) {
        xml.push_str(">")?;
        push_inside(alloc, xml, outcome)?;
        push_end(xml, "testcase")
    } else {
        xml.push_str("/>")
    }
}

/// Adds a case with the end of its line.
#[tactic(auto, unfolding(crate::specs::Junit::case_line))]
fn push_line(alloc: Global, xml: &mut String, outcome: &Outcome) -> Result<(), AllocError>
    ensures { OnOk result (string_bytes xml.new ≡ string_bytes xml.old ++ case_line outcome.now) }
{
    push_case(alloc, xml, outcome)?;
    xml.push_str("\n")
}

/// Adds the cases of a suite, a line each.
fn push_cases(alloc: Global, xml: &mut String, outcomes: &[Outcome]) -> Result<(), AllocError>
    ensures { OnOk result (string_bytes xml.new
        ≡ string_bytes xml.old ++ flat_map case_line outcomes.now) }
{
    for outcome in outcomes {
        push_line(alloc, xml, outcome)?;
    }
    Ok(())
}

/// Adds a suite, which has a case for each outcome.
#[tactic(auto, unfolding(crate::specs::Junit::suite_element))]
fn push_suite(
    alloc: Global,
    xml: &mut String,
    suite: Suite,
    outcomes: &[Outcome],
    milliseconds: u64,
) -> Result<(), AllocError>
    ensures { OnOk result (string_bytes xml.new
        ≡ string_bytes xml.old ++ suite_element suite outcomes.now milliseconds) }
{
    push_open(xml, "testsuite")?;
    push_counts(alloc, xml, suite, outcomes, milliseconds)?;
    xml.push_str(">\n")?;
    push_cases(alloc, xml, outcomes)?;
    push_end(xml, "testsuite")
}

/// Adds all suites, of which there is one.
#[tactic(auto, unfolding(crate::specs::Junit::suites_element))]
fn push_suites(
    alloc: Global,
    xml: &mut String,
    suite: Suite,
    outcomes: &[Outcome],
    milliseconds: u64,
) -> Result<(), AllocError>
    ensures { OnOk result (string_bytes xml.new
        ≡ string_bytes xml.old ++ suites_element suite outcomes.now milliseconds) }
{
    push_open(xml, "testsuites")?;
    push_counts(alloc, xml, suite, outcomes, milliseconds)?;
    xml.push_str(">\n")?;
    push_suite(alloc, xml, suite, outcomes, milliseconds)?;
    xml.push_str("\n")?;
    push_end(xml, "testsuites")
}

/// Adds a document with the outcomes of a run, and how many milliseconds it took.
pub fn push_junit(
    alloc: Global,
    xml: &mut String,
    suite: Suite,
    outcomes: &[Outcome],
    milliseconds: u64,
) -> Result<(), AllocError>
    ensures { OnOk result (string_bytes xml.new
        ≡ string_bytes xml.old ++ document suite outcomes.now milliseconds) }
{
    push_declaration(xml)?;
    push_suites(alloc, xml, suite, outcomes, milliseconds)?;
    xml.push_str("\n")
}
