//! Outcomes by the Test Anything Protocol (TAP 14).
//!
//! A test point is `not ok` without a directive exactly where the case fails the run, so that a
//! harness and the exit status agree.

ghost use Rattle.std.specs.Prelude.{
  ◌≡◌,
  ◌++◌,
  [],
  ◌∷◌,
  IfOk,
  OnOk,
  Some,
  codes,
  option_map,
  string_bytes,
};
ghost use Rattle.std.specs.Fmt.{decimal};
ghost use Rattle.std.specs.List.{flat_map};
ghost use Rattle.serde_json.specs.Data.{string};
ghost use Rattle.serde_json.specs.Written.{compact_text};
ghost use Rattle.results.specs.Tap.{
  block_of,
  char_text,
  directive,
  entry,
  escaped,
  known_why,
  plain_why,
  point_line,
  point_of,
  point_text,
  rule_entries,
  status,
  verdict_note,
  why,
  yaml_block,
};
ghost use Rattle.results.specs.Standings.{standing_of};

use crate::cause::cause_text;
use crate::outcome::{Outcome, Rule, shown, titled};
use crate::standing::Standing;
use crate::words::{Verdict, level_word};
use serde_json::Value;
use std::alloc::{AllocError, Global};

/// The first line. By version 14 the rest would be unchanged, but perl's `prove` takes that number
/// for an error.
pub const TAP_VERSION: &str = "TAP version 13\n";

/// How a test point counts.
#[derive(Clone, Copy)]
enum Point {
    Passes,
    Fails,
    /// It isn't to count, for nothing was tried.
    Skips,
    /// It isn't to count, though it failed.
    Todo,
}

impl Point {
    /// The words that its line begins with.
    fn status(self) -> &'static str
        ensures { result.now ≡ status self }
    {
        match self {
            Point::Passes | Point::Skips => "ok",
            Point::Fails | Point::Todo => "not ok",
        }
    }
}

/// How the test point of an outcome counts.
fn point_of(outcome: &Outcome) -> Point
    ensures { result ≡ point_of outcome.now }
{
    if outcome.fails_the_run() {
        return Point::Fails;
    }
    match outcome.verdict {
        Verdict::Ok => Point::Passes,
        Verdict::Failed | Verdict::Unsteady => Point::Todo,
        Verdict::NotTested | Verdict::NotApplicable => Point::Skips,
    }
}

/// Adds a character to a test point's line.
fn push_char(line: &mut String, c: char) -> Result<(), AllocError>
    ensures { OnOk result (string_bytes line.new ≡ string_bytes line.old ++ char_text c) }
{
    match c {
        '\\' => line.push_str("\\\\"),
        '#' => line.push_str("\\#"),
        '\n' | '\r' => line.push_str(" "),
        _ => line.push(c),
    }
}

/// Adds characters to a test point's line.
fn push_chars(line: &mut String, all: &[char]) -> Result<(), AllocError>
    ensures { OnOk result (string_bytes line.new
        ≡ string_bytes line.old ++ flat_map char_text all.now) }
{
    for c in all {
        push_char(line, *c)?;
    }
    Ok(())
}

/// A text as it stands in a test point's line: `#` and `\` have a `\` before them, and a line end
/// is a blank.
fn escaped(alloc: Global, text: &str) -> Result<String, AllocError>
    ensures { IfOk result (λ line. string_bytes line ≡ escaped text.now) }
{
    let all: Vec<char> = text.chars().collect(alloc)?;
    let mut line = String::new(alloc);
    push_chars(&mut line, all.as_slice())?;
    Ok(line)
}

/// The verdict on an outcome, and why it isn't ok.
fn plain_why(alloc: Global, outcome: &Outcome) -> Result<String, AllocError>
    ensures { IfOk result (λ text. string_bytes text ≡ plain_why outcome.now) }
{
    let verdict = outcome.verdict.name();
    let cause = cause_text(alloc, outcome)?;
    format!(in alloc; "{verdict}: {cause}")
}

/// Why an outcome on the list of known failures isn't to count.
fn known_why(alloc: Global, outcome: &Outcome) -> Result<String, AllocError>
    ensures { IfOk result (λ text. string_bytes text ≡ known_why outcome.now.known outcome.now) }
{
    match &outcome.known {
        Some(known) => String::from_str(alloc, known.reason.as_str()),
        None => plain_why(alloc, outcome),
    }
}

/// Why a test point isn't to count.
fn why_of(alloc: Global, outcome: &Outcome) -> Result<String, AllocError>
    ensures { IfOk result (λ text. string_bytes text ≡ why outcome.now) }
{
    match outcome.standing() {
        Standing::Known => known_why(alloc, outcome),
        Standing::Mended | Standing::AsFound => plain_why(alloc, outcome),
    }
}

/// Why a test point isn't to count, as it stands in its line.
fn escaped_why(alloc: Global, outcome: &Outcome) -> Result<String, AllocError>
    ensures { IfOk result (λ text. string_bytes text ≡ escaped (why outcome.now)) }
{
    let why = why_of(alloc, outcome)?;
    escaped(alloc, why.as_str())
}

/// A directive and why it stands there, where there is one.
fn directive_text(alloc: Global, how: Point, outcome: &Outcome) -> Result<String, AllocError>
    ensures { IfOk result (λ text. string_bytes text ≡ directive how outcome.now) }
{
    match how {
        Point::Passes | Point::Fails => Ok(String::new(alloc)),
        Point::Skips => {
            let why = escaped_why(alloc, outcome)?;
            format!(in alloc; " # SKIP {why}")
        }
        Point::Todo => {
            let why = escaped_why(alloc, outcome)?;
            format!(in alloc; " # TODO {why}")
        }
    }
}

/// A text as JSON has it.
fn quoted(alloc: Global, text: &str) -> Result<String, AllocError>
    ensures { IfOk result (λ json. string_bytes json ≡ compact_text (string text.now)) }
{
    let value = Value::try_from_str(alloc, text)?;
    value.to_string(alloc)
}

/// Adds a line with a name and a text. A text of JSON is one of YAML.
#[tactic(auto, unfolding(crate::specs::Tap::entry))]
fn push_some(alloc: Global, block: &mut String, name: &str, text: &str) -> Result<(), AllocError>
    ensures { OnOk result (string_bytes block.new
        ≡ string_bytes block.old ++ entry name.now (Some text.now)) }
{
    let json = quoted(alloc, text)?;
    writeln!(block, "  {name}: {json}")
}

/// Adds a line of a block, where there is a text for it.
#[tactic(auto, unfolding(crate::specs::Tap::entry))]
fn push_entry(
    alloc: Global,
    block: &mut String,
    name: &str,
    text: Option<&str>,
) -> Result<(), AllocError>
    ensures { OnOk result (string_bytes block.new
        ≡ string_bytes block.old ++ entry name.now (option_map (λ shown. shown.now) text.entry)) }
{
    match text {
        Some(text) => push_some(alloc, block, name, text),
        None => Ok(()),
    }
}

/// Adds the lines of a rule, if there is one.
#[tactic(auto, unfolding(crate::specs::Tap::rule_entries))]
fn push_rule(alloc: Global, block: &mut String, rule: &Option<Rule>) -> Result<(), AllocError>
    ensures { OnOk result (string_bytes block.new
        ≡ string_bytes block.old ++ rule_entries rule.now) }
{
    let Some(rule) = rule else {
        return Ok(());
    };
    push_some(alloc, block, "rule", rule.place.as_str())?;
    push_entry(alloc, block, "sentence", shown(&rule.sentence))
}

/// What a block says of the verdict.
fn verdict_note(outcome: &Outcome) -> &'static str
    ensures { result.now ≡ verdict_note (standing_of outcome.now) outcome.now.verdict }
{
    match outcome.standing() {
        Standing::Mended => "no longer fails: take it off the list of known failures",
        _ => outcome.verdict.name(),
    }
}

/// Adds the block of a test point that isn't ok.
#[tactic(auto, unfolding(crate::specs::Tap::yaml_block))]
fn push_block(alloc: Global, text: &mut String, outcome: &Outcome) -> Result<(), AllocError>
    ensures { OnOk result (string_bytes text.new
        ≡ string_bytes text.old ++ yaml_block outcome.now) }
{
    text.push_str("  ---\n")?;
    push_some(alloc, text, "verdict", verdict_note(outcome))?;
    push_entry(alloc, text, "level", level_word(outcome.level))?;
    push_entry(alloc, text, "wanted", shown(&outcome.wanted))?;
    push_entry(alloc, text, "came", shown(&outcome.came))?;
    push_entry(alloc, text, "reason", shown(&outcome.reason))?;
    push_rule(alloc, text, &outcome.rule)?;
    text.push_str("  ...\n")
}

/// Adds what stands after a test point.
fn push_after(
    alloc: Global,
    text: &mut String,
    how: Point,
    outcome: &Outcome,
) -> Result<(), AllocError>
    ensures { OnOk result (string_bytes text.new
        ≡ string_bytes text.old ++ block_of how outcome.now) }
{
    match how {
        Point::Passes | Point::Skips => Ok(()),
        Point::Fails | Point::Todo => push_block(alloc, text, outcome),
    }
}

/// Adds the line of a test point.
#[tactic(auto, unfolding(crate::specs::Tap::point_line))]
fn push_line(
    alloc: Global,
    text: &mut String,
    number: usize,
    how: Point,
    outcome: &Outcome,
) -> Result<(), AllocError>
    ensures { OnOk result (string_bytes text.new
        ≡ string_bytes text.old ++ point_line number how outcome.now) }
{
    let titled = titled(alloc, outcome)?;
    let name = escaped(alloc, titled.as_str())?;
    let directive = directive_text(alloc, how, outcome)?;
    text.push_str(how.status())?;
    write!(text, " {number} - ")?;
    text.push_str(outcome.suite.name())?;
    text.push_str(" ")?;
    text.push_str(name.as_str())?;
    text.push_str(directive.as_str())?;
    text.push_str("\n")
}

/// Adds the test point of an outcome, with this number from 1 on.
pub fn push_tap(
    alloc: Global,
    text: &mut String,
    number: usize,
    outcome: &Outcome,
) -> Result<(), AllocError>
    ensures { OnOk result (string_bytes text.new
        ≡ string_bytes text.old ++ point_text number outcome.now) }
{
    let how = point_of(outcome);
    push_line(alloc, text, number, how, outcome)?;
    push_after(alloc, text, how, outcome)
}

/// Adds the plan: how many test points there are.
pub fn push_plan(text: &mut String, count: usize) -> Result<(), AllocError>
    ensures { OnOk result (string_bytes text.new
        ≡ string_bytes text.old ++ codes "1.." ++ decimal count ++ 10 ∷ []) }
{
    writeln!(text, "1..{count}")
}
