//! Outcomes as JSON (RFC 8259), an object a line (JSON Lines).

ghost use Rattle.std.specs.Prelude.{◌≡◌, false, IfOk, OnOk, map, option_map, string_bytes};
ghost use Rattle.serde_json.specs.Data.{put as with_member};
ghost use Rattle.serde_json.specs.View.{members_view, view};
ghost use Rattle.serde_json.specs.Written.{has_float};
ghost use Rattle.results.specs.Json.{
  count_members,
  ending_members,
  json_text,
  number_data,
  outcome_data,
  rule_members,
  hex_data,
  standing_data,
  subject_members,
  summary_data,
  text_data,
  texts_data,
  traffic_members,
};

use crate::known_failure::KnownFailure;
use crate::outcome::{Outcome, Rule, shown};
use crate::standing::Standing;
use crate::summary::Summary;
use crate::words::{Suite, level_word};
use serde_json::{Map, Value, put};
use std::alloc::{AllocError, Global};

/// The members of an object.
type Object = Map<String, Value>;

/// Puts in a text, or null.
fn put_text(
    alloc: Global,
    object: &mut Object,
    key: &str,
    text: Option<&str>,
) -> Result<(), AllocError>
    ensures { OnOk result (members_view object.new.entries
        ≡ with_member key.now (text_data (option_map (λ shown. shown.now) text.entry))
        (members_view object.old.entries)) }
{
    match text {
        Some(text) => put(object, alloc, key, Value::try_from_str(alloc, text)?),
        None => put(object, alloc, key, Value::Null),
    }
}

/// Puts in a number, or null.
fn put_number(
    alloc: Global,
    object: &mut Object,
    key: &str,
    number: Option<u64>,
) -> Result<(), AllocError>
    ensures { OnOk result (members_view object.new.entries
        ≡ with_member key.now (number_data number) (members_view object.old.entries)) }
{
    match number {
        Some(number) => put(object, alloc, key, Value::from(number)),
        None => put(object, alloc, key, Value::Null),
    }
}

/// Puts in bytes as hexadecimal digits, or null.
fn put_bytes(
    alloc: Global,
    object: &mut Object,
    key: &str,
    bytes: &Option<Vec<u8>>,
) -> Result<(), AllocError>
    ensures { OnOk result (members_view object.new.entries
        ≡ with_member key.now (hex_data (option_map (λ all. all.items) bytes.now))
        (members_view object.old.entries)) }
{
    match bytes {
        Some(bytes) => put(
            object,
            alloc,
            key,
            Value::String(hex::encode(alloc, bytes.as_slice())?),
        ),
        None => put(object, alloc, key, Value::Null),
    }
}

/// The array of some texts.
fn texts_of(alloc: Global, texts: &[String]) -> Result<Value, AllocError>
    ensures { IfOk result (λ value. view value ≡ texts_data (map string_bytes texts.now)) }
{
    let mut values = Vec::new(alloc);
    for text in texts {
        values.push(Value::try_from_str(alloc, text.as_str())?)?;
    }
    Ok(Value::Array(values))
}

/// The word of a standing; nothing where the verdict alone counts.
fn standing_word(standing: Standing) -> Option<&'static str>
    ensures { text_data (option_map (λ word. word.now) result) ≡ standing_data standing }
{
    match standing {
        Standing::AsFound => None,
        Standing::Known => Some("known"),
        Standing::Mended => Some("mended"),
    }
}

/// The reason of a known failure, if it is one.
fn known_reason(known: &Option<KnownFailure>) -> Option<&str>
    ensures { option_map (λ shown. shown.now) result
        ≡ option_map (λ known. string_bytes known.reason) known.now }
{
    match known {
        Some(known) => Some(known.reason.as_str()),
        None => None,
    }
}

/// A number of 32 bits, if there is one, as one of 64.
fn wide(number: Option<u32>) -> Option<u64>
    ensures { result ≡ number }
{
    match number {
        Some(number) => Some(u64::from(number)),
        None => None,
    }
}

/// Puts in which case it is, and what became of it.
fn put_subject(alloc: Global, object: &mut Object, outcome: &Outcome) -> Result<(), AllocError>
    ensures { OnOk result (members_view object.new.entries
        ≡ subject_members outcome.now (members_view object.old.entries)) }
{
    let level = level_word(outcome.level);
    let known = known_reason(&outcome.known);
    put_text(alloc, object, "suite", Some(outcome.suite.name()))?;
    put_text(alloc, object, "name", Some(outcome.name.as_str()))?;
    put_text(alloc, object, "title", shown(&outcome.title))?;
    put_text(alloc, object, "verdict", Some(outcome.verdict.name()))?;
    put_text(alloc, object, "level", level)?;
    put(object, alloc, "fails", Value::Bool(outcome.fails_the_run()))?;
    put_text(alloc, object, "standing", standing_word(outcome.standing()))?;
    put_text(alloc, object, "known", known)
}

/// Puts in a rule, or null in the place of each of its parts.
fn put_rule(alloc: Global, object: &mut Object, rule: &Option<Rule>) -> Result<(), AllocError>
    ensures { OnOk result (members_view object.new.entries
        ≡ rule_members rule.now (members_view object.old.entries)) }
{
    match rule {
        Some(rule) => {
            put_text(alloc, object, "rule", Some(rule.place.as_str()))?;
            put_text(alloc, object, "sentence", shown(&rule.sentence))
        }
        None => {
            put_text(alloc, object, "rule", None)?;
            put_text(alloc, object, "sentence", None)
        }
    }
}

/// Puts in what was wanted, what came, and how long it took.
fn put_ending(alloc: Global, object: &mut Object, outcome: &Outcome) -> Result<(), AllocError>
    ensures { OnOk result (members_view object.new.entries
        ≡ ending_members outcome.now (members_view object.old.entries)) }
{
    let fault = wide(outcome.fault);
    put_text(alloc, object, "wanted", shown(&outcome.wanted))?;
    put_text(alloc, object, "came", shown(&outcome.came))?;
    put_text(alloc, object, "reason", shown(&outcome.reason))?;
    put_number(alloc, object, "fault", fault)?;
    put_number(alloc, object, "milliseconds", Some(outcome.milliseconds))?;
    put_number(alloc, object, "tries", Some(u64::from(outcome.tries)))?;
    put_number(alloc, object, "passed", Some(u64::from(outcome.passed)))
}

/// Puts in what was sent and read.
fn put_traffic(alloc: Global, object: &mut Object, outcome: &Outcome) -> Result<(), AllocError>
    ensures { OnOk result (members_view object.new.entries
        ≡ traffic_members outcome.now (members_view object.old.entries)) }
{
    put_bytes(alloc, object, "sent", &outcome.sent)?;
    put_bytes(alloc, object, "read", &outcome.read)?;
    put_number(alloc, object, "bytes_sent", outcome.sent_count)?;
    put_number(alloc, object, "bytes_read", outcome.read_count)?;
    let frames = texts_of(alloc, outcome.frames.as_slice())?;
    put(object, alloc, "frames", frames)
}

/// An outcome as a value of JSON.
fn value_of(alloc: Global, outcome: &Outcome) -> Result<Value, AllocError>
    ensures { IfOk result (λ value. view value ≡ outcome_data outcome.now) }
{
    let mut object = Map::new(alloc);
    put_subject(alloc, &mut object, outcome)?;
    put_rule(alloc, &mut object, &outcome.rule)?;
    put_ending(alloc, &mut object, outcome)?;
    put_traffic(alloc, &mut object, outcome)?;
    Ok(Value::Object(object))
}

/// Puts in a count.
fn put_count(alloc: Global, object: &mut Object, key: &str, count: usize) -> Result<(), AllocError>
    ensures { OnOk result (members_view object.new.entries
        ≡ with_member key.now (number_data (Some count)) (members_view object.old.entries)) }
{
    put_number(alloc, object, key, Some(count as u64))
}

/// Puts in the counts of a summary.
fn put_counts(alloc: Global, object: &mut Object, summary: &Summary) -> Result<(), AllocError>
    ensures { OnOk result (members_view object.new.entries
        ≡ count_members summary.now (members_view object.old.entries)) }
{
    put_count(alloc, object, "cases", summary.cases)?;
    put_count(alloc, object, "ok", summary.ok)?;
    put_count(alloc, object, "failed", summary.failed)?;
    put_count(alloc, object, "failed_must", summary.failed_must)?;
    put_count(alloc, object, "failed_should", summary.failed_should)?;
    put_count(alloc, object, "failed_ours", summary.failed_ours)?;
    put_count(alloc, object, "unsteady", summary.unsteady)?;
    put_count(alloc, object, "not_tested", summary.not_tested)?;
    put_count(alloc, object, "not_applicable", summary.not_applicable)?;
    put_count(alloc, object, "known", summary.known)?;
    put_count(alloc, object, "mended", summary.mended)?;
    put_count(alloc, object, "failing", summary.failing)
}

/// A summary as a value of JSON.
fn summary_value(
    alloc: Global,
    suite: Suite,
    summary: &Summary,
    milliseconds: u64,
) -> Result<Value, AllocError>
    ensures { IfOk result (λ value. view value ≡ summary_data suite summary.now milliseconds) }
{
    let mut object = Map::new(alloc);
    put_text(alloc, &mut object, "suite", Some(suite.name()))?;
    put(&mut object, alloc, "summary", Value::Bool(true))?;
    put_counts(alloc, &mut object, summary)?;
    put_number(alloc, &mut object, "milliseconds", Some(milliseconds))?;
    Ok(Value::Object(object))
}

/// A value's text, and a line's end.
fn line_of(alloc: Global, value: &Value) -> Result<String, AllocError>
    ensures { IfOk result (λ line. has_float (view value.now) ≡ false
        → string_bytes line ≡ json_text (view value.now)) }
{
    let mut line = value.to_string(alloc)?;
    line.push_str("\n")?;
    Ok(line)
}

/// The line of an outcome.
pub fn json_line(alloc: Global, outcome: &Outcome) -> Result<String, AllocError>
    ensures { IfOk result (λ line. string_bytes line ≡ json_text (outcome_data outcome.now)) }
{
    let value = value_of(alloc, outcome)?;
    line_of(alloc, &value)
}

/// The last line of a run.
pub fn json_summary(
    alloc: Global,
    suite: Suite,
    summary: &Summary,
    milliseconds: u64,
) -> Result<String, AllocError>
    ensures { IfOk result (λ line. string_bytes line
        ≡ json_text (summary_data suite summary.now milliseconds)) }
{
    let value = summary_value(alloc, suite, summary, milliseconds)?;
    line_of(alloc, &value)
}
