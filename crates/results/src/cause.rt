//! Why a case isn't ok, in one line, and in more.

ghost use Rattle.std.specs.Prelude.{◌≡◌, ◌++◌, IfOk, OnOk, option_map, string_bytes};
ghost use Rattle.results.specs.Causes.{cause_of, detail, details_of, rule_details};

use crate::outcome::{Outcome, Rule};
use std::alloc::{AllocError, Global};

/// Adds why a case isn't ok, in one line without its end: the reason where there is one, else what
/// was wanted and what came, else the verdict's word.
pub fn push_cause(text: &mut String, outcome: &Outcome) -> Result<(), AllocError>
    ensures { OnOk result (string_bytes text.new ≡ string_bytes text.old ++ cause_of outcome.now) }
{
    match (&outcome.reason, &outcome.wanted, &outcome.came) {
        (Some(reason), _, _) => text.push_str(reason.as_str()),
        (None, Some(wanted), Some(came)) => {
            text.push_str("wanted ")?;
            text.push_str(wanted.as_str())?;
            text.push_str(", came ")?;
            text.push_str(came.as_str())
        }
        (None, None, Some(came)) => {
            text.push_str("came ")?;
            text.push_str(came.as_str())
        }
        (None, Some(wanted), None) => {
            text.push_str("wanted ")?;
            text.push_str(wanted.as_str())
        }
        (None, None, None) => text.push_str(outcome.verdict.name()),
    }
}

/// Adds a line with a name and a text, where there is one.
fn push_detail(text: &mut String, name: &str, value: &Option<String>) -> Result<(), AllocError>
    ensures { OnOk result (string_bytes text.new
        ≡ string_bytes text.old ++ detail name.now (option_map string_bytes value.now)) }
{
    match value {
        Some(value) => {
            text.push_str(name)?;
            text.push_str(": ")?;
            text.push_str(value.as_str())?;
            text.push_str("\n")
        }
        None => Ok(()),
    }
}

/// Adds the lines of a rule, if there is one.
fn push_rule(text: &mut String, rule: &Option<Rule>) -> Result<(), AllocError>
    ensures { OnOk result (string_bytes text.new ≡ string_bytes text.old ++ rule_details rule.now) }
{
    let Some(rule) = rule else {
        return Ok(());
    };
    text.push_str("rule: ")?;
    text.push_str(rule.place.as_str())?;
    text.push_str("\n")?;
    push_detail(text, "sentence", &rule.sentence)
}

/// Adds what is known of an outcome, in lines `wanted: ..`, `came: ..`, `reason: ..`, `rule: ..`,
/// `sentence: ..`.
pub fn push_details(text: &mut String, outcome: &Outcome) -> Result<(), AllocError>
    ensures { OnOk result
        (string_bytes text.new ≡ string_bytes text.old ++ details_of outcome.now) }
{
    push_detail(text, "wanted", &outcome.wanted)?;
    push_detail(text, "came", &outcome.came)?;
    push_detail(text, "reason", &outcome.reason)?;
    push_rule(text, &outcome.rule)
}

/// Why a case isn't ok, in one line without its end.
pub(crate) fn cause_text(alloc: Global, outcome: &Outcome) -> Result<String, AllocError>
    ensures { IfOk result (λ text. string_bytes text ≡ cause_of outcome.now) }
{
    let mut text = String::new(alloc);
    push_cause(&mut text, outcome)?;
    Ok(text)
}
