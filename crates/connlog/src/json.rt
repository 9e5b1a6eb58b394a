//! Objects of JSON (RFC 8259), a line each, as they are written at the end of a text.
//!
//! Each begins with the time. Texts are written by `serde_json`.

ghost use Rattle.std.specs.Prelude.{◌≡◌, ◌++◌, IfOk, OnOk, string_bytes};
ghost use Rattle.serde_json.specs.Data as spells;
ghost use Rattle.serde_json.specs.Written.{compact_text};

use serde_json::Value;
use std::alloc::{AllocError, Global};

/// An object begins. Its time is a JSON value.
pub fn begin(text: &mut String, time: &str) -> Result<(), AllocError> {
    write!(text, "{{\"time\":{time}")
}

/// The object ends, and its line.
pub fn end(text: &mut String) -> Result<(), AllocError> {
    text.push_str("}\n")
}

/// A member that is a number.
pub fn number(text: &mut String, name: &str, value: u64) -> Result<(), AllocError> {
    write!(text, ",\"{name}\":{value}")
}

/// A member that is a number with a sign.
pub fn signed(text: &mut String, name: &str, value: i64) -> Result<(), AllocError> {
    write!(text, ",\"{name}\":{value}")
}

/// A member that is true or false.
pub fn flag(text: &mut String, name: &str, value: bool) -> Result<(), AllocError> {
    write!(text, ",\"{name}\":{value}")
}

/// A member that is a text.
pub fn string(alloc: Global, text: &mut String, name: &str, value: &str) -> Result<(), AllocError> {
    write!(text, ",\"{name}\":")?;
    push_text(alloc, text, value)
}

/// A text as a string of JSON (RFC 8259, section 7): the shortest that `serde_json` knows, which is
/// read back as this text.
fn push_text(alloc: Global, text: &mut String, value: &str) -> Result<(), AllocError>
    ensures { OnOk result (string_bytes text.new
        ≡ string_bytes text.old ++ compact_text (spells.string value.now)) }
{
    let spelled = spelled(alloc, value)?;
    text.push_str(spelled.as_str())
}

fn spelled(alloc: Global, value: &str) -> Result<String, AllocError>
    ensures { IfOk result (λ it. string_bytes it ≡ compact_text (spells.string value.now)) }
{
    let value = Value::String(String::from_str(alloc, value)?);
    value.to_string(alloc)
}
