//! Values of fields (gRPC over HTTP/2): `timeouts.rows`, `status-texts.rows`, `binary-values.rows`.

use crate::answers::{text_of, values_of};
use crate::text::{bytes_of, push_bytes};
use anyhow::{Result, ensure};
use callhead::{bin_value, percent_text, read_bin_values, read_percent_text, read_timeout};
use rows::GivenRow;
use std::alloc::Global;

/// A value of `grpc-timeout`, and its nanoseconds, or `none`.
pub fn timeout(alloc: Global, given: &str, answer: &mut String) -> Result<()> {
    match read_timeout(bytes_of(alloc, given)?.as_slice()) {
        Some(nanoseconds) => write!(answer, "{nanoseconds}")?,
        None => answer.push_str("none")?,
    }
    Ok(())
}

/// `write TEXT`, and the value of `grpc-message`, which has to be read again as that text;
/// `read VALUE`, and its text.
pub fn status_text(alloc: Global, given: GivenRow<'_>, answer: &mut String) -> Result<()> {
    let (word, said) = given.text.split_once(' ').unwrap_or((given.text, ""));
    if word == "read" {
        let text = read_percent_text(alloc, bytes_of(alloc, said.trim())?.as_slice())?;
        return push_bytes(alloc, answer, text.as_bytes(), given.wanted);
    }
    let text = text_of(alloc, said.trim())?;
    let value = percent_text(alloc, text.as_str())?;
    let again = read_percent_text(alloc, value.as_bytes())?;
    let is_same = again.as_str() == text.as_str();
    ensure!(is_same, "it is read as another text");
    push_bytes(alloc, answer, value.as_bytes(), given.wanted)
}

/// `write BYTES`, and the value of a `-bin` field; `read VALUE`, and the values that it carries,
/// with `|` after each, or `none`.
pub fn binary(alloc: Global, given: GivenRow<'_>, answer: &mut String) -> Result<()> {
    let (word, said) = given.text.split_once(' ').unwrap_or((given.text, ""));
    let bytes = bytes_of(alloc, said.trim())?;
    if word == "write" {
        let value = bin_value(alloc, bytes.as_slice())?;
        return push_bytes(alloc, answer, value.as_bytes(), given.wanted);
    }
    let Some(values) = read_bin_values(alloc, bytes.as_slice())? else {
        answer.push_str("none")?;
        return Ok(());
    };
    if values.as_slice() == values_of(alloc, given.wanted)?.as_slice() {
        answer.push_str(given.wanted)?;
    } else {
        write!(answer, "{:?}", values.as_slice())?;
    }
    Ok(())
}
