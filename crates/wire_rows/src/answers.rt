//! The fields that answer a call (gRPC over HTTP/2, "Responses"): `answers.rows`. A row gives
//! `begin ECHOES`, the echoes for the head of the response; `end CODE ; TEXT ; ECHOES`, a status
//! and the echoes for the trailers; `only CODE ; TEXT`, a status alone; `unknown method`; or
//! `refuse FAULT`. After each echo stands `|`. The answer is the fields, or `none`.

use crate::names::{HEAD_FAULTS, called};
use crate::text::{bytes_of, push_fields};
use anyhow::{Context, Result, bail};
use callhead::{Texts, Values, response_fields, status_fields, trailers_only, unknown_method};
use lists::{Field, Octets};
use rows::{GivenRow, number};
use std::alloc::Global;

pub fn answer(alloc: Global, given: GivenRow<'_>, answer: &mut String) -> Result<()> {
    let (word, said) = given.text.split_once(' ').unwrap_or((given.text, ""));
    let fields = match word {
        "begin" => begin(alloc, said)?,
        "end" => end(alloc, said)?,
        "only" => only(alloc, said)?,
        "unknown" => unknown_method(alloc)?,
        "refuse" => match called(alloc, &HEAD_FAULTS, said)?.refusal(alloc)? {
            Some(fields) => fields,
            None => {
                answer.push_str("none")?;
                return Ok(());
            }
        },
        _ => bail!("no answer begins with {word}"),
    };
    push_fields(alloc, answer, fields.as_slice(), given.wanted)
}

fn begin(alloc: Global, echoes: &str) -> Result<Vec<Field>> {
    let mut texts = Vec::new(alloc);
    if let Some(echoes) = echoes.strip_suffix('|') {
        for echo in echoes.split('|') {
            texts.push(text_of(alloc, echo)?)?;
        }
    }
    Ok(response_fields(alloc, &Texts::from(texts))?)
}

fn end(alloc: Global, said: &str) -> Result<Vec<Field>> {
    let (code, said) = said.split_once(';').context("a status has no text")?;
    let (text, echoes) = said.split_once(';').context("a status has no echoes")?;
    let text = text_of(alloc, text.trim())?;
    let echoes = Values::from(values_of(alloc, echoes.trim())?);
    Ok(status_fields(alloc, number(code.trim())?, text.as_str(), &echoes)?)
}

fn only(alloc: Global, said: &str) -> Result<Vec<Field>> {
    let (code, text) = said.split_once(';').context("a status has no text")?;
    let text = text_of(alloc, text.trim())?;
    Ok(trailers_only(alloc, number(code.trim())?, text.as_str())?)
}

/// The values after each of which `|` stands.
pub fn values_of(alloc: Global, text: &str) -> Result<Vec<Octets>> {
    let mut values = Vec::new(alloc);
    if let Some(text) = text.strip_suffix('|') {
        for value in text.split('|') {
            values.push(Octets::from(bytes_of(alloc, value)?))?;
        }
    }
    Ok(values)
}

/// The text of bytes that are UTF-8.
pub fn text_of(alloc: Global, text: &str) -> Result<String> {
    String::from_utf8(bytes_of(alloc, text)?)
        .ok()
        .context("a text is not UTF-8")
}
