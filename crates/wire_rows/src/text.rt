//! How bytes and fields stand in a row: a byte for itself, `\xHH` for the byte of two hexadecimal
//! digits, and `\xHH*N;` for N of them; a field as `NAME: VALUE`, with `|` between fields, and
//! `no fields` for none.

use anyhow::{Context, Result};
use lists::{Field, Octets};
use std::alloc::Global;

/// The bytes of a text.
pub fn bytes_of(alloc: Global, text: &str) -> Result<Vec<u8>> {
    let mut bytes = Vec::new(alloc);
    for (place, piece) in text.split('\\').enumerate() {
        let rest = if place == 0 {
            piece
        } else {
            push_escaped(&mut bytes, piece)?
        };
        bytes.extend_from_slice(rest.as_bytes())?;
    }
    Ok(bytes)
}

/// Adds the byte whose digits follow a backslash, as often as the text says, and answers what
/// follows.
fn push_escaped<'a>(bytes: &mut Vec<u8>, piece: &'a str) -> Result<&'a str> {
    let escape = piece.strip_prefix('x').context("no escape")?;
    let (digits, rest) = escape.split_at_checked(2).context("no digits behind \\x")?;
    let byte = u8::from_str_radix(digits, 16)?;
    let Some(counted) = rest.strip_prefix('*') else {
        bytes.push(byte)?;
        return Ok(rest);
    };
    let (count, rest) = counted.split_once(';').context("no end of a number")?;
    for _ in 0..count.parse::<usize>()? {
        bytes.push(byte)?;
    }
    Ok(rest)
}

/// The fields of a text, in which a part `plain` stands for these.
pub fn fields_of(alloc: Global, text: &str, plain: &[Field]) -> Result<Vec<Field>> {
    let mut fields = Vec::new(alloc);
    if text == "no fields" {
        return Ok(fields);
    }
    for part in text.split('|') {
        if part.trim() == "plain" {
            for field in plain {
                fields.push(field.clone()?)?;
            }
        } else {
            fields.push(field_of(alloc, part.trim())?)?;
        }
    }
    Ok(fields)
}

/// The field of a part. After its name are a colon and a blank, or the colon alone where the value
/// is empty.
fn field_of(alloc: Global, part: &str) -> Result<Field> {
    let (name, value) = match part.split_once(": ") {
        Some((name, value)) => (name, value.trim()),
        None => (part.strip_suffix(':').context("a field has no colon")?, ""),
    };
    Ok(Field {
        name: Octets::from(bytes_of(alloc, name)?),
        value: Octets::from(bytes_of(alloc, value)?),
    })
}

/// Answers what is wanted if these bytes are, and else the bytes.
pub fn push_bytes(alloc: Global, answer: &mut String, bytes: &[u8], wanted: &str) -> Result<()> {
    if bytes == bytes_of(alloc, wanted)?.as_slice() {
        answer.push_str(wanted)?;
    } else {
        answer.push_str(String::from_utf8_lossy(alloc, bytes)?.as_str())?;
    }
    Ok(())
}

/// Answers what is wanted if these fields are, and else the fields.
pub fn push_fields(
    alloc: Global,
    answer: &mut String,
    fields: &[Field],
    wanted: &str,
) -> Result<()> {
    let says_fields = wanted == "no fields" || wanted.contains(':');
    if says_fields && fields == fields_of(alloc, wanted, &[])?.as_slice() {
        answer.push_str(wanted)?;
    } else {
        write!(answer, "{fields:?}")?;
    }
    Ok(())
}
