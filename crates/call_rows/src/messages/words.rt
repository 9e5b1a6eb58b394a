//! How bytes are written in a row: hexadecimal digits, `00*5` for a byte that stands five times,
//! `+` between such parts, and `-` for no bytes.

use anyhow::{Context, Result};
use std::alloc::Global;

/// The bytes of one part of a word.
fn push_part(bytes: &mut Vec<u8>, alloc: Global, part: &str) -> Result<()> {
    let (digits, count) = match part.split_once('*') {
        Some((digits, count)) => (
            digits,
            count
                .parse::<u32>()
                .context(format_args!("{count} is no number"))?,
        ),
        None => (part, 1),
    };
    let piece = hex::decode(alloc, digits).context(format_args!("{digits} is not hexadecimal"))?;
    for _ in 0..count {
        bytes.extend_from_slice(piece.as_slice())?;
    }
    Ok(())
}

/// The bytes of a word.
pub fn bytes_of(alloc: Global, word: &str) -> Result<Vec<u8>> {
    let mut bytes = Vec::new(alloc);
    if word == "-" {
        return Ok(bytes);
    }
    for part in word.split('+') {
        push_part(&mut bytes, alloc, part)?;
    }
    Ok(bytes)
}

/// The bytes of all words, joined.
pub fn joined_bytes(alloc: Global, text: &str) -> Result<Vec<u8>> {
    let mut bytes = Vec::new(alloc);
    for word in text.split_whitespace() {
        bytes.extend_from_slice(bytes_of(alloc, word)?.as_slice())?;
    }
    Ok(bytes)
}

/// The bytes of each word.
pub fn all_bytes(alloc: Global, text: &str) -> Result<Vec<Vec<u8>>> {
    let mut all = Vec::new(alloc);
    for word in text.split_whitespace() {
        all.push(bytes_of(alloc, word)?)?;
    }
    Ok(all)
}

/// The fewest equal bytes at an end that are written as one part.
const LONG_RUN: usize = 16;

/// How many bytes at the end are equal to the last.
fn run_at_end(bytes: &[u8]) -> usize {
    match bytes.last() {
        Some(last) => bytes
            .iter()
            .rev()
            .take_while(|byte| **byte == *last)
            .count(),
        None => 0,
    }
}

fn push_digits(text: &mut String, bytes: &[u8]) -> Result<()> {
    for byte in bytes {
        write!(text, "{byte:02x}")?;
    }
    Ok(())
}

/// Writes the word of these bytes.
pub fn push_bytes(text: &mut String, bytes: &[u8]) -> Result<()> {
    if bytes.is_empty() {
        text.push('-')?;
        return Ok(());
    }
    let run = run_at_end(bytes);
    if run < LONG_RUN {
        return push_digits(text, bytes);
    }
    let before = bytes.len().saturating_sub(run);
    if before > 0 {
        push_digits(
            text,
            bytes
                .get(..before)
                .context("a run is no longer than the bytes")?,
        )?;
        text.push('+')?;
    }
    let last = bytes.last().context("a run has a byte")?;
    write!(text, "{last:02x}*{run}")?;
    Ok(())
}
