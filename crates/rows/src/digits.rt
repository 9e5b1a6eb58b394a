//! Bytes and numbers as rows have them.

use anyhow::{Context, Result};
use std::alloc::Global;

/// The bytes of pairs of hexadecimal digits, with or without blanks between them.
pub fn bytes_of(alloc: Global, text: &str) -> Result<Vec<u8>> {
    let mut digits = String::new(alloc);
    for part in text.split_whitespace() {
        digits.push_str(part)?;
    }
    Ok(hex::decode(alloc, digits.as_str())?)
}

/// The number that a word has in decimal digits.
pub fn number(word: &str) -> Result<u32> {
    word.parse::<u32>()
        .context(format_args!("{word} is no number"))
}
