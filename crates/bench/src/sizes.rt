//! The numbers after a measurement's name.

use anyhow::{Context, Result};

/// The number at this place.
pub fn number(sizes: &[String], at: usize) -> Result<usize> {
    let word = sizes.get(at).context("a number is missing")?;
    Ok(word.as_str().parse::<usize>()?)
}

/// The number at this place, where 32 bits are enough for it.
pub fn number32(sizes: &[String], at: usize) -> Result<u32> {
    Ok(u32::try_from(number(sizes, at)?)?)
}

/// The number at this place, where 16 bits are enough for it.
pub fn number16(sizes: &[String], at: usize) -> Result<u16> {
    Ok(u16::try_from(number(sizes, at)?)?)
}
