//! The rows of a file. A line is a row, `ITEMS => EVENTS`, or gives a name,
//! `NAME = ITEMS => EVENTS`, which later lines may have as an item. A line that begins with `#` is
//! a comment.

use super::part::{NamedPart, Part};
use anyhow::{Context, Result};
use std::alloc::Global;

/// A connection, and the number of its line.
#[derive(Drop)]
pub struct Row {
    pub line: u64,
    pub part: Part,
}

/// The rows of a file with this text.
pub fn read(alloc: Global, file: &str, text: &str) -> Result<Vec<Row>> {
    let mut names = Vec::new(alloc);
    let mut rows = Vec::new(alloc);
    let mut number = 0_u64;
    for line in text.lines() {
        number = number.saturating_add(1);
        if line.is_empty() || line.starts_with('#') {
            continue;
        }
        if let Some((name, spelled)) = line.split_once(" = ") {
            let part = part_of(alloc, names.as_slice(), spelled, file, number)?;
            let name = String::from_str(alloc, name)?;
            names.push(NamedPart { name, part })?;
        } else {
            let part = part_of(alloc, names.as_slice(), line, file, number)?;
            rows.push(Row { line: number, part })?;
        }
    }
    Ok(rows)
}

/// What a line spells. An error says where.
fn part_of(
    alloc: Global,
    names: &[NamedPart],
    spelled: &str,
    file: &str,
    number: u64,
) -> Result<Part> {
    let place = format!(in alloc; "{file}:{number}")?;
    Part::read(alloc, names, spelled).context(place)
}
