//! Files of rows: what a line is, and trying the rows of a file.

use anyhow::{Context, Result};
use std::alloc::Global;
use std::fs;
use std::rt::Files;

/// What stands between what a row gives and what it wants.
const ARROW: &str = "->";

/// What the rows of a file are tried on.
pub trait Subject {
    /// The answer to what a row gives, in the words of its file.
    fn answer(&self, alloc: Global, given: &str) -> Result<String>;
}

/// What a row gives and what it wants; none where the line is empty or a comment.
fn read_line(line: &str) -> Result<Option<(&str, &str)>> {
    let line = line.trim();
    if line.is_empty() || line.starts_with('#') {
        return Ok(None);
    }
    let (given, wanted) = line.split_once(ARROW).context("the row has no arrow")?;
    Ok(Some((given.trim(), wanted.trim())))
}

/// The rows of a file that were tried.
#[derive(Clone, Copy)]
struct RowTally {
    rows: u32,
    differing: u32,
}

/// What is answered to a row, or why nothing is.
fn answer_to<S: Subject>(alloc: Global, subject: &S, given: &str) -> Result<String> {
    match subject.answer(alloc, given) {
        Ok(answer) => Ok(answer),
        Err(error) => Ok(format!(in alloc; "{error:#}")?),
    }
}

/// Tries a row, and prints where it stands if its answer isn't the wanted one.
fn try_row<S: Subject>(
    rt: &(impl Print + AllocGlobal),
    subject: &S,
    place: &str,
    row: (&str, &str),
    tried: RowTally,
) -> Result<RowTally> {
    let (given, wanted) = row;
    let got = answer_to(rt.alloc(), subject, given)?;
    let rows = tried.rows.saturating_add(1);
    let mut differing = tried.differing;
    if got.as_str().trim() != wanted {
        differing = differing.saturating_add(1);
        println!(rt; "{place}: {given}: wanted {wanted}, got {got}")?;
    }
    Ok(RowTally { rows, differing })
}

/// Tries the rows of a file, prints those whose answer isn't the wanted one, and answers how many
/// they are.
pub fn try_file<S: Subject + Drop>(
    rt: &(impl Files + Print + AllocGlobal),
    name: &str,
    subject: S,
) -> Result<u32> {
    let text = fs::read_to_string(rt, name).context(format_args!("{name}"))?;
    let tried = try_lines(rt, name, text.as_str(), &subject)?;
    let rows = tried.rows;
    println!(rt; "{name}: {rows} rows")?;
    Ok(tried.differing)
}

fn try_lines<S: Subject>(
    rt: &(impl Print + AllocGlobal),
    name: &str,
    text: &str,
    subject: &S,
) -> Result<RowTally> {
    let mut tried = RowTally {
        rows: 0,
        differing: 0,
    };
    for (index, line) in text.lines().enumerate() {
        let number = index.saturating_add(1);
        let place = format!(in rt.alloc(); "{name}, line {number}")?;
        if let Some(row) = read_line(line).context(format_args!("{place}"))? {
            tried = try_row(rt, subject, place.as_str(), row, tried)?;
        }
    }
    Ok(tried)
}
