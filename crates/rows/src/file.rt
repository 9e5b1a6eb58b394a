//! Trying the rows of a file.

use anyhow::{Context, Result};
use std::alloc::Global;
use std::fs;
use std::rt::Files;

/// What stands between what a row gives and what it wants.
const ARROW: &str = "->";

/// What a row gives, its text and the words of it, and the answer that it wants.
#[derive(Clone, Copy)]
pub struct GivenRow<'a> {
    pub text: &'a str,
    pub words: &'a [&'a str],
    pub wanted: &'a str,
}

/// What the rows of a file are tried on.
pub trait Subject {
    /// Begins anew, as each heading asks.
    fn restart(&mut self, alloc: Global);

    /// Writes the answer to what a row gives, in the words of its file, after nothing.
    fn answer(&mut self, alloc: Global, given: GivenRow<'_>, answer: &mut String) -> Result<()>;
}

/// The line without its comment: all of one that begins with `#`, or what follows ` # `.
fn without_comment(line: &str) -> &str {
    if line.starts_with('#') {
        return "";
    }
    match line.split_once(" # ") {
        Some((row, _)) => row.trim(),
        None => line.trim(),
    }
}

/// Tries a row: whether its answer is the wanted one, which is printed if it isn't.
fn holds<S: Subject>(rt: &(impl Print + AllocGlobal), subject: &mut S, row: &str) -> Result<bool> {
    let (text, wanted) = row.split_once(ARROW).context("the row has no arrow")?;
    let (text, wanted) = (text.trim(), wanted.trim());
    let words: Vec<&str> = text.split_whitespace().collect(rt.alloc())?;
    let words = words.as_slice();
    let given = GivenRow {
        text,
        words,
        wanted,
    };
    let mut answer = String::new(rt.alloc());
    subject.answer(rt.alloc(), given, &mut answer)?;
    if answer.as_str() == wanted {
        return Ok(true);
    }
    tell(rt, text, wanted, answer.as_str())?;
    Ok(false)
}

fn tell(rt: &impl Print, text: &str, wanted: &str, answer: &str) -> Result<()> {
    println!(rt; "{text}: wanted {wanted}, got {answer}")?;
    Ok(())
}

/// Tries the rows of a file, prints those whose answer isn't the wanted one and how many rows there
/// are, and answers how many differ.
///
/// # Errors
///
/// The file can't be read, a line is no row, or the subject can't answer; or there is no memory.
pub fn try_file<S: Subject>(
    rt: &(impl Files + Print + AllocGlobal),
    name: &str,
    subject: &mut S,
) -> Result<u32> {
    let file = fs::read_to_string(rt, name).context(format_args!("{name}"))?;
    let (mut rows, mut differing) = (0u32, 0u32);
    for (place, line) in file.as_str().lines().enumerate() {
        let number = place.saturating_add(1);
        let row = without_comment(line);
        if row.starts_with('[') {
            subject.restart(rt.alloc());
        } else if !row.is_empty() {
            rows = rows.saturating_add(1);
            if !holds(rt, subject, row).context(format_args!("{name}, line {number}"))? {
                differing = differing.saturating_add(1);
                println!(rt; "  in {name}, line {number}")?;
            }
        }
    }
    println!(rt; "{name}: {rows} rows")?;
    Ok(differing)
}
