//! A file of rows: which lines are acts, and what each has to tell.

use super::acts::{Core, perform};
use super::peer::Peer;
use crate::Tally;
use anyhow::{Result, ensure};

/// Runs all rows of a file. The acts that tell something else are printed, and counted as
/// differing.
pub fn run_file(rt: &(impl AllocGlobal + Print), file: &str, text: &str) -> Result<Tally> {
    let mut tally = Tally {
        rows: 0,
        differing: 0,
    };
    let mut number = 1usize;
    for (index, piece) in text.split("\nrow ").enumerate() {
        if index == 0 {
            ensure!(
                piece.lines().all(is_comment),
                "an act stands before the first row"
            );
        } else {
            tally.rows = tally.rows.saturating_add(1);
            let differing = run_row(rt, file, number, piece)?;
            tally.differing = tally.differing.saturating_add(differing);
        }
        number = number.saturating_add(piece.split('\n').count());
    }
    Ok(tally)
}

fn is_comment(line: &str) -> bool {
    line.is_empty() || line.starts_with('#')
}

/// Runs a row, the lines from this number on, of which the first is its name. Answers how many acts
/// gave another text.
fn run_row(rt: &(impl AllocGlobal + Print), file: &str, first: usize, row: &str) -> Result<u64> {
    let mut core = Core::new(rt.alloc());
    let mut peer = Peer::new(rt.alloc());
    run_acts(rt, &mut core, &mut peer, file, first, row)
}

fn run_acts(
    rt: &(impl AllocGlobal + Print),
    core: &mut Core,
    peer: &mut Peer,
    file: &str,
    first: usize,
    row: &str,
) -> Result<u64> {
    let mut differing = 0_u64;
    for (index, line) in row.lines().enumerate() {
        if index == 0 || is_comment(line) {
            continue;
        }
        if !holds(rt, core, peer, line)? {
            let number = first.saturating_add(index);
            print_differing(rt, file, number, line, peer.told())?;
            differing = differing.saturating_add(1);
        }
    }
    Ok(differing)
}

/// Performs the act of a line, and answers whether it gave the text that it has to.
fn holds(rt: &impl AllocGlobal, core: &mut Core, peer: &mut Peer, line: &str) -> Result<bool> {
    let (act, wanted) = parts(line);
    peer.forget();
    perform(rt.alloc(), core, peer, act)?;
    Ok(peer.told() == wanted)
}

/// An act, and what it has to tell.
fn parts(line: &str) -> (&str, &str) {
    let (act, wanted) = line.split_once("->").unwrap_or((line, ""));
    (act, wanted.trim())
}

fn print_differing(
    rt: &impl Print,
    file: &str,
    number: usize,
    line: &str,
    told: &str,
) -> Result<()> {
    let (_act, wanted) = parts(line);
    println!(rt; "{file}:{number}: wanted {wanted:?}, got {told:?}")?;
    Ok(())
}
