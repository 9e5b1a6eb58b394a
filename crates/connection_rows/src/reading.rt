//! Rows of connections and their events.
//!
//! `rows` reads a file: the rows of its lines, and the names that it gives to what begins many of
//! them. `part` is what stands on a line: bytes and their events. `feeding` reads the bytes of a
//! row by the reading core, cut in many ways, and compares their events; `events` writes events as
//! the rows have them.

use crate::Tally;
use anyhow::Result;

pub mod events;
pub mod feeding;
mod part;
mod rows;

pub const FILES: [&str; 11] = [
    "preface.rows",
    "first_frames.rows",
    "settings.rows",
    "connection_frames.rows",
    "frames.rows",
    "states.rows",
    "errors.rows",
    "header_blocks.rows",
    "malformed_heads.rows",
    "long_inputs.rows",
    "clients.rows",
];

/// Compares the rows of a file, and prints those that differ.
pub fn run_file(rt: &(impl Print + AllocGlobal), file: &str, text: &str) -> Result<Tally> {
    let alloc = rt.alloc();
    let mut tally = Tally {
        rows: 0,
        differing: 0,
    };
    for row in rows::read(alloc, file, text)?.as_slice() {
        tally.rows = tally.rows.saturating_add(1);
        if let Some(difference) = feeding::difference(alloc, &row.part)? {
            tally.differing = tally.differing.saturating_add(1);
            let line = row.line;
            let wanted = row.part.events.as_str();
            println!(rt; "{file}:{line}: wanted{wanted}")?;
            println!(rt; "{file}:{line}: {difference}")?;
        }
    }
    Ok(tally)
}
