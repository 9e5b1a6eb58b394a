//! What the bytes of connections mean, by the files in `data/`; `data/README.md` says how these are
//! written.
//!
//! - `reading`: rows of a connection that a client writes, and the events that the reading core has
//!   to give, however the bytes are cut.
//! - `writing`: rows of the controls of a connection's writer, and the frames that its peer has to
//!   read.
//! - `recordings`: connections that gRPC clients wrote. Their frames and events are printed;
//!   `stdout` has those that another implementation of HTTP/2 read in them.
//!
//! A row that differs is printed, with the line it stands on, and for each file the number of its
//! rows; where a row differs, the program fails.
#![tactic(auto)]

use anyhow::{Result, ensure};
use std::fs;
use std::rt::Files;

mod reading;
mod recordings;
mod writing;

/// How many rows a file has, and how many things differ in them.
#[derive(Clone, Copy)]
pub struct Tally {
    pub rows: u64,
    pub differing: u64,
}

/// Prints how many rows a file has, and answers how many things differ.
fn tell(rt: &impl Print, file: &str, tally: Tally) -> Result<u64> {
    let rows = tally.rows;
    println!(rt; "{file}: {rows} rows")?;
    Ok(tally.differing)
}

fn main(rt: HostRuntime) -> Result<()> {
    let mut differing = 0_u64;
    for file in reading::FILES {
        let text = fs::read_to_string(&rt, file)?;
        let tally = reading::run_file(&rt, file, text.as_str())?;
        differing = differing.saturating_add(tell(&rt, file, tally)?);
    }
    for file in writing::FILES {
        let text = fs::read_to_string(&rt, file)?;
        let tally = writing::run_file(&rt, file, text.as_str())?;
        differing = differing.saturating_add(tell(&rt, file, tally)?);
    }
    recordings::print(&rt)?;
    ensure!(differing == 0, "{differing} things differ");
    Ok(())
}
