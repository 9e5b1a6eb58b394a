//! Worked rows for the wire: bytes and the frames that they are, frames and the verdicts on them,
//! histories of windows and credit books, header blocks and heads of calls, each with the answer
//! that RFC 9113, RFC 7541 and gRPC over HTTP/2 demand of it.
//!
//! The rows are in `data/`, a line each: what is given, an arrow, and what is wanted. The head of
//! each file says what its words mean and where its values come from; for the files of header
//! blocks and heads `data/README.md` does. The program tries all of them, prints each row whose
//! answer is another, and counts the rows of each file; it fails where one differs.
//!
//! It promises nothing of itself: a function reads a row and calls what it tries. `topics` says
//! which one answers the rows of a file. `frames`, `kinds` and `names` try `h2frame`; `verdicts`
//! and `credit` try `flow`; `blocks` tries `hpack_codec`, and `heads`, `answers` and `values` try
//! `callhead`, with bytes and fields as `text` reads them.
#![tactic(auto)]

use anyhow::{Result, ensure};
use rows::try_file;
use topics::{OfFlow, OfFrames, OfHeaders};

mod answers;
mod blocks;
mod credit;
mod frames;
mod heads;
mod kinds;
mod names;
mod text;
mod topics;
mod values;
mod verdicts;

const FRAMES: [&str; 6] = [
    "frames.rows",
    "faults.rows",
    "kinds.rows",
    "lengths.rows",
    "refused.rows",
    "names.rows",
];

const FLOW: [&str; 4] = [
    "verdicts.rows",
    "streams.rows",
    "windows.rows",
    "books.rows",
];

const HEADERS: [&str; 13] = [
    "blocks-standard.rows",
    "blocks-clients.rows",
    "blocks-limits.rows",
    "blocks-refused.rows",
    "blocks-written.rows",
    "heads-clients.rows",
    "heads-malformed.rows",
    "heads-read.rows",
    "timeouts.rows",
    "status-texts.rows",
    "binary-values.rows",
    "answers.rows",
    "fault-texts.rows",
];

fn main(rt: HostRuntime) -> Result<()> {
    let mut differing = 0u32;
    for file in FRAMES {
        let mut subject = OfFrames { file };
        differing = differing.saturating_add(try_file(&rt, file, &mut subject)?);
    }
    for file in FLOW {
        let mut subject = OfFlow::new(rt.alloc(), file);
        differing = differing.saturating_add(try_file(&rt, file, &mut subject)?);
    }
    for file in HEADERS {
        let mut subject = OfHeaders::new(rt.alloc(), file);
        differing = differing.saturating_add(try_file(&rt, file, &mut subject)?);
    }
    ensure!(differing == 0, "{differing} rows differ");
    Ok(())
}
