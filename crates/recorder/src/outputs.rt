//! The places that all connections share.

use crate::backlog::Backlog;
use crate::notes::Entry;
use std::fs::File;
use std::io;
use std::io::Write;
use std::sync::{Arc, Wait};

/// Where lines are written.
#[derive(Drop)]
pub enum Lines {
    /// Nowhere: there are none.
    Nowhere,
    /// On standard error.
    Standard(Arc<Backlog>),
    File(File),
}

/// The places that all connections share.
#[derive(Drop)]
pub struct Outputs {
    pub lines: Lines,
    pub capture: Option<File>,
}

/// What can't be written, and why.
#[derive(Drop)]
pub struct UnwrittenFile {
    pub what: &'static str,
    pub why: io::Error,
}

impl UnwrittenFile {
    pub fn new(what: &'static str, why: io::Error) -> UnwrittenFile {
        UnwrittenFile { what, why }
    }
}

impl Outputs {
    /// Writes the whole of it, each kind at once. Lines for standard error are left to the thread
    /// that prints them.
    pub fn write(&mut self, rt: &impl Wait, entry: &Entry) -> Result<(), UnwrittenFile> {
        let lines = entry.lines.as_str();
        if !lines.is_empty() {
            match &mut self.lines {
                Lines::Nowhere => {}
                Lines::Standard(backlog) => backlog.leave(rt, lines),
                Lines::File(file) => {
                    if let Err(why) = file.write_all(lines.as_bytes()) {
                        return Err(UnwrittenFile::new("the trace", why));
                    }
                }
            }
        }
        self.capture(entry.records.as_slice())
    }

    fn capture(&mut self, records: &[u8]) -> Result<(), UnwrittenFile> {
        match &mut self.capture {
            Some(file) if !records.is_empty() => match file.write_all(records) {
                Ok(()) => Ok(()),
                Err(why) => Err(UnwrittenFile::new("the capture", why)),
            },
            _ => Ok(()),
        }
    }
}
