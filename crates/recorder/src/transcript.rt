//! The bytes of a connection, as text that `trace::sent_of` reads: a line for what a side sent at a
//! time, as `1204 client 505249`.

use crate::outputs::UnwrittenFile;
use capture::Side;
use std::alloc::{AllocError, Global};
use std::fs::File;
use std::io::{ErrorKind, Write};
use std::rt::Files;
use std::{fs, io};

/// What can't be written.
const WHAT: &str = "the bytes of a connection";

/// The file of a connection.
#[derive(Drop)]
pub struct Transcript {
    alloc: Global,
    file: File,
}

/// The name of the file of the connection of this number.
pub fn name_of(alloc: Global, folder: &str, number: u64) -> Result<String, AllocError> {
    format!(in alloc; "{folder}/{number}.txt")
}

impl Transcript {
    /// Makes the file of a connection, or empties it.
    pub fn create<R: Files<File = File>>(
        rt: &R,
        alloc: Global,
        folder: &str,
        number: u64,
    ) -> Result<Transcript, UnwrittenFile> {
        match open(rt, alloc, folder, number) {
            Ok(file) => Ok(Transcript { alloc, file }),
            Err(why) => Err(UnwrittenFile::new(WHAT, why)),
        }
    }

    /// A side has sent these bytes, `passed` microseconds after the connection began.
    pub fn add(&mut self, passed: u64, side: Side, bytes: &[u8]) -> Result<(), UnwrittenFile> {
        let written = match line_of(self.alloc, passed, side, bytes) {
            Ok(line) => self.file.write_all(line.as_bytes()),
            Err(AllocError) => Err(io::Error::from(ErrorKind::OutOfMemory)),
        };
        match written {
            Ok(()) => Ok(()),
            Err(why) => Err(UnwrittenFile::new(WHAT, why)),
        }
    }
}

fn open<R: Files<File = File>>(
    rt: &R,
    alloc: Global,
    folder: &str,
    number: u64,
) -> io::Result<File> {
    let name = name_of(alloc, folder, number)?;
    fs::create(rt, name.as_str())
}

fn line_of(alloc: Global, passed: u64, side: Side, bytes: &[u8]) -> Result<String, AllocError> {
    let digits = hex::encode(alloc, bytes)?;
    format!(in alloc; "{passed} {side} {digits}\n")
}
