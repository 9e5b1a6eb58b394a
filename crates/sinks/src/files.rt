//! Files that are read and written. Where that can't be, a line on standard error says which, and
//! why.

use crate::fault::SinkFault;
use std::alloc::Global;
use std::rt::Files;
use std::{fs, io};

/// What the name of a file ends in while it isn't whole.
const UNFINISHED: &str = ".part";

/// Makes a file, or empties it.
pub fn create<R: Files + Eprint>(rt: &R, name: &str) -> Result<R::File, SinkFault> {
    match fs::create(rt, name) {
        Ok(file) => Ok(file),
        Err(error) => Err(unwritten(rt, name, &error)),
    }
}

/// Makes a directory, and those above it, where it isn't there.
pub fn create_directory<R: Files + Eprint>(rt: &R, name: &str) -> Result<(), SinkFault> {
    match fs::create_dir_all(rt, name) {
        Ok(()) => Ok(()),
        Err(error) => Err(unwritten(rt, name, &error)),
    }
}

/// The text of a file.
pub fn read<R: Files + Eprint + AllocGlobal>(rt: &R, name: &str) -> Result<String, SinkFault> {
    match fs::read_to_string(rt, name) {
        Ok(text) => Ok(text),
        Err(error) => {
            // The exit status reports it even if nothing can be written here.
            let _said = eprintln!(rt; "interop: {name} can't be read: {error}");
            Err(SinkFault::ReadFailed)
        }
    }
}

/// Writes a file, in place of what it had.
pub fn write<R: Files + Eprint>(rt: &R, name: &str, text: &[u8]) -> Result<(), SinkFault> {
    match fs::write(rt, name, text) {
        Ok(()) => Ok(()),
        Err(error) => Err(unwritten(rt, name, &error)),
    }
}

/// Writes a file so that no reader finds a part of it: beside its place first. What stands there
/// and is no plain file, as a pipe, is written as it is.
///
/// # Errors
///
/// `WriteFailed` where it can't be written; standard error says why.
pub fn write_whole<R: Files + Eprint>(
    rt: &R,
    alloc: Global,
    name: &str,
    text: &str,
) -> Result<(), SinkFault> {
    let beside = format!(in alloc; "{name}{UNFINISHED}")?;
    let written = if is_special(rt, name) {
        fs::write(rt, name, text)
    } else {
        match fs::write(rt, beside.as_str(), text) {
            Ok(()) => fs::rename(rt, beside.as_str(), name),
            Err(error) => Err(error),
        }
    };
    match written {
        Ok(()) => Ok(()),
        Err(error) => Err(unwritten(rt, name, &error)),
    }
}

/// Whether something stands there that is no plain file.
fn is_special<R: Files>(rt: &R, name: &str) -> bool {
    match fs::metadata(rt, name) {
        Ok(found) => !found.is_file(),
        Err(_) => false,
    }
}

/// Says that a file can't be written, and why.
pub fn unwritten(rt: &impl Eprint, name: &str, error: &io::Error) -> SinkFault {
    let _said = eprintln!(rt; "interop: {name} can't be written: {error}");
    SinkFault::WriteFailed
}
