//! Devices that give and take a byte at a call, and fail.

use anyhow::Result;
use device::{DeviceFault, ReadFault, StdDevice, read_all, write_all};
use std::alloc::{AllocError, Global};
use std::io;
use std::io::{Read, Write};

const TEXT: &[u8] = b"all of it";

/// Gives one byte at a call, every other time after a signal, and fails at a place.
#[derive(Drop)]
struct Trickle {
    bytes: Vec<u8>,
    at: usize,
    fails_at: usize,
    is_interrupted: bool,
}

impl Trickle {
    fn new(alloc: Global, bytes: &[u8], fails_at: usize) -> Result<Trickle, AllocError> {
        Ok(Trickle {
            bytes: Vec::from_slice(alloc, bytes)?,
            at: 0,
            fails_at,
            is_interrupted: false,
        })
    }
}

impl Read for Trickle {
    fn read(&mut self, buf: &mut [u8]) -> io::Result<usize> {
        self.is_interrupted = !self.is_interrupted;
        if self.is_interrupted {
            return Err(io::Error::from(io::ErrorKind::Interrupted));
        }
        if self.at == self.fails_at {
            return Err(io::Error::from(io::ErrorKind::Other));
        }
        if self.at >= self.bytes.len() || buf.is_empty() {
            return Ok(0);
        }
        buf[0] = self.bytes[self.at];
        self.at += 1;
        Ok(1)
    }
}

/// Takes one byte at a call, every other time after a signal, and has room for a number of bytes.
#[derive(Drop)]
struct Narrow {
    bytes: Vec<u8>,
    room: usize,
    is_interrupted: bool,
}

impl Write for Narrow {
    fn write(&mut self, buf: &[u8]) -> io::Result<usize> {
        self.is_interrupted = !self.is_interrupted;
        if self.is_interrupted {
            return Err(io::Error::from(io::ErrorKind::Interrupted));
        }
        if self.bytes.len() >= self.room || buf.is_empty() {
            return Ok(0);
        }
        self.bytes.push(buf[0])?;
        Ok(1)
    }

    fn flush(&mut self) -> io::Result<()> {
        Ok(())
    }
}

/// What is read of a text by a reader that fails at a place, and whether the reader is marked then.
fn read_up_to(alloc: Global, fails_at: usize) -> Result<(Option<Vec<u8>>, bool)> {
    let mut input = StdDevice::new(Trickle::new(alloc, TEXT, fails_at)?);
    let all = match read_all(alloc, &mut input) {
        Ok(all) => Some(all),
        Err(ReadFault::Device | ReadFault::OutOfMemory) => None,
    };
    Ok((all, input.has_failed()))
}

/// What is written of a text if there is room for a number of bytes, and whether that was all.
fn write_within(alloc: Global, room: usize) -> (Result<(), DeviceFault>, Vec<u8>) {
    let mut output = StdDevice::new(Narrow {
        bytes: Vec::new(alloc),
        room,
        is_interrupted: false,
    });
    let written = write_all(&mut output, TEXT);
    (written, output.into_inner().bytes)
}

pub fn pass_over_signals(alloc: Global) -> Result<bool> {
    let (all, failed) = read_up_to(alloc, 99)?;
    let (done, written) = write_within(alloc, 99);
    let is_read = match all {
        Some(all) => all.as_slice() == TEXT && !failed,
        None => false,
    };
    Ok(is_read && done == Ok(()) && written.as_slice() == TEXT)
}

pub fn fail(alloc: Global) -> Result<bool> {
    let (all, failed) = read_up_to(alloc, 4)?;
    let (done, written) = write_within(alloc, 3);
    Ok(
        all.is_none()
            && failed
            && done == Err(DeviceFault)
            && written.as_slice() == b"all".as_slice(),
    )
}
