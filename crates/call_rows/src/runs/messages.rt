//! The longest message, and one that is too long.

use anyhow::Result;
use bytes::Bytes;
use lpm::{LpmFault, MAX_MESSAGE_LEN, Split, Splitter, is_frame, write_message, write_prefix};
use std::alloc::Global;

/// What stands before the longest message: its flag, and 4,194,304 in four bytes.
const LONGEST_PREFIX: [u8; 5] = [0, 0, 64, 0, 0];

fn is_written(alloc: Global, longest: &[u8]) -> Result<bool> {
    let mut out = Vec::new(alloc);
    write_message(longest, &mut out)?;
    let mut prefix = Vec::new(alloc);
    write_prefix(MAX_MESSAGE_LEN, &mut prefix)?;
    Ok(
        is_frame(&out)
            && out.as_slice().strip_prefix(&LONGEST_PREFIX) == Some(longest)
            && prefix.as_slice() == LONGEST_PREFIX.as_slice(),
    )
}

/// Pushes the message in pieces of a read.
fn push_all(alloc: Global, splitter: &mut Splitter, longest: &[u8]) -> Result<()> {
    splitter.push(&LONGEST_PREFIX)?;
    for piece in longest.chunks(16_384) {
        splitter.push_shared(Bytes::copy_from_slice(alloc, piece)?)?;
    }
    Ok(())
}

fn is_split(alloc: Global, longest: &[u8]) -> Result<bool> {
    let mut splitter = Splitter::new(alloc);
    push_all(alloc, &mut splitter, longest)?;
    let is_whole = splitter.end() == Ok(());
    let is_same = match splitter.next() {
        Split::Message(message) => message.as_slice() == longest,
        _ => false,
    };
    Ok(is_whole && is_same)
}

pub fn the_longest(alloc: Global) -> Result<bool> {
    let longest = vec![in alloc; 7u8; MAX_MESSAGE_LEN]?;
    let is_written = is_written(alloc, longest.as_slice())?;
    Ok(is_split(alloc, longest.as_slice())? && is_written)
}

pub fn too_long(alloc: Global) -> Result<bool> {
    let too_long = vec![in alloc; 7u8; MAX_MESSAGE_LEN + 1]?;
    let mut untouched = vec![in alloc; 9u8; 2]?;
    let is_refused = write_message(&too_long, &mut untouched) == Err(LpmFault::TooLong);
    Ok(is_refused && untouched.as_slice() == [9, 9].as_slice())
}
