//! Reading header blocks: one long Huffman text, and entries that go from the table one after
//! another.

use crate::sizes::number;
use anyhow::Result;
use hpack_codec::{Decoder, HpackFault};
use std::alloc::{AllocError, Global};
use std::rt::Clock;
use std::time::Instant;

/// How many entries a block brings, so that their sizes are lawful together.
const ENTRIES: usize = 1000;

/// A literal without name whose value is a Huffman text of this many bytes, `&` in each of them.
fn text(alloc: Global, len: usize) -> Result<Vec<u8>, AllocError> {
    let more = len.saturating_sub(127);
    let mut block = Vec::new(alloc);
    block.push(0)?;
    block.push(0)?;
    block.push(0xff)?;
    block.push((more % 128) as u8 | 0x80)?;
    block.push((more / 128 % 128) as u8 | 0x80)?;
    block.push((more / 16384 % 128) as u8)?;
    for _ in 0..len {
        block.push(0xf8)?;
    }
    Ok(block)
}

/// Literals that become entries, of 33 each.
fn entries(alloc: Global) -> Result<Vec<u8>, AllocError> {
    let mut block = Vec::new(alloc);
    for _ in 0..ENTRIES {
        block.extend_from_slice(&[0x40, 1, b'a', 0])?;
    }
    Ok(block)
}

/// How many bytes of names and values stand in the block.
fn read(decoder: &mut Decoder, block: &[u8]) -> Result<usize, HpackFault> {
    let mut bytes = 0usize;
    for field in &decoder.block(block)? {
        bytes = bytes
            .wrapping_add(field.name.len())
            .wrapping_add(field.value.len());
    }
    Ok(bytes)
}

/// Reads a block so often. Answers how many bytes of names and values stood in it altogether, and
/// the nanoseconds.
fn read_timed(
    rt: &(impl Clock + AllocGlobal),
    block: &[u8],
    times: usize,
) -> Result<(usize, u128)> {
    let mut decoder = Decoder::new(rt.alloc());
    let start = Instant::now(rt)?;
    let bytes = read_often(&mut decoder, block, times)?;
    Ok((bytes, start.elapsed(rt)?.as_nanos()))
}

fn read_often(decoder: &mut Decoder, block: &[u8], times: usize) -> Result<usize> {
    let mut bytes = 0usize;
    for _ in 0..times {
        bytes = bytes.wrapping_add(read(decoder, block)?);
    }
    Ok(bytes)
}

/// `hpack-huffman LENGTH`: prints what was read in a Huffman text of this many bytes, and the
/// nanoseconds.
pub fn huffman(rt: &(impl Clock + AllocGlobal + Print), sizes: &[String]) -> Result<()> {
    let block = text(rt.alloc(), number(sizes, 0)?)?;
    let (bytes, nanos) = read_timed(rt, block.as_slice(), 1)?;
    println!(rt; "{bytes} {nanos}")?;
    Ok(())
}

/// `hpack-evictions THOUSANDS`: prints what was read in this many thousand entries, and the
/// nanoseconds.
pub fn evictions(rt: &(impl Clock + AllocGlobal + Print), sizes: &[String]) -> Result<()> {
    let block = entries(rt.alloc())?;
    let (bytes, nanos) = read_timed(rt, block.as_slice(), number(sizes, 0)?)?;
    println!(rt; "{bytes} {nanos}")?;
    Ok(())
}

/// Reads both blocks by one decoder, one after another.
fn read_small(alloc: Global) -> Result<(usize, usize)> {
    let (huffman, evictions) = (text(alloc, 500)?, entries(alloc)?);
    let mut decoder = Decoder::new(alloc);
    read_both(&mut decoder, huffman.as_slice(), evictions.as_slice())
}

fn read_both(decoder: &mut Decoder, first: &[u8], second: &[u8]) -> Result<(usize, usize)> {
    Ok((read(decoder, first)?, read(decoder, second)?))
}

pub fn small(rt: &(impl AllocGlobal + Print)) -> Result<()> {
    let (huffman, evictions) = read_small(rt.alloc())?;
    println!(rt; "hpack-huffman: {huffman} bytes")?;
    println!(rt; "hpack-evictions: {evictions} bytes")?;
    Ok(())
}
