//! Header blocks (RFC 7541): `blocks-standard.rows`, `blocks-clients.rows` and `blocks-limits.rows`
//! for those that are read, `blocks-refused.rows` for those that aren't, `blocks-written.rows` for
//! those that are written.

use crate::text::{fields_of, push_bytes, push_fields};
use anyhow::{Context, Result, bail, ensure};
use hpack_codec::{Decoder, Encoder, HpackFault};
use rows::{GivenRow, number};
use std::alloc::Global;

/// `:method: GET` by its index, a block that each decoder reads.
const LAWFUL_BLOCK: [u8; 1] = [0x82];

/// The first byte of an indexed field, and the indexes of entries that stand in it alone (RFC 7541,
/// section 6.1).
const INDEXED: u8 = 0x80;

const FIRST_ENTRY: u8 = 62;

const LAST_ENTRY: u8 = 126;

/// What an entry counts beside its bytes (RFC 7541, section 4.1).
const OVERHEAD: usize = 32;

/// The bytes of words of hexadecimal digits, each of which may have its number.
fn block_of(alloc: Global, words: &[&str]) -> Result<Vec<u8>> {
    let mut block = Vec::new(alloc);
    for word in words {
        let (digits, count) = word.split_once('*').unwrap_or((*word, "1"));
        let bytes = hex::decode(alloc, digits).context("no hexadecimal digits")?;
        for _ in 0..count.parse::<usize>()? {
            block.extend_from_slice(bytes.as_slice())?;
        }
    }
    Ok(block)
}

/// Adds the fields of a block, or its fault.
fn push_read(
    alloc: Global,
    decoder: &mut Decoder,
    block: &[u8],
    wanted: &str,
    answer: &mut String,
) -> Result<()> {
    match decoder.block(block) {
        Ok(fields) => return push_fields(alloc, answer, fields.as_slice(), wanted),
        Err(HpackFault::OutOfMemory) => return Err(HpackFault::OutOfMemory.into()),
        Err(fault) => write!(answer, "fault {fault:?}")?,
    }
    Ok(())
}

/// The size of the table after blocks: the sum over the entries that a decoder of these blocks
/// gives.
fn table_size(alloc: Global, blocks: &[Vec<u8>]) -> Result<usize> {
    let mut decoder = Decoder::new(alloc);
    for block in blocks {
        let _fields = decoder.block(block.as_slice())?;
    }
    let mut size = 0usize;
    for index in FIRST_ENTRY..=LAST_ENTRY {
        match decoder.block(&[INDEXED | index]) {
            Ok(fields) => {
                for field in fields.as_slice() {
                    let len = field.name.len().saturating_add(field.value.len());
                    size = size.saturating_add(len).saturating_add(OVERHEAD);
                }
            }
            Err(HpackFault::Index) => return Ok(size),
            Err(fault) => return Err(fault.into()),
        }
    }
    bail!("the table has more entries than one byte can name")
}

/// A connection's next block, and its fields or its fault; or `table`, and the size of the dynamic
/// table.
pub fn read(
    alloc: Global,
    decoder: &mut Decoder,
    blocks: &mut Vec<Vec<u8>>,
    given: GivenRow<'_>,
    answer: &mut String,
) -> Result<()> {
    if given.text == "table" {
        write!(answer, "{}", table_size(alloc, blocks.as_slice())?)?;
        return Ok(());
    }
    let block = block_of(alloc, given.words)?;
    push_read(alloc, decoder, block.as_slice(), given.wanted, answer)?;
    blocks.push(block)?;
    Ok(())
}

/// A block on a decoder of its own, which has to be dead after its fault.
pub fn refused(alloc: Global, given: GivenRow<'_>, answer: &mut String) -> Result<()> {
    let mut decoder = Decoder::new(alloc);
    let block = block_of(alloc, given.words)?;
    push_read(alloc, &mut decoder, block.as_slice(), given.wanted, answer)?;
    let is_dead = decoder.block(&LAWFUL_BLOCK).err() == Some(HpackFault::Dead);
    ensure!(is_dead, "behind that the decoder isn't dead");
    Ok(())
}

/// Fields, and their block, which the peer has to read as those fields; or `limit N`, the size of
/// the peer's table.
pub fn written(
    alloc: Global,
    encoder: &mut Encoder,
    decoder: &mut Decoder,
    given: GivenRow<'_>,
    answer: &mut String,
) -> Result<()> {
    if let ["limit", limit] = given.words {
        encoder.limit(number(limit)?);
        answer.push_str("taken")?;
        return Ok(());
    }
    let fields = fields_of(alloc, given.text, &[])?;
    let block = encoder.block(fields.as_slice())?;
    let again = decoder.block(block.as_slice())?;
    let is_same = again.as_slice() == fields.as_slice();
    ensure!(is_same, "it is read as other fields");
    push_bytes(alloc, answer, block.as_slice(), given.wanted)
}
