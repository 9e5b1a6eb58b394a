//! The place of a fault in a header block (RFC 7541, sections 5 and 6).
//!
//! The decoder says which fault is the first. This module goes over the block once more, field by
//! field, to find its place.

use hpack_codec::{Decoder, HpackFault};
use std::alloc::Global;

/// The greatest index of the static table, and the most entries that a dynamic one of 4,096 bytes
/// has.
const STATIC: u64 = 61;

const MOST_ENTRIES: u64 = 128;

/// The greatest size of the dynamic table.
const MOST_SIZE: u64 = 4_096;

/// The most bytes of an integer, with that of its prefix.
const MOST_BYTES: usize = 6;

/// The place of a fault: this byte of the block, which begins a field or a size update with this
/// number.
#[derive(Clone, Copy, Debug, PartialEq, Eq)]
pub struct BlockPlace {
    pub at: usize,
    pub byte: u8,
    pub number: u64,
}

/// What is at one place of a block.
#[derive(Clone, Copy, Debug, PartialEq, Eq)]
enum Shape {
    Indexed,
    Literal,
    SizeUpdate,
}

/// A field or a size update: its number (an index, or a size), and how long it is.
#[derive(Clone, Copy)]
struct Item {
    shape: Shape,
    number: u64,
    length: usize,
}

/// The place of this fault, the first of the block.
pub fn place_of(alloc: Global, block: &[u8], fault: HpackFault) -> Option<BlockPlace> {
    let mut rest = block;
    let mut is_behind = false;
    let mut greatest: Option<BlockPlace> = None;
    for _ in 0..block.len() {
        let first = rest.first()?;
        let at = block.len().saturating_sub(rest.len());
        let Some(item) = item_at(rest) else {
            return greatest.or(Some(BlockPlace {
                at,
                byte: *first,
                number: 0,
            }));
        };
        let place = BlockPlace {
            at,
            byte: *first,
            number: item.number,
        };
        if has_fault(alloc, fault, &item, is_behind, rest) {
            return Some(place);
        }
        if fault == HpackFault::Index && is_greater(&item, greatest) {
            greatest = Some(place);
        }
        is_behind = is_behind || item.shape != Shape::SizeUpdate;
        rest = rest.get(item.length..)?;
    }
    greatest
}

/// Whether the item has an index over those of the static table, and over that of this place.
fn is_greater(item: &Item, place: Option<BlockPlace>) -> bool {
    let greatest = match place {
        Some(place) => place.number,
        None => STATIC,
    };
    item.shape != Shape::SizeUpdate && item.number > greatest
}

/// Whether the fault is in the item at the front of these bytes.
fn has_fault(alloc: Global, fault: HpackFault, item: &Item, is_behind: bool, bytes: &[u8]) -> bool {
    match (fault, item.shape) {
        (HpackFault::Index, Shape::Indexed) if item.number == 0 => true,
        (HpackFault::Index, Shape::Indexed | Shape::Literal) => {
            item.number > STATIC + MOST_ENTRIES
        }
        (HpackFault::SizeUpdate, Shape::SizeUpdate) => is_behind || item.number > MOST_SIZE,
        (HpackFault::Huffman, Shape::Literal) => {
            let field = bytes.get(..item.length).unwrap_or(bytes);
            Decoder::new(alloc).block(field).err() == Some(HpackFault::Huffman)
        }
        _ => false,
    }
}

/// What is at the front, if it is whole and none of its integers is too large.
fn item_at(bytes: &[u8]) -> Option<Item> {
    let first = *bytes.first()?;
    let (shape, prefix) = match first {
        0x80.. => (Shape::Indexed, 7),
        0x40.. => (Shape::Literal, 6),
        0x20.. => (Shape::SizeUpdate, 5),
        _ => (Shape::Literal, 4),
    };
    let (number, rest) = integer(prefix, bytes)?;
    let rest = match shape {
        Shape::Literal if number == 0 => behind_text(behind_text(rest)?)?,
        Shape::Literal => behind_text(rest)?,
        _ => rest,
    };
    Some(Item {
        shape,
        number,
        length: bytes.len().saturating_sub(rest.len()),
    })
}

/// What follows the text at the front.
fn behind_text(bytes: &[u8]) -> Option<&[u8]> {
    let (length, rest) = integer(7, bytes)?;
    rest.get(length as usize..)
}

/// The integer after the first bits of these bytes, and what follows it.
fn integer(prefix: u32, bytes: &[u8]) -> Option<(u64, &[u8])> {
    let (first, mut rest) = bytes.split_first()?;
    let most = match prefix {
        7 => 0x7f,
        6 => 0x3f,
        5 => 0x1f,
        _ => 0x0f,
    };
    let mut value = u64::from(*first & most);
    if *first & most != most {
        return Some((value, rest));
    }
    let mut weight = 1u64;
    for _ in 1..MOST_BYTES {
        let (byte, behind) = rest.split_first()?;
        rest = behind;
        value = value.saturating_add(u64::from(*byte & 0x7f).saturating_mul(weight));
        weight = weight.saturating_mul(128);
        if *byte < 0x80 {
            return (value <= u64::from(u32::MAX)).then_some((value, rest));
        }
    }
    None
}
