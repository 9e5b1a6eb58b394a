//! The calls that acts open, and the fields of header blocks.

use account::OutItem;
use anyhow::{Result, bail};
use bytes::Bytes;
use callbox::{Giver, InPiece, Sender, open_call};
use lane::{PutFault, RingLane};
use lists::{Field, Octets, Sequence};
use std::alloc::Global;

pub type Ring = RingLane<OutItem>;

/// The items that a call's lane has room for.
const ROOM: usize = 256;

/// The longest message that a row may have.
const LONGEST: usize = 400_000;

/// One field. Its value is a text of `len` bytes, all of them `2`.
pub fn fields(alloc: Global, name: &str, len: usize) -> Result<Sequence<Field>> {
    let value = vec![in alloc; b'2'; len]?;
    let field = Field {
        name: Octets::from(name.as_bytes().to_vec(alloc)?),
        value: Octets::from(value),
    };
    let mut list = Vec::new(alloc);
    list.push(field)?;
    Ok(Sequence::from(list))
}

/// The sender of a call that gave a head, messages of these lengths, as `300,20`, and trailers
/// where it ended.
pub fn sender(alloc: Global, id: u32, lengths: &str, ended: bool) -> Result<Sender<Ring>> {
    let head = fields(alloc, ":status", 3)?;
    let (mut giver, sender) = open_response(alloc, id)?;
    given(giver.head(head))?;
    give_all(alloc, giver, lengths, ended)?;
    Ok(sender)
}

/// The two ends of a call's response.
fn open_response(alloc: Global, id: u32) -> Result<(Giver<Ring>, Sender<Ring>)> {
    let (_feeder, _taker, giver, sender) = open_call::<RingLane<InPiece>, Ring>(
        alloc, id, 1, ROOM,
    )?;
    Ok((giver, sender))
}

/// Why an item was not given, as an error.
fn given<T: Drop>(answer: Result<(), PutFault<T>>) -> Result<()> {
    if let Err(fault) = answer {
        bail!("an item is not given: {fault}");
    }
    Ok(())
}

/// Gives what follows the head.
fn give_all(alloc: Global, mut giver: Giver<Ring>, lengths: &str, ended: bool) -> Result<()> {
    for length in lengths.split(',') {
        if length != "-" {
            give(alloc, &mut giver, length.parse::<usize>()?)?;
        }
    }
    if ended {
        let _shut = giver.trailers(fields(alloc, "grpc-status", 1)?);
    }
    Ok(())
}

/// Gives a message of zeros, by their number.
fn give(alloc: Global, giver: &mut Giver<Ring>, len: usize) -> Result<()> {
    let message = Bytes::from_vec(vec![in alloc; 0; len.min(LONGEST)]?)?;
    if giver.has_head() {
        given(giver.give(message))?;
    }
    Ok(())
}
