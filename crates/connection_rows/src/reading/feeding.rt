//! Reads connections by the reading core, cut in many ways, and compares their events with those
//! that are wanted.

ghost use Rattle.std.specs.Prelude.{◌≤◌, length, IfOk};
ghost use Rattle.session.specs.Events.{Events};

use super::events::text_of;
use super::part::Part;
use session::InEvent;
use session::uses::in_pieces::events_of;
use std::alloc::{AllocError, Global};

/// A connection of up to this many bytes is cut at each place, and a longer one at the last few.
const CUT_EVERYWHERE: usize = 4_096;

const LAST_PLACES: usize = 12;

/// The sizes of pieces in which a connection is read: each one of a byte at a time, and a longer
/// one of these too.
const EACH: [usize; 1] = [1];

const LONGER: [usize; 6] = [1, 2, 9, 100, 16_384, 16_393];

/// The events of bytes that come in two pieces.
fn events_cut_at(alloc: Global, bytes: &[u8], cut: usize) -> Result<Vec<InEvent>, AllocError>
    requires { cut ≤ length bytes.now }
    ensures { IfOk result (λ events. Events bytes.now events.items) }
{
    let (left, right) = bytes.split_at(cut);
    events_of(alloc, &[left, right])
}

/// The events of bytes that come in pieces of a size.
pub fn events_in_pieces(
    alloc: Global,
    bytes: &[u8],
    size: usize,
) -> Result<Vec<InEvent>, AllocError> {
    let mut pieces = Vec::new(alloc);
    for piece in bytes.chunks(size.max(1)) {
        pieces.push(piece)?;
    }
    events_of(alloc, pieces.as_slice())
}

/// The first place at which a connection of `len` bytes is cut, and the sizes of pieces in which it
/// is read.
fn cuts(len: usize) -> (usize, &'static [usize]) {
    if len <= CUT_EVERYWHERE {
        (0, &EACH)
    } else {
        (len - LAST_PLACES, &LONGER)
    }
}

/// What the events of a row's bytes are where they are not those that are wanted, and how the bytes
/// were cut.
pub fn difference(alloc: Global, row: &Part) -> Result<Option<String>, AllocError> {
    let bytes = row.bytes.as_slice();
    let wanted = row.events.as_str();
    let (first, sizes) = cuts(bytes.len());
    for cut in first..=bytes.len() {
        let text = text_of(alloc, events_cut_at(alloc, bytes, cut)?.as_slice())?;
        if text.as_str() != wanted {
            return Ok(Some(format!(in alloc; "cut at {cut}{text}")?));
        }
    }
    for size in sizes {
        let text = text_of(alloc, events_in_pieces(alloc, bytes, *size)?.as_slice())?;
        if text.as_str() != wanted {
            return Ok(Some(format!(in alloc; "in pieces of {size}{text}")?));
        }
    }
    Ok(None)
}
