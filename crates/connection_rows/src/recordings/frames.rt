//! The frames of bytes that come in pieces: those of the frame list of the joined pieces, however
//! they were cut.

ghost use Rattle.std.specs.Prelude.{List, ℕ, ◌++◌, map, flat_map, IfOk, OnOk, None};
ghost use Rattle.h2frame.specs.FrameList.{Entry, Whole, Joined, IsUnfinished, FrameList};

use anyhow::{Result, bail};
use h2frame::{Frame, FrameReader};
use std::alloc::Global;

/// Adds the frames that are whole by now.
fn drain(reader: &mut FrameReader, frames: &mut Vec<Frame>) -> Result<()>
    ensures list { OnOk result
        ((bytes : List ℕ) → Joined bytes (map Whole frames.old.items) reader.old →
        Joined bytes (map Whole frames.new.items) reader.new) }
    ensures unfinished { OnOk result (IsUnfinished reader.new) }
{
    for _ in 0..u64::MAX {
        match reader.next() {
            None => return Ok(()),
            Some(Ok(frame)) => frames.push(frame)?,
            Some(Err(fault)) => return Err(fault.into()),
        }
    }
    bail!("too many frames")
}

/// The frames of the joined pieces, unless there is a fault among them.
pub fn read(alloc: Global, pieces: &[Vec<u8>]) -> Result<Vec<Frame>>
    ensures { IfOk result
        (λ frames.
        FrameList (flat_map (λ piece. piece.items) pieces.now) (map Whole frames.items) None) }
{
    let mut reader = FrameReader::new(alloc);
    let mut frames = Vec::new(alloc);
    for piece in pieces {
        reader.feed(piece.as_slice())?;
        drain(&mut reader, &mut frames)?;
    }
    Ok(frames)
}
