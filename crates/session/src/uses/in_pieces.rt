//! A whole connection's bytes, read one piece after another.

ghost use Rattle.std.specs.Prelude.{◌≡◌, flat_map, map, IfOk};
ghost use Rattle.session.specs.Events.{Events};

use crate::event::InEvent;
use crate::in_core::InCore;
use std::alloc::{AllocError, Global};

/// The events of these pieces in one list: those of the joined pieces, however they are cut.
pub fn events_of(alloc: Global, pieces: &[&[u8]]) -> Result<Vec<InEvent>, AllocError>
    ensures { IfOk result
        (λ events. Events (flat_map (λ piece. piece.now) pieces.now) events.items) }
{
    let mut core = InCore::new(alloc);
    let mut events = Vec::new(alloc);
    for piece in pieces {
        let mut more = core.feed(piece)?;
        events.append(&mut more)?;
    }
    Ok(events)
}
