//! A header block, cut into frames (RFC 9113, sections 4.3, 6.2 and 6.10).

ghost use Rattle.std.specs.Prelude.{◌≡◌, ◌<◌, ◌^◌, IfOk};
ghost use Rattle.outwriter.specs.Blocks.{frame_of, rest_of};
ghost use Rattle.outwriter.specs.Frames.{IsSound};

use crate::frames::{make_continuation, make_headers};
use crate::out_frame::OutFrame;
use bytes::Bytes;
use h2frame::{MAX_PAYLOAD, StreamId};
use std::alloc::AllocError;
use std::marker::Model;

/// The most bytes of a fragment.
const MAX_FRAGMENT: usize = MAX_PAYLOAD as usize;

/// A header block that isn't written to its end.
#[derive(Drop)]
pub(crate) struct HeaderBlock {
    pub(crate) id: StreamId,
    /// Whether it ends its stream.
    pub(crate) ends: bool,
    /// Whether its HEADERS were written.
    pub(crate) begun: bool,
    /// The bytes that weren't written.
    pub(crate) rest: Bytes,
}

impl Model for HeaderBlock {
    ghost use Rattle.std.specs.Prelude.{◌<◌, ◌^◌};
    ghost use Rattle.outwriter.specs.HeaderBlocks.{Block};

    ghost Value = { Block };

    ghost view = { λ b. record { id = b.id; ends = b.ends; begun = b.begun; rest = b.rest } };

    ghost invariant = { λ b. (0 < b.id) × (b.id < 2 ^ 31) };
}

impl HeaderBlock {
    /// Its next frame, with a payload of at most 16,384 bytes, and the rest of the block, if there
    /// is any.
    pub(crate) fn cut(self) -> Result<(OutFrame, Option<HeaderBlock>), AllocError>
        ensures frame { IfOk result (λ r. r.0 ≡ frame_of self) }
        ensures sound { IfOk result (λ r. IsSound r.0) }
        ensures rest { IfOk result (λ r. r.1 ≡ rest_of self) }
    {
        let HeaderBlock {
            id,
            ends,
            begun,
            mut rest,
        } = self;
        let whole = rest.len() <= MAX_FRAGMENT;
        let fragment = rest.split_to(MAX_FRAGMENT.min(rest.len()))?;
        let frame = if begun {
            make_continuation(id, whole, fragment)
        } else {
            make_headers(id, ends, whole, fragment)
        };
        if whole {
            return Ok((frame, None));
        }
        let left = HeaderBlock {
            id,
            ends,
            begun: true,
            rest,
        };
        Ok((frame, Some(left)))
    }
}
