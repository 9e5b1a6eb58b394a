//! Contents of few bytes.

ghost use Rattle.std.specs.Prelude.{◌≡◌, ◌++◌, IfOk};

use bytes::{Bytes, BytesMut};
use std::alloc::{AllocError, Global};
use std::marker::Model;

/// The bytes of a block: the most that a copied content keeps.
pub(crate) const SMALL_BLOCK: usize = 256;

/// Keeps copies of contents of few bytes. They share blocks of 256 bytes, so that a content of one
/// byte takes little more than that, and keeps no more than a block. A block is used again once no
/// content has a part of it.
#[derive(Drop)]
pub struct SmallContents {
    block: BytesMut,
}

impl Model for SmallContents {
    ghost Value = { Unit {0} };

    ghost view = { λ c. tt };
}

impl SmallContents {
    /// It takes no memory yet.
    pub fn new(alloc: Global) -> SmallContents {
        SmallContents {
            block: BytesMut::new(alloc),
        }
    }

    /// A content of these bytes.
    pub fn content(&mut self, bytes: &[u8]) -> Result<Bytes, AllocError>
        ensures { IfOk result (λ content. content ≡ bytes.now) }
    {
        self.content_with(bytes, &[])
    }

    /// A content of these bytes, and of a text that follows them.
    pub fn content_with(&mut self, bytes: &[u8], text: &[u8]) -> Result<Bytes, AllocError>
        ensures { IfOk result (λ content. content ≡ bytes.now ++ text.now) }
    {
        let len = bytes.len().saturating_add(text.len());
        self.block.clear();
        if !self.block.try_reclaim(len) {
            self.block.reserve(len.max(SMALL_BLOCK))?;
        }
        self.block.extend_from_slice(bytes)?;
        self.block.extend_from_slice(text)?;
        let all = self.block.len();
        self.block.freeze_to(all)
    }
}
