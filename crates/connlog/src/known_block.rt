//! A header block that was read before, so that its bytes needn't be read again.
//!
//! A block that changes no table means what it meant before, as long as no other block was read
//! between.

ghost use Rattle.std.specs.Prelude.{◌≡◌, true, false, Some, None, IfSome, OnOk};
ghost use Rattle.connlog.specs.Blocks.{keeps_tables};

use crate::tables::keeps_tables;
use std::alloc::{AllocError, Global};

/// The last block that changes no table, and what it means.
#[derive(Drop)]
pub struct KnownBlock<T: Copy> {
    block: Vec<u8>,
    meaning: Option<T>,
}

impl<T: Copy + Drop> KnownBlock<T> {
    /// None was read. It takes no memory yet.
    pub fn new(alloc: Global) -> KnownBlock<T> {
        KnownBlock {
            block: Vec::new(alloc),
            meaning: None,
        }
    }

    /// What the block means, if that is known.
    pub fn get(&self, block: &[u8]) -> Option<T>
        ensures same { IfSome result (λ _. self.now.block.items ≡ block.now) }
        ensures meaning { IfSome result (λ meaning. self.now.meaning ≡ Some meaning) }
    {
        if self.block.as_slice() == block {
            self.meaning
        } else {
            None
        }
    }

    /// This block was read. It has this meaning, or none that is worth keeping.
    pub fn learn(&mut self, block: &[u8], meaning: Option<T>) -> Result<(), AllocError>
        ensures changed { OnOk result
            (keeps_tables block.now ≡ false → self.new.meaning ≡ None) }
        ensures learnt { OnOk result ((keeps_tables block.now ≡ true) → (it : T) → meaning ≡ Some it
            → (self.new.block.items ≡ block.now) × (self.new.meaning ≡ Some it)) }
    {
        let is_kept = keeps_tables(block);
        if is_kept && meaning.is_none() {
            return Ok(());
        }
        self.meaning = None;
        if is_kept {
            self.block.clear();
            self.block.extend_from_slice(block)?;
            self.meaning = meaning;
        }
        Ok(())
    }
}
