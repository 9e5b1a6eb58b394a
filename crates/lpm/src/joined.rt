//! A message that is cut over pieces.

ghost use Rattle.std.specs.Prelude.{◌≡◌, ℕ, ◌<◌, ◌≤◌, [], ◌++◌, length, IfOk, OnErr, OnOk, Ok};
ghost use Rattle.lpm.specs.Fronts.{extent_of};

use bytes::Bytes;
use std::alloc::{AllocError, Global};
use std::mem;

/// The bytes of a message that is cut over pieces, as far as they were looked at, with its prefix.
#[derive(Drop)]
pub(crate) struct JoinedBytes {
    bytes: Vec<u8>,
    // It has no more than the message that begins there.
    ghost within: { (total : ℕ) → extent_of bytes.items ≡ Ok total → length bytes.items ≤ total },
}

impl JoinedBytes {
    /// No byte of a message. It takes no memory yet.
    pub(crate) fn new(alloc: Global) -> JoinedBytes
        ensures { result.bytes.items ≡ [] }
    {
        JoinedBytes {
            bytes: Vec::new(alloc),
        }
    }

    /// The allocator of the bytes.
    pub(crate) fn allocator(&self) -> Global {
        *self.bytes.allocator()
    }

    /// The bytes so far.
    pub(crate) fn as_slice(&self) -> &[u8]
        ensures { result.now ≡ self.now.bytes.items }
    {
        self.bytes.as_slice()
    }

    /// Makes room for `len` bytes in all. Until there are as many, `append` takes no more memory.
    pub(crate) fn reserve(&mut self, len: usize) -> Result<(), AllocError>
        ensures { self.new.bytes.items ≡ self.old.bytes.items }
    {
        if self.bytes.len() < len {
            self.bytes.reserve_exact(len - self.bytes.len())?;
        }
        Ok(())
    }

    /// Moves bytes from the front of the piece to the end of these, until there are `len` of them
    /// or the piece ends.
    ///
    /// It makes room for `len` bytes first, once, without filling it.
    pub(crate) fn append(&mut self, piece: &mut Bytes, len: usize) -> Result<(), AllocError>
        requires extent { extent_of self.old.bytes.items ≡ Ok len }
        requires unfinished { length self.old.bytes.items < len }
        requires some { 0 < length piece.old }
        ensures same { self.new.bytes.items ++ piece.new ≡ self.old.bytes.items ++ piece.old }
        ensures smaller { OnOk result (length piece.new < length piece.old) }
    {
        self.reserve(len)?;
        let count = piece.len().min(len - self.bytes.len());
        self.bytes.extend_from_slice(&piece.as_slice()[..count])?;
        piece.advance(count);
        Ok(())
    }

    /// Takes all the bytes, and copies none.
    pub(crate) fn take(&mut self) -> Result<Bytes, AllocError>
        ensures ok { IfOk result (λ bytes. bytes ≡ self.old.bytes.items) }
        ensures empty { OnOk result (self.new.bytes.items ≡ []) }
        ensures unchanged { OnErr result (self.new.bytes.items ≡ self.old.bytes.items) }
    {
        let none = Vec::new(self.allocator());
        match Bytes::from_vec(mem::replace(&mut self.bytes, none)) {
            Ok(bytes) => Ok(bytes),
            Err(refused) => {
                self.bytes = refused.value;
                Err(AllocError)
            }
        }
    }
}
