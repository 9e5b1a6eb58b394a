//! A buffer that is filled, written out and cleared, again and again.
//!
//! All of its memory after its end that was used before is zeros, so zeros are appended by moving
//! the end. `clear` wipes the places that were written, and no others.

ghost use Rattle.std.specs.Prelude.{
  ◌≡◌,
  ◌==◌,
  ◌≤◌,
  ◌+◌,
  ◌-◌,
  ◌++◌,
  [],
  length,
  replicate,
  take,
  drop,
  OnOk,
  vec_len,
  vec_capacity,
};

use crate::marks::Marks;
use std::alloc::{AllocError, Global};
use std::marker::Model;

/// Fewer zeros than these are marked as if they were written, so that there are not many marks.
const FEW_ZEROS: usize = 256;

/// The buffer. A clause sees its bytes, and how many more it takes with no memory.
#[derive(Drop)]
pub struct ZeroBuffer {
    /// All bytes that were used before: those from `end` on are zeros.
    bytes: Vec<u8>,
    /// How many bytes are in the buffer.
    end: usize,
    /// How many bytes there is memory for.
    room: usize,
    /// Where bytes were written since the buffer was cleared.
    marks: Marks,
}

impl Model for ZeroBuffer {
    ghost use Rattle.std.specs.Prelude.{◌-◌, ◌≤◌, take, length, vec_capacity};
    ghost use Rattle.std.specs.List.{All};
    ghost use Rattle.zeros.specs.Filled.{FilledBytes};

    ghost Value = { FilledBytes };

    ghost use Rattle.zeros.specs.Marks.{spans, EndsBy, AreZerosOutside};

    ghost view = { λ buffer.
        record { items = take buffer.end buffer.bytes.items; spare = buffer.room - buffer.end } };

    ghost invariant = { λ buffer.
        (buffer.end ≤ length buffer.bytes.items) × (buffer.end ≤ buffer.room)
        × (buffer.room ≤ vec_capacity buffer.bytes) × All (EndsBy buffer.end) (spans buffer.marks)
        × AreZerosOutside (spans buffer.marks) buffer.bytes.items };
}

impl ZeroBuffer {
    /// A buffer with no bytes. It takes no memory yet.
    pub fn new(alloc: Global) -> ZeroBuffer
        ensures { result.items ≡ [] }
    {
        ZeroBuffer {
            bytes: Vec::new(alloc),
            end: 0,
            room: 0,
            marks: Marks::new(alloc),
        }
    }

    /// How many bytes are in the buffer.
    pub fn len(&self) -> usize
        ensures { result ≡ length self.now.items }
    {
        self.end
    }

    /// Whether there are none.
    pub fn is_empty(&self) -> bool
        ensures { result ≡ (length self.now.items == 0) }
    {
        self.end == 0
    }

    /// The bytes as a slice.
    pub fn as_slice(&self) -> &[u8]
        ensures { result.now ≡ self.now.items }
    {
        &self.bytes.as_slice()[..self.end]
    }

    /// Makes room for `more` bytes more.
    pub fn reserve(&mut self, more: usize) -> Result<(), AllocError>
        ensures items { self.new.items ≡ self.old.items }
        ensures room { OnOk result (more ≤ self.new.spare) }
        ensures spare { self.old.spare ≤ self.new.spare }
    {
        self.marks.reserve()?;
        let have = self.bytes.len() - self.end;
        self.bytes.reserve(more.saturating_sub(have))?;
        self.room = self.bytes.capacity();
        Ok(())
    }

    /// Appends bytes, for which there is room.
    pub fn append(&mut self, bytes: &[u8])
        requires { length bytes.now ≤ self.old.spare }
        ensures items { self.new.items ≡ self.old.items ++ bytes.now }
        ensures spare { self.new.spare + length bytes.now ≡ self.old.spare }
    {
        let start = self.end;
        self.end += bytes.len();
        overwrite(&mut self.bytes, start, bytes);
        self.marks.mark(start, self.end);
    }

    /// Appends zeros, for which there is room. None of them is written where the memory was used
    /// before.
    pub fn append_zeros(&mut self, count: usize)
        requires { count ≤ self.old.spare }
        ensures items { self.new.items ≡ self.old.items ++ replicate count 0 }
        ensures spare { self.new.spare + count ≡ self.old.spare }
    {
        let start = self.end;
        self.end += count;
        lengthen(&mut self.bytes, self.end);
        if count < FEW_ZEROS {
            self.marks.mark(start, self.end);
        }
    }

    /// Takes all bytes out, and keeps the memory.
    pub fn clear(&mut self)
        ensures items { self.new.items ≡ [] }
        ensures spare { self.new.spare ≡ length self.old.items + self.old.spare }
    {
        self.marks.wipe(self.bytes.as_mut_slice());
        self.end = 0;
    }
}

/// Writes bytes from place `at` on, over those that are there and then after the last. There is
/// room for them.
fn overwrite(out: &mut Vec<u8>, at: usize, bytes: &[u8])
    requires at { at ≤ length out.old.items }
    requires room { at + length bytes.now ≤ vec_capacity out.old }
    ensures items { out.new.items ≡ take at out.old.items ++ bytes.now
        ++ drop (at + length bytes.now) out.old.items }
    ensures capacity { vec_capacity out.old ≤ vec_capacity out.new }
{
    let over = bytes.len().min(out.len() - at);
    out.as_mut_slice()[at..at + over].copy_from_slice(&bytes[..over]);
    let _ = out.extend_from_slice(&bytes[over..]);
}

/// Appends zeros up to a length, for which there is room.
fn lengthen(out: &mut Vec<u8>, len: usize)
    requires { len ≤ vec_capacity out.old }
    ensures items { out.new.items ≡ out.old.items ++ replicate (len - length out.old.items) 0 }
    ensures capacity { vec_capacity out.old ≤ vec_capacity out.new }
{
    if out.len() < len {
        let _ = out.resize(len, 0);
    }
}
