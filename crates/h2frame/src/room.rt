//! The room that bytes are read into: the rest of a block, whose front they follow.

ghost use Rattle.std.specs.Prelude.{
  ◌≡◌,
  ◌<◌,
  ◌≤◌,
  ◌+◌,
  ◌++◌,
  ℕ,
  List,
  true,
  length,
  IfOk,
  OnOk,
  OnErr,
};
ghost use Rattle.std.specs.Io.KnownBytes.{Consumes, IsAtEnd, Keeps};

use bytes::BytesMut;
use device::{ConnRead, DeviceFault};
use std::alloc::AllocError;

/// The bytes of a block: the DATA that a window lets through, with the heads of their frames.
pub(crate) const BLOCK: usize = 65_664;

/// The bytes of the first block. A connection on which little comes holds no more.
pub(crate) const FIRST_BLOCK: usize = 1_024;

/// Makes room for half a block at least, and answers for how many bytes there is room, at most a
/// block.
pub(crate) fn make_room(buffer: &mut BytesMut, block: usize) -> Result<usize, AllocError>
    requires block { 2 ≤ block }
    ensures items { buffer.new.items ≡ buffer.old.items }
    ensures room { IfOk result (λ most. most ≤ buffer.new.spare) }
    ensures some { IfOk result (λ most. 0 < most) }
{
    if buffer.capacity() - buffer.len() < block / 2 {
        buffer.reserve(block)?;
    }
    Ok(block.min(buffer.capacity() - buffer.len()))
}

/// Reads once, at most so many bytes, and appends them.
pub(crate) fn read_into<I: ConnRead>(
    buffer: &mut BytesMut,
    most: usize,
    input: &mut I,
) -> Result<usize, DeviceFault>
    requires room { most ≤ buffer.old.spare }
    ensures ok { IfOk result (λ n. (came : List ℕ) × (length came ≡ n)
        × (buffer.new.items ≡ buffer.old.items ++ came)
        × Consumes (I.remaining input.old) (I.remaining input.new) came) }
    ensures end { IfOk result (λ n. 0 < most → n ≡ 0 → IsAtEnd (I.remaining input.new)) }
    ensures err { OnErr result ((buffer.new.items ≡ buffer.old.items)
        × Keeps (I.remaining input.old) (I.remaining input.new)) }
    ensures unmarked { OnOk result (I.failed input.new ≡ I.failed input.old) }
    ensures marked { OnErr result (I.failed input.new ≡ true) }
{
    let len = buffer.len();
    buffer.advance_mut(most);
    match input.read(&mut buffer.as_mut_slice()[len..]) {
        Ok(count) => {
            buffer.truncate(len + count);
            Ok(count)
        }
        Err(fault) => {
            buffer.truncate(len);
            Err(fault)
        }
    }
}
