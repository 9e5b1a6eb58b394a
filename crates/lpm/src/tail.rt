//! Where bytes end: inside a message, or not.

ghost use Rattle.std.specs.Prelude.{
  ◌≡◌,
  ℕ,
  ◌+◌,
  ◌<◌,
  ◌≤◌,
  List,
  [],
  ◌++◌,
  length,
  take,
  IfErr,
  IfOk,
  OnOk,
  OnErr,
  Ok,
};
ghost use Rattle.std.specs.List.{concat};
ghost use Rattle.lpm.specs.declared.fault.LpmFault.TheVariants.{CutAtEnd};
ghost use Rattle.lpm.specs.Messages.{IsCut, IsNotCut};
ghost use Rattle.lpm.specs.Fronts.{extent_of};

use crate::LpmFault;
use crate::front::{PREFIX_LEN, frame_len};
use bytes::Bytes;
use std::collections::VecDeque;

/// What is left after the last whole message of the bytes that were read: how many bytes, and the
/// first five of them.
#[derive(Drop)]
pub(crate) struct Tail {
    prefix: [u8; PREFIX_LEN],
    len: usize,
    ghost five: { length prefix ≡ 5 },
    // It has no more than the message that begins there.
    ghost within: { (total : ℕ) → extent_of (take len prefix) ≡ Ok total → len ≤ total },
}

impl Tail {
    ghost use Rattle.lpm.specs.Tails.{Leaves, IsFaultySomewhere};

    /// Nothing was read.
    pub(crate) fn new() -> Tail
        ensures leaves { Leaves [] result }
        ensures nothing { result.len ≡ 0 }
    {
        Tail {
            prefix: [0; PREFIX_LEN],
            len: 0,
        }
    }

    /// Reads on, to the end of a piece or to a fault.
    pub(crate) fn read(&mut self, piece: &[u8]) -> Result<(), LpmFault>
        ensures ok { (bytes : List ℕ) → Leaves bytes self.old
            → OnOk result (Leaves (bytes ++ piece.now) self.new) }
        ensures fault { (bytes : List ℕ) → Leaves bytes self.old
            → IfErr result (IsFaultySomewhere (bytes ++ piece.now)) }
    {
        let mut at = 0;
        while at < piece.len() {
            at += self.take(&piece[at..])?;
        }
        Ok(())
    }

    /// Reads on, over pieces in order.
    pub(crate) fn read_pieces(&mut self, pieces: &VecDeque<Bytes>) -> Result<(), LpmFault>
        ensures ok { (bytes : List ℕ) → Leaves bytes self.old
            → OnOk result (Leaves (bytes ++ concat pieces.now.items) self.new) }
        ensures fault { (bytes : List ℕ) → Leaves bytes self.old
            → IfErr result (IsFaultySomewhere (bytes ++ concat pieces.now.items)) }
    {
        for i in 0..pieces.len() {
            self.read(pieces[i].as_slice())?;
        }
        Ok(())
    }

    /// Whether the bytes end here without cutting a message.
    pub(crate) fn end(&self) -> Result<(), LpmFault>
        ensures ok { (bytes : List ℕ) → Leaves bytes self.now → OnOk result (IsNotCut bytes) }
        ensures cut { (bytes : List ℕ) → Leaves bytes self.now → OnErr result (IsCut bytes) }
        ensures fault { IfErr result (λ fault. fault ≡ CutAtEnd) }
    {
        if self.len == 0 {
            return Ok(());
        }
        match frame_len(self.known()) {
            Err(_fault) => Ok(()),
            Ok(total) => {
                if self.len < total {
                    Err(LpmFault::CutAtEnd)
                } else {
                    Ok(())
                }
            }
        }
    }

    /// The bytes that are known.
    fn known(&self) -> &[u8]
        ensures { result.now ≡ take self.now.len self.now.prefix }
    {
        &self.prefix[..self.len.min(PREFIX_LEN)]
    }

    /// Reads some bytes of a piece, and answers how many.
    fn take(&mut self, piece: &[u8]) -> Result<usize, LpmFault>
        requires { 0 < length piece.now }
        ensures some { IfOk result (λ count. (0 < count) × (count ≤ length piece.now)) }
        ensures ok { (bytes : List ℕ) → Leaves bytes self.old
            → IfOk result (λ count. Leaves (bytes ++ take count piece.now) self.new) }
        ensures fault { (bytes : List ℕ) → Leaves bytes self.old
            → IfErr result (IsFaultySomewhere bytes) }
    {
        let total = frame_len(self.known())?;
        if total <= self.len {
            *self = Tail::new();
            return Ok(self.fill(piece, PREFIX_LEN));
        }
        Ok(self.fill(piece, total))
    }

    /// Reads up to the end of the prefix or of the message that it announces.
    fn fill(&mut self, piece: &[u8], total: usize) -> usize
        requires extent { extent_of (take self.old.len self.old.prefix) ≡ Ok total }
        requires unfinished { self.old.len < total }
        requires some { 0 < length piece.now }
        ensures count { (0 < result) × (result ≤ length piece.now) }
        ensures read { (bytes : List ℕ) → Leaves bytes self.old
            → Leaves (bytes ++ take result piece.now) self.new }
    {
        let count = piece.len().min(total - self.len);
        let len = self.len;
        let prefix = if len < PREFIX_LEN {
            extended(self.prefix, len, &piece[..count])
        } else {
            self.prefix
        };
        *self = Tail {
            prefix,
            len: len + count,
        };
        count
    }
}

/// The first `len` bytes of a prefix, and then more.
fn extended(prefix: [u8; PREFIX_LEN], len: usize, more: &[u8]) -> [u8; PREFIX_LEN]
    requires { len + length more.now ≤ 5 }
    ensures front { take (len + length more.now) result ≡ take len prefix ++ more.now }
    ensures five { length result ≡ 5 }
{
    let mut prefix = prefix;
    prefix[len..len + more.len()].copy_from_slice(more);
    prefix
}
