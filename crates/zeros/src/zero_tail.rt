//! Bytes, the last of which may be zeros that take no memory.

ghost use Rattle.std.specs.Prelude.{
  ◌≡◌,
  ◌==◌,
  ◌≤◌,
  ◌++◌,
  length,
  replicate,
  take,
  drop,
  IfOk,
  OnOk,
  OnErr,
};

use bytes::Bytes;
use std::alloc::AllocError;
use std::marker::Model;

/// Bytes, and a number of zeros that follow them and take no memory. A clause sees the list of all
/// of them.
#[derive(Debug, Drop)]
pub struct ZeroTail {
    front: Bytes,
    zeros: u32,
}

impl Model for ZeroTail {
    ghost use Rattle.std.specs.Prelude.{List, ℕ, ◌++◌, replicate};

    ghost Value = { List ℕ };

    ghost view = { λ tail. tail.front ++ replicate tail.zeros 0 };
}

impl ZeroTail {
    /// These bytes, and that many zeros after them. It takes no memory.
    pub fn new(front: Bytes, zeros: u32) -> ZeroTail
        ensures { result ≡ front ++ replicate zeros 0 }
    {
        ZeroTail { front, zeros }
    }

    /// The first bytes as a slice, and how many zeros follow them.
    pub fn parts(&self) -> (&[u8], u32)
        ensures { self.now ≡ result.0.now ++ replicate result.1 0 }
    {
        (self.front.as_slice(), self.zeros)
    }

    /// How many bytes there are, with the zeros.
    pub fn len(&self) -> usize
        ensures { result ≡ length self.now }
    {
        self.front.len() + self.zeros as usize
    }

    /// Whether there are none.
    pub fn is_empty(&self) -> bool
        ensures { result ≡ (length self.now == 0) }
    {
        self.len() == 0
    }

    /// Takes the first `at` bytes out, and leaves the others. No byte is copied. Without memory
    /// nothing changes.
    pub fn split_to(&mut self, at: usize) -> Result<ZeroTail, AllocError>
        requires { at ≤ length self.old }
        ensures front { IfOk result (λ tail. tail ≡ take at self.old) }
        ensures rest { OnOk result (self.new ≡ drop at self.old) }
        ensures err { OnErr result (self.new ≡ self.old) }
    {
        let zeros = self.zeros;
        let have = self.front.len();
        let front = self.front.split_to(at.min(have))?;
        let taken = at.saturating_sub(have) as u32;
        self.zeros = zeros - taken;
        Ok(ZeroTail {
            front,
            zeros: taken,
        })
    }
}

/// A copy has the same bytes, and shares the first ones.
impl Clone for ZeroTail {
    ghost is_clone = { λ tail copy. copy ≡ tail };

    fn clone(&self) -> Result<ZeroTail, AllocError> {
        Ok(ZeroTail {
            front: self.front.clone()?,
            zeros: self.zeros,
        })
    }
}

/// The bytes alone, with no zeros after them.
impl From<Bytes> for ZeroTail {
    ghost use Rattle.std.specs.Prelude.{◌≡◌};

    ghost from_gives = { λ bytes tail. tail ≡ bytes };

    fn from(bytes: Bytes) -> ZeroTail {
        ZeroTail {
            front: bytes,
            zeros: 0,
        }
    }
}
