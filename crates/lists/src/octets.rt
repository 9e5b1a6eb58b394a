//! Bytes that something owns.

ghost use Rattle.std.specs.Prelude.{◌≡◌, ◌==◌, ◌↔◌, [], length, bytes_eq, IfOk, IsTrue};
ghost use Rattle.std.specs.Cmp.{partial_equiv_from_equiv};
ghost use Rattle.std.specs.Cmp.Lexicographic.{nat_list_eq_equiv};

use bytes::Bytes;
use std::alloc::AllocError;
use std::fmt;
use std::marker::Model;

/// Bytes that a field or a text owns. A clause sees the list of them.
pub struct Octets {
    holding: Holding,
}

/// Where the bytes are.
#[derive(Drop)]
enum Holding {
    /// In memory of their own.
    Own(Vec<u8>),
    /// In the program, or in memory that copies share.
    Shared(Bytes),
}

impl Model for Octets {
    ghost use Rattle.std.specs.Prelude.{List, ℕ};

    ghost Value = { List ℕ };

    ghost use Rattle.lists.specs.Octets.{bytes_of};

    ghost view = { λ octets. bytes_of octets.holding };
}

impl Octets {
    /// Bytes of the program, with no memory taken.
    pub fn fixed(bytes: &'static [u8]) -> Octets
        ensures { result ≡ bytes.now }
    {
        Octets {
            holding: Holding::Shared(Bytes::from_static(bytes)),
        }
    }

    /// The bytes as a slice.
    pub fn as_slice(&self) -> &[u8]
        ensures { result.now ≡ self.now }
    {
        match &self.holding {
            Holding::Own(bytes) => bytes.as_slice(),
            Holding::Shared(bytes) => bytes.as_slice(),
        }
    }

    /// How many bytes there are.
    pub fn len(&self) -> usize
        ensures { result ≡ length self.now }
    {
        self.as_slice().len()
    }

    /// Whether there are none.
    pub fn is_empty(&self) -> bool
        ensures { IsTrue result ↔ (self.now ≡ []) }
    {
        self.as_slice().is_empty()
    }

    /// A copy. Bytes in memory of their own are copied, and the others take no memory.
    pub fn copy(&self) -> Result<Octets, AllocError>
        ensures { IfOk result (λ copy. copy ≡ self.now) }
    {
        match &self.holding {
            Holding::Own(bytes) => Ok(Octets::from(bytes.clone()?)),
            Holding::Shared(bytes) => Ok(Octets {
                holding: Holding::Shared(bytes.clone()?),
            }),
        }
    }

    /// These bytes, made so that no copy of them takes memory. They stay where they are.
    pub fn share(self) -> Result<Octets, AllocError>
        ensures { IfOk result (λ shared. shared ≡ self) }
    {
        let Octets { holding } = self;
        match holding {
            Holding::Own(bytes) => Ok(Octets {
                holding: Holding::Shared(Bytes::from_vec(bytes)?),
            }),
            holding => Ok(Octets { holding }),
        }
    }
}

/// One function, so that a proof about code that drops octets doesn't ask where they are.
impl Drop for Octets {
    fn drop(self) {
        let Octets { holding } = self;
        drop(holding);
    }
}

/// The bytes, with no memory taken.
impl From<Vec<u8>> for Octets {
    ghost use Rattle.std.specs.Prelude.{◌≡◌};

    ghost from_gives = { λ bytes octets. octets ≡ bytes.items };

    fn from(bytes: Vec<u8>) -> Octets {
        Octets {
            holding: Holding::Own(bytes),
        }
    }
}

impl Clone for Octets {
    ghost is_clone = { λ octets copy. copy ≡ octets };

    fn clone(&self) -> Result<Octets, AllocError> {
        self.copy()
    }
}

impl PartialEq for Octets {
    ghost eq = { bytes_eq };

    ghost laws = { partial_equiv_from_equiv nat_list_eq_equiv };

    fn eq(&self, other: &Octets) -> bool {
        self.as_slice() == other.as_slice()
    }
}

impl Eq for Octets {
    ghost laws = { nat_list_eq_equiv };
}

impl fmt::Debug for Octets {
    fn fmt<W: fmt::Write>(&self, f: &mut fmt::Formatter<W>) -> fmt::Result {
        self.as_slice().fmt(f)
    }
}
