//! The accounts of a connection's calls.
//!
//! They are in blocks of one size. So no account is copied as the list grows, and no large block is
//! freed: glibc keeps up to twice the largest freed block at the top of a heap (mallopt(3),
//! M_TRIM_THRESHOLD).

ghost use Rattle.std.specs.Prelude.{
  ◌≡◌,
  ◌<◌,
  ◌≤◌,
  true,
  [],
  ◌∷◌,
  ◌++◌,
  length,
  set,
  slice_get,
  OnOk,
  option_copied,
};
ghost use Rattle.callparts.specs.Blocks.{are_full, has_room, items_of};

use crate::call_account::CallAccount;
use std::alloc::{AllocError, Global};
use std::mem;

/// How many accounts a block has.
const BLOCK: usize = 64;

/// A list of accounts.
#[derive(Drop)]
pub struct Accounts {
    alloc: Global,
    /// The blocks that are full.
    full: Vec<Vec<CallAccount>>,
    /// The block of the last ones.
    last: Vec<CallAccount>,
    /// How many there are.
    count: usize,
    ghost filled: { are_full full.items ≡ true },
    ghost bounded: { length last.items ≤ 64 },
    ghost counted: { count ≡ length (items_of full last) },
}

impl Accounts {
    pub fn new(alloc: Global) -> Accounts
        ensures { items_of result.full result.last ≡ [] }
    {
        Accounts {
            alloc,
            full: Vec::new(alloc),
            last: Vec::new(alloc),
            count: 0,
        }
    }

    /// How many there are.
    pub fn len(&self) -> usize
        ensures { result ≡ length (items_of self.now.full self.now.last) }
    {
        self.count
    }

    /// The account at this place.
    pub fn get(&self, place: usize) -> Option<&CallAccount>
        ensures { option_copied result ≡ slice_get (items_of self.now.full self.now.last) place }
    {
        let before = self.count - self.last.len();
        if place < before {
            self.full[place / BLOCK].get(place % BLOCK)
        } else {
            self.last.get(place - before)
        }
    }

    /// Makes room for one account more.
    pub fn reserve(&mut self) -> Result<(), AllocError>
        ensures same { items_of self.new.full self.new.last ≡ items_of self.old.full self.old.last }
        ensures room { OnOk result (has_room self.new.count self.new.last ≡ true) }
    {
        if self.count == usize::MAX {
            return Err(AllocError);
        }
        if self.last.len() < BLOCK {
            self.last.reserve(BLOCK - self.last.len())?;
            return Ok(());
        }
        let block = Vec::with_capacity(self.alloc, BLOCK)?;
        self.full.reserve(1)?;
        let full = mem::replace(&mut self.last, block);
        self.full.push_reserved(full);
        Ok(())
    }

    /// Adds an account at the end, for which there is room, and answers its place.
    pub fn push_reserved(&mut self, account: CallAccount) -> usize
        requires { has_room self.old.count self.old.last ≡ true }
        ensures items { items_of self.new.full self.new.last
            ≡ items_of self.old.full self.old.last ++ account ∷ [] }
        ensures place { result ≡ length (items_of self.old.full self.old.last) }
    {
        let place = self.count;
        self.last.push_reserved(account);
        self.count += 1;
        place
    }

    /// Puts an account in the place of another.
    pub fn set(&mut self, place: usize, account: CallAccount)
        requires { place < length (items_of self.old.full self.old.last) }
        ensures items { items_of self.new.full self.new.last
            ≡ set (items_of self.old.full self.old.last) place account }
        ensures room { has_room self.new.count self.new.last
            ≡ has_room self.old.count self.old.last }
    {
        let before = self.count - self.last.len();
        if place < before {
            self.full[place / BLOCK][place % BLOCK] = account;
        } else {
            self.last[place - before] = account;
        }
    }
}
