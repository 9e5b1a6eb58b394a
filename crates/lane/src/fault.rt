//! Why an item was not put.
//!
//! `Display` is written by hand, so that the crate needs no `thiserror`.
ghost use Rattle.std.specs.Prelude.{◌≡◌};

use std::error::Error;
use std::fmt;
use std::fmt::Debug;

/// Why an item was not put. Each fault hands the item back.
#[derive(Debug, Drop)]
pub enum PutFault<T> {
    /// The reader has to take items first. `waiting` is how many of the items that were put this
    /// end hadn't seen taken when it looked.
    Full { item: T, waiting: u64 },
    /// Memory for the item was refused.
    OutOfMemory(T),
    /// The item's place was taken already. Tests show that it doesn't occur.
    NotTaken(T),
}

impl<T> PutFault<T> {
    ghost use Rattle.lane.specs.PutFault.{code_of, item_of};

    /// The number of the fault. No fault has the number 2.
    pub fn code(&self) -> u32
        ensures { result ≡ code_of self.now }
    {
        match self {
            PutFault::Full { .. } => 1,
            PutFault::OutOfMemory(_) => 3,
            PutFault::NotTaken(_) => 4,
        }
    }

    /// The item that was not put.
    pub fn into_item(self) -> T
        ensures { result ≡ item_of self }
    {
        match self {
            PutFault::Full { item, waiting: _ } => item,
            PutFault::OutOfMemory(item) => item,
            PutFault::NotTaken(item) => item,
        }
    }
}

impl<T> fmt::Display for PutFault<T> {
    fn fmt<W: fmt::Write>(&self, f: &mut fmt::Formatter<W>) -> fmt::Result {
        match self {
            PutFault::Full { waiting, .. } => write!(f, "the queue is full: {waiting} items wait"),
            PutFault::OutOfMemory(_) => f.pad("out of memory for an item"),
            PutFault::NotTaken(_) => f.pad("the place of the item was taken"),
        }
    }
}

impl<T: Debug + Drop> Error for PutFault<T> {}
