//! Bytes and sequences that contracts see as plain lists, and `Field`, a field of a header block.
//!
//! A definition speaks of a list of numbers; a program has a `Vec<u8>`, or bytes of its own text.
//! The types of this crate are made from either without memory, and a clause sees only the list.
//! `octets` are bytes: the program's, or in memory of their own, or in memory that copies share.
//! `sequence` is items of any type, which it gives back. `field` is a name and a value. The crates
//! for header blocks and for calls share these types.
//!
//! Read `octets`, `field` and `sequence`.
#![tactic(auto)]

mod field;
mod octets;
mod sequence;

pub use field::Field;
pub use octets::Octets;
pub use sequence::Sequence;
