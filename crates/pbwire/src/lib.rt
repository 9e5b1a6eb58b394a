//! Protocol Buffers on the wire: reading and writing the fields of a message, by the Protocol
//! Buffers encoding guide (<https://protobuf.dev/programming-guides/encoding/>), sections "Base 128
//! Varints", "Message Structure" and "Length-Delimited Records". Groups are refused, and no schema
//! is known here.
//!
//! Promised of every byte list: it has one reading, a list of fields or a list of fields and then
//! one fault, and that is what [`Fields::next`] answers one by one and [`read_fields`] at once.
//! Readers take no memory but that list, and borrow what fields hold. The writers append one
//! spelling, the shortest numbers, which is read again whatever follows it; where memory runs out
//! the buffer is as it was.
//!
//! Read [`fault`] and [`field`] first, the types; then [`varint`], [`tag`] and [`reading`], a layer
//! each; [`all_fields`] and [`writing`] stand on them. What is right is defined in `specs/`:
//! `Varint`, `Fields` and `Spelling`. [`laws`] says that these definitions fit together.
#![tactic(auto)]

mod all_fields;
mod fault;
mod field;
pub mod laws;
mod reading;
mod tag;
mod varint;
mod writing;

pub use all_fields::{AllFields, read_fields};
pub use fault::WireFault;
pub use field::{FieldItem, FieldValue};
pub use reading::Fields;
pub use varint::read_varint;
pub use writing::{varint_len, write_field, write_varint};
