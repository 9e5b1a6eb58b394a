//! Header blocks of HTTP/2: HPACK, RFC 7541.
//!
//! A `Decoder` reads the blocks of a connection in order, and an `Encoder` writes them. A block is
//! the joined spellings of representations (section 6), each with its effect on the dynamic table
//! (sections 2.3 and 4): `IsBlock` of `specs/Block.antt` says so for both. For bytes that aren't a
//! block the decoder answers the first fault from the left (`specs/Faults.antt`). After any fault a
//! codec is dead. `laws` says that bytes have one reading or one first fault.
//!
//! Blocks carry a list of `lists::Field`. Read `integer`, `huffman` and `string_literal`, how these
//! are spelled (section 5, appendix B); `static_table` and `table`, what is named by index
//! (appendix A); `representation`, the first bits of fields (section 6); then `decoder` and
//! `encoder`. Each has its definitions in the file of `specs/` of its name; `specs/Reading.antt`
//! has what the private functions hand on to one another.
#![tactic(auto)]

mod decoder;
mod encoder;
mod fault;
mod huffman;
mod huffman_writing;
mod integer;
pub mod laws;
mod representation;
mod search_table;
mod static_table;
mod string_literal;
mod table;
mod table_match;

pub use decoder::Decoder;
pub use encoder::Encoder;
pub use fault::HpackFault;
