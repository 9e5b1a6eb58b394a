//! The representations of a block, by the bits of their first byte above the prefix (RFC 7541,
//! section 6).

/// 1: a field of the tables, by its index (section 6.1).
pub const INDEXED: u8 = 0x80;

pub const INDEXED_PREFIX: u32 = 7;

/// 01: a literal field that becomes an entry (section 6.2.1).
pub const LITERAL_INDEXED: u8 = 0x40;

pub const LITERAL_INDEXED_PREFIX: u32 = 6;

/// 001: a change of the table's size (section 6.3).
pub const SIZE_UPDATE: u8 = 0x20;

pub const SIZE_UPDATE_PREFIX: u32 = 5;

/// 0000: a literal field that becomes no entry (section 6.2.2). 0001, one that is never to become
/// an entry (section 6.2.3), is read alike.
pub const LITERAL: u8 = 0;

pub const LITERAL_PREFIX: u32 = 4;

/// The index of a literal whose name is spelled out.
pub const NEW_NAME: u32 = 0;
