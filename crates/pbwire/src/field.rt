//! Fields as values of the program.
//!
//! Contents of eight and of four bytes are numbers, little-endian: what a fixed64 or the bits of a
//! double are.

/// A field of a message: its number, and what it holds.
#[derive(Clone, Copy, Debug, PartialEq, Eq)]
pub struct FieldItem<'a> {
    /// 1 to 536,870,911.
    pub number: u32,
    pub value: FieldValue<'a>,
}

/// What a field holds, by its wire type. The schema says what it stands for.
#[derive(Clone, Copy, Debug, PartialEq, Eq)]
pub enum FieldValue<'a> {
    /// An integer, an enum or a bool (wire type 0).
    Varint(u64),
    /// A fixed64, an sfixed64 or the bits of a double (wire type 1).
    EightBytes(u64),
    /// A string, bytes, an embedded message or packed numbers (wire type 2).
    Bytes(&'a [u8]),
    /// A fixed32, an sfixed32 or the bits of a float (wire type 5).
    FourBytes(u32),
}
