//! Writing a header block (RFC 7541, sections 3.2 and 6).
//!
//! A field of the tables is written as its index. Any other field is a literal with the index of
//! its name, if there is one, and becomes an entry, unless it is too large for that or private.
//! `block` looks at the lengths of all fields before it takes memory, so `too_large` is exact, and
//! then reserves what the block needs.
ghost use Rattle.std.specs.Prelude.{
  ◌≡◌,
  ◌<◌,
  ◌^◌,
  ◌≤◌,
  ◌⊎◌,
  ◌↔◌,
  ◌+◌,
  min,
  length,
  Some,
  None,
  Any,
  IfOk,
  IfErr,
  OnOk,
  OnErr,
  IsErrOf,
  IsSome,
  IsTrue,
};
ghost use Rattle.hpack_codec.specs.Table.{Table, size_of, sizes_of};
ghost use Rattle.hpack_codec.specs.Block.{IsLiteral, Represents, AreFields};
ghost use Rattle.hpack_codec.specs.Codec.{
  first_encoding,
  limited,
  Writes,
  IsTooLong,
  IsPrivate,
  HoldsNoPrivate,
  NonePrivate,
};
ghost use Rattle.hpack_codec.specs.Reading.{Appends, IsNameAt, Changes};

use crate::fault::HpackFault;
use crate::integer::push_integer;
use crate::representation::{
    INDEXED, INDEXED_PREFIX, LITERAL, LITERAL_INDEXED, LITERAL_INDEXED_PREFIX, LITERAL_PREFIX,
    NEW_NAME, SIZE_UPDATE, SIZE_UPDATE_PREFIX,
};
use crate::search_table::SearchTable;
use crate::string_literal::push_string;
use crate::table::{MAX_LIMIT, capped_size};
use crate::table_match::TableMatch;
use lists::Field;
use std::alloc::{AllocError, Global};
use std::marker::Model;

/// How many bytes a change of the table's limit has at most.
const MOST_UPDATE: usize = 3;

/// The longest name or value that can be written.
const MAX_LEN: usize = u32::MAX as usize;

/// Writes the blocks of one connection in their order. A clause sees what it keeps, and nothing
/// once it is dead.
#[derive(Drop)]
pub struct Encoder {
    alloc: Global,
    table: Option<SearchTable>,
    least: u32,
}

impl Model for Encoder {
    ghost use Rattle.std.specs.Prelude.{Option, ◌≤◌, IfSome};
    ghost use Rattle.hpack_codec.specs.Codec.{Encoding, encoding_of};

    ghost Value = { Option Encoding };

    ghost view = { λ e. encoding_of e.table e.least };

    ghost invariant = { λ e. IfSome e.table
        (λ table. (e.least ≤ table.limit) × (table.limit ≤ 4096)) };
}

impl Encoder {
    pub fn new(alloc: Global) -> Encoder
        ensures { result ≡ Some first_encoding }
    {
        Encoder {
            alloc,
            table: Some(SearchTable::new(alloc)),
            least: MAX_LIMIT,
        }
    }

    /// Sets a limit for the table, as the peer announced it. A table never grows: only a lower
    /// limit matters.
    pub fn limit(&mut self, limit: u32)
        ensures { self.new ≡ limited self.old limit }
    {
        self.least = self.least.min(limit);
    }

    /// A block of these fields. If the least limit that was set since the last block is below the
    /// table's, it begins with the change to that.
    pub fn block(&mut self, fields: &[Field]) -> Result<Vec<u8>, HpackFault>
        // A decoder with the same table reads these fields in the block.
        ensures ok { IfOk result (λ block. Writes self.old fields.now block.items self.new) }

        // Only a name or a value of more than 4,294,967,295 bytes can't be written.
        ensures too_large { IsErrOf result HpackFault.TooLarge
            ↔ (IsSome self.old × Any IsTooLong fields.now) }
        ensures dead { IsErrOf result HpackFault.Dead ↔ (self.old ≡ None) }
        ensures else_memory { IfErr result (λ fault. (fault ≡ HpackFault.TooLarge)
            ⊎ ((fault ≡ HpackFault.Dead) ⊎ (fault ≡ HpackFault.OutOfMemory))) }

        // No private field becomes an entry.
        ensures private { OnOk result (HoldsNoPrivate self.old → HoldsNoPrivate self.new) }

        // After any fault the encoder is dead.
        ensures after_fault { OnErr result (self.new ≡ None) }
    {
        let Some(mut table) = self.table.take() else {
            return Err(HpackFault::Dead);
        };
        if any_too_long(fields) {
            return Err(HpackFault::TooLarge);
        }
        let mut out = Vec::with_capacity(self.alloc, most_bytes(fields))?;
        push_update(&mut out, &mut table, self.least)?;
        push_fields(&mut out, &mut table, fields)?;
        self.table = Some(table);
        Ok(out)
    }
}

fn any_too_long(fields: &[Field]) -> bool
    ensures { IsTrue result ↔ Any IsTooLong fields.now }
{
    fields.iter().any(|field| field.name.len() > MAX_LEN || field.value.len() > MAX_LEN)
}

/// More bytes than the block of these fields has: no field is spelled in more bytes than its size
/// counts.
fn most_bytes(fields: &[Field]) -> usize
    ensures { result ≡ min (sizes_of fields.now + 3) usize.MAX }
{
    let mut most = MOST_UPDATE;
    for field in fields {
        most = most.saturating_add(capped_size(field));
    }
    most
}

/// Changes the table's limit to the least, and writes the change, if there is one.
fn push_update(out: &mut Vec<u8>, table: &mut SearchTable, least: u32) -> Result<(), AllocError>
    requires lower { least ≤ table.old.limit }
    requires lawful { table.old.limit ≤ 4096 }
    ensures text { OnOk result
        (Appends out.old.items out.new.items (λ text. Changes table.old text table.new)) }
    ensures limit { OnOk result (table.new.limit ≡ least) }
    ensures private { NonePrivate table.old → NonePrivate table.new }
{
    if least < table.limit() {
        table.resize(least);
        push_integer(out, SIZE_UPDATE, SIZE_UPDATE_PREFIX, least)?;
    }
    Ok(())
}

fn push_fields(
    out: &mut Vec<u8>,
    table: &mut SearchTable,
    fields: &[Field],
) -> Result<(), AllocError>
    requires { Any IsTooLong fields.now → ⊥ }
    ensures text { OnOk result
        (Appends out.old.items out.new.items
        (λ text. AreFields table.old text fields.now table.new)) }
    ensures limit { OnOk result (table.new.limit ≡ table.old.limit) }
    ensures private { OnOk result (NonePrivate table.old → NonePrivate table.new) }
{
    for field in fields {
        push_field(out, table, field)?;
    }
    Ok(())
}

fn push_field(out: &mut Vec<u8>, table: &mut SearchTable, field: &Field) -> Result<(), AllocError>
    requires name { length field.now.name < 2 ^ 32 }
    requires value { length field.now.value < 2 ^ 32 }
    ensures text { OnOk result
        (Appends out.old.items out.new.items
        (λ text. Represents table.old text field.now table.new)) }
    ensures limit { OnOk result (table.new.limit ≡ table.old.limit) }
    ensures private { OnOk result (NonePrivate table.old → NonePrivate table.new) }
{
    match table.find(field.name.as_slice(), field.value.as_slice()) {
        TableMatch::Whole(index) => push_integer(out, INDEXED, INDEXED_PREFIX, index),
        TableMatch::Name(index) => push_literal(out, table, field, index),
        TableMatch::Nothing => push_literal(out, table, field, NEW_NAME),
    }
}

/// Writes a literal, whose name has this index or is spelled out. It becomes an entry, unless it is
/// larger than the table or private: a larger one would empty the table.
fn push_literal(
    out: &mut Vec<u8>,
    table: &mut SearchTable,
    field: &Field,
    index: u32,
) -> Result<(), AllocError>
    requires name { length field.now.name < 2 ^ 32 }
    requires value { length field.now.value < 2 ^ 32 }
    requires index { IsNameAt table.old index field.now.name }
    ensures text { OnOk result
        (Appends out.old.items out.new.items
        (λ text. Represents table.old text field.now table.new)) }
    ensures limit { OnOk result (table.new.limit ≡ table.old.limit) }
    ensures large { table.old.limit < size_of field.now → table.new ≡ table.old }
    ensures private { IsPrivate field.now.name → table.new ≡ table.old }
    ensures entry { OnOk result (NonePrivate table.old → NonePrivate table.new) }
{
    let size = capped_size(field);
    if size > table.limit() as usize || is_private(field.name.as_slice()) {
        return push_pair(out, LITERAL, LITERAL_PREFIX, index, field);
    }
    push_pair(out, LITERAL_INDEXED, LITERAL_INDEXED_PREFIX, index, field)?;
    table.insert(field, size)
}

/// Whether a field of this name never becomes an entry: its value is a text from a request, or
/// bytes of an application.
fn is_private(name: &[u8]) -> bool
    ensures { IsTrue result ↔ IsPrivate name.now }
{
    name == b"grpc-message".as_slice() || name.ends_with(b"-bin")
}

/// Writes an index, the name, unless the index is one of an entry, and the value.
fn push_pair(
    out: &mut Vec<u8>,
    flags: u8,
    prefix_bits: u32,
    index: u32,
    field: &Field,
) -> Result<(), AllocError>
    requires prefix { prefix_bits < 8 }
    requires flags { flags + 2 ^ prefix_bits ≤ 256 }
    requires name { length field.now.name < 2 ^ 32 }
    requires value { length field.now.value < 2 ^ 32 }
    ensures { (table : Table) → IsNameAt table index field.now.name
        → OnOk result (Appends out.old.items out.new.items
        (λ text. IsLiteral prefix_bits flags table text field.now)) }
{
    push_integer(out, flags, prefix_bits, index)?;
    if index == NEW_NAME {
        push_string(out, field.name.as_slice())?;
    }
    push_string(out, field.value.as_slice())
}
