//! Reading a header block (RFC 7541, sections 3.2 and 6).
ghost use Rattle.std.specs.Prelude.{
  List,
  Option,
  MatchResult,
  ◌≡◌,
  ◌≢◌,
  ◌<◌,
  ◌≤◌,
  ◌⊎◌,
  [],
  length,
  Some,
  None,
  Err,
  IfOk,
  IfErr,
  OnOk,
  OnErr,
  true,
  false,
};
ghost use Rattle.lists.specs.declared.field.Field.{Field as FieldOf};
ghost use Rattle.hpack_codec.specs.declared.fault.HpackFault.{HpackFault};
ghost use Rattle.hpack_codec.specs.Table.{Table, empty_table, size_of, sizes_of};
ghost use Rattle.hpack_codec.specs.Block.{AreFields};
ghost use Rattle.hpack_codec.specs.Faults.{IsIndexedFault, IsLiteralFault, IsNameFault, Begins};
ghost use Rattle.hpack_codec.specs.Codec.{Reads, IsFirstFault};
ghost use Rattle.hpack_codec.specs.Reading.{
  OrMemory,
  TakesName,
  TakesLiteral,
  TakesIndexed,
  TakesField,
  TakesUpdates,
  IsFieldFault,
  IsFieldsFault,
  IsUpdatesFault,
  next_table,
  flags_of,
};

use crate::fault::HpackFault;
use crate::integer::integer;
use crate::representation::{
    INDEXED, INDEXED_PREFIX, LITERAL_INDEXED, LITERAL_INDEXED_PREFIX, LITERAL_PREFIX, NEW_NAME,
    SIZE_UPDATE, SIZE_UPDATE_PREFIX,
};
use crate::string_literal::string;
use crate::table::{DynamicTable, MAX_LIMIT, capped_size};
use lists::{Field, Octets};
use std::alloc::{AllocError, Global};
use std::marker::Model;

/// The sizes that the fields of a block may have together.
const MAX_SIZES: usize = 65536;

/// For how many fields a block's memory is taken at once, if it has as many bytes: no field has
/// none.
const MOST_AT_ONCE: usize = 16;

/// Reads the blocks of one connection in order. A clause sees the dynamic table, and none once it
/// is dead.
#[derive(Drop)]
pub struct Decoder {
    alloc: Global,
    table: Option<DynamicTable>,
}

impl Model for Decoder {
    ghost use Rattle.std.specs.Prelude.{Option};
    ghost use Rattle.hpack_codec.specs.Table.{Table};

    ghost Value = { Option Table };

    ghost view = { λ decoder. decoder.table };
}

impl Decoder {
    pub fn new(alloc: Global) -> Decoder
        ensures { result ≡ Some empty_table }
    {
        Decoder {
            alloc,
            table: Some(DynamicTable::new(alloc)),
        }
    }

    /// The fields of the next block, whose sizes (name, value and 32) are at most 65,536 together.
    pub fn block(&mut self, block: &[u8]) -> Result<Vec<Field>, HpackFault>
        // What is read is in the block, which leads to the table that is kept.
        ensures ok { IfOk result (λ fields. Reads self.old block.now fields.items self.new) }

        // A fault is the first one from the left.
        ensures err { IfErr result (λ fault. IsFirstFault fault self.old block.now) }

        // What is in the block is read, unless memory runs out.
        ensures only { (fields : List FieldOf) (kept : Option Table)
            → Reads self.old block.now fields kept
            → MatchResult result (λ read. (read.items ≡ fields) × (self.new ≡ kept))
            (λ fault. fault ≡ HpackFault.OutOfMemory) }

        // The first fault of the block is answered, unless memory runs out.
        ensures first { (fault : HpackFault) → fault ≢ HpackFault.OutOfMemory
            → IsFirstFault fault self.old block.now
            → (result ≡ Err fault) ⊎ (result ≡ Err HpackFault.OutOfMemory) }

        // After any fault the decoder is dead.
        ensures dead { OnErr result (self.new ≡ None) }
    {
        self.read(block)
    }

    fn read(&mut self, block: &[u8]) -> Result<Vec<Field>, HpackFault>
        ensures ok { IfOk result (λ fields. Reads self.old block.now fields.items self.new) }
        ensures err { IfErr result (λ fault. IsFirstFault fault self.old block.now) }
        ensures dead { OnErr result (self.new ≡ None) }
    {
        let Some(mut table) = self.table.take() else {
            return Err(HpackFault::Dead);
        };
        let rest = updates(&mut table, block)?;
        let fields = fields_of(self.alloc, &mut table, rest)?;
        self.table = Some(table);
        Ok(fields)
    }
}

/// Makes the changes of size with which a block begins, and answers what follows them.
fn updates<'b>(table: &mut DynamicTable, block: &'b [u8]) -> Result<&'b [u8], HpackFault>
    ensures ok { IfOk result (λ rest. TakesUpdates table.old block.now table.new rest.now) }
    ensures err { IfErr result (λ fault. IsUpdatesFault fault table.old block.now) }
{
    let mut rest = block;
    while begins_update(rest) {
        let (limit, behind) = integer(SIZE_UPDATE_PREFIX, rest)?;
        if limit > MAX_LIMIT {
            return Err(HpackFault::SizeUpdate);
        }
        table.resize(limit);
        rest = behind;
    }
    Ok(rest)
}

fn begins_update(bytes: &[u8]) -> bool
    ensures begins { result ≡ true → Begins 32 64 bytes.now }
    ensures not { result ≡ false → Begins 32 64 bytes.now → ⊥ }
{
    match bytes {
        [first, ..] => *first >= SIZE_UPDATE && *first < LITERAL_INDEXED,
        [] => false,
    }
}

/// The fields of all the bytes.
fn fields_of(
    alloc: Global,
    table: &mut DynamicTable,
    bytes: &[u8],
) -> Result<Vec<Field>, HpackFault>
    requires { Begins 32 64 bytes.now → ⊥ }
    ensures ok { IfOk result (λ fields. AreFields table.old bytes.now fields.items table.new) }
    ensures lawful { IfOk result (λ fields. sizes_of fields.items ≤ 65536) }
    ensures err { IfErr result (λ fault. IsFieldsFault fault table.old bytes.now) }
{
    let mut fields = Vec::with_capacity(alloc, bytes.len().min(MOST_AT_ONCE))?;
    let mut room = MAX_SIZES;
    let mut rest = bytes;
    while !rest.is_empty() {
        let (field, is_entry, behind) = field_at(alloc, table, rest)?;
        let size = capped_size(&field);
        if size > room {
            return Err(HpackFault::TooLarge);
        }
        room -= size;
        keep(table, &field, is_entry, size)?;
        fields.push(field)?;
        rest = behind;
    }
    Ok(fields)
}

/// Puts a field into the table, if it becomes an entry.
fn keep(
    table: &mut DynamicTable,
    field: &Field,
    is_entry: bool,
    size: usize,
) -> Result<(), AllocError>
    requires { size ≡ size_of field.now }
    ensures { OnOk result (table.new ≡ next_table is_entry table.old field.now) }
{
    if is_entry {
        table.insert(field, size)?;
    }
    Ok(())
}

/// The first field, whether it becomes an entry, and the bytes after it.
fn field_at<'b>(
    alloc: Global,
    table: &DynamicTable,
    bytes: &'b [u8],
) -> Result<(Field, bool, &'b [u8]), HpackFault>
    requires { 0 < length bytes.now }
    ensures ok { IfOk result (λ taken. TakesField table.now bytes.now taken.0 taken.1 taken.2.now) }
    ensures err { IfErr result (λ fault. OrMemory fault (IsFieldFault fault table.now bytes.now)) }
{
    let first = bytes[0];
    if first >= INDEXED {
        let (field, rest) = indexed(table, bytes)?;
        return Ok((field, false, rest));
    }
    if first >= LITERAL_INDEXED {
        let (field, rest) = new_entry(alloc, table, bytes)?;
        return Ok((field, true, rest));
    }
    if first >= SIZE_UPDATE {
        return Err(HpackFault::SizeUpdate);
    }
    let (field, rest) = literal(alloc, table, LITERAL_PREFIX, bytes)?;
    Ok((field, false, rest))
}

fn indexed<'b>(table: &DynamicTable, bytes: &'b [u8]) -> Result<(Field, &'b [u8]), HpackFault>
    requires { flags_of 7 bytes.now ≡ 128 }
    ensures ok { IfOk result (λ taken. TakesIndexed table.now bytes.now taken.0 taken.1.now) }
    ensures err { IfErr result
        (λ fault. OrMemory fault (IsIndexedFault fault table.now bytes.now)) }
{
    let (index, rest) = integer(INDEXED_PREFIX, bytes)?;
    let Some(field) = table.field(index)? else {
        return Err(HpackFault::Index);
    };
    Ok((field, rest))
}

/// The literal at the front, which becomes an entry: no copy of it takes memory.
fn new_entry<'b>(
    alloc: Global,
    table: &DynamicTable,
    bytes: &'b [u8],
) -> Result<(Field, &'b [u8]), HpackFault>
    ensures ok { IfOk result (λ taken. TakesLiteral 6 table.now bytes.now taken.0 taken.1.now) }
    ensures err { IfErr result (λ fault. OrMemory fault
        (IsLiteralFault fault 6 (flags_of 6 bytes.now) table.now bytes.now)) }
{
    let (Field { name, value }, rest) = literal(alloc, table, LITERAL_INDEXED_PREFIX, bytes)?;
    let field = Field {
        name: name.share()?,
        value: value.share()?,
    };
    Ok((field, rest))
}

fn literal<'b>(
    alloc: Global,
    table: &DynamicTable,
    prefix_bits: u32,
    bytes: &'b [u8],
) -> Result<(Field, &'b [u8]), HpackFault>
    requires { prefix_bits < 8 }
    ensures ok { IfOk result
        (λ taken. TakesLiteral prefix_bits table.now bytes.now taken.0 taken.1.now) }
    ensures err { IfErr result (λ fault. OrMemory fault
        (IsLiteralFault fault prefix_bits (flags_of prefix_bits bytes.now) table.now bytes.now)) }
{
    let (index, rest) = integer(prefix_bits, bytes)?;
    let (name, rest) = literal_name(alloc, table, index, rest)?;
    let (value, rest) = string(alloc, rest)?;
    Ok((Field { name, value }, rest))
}

fn literal_name<'b>(
    alloc: Global,
    table: &DynamicTable,
    index: u32,
    bytes: &'b [u8],
) -> Result<(Octets, &'b [u8]), HpackFault>
    ensures ok { IfOk result (λ taken. TakesName table.now index bytes.now taken.0 taken.1.now) }
    ensures err { IfErr result
        (λ fault. OrMemory fault (IsNameFault fault table.now index bytes.now)) }
{
    if index == NEW_NAME {
        return string(alloc, bytes);
    }
    let Some(Field { name, .. }) = table.field(index)? else {
        return Err(HpackFault::Index);
    };
    Ok((name, bytes))
}
