//! The table of entries that blocks name by index (RFC 7541, sections 2.3 and 4).
ghost use Rattle.std.specs.Prelude.{
  ◌≡◌,
  ◌<◌,
  ◌≤◌,
  ◌^◌,
  ◌+◌,
  length,
  slice_get,
  Some,
  None,
  MatchOption,
  IfOk,
  OnOk,
  min,
};
ghost use Rattle.hpack_codec.specs.StaticTable.{entry};
ghost use Rattle.hpack_codec.specs.Table.{
  size_of,
  entry_at,
  insert_entry,
  resize,
  empty_table,
  sizes_of,
  fitting,
};

use crate::static_table;
use lists::Field;
use std::alloc::{AllocError, Global};
use std::collections::VecDeque;
use std::marker::Model;

/// What an entry counts beside its bytes.
const OVERHEAD: usize = 32;

/// The greatest limit, which a table has before the first block.
pub const MAX_LIMIT: u32 = 4096;

/// The dynamic table. A clause sees its entries, newest first, and its limit.
#[derive(Drop)]
pub struct DynamicTable {
    recent: VecDeque<Field>,
    size: usize,
    max_size: u32,
}

impl Model for DynamicTable {
    ghost use Rattle.std.specs.Prelude.{◌≡◌, ◌≤◌};
    ghost use Rattle.hpack_codec.specs.Table.{Table, sizes_of};

    ghost Value = { Table };

    ghost view = { λ t. record { entries = t.recent.items; limit = t.max_size } };

    ghost invariant = { λ t. (t.size ≡ sizes_of t.recent.items) × (t.size ≤ t.max_size) };
}

impl DynamicTable {
    pub fn new(alloc: Global) -> DynamicTable
        ensures { result ≡ empty_table }
    {
        DynamicTable {
            recent: VecDeque::new(alloc),
            size: 0,
            max_size: MAX_LIMIT,
        }
    }

    /// How many entries it has.
    pub fn len(&self) -> usize
        ensures { result ≡ length self.now.entries }
    {
        self.recent.len()
    }

    pub fn limit(&self) -> u32
        ensures { result ≡ self.now.limit }
    {
        self.max_size
    }

    /// The name and the value at an index of both tables.
    pub fn get(&self, index: u32) -> Option<(&[u8], &[u8])>
        ensures { MatchOption result (entry_at self.now index ≡ None)
            (λ found. entry_at self.now index ≡ Some (entry found.0.now found.1.now)) }
    {
        let index = index as usize;
        if index == 0 {
            return None;
        }
        if index <= static_table::LEN {
            return Some(static_table::static_entry(index - 1));
        }
        match self.recent.get(index - 1 - static_table::LEN) {
            Some(field) => Some((field.name.as_slice(), field.value.as_slice())),
            None => None,
        }
    }

    /// The field at an index of both tables. It takes no memory where the entry shares its bytes,
    /// or the static table has it.
    pub fn field(&self, index: u32) -> Result<Option<Field>, AllocError>
        ensures { IfOk result (λ found. entry_at self.now index ≡ found) }
    {
        let index = index as usize;
        if index > static_table::LEN {
            return self.recent_field(index - 1 - static_table::LEN);
        }
        if index > 0 {
            return Ok(Some(static_table::static_field(index - 1)));
        }
        Ok(None)
    }

    /// The field that an entry is. The newest one has the place 0.
    fn recent_field(&self, place: usize) -> Result<Option<Field>, AllocError>
        ensures { IfOk result (λ found. slice_get self.now.entries place ≡ found) }
    {
        match self.recent.get(place) {
            Some(field) => Ok(Some(copy_of(field)?)),
            None => Ok(None),
        }
    }

    /// Puts an entry first. The oldest go if there is no room, and all of them for a field larger
    /// than the table. The field is copied if it becomes an entry.
    pub fn insert(&mut self, field: &Field, size: usize) -> Result<(), AllocError>
        requires { size ≡ size_of field.now }
        ensures { OnOk result (self.new ≡ insert_entry self.old field.now) }
    {
        let limit = self.max_size as usize;
        if size > limit {
            self.recent.clear();
            self.size = 0;
            return Ok(());
        }
        self.size = evict(&mut self.recent, self.size, limit - size);
        let entry = copy_of(field)?;
        self.recent.push_front(entry)?;
        self.size += size;
        Ok(())
    }

    /// Changes the limit. The oldest entries go if there is no room.
    pub fn resize(&mut self, limit: u32)
        ensures { self.new ≡ resize self.old limit }
    {
        self.size = evict(&mut self.recent, self.size, limit as usize);
        self.max_size = limit;
    }
}

/// Takes the oldest entries away until the others have room, and answers their size.
fn evict(recent: &mut VecDeque<Field>, size: usize, room: usize) -> usize
    requires { size ≡ sizes_of recent.old.items }
    ensures kept { recent.new.items ≡ fitting room recent.old.items }
    ensures size { result ≡ sizes_of recent.new.items }
    ensures room { result ≤ room }
{
    let mut size = size;
    while size > room {
        if let Some(oldest) = recent.pop_back() {
            size -= oldest.name.len() + oldest.value.len() + OVERHEAD;
        }
    }
    size
}

fn copy_of(field: &Field) -> Result<Field, AllocError>
    ensures { IfOk result (λ copy. copy ≡ field.now) }
{
    field.clone()
}

/// The size of a field, up to the greatest that can be counted.
pub fn capped_size(field: &Field) -> usize
    ensures { result ≡ min (size_of field.now) usize.MAX }
{
    field
        .name
        .len()
        .saturating_add(field.value.len())
        .saturating_add(OVERHEAD)
}
