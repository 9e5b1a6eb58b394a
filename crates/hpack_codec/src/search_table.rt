//! The dynamic table of an encoder, and the search of a field in both tables.
ghost use Rattle.std.specs.Prelude.{◌≡◌, ◌<◌, OnOk};
ghost use Rattle.hpack_codec.specs.Table.{size_of, insert_entry, resize, empty_table};
ghost use Rattle.hpack_codec.specs.Reading.{IsFound};

use crate::static_table;
use crate::table::DynamicTable;
use crate::table_match::TableMatch;
use lists::Field;
use std::alloc::{AllocError, Global};
use std::collections::VecDeque;
use std::marker::Model;

/// The index of the newest entry.
const NEWEST: u32 = 62;

/// How many marks a text has.
const SPAN: u32 = 65536;

/// A dynamic table, and a mark of each entry, newest first. The marks say where a search has to
/// look: it passes most other entries without a look at their bytes. A clause sees the table alone.
#[derive(Drop)]
pub struct SearchTable {
    table: DynamicTable,
    marks: VecDeque<u32>,
}

impl Model for SearchTable {
    ghost use Rattle.hpack_codec.specs.Table.{Table};

    ghost Value = { Table };

    ghost view = { λ t. t.table };
}

impl SearchTable {
    pub fn new(alloc: Global) -> SearchTable
        ensures { result ≡ empty_table }
    {
        SearchTable {
            table: DynamicTable::new(alloc),
            marks: VecDeque::new(alloc),
        }
    }

    pub fn limit(&self) -> u32
        ensures { result ≡ self.now.limit }
    {
        self.table.limit()
    }

    /// Changes the limit. The oldest entries go if there is no room.
    pub fn resize(&mut self, limit: u32)
        ensures { self.new ≡ resize self.old limit }
    {
        self.table.resize(limit);
        self.marks.truncate(self.table.len());
    }

    /// Puts an entry first. The oldest go if there is no room.
    pub fn insert(&mut self, field: &Field, size: usize) -> Result<(), AllocError>
        requires { size ≡ size_of field.now }
        ensures { OnOk result (self.new ≡ insert_entry self.old field.now) }
    {
        self.table.insert(field, size)?;
        self.marks
            .push_front(mark_of(field.name.as_slice(), field.value.as_slice()))?;
        self.marks.truncate(self.table.len());
        Ok(())
    }

    /// Where the tables have a field: an entry of its name and value, or else the least index of
    /// its name, the static table first. No field is whole in both tables.
    pub fn find(&self, name: &[u8], value: &[u8]) -> TableMatch
        ensures { IsFound self.now result name.now value.now }
    {
        let recent = self.find_recent(name, value);
        if let TableMatch::Whole(_) = recent {
            return recent;
        }
        match static_table::find(name, value) {
            TableMatch::Nothing => recent,
            found => found,
        }
    }

    fn find_recent(&self, name: &[u8], value: &[u8]) -> TableMatch
        ensures { IsFound self.now result name.now value.now }
    {
        let wanted = mark_of(name, value);
        let mut found = TableMatch::Nothing;
        let mut index = NEWEST;
        for mark in &self.marks {
            if is_candidate(*mark, wanted, found) {
                match self.at(index, name, value) {
                    TableMatch::Whole(index) => return TableMatch::Whole(index),
                    TableMatch::Name(index) => {
                        if let TableMatch::Nothing = found {
                            found = TableMatch::Name(index);
                        }
                    }
                    TableMatch::Nothing => (),
                }
            }
            index = index.saturating_add(1);
        }
        found
    }

    /// How much of a field the entry at an index has.
    fn at(&self, index: u32, name: &[u8], value: &[u8]) -> TableMatch
        ensures { IsFound self.now result name.now value.now }
    {
        let Some((entry_name, entry_value)) = self.table.get(index) else {
            return TableMatch::Nothing;
        };
        if entry_name == name {
            if entry_value == value {
                return TableMatch::Whole(index);
            }
            return TableMatch::Name(index);
        }
        TableMatch::Nothing
    }
}

/// Whether an entry with this mark can have the field, or its name where none was found.
fn is_candidate(mark: u32, wanted: u32, found: TableMatch) -> bool {
    match found {
        TableMatch::Nothing => mark / SPAN == wanted / SPAN,
        _ => mark == wanted,
    }
}

/// A mark of the name, and below it one of the value.
fn mark_of(name: &[u8], value: &[u8]) -> u32 {
    text_mark(name) * SPAN + text_mark(value)
}

/// A mark of a text, less than `SPAN`: its length, and its last byte.
fn text_mark(text: &[u8]) -> u32
    ensures { result < 65536 }
{
    match text {
        [.., last] => (text.len() % 256) as u32 * 256 + u32::from(*last),
        [] => 0,
    }
}
