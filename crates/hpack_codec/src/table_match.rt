//! What a search of the tables finds.

/// Where the tables have a field.
#[derive(Clone, Copy)]
pub enum TableMatch {
    /// The name and the value, at this index.
    Whole(u32),
    /// The name alone, at this index.
    Name(u32),
    Nothing,
}
