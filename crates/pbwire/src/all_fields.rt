//! All the fields of a message at once.
//!
//! The walk to the end as one contract; it takes memory for its list.

ghost use Rattle.std.specs.Prelude.{map, IfOk};
ghost use Rattle.pbwire.specs.Fields.{field_of, IsReading};

use crate::fault::WireFault;
use crate::field::FieldItem;
use crate::reading::Fields;
use std::alloc::{AllocError, Global};

/// The fields of a message: all of them, or those before its first fault.
#[derive(Debug, Drop)]
pub struct AllFields<'a> {
    /// In the order of the message. What they hold is borrowed from it.
    pub fields: Vec<FieldItem<'a>>,
    /// What follows these fields, unless it is the end.
    pub fault: Option<WireFault>,
}

/// Walks the fields of a message to their end, or to the first fault, and collects them.
pub fn read_fields(alloc: Global, bytes: &[u8]) -> Result<AllFields<'_>, AllocError>
    ensures { IfOk result (λ reading.
        IsReading bytes.now (map field_of reading.fields.items) reading.fault) }
{
    let mut unread = Fields::new(bytes);
    let mut fields = Vec::new(alloc);
    while let Some(answer) = unread.next() {
        match answer {
            Ok(item) => fields.push(item)?,
            Err(fault) => {
                return Ok(AllFields {
                    fields,
                    fault: Some(fault),
                });
            }
        }
    }
    Ok(AllFields {
        fields,
        fault: None,
    })
}
