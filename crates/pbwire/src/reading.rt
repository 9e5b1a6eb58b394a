//! The fields of a message, one after another.
//!
//! `Fields` keeps the unread bytes and nothing else. A fault uses up nothing, so the next call
//! finds it again at its place, and reads at most some twenty bytes for it.

ghost use Rattle.std.specs.Prelude.{
  ◌≡◌,
  ◌≢◌,
  ◌↔◌,
  ◌<◌,
  ℕ,
  List,
  [],
  length,
  IsNone,
  IfNone,
  IfSome,
  IfOk,
  IfErr,
  OnOk,
  OnErr,
  Some,
  Ok,
  Err,
};
ghost use Rattle.pbwire.specs.declared.fault.WireFault.{WireFault as Fault};
ghost use Rattle.pbwire.specs.declared.field.FieldItem.{FieldItem as Item};
ghost use Rattle.pbwire.specs.Fields.{
  Field,
  field_of,
  content_of,
  StartsWithField,
  FaultAt,
  IsField,
};
ghost use Rattle.pbwire.specs.Reading.{Gives, content_at, field_at};

use crate::fault::WireFault;
use crate::field::{FieldItem, FieldValue};
use crate::tag::{WireType, read_tag};
use crate::varint::split_varint;
use std::marker::Model;

/// The content at the front, and the bytes after it.
#[tactic(auto, unfolding(crate::specs::Reading::content_at))]
fn split_content(kind: WireType, bytes: &[u8]) -> Result<(FieldValue<'_>, &[u8]), WireFault>
    ensures { Gives (λ parts. (content_of parts.0, parts.1.now)) result
        (content_at kind bytes.now) }
{
    match kind {
        WireType::Varint => {
            let (number, rest) = split_varint(bytes)?;
            Ok((FieldValue::Varint(number), rest))
        }
        WireType::EightBytes => {
            let Some((content, rest)) = bytes.split_first_chunk() else {
                return Err(WireFault::Truncated);
            };
            Ok((FieldValue::EightBytes(u64::from_le_bytes(*content)), rest))
        }
        WireType::Bytes => {
            let (len, rest) = split_varint(bytes)?;
            if (rest.len() as u64) < len {
                return Err(WireFault::Truncated);
            }
            let (content, rest) = rest.split_at(len as usize);
            Ok((FieldValue::Bytes(content), rest))
        }
        WireType::FourBytes => {
            let Some((content, rest)) = bytes.split_first_chunk() else {
                return Err(WireFault::Truncated);
            };
            Ok((FieldValue::FourBytes(u32::from_le_bytes(*content)), rest))
        }
    }
}

/// The field at the front, and the bytes after it.
#[tactic(auto, unfolding(crate::specs::Reading::field_at))]
fn split_field(bytes: &[u8]) -> Result<(FieldItem<'_>, &[u8]), WireFault>
    ensures { Gives (λ parts. (field_of parts.0, parts.1.now)) result (field_at bytes.now) }
{
    let (tag, rest) = split_varint(bytes)?;
    let (number, kind) = read_tag(tag)?;
    let (value, rest) = split_content(kind, rest)?;
    Ok((FieldItem { number, value }, rest))
}

/// The fields of a message, from the front to the end. In a contract it is the bytes that are
/// unread.
#[derive(Debug, Drop)]
pub struct Fields<'a> {
    unread: &'a [u8],
}

impl<'a> Model for Fields<'a> {
    ghost use Rattle.std.specs.Prelude.{List, ℕ};

    ghost Value = { List ℕ };

    ghost view = { λ fields. fields.unread.now };
}

impl<'a> Fields<'a> {
    /// The fields of these bytes, none of which is read yet.
    pub fn new(bytes: &'a [u8]) -> Fields<'a>
        ensures { result ≡ bytes.now }
    {
        Fields { unread: bytes }
    }

    /// The next field, or `None` at the end. A fault ends the fields: each later call answers it
    /// again.
    ///
    /// It takes constant time, whatever the length of what the field holds.
    pub fn next(&mut self) -> Option<Result<FieldItem<'a>, WireFault>>
        // What is answered is what stands at the front of the unread bytes.
        ensures field { IfSome result (λ answer. IfOk answer (λ item.
            StartsWithField self.old (field_of item) self.new)) }
        ensures fault { IfSome result (λ answer. IfErr answer (λ fault. FaultAt self.old fault)) }
        ensures end { IsNone result ↔ (self.old ≡ []) }

        // Each field is read, and each fault is answered.
        ensures every_field { (field : Field) (rest : List ℕ) → StartsWithField self.old field rest
            → IsField result field × (self.new ≡ rest) }
        ensures every_fault { (fault : Fault) → FaultAt self.old fault → result ≡ Some (Err fault) }

        // Only a field is used up, so that a fault, or the end, is answered again.
        ensures shorter { IfSome result
            (λ answer. OnOk answer (length self.new < length self.old)) }
        ensures repeats { IfSome result (λ answer. OnErr answer (self.new ≡ self.old)) }
        ensures stays_empty { IfNone result (self.new ≡ []) }
    {
        if self.unread.is_empty() {
            return None;
        }
        match split_field(self.unread) {
            Ok((item, rest)) => {
                self.unread = rest;
                Some(Ok(item))
            }
            Err(fault) => Some(Err(fault)),
        }
    }
}
