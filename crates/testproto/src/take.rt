//! One field of a message, by its kind. Each function takes the field that it is passed if that has
//! the number and the wire type of the kind; any other field changes nothing.

ghost use Rattle.std.specs.Prelude.{
  ◌≡◌,
  ◌≢◌,
  ◌++◌,
  ◌∷◌,
  [],
  List,
  ℕ,
  IfOk,
  IfErr,
  IfSome,
  IfNone,
  OnOk,
  MatchOption,
};
ghost use Rattle.pbwire.specs.Fields.{Field, field_of};
ghost use Rattle.testproto.specs.declared.fault.ProtoFault.TheVariants.{OutOfMemory};
ghost use Rattle.testproto.specs.Values.{
  varint_in,
  content_in,
  contents,
  int32,
  boolean,
  byte_string,
  AreJoined,
  IsEmbedded,
  AcceptsText,
  AcceptsMessage,
  RefusesText,
  RefusesMessage,
  HasFault,
  IsValueOf,
};

use crate::fault::ProtoFault;
use crate::lists::{ByteList, Text};
use crate::message::{Message, decode_message, merge};
use pbwire::{FieldItem, FieldValue};
use std::alloc::Global;

/// The varint in a field, if it has this number and is one.
fn varint_of(number: u32, item: &FieldItem<'_>) -> Option<u64>
    ensures { MatchOption result (varint_in number (field_of item.now) ≡ [])
        (λ n. varint_in number (field_of item.now) ≡ n ∷ []) }
{
    match item.value {
        FieldValue::Varint(n) if item.number == number => Some(n),
        _ => None,
    }
}

/// The bytes in a field, if it has this number and is length-delimited.
fn content_of<'a>(number: u32, item: &FieldItem<'a>) -> Option<&'a [u8]>
    ensures { MatchOption result (content_in number (field_of item.now) ≡ [])
        (λ content. content_in number (field_of item.now) ≡ content.now ∷ []) }
{
    match item.value {
        FieldValue::Bytes(content) if item.number == number => Some(content),
        _ => None,
    }
}

/// An int32 or an enum: the low 32 bits of the varint.
pub(crate) fn take_int32(held: &mut i32, number: u32, item: &FieldItem<'_>)
    ensures { (before : List Field) → held.old ≡ int32 number before
        → held.new ≡ int32 number (before ++ field_of item.now ∷ []) }
{
    if let Some(n) = varint_of(number, item) {
        *held = ((n & 0xffff_ffff) as u32).cast_signed();
    }
}

/// A bool: true where the varint isn't 0.
pub(crate) fn take_bool(held: &mut bool, number: u32, item: &FieldItem<'_>)
    ensures { (before : List Field) → held.old ≡ boolean number before
        → held.new ≡ boolean number (before ++ field_of item.now ∷ []) }
{
    if let Some(n) = varint_of(number, item) {
        *held = n != 0;
    }
}

/// Bytes.
pub(crate) fn take_bytes<'a>(held: &mut ByteList<'a>, number: u32, item: &FieldItem<'a>)
    ensures { (before : List Field) → held.old ≡ byte_string number before
        → held.new ≡ byte_string number (before ++ field_of item.now ∷ []) }
{
    if let Some(content) = content_of(number, item) {
        *held = ByteList::from_slice(content);
    }
}

/// A string, which is UTF-8.
pub(crate) fn take_text<'a>(
    held: &mut Text<'a>,
    number: u32,
    item: &FieldItem<'a>,
) -> Result<(), ProtoFault>
    ensures value { OnOk result ((before : List Field) → held.old ≡ byte_string number before
        → held.new ≡ byte_string number (before ++ field_of item.now ∷ [])) }
    ensures accepted { OnOk result (AcceptsText number (field_of item.now)) }
    ensures refused { IfErr result (λ fault. RefusesText number (field_of item.now) fault) }
{
    if let Some(content) = content_of(number, item) {
        let Ok(text) = str::from_utf8(content) else {
            return Err(ProtoFault::NotUtf8);
        };
        *held = Text::from_text(text);
    }
    Ok(())
}

/// The message that is there, or that of no fields.
fn or_empty<'a, M: Message<'a>>(held: Option<M>, alloc: Global) -> M
    ensures { (contents : List (List ℕ)) → IsEmbedded M.is_value contents held
        → (fields : List Field) × AreJoined contents fields × M.is_value fields result }
{
    match held {
        Some(message) => message,
        None => M::empty(alloc),
    }
}

/// A message in a message. A later occurrence adds to what an earlier one said.
pub(crate) fn take_message<'a, M: Message<'a>>(
    held: &mut Option<M>,
    alloc: Global,
    number: u32,
    item: &FieldItem<'a>,
) -> Result<(), ProtoFault>
    ensures value { OnOk result
        ((before : List Field) → IsEmbedded M.is_value (contents number before) held.old
        → IsEmbedded M.is_value (contents number (before ++ field_of item.now ∷ [])) held.new) }
    ensures accepted { OnOk result (AcceptsMessage M.accepts number (field_of item.now)) }
    ensures refused { IfErr result (λ fault. fault ≢ OutOfMemory →
        RefusesMessage (HasFault M.accepts M.refuses) number (field_of item.now) fault) }
{
    let Some(content) = content_of(number, item) else {
        return Ok(());
    };
    let mut message = or_empty(held.take(), alloc);
    merge(&mut message, alloc, content)?;
    *held = Some(message);
    Ok(())
}

/// The message in a field by itself, if the field has this number and is length-delimited.
pub(crate) fn read_message<'a, M: Message<'a>>(
    alloc: Global,
    number: u32,
    item: &FieldItem<'a>,
) -> Result<Option<M>, ProtoFault>
    ensures none { IfOk result (λ read. IfNone read (content_in number (field_of item.now) ≡ [])) }
    ensures some { IfOk result
        (λ read. IfSome read (λ message. (content : List ℕ)
        × (content_in number (field_of item.now) ≡ content ∷ [])
        × IsValueOf M.accepts M.is_value content message)) }
    ensures refused { IfErr result (λ fault. fault ≢ OutOfMemory →
        RefusesMessage (HasFault M.accepts M.refuses) number (field_of item.now) fault) }
{
    match content_of(number, item) {
        Some(content) => Ok(Some(decode_message(alloc, content)?)),
        None => Ok(None),
    }
}
