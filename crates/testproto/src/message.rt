//! What every message has, and how it is read.
//!
//! `size` answers no length where that passes a `usize`; `encode` then answers out of memory.

ghost use Rattle.std.specs.Prelude.{
  ◌≡◌,
  ◌≢◌,
  ◌++◌,
  ◌∷◌,
  [],
  ◌^◌,
  ◌≤◌,
  List,
  length,
  take,
  IfOk,
  IfErr,
  IfSome,
  IfNone,
  OnOk,
  OnErr,
  MatchResult,
};
ghost use Rattle.pbwire.specs.Fields.{Field, field_of};
ghost use Rattle.pbwire.specs.Spelling.{spelling_of_all};
ghost use Rattle.testproto.specs.declared.fault.ProtoFault.{ProtoFault as Fault};
ghost use Rattle.testproto.specs.declared.fault.ProtoFault.TheVariants.{OutOfMemory};
ghost use Rattle.testproto.specs.Values.{IsValueOf, Adds, HasFault};
ghost use Rattle.testproto.specs.Unique.{IsSingle, AreApart};
ghost use Rattle.testproto.specs.Canonical.{IsReadBack};
ghost use Rattle.testproto.specs.Total.{HasValueOrFault};

use crate::fault::ProtoFault;
use pbwire::{FieldItem, Fields};
use std::alloc::Global;

/// A message of the schema, which may point into bytes that live as long as `'a`.
pub trait Message<'a>: Drop {
    /// The message is the value of these fields, in the order in which they stand.
    ghost is_value: { List Field → Self → Type 0 };

    /// The texts and messages in the field are well formed.
    ghost accepts: { Field → Type 0 };

    /// What is wrong with the texts and messages in the field.
    ghost refuses: { Field → Fault → Type 0 };

    /// The fields that are written of the message.
    ghost fields_of: { Self → List Field };

    /// What every value of the type is: its numbers have 32 bits, its strings are UTF-8.
    ghost fits: { Self → Type 0 };

    /// The message of no fields.
    fn empty(alloc: Global) -> Self
        ensures { is_value [] result };

    /// Takes one more field. If that fails, the message is of no more use.
    fn take(&mut self, alloc: Global, item: &FieldItem<'a>) -> Result<(), ProtoFault>
        ensures value { OnOk result ((before : List Field) → is_value before self.old
            → is_value (before ++ field_of item.now ∷ []) self.new) }
        ensures accepted { OnOk result (accepts (field_of item.now)) }
        ensures refused { IfErr result
            (λ fault. fault ≢ OutOfMemory → refuses (field_of item.now) fault) };

    /// How many bytes are written of the message, or none where no buffer could hold them.
    fn size(&self) -> Option<usize>
        ensures len { IfSome result (λ size. size ≡ length (spelling_of_all (fields_of self.now))) }
        ensures fits { IfSome result (λ size. fits self.now) }
        ensures too_long { IfNone result (2 ^ 64 ≤ length (spelling_of_all (fields_of self.now))) };

    /// Appends the fields of the message, by ascending number, defaults left out. Where that fails,
    /// some of their bytes may stand at the end of the buffer.
    fn put_fields(&self, out: &mut Vec<u8>) -> Result<(), ProtoFault>
        ensures ok { OnOk result
            (out.new.items ≡ out.old.items ++ spelling_of_all (fields_of self.now)) }
        ensures kept { take (length out.old.items) out.new.items ≡ out.old.items }
        ensures memory { IfErr result (λ fault. fault ≡ OutOfMemory) };

    /// Fields have one value.
    ghost one_value: { IsSingle is_value };

    /// No field is both accepted and refused.
    ghost apart: { AreApart accepts refuses };

    /// A byte list has a value, or a fault stands in it.
    ghost value_or_fault: { HasValueOrFault accepts refuses is_value };

    /// The value of what is written of a message is that message.
    ghost read_back: { IsReadBack fits fields_of accepts is_value };

    /// The message that the bytes, all of them, are.
    ///
    /// Bytes and texts of the message point into these bytes. It takes memory only for repeated
    /// messages.
    final fn decode(alloc: Global, bytes: &'a [u8]) -> Result<Self, ProtoFault>
        // The answer is the value of the bytes, or a fault that they have.
        ensures ok { IfOk result (λ message. IsValueOf accepts is_value bytes.now message) }
        ensures err { IfErr result
            (λ fault. fault ≢ OutOfMemory → HasFault accepts refuses bytes.now fault) }

        // Bytes that have a value are read, memory aside.
        ensures every_value { (value : Self) → IsValueOf accepts is_value bytes.now value
            → MatchResult result (λ message. message ≡ value) (λ fault. fault ≡ OutOfMemory) }
    {
        decode_message(alloc, bytes)
    }

    /// Appends the fields of the message, by ascending number, defaults left out.
    final fn put(&self, out: &mut Vec<u8>) -> Result<(), ProtoFault>
        ensures ok { OnOk result
            (out.new.items ≡ out.old.items ++ spelling_of_all (fields_of self.now)) }
        ensures unchanged { OnErr result (out.new.items ≡ out.old.items) }
        ensures memory { IfErr result (λ fault. fault ≡ OutOfMemory) }
    {
        append_message(self, out)
    }

    /// The bytes of the message: its fields by ascending number, defaults left out.
    ///
    /// It sets aside the room once and fills it, so a large body is copied once.
    final fn encode(&self, alloc: Global) -> Result<Vec<u8>, ProtoFault>
        ensures ok { IfOk result (λ bytes. bytes.items ≡ spelling_of_all (fields_of self.now)) }
        // So the bytes are read back as this message.
        ensures read_back { IfOk result (λ bytes. IsValueOf accepts is_value bytes.items self.now) }
        ensures memory { IfErr result (λ fault. fault ≡ OutOfMemory) }
    {
        encode_message(alloc, self)
    }
}

/// Reads the fields of these bytes into a message that has read others before.
pub(crate) fn merge<'a, M: Message<'a>>(
    message: &mut M,
    alloc: Global,
    bytes: &'a [u8],
) -> Result<(), ProtoFault>
    ensures ok { OnOk result (Adds M.accepts M.is_value bytes.now message.old message.new) }
    ensures err { IfErr result
        (λ fault. fault ≢ OutOfMemory → HasFault M.accepts M.refuses bytes.now fault) }
{
    let mut fields = Fields::new(bytes);
    while let Some(answer) = fields.next() {
        match answer {
            Ok(item) => message.take(alloc, &item)?,
            Err(fault) => return Err(ProtoFault::Wire(fault)),
        }
    }
    Ok(())
}

/// The message that the bytes, all of them, are.
pub(crate) fn decode_message<'a, M: Message<'a>>(
    alloc: Global,
    bytes: &'a [u8],
) -> Result<M, ProtoFault>
    // The answer is the value of the bytes, or a fault that they have.
    ensures ok { IfOk result (λ message. IsValueOf M.accepts M.is_value bytes.now message) }
    ensures err { IfErr result
        (λ fault. fault ≢ OutOfMemory → HasFault M.accepts M.refuses bytes.now fault) }

    // Bytes that have a value are read, memory aside.
    ensures every_value { (value : M) → IsValueOf M.accepts M.is_value bytes.now value
        → MatchResult result (λ message. message ≡ value) (λ fault. fault ≡ OutOfMemory) }
{
    let mut message = M::empty(alloc);
    merge(&mut message, alloc, bytes)?;
    Ok(message)
}

/// Appends the fields of the message, by ascending number, defaults left out.
pub(crate) fn append_message<'a, M: Message<'a>>(
    message: &M,
    out: &mut Vec<u8>,
) -> Result<(), ProtoFault>
    ensures ok { OnOk result
        (out.new.items ≡ out.old.items ++ spelling_of_all (M.fields_of message.now)) }
    ensures unchanged { OnErr result (out.new.items ≡ out.old.items) }
    ensures memory { IfErr result (λ fault. fault ≡ OutOfMemory) }
{
    let len = out.len();
    if message.put_fields(out).is_err() {
        out.truncate(len);
        return Err(ProtoFault::OutOfMemory);
    }
    Ok(())
}

/// The bytes of the message: its fields by ascending number, defaults left out.
///
/// It sets aside the room once and fills it, so a large body is copied once.
pub(crate) fn encode_message<'a, M: Message<'a>>(
    alloc: Global,
    message: &M,
) -> Result<Vec<u8>, ProtoFault>
    ensures ok { IfOk result (λ bytes. bytes.items ≡ spelling_of_all (M.fields_of message.now)) }
    // So the bytes are read back as this message.
    ensures read_back { IfOk result
        (λ bytes. IsValueOf M.accepts M.is_value bytes.items message.now) }
    ensures memory { IfErr result (λ fault. fault ≡ OutOfMemory) }
{
    let Some(size) = message.size() else {
        return Err(ProtoFault::OutOfMemory);
    };
    let mut out = Vec::with_capacity(alloc, size)?;
    message.put_fields(&mut out)?;
    Ok(out)
}
