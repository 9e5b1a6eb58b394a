//! One field of a message, as it is written, by its kind: how long it is, and the field at the end
//! of a buffer. A default is left out.

ghost use Rattle.std.specs.Prelude.{
  ◌≡◌,
  ◌+◌,
  ◌++◌,
  ◌^◌,
  ◌≤◌,
  ℕ,
  length,
  take,
  IfSome,
  IfNone,
  OnOk,
  IfErr,
};
ghost use Rattle.pbwire.specs.Fields.{field_with, content_of, varint};
ghost use Rattle.pbwire.specs.Spelling.{
  varint_spelling,
  spelling_of,
  spelling_of_all,
  IsFieldNumber,
};
ghost use Rattle.testproto.specs.declared.fault.ProtoFault.TheVariants.{OutOfMemory};
ghost use Rattle.testproto.specs.Canonical.{
  int32_fields,
  bool_fields,
  bytes_fields,
  message_field,
  message_fields,
};
ghost use Rattle.testproto.specs.Sizes.{delimited_len};

use crate::fault::ProtoFault;
use crate::message::Message;
use pbwire::{FieldValue, varint_len, write_field, write_varint};

/// A tag is a field's number times this, and the number of the wire type, which is 0 for a varint.
const WIRE_TYPES: u64 = 8;

/// The wire type of what is length-delimited.
const DELIMITED: u64 = 2;

/// Adds the length of a field with a varint.
fn add_varint(total: usize, number: u32, n: u64) -> Option<usize>
    ensures len { IfSome result
        (λ size. size ≡ total + length (spelling_of (field_with number (varint n)))) }
    ensures too_long { IfNone result
        (2 ^ 64 ≤ total + length (spelling_of (field_with number (varint n)))) }
{
    total.checked_add(varint_len(u64::from(number) * WIRE_TYPES) + varint_len(n))
}

/// Adds the length of a length-delimited field.
fn add_delimited(total: usize, number: u32, len: usize) -> Option<usize>
    ensures len { IfSome result (λ size. size ≡ total + delimited_len number len) }
    ensures too_long { IfNone result (2 ^ 64 ≤ total + delimited_len number len) }
{
    let head = varint_len(u64::from(number) * WIRE_TYPES + DELIMITED) + varint_len(len as u64);
    total.checked_add(head)?.checked_add(len)
}

pub(crate) fn add_int32(total: usize, number: u32, value: i32) -> Option<usize>
    ensures len { IfSome result
        (λ size. size ≡ total + length (spelling_of_all (int32_fields number value))) }
    ensures too_long { IfNone result
        (2 ^ 64 ≤ total + length (spelling_of_all (int32_fields number value))) }
{
    if value == 0 {
        return Some(total);
    }
    add_varint(total, number, i64::from(value).cast_unsigned())
}

pub(crate) fn add_bool(total: usize, number: u32, value: bool) -> Option<usize>
    ensures len { IfSome result
        (λ size. size ≡ total + length (spelling_of_all (bool_fields number value))) }
    ensures too_long { IfNone result
        (2 ^ 64 ≤ total + length (spelling_of_all (bool_fields number value))) }
{
    if value {
        add_varint(total, number, 1)
    } else {
        Some(total)
    }
}

pub(crate) fn add_bytes(total: usize, number: u32, bytes: &[u8]) -> Option<usize>
    ensures len { IfSome result
        (λ size. size ≡ total + length (spelling_of_all (bytes_fields number bytes.now))) }
    ensures too_long { IfNone result
        (2 ^ 64 ≤ total + length (spelling_of_all (bytes_fields number bytes.now))) }
{
    if bytes.is_empty() {
        return Some(total);
    }
    add_delimited(total, number, bytes.len())
}

pub(crate) fn add_one<'a, M: Message<'a>>(total: usize, number: u32, message: &M) -> Option<usize>
    ensures len { IfSome result
        (λ size. size ≡ total + length
        (spelling_of (message_field M.fields_of number message.now))) }
    ensures too_long { IfNone result
        (2 ^ 64 ≤ total + length (spelling_of (message_field M.fields_of number message.now))) }
    ensures fits { IfSome result (λ size. M.fits message.now) }
{
    let size = message.size()?;
    add_delimited(total, number, size)
}

pub(crate) fn add_message<'a, M: Message<'a>>(
    total: usize,
    number: u32,
    held: &Option<M>,
) -> Option<usize>
    ensures len { IfSome result
        (λ size. size ≡ total + length
        (spelling_of_all (message_fields M.fields_of number held.now))) }
    ensures too_long { IfNone result
        (2 ^ 64 ≤ total + length (spelling_of_all (message_fields M.fields_of number held.now))) }
    ensures fits { IfSome result (λ size. IfSome held.now M.fits) }
{
    match held {
        Some(message) => add_one(total, number, message),
        None => Some(total),
    }
}

/// Appends a field. It fails only for want of memory.
fn put(number: u32, value: &FieldValue<'_>, out: &mut Vec<u8>) -> Result<(), ProtoFault>
    requires { IsFieldNumber number }
    ensures ok { OnOk result
        (out.new.items ≡ out.old.items ++ spelling_of (field_with number (content_of value.now))) }
    ensures kept { take (length out.old.items) out.new.items ≡ out.old.items }
    ensures memory { IfErr result (λ fault. fault ≡ OutOfMemory) }
{
    match write_field(number, value, out) {
        Ok(()) => Ok(()),
        Err(_) => Err(ProtoFault::OutOfMemory),
    }
}

fn put_varint(n: u64, out: &mut Vec<u8>) -> Result<(), ProtoFault>
    ensures ok { OnOk result (out.new.items ≡ out.old.items ++ varint_spelling n) }
    ensures kept { take (length out.old.items) out.new.items ≡ out.old.items }
    ensures memory { IfErr result (λ fault. fault ≡ OutOfMemory) }
{
    match write_varint(n, out) {
        Ok(()) => Ok(()),
        Err(_) => Err(ProtoFault::OutOfMemory),
    }
}

pub(crate) fn put_int32(number: u32, value: i32, out: &mut Vec<u8>) -> Result<(), ProtoFault>
    requires { IsFieldNumber number }
    ensures ok { OnOk result
        (out.new.items ≡ out.old.items ++ spelling_of_all (int32_fields number value)) }
    ensures kept { take (length out.old.items) out.new.items ≡ out.old.items }
    ensures memory { IfErr result (λ fault. fault ≡ OutOfMemory) }
{
    if value == 0 {
        return Ok(());
    }
    put(
        number,
        &FieldValue::Varint(i64::from(value).cast_unsigned()),
        out,
    )
}

pub(crate) fn put_bool(number: u32, value: bool, out: &mut Vec<u8>) -> Result<(), ProtoFault>
    requires { IsFieldNumber number }
    ensures ok { OnOk result
        (out.new.items ≡ out.old.items ++ spelling_of_all (bool_fields number value)) }
    ensures kept { take (length out.old.items) out.new.items ≡ out.old.items }
    ensures memory { IfErr result (λ fault. fault ≡ OutOfMemory) }
{
    if value {
        put(number, &FieldValue::Varint(1), out)?;
    }
    Ok(())
}

pub(crate) fn put_bytes(number: u32, bytes: &[u8], out: &mut Vec<u8>) -> Result<(), ProtoFault>
    requires { IsFieldNumber number }
    ensures ok { OnOk result
        (out.new.items ≡ out.old.items ++ spelling_of_all (bytes_fields number bytes.now)) }
    ensures kept { take (length out.old.items) out.new.items ≡ out.old.items }
    ensures memory { IfErr result (λ fault. fault ≡ OutOfMemory) }
{
    if !bytes.is_empty() {
        put(number, &FieldValue::Bytes(bytes), out)?;
    }
    Ok(())
}

/// A message in a message: its length, and then its fields in place.
pub(crate) fn put_one<'a, M: Message<'a>>(
    number: u32,
    message: &M,
    out: &mut Vec<u8>,
) -> Result<(), ProtoFault>
    requires { IsFieldNumber number }
    ensures ok { OnOk result
        (out.new.items ≡ out.old.items
        ++ spelling_of (message_field M.fields_of number message.now)) }
    ensures kept { take (length out.old.items) out.new.items ≡ out.old.items }
    ensures memory { IfErr result (λ fault. fault ≡ OutOfMemory) }
{
    let Some(size) = message.size() else {
        return Err(ProtoFault::OutOfMemory);
    };
    put_varint(u64::from(number) * WIRE_TYPES + DELIMITED, out)?;
    put_varint(size as u64, out)?;
    message.put_fields(out)
}

pub(crate) fn put_message<'a, M: Message<'a>>(
    number: u32,
    held: &Option<M>,
    out: &mut Vec<u8>,
) -> Result<(), ProtoFault>
    requires { IsFieldNumber number }
    ensures ok { OnOk result
        (out.new.items ≡ out.old.items
        ++ spelling_of_all (message_fields M.fields_of number held.now)) }
    ensures kept { take (length out.old.items) out.new.items ≡ out.old.items }
    ensures memory { IfErr result (λ fault. fault ≡ OutOfMemory) }
{
    match held {
        Some(message) => put_one(number, message, out),
        None => Ok(()),
    }
}
