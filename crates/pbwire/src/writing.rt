//! Writing varints and fields at the end of a buffer.
//!
//! Where the second part of a field finds no room, the buffer is taken back to its old length; the
//! room isn't asked for first, so a buffer with room is never grown.

ghost use Rattle.std.specs.Prelude.{
  ◌≡◌,
  ◌+◌,
  ◌<◌,
  ◌≤◌,
  ◌++◌,
  length,
  take,
  vec_len,
  vec_capacity,
  OnOk,
  OnErr,
  IfErr,
};
ghost use Rattle.pbwire.specs.declared.fault.WireFault.TheVariants.{OutOfMemory};
ghost use Rattle.pbwire.specs.Fields.{content_of, field_with};
ghost use Rattle.pbwire.specs.Spelling.{
  varint_spelling,
  content_spelling,
  spelling_of,
  IsFieldNumber,
};

use crate::fault::WireFault;
use crate::field::FieldValue;
use crate::tag::tag;
use std::alloc::AllocError;

/// How many values the seven bits of a byte have that count; the top bit, which says that another
/// byte follows, is worth as much.
const GROUPS: u64 = 0x80;

/// Appends a varint. Where that fails, a part of it may have been appended.
fn push_varint(number: u64, out: &mut Vec<u8>) -> Result<(), AllocError>
    ensures ok { OnOk result (out.new.items ≡ out.old.items ++ varint_spelling number) }
    ensures err { OnErr result (take (vec_len out.old) out.new.items ≡ out.old.items) }
    ensures capacity { vec_capacity out.old ≤ vec_capacity out.new }
    ensures full { OnErr result
        (vec_capacity out.old < vec_len out.old + length (varint_spelling number)) }
{
    let mut rest = number;
    while rest >= GROUPS {
        out.push((rest % GROUPS + GROUPS) as u8)?;
        rest /= GROUPS;
    }
    out.push(rest as u8)?;
    Ok(())
}

/// Appends what follows a field's tag.
fn push_content(value: &FieldValue<'_>, out: &mut Vec<u8>) -> Result<(), AllocError>
    ensures ok { OnOk result
        (out.new.items ≡ out.old.items ++ content_spelling (content_of value.now)) }
    ensures err { OnErr result (take (vec_len out.old) out.new.items ≡ out.old.items) }
    ensures capacity { vec_capacity out.old ≤ vec_capacity out.new }
    ensures full { OnErr result (vec_capacity out.old
        < vec_len out.old + length (content_spelling (content_of value.now))) }
{
    match *value {
        FieldValue::Varint(number) => push_varint(number, out),
        FieldValue::EightBytes(number) => out.extend_from_slice(&number.to_le_bytes()),
        FieldValue::Bytes(content) => {
            push_varint(content.len() as u64, out)?;
            out.extend_from_slice(content)
        }
        FieldValue::FourBytes(number) => out.extend_from_slice(&number.to_le_bytes()),
    }
}

/// Appends a field: its tag, and then its content.
fn push_field(number: u32, value: &FieldValue<'_>, out: &mut Vec<u8>) -> Result<(), AllocError>
    ensures ok { OnOk result (out.new.items
        ≡ out.old.items ++ spelling_of (field_with number (content_of value.now))) }
    ensures err { OnErr result (take (vec_len out.old) out.new.items ≡ out.old.items) }
    ensures capacity { vec_capacity out.old ≤ vec_capacity out.new }
    ensures full { OnErr result (vec_capacity out.old
        < vec_len out.old + length (spelling_of (field_with number (content_of value.now)))) }
{
    push_varint(tag(number, value), out)?;
    push_content(value, out)
}

/// How many bytes [`write_varint`] appends: one to ten.
pub fn varint_len(number: u64) -> usize
    ensures len { result ≡ length (varint_spelling number) }
    ensures short { result ≤ 10 }
{
    let mut rest = number;
    let mut len = 1;
    while rest >= GROUPS {
        len += 1;
        rest /= GROUPS;
    }
    len
}

/// Appends the shortest spelling of a number, one to ten bytes.
///
/// It fails only for memory, and never where the buffer has room.
pub fn write_varint(number: u64, out: &mut Vec<u8>) -> Result<(), WireFault>
    ensures ok { OnOk result (out.new.items ≡ out.old.items ++ varint_spelling number) }
    ensures err { OnErr result (out.new.items ≡ out.old.items) }
    ensures memory { IfErr result (λ fault. fault ≡ OutOfMemory) }
    ensures capacity { vec_capacity out.old ≤ vec_capacity out.new }
    ensures full { OnErr result
        (vec_capacity out.old < vec_len out.old + length (varint_spelling number)) }
{
    let len = out.len();
    if push_varint(number, out).is_err() {
        out.truncate(len);
        return Err(WireFault::OutOfMemory);
    }
    Ok(())
}

/// Appends a field, whatever it holds: a zero and an empty content are written too.
///
/// It fails only for memory, and never where the buffer has room.
pub fn write_field(number: u32, value: &FieldValue<'_>, out: &mut Vec<u8>) -> Result<(), WireFault>
    requires { IsFieldNumber number }
    ensures ok { OnOk result (out.new.items
        ≡ out.old.items ++ spelling_of (field_with number (content_of value.now))) }
    ensures err { OnErr result (out.new.items ≡ out.old.items) }
    ensures memory { IfErr result (λ fault. fault ≡ OutOfMemory) }
    ensures capacity { vec_capacity out.old ≤ vec_capacity out.new }
    ensures full { OnErr result (vec_capacity out.old
        < vec_len out.old + length (spelling_of (field_with number (content_of value.now)))) }
{
    let len = out.len();
    if push_field(number, value, out).is_err() {
        out.truncate(len);
        return Err(WireFault::OutOfMemory);
    }
    Ok(())
}
