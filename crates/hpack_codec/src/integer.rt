//! Integers (RFC 7541, section 5.1): a prefix of the first byte, and at most five bytes more.
ghost use Rattle.std.specs.Prelude.{◌≡◌, ◌+◌, ◌%◌, ◌^◌, ◌<◌, ◌≤◌, IfOk, IfErr, OnOk};
ghost use Rattle.hpack_codec.specs.Integer.{IsInteger};
ghost use Rattle.hpack_codec.specs.Faults.{IsIntegerFault};
ghost use Rattle.hpack_codec.specs.Reading.{Appends, IsMoreFault, TakesInteger, TakesMore};

use crate::fault::HpackFault;
use std::alloc::AllocError;

/// How many bytes may follow the first one.
const MAX_MORE: usize = 5;

/// The number at the front, and the bytes after it. The prefix is the low bits of the first byte.
pub fn integer(prefix_bits: u32, bytes: &[u8]) -> Result<(u32, &[u8]), HpackFault>
    requires { prefix_bits < 8 }
    ensures ok { IfOk result (λ taken. TakesInteger prefix_bits bytes.now taken.0 taken.1.now) }
    ensures err { IfErr result (λ fault. IsIntegerFault fault prefix_bits bytes.now) }
{
    let [first, rest @ ..] = bytes else {
        return Err(HpackFault::Truncated);
    };
    let span = 1u64 << prefix_bits;
    let prefix = u64::from(*first) % span;
    if prefix + 1 < span {
        return Ok((prefix as u32, rest));
    }
    let (more, rest) = continuation(rest)?;
    let number = prefix + more;
    if number > u64::from(u32::MAX) {
        return Err(HpackFault::Integer);
    }
    Ok((number as u32, rest))
}

/// What the bytes after a prefix of all ones add to it.
fn continuation(bytes: &[u8]) -> Result<(u64, &[u8]), HpackFault>
    ensures ok { IfOk result (λ taken. TakesMore bytes.now taken.0 taken.1.now) }
    ensures bound { IfOk result (λ taken. taken.0 < 2 ^ 35) }
    ensures err { IfErr result (λ fault. IsMoreFault fault bytes.now) }
{
    let mut number = 0u64;
    let mut weight = 1u64;
    for i in 0..MAX_MORE {
        if i >= bytes.len() {
            return Err(HpackFault::Truncated);
        }
        let byte = bytes[i];
        number += u64::from(byte % 128) * weight;
        if byte < 128 {
            return Ok((number, &bytes[i + 1..]));
        }
        weight *= 128;
    }
    Err(HpackFault::Integer)
}

/// Writes a number at the end. The flags are the bits above the prefix.
pub fn push_integer(
    out: &mut Vec<u8>,
    flags: u8,
    prefix_bits: u32,
    number: u32,
) -> Result<(), AllocError>
    requires prefix { prefix_bits < 8 }
    requires flags { flags + 2 ^ prefix_bits ≤ 256 }
    ensures { OnOk result
        (Appends out.old.items out.new.items (λ text. IsInteger prefix_bits flags text number)) }
{
    let most = (1u32 << prefix_bits) - 1;
    if number < most {
        out.push(flags + number as u8)?;
        return Ok(());
    }
    out.push(flags + most as u8)?;
    let mut rest = number - most;
    while rest >= 128 {
        out.push((rest % 128) as u8 + 128)?;
        rest /= 128;
    }
    out.push(rest as u8)?;
    Ok(())
}
