//! Varints: seven bits of a number a byte, the least first; the top bit says that another byte
//! follows.

ghost use Rattle.std.specs.Prelude.{◌≡◌, ℕ, ◌≤◌, length, take, IfOk, IfErr, Ok, Err};
ghost use Rattle.pbwire.specs.declared.fault.WireFault.{WireFault as Fault};
ghost use Rattle.pbwire.specs.Varint.{IsVarint, VarintFault};
ghost use Rattle.pbwire.specs.Reading.{Gives, varint_at};

use crate::fault::WireFault;

/// The most bytes that a varint has.
const MAX_LEN: usize = 10;

/// The top bit of a byte: another byte of the varint follows.
const TOP_BIT: u8 = 0x80;

/// The bits of a byte that count.
const GROUP: u8 = 0x7f;

/// Reads the varint at the front: its number, and how many bytes it takes. Bytes may follow it.
///
/// Every spelling is read, the shortest or not; bits over 64 are dropped.
pub fn read_varint(bytes: &[u8]) -> Result<(u64, usize), WireFault>
    // What is read is spelled so.
    ensures len { IfOk result (λ found. found.1 ≤ length bytes.now) }
    ensures ok { IfOk result (λ found. IsVarint (take found.1 bytes.now) found.0) }
    ensures err { IfErr result (λ fault. VarintFault bytes.now fault) }

    // Each spelled number is read, and each fault is answered.
    ensures every_varint { (number len : ℕ) → len ≤ length bytes.now
        → IsVarint (take len bytes.now) number
        → result ≡ Ok (number, len) }
    ensures every_fault { (fault : Fault) → VarintFault bytes.now fault → result ≡ Err fault }
{
    let mut number = 0u64;
    let front = &bytes[..bytes.len().min(MAX_LEN)];
    for (i, byte) in front.iter().enumerate() {
        let group = u64::from(*byte & GROUP);
        number = number.wrapping_add(group << (7 * i));
        if *byte < TOP_BIT {
            return Ok((number, i + 1));
        }
    }
    if bytes.len() < MAX_LEN {
        Err(WireFault::Truncated)
    } else {
        Err(WireFault::VarintTooLong)
    }
}

/// The number at the front, and the bytes after it.
pub(crate) fn split_varint(bytes: &[u8]) -> Result<(u64, &[u8]), WireFault>
    ensures { Gives (λ parts. (parts.0, parts.1.now)) result (varint_at bytes.now) }
{
    let (number, len) = read_varint(bytes)?;
    Ok((number, &bytes[len..]))
}
