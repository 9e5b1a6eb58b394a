//! Huffman texts (RFC 7541, section 5.2 and appendix B), read from a register of bits.
ghost use Rattle.std.specs.Prelude.{
  ◌≡◌,
  ℕ,
  ◌<◌,
  ◌≤◌,
  ◌^◌,
  ◌/◌,
  ◌-◌,
  ◌*◌,
  min,
  IfSome,
  IfNone,
  IfOk,
  IfErr,
  IsTrue,
};
ghost use Rattle.hpack_codec.specs.Huffman.{code_length, code_number, IsHuffman};
ghost use Rattle.hpack_codec.specs.CodeTable.{is_code_table};
ghost use Rattle.hpack_codec.specs.Reading.{Drains, IsTextFault};

use crate::fault::HpackFault;
use std::alloc::{AllocError, Global};

/// The codes of one length, which are consecutive numbers.
#[derive(Clone, Copy)]
pub struct Codes {
    pub len: u32,
    /// The first number, and the first one after the last.
    pub first: u64,
    pub above: u64,
    /// The place of the first one's symbol in `SYMBOLS`.
    pub place: usize,
}

/// The codes of each length that is used, in ascending order, without the end of string, the last
/// code of 30 bits.
static CODES: [Codes; 21] = [
    Codes {
        len: 5,
        first: 0,
        above: 0xa,
        place: 0,
    },
    Codes {
        len: 6,
        first: 0x14,
        above: 0x2e,
        place: 10,
    },
    Codes {
        len: 7,
        first: 0x5c,
        above: 0x7c,
        place: 36,
    },
    Codes {
        len: 8,
        first: 0xf8,
        above: 0xfe,
        place: 68,
    },
    Codes {
        len: 10,
        first: 0x3f8,
        above: 0x3fd,
        place: 74,
    },
    Codes {
        len: 11,
        first: 0x7fa,
        above: 0x7fd,
        place: 79,
    },
    Codes {
        len: 12,
        first: 0xffa,
        above: 0xffc,
        place: 82,
    },
    Codes {
        len: 13,
        first: 0x1ff8,
        above: 0x1ffe,
        place: 84,
    },
    Codes {
        len: 14,
        first: 0x3ffc,
        above: 0x3ffe,
        place: 90,
    },
    Codes {
        len: 15,
        first: 0x7ffc,
        above: 0x7fff,
        place: 92,
    },
    Codes {
        len: 19,
        first: 0x7fff0,
        above: 0x7fff3,
        place: 95,
    },
    Codes {
        len: 20,
        first: 0xfffe6,
        above: 0xfffee,
        place: 98,
    },
    Codes {
        len: 21,
        first: 0x1fffdc,
        above: 0x1fffe9,
        place: 106,
    },
    Codes {
        len: 22,
        first: 0x3fffd2,
        above: 0x3fffec,
        place: 119,
    },
    Codes {
        len: 23,
        first: 0x7fffd8,
        above: 0x7ffff5,
        place: 145,
    },
    Codes {
        len: 24,
        first: 0xffffea,
        above: 0xfffff6,
        place: 174,
    },
    Codes {
        len: 25,
        first: 0x1ffffec,
        above: 0x1fffff0,
        place: 186,
    },
    Codes {
        len: 26,
        first: 0x3ffffe0,
        above: 0x3ffffef,
        place: 190,
    },
    Codes {
        len: 27,
        first: 0x7ffffde,
        above: 0x7fffff1,
        place: 205,
    },
    Codes {
        len: 28,
        first: 0xfffffe2,
        above: 0xfffffff,
        place: 224,
    },
    Codes {
        len: 30,
        first: 0x3ffffffc,
        above: 0x3fffffff,
        place: 253,
    },
];

/// The bytes in the order of their codes.
static SYMBOLS: [u8; 256] = [
    48, 49, 50, 97, 99, 101, 105, 111, 115, 116, 32, 37, 45, 46, 47, 51, 52, 53, 54, 55, 56, 57,
    61, 65, 95, 98, 100, 102, 103, 104, 108, 109, 110, 112, 114, 117, 58, 66, 67, 68, 69, 70, 71,
    72, 73, 74, 75, 76, 77, 78, 79, 80, 81, 82, 83, 84, 85, 86, 87, 89, 106, 107, 113, 118, 119,
    120, 121, 122, 38, 42, 44, 59, 88, 90, 33, 34, 40, 41, 63, 39, 43, 124, 35, 62, 0, 36, 64, 91,
    93, 126, 94, 125, 60, 96, 123, 92, 195, 208, 128, 130, 131, 162, 184, 194, 224, 226, 153, 161,
    167, 172, 176, 177, 179, 209, 216, 217, 227, 229, 230, 129, 132, 133, 134, 136, 146, 154, 156,
    160, 163, 164, 169, 170, 173, 178, 181, 185, 186, 187, 189, 190, 196, 198, 228, 232, 233, 1,
    135, 137, 138, 139, 140, 141, 143, 147, 149, 150, 151, 152, 155, 157, 158, 165, 166, 168, 174,
    175, 180, 182, 183, 188, 191, 197, 231, 239, 9, 142, 144, 145, 148, 159, 171, 206, 215, 225,
    236, 237, 199, 207, 234, 235, 192, 193, 200, 201, 202, 205, 210, 213, 218, 219, 238, 240, 242,
    243, 255, 203, 204, 211, 212, 214, 221, 222, 223, 241, 244, 245, 246, 247, 248, 250, 251, 252,
    253, 254, 2, 3, 4, 5, 6, 7, 8, 11, 12, 14, 15, 16, 17, 18, 19, 20, 21, 23, 24, 25, 26, 27, 28,
    29, 30, 31, 127, 220, 249, 10, 13, 22,
];

/// The longest code.
const MAX_LEN: u32 = 30;

/// The byte with whose code the register begins, and the length of that code. The register has
/// `count` bits.
fn symbol_at(register: u64, count: u32) -> Option<(u8, u32)>
    requires { count < 64 }
    ensures octet { IfSome result (λ found. found.0 < 256) }
    ensures len { IfSome result (λ found. (found.1 ≤ count) × (code_length found.0 ≡ found.1)) }
    ensures number { IfSome result
        (λ found. register / 2 ^ (count - found.1) ≡ code_number found.0) }
    ensures none { IfNone result ((symbol : ℕ) → symbol < 256 → code_length symbol ≤ count
        → register / 2 ^ (count - code_length symbol) ≡ code_number symbol → ⊥) }
{
    symbol_by(&CODES, &SYMBOLS, register, count)
}

fn symbol_by(codes: &[Codes], symbols: &[u8], register: u64, count: u32) -> Option<(u8, u32)>
    requires table { IsTrue (is_code_table codes.now symbols.now) }
    requires count { count < 64 }
    ensures octet { IfSome result (λ found. found.0 < 256) }
    ensures len { IfSome result (λ found. (found.1 ≤ count) × (code_length found.0 ≡ found.1)) }
    ensures number { IfSome result
        (λ found. register / 2 ^ (count - found.1) ≡ code_number found.0) }
    ensures none { IfNone result ((symbol : ℕ) → symbol < 256 → code_length symbol ≤ count
        → register / 2 ^ (count - code_length symbol) ≡ code_number symbol → ⊥) }
{
    for row in codes {
        if row.len > count {
            return None;
        }
        let number = register >> (count - row.len);
        if number >= row.first && number < row.above {
            let place = row.place + (number - row.first) as usize;
            return Some((symbols[place], row.len));
        }
    }
    None
}

/// Moves the bytes whose codes are at the front of the register to the end of the list, and answers
/// what is left.
fn drain(octets: &mut Vec<u8>, mut register: u64, mut count: u32) -> Result<(u64, u32), AllocError>
    requires count { count < 64 }
    requires register { register < 2 ^ count }
    ensures { IfOk result
        (λ left. Drains octets.old.items octets.new.items count register left.1 left.0) }
{
    while let Some((symbol, len)) = symbol_at(register, count) {
        octets.push(symbol)?;
        count -= len;
        register %= 1 << count;
    }
    Ok((register, count))
}

/// How many bytes a text of this length stands for at most, and up to eight more: the shortest code
/// has five bits.
fn most_octets(len: usize) -> usize
    ensures { min (8 * len) usize.MAX ≤ 5 * result }
{
    (len / 5 + 1).saturating_mul(8)
}

/// The bytes that a text stands for.
pub fn decode(alloc: Global, text: &[u8]) -> Result<Vec<u8>, HpackFault>
    ensures ok { IfOk result (λ octets. IsHuffman text.now octets.items) }
    ensures err { IfErr result (λ fault. IsTextFault fault text.now) }
{
    let mut octets = Vec::with_capacity(alloc, most_octets(text.len()))?;
    let mut register = 0u64;
    let mut count = 0u32;
    for byte in text {
        (register, count) = drain(&mut octets, register * 256 + u64::from(*byte), count + 8)?;
        if count >= MAX_LEN {
            return Err(HpackFault::Huffman);
        }
    }
    if count < 8 && register == (1 << count) - 1 {
        Ok(octets)
    } else {
        Err(HpackFault::Huffman)
    }
}
