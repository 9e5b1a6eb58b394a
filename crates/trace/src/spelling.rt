//! How the fields of a header block are spelled (RFC 7541, section 6).

ghost use Rattle.std.specs.Prelude.{◌<◌, ◌≤◌, length, IfSome};

use std::alloc::{AllocError, Global};

/// How many bytes an index or a length has at most after its first bits.
const MOST_BYTES: u32 = 5;

/// How a field is spelled, by the entry of the tables that it names.
#[derive(Clone, Copy, Debug, PartialEq, Eq)]
pub enum Spelling {
    /// It is an entry (section 6.1).
    Indexed(u32),
    /// It becomes an entry, and has its name by index, or at 0 in full (section 6.2.1).
    Added(u32),
    /// It doesn't become an entry (section 6.2.2).
    Plain(u32),
    /// It is never to become an entry (section 6.2.3).
    Never(u32),
}

/// How the fields of a block that was read are spelled, in order.
pub fn spellings(alloc: Global, block: &[u8]) -> Result<Vec<Spelling>, AllocError> {
    let mut spellings = Vec::new(alloc);
    let mut rest = block;
    while let Some((spelling, behind)) = first_spelling(rest) {
        if let Some(spelling) = spelling {
            spellings.push(spelling)?;
        }
        rest = behind;
    }
    Ok(spellings)
}

/// How the first field is spelled, and what follows it. A change of the table's size isn't a field.
fn first_spelling(block: &[u8]) -> Option<(Option<Spelling>, &[u8])>
    ensures { IfSome result (λ found. length found.1.now < length block.now) }
{
    let first = *block.first()?;
    if first >= 0x80 {
        let (index, rest) = integer(0x7f, block)?;
        return Some((Some(Spelling::Indexed(index)), rest));
    }
    if first >= 0x40 {
        let (index, rest) = integer(0x3f, block)?;
        let behind = behind_texts(index, rest)?;
        return Some((Some(Spelling::Added(index)), behind));
    }
    if first >= 0x20 {
        let (_size, rest) = integer(0x1f, block)?;
        return Some((None, rest));
    }
    let (index, rest) = integer(0x0f, block)?;
    let behind = behind_texts(index, rest)?;
    if first >= 0x10 {
        return Some((Some(Spelling::Never(index)), behind));
    }
    Some((Some(Spelling::Plain(index)), behind))
}

/// What is after the name, where it is spelled in full, and the value.
fn behind_texts(index: u32, bytes: &[u8]) -> Option<&[u8]>
    ensures { IfSome result (λ behind. length behind.now ≤ length bytes.now) }
{
    if index > 0 {
        return behind_text(bytes);
    }
    let value = behind_text(bytes)?;
    behind_text(value)
}

fn behind_text(bytes: &[u8]) -> Option<&[u8]>
    ensures { IfSome result (λ behind. length behind.now ≤ length bytes.now) }
{
    let (length, rest) = integer(0x7f, bytes)?;
    let (_text, behind) = rest.split_at_checked(length as usize)?;
    Some(behind)
}

/// An integer that begins in the last bits of a byte, which are all ones in `most`, and what is
/// after it (section 5.1).
fn integer(most: u8, bytes: &[u8]) -> Option<(u32, &[u8])>
    ensures { IfSome result (λ read. length read.1.now < length bytes.now) }
{
    let (first, rest) = bytes.split_first()?;
    let front = *first & most;
    if front < most {
        return Some((u32::from(front), rest));
    }
    let mut number = u64::from(front);
    let mut worth: u64 = 1;
    let mut rest = rest;
    'places: for _ in 0..MOST_BYTES {
        let (byte, behind) = rest.split_first()?;
        number = number.saturating_add(u64::from(*byte & 0x7f).saturating_mul(worth));
        worth = worth.saturating_mul(128);
        rest = behind;
        if *byte < 0x80 {
            let number = u32::try_from(number).ok()?;
            return Some((number, rest));
        }
    }
    None
}
