//! Hexadecimal text into bytes.
ghost use Rattle.std.specs.Prelude.{◌≡◌, IfOk, IsErrOf};
ghost use Rattle.commands.specs.Hex.{IsNotHex, SpellsBytes, is_blank, without_blanks};
ghost use Rattle.commands.specs.declared.text.HexFault.TheVariants.{NotHex, OutOfMemory};

use hex::FromHexError;
use std::alloc::Global;

/// Why a text gives no bytes.
#[derive(Clone, Copy, Debug, PartialEq, Eq)]
pub enum HexFault {
    /// It has an odd number of digits, or something that is neither a digit nor blank.
    NotHex,
    /// There is no memory.
    OutOfMemory,
}

fn is_blank(c: u8) -> bool
    ensures { result ≡ is_blank c }
{
    matches!(c, b' ' | b'\t' | b'\n' | b'\r')
}

fn drop_blanks(text: &mut Vec<u8>)
    ensures { text.new.items ≡ without_blanks text.old.items }
{
    text.retain(|c| !is_blank(*c));
}

/// The bytes that a text spells, two digits of either case for each, blanks and line ends anywhere.
pub fn bytes_of(alloc: Global, mut text: Vec<u8>) -> Result<Vec<u8>, HexFault>
    ensures ok { IfOk result (λ bytes. SpellsBytes text.items bytes.items) }
    ensures not_hex { IsErrOf result NotHex → IsNotHex text.items }
{
    drop_blanks(&mut text);
    match hex::decode(alloc, text.as_slice()) {
        Ok(bytes) => Ok(bytes),
        Err(FromHexError::OutOfMemory) => Err(HexFault::OutOfMemory),
        Err(_) => Err(HexFault::NotHex),
    }
}
