//! Bytes of a client as text, so that they can be read back.

use std::alloc::{AllocError, Global};
use std::str;

/// The most bytes of a name or a value that are shown.
const SHOWN: usize = 80;

/// The front of a name, a value or a text that was sent, at most 80 bytes of it, as it is between
/// quotes: `\"`, `\\`, `\n`, `\r`, `\t`, and `\xNN` for each byte of a control character and each
/// that is no UTF-8.
pub fn escaped(alloc: Global, bytes: &[u8]) -> Result<String, AllocError> {
    let mut text = String::new(alloc);
    let mut rest = bytes.get(..SHOWN).unwrap_or(bytes);
    for _ in 0..SHOWN {
        let Some((first, behind)) = rest.split_first() else {
            break;
        };
        match letter_of(rest) {
            Some(letter) => {
                push_letter(&mut text, letter)?;
                rest = rest.get(letter.len_utf8()..).unwrap_or(behind);
            }
            None => {
                write!(text, "\\x{first:02x}")?;
                rest = behind;
            }
        }
    }
    Ok(text)
}

/// The character at the front, if the bytes begin with one in UTF-8.
fn letter_of(bytes: &[u8]) -> Option<char> {
    for length in 1..5 {
        let front = bytes.get(..length)?;
        if let Ok(text) = str::from_utf8(front) {
            return text.chars().next();
        }
    }
    None
}

fn push_letter(text: &mut String, letter: char) -> Result<(), AllocError> {
    match letter {
        '"' => text.push_str("\\\""),
        '\\' => text.push_str("\\\\"),
        '\n' => text.push_str("\\n"),
        '\r' => text.push_str("\\r"),
        '\t' => text.push_str("\\t"),
        '\0'..='\x1f' | '\x7f' => {
            let code = u32::from(letter);
            write!(text, "\\x{code:02x}")
        }
        _ => text.push(letter),
    }
}
