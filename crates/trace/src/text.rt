//! Bytes as text that can be read back.

use std::fmt;

/// How many bytes of a text are shown at most, if not all are.
const SHOWN: usize = 128;

/// Bytes between quotes: `\"`, `\\`, `\n`, `\r`, `\t`, and `\xNN` for each other byte that isn't a
/// printable character of ASCII.
#[derive(Clone, Copy)]
pub struct QuotedBytes<'a>(pub &'a [u8]);

impl fmt::Display for QuotedBytes<'_> {
    fn fmt<W: fmt::Write>(&self, f: &mut fmt::Formatter<W>) -> fmt::Result {
        write!(f, "\"")?;
        for byte in self.0 {
            let letter = Letter(*byte);
            write!(f, "{letter}")?;
        }
        write!(f, "\"")
    }
}

/// A byte as it stands between quotes.
#[derive(Clone, Copy)]
struct Letter(u8);

impl fmt::Display for Letter {
    fn fmt<W: fmt::Write>(&self, f: &mut fmt::Formatter<W>) -> fmt::Result {
        let byte = self.0;
        match byte {
            b'"' => write!(f, "\\\""),
            b'\\' => write!(f, "\\\\"),
            b'\n' => write!(f, "\\n"),
            b'\r' => write!(f, "\\r"),
            b'\t' => write!(f, "\\t"),
            b' '..=b'~' => {
                let letter = char::from(byte);
                write!(f, "{letter}")
            }
            _ => write!(f, "\\x{byte:02x}"),
        }
    }
}

/// Bytes in hexadecimal digits.
#[derive(Clone, Copy)]
pub struct Digits<'a>(pub &'a [u8]);

impl fmt::Display for Digits<'_> {
    fn fmt<W: fmt::Write>(&self, f: &mut fmt::Formatter<W>) -> fmt::Result {
        for byte in self.0 {
            write!(f, "{byte:02x}")?;
        }
        Ok(())
    }
}

/// The front of bytes, and whether it is all of them.
pub fn front_of(bytes: &[u8]) -> (&[u8], bool) {
    match bytes.split_at_checked(SHOWN) {
        Some((front, behind)) => (front, behind.is_empty()),
        None => (bytes, true),
    }
}
