//! Byte lists and texts as contracts see them: as the list. Both are borrowed: a message that was
//! read points into the bytes that it was read from, and takes no memory for them.

ghost use Rattle.std.specs.Prelude.{◌≡◌, List, ℕ, [], IsUtf8};

use std::marker::Model;

/// Bytes that a message has.
#[derive(Debug, Drop)]
pub struct ByteList<'a> {
    bytes: &'a [u8],
}

impl<'a> Model for ByteList<'a> {
    ghost Value = { List ℕ };

    ghost view = { λ list. list.bytes.now };
}

impl<'a> ByteList<'a> {
    pub fn new() -> ByteList<'a>
        ensures { result ≡ [] }
    {
        ByteList { bytes: &[] }
    }

    pub fn from_slice(bytes: &'a [u8]) -> ByteList<'a>
        ensures { result ≡ bytes.now }
    {
        ByteList { bytes }
    }

    pub fn as_slice(&self) -> &[u8]
        ensures { result.now ≡ self.now }
    {
        self.bytes
    }
}

/// A string that a message has. In a contract it is its bytes, which are UTF-8.
#[derive(Debug, Drop)]
pub struct Text<'a> {
    text: &'a str,
}

impl<'a> Model for Text<'a> {
    ghost Value = { List ℕ };

    ghost view = { λ text. text.text.now };
}

impl<'a> Text<'a> {
    pub fn new() -> Text<'a>
        ensures { result ≡ [] }
    {
        Text { text: "" }
    }

    pub fn from_text(text: &'a str) -> Text<'a>
        ensures { result ≡ text.now }
    {
        Text { text }
    }

    pub fn as_str(&self) -> &str
        ensures text { result.now ≡ self.now }
        ensures utf8 { IsUtf8 self.now }
    {
        self.text
    }
}
