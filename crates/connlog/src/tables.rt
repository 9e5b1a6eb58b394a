//! Which header blocks change no table, so that they needn't be decoded again if their bytes are
//! known (RFC 7541, sections 6.1 and 6.2.2).

ghost use Rattle.std.specs.Prelude.{◌≡◌};
ghost use Rattle.connlog.specs.Blocks.{behind, behind_first, keeps_tables, value_of};

/// What comes next in a block.
#[derive(Clone, Copy, Debug, PartialEq, Eq)]
pub enum ExpectedPart {
    /// A field.
    Field,
    /// The length of a field's value.
    Length,
    /// This many bytes of a value.
    Value(u8),
    /// What isn't looked at any more.
    Other,
}

/// Whether the block has nothing but indexed fields, and literals without indexing that have their
/// names by index, each spelled in the fewest bytes.
pub fn keeps_tables(block: &[u8]) -> bool
    ensures { result ≡ keeps_tables block.now }
{
    let mut expected = ExpectedPart::Field;
    for byte in block {
        expected = behind(expected, *byte);
    }
    match expected {
        ExpectedPart::Field => true,
        ExpectedPart::Length | ExpectedPart::Value(_) | ExpectedPart::Other => false,
    }
}

fn behind(expected: ExpectedPart, byte: u8) -> ExpectedPart
    ensures { result ≡ behind expected byte }
{
    match expected {
        ExpectedPart::Field => behind_first(byte),
        ExpectedPart::Length => value_of(byte % 128),
        ExpectedPart::Value(left) => value_of(left.saturating_sub(1)),
        ExpectedPart::Other => ExpectedPart::Other,
    }
}

fn behind_first(byte: u8) -> ExpectedPart
    ensures { result ≡ behind_first byte }
{
    if 0x80 <= byte && byte < 0xff {
        ExpectedPart::Field
    } else if 0 < byte && byte < 0x0f {
        ExpectedPart::Length
    } else {
        ExpectedPart::Other
    }
}

fn value_of(length: u8) -> ExpectedPart
    ensures { result ≡ value_of length }
{
    if length == 0 {
        ExpectedPart::Field
    } else if length == 127 {
        ExpectedPart::Other
    } else {
        ExpectedPart::Value(length)
    }
}
