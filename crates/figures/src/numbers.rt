//! Counts and lengths.

ghost use Rattle.std.specs.Prelude.{◌≡◌};

use std::fmt;

/// A number, with a comma before each three digits.
#[derive(Clone, Copy)]
pub struct GroupedNumber(pub u64);

impl fmt::Display for GroupedNumber {
    fn fmt<W: fmt::Write>(&self, f: &mut fmt::Formatter<W>) -> fmt::Result {
        let number = self.0;
        let (ones, thousands) = (number % 1_000, number / 1_000 % 1_000);
        let (millions, billions) = (number / 1_000_000 % 1_000, number / 1_000_000_000);
        if number < 1_000 {
            write!(f, "{ones}")
        } else if number < 1_000_000 {
            write!(f, "{thousands},{ones:03}")
        } else if number < 1_000_000_000 {
            write!(f, "{millions},{thousands:03},{ones:03}")
        } else {
            write!(f, "{billions},{millions:03},{thousands:03},{ones:03}")
        }
    }
}

/// A length: `1 byte`, `16,385 bytes`.
#[derive(Clone, Copy)]
pub struct ByteCount(pub u64);

impl fmt::Display for ByteCount {
    fn fmt<W: fmt::Write>(&self, f: &mut fmt::Formatter<W>) -> fmt::Result {
        let count = GroupedNumber(self.0);
        if self.0 == 1 {
            write!(f, "{count} byte")
        } else {
            write!(f, "{count} bytes")
        }
    }
}

/// The length of something in memory.
pub fn byte_count(length: usize) -> ByteCount
    ensures { result.0 ≡ length }
{
    ByteCount(length as u64)
}
