//! The checksum of IP and TCP (RFC 1071).

ghost use Rattle.std.specs.Prelude.{◌≡◌, ◌↔◌, ◌+◌, ◌*◌, ◌^◌, ◌<◌, ◌≤◌, length, IsTrue};
ghost use Rattle.capture.specs.Checksum.{word_sum, IsAllOnes};

/// The sum of the words of two bytes.
pub(crate) fn word_sum(bytes: &[u8]) -> u64
    requires { length bytes.now < 2 ^ 32 }
    ensures sum { result ≡ word_sum bytes.now }
    ensures small { result ≤ 65536 * length bytes.now }
{
    let mut sum: u64 = 0;
    let mut rest = bytes;
    while let [high, low, behind @ ..] = rest {
        sum += u64::from(*high) * 256 + u64::from(*low);
        rest = behind;
    }
    if let [high] = rest {
        sum += u64::from(*high) * 256;
    }
    sum
}

/// The word that makes a sum of words all ones: 0 where it is so already, and not its other zero
/// (RFC 1624, section 3).
pub(crate) fn checksum(sum: u64) -> u16
    ensures ones { IsAllOnes (sum + result) }
    ensures zero { result < 65535 }
{
    let over = (sum % 65_535) as u16;
    if over == 0 {
        return 0;
    }
    65_535 - over
}

/// Whether the sum of words that aren't all zero is all ones.
pub(crate) fn is_all_ones(sum: u64) -> bool
    ensures { IsTrue result ↔ IsAllOnes sum }
{
    sum % 65_535 == 0
}
