//! The timeout of a call (gRPC over HTTP/2, "Timeout").

ghost use Rattle.std.specs.Prelude.{◌≡◌, ℕ, ◌<◌, ◌^◌, IfSome, Some};
ghost use Rattle.std.specs.Option.{SomeIff};
ghost use Rattle.std.specs.Str.Parse.{digits_value};
ghost use Rattle.callhead.specs.Timeouts.{IsAmount, IsTimeout, nanoseconds_in};

/// The most digits that a timeout may have.
const MAX_DIGITS: usize = 8;

/// How many nanoseconds the value of `grpc-timeout` names: one to eight digits, and a unit of `H`,
/// `M`, `S`, `m`, `u` or `n` (hours, minutes, seconds, milli-, micro- and nanoseconds).
pub fn read_timeout(text: &[u8]) -> Option<u128>
    ensures found { IfSome result (λ nanoseconds. IsTimeout text.now nanoseconds) }
    ensures only { (nanoseconds : ℕ) → IsTimeout text.now nanoseconds → result ≡ Some nanoseconds }
{
    let (unit, digits) = text.split_last()?;
    let nanoseconds = nanoseconds_of_unit(*unit)?;
    let amount = read_amount(digits)?;
    Some(u128::from(amount) * u128::from(nanoseconds))
}

/// How many nanoseconds a unit has.
fn nanoseconds_of_unit(unit: u8) -> Option<u64>
    ensures named { result ≡ nanoseconds_in unit }
    ensures short { IfSome result (λ nanoseconds. nanoseconds < 2 ^ 42) }
{
    match unit {
        b'H' => Some(3_600_000_000_000),
        b'M' => Some(60_000_000_000),
        b'S' => Some(1_000_000_000),
        b'm' => Some(1_000_000),
        b'u' => Some(1_000),
        b'n' => Some(1),
        _ => None,
    }
}

/// The number that one to eight digits write.
fn read_amount(digits: &[u8]) -> Option<u32>
    ensures { SomeIff result (IsAmount digits.now) (digits_value 10 digits.now) }
{
    if digits.is_empty() || digits.len() > MAX_DIGITS {
        return None;
    }
    let mut amount = 0;
    for digit in digits {
        amount = amount * 10 + char::from(*digit).to_digit(10)?;
    }
    Some(amount)
}
