//! Hex digits.

ghost use Rattle.std.specs.Prelude.{◌≡◌, ℕ, ◌/◌, ◌%◌, ◌<◌, MatchOption, ◌≢◌};
ghost use Rattle.cases.specs.Digits.{byte_of, digit_of, hex};

/// The value of a hex digit.
fn digit(code: u8) -> Option<u8>
    ensures value { result ≡ digit_of code }
    ensures spelled { MatchOption result ((d : ℕ) → d < 16 → code ≢ hex d) (λ d. (d < 16) × (code ≡ hex d)) }
{
    match code {
        b'0'..=b'9' => Some(code - b'0'),
        b'a'..=b'f' => Some(code - b'a' + 10),
        _ => None,
    }
}

/// The byte of two hex digits.
pub(crate) fn pair(high: u8, low: u8) -> Option<u8>
    ensures value { result ≡ byte_of high low }
    ensures spelled { MatchOption result ((b : ℕ) → b < 256 → high ≡ hex (b / 16) → low ≢ hex (b % 16)) (λ b. (high ≡ hex (b / 16)) × (low ≡ hex (b % 16))) }
{
    Some(16 * digit(high)? + digit(low)?)
}
