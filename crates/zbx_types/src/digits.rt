//! Decimal digits.

ghost use Rattle.std.specs.Prelude.{◌≡◌, ◌≤◌, ◌<◌, SomeIff, IfSome, nat_le, if◌then◌else◌, Some, None};
ghost use Rattle.zbx_types.specs.Digits.{digit_at, last_six_digits};
ghost use Rattle.zbx_types.specs.Numerals.{all_digits, digits_after, number_up_to};

/// The digit of a number at a power of ten, as its ASCII byte: 1 for the last digit, 10 for the one before it.
pub fn digit_at(n: u64, power: u64) -> u8
    requires { 0 < power }
    ensures { result ≡ digit_at n power }
{
    b'0' + (n / power % 10) as u8
}

/// The last six digits of a number as ASCII bytes, with zeros in front where it has fewer.
pub fn last_six_digits(n: u64) -> [u8; 6]
    ensures { result ≡ last_six_digits n }
{
    [
        digit_at(n, 100_000),
        digit_at(n, 10_000),
        digit_at(n, 1000),
        digit_at(n, 100),
        digit_at(n, 10),
        digit_at(n, 1),
    ]
}

/// Whether a text has no byte but the digits 0 to 9.
pub fn all_digits(text: &[u8]) -> bool
    ensures { result ≡ all_digits text.now }
{
    text.iter().all(|c| c.is_ascii_digit())
}

/// The number that digits write, or None where it is above the greatest. A byte below `0` counts as `0`.
pub fn number_within(most: u32, digits: &[u8]) -> Option<u32>
    ensures { SomeIff result (digits_after 0 digits.now ≤ most) (digits_after 0 digits.now) }
{
    let most = u64::from(most);
    let mut number = 0;
    for c in digits {
        number = number * 10 + u64::from(c.saturating_sub(b'0'));
        if number > most {
            return None;
        }
    }
    Some(number as u32)
}

/// What the digits write, up to the greatest. A byte below `0` counts as `0`.
fn bounded(most: u64, digits: &[u8]) -> Option<u64>
    ensures { result ≡ (if nat_le (digits_after 0 digits.now) most then Some (digits_after 0 digits.now) else None) }
{
    let mut number = 0u128;
    for c in digits {
        number = number * 10 + u128::from(c.saturating_sub(b'0'));
        if number > u128::from(most) {
            return None;
        }
    }
    Some(number as u64)
}

/// The number that a text of digits writes, at least one of them, or None where it is no such text or the number is above
/// the greatest. Zeros may stand in front.
#[tactic(auto, unfolding(crate::specs::Numerals::number_up_to))]
pub fn number_up_to(most: u64, text: &[u8]) -> Option<u64>
    ensures value { result ≡ number_up_to most text.now }
    ensures within { IfSome result (λ n. n ≤ most) }
{
    if !text.is_empty() && all_digits(text) {
        bounded(most, text)
    } else {
        None
    }
}
