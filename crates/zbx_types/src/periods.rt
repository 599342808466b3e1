//! Period texts (the Zabbix 6.0 manual, "Suffixes", time suffixes).

ghost use Rattle.std.specs.Prelude.{◌≡◌, option_and_then};
ghost use Rattle.zbx_types.specs.Periods.{suffix_seconds, times, up_to, seconds_up_to};

use crate::digits::{all_digits, number_within};

/// The seconds of a suffix, or 0 where the byte is none.
pub(crate) fn suffix_seconds(c: u8) -> u32
    ensures { result ≡ suffix_seconds c }
{
    match c {
        b's' => 1,
        b'm' => 60,
        b'h' => 3_600,
        b'd' => 86_400,
        b'w' => 604_800,
        _ => 0,
    }
}

/// So many times these seconds, up to the greatest.
fn times(most: u32, seconds: u32, digits: &[u8]) -> Option<u32>
    ensures { result ≡ option_and_then (up_to most) (times seconds digits.now) }
{
    if seconds == 0 || digits.is_empty() || !all_digits(digits) {
        return None;
    }
    let total = u64::from(number_within(most, digits)?) * u64::from(seconds);
    if total > u64::from(most) {
        return None;
    }
    Some(total as u32)
}

/// The seconds of a period text, or None where the text is none or its seconds are more than `most`.
///
/// A period text is digits, at least one, and optionally a suffix: `s` for seconds, `m` for 60, `h` for 3,600, `d` for
/// 86,400 and `w` for 604,800 seconds. Without one it is in seconds.
#[tactic(auto, unfolding(crate::specs::Periods::seconds_up_to))]
pub fn seconds_up_to(most: u32, text: &[u8]) -> Option<u32>
    ensures { result ≡ seconds_up_to most text.now }
{
    if all_digits(text) {
        return times(most, 1, text);
    }
    match text.split_last() {
        Some((last, digits)) => times(most, suffix_seconds(*last), digits),
        None => None,
    }
}
