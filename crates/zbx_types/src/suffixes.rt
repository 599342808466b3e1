//! Number texts with a suffix (the Zabbix 6.0 manual, "Suffixes").

ghost use Rattle.std.specs.Prelude.{◌≡◌};
ghost use Rattle.zbx_types.specs.Suffixes.{suffix_factor, last_byte, but_last, times_factor};

use crate::fix::Fix;
use crate::periods::suffix_seconds;

/// What a suffix multiplies by, or 0 where the byte is none.
pub(crate) fn suffix_factor(c: u8) -> u64
    ensures { result ≡ suffix_factor c }
{
    match c {
        b'K' => 1_024,
        b'M' => 1_048_576,
        b'G' => 1_073_741_824,
        b'T' => 1_099_511_627_776,
        _ => u64::from(suffix_seconds(c)),
    }
}

/// The last byte of a text, or 0, and the text without it.
pub(crate) fn split_last(text: &[u8]) -> (u8, &[u8])
    ensures last { result.0 ≡ last_byte text.now }
    ensures before { result.1.now ≡ but_last text.now }
{
    match text.split_last() {
        Some((last, before)) => (*last, before),
        None => (0, text),
    }
}

/// So many times a number.
#[tactic(auto, unfolding(crate::specs::Suffixes::times_factor, crate::specs::Arithmetic::in_range))]
pub(crate) fn times_factor(factor: u64, number: Fix) -> Option<Fix>
    ensures { result ≡ times_factor factor number }
{
    Fix::of_raw(number.raw().checked_mul(i128::from(factor))?)
}
