//! Writing of numbers.

ghost use Rattle.std.specs.Prelude.{◌≡◌, ◌++◌, ◌≤◌, ◌^◌, unsigned_abs, OnOk, IfOk};
ghost use Rattle.zbx_types.specs.Written.{without_last_zeros, written_unsigned, written};

use crate::bytes::Bytes;
use crate::digits::last_six_digits;
use crate::memory::OutOfMemory;
use std::alloc::Global;

/// Digits without the zeros at their end.
fn without_last_zeros(digits: &[u8]) -> &[u8]
    ensures { result.now ≡ without_last_zeros digits.now }
{
    let Some((last, front)) = digits.split_last() else {
        return digits;
    };
    if *last == b'0' {
        without_last_zeros(front)
    } else {
        digits
    }
}

fn put_unsigned(alloc: Global, millionths: u128, out: &mut Bytes) -> Result<(), OutOfMemory>
    ensures { OnOk result (out.new ≡ out.old ++ written_unsigned millionths) }
{
    let whole = millionths / 1_000_000;
    let fraction = (millionths % 1_000_000) as u64;
    out.extend(whole.to_string(alloc)?.as_bytes())?;
    if fraction == 0 {
        return Ok(());
    }
    out.extend(b".")?;
    out.extend(without_last_zeros(&last_six_digits(fraction)))
}

/// The written form of a number of millionths.
pub(crate) fn written(alloc: Global, millionths: i128) -> Result<Bytes, OutOfMemory>
    requires { unsigned_abs millionths ≤ 10 ^ 30 }
    ensures { IfOk result (λ text. text ≡ written millionths) }
{
    let mut text = Bytes::new(alloc);
    if millionths < 0 {
        text.extend(b"-")?;
    }
    put_unsigned(alloc, millionths.unsigned_abs(), &mut text)?;
    Ok(text)
}
