//! Lists of numbers.

ghost use Rattle.std.specs.Prelude.{◌≡◌, IfOk};
ghost use Rattle.zbx_types.specs.Numbers.{least, greatest, total};

use crate::fix::Fix;
use crate::memory::OutOfMemory;

/// The least of a number and some more.
pub fn least(first: Fix, more: &[Fix]) -> Fix
    ensures { result ≡ least first more.now }
{
    let mut least = first;
    for number in more {
        if number.raw() < least.raw() {
            least = *number;
        }
    }
    least
}

/// The greatest of a number and some more.
pub fn greatest(first: Fix, more: &[Fix]) -> Fix
    ensures { result ≡ greatest first more.now }
{
    let mut greatest = first;
    for number in more {
        if greatest.raw() < number.raw() {
            greatest = *number;
        }
    }
    greatest
}

/// The millionths of the sum, exact, also above the greatest number. Where a sum on the way doesn't fit 128 bits, which
/// takes more than 10^8 numbers, it counts as want of memory.
pub fn total(numbers: &[Fix]) -> Result<i128, OutOfMemory>
    ensures { IfOk result (λ sum. sum ≡ total numbers.now) }
{
    let mut sum: i128 = 0;
    for number in numbers {
        match sum.checked_add(number.raw()) {
            Some(more) => sum = more,
            None => return Err(OutOfMemory),
        }
    }
    Ok(sum)
}
