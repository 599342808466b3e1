//! Bytes of a disk, as many as there are.

ghost use Rattle.std.specs.Prelude.{◌≡◌, ◌≤◌, ◌<◌, ◌+◌, ◌^◌, length, take, drop, IfSome, IfOk};
ghost use Rattle.outside.specs.Causes.{HasCause};
ghost use Rattle.gated_file.specs.Moments.{IsAsBefore};

use outside::{Disk, Failed};

/// Reads on behind the first bytes of the slice, which were read before, and answers how many more. 0 is the end.
fn read_on<D: Disk>(disk: &mut D, at: u64, into: &mut [u8], count: usize) -> Result<usize, Failed>
    requires room { count < length into.old }
    requires places { at + length into.old < 2 ^ 64 }
    ensures bound { IfOk result (λ more. count + more ≤ length into.new) }
    ensures length { length into.new ≡ length into.old }
    ensures content { IfOk result (λ more. IfSome (D.tells disk.old).bytes (λ b. take count into.old ≡ take count (drop at b) → take (count + more) into.new ≡ take (count + more) (drop at b))) }
    ensures end { IfOk result (λ more. more ≡ 0 → IfSome (D.tells disk.old).bytes (λ b. length b ≤ at + count)) }
    ensures before { IsAsBefore (D.tells disk.old) (D.tells disk.new) }
    ensures cause { HasCause (D.tells disk.old).faults (D.tells disk.new).faults result }
{
    let more = disk.read(at + count as u64, &mut into[count..])?;
    Ok(more)
}

/// Reads bytes from a place on until the slice is full or the end is met, and answers how many.
pub fn read_whole<D: Disk>(disk: &mut D, at: u64, into: &mut [u8]) -> Result<usize, Failed>
    requires { at + length into.old < 2 ^ 64 }
    ensures bound { IfOk result (λ count. count ≤ length into.new) }
    ensures length { length into.new ≡ length into.old }
    ensures content { IfOk result (λ count. IfSome (D.tells disk.old).bytes (λ b. take count into.new ≡ take (length into.new) (drop at b))) }
    ensures before { IsAsBefore (D.tells disk.old) (D.tells disk.new) }
    ensures cause { HasCause (D.tells disk.old).faults (D.tells disk.new).faults result }
{
    let mut count = 0;
    while count < into.len() {
        let more = read_on(disk, at, into, count)?;
        if more == 0 {
            return Ok(count);
        }
        count += more;
    }
    Ok(count)
}
