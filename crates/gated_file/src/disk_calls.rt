//! What is done to a disk to put a block behind a gate, in few calls of it.

ghost use Rattle.std.specs.Prelude.{◌≡◌, ◌<◌, ◌+◌, ◌^◌, [], ◌∷◌, Some, length, is_some, IfSome, OnOk};
ghost use Rattle.outside.specs.Causes.{HasCause};
ghost use Rattle.outside.specs.Disk.{Only, LeavesOnly, overwritten};
ghost use Rattle.gated_file.specs.Around.{IsAround};

use outside::{Disk, Failed};

/// Puts a block behind a gate that isn't open, and then opens the gate. Each of the two is durable before the next step.
pub fn keep<D: Disk>(disk: &mut D, gate: u64, block: &[u8]) -> Result<(), Failed>
    requires { gate < 2 ^ 63 }
    ensures kept { OnOk result (IfSome (D.tells disk.old).bytes (λ b. (D.tells disk.new).bytes ≡ Some (overwritten (overwritten b (gate + 1) block.now) gate (1 ∷ [])))) }
    ensures durable { OnOk result (IfSome (D.tells disk.new).bytes (λ b. Only b (D.tells disk.new))) }
    ensures told { is_some (D.tells disk.new).bytes ≡ is_some (D.tells disk.old).bytes }
    ensures any_moment { IfSome (D.tells disk.old).bytes (λ b. gate < length b → Only b (D.tells disk.old) → LeavesOnly (D.tells disk.old) (D.tells disk.new) (IsAround b gate block.now)) }
    ensures cause { HasCause (D.tells disk.old).faults (D.tells disk.new).faults result }
{
    disk.write_at(gate + 1, block)?;
    disk.sync()?;
    disk.write_at(gate, &[1])?;
    disk.sync()
}
