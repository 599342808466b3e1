//! A file that is opened, or made anew where it is short.

ghost use Rattle.std.specs.Prelude.{◌≡◌, ◌≤◌, ◌<◌, Some, length, take, true, is_some, IfSome, IfOk, OnOk};
ghost use Rattle.outside.specs.Causes.{HasCause};
ghost use Rattle.outside.specs.Disk.{Only, LeavesOnly, overwritten};
ghost use Rattle.gated_file.specs.Moments.{IsAsBefore};
ghost use Rattle.gated_file.specs.Opened.{begins, is_ours, made_ready, IsAsOneOf};

use crate::whole::read_whole;
use outside::{Disk, Failed};

/// Makes a fresh file of one that is no longer.
fn make_anew<D: Disk>(disk: &mut D, fresh: &[u8]) -> Result<(), Failed>
    requires { length fresh.now ≡ 9 }
    ensures made { OnOk result (IfSome (D.tells disk.old).bytes (λ b. (D.tells disk.new).bytes ≡ Some (overwritten b 0 fresh.now))) }
    ensures durable { OnOk result (IfSome (D.tells disk.new).bytes (λ b. Only b (D.tells disk.new))) }
    ensures told { is_some (D.tells disk.new).bytes ≡ is_some (D.tells disk.old).bytes }
    ensures any_moment { IfSome (D.tells disk.old).bytes (λ b. length b ≤ 9 → Only b (D.tells disk.old) → LeavesOnly (D.tells disk.old) (D.tells disk.new) (λ c. length c ≤ 9)) }
    ensures cause { HasCause (D.tells disk.old).faults (D.tells disk.new).faults result }
{
    disk.write_at(0, fresh)?;
    disk.sync()
}

/// Whether bytes begin as these do, as far as they go.
fn begins_with(bytes: &[u8], first: &[u8]) -> bool
    ensures { result ≡ begins first.now bytes.now }
{
    first.iter().zip(bytes).all(|(wanted, byte)| wanted == byte)
}

/// Whether a file begins as a fresh one does before its gate.
#[tactic(auto, using(crate::proofs::Openings::begins_front))]
fn is_like<D: Disk>(disk: &mut D, fresh: &[u8]) -> Result<bool, Failed>
    requires { length fresh.now ≡ 9 }
    ensures ours { IfOk result (λ ours. IfSome (D.tells disk.old).bytes (λ b. ours ≡ begins (take 8 fresh.now) b)) }
    ensures before { IsAsBefore (D.tells disk.old) (D.tells disk.new) }
    ensures cause { HasCause (D.tells disk.old).faults (D.tells disk.new).faults result }
{
    let mut first = [0; 8];
    let count = read_whole(disk, 0, &mut first)?;
    Ok(begins_with(&first[..count], &fresh[..8]))
}

/// Makes a file durable, makes a fresh one of it where it has at most 9 bytes, and says whether it is one that may be added
/// to: any other has to begin as a fresh one does before its gate.
///
/// A fresh file has 9 bytes: those with which each file of its form begins, and a closed gate.
pub fn prepare<D: Disk>(disk: &mut D, fresh: &[u8]) -> Result<bool, Failed>
    requires { length fresh.now ≡ 9 }
    ensures ours { IfOk result (λ ours. IfSome (D.tells disk.old).bytes (λ b. ours ≡ is_ours fresh.now b)) }
    ensures ready { IfOk result (λ ours. IfSome (D.tells disk.old).bytes (λ b. ours ≡ true → (D.tells disk.new).bytes ≡ Some (made_ready fresh.now b))) }
    ensures durable { IfOk result (λ ours. ours ≡ true → IfSome (D.tells disk.new).bytes (λ c. Only c (D.tells disk.new))) }
    ensures told { is_some (D.tells disk.new).bytes ≡ is_some (D.tells disk.old).bytes }

    // A crash at any moment of the call leaves what one before it might have left, or a short file in place of another.
    ensures any_moment { IfSome (D.tells disk.old).bytes (λ b. LeavesOnly (D.tells disk.old) (D.tells disk.new) (IsAsOneOf (D.tells disk.old))) }
    ensures cause { HasCause (D.tells disk.old).faults (D.tells disk.new).faults result }
{
    disk.sync()?;
    if disk.len()? <= 9 {
        make_anew(disk, fresh)?;
        return Ok(true);
    }
    is_like(disk, fresh)
}
