//! Lanes, and the notes in them.

ghost use Rattle.std.specs.Prelude.{◌≡◌, ◌<◌, ◌≤◌, ◌+◌, ◌^◌, length, map, All, IfOk};
ghost use Rattle.alert_queue.specs.Lanes.{empty_lane};
ghost use Rattle.alert_queue.specs.Queues.{count_left};
ghost use Rattle.alert_queue.specs.New.{joined, filled};

use crate::lane::Lane;
use crate::types::Kind;
use std::alloc::{AllocError, Global};

/// Lanes without notes, of these kinds.
#[tactic(auto, using(crate::proofs::Fillings::limited_at, crate::proofs::Fillings::empty_more, crate::proofs::Fillings::empty_all))]
pub(crate) fn empty_lanes(alloc: Global, kinds: &[Kind]) -> Result<Vec<Lane>, AllocError>
    requires { All (λ kind. 0 < kind.limit) kinds.now }
    ensures { IfOk result (λ lanes. lanes.items ≡ map empty_lane kinds.now) }
{
    let mut lanes = Vec::new(alloc);
    for kind in kinds {
        lanes.push(Lane::new(alloc, *kind))?;
    }
    Ok(lanes)
}

/// Puts a note into its recipient's lane, unless it has a mark, and answers how many there are more.
#[tactic(auto, using(crate::proofs::Fillings::joined_open, crate::proofs::Fillings::one_more))]
fn join(lanes: &mut Vec<Lane>, home: usize, is_marked: bool, note: u32) -> Result<u64, AllocError>
    requires { home < length lanes.old.items }
    ensures lanes { IfOk result (λ more. lanes.new.items ≡ joined lanes.old.items note home is_marked) }
    ensures left { IfOk result (λ more. count_left lanes.new.items ≡ count_left lanes.old.items + more) }
    ensures few { IfOk result (λ more. more ≤ 1) }
{
    if is_marked {
        return Ok(0);
    }
    lanes[home].push(note)?;
    Ok(1)
}

/// Puts the notes that have no mark into the lanes of their recipients, and answers how many they are.
#[tactic(auto, using(crate::proofs::Fillings::home_there, crate::proofs::Fillings::filled_all))]
pub(crate) fn fill(lanes: &mut Vec<Lane>, homes: &[u32], marked: &[bool]) -> Result<u64, AllocError>
    requires few { length homes.now < 2 ^ 32 }
    requires told { length marked.now ≡ length homes.now }
    requires there { All (λ home. home < length lanes.old.items) homes.now }
    requires empty { count_left lanes.old.items ≡ 0 }
    ensures filled { IfOk result (λ left. lanes.new.items ≡ filled lanes.old.items 1 homes.now marked.now) }
    ensures left { IfOk result (λ left. left ≡ count_left lanes.new.items) }
{
    let mut left = 0;
    for place in 0..homes.len() {
        let more = join(
            lanes,
            homes[place] as usize,
            marked[place],
            place as u32 + 1,
        )?;
        left += more;
    }
    Ok(left)
}
