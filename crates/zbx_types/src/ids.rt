//! Ids, which count from 1.

ghost use Rattle.std.specs.Prelude.{◌≡◌, ◌+◌, option_copied, IfOk};
ghost use Rattle.zbx_types.specs.Ids.{at_id};

use crate::memory::OutOfMemory;

/// The item of a list with this id. Ids count from 1, in the list's order; None for 0 and for ids past the end.
#[tactic(auto, unfolding(crate::specs::Ids::at_id))]
pub fn by_id<T>(items: &[T], id: u32) -> Option<&T>
    ensures { option_copied result ≡ at_id items.now id }
{
    if id == 0 {
        None
    } else {
        items.get(id as usize - 1)
    }
}

/// The id of what stands at a place, counted from 0. [`OutOfMemory`] where it has none in 32 bits: so many can't be kept.
pub fn id_of(place: usize) -> Result<u32, OutOfMemory>
    ensures { IfOk result (λ id. id ≡ place + 1) }
{
    if place < u32::MAX as usize {
        Ok(place as u32 + 1)
    } else {
        Err(OutOfMemory)
    }
}
