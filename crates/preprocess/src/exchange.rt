//! Values that are exchanged for those in a list.

ghost use Rattle.std.specs.Prelude.{◌≡◌};
ghost use Rattle.std.specs.Option.{unwrap_or};
ghost use Rattle.zbx_types.specs.Ids.{at_id};
ghost use Rattle.preprocess.specs.Rows.{with_row};

use std::mem::swap;

/// Exchanges a value for the item of a list with an id. Where there is no such item, both are as before. Takes no memory.
#[tactic(auto, using(crate::proofs::Exchanging::put_none, crate::proofs::Exchanging::put_past, crate::proofs::Exchanging::put_in, crate::proofs::Exchanging::had_none, crate::proofs::Exchanging::had_past, crate::proofs::Exchanging::had_in))]
pub fn exchange_at<T>(items: &mut Vec<T>, id: u32, one: &mut T)
    ensures items { items.new.items ≡ with_row items.old.items id one.old }
    ensures one { one.new ≡ unwrap_or (at_id items.old.items id) one.old }
{
    if id == 0 {
        return;
    }
    let index = id as usize - 1;
    if index >= items.len() {
        return;
    }
    swap(&mut items[index], one);
}
