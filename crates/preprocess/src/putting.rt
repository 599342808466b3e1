//! What a visit leaves, put in place.

ghost use Rattle.std.specs.Prelude.{◌≡◌, ◌≢◌, Some, IfSome, map, option_map, ℕ};
ghost use Rattle.value_cache.specs.Tokens.{CacheId, IsOf};
ghost use Rattle.preprocess.specs.Cached.{outcome_in, token_by};
ghost use Rattle.preprocess.specs.Draft.{HasRoom, AreIn, kept_of, stored_by};
ghost use Rattle.preprocess.specs.Putting.{kept_put};
ghost use Rattle.preprocess.specs.Rows.{with_row};

use crate::cached::{CachedOutcome, CachedVisit};
use crate::cells::Cells;
use prep_steps::StepMemory;
use value_cache::{ItemCell, Token};
use zbx_types::{Many, Moment};

/// What the steps of an item remember from now on.
#[tactic(auto, using(crate::proofs::Keeping::marks_none, crate::proofs::Keeping::marks_past, crate::proofs::Keeping::marks_set))]
fn put_marks(memories: &mut Vec<Many<StepMemory>>, item: u32, marks: Many<StepMemory>)
    ensures { memories.new.items ≡ with_row memories.old.items item marks }
{
    if item == 0 {
        return;
    }
    let index = item as usize - 1;
    if index < memories.len() {
        memories[index] = marks;
    }
}

/// One more value of an item, if it has a cell.
#[tactic(auto, using(crate::proofs::Keeping::put_none, crate::proofs::Keeping::put_past, crate::proofs::Keeping::put_kept, crate::proofs::Keeping::room_at, crate::proofs::Keeping::room_apart))]
fn put_value(cells: &mut Vec<ItemCell>, item: u32, token: Token, now: Moment)
    requires { HasRoom cells.old.items item }
    ensures kept { map kept_of cells.new.items ≡ kept_put now (Some token.value) item (map kept_of cells.old.items) }
    ensures of { (cache : CacheId) → IsOf cache token → AreIn cache cells.old.items → AreIn cache cells.new.items }
    ensures others { (other : ℕ) → other ≢ item → HasRoom cells.old.items other → HasRoom cells.new.items other }
{
    if item == 0 {
        return;
    }
    let index = item as usize - 1;
    if index >= cells.len() {
        return;
    }
    cells[index].insert_token(token, now);
}

/// The token of the value that a visit stores, if it stores one.
fn token_by(outcome: CachedOutcome) -> Option<Token>
    ensures token { result ≡ token_by outcome }
    ensures stored { option_map (λ t. t.value) result ≡ stored_by (outcome_in outcome) }
{
    match outcome {
        CachedOutcome::Stored(token) => Some(token),
        CachedOutcome::Discarded | CachedOutcome::Failed(_) => None,
    }
}

/// What a visit leaves at a moment: the value that its item stores, and what the steps of the item remember.
pub(crate) fn put(cells: &mut Cells, visit: CachedVisit, now: Moment)
    requires { HasRoom cells.old.cells.items visit.item }
    ensures kept { map kept_of cells.new.cells.items ≡ kept_put now (stored_by (outcome_in visit.outcome)) visit.item (map kept_of cells.old.cells.items) }
    ensures of { (cache : CacheId) → IfSome (token_by visit.outcome) (IsOf cache) → AreIn cache cells.old.cells.items → AreIn cache cells.new.cells.items }
    ensures memories { cells.new.memories.items ≡ with_row cells.old.memories.items visit.item visit.marks }
    ensures others { (other : ℕ) → other ≢ visit.item → HasRoom cells.old.cells.items other → HasRoom cells.new.cells.items other }
{
    let CachedVisit {
        item,
        outcome,
        marks,
    } = visit;
    put_marks(&mut cells.memories, item, marks);
    match token_by(outcome) {
        Some(token) => put_value(&mut cells.cells, item, token, now),
        None => {}
    }
}
