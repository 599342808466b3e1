//! Visits whose values stand in the cache.

ghost use Rattle.std.specs.Prelude.{◌≡◌, ◌++◌, ◌∷◌, [], IfOk, OnOk, IfSome, option_copied};
ghost use Rattle.value_cache.specs.Tokens.{CacheId, IsOf, AreOf};
ghost use Rattle.preprocess.specs.Cached.{outcome_in, visit_in, token_by, visits_shown, tokens_shown};

use crate::visit::{ItemOutcome, Visit};
use prep_steps::StepMemory;
use value_cache::{Cache, Token};
use zbx_types::{Many, OutOfMemory, Text};

/// What an entry's value left at an item, where what is stored stands in the cache.
#[derive(Drop)]
pub(crate) enum CachedOutcome {
    /// The item stores the value that this shows.
    Stored(Token),
    /// Nothing is stored, without an error.
    Discarded,
    /// It failed with this text.
    Failed(Text),
}

/// What an entry's value did at an item to which it came, where what is stored stands in the cache.
#[derive(Drop)]
pub(crate) struct CachedVisit {
    pub(crate) item: u32,
    pub(crate) outcome: CachedOutcome,
    /// What the steps to which it came remember from then on.
    pub(crate) marks: Many<StepMemory>,
}

impl CachedVisit {
    /// The token of the value that it stores, if it stores one.
    pub(crate) fn token(&self) -> Option<&Token>
        ensures token { option_copied result ≡ token_by self.now.outcome }
        ensures of { (cache : CacheId) → IfSome (token_by self.now.outcome) (IsOf cache) → IfSome result (λ t. IsOf cache t.now) }
    {
        match &self.outcome {
            CachedOutcome::Stored(token) => Some(token),
            CachedOutcome::Discarded | CachedOutcome::Failed(_) => None,
        }
    }
}

/// An outcome, of which the value that is stored goes into the cache.
fn cached_outcome(cache: &Cache, outcome: ItemOutcome) -> Result<CachedOutcome, OutOfMemory>
    ensures shown { IfOk result (λ made. outcome_in made ≡ outcome) }
    ensures of { IfOk result (λ made. IfSome (token_by made) (IsOf cache.now)) }
{
    match outcome {
        ItemOutcome::Stored(stored) => match cache.push(stored) {
            Ok(token) => Ok(CachedOutcome::Stored(token)),
            Err(refused) => {
                drop(refused);
                Err(OutOfMemory)
            }
        },
        ItemOutcome::Discarded => Ok(CachedOutcome::Discarded),
        ItemOutcome::Failed(why) => Ok(CachedOutcome::Failed(why)),
    }
}

/// A visit, of which the value that is stored goes into the cache.
fn cached(cache: &Cache, visit: Visit) -> Result<CachedVisit, OutOfMemory>
    ensures shown { IfOk result (λ made. visit_in made ≡ visit) }
    ensures of { IfOk result (λ made. IfSome (token_by made.outcome) (IsOf cache.now)) }
{
    let Visit {
        item,
        outcome,
        marks,
    } = visit;
    match cached_outcome(cache, outcome) {
        Ok(outcome) => Ok(CachedVisit {
            item,
            outcome,
            marks,
        }),
        Err(OutOfMemory) => {
            drop(marks);
            Err(OutOfMemory)
        }
    }
}

/// Adds a visit, of which the value that is stored goes into the cache. Where memory is refused the value may stay there.
#[tactic(auto, using(crate::proofs::Caching::of_more, crate::proofs::Caching::shown_more))]
pub(crate) fn add_visit(
    cache: &Cache,
    visits: &mut Many<CachedVisit>,
    visit: Visit,
) -> Result<(), OutOfMemory>
    ensures shown { OnOk result (visits_shown visits.new ≡ visits_shown visits.old ++ visit ∷ []) }
    ensures of { OnOk result (AreOf cache.now (tokens_shown visits.old) → AreOf cache.now (tokens_shown visits.new)) }
{
    visits.push(cached(cache, visit)?)?;
    Ok(())
}
