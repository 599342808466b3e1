//! The patterns of calls.

ghost use Rattle.std.specs.Prelude.{◌≡◌, IfOk, IfSome, Contains};
ghost use Rattle.zbx_types.specs.Ids.{at_id};
ghost use Rattle.zbx_types.specs.Operators.{call_pattern};
ghost use Rattle.history_functions.specs.Matching.{pattern_place};

use pattern_set::Patterns;
use std::alloc::Global;
use zbx_types::{Call, OutOfMemory};

/// The place of a call's pattern among patterns, for [`value_at`](crate::value_at): found once, it serves at each
/// evaluation. It is the place of the argument of `count` or `find` with the operator `regexp`, and with `iregexp` that of
/// the argument after `(?i)`; 0 where the call has no pattern, and where its pattern isn't among them. [`OutOfMemory`]
/// where there is no room for a copy of the argument.
#[tactic(auto, unfolding(zbx_types::specs::Ids::at_id))]
pub fn pattern_place(alloc: Global, call: &Call, patterns: &Patterns) -> Result<u32, OutOfMemory>
    ensures place { IfOk result (λ place. place ≡ pattern_place (call_pattern call.now) patterns.now) }
    ensures there { IfSome (call_pattern call.now) (Contains patterns.now) → IfOk result (λ place. at_id patterns.now place ≡ call_pattern call.now) }
{
    match call.pattern(alloc)? {
        Some(pattern) => Ok(patterns.find(&pattern)),
        None => Ok(0),
    }
}
