//! The patterns of the items' preprocessing steps.

ghost use Rattle.std.specs.Prelude.{◌++◌, [], codes};
ghost use Rattle.macro_text.specs.Expanded.{expanded};
ghost use Rattle.host_layout.specs.Answers.{Gives, GivesAs};
ghost use Rattle.host_layout.specs.Elements.{placed_item};
ghost use Rattle.host_layout.specs.Inherited.{Inherits};
ghost use Rattle.host_layout.specs.OwnedItems.{owned};
ghost use Rattle.host_layout.specs.Patterns.{used, joined, all_joined};
ghost use Rattle.host_layout.specs.PlacedSteps.{step_path, placed_step};
ghost use Rattle.host_layout.specs.StepPatterns.{used_by, used_by_item, step_patterns};

use crate::fault::FlatError;
use crate::inheritance::Inheritance;
use crate::owners::Owner;
use crate::passes::{ItemPass, visit_items};
use crate::patterns::{Joining, LONGEST_PATTERN, PatternList};
use crate::step_places::StepPlace;
use crate::templates::sources::Source;
use config_read::{RawConf, RawItem};
use macro_text::{Expansion, expand_within};
use std::alloc::Global;
use std::convert::AsStr;
use zbx_types::{Cause, StepSpec, Text};

/// The member that has the pattern of a step.
const FIRST_PARAM: &str = "/params/0";

/// Joins the pattern of a step with those before it.
fn join(
    alloc: Global,
    place: StepPlace<'_, '_>,
    patterns: &mut PatternList,
    text: &Text,
) -> Result<(), FlatError>
    ensures { GivesAs (λ _. patterns.new) result (joined patterns.old (used text.now (step_path place.entry ++ codes "/params/0"))) }
{
    match patterns.settle(text.as_str()) {
        Joining::Known => Ok(()),
        Joining::New => {
            let path = place.member(alloc, FIRST_PARAM)?;
            patterns.add(alloc, text.as_str(), path)?;
            Ok(())
        }
        Joining::Refused(cause) => Err(place.refused_member(alloc, FIRST_PARAM, cause)),
    }
}

/// The same of a pattern whose macros have their values.
fn join_expanded(
    alloc: Global,
    owner: &Owner<'_, '_>,
    place: StepPlace<'_, '_>,
    patterns: &mut PatternList,
    param: &Text,
) -> Result<(), FlatError>
    ensures { GivesAs (λ _. patterns.new) result (joined patterns.old (used (expanded owner.now.macros param.now) (step_path place.entry ++ codes "/params/0"))) }
{
    match expand_within(alloc, param, &owner.macros, LONGEST_PATTERN)? {
        Expansion::Whole(text) => join(alloc, place, patterns, &text),
        Expansion::Longer(_) => { Err(place.refused_member(alloc, FIRST_PARAM, Cause::BadMember)) }
    }
}

/// Joins the pattern of a step, where it has one, with those before it.
fn join_step(
    alloc: Global,
    owner: &Owner<'_, '_>,
    place: StepPlace<'_, '_>,
    patterns: &mut PatternList,
    raw: &StepSpec,
) -> Result<(), FlatError>
    ensures { GivesAs (λ _. patterns.new) result (all_joined patterns.old (used_by owner.now.macros (placed_step place.entry raw.now))) }
{
    if !raw.kind.has_pattern() {
        return Ok(());
    }
    match raw.params.as_slice() {
        [] => Ok(()),
        [param, ..] => join_expanded(alloc, owner, place, patterns, param),
    }
}

/// Joins the patterns of the steps of an item with those before them.
#[tactic(auto, using(crate::proofs::PassLemmas::element_then, crate::proofs::PassLemmas::element_fails))]
fn join_steps(
    alloc: Global,
    owner: &Owner<'_, '_>,
    source: &Source<'_>,
    index: usize,
    patterns: &mut PatternList,
    raw: &RawItem,
) -> Result<(), FlatError>
    ensures { GivesAs (λ _. patterns.new) result (all_joined patterns.old (used_by_item (owned owner.now.id owner.now.macros (placed_item source.now index raw.now)))) }
{
    for (at, spec) in raw.steps.as_slice().iter().enumerate() {
        let place = StepPlace {
            source,
            item: index,
            step: at,
        };
        join_step(alloc, owner, place, patterns, spec)?;
    }
    Ok(())
}

/// The pass that joins the patterns of items.
#[derive(Clone, Copy)]
struct PatternPass;

impl ItemPass for PatternPass {
    type Past = PatternList;

    ghost visits = { λ pass before o. all_joined before (used_by_item o) };

    fn visit(
        &self,
        alloc: Global,
        past: &mut PatternList,
        owner: &Owner<'_, '_>,
        source: &Source<'_>,
        index: usize,
        raw: &RawItem,
    ) -> Result<(), FlatError> {
        join_steps(alloc, owner, source, index, past, raw)
    }
}

/// The patterns of the steps of all items, in the order of their first uses.
///
/// # Errors
///
/// `TooMany` at the member that uses the 129th pattern. `BadMember` at the first that hasn't 1 to 255 bytes; where the
/// steps were prepared there is none.
#[tactic(auto, unfolding(crate::specs::StepPatterns::step_patterns))]
pub fn step_patterns(
    alloc: Global,
    raw: &RawConf,
    inheritance: &Inheritance<'_>,
) -> Result<PatternList, FlatError>
    requires { Inherits raw.now inheritance.now }
    ensures { Gives result (step_patterns raw.now) }
{
    let mut patterns = PatternList::new(alloc);
    visit_items(alloc, raw, inheritance, &PatternPass, &mut patterns)?;
    Ok(patterns)
}
