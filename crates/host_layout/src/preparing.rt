//! Preprocessing steps of the flat configuration (the Zabbix 6.0 manual, "Item value preprocessing").

ghost use Rattle.std.specs.Prelude.{◌≡◌, ◌++◌, [], None, IfOk, codes};
ghost use Rattle.macro_text.specs.Expanded.{expanded};
ghost use Rattle.host_layout.specs.Answers.{Gives};
ghost use Rattle.host_layout.specs.Elements.{placed_item};
ghost use Rattle.host_layout.specs.Inherited.{Inherits};
ghost use Rattle.host_layout.specs.Names.{named_items};
ghost use Rattle.host_layout.specs.OwnedItems.{owned, owned_items, adding, with_each};
ghost use Rattle.host_layout.specs.PlacedSteps.{step_path, placed_step, placed_param};
ghost use Rattle.host_layout.specs.Places.{placed, each, each_list};
ghost use Rattle.host_layout.specs.Prepared.{short_passed, param_of, step_of, steps_of, with_steps, prepared};

use crate::fault::FlatError;
use crate::inheritance::Inheritance;
use crate::owners::Owner;
use crate::passes::{ItemPass, visit_items};
use crate::step_params::param_cause;
use crate::step_places::StepPlace;
use crate::templates::sources::Source;
use config_read::{RawConf, RawItem};
use macro_text::{Expansion, expand_within};
use std::alloc::Global;
use std::mem::replace;
use zbx_types::{Cause, Item, LONGEST_VALUE, Many, StepKind, StepSpec, Text};

/// A parameter of a step, behind those before it, its macros having their values.
#[tactic(auto, using(crate::proofs::Failing::refusal, crate::proofs::Shorts::whole, crate::proofs::Shorts::longer), unfolding(crate::specs::Prepared::param_of))]
fn param(
    alloc: Global,
    owner: &Owner<'_, '_>,
    place: StepPlace<'_, '_>,
    kind: StepKind,
    before: &Many<Text>,
    index: usize,
    text: &Text,
) -> Result<Text, FlatError>
    ensures { Gives result (param_of kind owner.now.macros before.now (placed_param place.entry index text.now)) }
{
    match expand_within(alloc, text, &owner.macros, LONGEST_VALUE)? {
        Expansion::Whole(text) => match param_cause(alloc, kind, before, &text)? {
            None => Ok(text),
            Some(cause) => Err(place.refused_param(alloc, index, cause)),
        },
        Expansion::Longer(_) => { Err(place.refused_param(alloc, index, Cause::BadMember)) }
    }
}

/// The parameters of a step.
#[tactic(auto, using(crate::proofs::PassLemmas::one_fails))]
fn params(
    alloc: Global,
    owner: &Owner<'_, '_>,
    place: StepPlace<'_, '_>,
    raw: &StepSpec,
) -> Result<Many<Text>, FlatError>
    ensures { Gives result (each (param_of raw.now.kind owner.now.macros) [] (placed (step_path place.entry ++ codes "/params") raw.now.params)) }
{
    let mut made = Many::new(alloc);
    for (index, text) in raw.params.as_slice().iter().enumerate() {
        let one = param(alloc, owner, place, raw.kind, &made, index, text)?;
        made.push(one)?;
    }
    Ok(made)
}

/// The text of a step.
#[tactic(auto, using(crate::proofs::Failing::refusal, crate::proofs::Shorts::whole, crate::proofs::Shorts::longer))]
fn text(
    alloc: Global,
    owner: &Owner<'_, '_>,
    place: StepPlace<'_, '_>,
    raw: &StepSpec,
) -> Result<Text, FlatError>
    ensures { Gives result (short_passed (step_path place.entry ++ codes "/text") (expanded owner.now.macros raw.now.text) None) }
{
    match expand_within(alloc, &raw.text, &owner.macros, LONGEST_VALUE)? {
        Expansion::Whole(text) => Ok(text),
        Expansion::Longer(_) => Err(place.refused_member(alloc, "/text", Cause::BadMember)),
    }
}

/// A step, its macros having their values.
#[tactic(auto, unfolding(crate::specs::Prepared::step_of))]
fn step(
    alloc: Global,
    owner: &Owner<'_, '_>,
    place: StepPlace<'_, '_>,
    raw: &StepSpec,
) -> Result<StepSpec, FlatError>
    ensures { Gives result (step_of owner.now.macros (placed_step place.entry raw.now)) }
{
    let params = params(alloc, owner, place, raw)?;
    let text = text(alloc, owner, place, raw)?;
    Ok(StepSpec {
        kind: raw.kind,
        params,
        on_fail: raw.on_fail,
        text,
    })
}

/// The steps of an item, their macros having their values.
#[tactic(auto, using(crate::proofs::PassLemmas::added_fails), unfolding(crate::specs::Prepared::steps_of))]
fn steps(
    alloc: Global,
    owner: &Owner<'_, '_>,
    source: &Source<'_>,
    index: usize,
    raw: &RawItem,
) -> Result<Many<StepSpec>, FlatError>
    ensures { Gives result (steps_of (owned owner.now.id owner.now.macros (placed_item source.now index raw.now))) }
{
    let mut made = Many::new(alloc);
    for (at, spec) in raw.steps.as_slice().iter().enumerate() {
        let place = StepPlace {
            source,
            item: index,
            step: at,
        };
        made.push(step(alloc, owner, place, spec)?)?;
    }
    Ok(made)
}

/// The pass that makes the steps of items.
#[derive(Clone, Copy)]
struct StepPass;

impl ItemPass for StepPass {
    type Past = Many<Many<StepSpec>>;

    ghost visits = { λ pass. adding steps_of };

    fn visit(
        &self,
        alloc: Global,
        past: &mut Many<Many<StepSpec>>,
        owner: &Owner<'_, '_>,
        source: &Source<'_>,
        index: usize,
        raw: &RawItem,
    ) -> Result<(), FlatError> {
        let steps = steps(alloc, owner, source, index, raw)?;
        past.push(steps)?;
        Ok(())
    }
}

/// The steps of all items.
fn all_steps(
    alloc: Global,
    raw: &RawConf,
    inheritance: &Inheritance<'_>,
) -> Result<Many<Many<StepSpec>>, FlatError>
    requires { Inherits raw.now inheritance.now }
    ensures { Gives result (each_list (adding steps_of) [] (owned_items raw.now)) }
{
    let mut made = Many::new(alloc);
    visit_items(alloc, raw, inheritance, &StepPass, &mut made)?;
    Ok(made)
}

/// The items with these steps. Takes no memory.
#[tactic(auto, using(crate::proofs::Putting::move_one, crate::proofs::Putting::put_all, crate::proofs::Putting::all_put, crate::proofs::Fellows::same_stepped))]
fn with_steps(alloc: Global, items: Many<Item>, lists: Many<Many<StepSpec>>) -> Many<Item>
    ensures items { result ≡ with_each with_steps items lists }
    ensures names { named_items result ≡ named_items items }
{
    let mut items = items.into_vec();
    let mut lists = lists.into_vec();
    for place in 0..items.len() {
        if place >= lists.len() {
            return Many::from_vec(items);
        }
        items[place].steps = replace(&mut lists[place], Many::new(alloc));
    }
    Many::from_vec(items)
}

/// The items of all hosts with their preprocessing steps, in whose parameters and texts macros have their values.
///
/// # Errors
///
/// `BadMember` or `BadPath` at the first parameter or text with which something is wrong, of items in their order, steps in
/// theirs, and parameters in theirs before the text.
#[tactic(auto, unfolding(crate::specs::Prepared::prepared))]
pub fn prepared(
    alloc: Global,
    raw: &RawConf,
    inheritance: &Inheritance<'_>,
    items: Many<Item>,
) -> Result<Many<Item>, FlatError>
    requires { Inherits raw.now inheritance.now }
    ensures gives { Gives result (prepared raw.now items) }
    ensures names { IfOk result (λ made. named_items made ≡ named_items items) }
{
    let lists = all_steps(alloc, raw, inheritance)?;
    Ok(with_steps(alloc, items, lists))
}
