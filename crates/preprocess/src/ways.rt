//! What is found of an item's steps once, so that no value has to seek or read it.

ghost use Rattle.std.specs.Prelude.{◌≡◌, IfOk};
ghost use Rattle.preprocess.specs.Ways.{path_for, way_for, ways_for};

use crate::json::path_of;
use json_path::Path;
use pattern_set::Patterns;
use prep_steps::{parameter, pattern_place};
use std::alloc::Global;
use zbx_types::{Item, Many, OutOfMemory, StepKind, StepSpec};

/// What is found of a step once.
#[derive(Drop)]
pub struct Way {
    /// The path of a step that looks into JSON, if its parameter is one.
    pub path: Option<Path>,
    /// The place of the step's pattern among the patterns, counted from 1; 0 where its kind has none.
    pub place: u32,
}

/// The path of a step that looks into JSON, if its parameter is one.
fn path_for(alloc: Global, step: &StepSpec) -> Result<Option<Path>, OutOfMemory>
    ensures { IfOk result (λ path. path ≡ path_for step.now) }
{
    match step.kind {
        StepKind::JsonPath | StepKind::JsonError => path_of(alloc, parameter(&step.params, 0)),
        _ => Ok(None),
    }
}

fn way_for(alloc: Global, step: &StepSpec, patterns: &Patterns) -> Result<Way, OutOfMemory>
    ensures { IfOk result (λ way. way ≡ way_for patterns.now step.now) }
{
    Ok(Way {
        path: path_for(alloc, step)?,
        place: pattern_place(alloc, step, patterns),
    })
}

/// The ways of an item's steps, in the order of the steps: of a step that looks into JSON the path that its parameter
/// is, and of a step that has a pattern its place among `patterns`. [`OutOfMemory`] where there is no room for them.
pub fn ways_of(alloc: Global, item: &Item, patterns: &Patterns) -> Result<Many<Way>, OutOfMemory>
    ensures { IfOk result (λ ways. ways ≡ ways_for patterns.now item.now) }
{
    let mut ways = Many::new(alloc);
    for step in item.steps.as_slice() {
        ways.push(way_for(alloc, step, patterns)?)?;
    }
    Ok(ways)
}
